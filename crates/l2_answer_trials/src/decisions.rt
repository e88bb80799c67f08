// What the decisions of texts are answered, and their certificates.
use crate::trial::{asked, report, shelf};
use std::alloc::{AllocError, Global};
use std::marker::Sync;
use std::thread::Threads;

const EMPTY: &str = "int main(void){return 0;}";

const CHOICE: &str = "int main(void){int x=__VERIFIER_nondet_int();assert(x!=7);return 0;}";

const TEN: &str = "int main(void){int i=0;while(i<10){i=i+1;}assert(i==10);return 0;}";

/// What words are answered where `a.c` is this text and these calls fail, and then `check a.c o` with these jobs.
fn decided<R: Threads + Sync + Print>(
    rt: &R,
    alloc: Global,
    words: &[&str],
    text: &str,
    failing: &[u64],
) -> Result<String, AllocError> {
    let mut shelf = shelf(alloc, text.as_bytes(), "", failing)?;
    let mut all = asked(rt, alloc, words, &mut shelf, 200)?;
    let checked = asked(
        rt,
        alloc,
        &["check", "a.c", "o", "--jobs", "3"],
        &mut shelf,
        200,
    )?;
    all.push_str(" ")?;
    all.push_str(checked.as_str())?;
    Ok(all)
}

fn on<R: Threads + Sync + Print>(
    rt: &R,
    alloc: Global,
    words: &[&str],
    text: &str,
    failing: &[u64],
) -> bool {
    report(rt, decided(rt, alloc, words, text, failing))
}

/// Verdicts of small texts, whose certificates are accepted, and faults of writing them.
pub fn verdicts<R: Threads + Sync + Print>(rt: &R, alloc: Global) -> bool {
    let out = ["verify", "a.c", "--certificate", "o"];
    let ends = ["termination", "a.c", "--certificate", "o"];
    on(rt, alloc, &out, EMPTY, &[])
        && on(rt, alloc, &out, EMPTY, &[1])
        && on(rt, alloc, &out, EMPTY, &[2])
        && on(rt, alloc, &out, CHOICE, &[])
        && on(rt, alloc, &out, TEN, &[])
        && on(rt, alloc, &["verify", "a.c", "--domain", "none"], TEN, &[])
        && on(
            rt,
            alloc,
            &["verify", "a.c", "--domain=none", "--unwind=1"],
            TEN,
            &[],
        )
        && on(rt, alloc, &ends, TEN, &[])
        && on(
            rt,
            alloc,
            &["verify", "a.c", "--signed-overflow-check"],
            TEN,
            &[],
        )
        && on(rt, alloc, &["verify", "missing"], TEN, &[])
}
