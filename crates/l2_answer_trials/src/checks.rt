// What certificates are answered, and made texts.
use crate::trial::{asked, report, shelf};
use std::alloc::{AllocError, Global};
use std::marker::Sync;
use std::thread::Threads;

const ONE: &str = "int main(void){assert(1);return 0;}";

const STEP: &str = "checks plain\nk 1\nloops 0\ngoals 1\ngoal 1 lines 1\n3 0 2 0\nend\n";

/// What words are answered where `a.c` is this text, and `v` has these lines behind its first two.
fn said<R: Threads + Sync + Print>(
    rt: &R,
    alloc: Global,
    words: &[&str],
    text: &str,
    lines: &str,
    failing: &[u64],
) -> Result<String, AllocError> {
    let certificate = format!(in alloc; "2ls certificate 1\nkind safe\n{lines}")?;
    let mut shelf = shelf(alloc, text.as_bytes(), certificate.as_str(), failing)?;
    asked(rt, alloc, words, &mut shelf, 100)
}

/// A text with a certificate that has these lines.
fn of<R: Threads + Sync + Print>(rt: &R, alloc: Global, text: &str, lines: &str) -> bool {
    report(
        rt,
        said(rt, alloc, &["check", "a.c", "v"], text, lines, &[]),
    )
}

/// Certificates of a small text, and refusals in their order.
pub fn certificates<R: Threads + Sync + Print>(rt: &R, alloc: Global) -> bool {
    of(rt, alloc, ONE, STEP)
        && of(
            rt,
            alloc,
            ONE,
            "checks plain\nk 1\nloops 1\nloop 1 bottom\ngoals 0\nend\n",
        )
        && of(rt, alloc, ONE, "checks plain\nk 1\nloops 0\ngoals 0\nend\n")
        && of(
            rt,
            alloc,
            ONE,
            "checks plain\nk 1\nloops 0\ngoals 1\ngoal 1 lines 1\n3 0 3 0\nend\n",
        )
        && of(
            rt,
            alloc,
            ONE,
            "checks plain\nk 1\nloops 0\ngoals 1\ngoal 1 lines 0\nend\n",
        )
        && of(rt, alloc, ONE, "checks plain\nk 01\n")
        && of(
            rt,
            alloc,
            ONE,
            "checks overflow\nk 1\nloops 0\ngoals 0\nend\n",
        )
        && of(rt, alloc, "int x", "")
}

/// What words are answered where there is such a certificate, and this read fails.
fn asks<R: Threads + Sync + Print>(rt: &R, alloc: Global, words: &[&str], failing: &[u64]) -> bool {
    report(rt, said(rt, alloc, words, ONE, STEP, failing))
}

/// Words, and files that aren't read.
pub fn commands<R: Threads + Sync + Print>(rt: &R, alloc: Global) -> bool {
    asks(rt, alloc, &["check", "a.c", "v", "--jobs", "3"], &[])
        && asks(rt, alloc, &["check", "a.c", "v", "--jobs=65"], &[])
        && asks(rt, alloc, &["check", "a.c"], &[])
        && asks(rt, alloc, &["check", "a.c", "v"], &[1])
        && asks(rt, alloc, &["check", "a.c", "v"], &[2])
        && asks(rt, alloc, &["check", "missing", "v"], &[])
        && asks(rt, alloc, &["check", "a.c", "missing"], &[])
        && asks(rt, alloc, &["generate", "1", "--loops", "2"], &[])
        && asks(rt, alloc, &["generate", "1", "--loops", "65"], &[])
}
