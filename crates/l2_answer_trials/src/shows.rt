// What is shown of texts.
use crate::trial::{asked, report, shelf};
use std::alloc::{AllocError, Global};
use std::marker::Sync;
use std::thread::Threads;

const CHOICE: &str = "int main(void){int x=__VERIFIER_nondet_int();assert(x!=7);return 0;}";

const COUNT: &str = "int main(void){int i=0;while(i<3){i=i+1;}assert(i==3);return 0;}";

const NESTED: &str =
    "int main(void){int i=0;while(i<3){int j=0;while(j<i){j=j+1;}i=i+1;}return i;}";

/// What is shown of a text.
fn seen<R: Threads + Sync + Print>(
    rt: &R,
    alloc: Global,
    view: &str,
    text: &[u8],
) -> Result<String, AllocError> {
    let mut shelf = shelf(alloc, text, "", &[])?;
    asked(rt, alloc, &["show", view, "a.c"], &mut shelf, 1_000)
}

/// Both views of a text.
fn both<R: Threads + Sync + Print>(rt: &R, alloc: Global, text: &[u8]) -> bool {
    report(rt, seen(rt, alloc, "goto", text)) && report(rt, seen(rt, alloc, "loops", text))
}

/// A text with so many assignments.
fn long(alloc: Global, assignments: usize) -> Result<Vec<u8>, AllocError> {
    let mut text = Vec::from_slice(alloc, b"int main(void){int n=0;")?;
    for _ in 0..assignments {
        text.extend_from_slice(b"n=1;")?;
    }
    text.extend_from_slice(b"return 0;}")?;
    Ok(text)
}

/// Both views of a text with so many assignments, of which a sink takes few bytes.
fn large<R: Threads + Sync + Print>(rt: &R, alloc: Global, assignments: usize) -> bool {
    match long(alloc, assignments) {
        Ok(text) => both(rt, alloc, &text),
        Err(_) => false,
    }
}

/// Programs of the small form, some as large as a code may be and larger.
pub fn programs<R: Threads + Sync + Print>(rt: &R, alloc: Global) -> bool {
    both(rt, alloc, b"int main(void){return 0;}")
        && both(rt, alloc, CHOICE.as_bytes())
        && both(rt, alloc, COUNT.as_bytes())
        && both(rt, alloc, NESTED.as_bytes())
        && large(rt, alloc, 65_530)
        && large(rt, alloc, 65_531)
}

/// Texts that are refused.
pub fn refusals<R: Threads + Sync + Print>(rt: &R, alloc: Global) -> bool {
    both(rt, alloc, b"") && both(rt, alloc, b"int x y;08") && both(rt, alloc, b"int g; /*")
}

/// What words are answered where there is a file `a.c`.
fn said<R: Threads + Sync + Print>(rt: &R, alloc: Global, words: &[&str], failing: &[u64]) -> bool {
    let answer = match shelf(alloc, COUNT.as_bytes(), "", failing) {
        Ok(mut shelf) => asked(rt, alloc, words, &mut shelf, 20),
        Err(error) => Err(error),
    };
    report(rt, answer)
}

/// Words that are a command or none, and files that aren't read.
pub fn commands<R: Threads + Sync + Print>(rt: &R, alloc: Global) -> bool {
    said(rt, alloc, &["show"], &[])
        && said(rt, alloc, &["show", "goto"], &[])
        && said(rt, alloc, &["show", "dot", "a.c"], &[])
        && said(rt, alloc, &["show", "Goto", "a.c"], &[])
        && said(rt, alloc, &["show", "goto", "a.c", "a.c"], &[])
        && said(
            rt,
            alloc,
            &["show", "loops", "a.c", "--signed-overflow-check"],
            &[],
        )
        && said(rt, alloc, &["goto", "a.c"], &[])
        && said(rt, alloc, &["show", "--", "loops", "a.c"], &[])
        && said(rt, alloc, &["show", "loops", "missing"], &[])
        && said(rt, alloc, &["show", "loops", "a.c"], &[1])
        && said(rt, alloc, &["show", "goto", "a.c"], &[])
}
