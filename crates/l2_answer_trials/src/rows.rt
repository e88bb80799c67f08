// The texts, the values files and the words that are tried.
use crate::trial::{asked, replayed, report, shelf};
use std::alloc::{AllocError, Global};
use std::marker::Sync;
use std::thread::Threads;

const ROW: &str = "int main(void){int x=__VERIFIER_nondet_int();assert(x!=7);return 0;}";

const COUNT: &str =
    "int main(void){int n=__VERIFIER_nondet_int();int i=0;while(i<n){i=i+1;}assert(i==n);return 0;}";

const NESTED: &str =
    "int main(void){int i=0;int s=0;while(i<3){int j=0;while(j<2){s=s+1;j=j+1;}i=i+1;}assert(s==6);return 0;}";

const WRAPS: &str =
    "int main(void){int x=2147483647;x=x+1;assert(x==-2147483647-1);x=-x;assert(x<0);x=x-1;assert(x==2147483647);return 0;}";

const DIRECTIVES: &str =
    "# 1 \"ex.c\"\n#define N 3\nint main(void){int x=N;assert(x==3);return 0;}";

const LEAST: &str =
    "#include <limits.h>\nint main(void){int x=INT_MIN;while(x<0){x=-(x+1);}assert(x==INT_MAX);return 0;}";

const SHADOWS: &str = "int main(void){int x=1;if(x){int x=2;}return 0;}";

/// A text on a values file with these lines behind its first.
fn on<R: Threads + Sync + Print>(rt: &R, alloc: Global, text: &str, lines: &str) -> bool {
    let answer = match format!(in alloc; "2ls values 1\n{lines}") {
        Ok(values) => replayed(rt, alloc, text.as_bytes(), values.as_str()),
        Err(error) => Err(error),
    };
    report(rt, answer)
}

/// Programs of the small form.
pub fn executions<R: Threads + Sync + Print>(rt: &R, alloc: Global) -> bool {
    on(rt, alloc, ROW, "turns 0\nchoice 7\nend\n")
        && on(rt, alloc, ROW, "turns 0\nchoice 6\nend\n")
        && on(rt, alloc, ROW, "turns 0\nend\n")
        && on(rt, alloc, ROW, "turns 0\n")
        && on(rt, alloc, COUNT, "turns 10\nchoice 3\nend\n")
        && on(rt, alloc, COUNT, "turns 10\nchoice -1\nend\n")
        && on(rt, alloc, COUNT, "turns 3\nchoice 3\nend\n")
        && on(rt, alloc, NESTED, "turns 13\nend\n")
        && on(rt, alloc, NESTED, "turns 12\nend\n")
        && on(rt, alloc, WRAPS, "turns 0\nend\n")
        && on(rt, alloc, DIRECTIVES, "turns 0\nend\n")
        && on(rt, alloc, LEAST, "turns 2\nend\n")
}

/// A text that is refused.
fn refused<R: Threads + Sync + Print>(rt: &R, alloc: Global, text: &[u8]) -> bool {
    report(
        rt,
        replayed(rt, alloc, text, "2ls values 1\nturns 0\nend\n"),
    )
}

/// Texts that are refused where reading stops, or that are beyond the small form.
pub fn refusals<R: Threads + Sync + Print>(rt: &R, alloc: Global) -> bool {
    refused(rt, alloc, b"int g; /*")
        && refused(rt, alloc, b"int main(void){return 08;}")
        && refused(rt, alloc, b"#define A A")
        && refused(rt, alloc, b"int x y;08")
        && refused(rt, alloc, b"int main(void){return 1 2;}")
        && refused(rt, alloc, b"int main(void){")
        && refused(rt, alloc, b"int g;\nfloat f;\nint main(void){return h;}")
        && refused(rt, alloc, b"int \x80;")
        && refused(rt, alloc, b"int g=\"abc")
        && refused(rt, alloc, SHADOWS.as_bytes())
        && refused(rt, alloc, b"")
        && on(rt, alloc, "", "turns 0\n")
}

/// A text, with so many `(` behind it.
fn deep<R: Threads + Sync + Print>(
    rt: &R,
    alloc: Global,
    start: &str,
    depth: usize,
) -> Result<String, AllocError> {
    let mut text = Vec::from_slice(alloc, start.as_bytes())?;
    for _ in 0..depth {
        text.push(b'(')?;
    }
    replayed(rt, alloc, &text, "2ls values 1\nturns 0\nend\n")
}

/// Texts as long and as deep as a limit, and beyond.
pub fn limits<R: Threads + Sync + Print>(rt: &R, alloc: Global) -> bool {
    report(rt, deep(rt, alloc, "int main(void){return ", 127))
        && report(rt, deep(rt, alloc, "int main(void){return ", 128))
        && report(rt, deep(rt, alloc, "", 1_048_576))
        && report(rt, deep(rt, alloc, "", 1_048_577))
}

/// What `replay a.c v` is answered where this read fails and the output takes so many bytes.
fn faulty<R: Threads + Sync + Print>(
    rt: &R,
    alloc: Global,
    failing: u64,
    room: usize,
) -> Result<String, AllocError> {
    let values = "2ls values 1\nturns 0\nchoice 6\nend\n";
    let mut shelf = shelf(alloc, ROW.as_bytes(), values, &[failing])?;
    asked(rt, alloc, &["replay", "a.c", "v"], &mut shelf, room)
}

/// Faults of reading and of writing.
pub fn faults<R: Threads + Sync + Print>(rt: &R, alloc: Global) -> bool {
    report(rt, faulty(rt, alloc, 1, 100))
        && report(rt, faulty(rt, alloc, 2, 100))
        && report(rt, faulty(rt, alloc, 3, 3))
}

/// What words are answered where `a.c` is longer than a text may be.
fn long<R: Threads + Sync + Print>(
    rt: &R,
    alloc: Global,
    words: &[&str],
) -> Result<String, AllocError> {
    let mut text = Vec::new(alloc);
    for _ in 0..1_048_577u32 {
        text.push(b' ')?;
    }
    let mut shelf = shelf(alloc, &text, "", &[])?;
    asked(rt, alloc, words, &mut shelf, 100)
}

/// What words are answered where there are files `a.c` and `v`.
fn said<R: Threads + Sync + Print>(rt: &R, alloc: Global, words: &[&str]) -> bool {
    let answer = match shelf(alloc, ROW.as_bytes(), "2ls values 1\nturns 0\nend\n", &[]) {
        Ok(mut shelf) => asked(rt, alloc, words, &mut shelf, 100),
        Err(error) => Err(error),
    };
    report(rt, answer)
}

/// Words that are a command or none, and files that are missing.
pub fn commands<R: Threads + Sync + Print>(rt: &R, alloc: Global) -> bool {
    said(rt, alloc, &[])
        && said(rt, alloc, &["replay", "a.c"])
        && said(rt, alloc, &["verify", "a.c", "v"])
        && said(rt, alloc, &["replay", "a.c", "--x"])
        && said(rt, alloc, &["replay", "a.c", "v", "v"])
        && said(rt, alloc, &["--", "replay", "a.c", "v"])
        && said(rt, alloc, &["replay", "--", "a.c", "v"])
        && said(rt, alloc, &["replay", "a.c", "--", "v"])
        && said(rt, alloc, &["replay", "a.c", "v", "--"])
        && said(rt, alloc, &["replay", "--", "a.c", "--"])
        && said(rt, alloc, &["replay", "--", "-a", "v"])
        && said(rt, alloc, &["replay", "-", "v"])
        && said(rt, alloc, &["replay", "a.c", "missing"])
        && report(rt, long(rt, alloc, &["replay", "a.c", "missing"]))
        && report(rt, long(rt, alloc, &["replay", "missing", "a.c"]))
}
