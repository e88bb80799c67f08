// The formulas, the derivations and the words that are tried.
use crate::trial::{answered, asked, both, proof, report, shelf};
use std::alloc::{AllocError, Global};

const CLASH: &str = "p cnf 1 2\n1 0\n-1 0\n";

fn solved(rt: &HostRuntime, alloc: Global, formula: &str) -> bool {
    report(rt, answered(alloc, "solve", formula, ""))
}

/// Formulas of the profile.
pub fn formulas(rt: &HostRuntime, alloc: Global) -> bool {
    solved(rt, alloc, "p cnf 2 2\n1 0\n-1 -2 0\n")
        && solved(rt, alloc, CLASH)
        && solved(rt, alloc, "p cnf 0 0")
        && solved(rt, alloc, "p cnf 0 1\n0")
        && solved(rt, alloc, "p cnf 1 1\n1 0\n%\n0\n")
        && solved(
            rt,
            alloc,
            "c a comment\n \t p cnf 003 02 -1 2\n02\nc 5 0\n 0 3 -3 0\r\n\r\n",
        )
        && solved(rt, alloc, "p cnf 4 1\n4 0")
}

/// Texts that are no formula.
pub fn refusals(rt: &HostRuntime, alloc: Global) -> bool {
    solved(rt, alloc, "p cnf 1 1\n2 0\n")
        && solved(rt, alloc, "")
        && solved(rt, alloc, "\n\nq")
        && solved(rt, alloc, "p\ncnf 1 1\n1 0\n")
        && solved(rt, alloc, "p cnf 1\n1 1 0\n")
        && solved(rt, alloc, "p cnf 10000001 0")
        && solved(rt, alloc, "p cnf +1 0")
        && solved(rt, alloc, "p cnf 1 0000000000000000001\n1 0")
        && solved(rt, alloc, "p cnf 1 1\n1\n\n")
        && solved(rt, alloc, "p cnf 1 1\n1 00\n")
        && solved(rt, alloc, "p cnf 1 1\n1 -0\n")
        && solved(rt, alloc, "p cnf 1 1\n1 0\n\n1 0\n")
        && solved(rt, alloc, "p cnf 1 2\n1 0\n%\n")
        && solved(rt, alloc, "p cnf 1 1\n1\x0b0\n")
        && solved(rt, alloc, "p cnf 1 1\n1 0\n%1\n")
        && solved(rt, alloc, "p cnf 1 1\n 1 c 0\n")
}

fn checked(rt: &HostRuntime, alloc: Global, formula: &str, proof: &str) -> bool {
    report(rt, answered(alloc, "check", formula, proof))
}

/// Derivation files, of which some are refused.
pub fn derivations(rt: &HostRuntime, alloc: Global) -> bool {
    checked(
        rt,
        alloc,
        CLASH,
        "2ls derivation 1\nlines 1\n3 0 1 2 0\nend\n",
    ) && checked(
        rt,
        alloc,
        CLASH,
        "2ls derivation 1\nlines 1\n3 0 2 0\nend\n",
    ) && checked(rt, alloc, CLASH, "2ls derivation 1\nlines 0\nend\n")
        && checked(
            rt,
            alloc,
            "p cnf 1 1\n0",
            "2ls derivation 1\nlines 1\n2 0 1 0\nend\n",
        )
        && checked(
            rt,
            alloc,
            CLASH,
            "2ls derivation 1\nlines 2\n3 1 0 1 0\n4 0 1 2 0\nend\n",
        )
        && checked(
            rt,
            alloc,
            CLASH,
            "2ls derivation 1\nlines 1\n3 0 1 2 0\nend",
        )
        && checked(rt, alloc, CLASH, "2ls derivation 1\nlines 1\n3 0 1 2 0\n")
        && checked(
            rt,
            alloc,
            CLASH,
            "2ls derivation 1\nlines 01\n3 0 1 2 0\nend\n",
        )
        && checked(
            rt,
            alloc,
            CLASH,
            "2ls derivation 1\nlines 1\n3  0 1 2 0\nend\n",
        )
        && checked(
            rt,
            alloc,
            CLASH,
            "2ls derivation 1\nlines 1\n3 0 1 2 0\nend\n\n",
        )
        && checked(rt, alloc, CLASH, "")
        && checked(rt, alloc, "p", "")
}

const PIGEONS: u32 = 5;

const HOLES: u32 = 4;

/// That each of the pigeons is in a hole, and no two are in one.
fn pigeon_formula(alloc: Global) -> Result<String, AllocError> {
    let mut text = String::from_str(alloc, "p cnf 20 45\n")?;
    for pigeon in 0..PIGEONS {
        for hole in 1..=HOLES {
            let literal = pigeon * HOLES + hole;
            text.push_str(format!(in alloc; "{literal} ")?.as_str())?;
        }
        text.push_str("0\n")?;
    }
    for hole in 1..=HOLES {
        for first in 0..PIGEONS {
            for second in first + 1..PIGEONS {
                let (one, other) = (first * HOLES + hole, second * HOLES + hole);
                text.push_str(format!(in alloc; "-{one} -{other} 0\n")?.as_str())?;
            }
        }
    }
    Ok(text)
}

/// What is answered about them, and that the file that is written is accepted.
fn five_in_four(alloc: Global) -> Result<String, AllocError> {
    let formula = pigeon_formula(alloc)?;
    both(alloc, formula.as_str())
}

/// What `solve` writes for two clauses that clash.
fn clash_written(alloc: Global) -> Result<String, AllocError> {
    let mut shelf = shelf(alloc, CLASH, "old", &[])?;
    let answer = asked(alloc, &["solve", "f", "p"], &mut shelf, 1000)?;
    let written = proof(alloc, &shelf)?;
    format!(in alloc; "{answer} {written}")
}

/// Formulas without a model, and their derivations.
pub fn pigeons(rt: &HostRuntime, alloc: Global) -> bool {
    report(rt, five_in_four(alloc)) && report(rt, clash_written(alloc))
}

fn said(alloc: Global, words: &[&str]) -> Result<String, AllocError> {
    let mut shelf = shelf(alloc, CLASH, "", &[])?;
    asked(alloc, words, &mut shelf, 100)
}

/// Words that are no command, and files that are missing.
pub fn commands(rt: &HostRuntime, alloc: Global) -> bool {
    report(rt, said(alloc, &[]))
        && report(rt, said(alloc, &["solve", "f"]))
        && report(rt, said(alloc, &["solve", "f", "p", "p"]))
        && report(rt, said(alloc, &["solved", "f", "p"]))
        && report(rt, said(alloc, &["solve", "g", "p"]))
        && report(rt, said(alloc, &["check", "f", "q"]))
}

/// What a command is answered where this call of the shelf fails and the output takes so many bytes, and what stands in PROOF.
fn faulty(alloc: Global, name: &str, failing: u64, room: usize) -> Result<String, AllocError> {
    let mut shelf = shelf(alloc, CLASH, "old", &[failing])?;
    let answer = asked(alloc, &[name, "f", "p"], &mut shelf, room)?;
    let written = proof(alloc, &shelf)?;
    format!(in alloc; "{answer} {written}")
}

/// Faults of reading and of writing.
pub fn faults(rt: &HostRuntime, alloc: Global) -> bool {
    report(rt, faulty(alloc, "solve", 1, 100))
        && report(rt, faulty(alloc, "solve", 2, 100))
        && report(rt, faulty(alloc, "solve", 3, 3))
        && report(rt, faulty(alloc, "check", 2, 100))
}
