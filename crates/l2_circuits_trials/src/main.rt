//! Computes with constant words, whose circuits have no gate left, all operators on all pairs of bytes, and counts where they differ
//! from the operators of `l2_bits`.
#![tactic(auto)]

mod operators;

use crate::operators::{Trial, differences};
use l2_bits::Ty;
use std::io;

fn main(rt: HostRuntime) -> io::Result<()> {
    let alloc = rt.alloc();
    let all = [
        ("sum", Trial::Sum),
        ("difference", Trial::Difference),
        ("product", Trial::Product),
        ("quotient", Trial::Quotient),
        ("rest", Trial::Rest),
        ("shift left", Trial::ShiftLeft),
        ("shift right", Trial::ShiftRight),
        ("less", Trial::Less),
        ("equal", Trial::Equal),
        ("and", Trial::And),
        ("convert", Trial::Convert),
    ];
    for (name, trial) in all {
        let plain = differences(alloc, trial, Ty::UCHAR, 0)?;
        let signed = differences(alloc, trial, Ty::CHAR, -128)?;
        println!(rt; "{name}: {plain} {signed}")?;
    }
    Ok(())
}
