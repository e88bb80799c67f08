//! Computes with constant words, whose circuits have no gate left, all operators of code on all pairs of bytes, with conversions and the
//! tests on numbers, and counts where they differ from the operators of `l2_bits`.
#![tactic(auto)]

mod trials;

use crate::trials::{Trial, differences};
use l2_bits::{Op, Ty};
use l2_code::Operator;
use std::io;

fn main(rt: HostRuntime) -> io::Result<()> {
    let alloc = rt.alloc();
    let all = [
        ("add", Trial::Number(Operator::Add)),
        ("sub", Trial::Number(Operator::Sub)),
        ("mul", Trial::Number(Operator::Mul)),
        ("div", Trial::Number(Operator::Div)),
        ("rem", Trial::Number(Operator::Rem)),
        ("shl", Trial::Number(Operator::Shl)),
        ("shr", Trial::Number(Operator::Shr)),
        ("and", Trial::Number(Operator::And)),
        ("or", Trial::Number(Operator::Or)),
        ("xor", Trial::Number(Operator::Xor)),
        ("eq", Trial::Number(Operator::Eq)),
        ("ne", Trial::Number(Operator::Ne)),
        ("lt", Trial::Number(Operator::Lt)),
        ("le", Trial::Number(Operator::Le)),
        ("okdiv", Trial::Division),
        ("okshift", Trial::Amount),
        ("okindex", Trial::Index),
        ("okover add", Trial::Overflow(Op::Add)),
        ("okover sub", Trial::Overflow(Op::Sub)),
        ("okover mul", Trial::Overflow(Op::Mul)),
        ("okover shl", Trial::Overflow(Op::Shl)),
        ("conv bool", Trial::Convert(Ty::BOOL)),
        ("conv i8", Trial::Convert(Ty::CHAR)),
        ("conv u8", Trial::Convert(Ty::UCHAR)),
        ("conv i16", Trial::Convert(Ty::SHORT)),
        ("conv u64", Trial::Convert(Ty::ULONG)),
    ];
    for (name, trial) in all {
        let plain = differences(alloc, trial, Ty::UCHAR, 0)?;
        let signed = differences(alloc, trial, Ty::CHAR, -128)?;
        println!(rt; "{name}: {plain} {signed}")?;
    }
    Ok(())
}
