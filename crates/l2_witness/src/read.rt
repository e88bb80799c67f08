ghost use Rattle.std.specs.Prelude.{◌≡◌, ℕ, ℤ, List, IfOk, IsErrOf, MatchResult};
ghost use Rattle.l2_lines.specs.Lines.{IsFirstBad, lines_of};
ghost use Rattle.l2_witness.specs.ValuesFile.{InRange, IsFile, spelling};

use crate::reading::{LineError, Reading, Stage};
use crate::values::{Values, ValuesError};
use l2_bits::List;
use std::alloc::Global;

/// Reads a values file. The work is in proportion to its length.
pub fn read_values(alloc: Global, bytes: &[u8]) -> Result<Values, ValuesError>
    ensures ok { IfOk result (λ v. InRange v.turns v.choices × (bytes.now ≡ spelling v.turns v.choices)) }
    ensures bad_line { (line : ℕ) → IsErrOf result (ValuesError.BadLine line) → IsFirstBad IsFile (lines_of bytes.now) line }
    // bytes that spell values are read as these, and as no other ones
    ensures exactly { (turns : ℕ) (choices : List ℤ) → InRange turns choices → bytes.now ≡ spelling turns choices →
        MatchResult result
        (λ v. (v.turns ≡ turns) × (v.choices ≡ choices))
        (λ e. e ≡ ValuesError.NoMemory) }
{
    let mut reading = Reading::new(alloc);
    let mut rest = bytes;
    let mut line = 1u64;
    while !rest.is_empty() {
        match reading.take_first(rest) {
            Ok(more) => rest = more,
            Err(LineError::Bad) => return Err(ValuesError::BadLine { line }),
            Err(LineError::NoMemory) => return Err(ValuesError::NoMemory),
        }
        line += 1;
    }
    match reading.stage {
        Stage::Over => Ok(Values {
            turns: reading.turns,
            choices: List::new(reading.choices),
        }),
        _ => Err(ValuesError::BadLine { line }),
    }
}

#[cfg(test)]
mod tests {
    use super::*;
    use crate::write_values;
    use std::test::Fail;

    #[test]
    fn each_file_has_its_values_or_its_first_bad_line(rt: HostRuntime) -> Result<(), Fail> {
        let alloc = rt.alloc();
        let rows = [
            ("2ls values 1\nturns 0\nend\n", Ok((0, &[][..]))),
            (
                "2ls values 1\nturns 100000000\nchoice 7\nchoice -9223372036854775808\nchoice 18446744073709551615\nend\n",
                Ok((100_000_000, &[7, -(1 << 63), (1 << 64) - 1][..])),
            ),
            ("", Err(1)),
            ("\n", Err(1)),
            ("2ls values 1\r\n", Err(1)),
            ("2ls values 1", Err(1)),
            ("2ls values 1\n", Err(2)),
            ("2ls values 1\nturns 0\n", Err(3)),
            ("2ls values 1\nturns 0\nend", Err(3)),
            ("2ls values 1\nturns 01\nend\n", Err(2)),
            ("2ls values 1\nturns  1\nend\n", Err(2)),
            ("2ls values 1\nturns 100000001\nend\n", Err(2)),
            ("2ls values 1\nturns -1\nend\n", Err(2)),
            ("2ls values 1\nturns 1\nchoice -0\nend\n", Err(3)),
            ("2ls values 1\nturns 1\nchoice +1\nend\n", Err(3)),
            (
                "2ls values 1\nturns 1\nchoice 1\nchoice 18446744073709551616\nend\n",
                Err(4),
            ),
            (
                "2ls values 1\nturns 1\nchoice -9223372036854775809\nend\n",
                Err(3),
            ),
            ("2ls values 1\nturns 1\nchoice 5 \nend\n", Err(3)),
            ("2ls values 1\nturns 1\nend\n\n", Err(4)),
            ("2ls values 1\nturns 1\nend\nend\n", Err(4)),
            ("2ls values 1\nturns 1\nend\nx", Err(4)),
        ];
        for (text, want) in rows {
            match (read_values(alloc, text.as_bytes()), want) {
                (Ok(values), Ok((turns, choices))) => {
                    assert_eq!(rt; values.turns, turns);
                    assert_eq!(rt; values.choices.as_slice(), choices);
                    assert_eq!(rt; write_values(alloc, &values)?.as_slice(), text.as_bytes());
                }
                (Err(error), Err(line)) => assert_eq!(rt;
                    error,
                    ValuesError::BadLine { line },
                    "at {text}"
                ),
                _ => panic!(rt; "at {text}"),
            }
        }
        Ok(())
    }
}
