// Bytes as they are spelt on a line: `\n`, `\t`, `\r`, `\\` and `\xHH` stand for one byte each.
ghost use Rattle.std.specs.Prelude.{◌<◌, ◌≤◌, length};

use std::alloc::{AllocError, Global};

/// What a hexadecimal digit stands for.
fn digit(byte: u8) -> u8
    ensures { result < 16 }
{
    match byte {
        b'0'..=b'9' => byte - b'0',
        b'a'..=b'f' => byte - b'a' + 10,
        _ => 0,
    }
}

/// The byte that these ones behind a backslash stand for, and how many they are.
fn escaped(rest: &[u8]) -> (u8, usize)
    ensures { result.1 ≤ length rest.now }
{
    match rest {
        [b'n', ..] => (b'\n', 1),
        [b't', ..] => (b'\t', 1),
        [b'r', ..] => (b'\r', 1),
        [b'x', high, low, ..] => (16 * digit(*high) + digit(*low), 3),
        [byte, ..] => (*byte, 1),
        [] => (b'\\', 0),
    }
}

/// The byte that stands at an index, and the index behind it.
fn byte_at(spelt: &[u8], at: usize) -> (u8, usize)
    requires { at < length spelt.now }
    ensures later { at < result.1 }
    ensures within { result.1 ≤ length spelt.now }
{
    if spelt[at] != b'\\' {
        return (spelt[at], at + 1);
    }
    let (byte, length) = escaped(&spelt[at + 1..]);
    (byte, at + 1 + length)
}

/// The bytes that a text spells.
pub fn bytes(alloc: Global, text: &str) -> Result<Vec<u8>, AllocError> {
    let spelt = text.as_bytes();
    let mut all = Vec::new(alloc);
    let mut at = 0;
    while at < spelt.len() {
        let (byte, behind) = byte_at(spelt, at);
        all.push(byte)?;
        at = behind;
    }
    Ok(all)
}
