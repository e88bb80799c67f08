ghost use Rattle.std.specs.Prelude.{◌<◌, ◌+◌, ◌^◌, length};

/// The tokens of a text that aren't read yet.
#[derive(Clone, Copy, Debug)]
pub struct Tokens<'a> {
    /// What is left of the line that is being read.
    pub here: &'a [u8],
    /// The lines behind it.
    pub rest: &'a [u8],
    /// The number of the line that is being read, counted from 1.
    pub line: u64,
    ghost small: { line + length rest.now < 2 ^ 64 },
}
