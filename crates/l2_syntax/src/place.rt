ghost use Rattle.std.specs.Prelude.{◌≡◌, ◌≤◌, ◌++◌, drop, codes, decimal, List, ℕ, OnOk, OnErr};
ghost use Rattle.l2_outside.specs.Outside.{Rose, grown, GrewByPrefix};
ghost use Rattle.l2_syntax.specs.Places.{place_text};

use itoa::write_digits;
use l2_outside::{Failed, Sink, write_text};

/// Where a token stands in a text. Lines end at LF and are counted from 1; columns count bytes from 1; the offset counts bytes from 0.
#[derive(Clone, Copy, Debug, PartialEq, Eq)]
pub struct Place {
    pub offset: u32,
    pub line: u32,
    pub col: u32,
}

impl Place {
    /// Writes `LINE:COL`.
    pub fn print<K: Sink>(&self, out: &mut K) -> Result<(), Failed>
        ensures ok { OnOk result (K.written out.new ≡ grown (K.written out.old) (place_text self.now)) }
        ensures err { OnErr result (GrewByPrefix (K.written out.old) (K.written out.new) (place_text self.now)) }
        ensures later { K.faults out.old ≤ K.faults out.new }
        ensures cause { OnErr result (Rose (K.faults out.old) (K.faults out.new)) }
    {
        let mut text = [0; 21];
        let start = spell(self.line, self.col, &mut text);
        write_text(&text[start..], out)
    }
}

/// Puts `LINE:COL` at the end of the buffer, and says where it starts.
fn spell(line: u32, col: u32, text: &mut [u8; 21]) -> usize
    ensures start { result ≤ 21 }
    ensures text { drop result text.new ≡ decimal line ++ codes ":" ++ decimal col }
{
    let colon = write_digits(u64::from(col), text, 21) - 1;
    text[colon] = b':';
    write_digits(u64::from(line), text, colon)
}
