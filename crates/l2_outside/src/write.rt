ghost use Rattle.std.specs.Prelude.{◌≡◌, ◌≤◌, OnOk, OnErr};
ghost use Rattle.l2_outside.specs.Outside.{Rose, GrewByPrefix, grown};

use crate::{Failed, Sink};

/// Writes a whole text. Where a write fails, the sink has taken the first bytes of it.
pub fn write_text<K: Sink>(text: &[u8], out: &mut K) -> Result<(), Failed>
    ensures ok { OnOk result (K.written out.new ≡ grown (K.written out.old) text.now) }
    ensures failed { OnErr result (Rose (K.faults out.old) (K.faults out.new)) }
    ensures prefix { OnErr result (GrewByPrefix (K.written out.old) (K.written out.new) text.now) }
    ensures faults { K.faults out.old ≤ K.faults out.new }
{
    let mut done = 0;
    while done < text.len() {
        done += out.write(&text[done..])?;
    }
    Ok(())
}
