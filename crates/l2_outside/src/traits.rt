ghost use Rattle.std.specs.Prelude.{◌≡◌, ◌≤◌, ◌<◌, ◌⊎◌, List, ℕ, Option, length, take, IfOk, OnOk, OnErr, IsErrOf};
ghost use Rattle.l2_outside.specs.Outside.{Files, Rose, HandsOver, Lacks, with_file, KeepsOthers, grown};

use std::alloc::Global;
use thiserror::Error;

/// Why a read handed over no bytes.
#[derive(Clone, Copy, Debug, PartialEq, Eq, Error)]
pub enum ReadError {
    /// The shelf's count of faults in reads rose, or its files are told and lack the name.
    #[error("the file can't be read")]
    Failed,
    #[error("out of memory")]
    NoMemory,
}

/// Why a write to a file didn't succeed.
#[derive(Clone, Copy, Debug, PartialEq, Eq, Error)]
pub enum WriteError {
    /// The shelf's count of faults in writes rose.
    #[error("the file can't be written")]
    Failed,
    #[error("out of memory")]
    NoMemory,
}

/// A write to a sink took nothing, and the sink's count of faults rose.
#[derive(Clone, Copy, Debug, PartialEq, Eq, Error)]
#[error("the output can't be written")]
pub struct Failed;

/// Files by name.
///
/// A count of faults rose in a call where it is greater afterwards, or stands at u64's last value.
pub trait Shelf {
    /// The files, where they are told.
    ghost files: { Self → Option Files };

    /// How many reads have failed by a fault.
    ghost read_faults: { Self → ℕ };

    /// How many writes have failed by a fault.
    ghost write_faults: { Self → ℕ };

    /// The first `most` bytes of a file, or all where it has fewer.
    fn read(&mut self, alloc: Global, name: &str, most: u64) -> Result<Vec<u8>, ReadError>
        ensures bound { IfOk result (λ bytes. length bytes.items ≤ most) }
        ensures bytes { IfOk result (λ bytes. HandsOver (files self.old) name.now most bytes.items) }
        ensures failed { IsErrOf result ReadError.Failed →
            Rose (read_faults self.old) (read_faults self.new) ⊎ Lacks (files self.old) name.now }
        ensures files { files self.new ≡ files self.old }
        ensures read_faults { read_faults self.old ≤ read_faults self.new }
        ensures write_faults { write_faults self.new ≡ write_faults self.old };

    /// Makes the file, or replaces its content.
    fn write(&mut self, alloc: Global, name: &str, bytes: &[u8]) -> Result<(), WriteError>
        ensures ok { OnOk result (files self.new ≡ with_file (files self.old) name.now bytes.now) }
        ensures failed { IsErrOf result WriteError.Failed → Rose (write_faults self.old) (write_faults self.new) }
        ensures others { IsErrOf result WriteError.Failed →
            KeepsOthers (files self.old) (files self.new) name.now }
        ensures no_memory { IsErrOf result WriteError.NoMemory → files self.new ≡ files self.old }
        ensures write_faults { write_faults self.old ≤ write_faults self.new }
        ensures read_faults { read_faults self.new ≡ read_faults self.old };
}

/// What takes bytes, a piece at a time.
pub trait Sink {
    /// All bytes that were taken, where they are told.
    ghost written: { Self → Option (List ℕ) };

    /// How many writes have failed.
    ghost faults: { Self → ℕ };

    /// Takes the first bytes of the piece, and says how many. A sink that takes nothing of a nonempty piece fails.
    fn write(&mut self, bytes: &[u8]) -> Result<usize, Failed>
        ensures bound { IfOk result (λ n. n ≤ length bytes.now) }
        ensures some { IfOk result (λ n. 0 < length bytes.now → 0 < n) }
        ensures ok { IfOk result (λ n. written self.new ≡ grown (written self.old) (take n bytes.now)) }
        ensures failed { OnErr result (Rose (faults self.old) (faults self.new)) }
        ensures nothing { OnErr result (written self.new ≡ written self.old) }
        ensures faults { faults self.old ≤ faults self.new };
}
