ghost use Rattle.std.specs.Prelude.{◌≡◌, ◌≤◌, ◌<◌, ◌⊎◌, ◌↔◌, ◌-◌, [], length, take, IfOk, IsErr, IsErrOf, OnErr, OnOk, IsTrue, Some, is_err, vec_len, vec_capacity};
ghost use Rattle.l2_outside.specs.Outside.{HandsOver, Lacks, Rose, KeepsOthers, grown, raised, with_file};
ghost use Rattle.l2_outside.specs.Memory.{amount, counted, fails_next, told, TakesNothing};

use crate::{Failed, ReadError, Shelf, Sink, WriteError};
use std::alloc::{AllocError, Global};
use std::collections::BTreeMap;

/// Files in memory. Its calls are numbered from 1, and those whose numbers stand in `failing` fail.
///
/// At u64's last value `calls` stays, and each later call has this number.
#[derive(Drop)]
pub struct MemShelf {
    pub files: BTreeMap<String, Vec<u8>>,
    pub failing: Vec<u64>,
    pub calls: u64,
    pub read_faults: u64,
    pub write_faults: u64,
}

impl MemShelf {
    pub fn new(files: BTreeMap<String, Vec<u8>>, failing: Vec<u64>) -> MemShelf
        ensures files { told result.files ≡ told files }
        ensures failing { result.failing.items ≡ failing.items }
        ensures calls { result.calls ≡ 0 }
        ensures read_faults { result.read_faults ≡ 0 }
        ensures write_faults { result.write_faults ≡ 0 }
    {
        MemShelf {
            files,
            failing,
            calls: 0,
            read_faults: 0,
            write_faults: 0,
        }
    }

    /// Counts a call, and says whether it is to fail.
    fn call_fails(&mut self) -> bool
        ensures value { result ≡ fails_next self.old.failing.items self.old.calls }
        ensures calls { self.new.calls ≡ raised self.old.calls }
        ensures failing { self.new.failing.items ≡ self.old.failing.items }
        ensures files { told self.new.files ≡ told self.old.files }
        ensures read_faults { self.new.read_faults ≡ self.old.read_faults }
        ensures write_faults { self.new.write_faults ≡ self.old.write_faults }
    {
        self.calls = self.calls.saturating_add(1);
        self.failing.contains(&self.calls)
    }
}

impl Shelf for MemShelf {
    ghost files = { λ s. Some (told s.files) };

    ghost read_faults = { λ s. s.read_faults };

    ghost write_faults = { λ s. s.write_faults };

    /// Fails exactly where the call is one that fails, or the name is missing. The count of faults rises for the first
    /// cause alone.
    fn read(&mut self, alloc: Global, name: &str, most: u64) -> Result<Vec<u8>, ReadError>
        ensures bound { IfOk result (λ bytes. length bytes.items ≤ most) }
        ensures bytes { IfOk result (λ bytes. HandsOver (Some (told self.old.files)) name.now most bytes.items) }
        ensures failed { IsErrOf result ReadError.Failed →
            Rose self.old.read_faults self.new.read_faults ⊎ Lacks (Some (told self.old.files)) name.now }
        ensures files { Some (told self.new.files) ≡ Some (told self.old.files) }
        ensures read_faults { self.old.read_faults ≤ self.new.read_faults }
        ensures write_faults { self.new.write_faults ≡ self.old.write_faults }
        ensures exactly { IsErrOf result ReadError.Failed ↔
            (IsTrue (fails_next self.old.failing.items self.old.calls) ⊎ Lacks (Some (told self.old.files)) name.now) }
        ensures counted { self.new.read_faults ≡
            counted (fails_next self.old.failing.items self.old.calls) self.old.read_faults }
        ensures calls { self.new.calls ≡ raised self.old.calls }
        ensures failing { self.new.failing.items ≡ self.old.failing.items }
    {
        if self.call_fails() {
            self.read_faults = self.read_faults.saturating_add(1);
            return Err(ReadError::Failed);
        }
        let Some(bytes) = self.files.get(name) else {
            return Err(ReadError::Failed);
        };
        let n = (most as usize).min(bytes.len());
        match Vec::from_slice(alloc, &bytes[..n]) {
            Ok(copy) => Ok(copy),
            Err(_) => Err(ReadError::NoMemory),
        }
    }

    /// Fails exactly where the call is one that fails, and a call that isn't Ok leaves the files as they were.
    fn write(&mut self, alloc: Global, name: &str, bytes: &[u8]) -> Result<(), WriteError>
        ensures ok { OnOk result (Some (told self.new.files) ≡ with_file (Some (told self.old.files)) name.now bytes.now) }
        ensures failed { IsErrOf result WriteError.Failed → Rose self.old.write_faults self.new.write_faults }
        ensures others { IsErrOf result WriteError.Failed →
            KeepsOthers (Some (told self.old.files)) (Some (told self.new.files)) name.now }
        ensures no_memory { IsErrOf result WriteError.NoMemory → Some (told self.new.files) ≡ Some (told self.old.files) }
        ensures write_faults { self.old.write_faults ≤ self.new.write_faults }
        ensures read_faults { self.new.read_faults ≡ self.old.read_faults }
        ensures exactly { IsErrOf result WriteError.Failed ↔
            IsTrue (fails_next self.old.failing.items self.old.calls) }
        ensures unchanged { OnErr result (told self.new.files ≡ told self.old.files) }
        ensures counted { self.new.write_faults ≡
            counted (fails_next self.old.failing.items self.old.calls) self.old.write_faults }
        ensures calls { self.new.calls ≡ raised self.old.calls }
        ensures failing { self.new.failing.items ≡ self.old.failing.items }
    {
        if self.call_fails() {
            self.write_faults = self.write_faults.saturating_add(1);
            return Err(WriteError::Failed);
        }
        let Ok(key) = String::from_str(alloc, name) else {
            return Err(WriteError::NoMemory);
        };
        let Ok(content) = Vec::from_slice(alloc, bytes) else {
            return Err(WriteError::NoMemory);
        };
        match self.files.insert(key, content) {
            Ok(_) => Ok(()),
            Err(_) => Err(WriteError::NoMemory),
        }
    }
}

/// A sink in memory with room for `room` bytes, which takes at most `most_per_write` of them at once.
///
/// Its writes are numbered from 1, and those whose numbers stand in `failing` fail. At u64's last value `calls` stays,
/// and each later write has this number.
#[derive(Drop)]
pub struct MemSink {
    pub written: Vec<u8>,
    pub room: usize,
    pub most_per_write: usize,
    pub failing: Vec<u64>,
    pub calls: u64,
    pub faults: u64,
    ghost within: { vec_len written ≤ room },
    ghost reserved: { room ≤ vec_capacity written },
}

impl MemSink {
    /// Takes the memory of `room` bytes, so that no write takes any.
    pub fn new(
        alloc: Global,
        room: usize,
        most_per_write: usize,
        failing: Vec<u64>,
    ) -> Result<MemSink, AllocError>
        ensures written { IfOk result (λ s. s.written.items ≡ []) }
        ensures room { IfOk result (λ s. s.room ≡ room) }
        ensures most_per_write { IfOk result (λ s. s.most_per_write ≡ most_per_write) }
        ensures failing { IfOk result (λ s. s.failing.items ≡ failing.items) }
        ensures calls { IfOk result (λ s. s.calls ≡ 0) }
        ensures faults { IfOk result (λ s. s.faults ≡ 0) }
    {
        Ok(MemSink {
            written: Vec::with_capacity(alloc, room)?,
            room,
            most_per_write,
            failing,
            calls: 0,
            faults: 0,
        })
    }
}

impl Sink for MemSink {
    ghost written = { λ s. Some s.written.items };

    ghost faults = { λ s. s.faults };

    /// Takes as many bytes as the least of the piece's length, `most_per_write` and the room left. Fails exactly where the
    /// call is one that fails, or that is nothing of a nonempty piece.
    fn write(&mut self, bytes: &[u8]) -> Result<usize, Failed>
        ensures bound { IfOk result (λ n. n ≤ length bytes.now) }
        ensures some { IfOk result (λ n. 0 < length bytes.now → 0 < n) }
        ensures ok { IfOk result (λ n. Some self.new.written.items ≡ grown (Some self.old.written.items) (take n bytes.now)) }
        ensures failed { OnErr result (Rose self.old.faults self.new.faults) }
        ensures nothing { OnErr result (Some self.new.written.items ≡ Some self.old.written.items) }
        ensures faults { self.old.faults ≤ self.new.faults }
        ensures taken { IfOk result (λ n. n ≡ amount (length bytes.now) self.old.most_per_write (self.old.room - vec_len self.old.written)) }
        ensures exactly { IsErr result ↔ (IsTrue (fails_next self.old.failing.items self.old.calls)
            ⊎ TakesNothing (length bytes.now) self.old.most_per_write (self.old.room - vec_len self.old.written)) }
        ensures counted { self.new.faults ≡ counted (is_err result) self.old.faults }
        ensures calls { self.new.calls ≡ raised self.old.calls }
        ensures failing { self.new.failing.items ≡ self.old.failing.items }
        ensures room { self.new.room ≡ self.old.room }
        ensures most_per_write { self.new.most_per_write ≡ self.old.most_per_write }
    {
        self.calls = self.calls.saturating_add(1);
        let left = self.room - self.written.len();
        let n = bytes.len().min(self.most_per_write).min(left);
        if self.failing.contains(&self.calls) || (n == 0 && !bytes.is_empty()) {
            self.faults = self.faults.saturating_add(1);
            return Err(Failed);
        }
        match self.written.extend_from_slice(&bytes[..n]) {
            Ok(()) => Ok(n),
            Err(_) => unreachable!(),
        }
    }
}
