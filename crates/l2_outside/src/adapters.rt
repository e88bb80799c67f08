ghost use Rattle.std.specs.Prelude.{◌≡◌, None, Err};
ghost use Rattle.l2_outside.specs.Outside.{raised};

use crate::{Failed, ReadError, Shelf, Sink, WriteError};
use std::alloc::Global;
use std::fs;
use std::io::{Read, Write};
use std::rt::Files;

/// The machine's files, by their paths. It tells no content.
#[derive(Drop)]
pub struct FileShelf<'a, R: Files> {
    pub rt: &'a R,
    pub read_faults: u64,
    pub write_faults: u64,
}

impl<'a, R: Files> FileShelf<'a, R> {
    pub fn new(rt: &'a R) -> Self
        ensures read_faults { result.read_faults ≡ 0 }
        ensures write_faults { result.write_faults ≡ 0 }
    {
        FileShelf {
            rt,
            read_faults: 0,
            write_faults: 0,
        }
    }

    fn read_failed(&mut self) -> Result<Vec<u8>, ReadError>
        ensures value { result ≡ Err ReadError.Failed }
        ensures read_faults { self.new.read_faults ≡ raised self.old.read_faults }
        ensures write_faults { self.new.write_faults ≡ self.old.write_faults }
    {
        self.read_faults = self.read_faults.saturating_add(1);
        Err(ReadError::Failed)
    }

    fn write_failed(&mut self) -> Result<(), WriteError>
        ensures value { result ≡ Err WriteError.Failed }
        ensures write_faults { self.new.write_faults ≡ raised self.old.write_faults }
        ensures read_faults { self.new.read_faults ≡ self.old.read_faults }
    {
        self.write_faults = self.write_faults.saturating_add(1);
        Err(WriteError::Failed)
    }
}

impl<'a, R: Files> Shelf for FileShelf<'a, R> {
    ghost files = { λ _. None };

    ghost read_faults = { λ s. s.read_faults };

    ghost write_faults = { λ s. s.write_faults };

    fn read(&mut self, alloc: Global, name: &str, most: u64) -> Result<Vec<u8>, ReadError> {
        let Ok(mut file) = fs::open(self.rt, name) else {
            return self.read_failed();
        };
        let mut all = Vec::new(alloc);
        let mut piece = [0u8; 4096];
        for _ in 0..u64::MAX {
            let left = most as usize - all.len();
            if left == 0 {
                return Ok(all);
            }
            let part = &mut piece[..left.min(4096)];
            match file.read(part) {
                Ok(0) => return Ok(all),
                Ok(n) => {
                    if all.extend_from_slice(&part[..n]).is_err() {
                        return Err(ReadError::NoMemory);
                    }
                }
                Err(_) => return self.read_failed(),
            }
        }
        self.read_failed()
    }

    fn write(&mut self, _alloc: Global, name: &str, bytes: &[u8]) -> Result<(), WriteError> {
        let Ok(mut file) = fs::create(self.rt, name) else {
            return self.write_failed();
        };
        let mut rest = bytes;
        for _ in 0..u64::MAX {
            if rest.is_empty() {
                return Ok(());
            }
            match file.write(rest) {
                Ok(n) if n > 0 => rest = &rest[n..],
                _ => return self.write_failed(),
            }
        }
        self.write_failed()
    }
}

/// A writer of std, as standard output. It tells no content.
#[derive(Drop)]
pub struct StdSink<W: Write + Drop> {
    pub writer: W,
    pub faults: u64,
}

impl<W: Write + Drop> StdSink<W> {
    pub fn new(writer: W) -> Self
        ensures { result.faults ≡ 0 }
    {
        StdSink { writer, faults: 0 }
    }
}

impl<W: Write + Drop> Sink for StdSink<W> {
    ghost written = { λ _. None };

    ghost faults = { λ s. s.faults };

    fn write(&mut self, bytes: &[u8]) -> Result<usize, Failed> {
        match self.writer.write(bytes) {
            Ok(n) if n > 0 || bytes.is_empty() => Ok(n),
            _ => {
                self.faults = self.faults.saturating_add(1);
                Err(Failed)
            }
        }
    }
}

#[cfg(test)]
mod tests {
    use super::*;
    use crate::write_text;
    use std::process;
    use std::test::Fail;

    #[test]
    fn files_are_written_and_read(rt: HostRuntime) -> Result<(), Fail> {
        let alloc = rt.alloc();
        let id = process::id(rt.process());
        let name = format!(in alloc; "/tmp/l2_outside_shelf_{id}")?;
        let mut shelf = FileShelf::new(&rt);
        assert!(rt; shelf.write(alloc, &name, b"seven b").is_ok());
        for (most, want) in [(0, 0), (3, 3), (7, 7), (9, 7)] {
            let Ok(bytes) = shelf.read(alloc, &name, most) else {
                panic!(rt; "no bytes at {most}");
            };
            assert_eq!(rt; bytes.as_slice(), &b"seven b"[..want], "at {most}");
        }
        assert_eq!(rt; (shelf.read_faults, shelf.write_faults), (0, 0));
        fs::remove_file(&rt, &name)?;
        assert_eq!(rt; shelf.read(alloc, &name, 9).err(), Some(ReadError::Failed));
        assert_eq!(rt;
            shelf.write(alloc, "/tmp", b"x").err(),
            Some(WriteError::Failed)
        );
        assert_eq!(rt; (shelf.read_faults, shelf.write_faults), (1, 1));
        Ok(())
    }

    #[test]
    fn a_writer_gets_the_whole_text(rt: HostRuntime) -> Result<(), Fail> {
        let alloc = rt.alloc();
        let id = process::id(rt.process());
        let name = format!(in alloc; "/tmp/l2_outside_sink_{id}")?;
        let mut sink = StdSink::new(fs::create(&rt, &name)?);
        assert_eq!(rt; write_text(b"SAFE k=1\n", &mut sink), Ok(()));
        assert_eq!(rt; sink.faults, 0);
        assert_eq!(rt; fs::read_to_string(&rt, &name)?.as_str(), "SAFE k=1\n");
        let mut sink = StdSink::new(fs::open(&rt, &name)?);
        assert_eq!(rt; write_text(b"SAFE k=1\n", &mut sink), Err(Failed));
        assert_eq!(rt; sink.faults, 1);
        fs::remove_file(&rt, &name)?;
        Ok(())
    }
}
