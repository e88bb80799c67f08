use crate::{Failed, MemShelf, MemSink, ReadError, Shelf, Sink, WriteError, write_text};
use std::alloc::Global;
use std::collections::BTreeMap;
use std::test::Fail;

/// What a shelf in memory answers to a read and then a write, with its counts.
fn visit<H: Shelf>(
    shelf: &mut H,
    alloc: Global,
    name: &str,
    most: u64,
) -> (Result<Vec<u8>, ReadError>, Result<(), WriteError>) {
    let read = shelf.read(alloc, name, most);
    let write = shelf.write(alloc, "b", b"new");
    (read, write)
}

#[test]
fn a_shelf_in_memory_keeps_files_and_fails_as_told(rt: HostRuntime) -> Result<(), Fail> {
    let alloc = rt.alloc();
    let gone = Err(ReadError::Failed);
    let rows = [
        (0, 0, "a", 9, Ok(&b"seven b"[..]), Ok(()), (0, 0)),
        (0, 0, "a", 3, Ok(&b"sev"[..]), Ok(()), (0, 0)),
        (0, 0, "c", 9, gone, Ok(()), (0, 0)),
        (0, 1, "c", 9, gone, Ok(()), (1, 0)),
        (
            0,
            2,
            "a",
            9,
            Ok(&b"seven b"[..]),
            Err(WriteError::Failed),
            (0, 1),
        ),
        (
            u64::MAX - 1,
            u64::MAX,
            "a",
            9,
            gone,
            Err(WriteError::Failed),
            (1, 1),
        ),
    ];
    for (calls, failing, name, most, read, write, faults) in rows {
        let mut files = BTreeMap::new(alloc);
        files.insert(
            String::from_str(alloc, "a")?,
            Vec::from_slice(alloc, b"seven b")?,
        )?;
        let mut shelf = MemShelf::new(files, Vec::from_array(alloc, [failing])?);
        shelf.calls = calls;
        let (was_read, was_written) = visit(&mut shelf, alloc, name, most);
        match (was_read, read) {
            (Ok(bytes), Ok(want)) => assert_eq!(rt; bytes.as_slice(), want),
            (Err(e), Err(want)) => assert_eq!(rt; e, want),
            _ => panic!(rt; "at {calls} {failing} {name}"),
        }
        assert_eq!(rt; was_written, write);
        assert_eq!(rt; shelf.files.get("b").is_some(), write.is_ok());
        assert_eq!(rt; (shelf.read_faults, shelf.write_faults), faults);
    }
    Ok(())
}

/// What a sink in memory holds of a text that is written to it.
fn print<K: Sink>(sink: &mut K) -> Result<(), Failed> {
    write_text(b"SAFE k=1\n", sink)
}

#[test]
fn a_sink_in_memory_takes_what_it_has_room_for(rt: HostRuntime) -> Result<(), Fail> {
    let alloc = rt.alloc();
    let rows = [
        (0, 9, 9, 0, Ok(()), 9, 1, 0),
        (0, 100, 2, 0, Ok(()), 9, 5, 0),
        (0, 3, 100, 0, Err(Failed), 3, 2, 1),
        (0, 100, 0, 0, Err(Failed), 0, 1, 1),
        (0, 100, 1, 5, Err(Failed), 4, 5, 1),
        (u64::MAX - 1, 100, 4, u64::MAX, Err(Failed), 0, u64::MAX, 1),
        (u64::MAX - 1, 100, 4, 1, Ok(()), 9, u64::MAX, 0),
    ];
    for (before, room, most, failing, answer, length, calls, faults) in rows {
        let mut sink = MemSink::new(alloc, room, most, Vec::from_array(alloc, [failing])?)?;
        sink.calls = before;
        assert_eq!(rt; print(&mut sink), answer);
        assert_eq!(rt; sink.written.as_slice(), &b"SAFE k=1\n"[..length]);
        assert_eq!(rt; (sink.calls, sink.faults), (calls, faults));
    }
    Ok(())
}
