use crate::Place;
use l2_outside::MemSink;
use std::test::Fail;

#[test]
fn a_place_is_printed_whole_or_in_part(rt: HostRuntime) -> Result<(), Fail> {
    let alloc = rt.alloc();
    let place = Place {
        offset: 70,
        line: 3,
        col: 4294967295,
    };
    let rows = [(100, true, "3:4294967295"), (4, false, "3:42")];
    for (room, fits, text) in rows {
        let mut sink = MemSink::new(alloc, room, 3, Vec::new(alloc))?;
        assert_eq!(rt; place.print(&mut sink).is_ok(), fits);
        assert_eq!(rt; sink.written.as_slice(), text.as_bytes());
    }
    Ok(())
}
