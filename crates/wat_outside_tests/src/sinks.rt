use crate::fixtures::known_bytes;
use std::alloc::{AllocError, Global};
use std::fs;
use std::test::Fail;
use wat_io::{FreeGate, Gate, MemorySink, OutSink, Sink, SinkFault, write_all};

/// A sink in memory with so much room, of which these writes fail.
fn sink_of(alloc: Global, room: u64, fails: &[u64]) -> Result<MemorySink, AllocError> {
    MemorySink::new(alloc, room, Vec::from_slice(alloc, fails)?)
}

#[test]
fn a_sink_in_memory_takes_its_room(rt: HostRuntime) -> Result<(), Fail> {
    let mut sink = sink_of(rt.alloc(), 6, &[1, 3])?;
    for (piece, answer, taken) in [
        ("abc", Ok(3), "abc"),
        ("d", Err(SinkFault), "abc"),
        ("d", Ok(1), "abcd"),
        ("e", Err(SinkFault), "abcd"),
        ("efg", Ok(2), "abcdef"),
        ("h", Err(SinkFault), "abcdef"),
    ] {
        assert!(rt; !piece.is_empty());
        assert_eq!(rt; sink.write(piece.as_bytes()), answer, "{piece} {taken}");
        assert_eq!(rt; sink.bytes(), taken.as_bytes(), "{piece}");
    }
    Ok(())
}

#[test]
fn all_is_written_or_a_first_part(rt: HostRuntime) -> Result<(), Fail> {
    for (room, answer, taken) in [(5, Ok(()), "hello"), (4, Err(SinkFault), "hell")] {
        let mut sink = sink_of(rt.alloc(), room, &[])?;
        assert_eq!(rt; write_all(&mut sink, b"hello"), answer, "{room}");
        assert_eq!(rt; sink.bytes(), taken.as_bytes(), "{room}");
    }
    Ok(())
}

#[test]
fn a_file_takes_what_is_written_and_no_more(rt: HostRuntime) -> Result<(), Fail> {
    let held = known_bytes(rt.alloc(), 10000)?;
    let mut sink = OutSink::new(fs::create(&rt, "taken.txt")?);
    assert_eq!(rt; write_all(&mut sink, held.as_slice()), Ok(()));
    let taken = fs::read(&rt, "taken.txt")?;
    assert_eq!(rt; taken.as_slice(), held.as_slice());
    fs::remove_file(&rt, "taken.txt")?;
    Ok(())
}

#[test]
fn a_full_output_fails(rt: HostRuntime) -> Result<(), Fail> {
    let mut full = OutSink::new(fs::create(&rt, "/dev/full")?);
    assert_eq!(rt; write_all(&mut full, b"lost"), Err(SinkFault));
    FreeGate.between(1, 0);
    Ok(())
}
