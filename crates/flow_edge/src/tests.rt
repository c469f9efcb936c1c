use super::*;
use std::alloc::Global;
use std::test::Fail;

const TEXT: &[u8] = b"abcde";

#[test]
fn sinks_in_memory_keep_to_their_room(rt: HostRuntime) -> Result<(), Fail> {
    let mut sink = MemSink::new(rt.alloc(), 3, Vec::new(rt.alloc()))?;
    assert_eq!(rt; give(&mut sink, b"ab"), Ok(()));
    assert_eq!(rt; give(&mut sink, b"cd"), Err(WriteFault));
    assert!(rt; sink.given() == b"ab".as_slice());
    assert_eq!(rt; sink.faults(), 1);
    Ok(())
}

#[test]
fn sinks_in_memory_fail_at_chosen_calls(rt: HostRuntime) -> Result<(), Fail> {
    let mut sink = MemSink::new(rt.alloc(), 5, [2].to_vec(rt.alloc())?)?;
    let rows = [(b"a", Ok(())), (b"b", Err(WriteFault)), (b"c", Ok(()))];
    for (piece, want) in rows {
        assert_eq!(rt; give(&mut sink, piece), want);
    }
    assert!(rt; sink.given() == b"ac".as_slice());
    assert_eq!(rt; sink.faults(), 1);
    Ok(())
}

#[test]
fn sources_in_memory_fail_at_chosen_calls(rt: HostRuntime) -> Result<(), Fail> {
    let failing = [2].to_vec(rt.alloc())?;
    let mut source = MemSource::new(TEXT.to_vec(rt.alloc())?, failing);
    let mut piece = [0; 2];
    let rows = [
        (Ok(2), b"ab"),
        (Err(ReadFault), b"ab"),
        (Ok(2), b"cd"),
        (Ok(1), b"ed"),
        (Ok(0), b"ed"),
    ];
    for (want, bytes) in rows {
        assert_eq!(rt; take(&mut source, &mut piece), want);
        assert_eq!(rt; &piece, bytes);
    }
    assert_eq!(rt; source.faults(), 1);
    Ok(())
}

#[test]
fn thin_sources_give_single_bytes(rt: HostRuntime) -> Result<(), Fail> {
    let mut source = ThinSource::new(b"ab".to_vec(rt.alloc())?, Vec::new(rt.alloc()));
    let mut piece = [0; 2];
    for (want, first) in [(Ok(1), b'a'), (Ok(1), b'b'), (Ok(0), b'b')] {
        assert_eq!(rt; take(&mut source, &mut piece), want);
        assert_eq!(rt; piece, [first, 0]);
    }
    Ok(())
}

#[test]
fn reading_stops_at_the_limit(rt: HostRuntime) -> Result<(), Fail> {
    let rows = [
        (0, b"".as_slice(), true, b"bcde".as_slice()),
        (3, b"abc".as_slice(), true, b"e".as_slice()),
        (4, b"abcd".as_slice(), true, b"".as_slice()),
        (5, TEXT, false, b"".as_slice()),
        (6, TEXT, false, b"".as_slice()),
    ];
    let alloc = rt.alloc();
    for (limit, front, more, rest) in rows {
        let mut source = MemSource::new(TEXT.to_vec(alloc)?, Vec::new(alloc));
        let (first, second) = read_twice(alloc, &mut source, limit)?;
        assert!(rt; first.bytes.as_slice() == front, "up to {limit}");
        assert_eq!(rt; first.more, more, "up to {limit}");
        assert!(rt; second.bytes.as_slice() == rest, "after {limit}");
    }
    Ok(())
}

#[test]
fn reading_gathers_single_bytes(rt: HostRuntime) -> Result<(), Fail> {
    let alloc = rt.alloc();
    let mut source = ThinSource::new(TEXT.to_vec(alloc)?, Vec::new(alloc));
    let (first, second) = read_twice(alloc, &mut source, 3)?;
    assert!(rt; first.bytes.as_slice() == b"abc".as_slice());
    assert!(rt; first.more);
    assert!(rt; second.bytes.as_slice() == b"e".as_slice());
    Ok(())
}

#[test]
fn reading_ends_at_a_fault(rt: HostRuntime) -> Result<(), Fail> {
    let alloc = rt.alloc();
    let mut thin = ThinSource::new(TEXT.to_vec(alloc)?, [3].to_vec(alloc)?);
    assert!(rt; matches!(read_up(alloc, &mut thin, 9), Err(ReadEnd::ReadFault)));
    let rest = read_up(alloc, &mut thin, 9)?;
    assert!(rt; rest.bytes.as_slice() == b"cde".as_slice());
    Ok(())
}

#[test]
fn the_least_sinks_sources_and_gates(rt: HostRuntime) {
    assert_eq!(rt; give(&mut NullSink, b"ab"), Ok(()));
    let mut piece = [7];
    assert_eq!(rt; take(&mut NoSource, &mut piece), Ok(0));
    assert_eq!(rt; piece, [7]);
    pass(&OpenGate);
}

#[test]
fn statuses_have_codes(rt: HostRuntime) {
    let rows = [
        (Status::Done, 0),
        (Status::Words, 1),
        (Status::Refused, 2),
        (Status::Wide, 3),
        (Status::ReadFault, 4),
        (Status::WriteFault, 5),
        (Status::NoMemory, 6),
        (Status::No, 7),
    ];
    for (status, code) in rows {
        assert_eq!(rt; status.code(), code, "{status:?}");
    }
}

#[test]
fn words_keep_their_bytes(rt: HostRuntime) -> Result<(), Fail> {
    let word = Word::new(b"run".to_vec(rt.alloc())?);
    assert!(rt; word.as_bytes() == b"run".as_slice());
    Ok(())
}

fn give<S: Sink>(sink: &mut S, piece: &[u8]) -> Result<(), WriteFault> {
    sink.write(piece)
}

fn take<S: Source>(source: &mut S, into: &mut [u8]) -> Result<usize, ReadFault> {
    source.read(into)
}

/// What two readings give, the second of what the first left.
fn read_twice<S: Source>(
    alloc: Global,
    source: &mut S,
    limit: u32,
) -> Result<(ReadUp, ReadUp), ReadEnd> {
    let first = read_up(alloc, source, limit.into())?;
    let second = read_up(alloc, source, 9)?;
    Ok((first, second))
}

fn pass<G: Gate>(gate: &G) {
    gate.at_turn(0, 0);
}
