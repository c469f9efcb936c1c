//! Files that are written and read back, and files that cannot be made.

use super::FileSink;
use crate::file_source::FileSource;
use flow_edge::{Sink, WriteFault, read_up};
use std::alloc::Global;
use std::rt::Files;
use std::test::Fail;
use std::{env, fs, process};

/// Writes these pieces to a file, and reads the file.
fn written<R: Files>(
    files: &R,
    alloc: Global,
    name: &str,
    pieces: &[&[u8]],
) -> Result<Vec<u8>, Fail> {
    let mut sink = FileSink::new(files, name);
    for piece in pieces {
        sink.write(piece)?;
    }
    let text = read_up(alloc, &mut FileSource::new(files, name), 10_000)?;
    Ok(text.bytes)
}

/// Three pieces that one read does not give together, and a piece that is shorter than these.
const LONG: [&[u8]; 3] = [&[b'1'; 3000], &[b'2'; 3000], &[b'3'; 3000]];

const SHORT: [&[u8]; 1] = [b"tick,place,lo,hi\n"];

#[test]
fn a_file_holds_what_was_written_to_it_last(rt: HostRuntime) -> Result<(), Fail> {
    let alloc = rt.alloc();
    let name = format!(in alloc; "flowrelax_{}", process::id(rt.process()))?;
    let path = env::temp_dir(&rt)?.join(alloc, name.as_str())?;
    let long = written(&rt, alloc, path.as_str(), &LONG)?;
    let short = written(&rt, alloc, path.as_str(), &SHORT)?;
    fs::remove_file(&rt, path.as_str())?;
    assert_eq!(rt; long, LONG.concat(alloc)?);
    assert_eq!(rt; short, SHORT.concat(alloc)?);
    Ok(())
}

#[test]
fn a_folder_takes_no_bytes(rt: HostRuntime) -> Result<(), Fail> {
    let folder = env::temp_dir(&rt)?;
    let mut sink = FileSink::new(&rt, folder.as_str());
    assert_eq!(rt; sink.write(b"tick"), Err(WriteFault));
    assert_eq!(rt; sink.write(b"place"), Err(WriteFault));
    assert_eq!(rt; sink.faults, 2);
    Ok(())
}
