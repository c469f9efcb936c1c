ghost use Rattle.std.specs.Prelude.{◌≡◌, None};
ghost use Rattle.std.specs.Io.{WritesAtMost};

use crate::stream_source::MOST_RETRIES;
use flow_edge::{Sink, WriteFault};
use std::io;
use std::io::{ErrorKind, Stderr, Stdout, Write};

/// A stream of the system as a sink. It tells no bytes, and counts a fault for each piece that it does not take whole.
#[derive(Drop)]
pub struct StreamSink<W> {
    stream: W,
    faults: u64,
}

/// Standard output.
pub type OutSink = StreamSink<Stdout>;

/// Standard error.
pub type ErrSink = StreamSink<Stderr>;

impl<W: Write> StreamSink<W> {
    /// The sink over this stream, with no fault counted yet.
    pub fn new(stream: W) -> Self
        ensures { result.faults ≡ 0 }
    {
        StreamSink { stream, faults: 0 }
    }
}

impl<W: Write> Sink for StreamSink<W> {
    ghost given = { λ _. None };

    ghost faults = { λ s. s.faults };

    fn write(&mut self, piece: &[u8]) -> Result<(), WriteFault> {
        match write_whole(&mut self.stream, piece) {
            Ok(()) => Ok(()),
            Err(fault) => {
                self.faults = self.faults.saturating_add(1);
                Err(fault)
            }
        }
    }
}

/// Writes all of a piece. A write that takes nothing of it is a fault.
pub fn write_whole<W: Write>(stream: &mut W, piece: &[u8]) -> Result<(), WriteFault> {
    let mut rest = piece;
    while !rest.is_empty() {
        match write_some(stream, rest) {
            Ok(n) if n > 0 => rest = &rest[n..],
            _ => return Err(WriteFault),
        }
    }
    Ok(())
}

/// Writes once, and again where a signal came in between.
fn write_some<W: Write>(stream: &mut W, piece: &[u8]) -> io::Result<usize>
    ensures { WritesAtMost result piece.now }
{
    for _ in 0..MOST_RETRIES {
        match stream.write(piece) {
            Err(error) if error.kind() == ErrorKind::Interrupted => {}
            answer => return answer,
        }
    }
    Err(io::Error::from(ErrorKind::Interrupted))
}
