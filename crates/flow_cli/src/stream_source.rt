ghost use Rattle.std.specs.Prelude.{◌≡◌, None};
ghost use Rattle.std.specs.Io.{ReadsAtMost};

use flow_edge::{ReadFault, Source};
use std::io;
use std::io::{ErrorKind, Read, Stdin};

/// How often a read or a write that was interrupted is tried again.
pub const MOST_RETRIES: u32 = 1000;

/// A stream of the system as a source. It tells no bytes, and counts a fault for each read that fails.
#[derive(Drop)]
pub struct StreamSource<R> {
    stream: R,
    faults: u64,
}

/// Standard input.
pub type InSource = StreamSource<Stdin>;

impl<R: Read> StreamSource<R> {
    /// The source over this stream, with no fault counted yet.
    pub fn new(stream: R) -> Self
        ensures { result.faults ≡ 0 }
    {
        StreamSource { stream, faults: 0 }
    }
}

impl<R: Read> Source for StreamSource<R> {
    ghost left = { λ _. None };

    ghost faults = { λ s. s.faults };

    fn read(&mut self, into: &mut [u8]) -> Result<usize, ReadFault> {
        match read_some(&mut self.stream, into) {
            Ok(n) => Ok(n),
            Err(_) => {
                self.faults = self.faults.saturating_add(1);
                Err(ReadFault)
            }
        }
    }
}

/// Reads once, and again where a signal came in between.
pub fn read_some<R: Read>(stream: &mut R, into: &mut [u8]) -> io::Result<usize>
    ensures { ReadsAtMost result into.new }
{
    for _ in 0..MOST_RETRIES {
        match stream.read(into) {
            Err(error) if error.kind() == ErrorKind::Interrupted => {}
            answer => return answer,
        }
    }
    Err(io::Error::from(ErrorKind::Interrupted))
}
