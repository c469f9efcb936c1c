ghost use Rattle.std.specs.Prelude.{◌≡◌, None};

use crate::stream_sink::write_whole;
use flow_edge::{Sink, WriteFault};
use std::fs::File;
use std::rt::Files;

/// A file as a sink. It is made, or emptied, at the first write. It tells no bytes, and counts a fault for each piece that it does not
/// take whole, and for each write at which it could not be made.
#[derive(Drop)]
pub struct FileSink<'a, R: Files> {
    files: &'a R,
    name: &'a str,
    file: Option<R::File>,
    faults: u64,
}

impl<'a, R: Files> FileSink<'a, R> {
    /// The sink of the file with this name, with no fault counted yet.
    pub fn new(files: &'a R, name: &'a str) -> Self
        ensures { result.faults ≡ 0 }
    {
        FileSink {
            files,
            name,
            file: None,
            faults: 0,
        }
    }

    /// Makes the file where it is not made yet, and writes all of a piece.
    fn put(&mut self, piece: &[u8]) -> Result<(), WriteFault>
        ensures { self.new.faults ≡ self.old.faults }
    {
        if self.file.is_none() {
            self.file = File::create(self.files, self.name).ok();
        }
        match &mut self.file {
            Some(file) => write_whole(file, piece),
            None => Err(WriteFault),
        }
    }
}

impl<'a, R: Files> Sink for FileSink<'a, R> {
    ghost given = { λ _. None };

    ghost faults = { λ s. s.faults };

    fn write(&mut self, piece: &[u8]) -> Result<(), WriteFault> {
        match self.put(piece) {
            Ok(()) => Ok(()),
            Err(fault) => {
                self.faults = self.faults.saturating_add(1);
                Err(fault)
            }
        }
    }
}

#[cfg(test)]
mod tests;
