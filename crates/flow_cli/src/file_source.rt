ghost use Rattle.std.specs.Prelude.{◌≡◌, None};
ghost use Rattle.std.specs.Io.{ReadsAtMost};

use crate::stream_source::read_some;
use flow_edge::{ReadFault, Source};
use std::fs::File;
use std::io;
use std::rt::Files;

/// A file as a source. It is opened at the first read. It tells no bytes, and counts a fault for each read that fails, and for each at
/// which it could not be opened.
#[derive(Drop)]
pub struct FileSource<'a, R: Files> {
    files: &'a R,
    name: &'a str,
    file: Option<R::File>,
    faults: u64,
}

impl<'a, R: Files> FileSource<'a, R> {
    /// The source over the file with this name, with no fault counted yet.
    pub fn new(files: &'a R, name: &'a str) -> Self
        ensures { result.faults ≡ 0 }
    {
        FileSource {
            files,
            name,
            file: None,
            faults: 0,
        }
    }

    /// Opens the file where it is not open yet, and reads from it.
    fn take(&mut self, into: &mut [u8]) -> io::Result<usize>
        ensures read { ReadsAtMost result into.new }
        ensures faults { self.new.faults ≡ self.old.faults }
    {
        if self.file.is_none() {
            self.file = Some(File::open(self.files, self.name)?);
        }
        match &mut self.file {
            Some(file) => read_some(file, into),
            None => Err(io::Error::from(io::ErrorKind::NotFound)),
        }
    }
}

impl<'a, R: Files> Source for FileSource<'a, R> {
    ghost left = { λ _. None };

    ghost faults = { λ s. s.faults };

    fn read(&mut self, into: &mut [u8]) -> Result<usize, ReadFault> {
        match self.take(into) {
            Ok(n) => Ok(n),
            Err(_) => {
                self.faults = self.faults.saturating_add(1);
                Err(ReadFault)
            }
        }
    }
}

#[cfg(test)]
mod tests;
