use flow_edge::Word;
use std::alloc::{AllocError, Global};
use std::env::FillError;
use std::rt::Env;
use std::str;

/// The first room for the bytes of an argument, in bytes, and how often it is doubled at most.
const FIRST_ROOM: usize = 256;

const MOST_DOUBLINGS: u32 = 32;

/// The words after the program's name. An argument that is not text becomes the empty word.
pub fn words<R: Env>(rt: &R, alloc: Global) -> Result<Vec<Word>, AllocError> {
    let mut words = Vec::new(alloc);
    let mut room = vec![in alloc; 0u8; FIRST_ROOM]?;
    for i in 1..usize::MAX {
        match word_at(rt, alloc, i, &mut room)? {
            Some(word) => words.push(word)?,
            None => break,
        }
    }
    Ok(words)
}

/// The argument at a place, if there are so many.
fn word_at<R: Env>(
    rt: &R,
    alloc: Global,
    place: usize,
    room: &mut Vec<u8>,
) -> Result<Option<Word>, AllocError> {
    for _ in 0..MOST_DOUBLINGS {
        match rt.arg(place, room.as_mut_slice()) {
            Ok(n) => return Ok(Some(word_of(alloc, &room[..n])?)),
            Err(FillError::NotPresent) => return Ok(None),
            Err(FillError::TooLong) => {
                let longer = room.len().saturating_mul(2);
                room.resize(longer, 0)?;
            }
        }
    }
    Err(AllocError)
}

fn word_of(alloc: Global, bytes: &[u8]) -> Result<Word, AllocError> {
    match str::from_utf8(bytes) {
        Ok(text) => Ok(Word::new(Vec::from_slice(alloc, text.as_bytes())?)),
        Err(_) => Ok(Word::new(Vec::new(alloc))),
    }
}
