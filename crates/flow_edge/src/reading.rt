ghost use Rattle.std.specs.Prelude.{◌≡◌, ◌≤◌, ◌<◌, ◌^◌, length, IfOk, IfSome, OnErr, Some, vec_len};
ghost use Rattle.flow_edge.specs.Faults.{Rose};
ghost use Rattle.flow_edge.specs.ReadText.{ReadText, ReadsUp, TakesSome};
ghost use Rattle.flow_edge.specs.declared.reading.ReadEnd.TheVariants.{NoMemory};

use crate::source::Source;
use std::alloc::{AllocError, Global};
use std::marker::Model;
use thiserror::Error;

/// The first bytes of a source, and whether it has more.
#[derive(Debug, Drop)]
pub struct ReadUp {
    pub bytes: Vec<u8>,
    pub more: bool,
}

impl Model for ReadUp {
    ghost use Rattle.flow_edge.specs.ReadText.{ReadText};

    ghost Value = { ReadText };

    ghost view = { λ u. record { bytes = u.bytes.items; more = u.more } };
}

/// Why a source was not read.
#[derive(Debug, Drop, Error)]
pub enum ReadEnd {
    #[error("read fault")]
    ReadFault,
    #[error("want of memory")]
    NoMemory,
}

impl From<AllocError> for ReadEnd {
    ghost from_gives = { λ _ e. e ≡ NoMemory };

    fn from(_error: AllocError) -> ReadEnd {
        ReadEnd::NoMemory
    }
}

/// How many bytes one read asks for.
const BUFFER: usize = 4096;

/// Reads the first `limit` bytes of what is left, or all of them, and whether there are more than `limit`.
/// It takes at most `limit + 1` bytes.
pub fn read_up<S: Source>(alloc: Global, source: &mut S, limit: u64) -> Result<ReadUp, ReadEnd>
    requires { limit < 2 ^ 32 }
    ensures ok { IfOk result (λ up. IfSome (S.left source.old) (λ text. ReadsUp limit text up (S.left source.new))) }
    ensures within { IfOk result (λ up. length up.bytes ≤ limit) }
    ensures takes { IfSome (S.left source.old) (λ text. TakesSome limit text (S.left source.new)) }
    ensures untold { S.left source.old ≡ None → S.left source.new ≡ None }
    ensures fault { result ≡ Err ReadEnd.ReadFault → Rose (S.faults source.old) (S.faults source.new) }
    ensures counted { S.faults source.old ≤ S.faults source.new }
{
    let most = limit as usize;
    let mut bytes = Vec::new(alloc);
    let mut buffer = [0u8; BUFFER];
    'reading: while bytes.len() <= most {
        let room = BUFFER.min(most + 1 - bytes.len());
        let Ok(n) = source.read(&mut buffer[..room]) else {
            return Err(ReadEnd::ReadFault);
        };
        if n == 0 {
            return Ok(ReadUp { bytes, more: false });
        }
        bytes.extend_from_slice(&buffer[..n])?;
    }
    bytes.truncate(most);
    Ok(ReadUp { bytes, more: true })
}
