//! Versions that were made elsewhere.

use std::marker::Model;
use tubes::{Refs, Tube};

/// Version `number` of a stream, made from the version before it and the versions `refs` of what its unit reads, in the
/// order of the input ports. Its stamp orders the versions of different streams; adoption does not read it.
#[derive(Drop)]
pub struct Made {
    pub stream: u32,
    pub number: u32,
    pub stamp: u64,
    pub refs: Refs,
    pub tube: Tube,
}

impl Model for Made {
    ghost use Rattle.relax_core.specs.Adopting.{MadeOf};

    ghost Value = { MadeOf };

    ghost view = { λ made. record {
      stream = made.stream;
      number = made.number;
      stamp = made.stamp;
      refs = made.refs;
      tube = made.tube;
    } };
}
