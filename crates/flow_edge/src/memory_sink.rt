ghost use Rattle.std.specs.Prelude.{◌≡◌, ◌≤◌, ◌<◌, ◌+◌, ◌↔◌, ◌⊎◌, ◌++◌, [], length, IsErr, is_err, IfOk, OnErr, OnOk, Contains, Some, vec_len, vec_capacity, if◌then◌else◌};
ghost use Rattle.flow_edge.specs.Faults.{Rose, one_more};
ghost use Rattle.flow_edge.specs.Sink.{MemoryRoom, Gives, GivesFront};

use crate::sink::{Sink, WriteFault};
use std::alloc::{AllocError, Global};
use std::marker::Model;

/// A sink in memory with so much room, of which writes fail at chosen calls.
#[derive(Debug, Drop)]
pub struct MemSink {
    given: Vec<u8>,
    room: usize,
    failing: Vec<u64>,
    calls: u64,
    faults: u64,
}

impl Model for MemSink {
    ghost use Rattle.std.specs.Prelude.{◌≤◌, vec_len, vec_capacity};
    ghost use Rattle.flow_edge.specs.Sink.{MemoryRoom};

    ghost Value = { MemoryRoom };

    ghost view = { λ s. record { given = s.given.items; room = s.room; failing = s.failing.items; calls = s.calls; faults = s.faults } };

    ghost invariant = { λ s. (vec_len s.given ≤ s.room) × (s.room ≤ vec_capacity s.given) };
}

impl MemSink {
    /// A sink of `room` bytes, whose calls with these numbers fail, counted from 1. It takes the whole room, so that no
    /// write takes memory.
    pub fn new(alloc: Global, room: usize, failing: Vec<u64>) -> Result<Self, AllocError>
        ensures { IfOk result (λ sink. sink ≡ record { given = []; room = room; failing = failing.items; calls = 0; faults = 0 }) }
    {
        Ok(MemSink {
            given: Vec::with_capacity(alloc, room)?,
            room,
            failing,
            calls: 0,
            faults: 0,
        })
    }

    /// What it was given.
    pub fn given(&self) -> &[u8]
        ensures { result.now ≡ self.now.given }
    {
        self.given.as_slice()
    }

    /// How many writes failed.
    pub fn faults(&self) -> u64
        ensures { result ≡ self.now.faults }
    {
        self.faults
    }
}

impl Sink for MemSink {
    ghost given = { λ s. Some s.given };

    ghost faults = { λ s. s.faults };

    fn write(&mut self, piece: &[u8]) -> Result<(), WriteFault>
        ensures ok { OnOk result (Gives (Some self.old.given) (Some self.new.given) piece.now) }
        ensures fault { OnErr result (Rose self.old.faults self.new.faults) }
        ensures front { OnErr result (GivesFront (Some self.old.given) (Some self.new.given) piece.now) }
        ensures counted { self.old.faults ≤ self.new.faults }
        ensures stays { OnErr result (self.new.given ≡ self.old.given) }
        ensures fails { IsErr result ↔ (Contains self.old.failing (one_more self.old.calls) ⊎ (self.old.room < length self.old.given + length piece.now)) }
        ensures calls { self.new.calls ≡ one_more self.old.calls }
        ensures faults { self.new.faults ≡ (if is_err result then one_more self.old.faults else self.old.faults) }
        ensures failing { self.new.failing ≡ self.old.failing }
        ensures room { self.new.room ≡ self.old.room }
    {
        self.calls = self.calls.saturating_add(1);
        let fails = self.failing.contains(&self.calls);
        if fails || piece.len() > self.room - self.given.len() {
            self.faults = self.faults.saturating_add(1);
            return Err(WriteFault);
        }
        self.given.extend_from_slice(piece).unwrap();
        Ok(())
    }
}
