ghost use Rattle.std.specs.Prelude.{◌≡◌, ◌≤◌, ◌↔◌, min, length, IsErr, is_err, IfOk, OnErr, OnOk, Contains, Some, drop, vec_len, if◌then◌else◌};
ghost use Rattle.flow_edge.specs.Faults.{Rose, one_more};
ghost use Rattle.flow_edge.specs.Source.{Reads, MemoryText};

use crate::source::{ReadFault, Source};
use std::marker::Model;

/// A text in memory, of which reads fail at chosen calls.
#[derive(Debug, Drop)]
pub struct MemSource {
    bytes: Vec<u8>,
    at: usize,
    failing: Vec<u64>,
    calls: u64,
    faults: u64,
}

impl Model for MemSource {
    ghost use Rattle.std.specs.Prelude.{◌≤◌, drop, vec_len};
    ghost use Rattle.flow_edge.specs.Source.{MemoryText};

    ghost Value = { MemoryText };

    ghost view = { λ s. record { left = drop s.at s.bytes.items; failing = s.failing.items; calls = s.calls; faults = s.faults } };

    ghost invariant = { λ s. s.at ≤ vec_len s.bytes };
}

impl MemSource {
    /// The source of these bytes, whose calls with these numbers fail, counted from 1. It takes no memory.
    pub fn new(bytes: Vec<u8>, failing: Vec<u64>) -> Self
        ensures { result ≡ record { left = bytes.items; failing = failing.items; calls = 0; faults = 0 } }
    {
        MemSource {
            bytes,
            at: 0,
            failing,
            calls: 0,
            faults: 0,
        }
    }

    /// How many reads failed.
    pub fn faults(&self) -> u64
        ensures { result ≡ self.now.faults }
    {
        self.faults
    }
}

impl Source for MemSource {
    ghost left = { λ s. Some s.left };

    ghost faults = { λ s. s.faults };

    fn read(&mut self, into: &mut [u8]) -> Result<usize, ReadFault>
        ensures ok { IfOk result (λ n. Reads (Some self.old.left) (Some self.new.left) into.old into.new n) }
        ensures fault { OnErr result (Rose self.old.faults self.new.faults) }
        ensures stays { OnErr result (Some self.new.left ≡ Some self.old.left) }
        ensures counted { self.old.faults ≤ self.new.faults }
        ensures whole { IfOk result (λ n. n ≡ min (length into.old) (length self.old.left)) }
        ensures fails { IsErr result ↔ Contains self.old.failing (one_more self.old.calls) }
        ensures calls { self.new.calls ≡ one_more self.old.calls }
        ensures faults { self.new.faults ≡ (if is_err result then one_more self.old.faults else self.old.faults) }
        ensures failing { self.new.failing ≡ self.old.failing }
    {
        self.calls = self.calls.saturating_add(1);
        if self.failing.contains(&self.calls) {
            self.faults = self.faults.saturating_add(1);
            return Err(ReadFault);
        }
        let rest = &self.bytes[self.at..];
        let taken = rest.len().min(into.len());
        into[..taken].copy_from_slice(&rest[..taken]);
        self.at += taken;
        Ok(taken)
    }
}

/// A text in memory that gives at most one byte a call.
#[derive(Debug, Drop)]
pub struct ThinSource {
    whole: MemSource,
}

impl Model for ThinSource {
    ghost use Rattle.flow_edge.specs.Source.{MemoryText};

    ghost Value = { MemoryText };

    ghost view = { λ s. s.whole };
}

impl ThinSource {
    /// The source of these bytes, whose calls with these numbers fail, counted from 1. It takes no memory.
    pub fn new(bytes: Vec<u8>, failing: Vec<u64>) -> Self
        ensures { result ≡ record { left = bytes.items; failing = failing.items; calls = 0; faults = 0 } }
    {
        ThinSource {
            whole: MemSource::new(bytes, failing),
        }
    }
}

impl Source for ThinSource {
    ghost left = { λ s. Some s.left };

    ghost faults = { λ s. s.faults };

    fn read(&mut self, into: &mut [u8]) -> Result<usize, ReadFault>
        ensures ok { IfOk result (λ n. Reads (Some self.old.left) (Some self.new.left) into.old into.new n) }
        ensures fault { OnErr result (Rose self.old.faults self.new.faults) }
        ensures stays { OnErr result (Some self.new.left ≡ Some self.old.left) }
        ensures counted { self.old.faults ≤ self.new.faults }
        ensures thin { IfOk result (λ n. n ≡ min (min 1 (length into.old)) (length self.old.left)) }
        ensures fails { IsErr result ↔ Contains self.old.failing (one_more self.old.calls) }
        ensures calls { self.new.calls ≡ one_more self.old.calls }
        ensures faults { self.new.faults ≡ (if is_err result then one_more self.old.faults else self.old.faults) }
        ensures failing { self.new.failing ≡ self.old.failing }
    {
        let room = into.len().min(1);
        self.whole.read(&mut into[..room])
    }
}
