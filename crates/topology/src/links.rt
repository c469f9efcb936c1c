ghost use Rattle.std.specs.Prelude.{◌≡◌, ◌<◌, length, map};
ghost use Rattle.topology.specs.Links.{is_instant, reads_of};

use std::marker::Model;

/// For each unit whether it is instant, and the numbers of the units that it reads.
#[derive(Debug, Drop)]
pub struct Links {
    instant: Vec<bool>,
    reads: Vec<Vec<u32>>,
}

impl Model for Links {
    ghost use Rattle.std.specs.Prelude.{map};
    ghost use Rattle.topology.specs.Links.{LinkLists};

    ghost Value = { LinkLists };

    ghost view = { λ l. record { instant = l.instant.items; reads = map (λ r. r.items) l.reads.items } };
}

impl Links {
    /// The links of as many units as `instant` has: unit `u` reads those of `reads[u]`.
    pub fn new(instant: Vec<bool>, reads: Vec<Vec<u32>>) -> Links
        ensures { result ≡ record { instant = instant.items; reads = map (λ r. r.items) reads.items } }
    {
        Links { instant, reads }
    }

    /// Gives back which units are instant, and what each reads.
    pub fn into_parts(self) -> (Vec<bool>, Vec<Vec<u32>>)
        ensures instant { result.0.items ≡ self.instant }
        ensures reads { map (λ r. r.items) result.1.items ≡ self.reads }
    {
        (self.instant, self.reads)
    }

    /// How many units there are.
    pub fn units(&self) -> usize
        ensures { result ≡ length self.now.instant }
    {
        self.instant.len()
    }

    pub(crate) fn is_instant(&self, unit: usize) -> bool
        requires { unit < length self.now.instant }
        ensures { result ≡ is_instant self.now unit }
    {
        self.instant[unit]
    }

    pub(crate) fn reads(&self, unit: usize) -> &[u32]
        requires { unit < length self.now.reads }
        ensures { result.now ≡ reads_of self.now unit }
    {
        &self.reads[unit]
    }
}
