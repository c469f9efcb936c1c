ghost use Rattle.std.specs.Prelude.{◌≡◌, ℕ, ◌≤◌, List, [], Option, Some, IfOk, OnErr};
ghost use Rattle.flow_edge.specs.Faults.{Rose};
ghost use Rattle.flow_edge.specs.Source.{Reads};

/// A source could not be read.
#[derive(Clone, Copy, Debug, PartialEq, Eq)]
pub struct ReadFault;

/// Where a text comes from.
pub trait Source {
    /// The bytes still to come, where the source tells them.
    ghost left: { Self → Option (List ℕ) };

    /// How many reads failed.
    ghost faults: { Self → ℕ };

    /// Reads some bytes into the front of `into`, and answers how many. 0 is the end, where there is room.
    fn read(&mut self, into: &mut [u8]) -> Result<usize, ReadFault>
        ensures ok { IfOk result (λ n. Reads (left self.old) (left self.new) into.old into.new n) }
        ensures fault { OnErr result (Rose (faults self.old) (faults self.new)) }
        ensures stays { OnErr result (left self.new ≡ left self.old) }
        ensures counted { faults self.old ≤ faults self.new };
}

/// A source at its end, which never fails.
#[derive(Clone, Copy, Debug, Default, PartialEq, Eq)]
pub struct NoSource;

impl Source for NoSource {
    ghost left = { λ _. Some [] };

    ghost faults = { λ _. 0 };

    fn read(&mut self, _into: &mut [u8]) -> Result<usize, ReadFault>
        ensures { result ≡ Ok 0 }
    {
        Ok(0)
    }
}
