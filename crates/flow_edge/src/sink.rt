ghost use Rattle.std.specs.Prelude.{◌≡◌, ℕ, ◌≤◌, List, Option, None, OnOk, OnErr};
ghost use Rattle.flow_edge.specs.Faults.{Rose};
ghost use Rattle.flow_edge.specs.Sink.{Gives, GivesFront};

/// A sink could not be written.
#[derive(Clone, Copy, Debug, PartialEq, Eq)]
pub struct WriteFault;

/// Where a text goes.
pub trait Sink {
    /// The bytes that it was given, where the sink tells them.
    ghost given: { Self → Option (List ℕ) };

    /// How many writes failed.
    ghost faults: { Self → ℕ };

    /// Writes the whole piece. After a fault some first part of it is written.
    fn write(&mut self, piece: &[u8]) -> Result<(), WriteFault>
        ensures ok { OnOk result (Gives (given self.old) (given self.new) piece.now) }
        ensures fault { OnErr result (Rose (faults self.old) (faults self.new)) }
        ensures front { OnErr result (GivesFront (given self.old) (given self.new) piece.now) }
        ensures counted { faults self.old ≤ faults self.new };
}

/// A sink that takes everything, tells nothing and never fails.
#[derive(Clone, Copy, Debug, Default, PartialEq, Eq)]
pub struct NullSink;

impl Sink for NullSink {
    ghost given = { λ _. None };

    ghost faults = { λ _. 0 };

    fn write(&mut self, _piece: &[u8]) -> Result<(), WriteFault>
        ensures { result ≡ Ok tt }
    {
        Ok(())
    }
}
