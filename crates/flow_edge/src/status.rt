ghost use Rattle.std.specs.Prelude.{◌≡◌};

/// How a command ended.
#[derive(Clone, Copy, Debug, PartialEq, Eq)]
pub enum Status {
    /// The work is whole.
    Done,
    /// The words are refused.
    Words,
    /// The plant or its records are refused.
    Refused,
    /// A band is wider than requested.
    Wide,
    /// A source could not be read.
    ReadFault,
    /// A sink could not be written.
    WriteFault,
    /// Memory ran out.
    NoMemory,
    /// The answer to the question is no.
    No,
}

impl Status {
    ghost use Rattle.flow_edge.specs.Status.{code_of};

    /// The exit status, 0 to 7 in the order above.
    pub fn code(self) -> u8
        ensures { result ≡ code_of self }
    {
        match self {
            Status::Done => 0,
            Status::Words => 1,
            Status::Refused => 2,
            Status::Wide => 3,
            Status::ReadFault => 4,
            Status::WriteFault => 5,
            Status::NoMemory => 6,
            Status::No => 7,
        }
    }
}
