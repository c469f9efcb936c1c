use basic_units::{Mixer, Reactor, Splitter, Tank};
use column_section::Column;
use controllers::Controller;
use listed::Listed;
use plant_names::Text;
use quant::Band;

/// The numbers of streams.
pub type StreamNumbers = Listed<u32>;

/// Bands, one for each state of a unit or each channel of a stream.
pub type Bands = Listed<Band>;

/// What each unit has: its name, the numbers of the streams that it reads and gives in the order of its ports, and the band of
/// each of its states at the first tick.
#[derive(Drop)]
pub struct Ends {
    pub name: Text,
    pub inputs: StreamNumbers,
    pub outputs: StreamNumbers,
    pub opening: Bands,
}

/// A unit: its parameters, and what each unit has.
#[derive(Drop)]
pub enum Unit {
    Tank { unit: Tank, ends: Ends },
    Reactor { unit: Reactor, ends: Ends },
    Column { unit: Column, ends: Ends },
    Controller { unit: Controller, ends: Ends },
    Mixer { unit: Mixer, ends: Ends },
    Splitter { unit: Splitter, ends: Ends },
}

impl Unit {
    ghost use Rattle.std.specs.Prelude.{◌≡◌};
    ghost use Rattle.plant_units.specs.Units.{ends_of, name_of, kind_of, reads_of, gives_of, opening_of};

    /// What it has beside the parameters of its kind.
    fn ends(&self) -> &Ends
        ensures { result.now ≡ ends_of self.now }
    {
        match self {
            Unit::Tank { ends, .. } => ends,
            Unit::Reactor { ends, .. } => ends,
            Unit::Column { ends, .. } => ends,
            Unit::Controller { ends, .. } => ends,
            Unit::Mixer { ends, .. } => ends,
            Unit::Splitter { ends, .. } => ends,
        }
    }

    /// Its name.
    pub fn name(&self) -> &[u8]
        ensures { result.now ≡ name_of self.now }
    {
        self.ends().name.as_bytes()
    }

    /// The name of its kind in a plant file.
    #[tactic(auto, unfolding(crate::specs::Units::kind_of))]
    pub fn kind(&self) -> &'static str
        ensures { result.now ≡ kind_of self.now }
    {
        match self {
            Unit::Tank { .. } => "tank",
            Unit::Reactor { .. } => "reactor",
            Unit::Column { .. } => "column",
            Unit::Controller { .. } => "controller",
            Unit::Mixer { .. } => "mixer",
            Unit::Splitter { .. } => "splitter",
        }
    }

    /// The numbers of the streams that it reads.
    pub fn inputs(&self) -> &[u32]
        ensures { result.now ≡ reads_of self.now }
    {
        self.ends().inputs.as_slice()
    }

    /// The numbers of the streams that it gives.
    pub fn outputs(&self) -> &[u32]
        ensures { result.now ≡ gives_of self.now }
    {
        self.ends().outputs.as_slice()
    }

    /// The bands of its states at the first tick.
    pub fn opening(&self) -> &[Band]
        ensures { result.now ≡ opening_of self.now }
    {
        self.ends().opening.as_slice()
    }
}
