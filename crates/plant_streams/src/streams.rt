use plant_names::Text;

/// Where a stream comes from: a feed, or the output port of a unit, by their numbers from 0.
#[derive(Clone, Copy, Debug, PartialEq, Eq)]
pub enum StreamSource {
    Feed { feed: u32 },
    Port { unit: u32, port: u32 },
}

/// A stream: a material stream has the channels flow (mL per tick), conc (mg/L) and temp (mK), a signal the channel value.
#[derive(Debug, Drop)]
pub struct Stream {
    /// The feed's name, or the unit's, a dot and the port's.
    pub name: Text,
    pub source: StreamSource,
    pub signal: bool,
}
