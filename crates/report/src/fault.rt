use plant_names::{Place, Text};

/// What goes wrong, one for each error line but that of want of memory.
#[derive(Drop)]
pub enum TopFault {
    /// The word at this place does not fit, or is missing.
    Words {
        at: u32,
    },
    /// The plant source holds more than 1,048,576 bytes.
    TooLong,
    /// Its text is not TOML.
    NotToml,
    /// The format has another number than 1.
    Format {
        found: i64,
    },
    /// A required key is missing.
    Missing {
        place: Place,
    },
    /// A value is of another type.
    WrongType {
        place: Place,
    },
    /// A key is none of its table's.
    UnknownKey {
        place: Place,
    },
    /// A number, a band, a kind or a length is out of range.
    OutOfRange {
        place: Place,
    },
    /// A name or a reference is not written as one.
    BadName {
        place: Place,
    },
    /// A feed or a unit has the name of an earlier one.
    Twice {
        name: Text,
    },
    /// A reference names no stream.
    NoSource {
        place: Place,
    },
    /// A reference names a material stream where a signal is needed, or the other way.
    WrongPort {
        place: Place,
    },
    /// An array is longer than it may be.
    TooMany {
        place: Place,
    },
    /// A flow limit begins below 0, or a volume limit below 1.
    BadLimits {
        place: Place,
    },
    /// An opening band is not inside its limits.
    StartOutside {
        place: Place,
    },
    /// Pieces do not begin at tick 0, or their ticks do not rise.
    FeedPieces {
        place: Place,
    },
    /// A feed's band is not inside the plant's limits.
    FeedOutside {
        place: Place,
    },
    /// The temperatures of a rate table do not rise, or a rate falls.
    TableFalls {
        place: Place,
    },
    /// More may leave a stage of the column in a tick than it holds.
    ColumnTooFast {
        unit: Text,
    },
    /// The instant unit reaches itself through instant units alone.
    InstantLoop {
        unit: Text,
    },
    /// The unit's rank is above 16.
    TooDeep {
        unit: Text,
    },
    /// The record with this number, counted from 1, is none.
    BadRecord {
        at: u32,
    },
    /// It names no feed's channel.
    UnknownPlace {
        at: u32,
    },
    /// Its tick is less than the one before.
    Order {
        at: u32,
    },
    /// Its band is not inside the plant's limits.
    Outside {
        at: u32,
    },
    /// It does not end inside the first 16,777,216 bytes.
    FeedTooLong {
        at: u32,
    },
    /// A band is wider than was asked.
    Wide {
        stream: Text,
        channel: Text,
        tick: u32,
        width: i64,
        limit: i64,
    },
    /// The plant source could not be read.
    ReadPlant,
    /// The source of feed records could not be read.
    ReadExtra,
    /// The output could not be written.
    WriteOut,
    /// The trace could not be written.
    WriteTrace,
}
