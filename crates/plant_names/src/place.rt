use listed::Bytes;

/// The kind of bytes that say where something stands.
#[derive(Debug, Drop)]
pub struct PlaceKind;

/// Where something stands in a plant text: a path of keys and of indices from 0, as `unit[3].limits.flow`.
pub type Place = Bytes<PlaceKind>;
