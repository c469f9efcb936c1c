use listed::Bytes;

/// The kind of bytes that are a word of the command line.
#[derive(Debug, Drop)]
pub struct WordKind;

/// A word of the command line, by its bytes.
pub type Word = Bytes<WordKind>;
