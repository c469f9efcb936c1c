use listed::Bytes;

/// The kind of bytes that name something.
#[derive(Debug, Drop)]
pub struct TextKind;

/// Bytes that name something.
pub type Text = Bytes<TextKind>;
