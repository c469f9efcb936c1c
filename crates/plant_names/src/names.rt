ghost use Rattle.std.specs.Prelude.{◌≡◌};
ghost use Rattle.std.specs.List.{list_all};
ghost use Rattle.plant_names.specs.Name.{is_name_byte, is_name, is_reference};

/// Whether the byte is a lowercase letter, a digit or `_`.
fn is_name_byte(byte: u8) -> bool
    ensures { result ≡ is_name_byte byte }
{
    matches!(byte, b'a'..=b'z' | b'0'..=b'9' | b'_')
}

fn has_name_bytes(bytes: &[u8]) -> bool
    ensures { result ≡ list_all is_name_byte bytes.now }
{
    bytes.iter().all(|&byte| is_name_byte(byte))
}

/// Whether the bytes are a name: 1 to 32 lowercase letters, digits and `_` that begin with a letter.
#[tactic(auto, unfolding(crate::specs::Name::is_name))]
pub fn is_name(bytes: &[u8]) -> bool
    ensures { result ≡ is_name bytes.now }
{
    match bytes {
        [b'a'..=b'z', ..] => bytes.len() <= 32 && has_name_bytes(bytes),
        _ => false,
    }
}

/// Whether the text is a reference: a name, or two names with a dot between them.
#[tactic(auto, unfolding(crate::specs::Name::is_reference), using(crate::proofs::Splits::split_at_dot))]
pub fn is_reference(text: &str) -> bool
    ensures { result ≡ is_reference text.now }
{
    match text.split_once('.') {
        Some((unit, port)) => is_name(unit.as_bytes()) && is_name(port.as_bytes()),
        None => is_name(text.as_bytes()),
    }
}
