//! Numbers in decimal digits.

ghost use Rattle.std.specs.Prelude.{◌≡◌, ◌≤◌, pos, if◌then◌else◌};
ghost use Rattle.lines.specs.Numbers.{are_digits, digits_value, negative_in, number_in};

/// The number that a field writes in 1 to `digits` decimal digits.
fn count_at(field: &[u8], digits: u32) -> Option<i64>
    requires { digits ≤ 18 }
    ensures { result ≡ (if are_digits digits field.now then Some (pos (digits_value field.now)) else None) }
{
    if field.is_empty() || field.len() > digits as usize {
        return None;
    }
    let mut value = 0;
    for byte in field {
        if !byte.is_ascii_digit() {
            return None;
        }
        value = value * 10 + i64::from(*byte - b'0');
    }
    Some(value)
}

/// The number below zero that a field writes in a `-` and 1 to `digits` decimal digits.
fn negative_at(field: &[u8], digits: u32) -> Option<i64>
    requires { digits ≤ 18 }
    ensures { result ≡ negative_in digits field.now }
{
    match field {
        [b'-', rest @ ..] => Some(-count_at(rest, digits)?),
        _ => None,
    }
}

/// The number that a field writes: 1 to `digits` decimal digits and nothing else, after one `-` where it may be `signed`.
/// Leading zeros and `-0` are read. `None` where it writes none.
#[tactic(auto, unfolding(crate::specs::Numbers::number_in))]
pub fn number_at(field: &[u8], digits: u32, signed: bool) -> Option<i64>
    requires some { 1 ≤ digits }
    requires few { digits ≤ 18 }
    ensures { result ≡ number_in digits signed field.now }
{
    match count_at(field, digits) {
        None if signed => negative_at(field, digits),
        count => count,
    }
}
