//! The lines of a text, and the fields of a line.

ghost use Rattle.std.specs.Prelude.{◌≡◌, ◌∷◌, ◌<◌, ◌≤◌, length};
ghost use Rattle.std.specs.Option.{option_map};
ghost use Rattle.std.specs.Str.Lines.{strip_carriage_return};
ghost use Rattle.lines.specs.Lines.{FindsLine, fields_of, fields_after};
ghost use Rattle.lines.specs.Pieces.{place_of, BeginsLine};

/// A line of a text: from `start` up to `stop`, without the carriage return and the line feed at its end, behind which
/// the text goes on at `after`.
#[derive(Clone, Copy, Debug, PartialEq, Eq)]
pub struct Line {
    pub start: usize,
    pub stop: usize,
    pub after: usize,
}

/// The place of the first such byte.
fn place_of(separator: u8, text: &[u8]) -> Option<usize>
    ensures { result ≡ place_of separator text.now }
{
    text.iter().position(|&byte| byte == separator)
}

/// A line without the carriage return at its end.
fn without_return(line: &[u8]) -> &[u8]
    ensures { result.now ≡ strip_carriage_return line.now }
{
    match line {
        [rest @ .., b'\r'] => rest,
        _ => line,
    }
}

/// The line that begins at `start`, which may be empty.
fn begun_line(bytes: &[u8], start: usize) -> Line
    requires { start < length bytes.now }
    ensures { BeginsLine bytes.now start result }
{
    let rest = &bytes[start..];
    match place_of(b'\n', rest) {
        Some(at) => Line {
            start,
            stop: start + without_return(&rest[..at]).len(),
            after: start + at + 1,
        },
        None => Line {
            start,
            stop: start + without_return(rest).len(),
            after: bytes.len(),
        },
    }
}

/// The first line that is not empty in the bytes from `from` on. A line ends at a line feed, which belongs to no line, or
/// at the end of the bytes; a carriage return at its end is left off. It takes no memory.
#[tactic(auto, using(crate::proofs::Cuts::line_found, crate::proofs::Cuts::line_passed, crate::proofs::Cuts::no_line))]
pub fn line_at(bytes: &[u8], from: usize) -> Option<Line>
    requires { from ≤ length bytes.now }
    ensures { FindsLine result bytes.now from }
{
    let mut start = from;
    while start < bytes.len() {
        let line = begun_line(bytes, start);
        if line.start < line.stop {
            return Some(line);
        }
        start = line.after;
    }
    None
}

/// The first field of a line, and what follows its comma, where there is one. It takes no memory.
#[tactic(auto, using(crate::proofs::Cuts::fields_at, crate::proofs::Cuts::pieces_none))]
pub fn first_field(line: &[u8]) -> (&[u8], Option<&[u8]>)
    ensures { fields_of line.now ≡ result.0.now ∷ fields_after (option_map (λ rest. rest.now) result.1) }
{
    match place_of(b',', line) {
        Some(at) => (&line[..at], Some(&line[at + 1..])),
        None => (line, None),
    }
}
