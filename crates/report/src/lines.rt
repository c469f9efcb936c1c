//! The error lines.

ghost use Rattle.std.specs.Prelude.{◌≡◌, ◌++◌, decimal, IfOk, OnOk};
ghost use Rattle.std.specs.Fmt.{signed_decimal};
ghost use Rattle.std.specs.Option.{option_map};
ghost use Rattle.report.specs.Lines.{fault_words, line_of, fault_line, constant_line, memory_line};
ghost use Rattle.report.specs.declared.fault.TopFault.TheVariants.{Words, Format, Wide};

use crate::fault::TopFault;
use itoa::Buffer;
use plant_names::{Place, Text};
use std::alloc::{AllocError, Global};

/// The line of want of memory, which takes none.
#[tactic(auto, unfolding(crate::specs::Lines::memory_line))]
pub fn memory_line() -> &'static [u8]
    ensures { result.now ≡ memory_line }
{
    b"flowrelax: want of memory\n"
}

/// The line of a fault that is the same each time, which takes no memory.
#[tactic(auto, unfolding(crate::specs::Lines::fault_line, crate::specs::Lines::line_of, crate::specs::Lines::fault_words))]
pub fn constant_line(fault: &TopFault) -> Option<&'static [u8]>
    ensures { option_map (λ line. line.now) result ≡ constant_line fault.now }
{
    match fault {
        TopFault::TooLong => Some(b"flowrelax: P1 too long\n"),
        TopFault::NotToml => Some(b"flowrelax: P2 not TOML\n"),
        TopFault::ReadPlant => Some(b"flowrelax: read fault on plant\n"),
        TopFault::ReadExtra => Some(b"flowrelax: read fault on extra\n"),
        TopFault::WriteOut => Some(b"flowrelax: write fault on out\n"),
        TopFault::WriteTrace => Some(b"flowrelax: write fault on trace\n"),
        _ => None,
    }
}

/// The line of a fault.
pub fn fault_line(alloc: Global, fault: &TopFault) -> Result<Text, AllocError>
    ensures { IfOk result (λ line. line ≡ fault_line fault.now) }
{
    Ok(Text::new(line_bytes(alloc, fault)?))
}

#[tactic(auto, unfolding(crate::specs::Lines::fault_line, crate::specs::Lines::fault_words))]
fn line_bytes(alloc: Global, fault: &TopFault) -> Result<Vec<u8>, AllocError>
    ensures { IfOk result (λ line. line.items ≡ fault_line fault.now) }
{
    match fault {
        TopFault::Words { at } => words_line(alloc, *at),
        TopFault::TooLong => line_of(alloc, b"P1 too long", b""),
        TopFault::NotToml => line_of(alloc, b"P2 not TOML", b""),
        TopFault::Format { found } => format_line(alloc, *found),
        TopFault::Missing { place } => place_line(alloc, b"P4 missing ", place),
        TopFault::WrongType { place } => place_line(alloc, b"P5 wrong type ", place),
        TopFault::UnknownKey { place } => place_line(alloc, b"P6 unknown key ", place),
        TopFault::OutOfRange { place } => place_line(alloc, b"P7 out of range ", place),
        TopFault::BadName { place } => place_line(alloc, b"P8 bad name ", place),
        TopFault::Twice { name } => name_line(alloc, b"P9 name twice ", name),
        TopFault::NoSource { place } => place_line(alloc, b"P10 no source ", place),
        TopFault::WrongPort { place } => place_line(alloc, b"P11 wrong port ", place),
        TopFault::TooMany { place } => place_line(alloc, b"P12 too many ", place),
        TopFault::BadLimits { place } => place_line(alloc, b"P13 bad limits ", place),
        TopFault::StartOutside { place } => place_line(alloc, b"P14 start outside ", place),
        TopFault::FeedPieces { place } => place_line(alloc, b"P15 feed pieces ", place),
        TopFault::FeedOutside { place } => place_line(alloc, b"P16 feed outside ", place),
        TopFault::TableFalls { place } => place_line(alloc, b"P17 table falls ", place),
        TopFault::ColumnTooFast { unit } => name_line(alloc, b"P18 column too fast ", unit),
        TopFault::InstantLoop { unit } => name_line(alloc, b"P19 instant loop ", unit),
        TopFault::TooDeep { unit } => name_line(alloc, b"P20 too deep ", unit),
        TopFault::BadRecord { at } => record_line(alloc, b"F1 bad record ", *at),
        TopFault::UnknownPlace { at } => record_line(alloc, b"F2 unknown place at record ", *at),
        TopFault::Order { at } => record_line(alloc, b"F3 order at record ", *at),
        TopFault::Outside { at } => record_line(alloc, b"F4 outside at record ", *at),
        TopFault::FeedTooLong { at } => record_line(alloc, b"F5 too long at record ", *at),
        TopFault::Wide {
            stream,
            channel,
            tick,
            width,
            limit,
        } => wide_line(alloc, stream, channel, *tick, *width, *limit),
        TopFault::ReadPlant => line_of(alloc, b"read fault on plant", b""),
        TopFault::ReadExtra => line_of(alloc, b"read fault on extra", b""),
        TopFault::WriteOut => line_of(alloc, b"write fault on out", b""),
        TopFault::WriteTrace => line_of(alloc, b"write fault on trace", b""),
    }
}

#[tactic(auto, unfolding(crate::specs::Lines::line_of, crate::specs::Lines::fault_words))]
fn words_line(alloc: Global, at: u32) -> Result<Vec<u8>, AllocError>
    ensures { IfOk result (λ line. line.items ≡ line_of (fault_words (Words at))) }
{
    Ok(format!(in alloc; "flowrelax: words refused at {at}\n")?.into_bytes())
}

#[tactic(auto, unfolding(crate::specs::Lines::line_of, crate::specs::Lines::fault_words))]
fn format_line(alloc: Global, found: i64) -> Result<Vec<u8>, AllocError>
    ensures { IfOk result (λ line. line.items ≡ line_of (fault_words (Format found))) }
{
    Ok(format!(in alloc; "flowrelax: P3 format {found}\n")?.into_bytes())
}

/// The line that says what went wrong, and at which record.
fn record_line(alloc: Global, what: &[u8], at: u32) -> Result<Vec<u8>, AllocError>
    ensures { IfOk result (λ line. line.items ≡ line_of (what.now ++ decimal at)) }
{
    let mut number = Buffer::new();
    line_of(alloc, what, number.format(at).as_bytes())
}

/// The line of a band that is wider than was asked.
fn wide_line(
    alloc: Global,
    stream: &Text,
    channel: &Text,
    tick: u32,
    width: i64,
    limit: i64,
) -> Result<Vec<u8>, AllocError>
    ensures { IfOk result (λ line. line.items
        ≡ line_of (fault_words (Wide stream.now channel.now tick width limit))) }
{
    let mut tick_text = Buffer::new();
    let mut place = named(alloc, b"wide stream ", stream.as_bytes())?;
    add(&mut place, b" channel ", channel.as_bytes())?;
    add(&mut place, b" tick ", tick_text.format(tick).as_bytes())?;
    add_number(&mut place, b" width ", width)?;
    add_number(&mut place, b" limit ", limit)?;
    line_of(alloc, place.as_slice(), b"")
}

/// A value behind its name.
fn named(alloc: Global, name: &[u8], value: &[u8]) -> Result<Vec<u8>, AllocError>
    ensures { IfOk result (λ text. text.items ≡ name.now ++ value.now) }
{
    let mut text = Vec::from_slice(alloc, name)?;
    text.extend_from_slice(value)?;
    Ok(text)
}

/// Adds a value behind its name.
fn add(text: &mut Vec<u8>, name: &[u8], value: &[u8]) -> Result<(), AllocError>
    ensures { OnOk result (text.new.items ≡ text.old.items ++ (name.now ++ value.now)) }
{
    text.extend_from_slice(name)?;
    text.extend_from_slice(value)?;
    Ok(())
}

/// Adds a number behind its name.
fn add_number(text: &mut Vec<u8>, name: &[u8], number: i64) -> Result<(), AllocError>
    ensures { OnOk result (text.new.items ≡ text.old.items ++ (name.now ++ signed_decimal number)) }
{
    let mut digits = Buffer::new();
    add(text, name, digits.format(number).as_bytes())
}

/// The line that says what went wrong, and where.
fn place_line(alloc: Global, what: &[u8], place: &Place) -> Result<Vec<u8>, AllocError>
    ensures { IfOk result (λ line. line.items ≡ line_of (what.now ++ place.now)) }
{
    line_of(alloc, what, place.as_bytes())
}

/// The line that says what went wrong, and under what name.
fn name_line(alloc: Global, what: &[u8], name: &Text) -> Result<Vec<u8>, AllocError>
    ensures { IfOk result (λ line. line.items ≡ line_of (what.now ++ name.now)) }
{
    line_of(alloc, what, name.as_bytes())
}

/// The line of two texts, one after the other.
#[tactic(auto, unfolding(crate::specs::Lines::line_of))]
fn line_of(alloc: Global, what: &[u8], which: &[u8]) -> Result<Vec<u8>, AllocError>
    ensures { IfOk result (λ line. line.items ≡ line_of (what.now ++ which.now)) }
{
    let mut line = Vec::from_slice(alloc, b"flowrelax: ")?;
    line.extend_from_slice(what)?;
    line.extend_from_slice(which)?;
    line.extend_from_slice(b"\n")?;
    Ok(line)
}
