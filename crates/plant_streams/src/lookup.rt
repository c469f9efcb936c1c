//! Streams by their names.

ghost use Rattle.std.specs.Prelude.{◌≡◌, ◌<◌, length, IfSome};
ghost use Rattle.plant_streams.specs.Streams.{number_of, gives_signal};

use crate::streams::Stream;

/// The number of the stream with this name.
pub fn number_of(streams: &[Stream], name: &[u8]) -> Option<usize>
    ensures number { result ≡ number_of streams.now name.now }
    ensures within { IfSome result (λ number. number < length streams.now) }
{
    for (number, stream) in streams.iter().enumerate() {
        if stream.name.as_bytes() == name {
            return Some(number);
        }
    }
    None
}

/// Whether there is a stream with this number, and it is a signal.
pub fn gives_signal(streams: &[Stream], number: Option<usize>) -> bool
    ensures { result ≡ gives_signal streams.now number }
{
    match number {
        Some(number) if number < streams.len() => streams[number].signal,
        _ => false,
    }
}
