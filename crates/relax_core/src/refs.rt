//! Version numbers that are remembered.

ghost use Rattle.std.specs.Prelude.{◌≡◌, Some};
ghost use Rattle.std.specs.Bool.{OnTrue};

use tubes::Refs;

/// Whether these are the numbers that are remembered, where any are.
pub(crate) fn remembers(memory: &Option<Refs>, numbers: &[u32]) -> bool
    ensures { OnTrue result (memory.now ≡ Some numbers.now) }
{
    match memory {
        Some(refs) => refs.as_slice() == numbers,
        None => false,
    }
}
