use std::marker::Model;

/// The numbers of the versions that a step read, at most 8 of them, in the order of the input ports.
#[derive(Debug, Drop)]
pub struct Refs {
    count: u32,
    numbers: [u32; 8],
}

impl Model for Refs {
    ghost use Rattle.std.specs.Prelude.{List, ℕ, ◌≤◌, ◌≡◌, ◌-◌, take, drop, replicate};

    ghost Value = { List ℕ };

    ghost view = { λ refs. take refs.count refs.numbers };

    ghost invariant = { λ refs. (refs.count ≤ 8) × (drop refs.count refs.numbers ≡ replicate (8 - refs.count) 0) };
}

impl Refs {
    ghost use Rattle.std.specs.Prelude.{◌≡◌, ◌≤◌, length};

    /// These numbers, at most 8 of them.
    pub fn of(numbers: &[u32]) -> Self
        requires { length numbers.now ≤ 8 }
        ensures { result ≡ numbers.now }
    {
        let mut kept = [0; 8];
        kept[..numbers.len()].copy_from_slice(numbers);
        Refs {
            count: numbers.len() as u32,
            numbers: kept,
        }
    }

    pub fn as_slice(&self) -> &[u32]
        ensures numbers { result.now ≡ self.now }
        ensures few { length result.now ≤ 8 }
    {
        &self.numbers[..self.count as usize]
    }

    /// The same numbers.
    pub fn copied(&self) -> Self
        ensures { result ≡ self.now }
    {
        Refs::of(self.as_slice())
    }
}
