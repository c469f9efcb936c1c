ghost use Rattle.std.specs.Prelude.{◌≡◌, ℕ, List, Ok};
ghost use Rattle.parts.specs.Parts.{FileParts};
ghost use Rattle.parts.specs.InRange.{AreInRange};
ghost use Rattle.flow_file.specs.Plant.{parts_in};

/// Whatever the reading of a plant text gives lies in the ranges that a plant file keeps.
pub fn read_parts_are_in_range()
    ensures { (bytes : List ℕ) (parts : FileParts) → parts_in bytes ≡ Ok parts → AreInRange parts }
{}
