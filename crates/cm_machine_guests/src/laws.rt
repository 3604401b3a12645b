//! What follows from the definitions alone.

ghost use Rattle.std.specs.Prelude.{List};
ghost use Rattle.std.specs.List.{AllByRecursion};
ghost use Rattle.cm_machine_guests.specs.declared.bump.Bump.{Bump};
ghost use Rattle.cm_machine_guests.specs.Regions.{AreApart, AreGiven, IsInside, Region};

/// Regions that an allocator gave out are inside its range and aligned, and no two have a byte in
/// common.
pub fn regions_are_apart()
    ensures inside { (old : Bump) (rs : List Region) (new : Bump) → AreGiven old rs new
        → AllByRecursion (λ r. IsInside old r) rs }
    ensures apart { (old : Bump) (rs : List Region) (new : Bump) → AreGiven old rs new
        → AreApart rs }
{}
