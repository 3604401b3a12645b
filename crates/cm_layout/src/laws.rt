//! What holds of every layout, as laws: each function here does nothing, and its contract is the
//! law.

ghost use Rattle.std.specs.Prelude.{◌≡◌, ◌≤◌, ◌*◌, ◌^◌, ℕ};
ghost use Rattle.cm_types.specs.Types.{Ty};
ghost use Rattle.cm_layout.specs.Laid.{IsMarked, Laid};
ghost use Rattle.cm_layout.specs.Shapes.{head_of, shape_of_type};
ghost use Rattle.cm_layout.specs.Sizes.{IsLeastBytes, discriminant_size, flags_size, size_of};

/// The number of a case has the least of 1, 2 and 4 bytes that tell the cases apart, and a set of
/// flags the least that have a bit for each label (CanonicalABI.md, "Alignment").
pub fn sizes_of_numbers()
    ensures discriminants { (n : ℕ) → n ≤ 2 ^ 32
        → IsLeastBytes (λ b. n ≤ 256 ^ b) (discriminant_size n) }
    ensures flags { (n : ℕ) → n ≤ 32 → IsLeastBytes (λ b. n ≤ 8 * b) (flags_size n) }
{}

/// In each layout the parts of a type lie inside it and do not overlap, and what is marked as plain
/// bytes is numbers, one behind the other.
pub fn layouts()
    ensures laid { (t : Ty) → Laid (size_of t) (shape_of_type t) }
    ensures marked { (t : Ty) → IsMarked (head_of t) (shape_of_type t) }
{}
