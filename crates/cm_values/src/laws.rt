//! What holds of printing and reading together, as laws: each function does nothing, and its
//! contract is the law.

ghost use Rattle.std.specs.Prelude.{◌≡◌, ℕ, List, Ok};
ghost use Rattle.cm_types.specs.Types.{Ty};
ghost use Rattle.cm_types.specs.Values.{HasType, Val};
ghost use Rattle.cm_values.specs.Spelling.{spelling};
ghost use Rattle.cm_values.specs.Whole.{Spells, text_value};
ghost use Rattle.cm_values.specs.Premises.{IsHeld, IsReadable};

use crate::reading_laws::spellings_are_read;

/// The text that `print` gives of a value spells that value, and `parse` reads it as that value:
/// for every value of a type whose cases and flags have names of their own, as each type of a valid
/// file has.
pub fn printed_is_read()
    ensures spelled { (t : Ty) (v : Val) → HasType t v → IsHeld v → IsReadable t
        → Spells t (spelling t v) v }
    ensures read { (t : Ty) (v : Val) → HasType t v → IsHeld v → IsReadable t
        → text_value t (spelling t v) ≡ Ok v }
{
    spellings_are_read();
}

/// What a text spells, and so what `parse` reads, has the type.
pub fn read_has_type()
    ensures { (t : Ty) (text : List ℕ) (v : Val) → Spells t text v → HasType t v }
{}
