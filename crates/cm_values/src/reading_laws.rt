//! What reading means, as laws: each function does nothing, and its contract is the law.

ghost use Rattle.std.specs.Prelude.{◌≡◌, ◌↔◌, ℕ, List, Ok};
ghost use Rattle.cm_types.specs.Types.{Ty};
ghost use Rattle.cm_types.specs.Values.{Val};
ghost use Rattle.cm_values.specs.Whole.{Spells, text_value};

/// A text is read as a value exactly where it is a spelling of that value by the grammar. So no
/// text spells two values of a type.
pub fn spellings_are_read()
    ensures { (t : Ty) (text : List ℕ) (v : Val) → (text_value t text ≡ Ok v) ↔ Spells t text v }
{}
