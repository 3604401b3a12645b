//! What holds of imports and exports, as laws: each function here does nothing, and its contract is
//! the law.

ghost use Rattle.std.specs.Prelude.{◌≡◌, ℕ, Some};
ghost use Rattle.cm_types_arena.specs.declared.types.Types.{Types};
ghost use Rattle.cm_types_arena.specs.Listed.{names_at, number_at};
ghost use Rattle.cm_types_arena.specs.declared.named_externs.Externs.{Externs};

/// Imports or exports of one number have items of the same names, in the same order.
pub fn equal_numbers_have_equal_names()
    ensures { (t : Types) (externs : Externs) (a b n : ℕ) → number_at externs a ≡ Some n
        → number_at externs b ≡ Some n → names_at t externs a ≡ names_at t externs b }
{}
