//! What holds of what types pass, as laws: each function here does nothing, and its contract is the
//! law.

ghost use Rattle.std.specs.Prelude.{◌≡◌, ◌||◌};
ghost use Rattle.cm_types.specs.Holds.{holds, is_list, is_string};
ghost use Rattle.cm_types.specs.Types.{FuncTy, Ty};
ghost use Rattle.cm_layout.specs.Flattening.{flat_of};
ghost use Rattle.cm_types_arena.specs.Replaced.{Standing, replaced, replaced_func};
ghost use Rattle.cm_validate_model.specs.Options.{is_pointer};
ghost use Rattle.cm_validate_canons.specs.Passing.{params_passed, result_passed};

use cm_types_arena::laws::what_stays;

/// A type holds a pointer where it holds a string or a list.
pub fn pointers()
    ensures { (t : Ty) → holds is_pointer t ≡ holds is_string t || holds is_list t }
{}

/// What a type passes does not change where resources are replaced.
pub fn passing_stays()
    ensures kinds { (s : Standing) (t : Ty) → flat_of (replaced s t) ≡ flat_of t }
    ensures params { (s : Standing) (f : FuncTy)
        → params_passed (replaced_func s f) ≡ params_passed f }
    ensures answer { (s : Standing) (f : FuncTy)
        → result_passed (replaced_func s f) ≡ result_passed f }
{
    what_stays();
}
