//! What holds of types by place, as laws: each function here does nothing, and its contract is the
//! law.

ghost use Rattle.std.specs.Prelude.{◌≡◌, None};
ghost use Rattle.cm_types.specs.Types.{FuncTy, Ty};
ghost use Rattle.cm_types_arena.specs.Replaced.{replaced, replaced_func};
ghost use Rattle.cm_types_arena.specs.Placed.{moved_by};

/// What no import moved stays as it is.
pub fn unmoved()
    ensures types { (t : Ty) → replaced (moved_by None) t ≡ t }
    ensures funcs { (f : FuncTy) → replaced_func (moved_by None) f ≡ f }
{}
