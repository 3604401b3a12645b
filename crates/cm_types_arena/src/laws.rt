//! What holds of types with resources replaced, as laws: each function here does nothing, and its
//! contract is the law.

ghost use Rattle.std.specs.Prelude.{◌≡◌, List, false};
ghost use Rattle.cm_types.specs.declared.resource.ResourceId.{ResourceId};
ghost use Rattle.cm_types.specs.Holds.{holds, is_borrow, is_handle, is_list, is_string};
ghost use Rattle.cm_types.specs.Limits.{depth_of, nodes_of};
ghost use Rattle.cm_types.specs.Resolved.{resolved, resolved_func};
ghost use Rattle.cm_types.specs.Resources.{resolve};
ghost use Rattle.cm_types.specs.Spellable.{is_spellable};
ghost use Rattle.cm_types.specs.Types.{FuncTy, Ty};
ghost use Rattle.cm_types_arena.specs.Replaced.{Standing, replaced, replaced_func};

/// A type with its resources replaced by a row is the type that the row resolves it to.
pub fn rows()
    ensures types { (row : List ResourceId) (t : Ty)
        → replaced (resolve row) t ≡ resolved row t }
    ensures funcs { (row : List ResourceId) (f : FuncTy)
        → replaced_func (resolve row) f ≡ resolved_func row f }
{}

/// A type without handles stays as it is, and replacing resources twice is replacing them once, by
/// both in turn.
pub fn replacing()
    ensures without_handles { (s : Standing) (t : Ty)
        → holds is_handle t ≡ false → replaced s t ≡ t }
    ensures twice { (s u : Standing) (t : Ty)
        → replaced u (replaced s t) ≡ replaced (λ r. u (s r)) t }
    ensures funcs_twice { (s u : Standing) (f : FuncTy)
        → replaced_func u (replaced_func s f) ≡ replaced_func (λ r. u (s r)) f }
{}

/// What is known of a type does not change where resources are replaced.
pub fn what_stays()
    ensures nodes { (s : Standing) (t : Ty) → nodes_of (replaced s t) ≡ nodes_of t }
    ensures depth { (s : Standing) (t : Ty) → depth_of (replaced s t) ≡ depth_of t }
    ensures strings { (s : Standing) (t : Ty)
        → holds is_string (replaced s t) ≡ holds is_string t }
    ensures lists { (s : Standing) (t : Ty) → holds is_list (replaced s t) ≡ holds is_list t }
    ensures borrows { (s : Standing) (t : Ty)
        → holds is_borrow (replaced s t) ≡ holds is_borrow t }
    ensures handles { (s : Standing) (t : Ty)
        → holds is_handle (replaced s t) ≡ holds is_handle t }
    ensures spellable { (s : Standing) (t : Ty)
        → is_spellable (replaced s t) ≡ is_spellable t }
{}
