//! Functions that are lifted.

ghost use Rattle.std.specs.Prelude.{◌≡◌, ℕ, IfErr, IfOk, List, Some, slice_get};
ghost use Rattle.cm_types.specs.Types.{FuncTy, Ty};
ghost use Rattle.cm_types_arena.specs.Placed.{placed_func};
ghost use Rattle.cm_validate_model.specs.Reasons.{least};
ghost use Rattle.cm_validate_model.specs.Rules.{func_ty_at, type_index_broken};
ghost use Rattle.cm_validate_model.specs.Spaces.{Spaces};
ghost use Rattle.cm_validate_model.specs.TypeRules.{has_sort};
ghost use Rattle.cm_validate_model.specs.declared.sorts.TypeSort.TheVariants as sort;
ghost use Rattle.cm_validate_types.specs.declared.entries.TypeEntry.{TypeEntry as Entry};
ghost use Rattle.cm_validate_types.specs.declared.entries.TypeEntry.TheVariants as entry;
ghost use Rattle.cm_validate_entries.specs.ComponentSpaces.{AreTypesOf};

use crate::entries::FuncEntry;
use crate::spaces::ComponentSpaces;
use crate::types::func_at;
use cm_binary_model::CanonOption;
use cm_types_arena::Placed;
use cm_validate_model::ValidReason;
use cm_validate_types::TypeEntry;
use std::alloc::AllocError;

/// The type of a function under an index of a type, as a lift names it; or why the index is
/// refused: `NoSuchIndex` where nothing is there, `WrongSort` where another type is (Explainer.md,
/// "Canonical Definitions").
pub fn func_type_at(types: &[TypeEntry], index: u32) -> Result<Placed, ValidReason>
    ensures entry { IfOk result (λ p. slice_get types.now index ≡ Some (entry.Func p)) }
    ensures ty { IfOk result (λ p. (tys : List Ty) (funcs : List FuncTy) (s : Spaces)
        → AreTypesOf tys funcs types.now s → func_ty_at s index ≡ Some (placed_func funcs p)) }
    ensures broken { IfErr result (λ r. (tys : List Ty) (funcs : List FuncTy) (s : Spaces)
        → AreTypesOf tys funcs types.now s
        → Some r ≡ least (type_index_broken s (has_sort sort.Func) index)) }
{
    func_at(types, index)
}

impl<'a> ComponentSpaces<'a> {
    ghost use Rattle.std.specs.Prelude.{OnErr, OnOk};
    ghost use Rattle.cm_binary_model.specs.Trees.{lift};
    ghost use Rattle.cm_validate_model.specs.Items.{canon_item};
    ghost use Rattle.cm_validate_model.specs.Spaces.{after_item};
    ghost use Rattle.cm_validate_entries.specs.ComponentSpaces.{IsComponentOf, Stays};

    /// Adds a lift that violates no rule: the core function of an index as a function of a type,
    /// with these options, which are borrowed. `AllocError` comes where there is no memory for it;
    /// the spaces then stay as they are (Explainer.md, "Canonical Definitions").
    pub fn add_lift(
        &mut self,
        core_func: u32,
        options: &'a [CanonOption],
        ty: Placed,
    ) -> Result<(), AllocError>
        ensures added { OnOk result ((types : List Ty) (funcs : List FuncTy) (s : Spaces)
            (es : List Entry) (i : ℕ)
            → IsComponentOf types funcs self.old s → AreTypesOf types funcs es s
            → slice_get es i ≡ Some (entry.Func ty)
            → IsComponentOf types funcs self.new
            (after_item s (canon_item (lift core_func options.now i)))) }
        ensures kept { OnErr result (Stays self.old self.new) }
    {
        self.push_func(FuncEntry::Lifted {
            core_func,
            ty,
            options,
        })
    }
}
