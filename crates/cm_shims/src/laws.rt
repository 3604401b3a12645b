//! Laws of files that may have shims.

ghost use Rattle.std.specs.Prelude.{◌≡◌, ◌++◌, ℕ, List, Ok, Some, length};
ghost use Rattle.cm_types.specs.DefTypes.{DefTypeTree, DefValTypeTree, FuncTypeTree};
ghost use Rattle.cm_validate_model.specs.Definitions.{TypeDef};
ghost use Rattle.cm_validate_model.specs.Scopes.{func_def_of, value_def_of};
ghost use Rattle.cm_validate_model.specs.Spaces.{Spaces};
ghost use Rattle.cm_shims_plain.specs.Trees.{ShimSectionTree};
ghost use Rattle.cm_shims_plain.specs.declared.wants.Want.{Want};
ghost use Rattle.cm_shims_plain.specs.Instantiated.{Given, Instantiated, instantiated};
ghost use Rattle.cm_shims_plain.specs.Instantiated.{instantiating};
ghost use Rattle.cm_shims_plain.specs.Renumbered.{renumbered_func, renumbered_value};
ghost use Rattle.cm_shims.specs.Meanings.{AgreeAt, Own, items_behind, own_instance};

pub use cm_shims_plain::laws::{nothing_old_changes, shims_only_rename};

/// A type that a shim defines stands in the component for the very tree that it stands for in the
/// shim, with the arguments in the place of the imports: where each index of a type stands for the
/// same in the shim as its place does in the component, so does each definition. A resource keeps
/// its number.
pub fn types_keep_their_trees()
    ensures values { (f : ℕ → ℕ) (own types : List TypeDef) → AgreeAt f own types
        → (v : DefValTypeTree) → value_def_of types (renumbered_value f v) ≡ value_def_of own v }
    ensures funcs { (f : ℕ → ℕ) (own types : List TypeDef) → AgreeAt f own types
        → (t : FuncTypeTree) → func_def_of types (renumbered_func f t) ≡ func_def_of own t }
{}

/// An instance of a shim has in the plain component, behind the types that the shim defines there,
/// the very items that it has by the shim's own index spaces, in order: each function is the one
/// that was given, each type the one that was given, with its resources, or what the shim's
/// definition stands for with the arguments put in.
pub fn instances_keep_their_items()
    ensures { (s : Spaces) (g : Given) (before made : List DefTypeTree) (wants : List Want)
        (shim : List ShimSectionTree) (t : Instantiated) (own : Own)
        → instantiated g (instantiating (length s.types) before wants) shim ≡ Ok t
        → own_instance s g shim ≡ Some own → t.made ≡ before ++ made
        → items_behind s made t.exports ≡ own.items }
{}
