//! What stands in the spaces: imports, exports and resources.

use crate::spaces::{ComponentSpaces, ExportEntry};
use cm_types_arena::Extern;
use cm_validate_items::Resources;

/// What a component imports and exports, in order, and its resources, in the order of their numbers
/// from 0.
#[derive(Drop)]
pub struct ComponentLists<'a> {
    pub imports: Vec<Extern>,
    pub exports: Vec<ExportEntry<'a>>,
    pub resources: Resources,
}

impl<'a> ComponentSpaces<'a> {
    ghost use Rattle.std.specs.Prelude.{◌≡◌, List, length, map, true};
    ghost use Rattle.std.specs.List.{list_all};
    ghost use Rattle.cm_types.specs.Types.{FuncTy, Ty};
    ghost use Rattle.cm_types_arena.specs.Externs.{extern_of, is_extern_there};
    ghost use Rattle.cm_validate_model.specs.Spaces.{Spaces};
    ghost use Rattle.cm_validate_items.specs.Resources.{resources_in};
    ghost use Rattle.cm_validate_entries.specs.ComponentSpaces.{IsComponentOf, export_def};
    ghost use Rattle.cm_validate_entries.specs.ComponentSpaces.{is_exported_there};

    /// The imports, the exports and the resources, in order; what else stands in the spaces is
    /// dropped (Explainer.md, "Index Spaces").
    pub fn into_lists(self) -> ComponentLists<'a>
        ensures imports { (types : List Ty) (funcs : List FuncTy) (s : Spaces)
            → IsComponentOf types funcs self.entry s
            → s.imports ≡ map (extern_of types funcs) result.imports.items }
        ensures exports { (types : List Ty) (funcs : List FuncTy) (s : Spaces)
            → IsComponentOf types funcs self.entry s
            → s.exports ≡ map (export_def types funcs) result.exports.items }
        ensures imports_there { (types : List Ty) (funcs : List FuncTy) (s : Spaces)
            → IsComponentOf types funcs self.entry s → list_all
            (λ e. is_extern_there (length types) (length funcs) e.desc)
            result.imports.items ≡ true }
        ensures exports_there { (types : List Ty) (funcs : List FuncTy) (s : Spaces)
            → IsComponentOf types funcs self.entry s → list_all
            (λ e. is_exported_there (length types) (length funcs) e.def)
            result.exports.items ≡ true }
        ensures resources { (types : List Ty) (funcs : List FuncTy) (s : Spaces)
            → IsComponentOf types funcs self.entry s
            → s.resources ≡ resources_in result.resources }
    {
        let ComponentSpaces {
            imports,
            exports,
            resources,
            ..
        } = self;
        ComponentLists {
            imports,
            exports,
            resources,
        }
    }
}
