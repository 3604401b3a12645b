//! What components of a set are given, and what they export, as a bundle names it.

ghost use Rattle.std.specs.Prelude.{◌≡◌, List, map, true, IfOk, IfSome};
ghost use Rattle.std.specs.List.{AllByRecursion, filter_map};
ghost use Rattle.std.specs.Option.{option_map};
ghost use Rattle.std.specs.Str.{is_utf8};
ghost use Rattle.cm_types.specs.Types.{FuncTy, Ty};
ghost use Rattle.cm_types_arena.specs.Externs.{extern_desc_of, extern_of};
ghost use Rattle.cm_validate_entries.specs.ComponentSpaces.{export_def, exported_def};
ghost use Rattle.cm_match_model.specs.Imports.{import_in};
ghost use Rattle.cm_match_serving.specs.Sets.{funcs_at, types_at};
ghost use Rattle.cm_match.specs.Linked.{components_in, set_in};
ghost use Rattle.cm_bundle.specs.Trees.{supply_tree};
ghost use Rattle.cm_bundle.specs.Bundled.{argument_of, export_at, export_sort, exported};
ghost use Rattle.cm_bundle.specs.Bundled.{exports_of, import_sort};
ghost use Rattle.cm_bundle.specs.Texts.{HasTexts};

use crate::form::{PartExport, Sort, Supply};
use cm_match::{ExportEntry, Linked, PlanLine};
use cm_types_arena::{Extern, ExternDesc};
use cm_validate_entries::ExportedEntry;
use std::alloc::{AllocError, Global};

fn import_sort(desc: &ExternDesc) -> Sort
    ensures { (types : List Ty) (funcs : List FuncTy)
        → result ≡ import_sort (extern_desc_of types funcs desc.now) }
{
    match desc {
        ExternDesc::Func(_) => Sort::Func,
        ExternDesc::Instance { .. } => Sort::Instance,
    }
}

fn export_sort(def: &ExportedEntry<'_>) -> Sort
    ensures { (types : List Ty) (funcs : List FuncTy)
        → result ≡ export_sort (exported_def types funcs def.now) }
{
    match def {
        ExportedEntry::Func(_) => Sort::Func,
        ExportedEntry::Instance(_) => Sort::Instance,
    }
}

/// The import of a number of a component.
fn import_at<'a>(linked: &'a Linked<'_>, component: usize, import: usize) -> Option<&'a Extern>
    ensures { option_map (λ i. extern_of (types_at (components_in linked.now) component)
        (funcs_at (components_in linked.now) component) i.now) result
        ≡ import_in (set_in linked.now).spaces component import }
{
    linked.components().get(component)?.imports().get(import)
}

/// The name of the export of a number of a component.
fn export_name<'a>(linked: &'a Linked<'_>, component: usize, export: usize) -> Option<&'a str>
    ensures name { option_map (λ n. n.now) result
        ≡ option_map (λ e. e.name) (export_at (set_in linked.now).spaces component export) }
    ensures text { IfSome result (λ n. is_utf8 n.now ≡ true) }
{
    let components = linked.components();
    Some(
        components
            .get(component)?
            .exports()
            .get(export)?
            .name
            .as_str(),
    )
}

/// What the import of a line is given.
fn argument_of<'a>(linked: &'a Linked<'_>, line: &PlanLine) -> Option<Supply<'a>>
    ensures argument { option_map supply_tree result
        ≡ argument_of (set_in linked.now).spaces line.now }
    ensures texts { IfSome result (λ x. HasTexts (supply_tree x)) }
{
    let import = import_at(linked, line.importer, line.import)?;
    let name = export_name(linked, line.provider, line.export)?;
    Some(Supply {
        name: import.name.as_str(),
        export: PartExport {
            part: line.provider,
            sort: import_sort(&import.desc),
            name,
        },
    })
}

/// What the imports of some lines are given, in order.
pub fn arguments_of<'a>(
    alloc: Global,
    linked: &'a Linked<'_>,
    lines: &[PlanLine],
) -> Result<Vec<Supply<'a>>, AllocError>
    ensures arguments { IfOk result (λ v. map supply_tree v.items
        ≡ filter_map (argument_of (set_in linked.now).spaces) lines.now) }
    ensures texts { IfOk result (λ v. AllByRecursion HasTexts (map supply_tree v.items)) }
{
    let mut arguments = Vec::new(alloc);
    for line in lines {
        if let Some(argument) = argument_of(linked, line) {
            arguments.push(argument)?;
        }
    }
    Ok(arguments)
}

/// An export of a component, under its own name.
fn exported<'a>(component: usize, export: &'a ExportEntry<'_>) -> Supply<'a>
    ensures export { (types : List Ty) (funcs : List FuncTy)
        → supply_tree result ≡ exported component (export_def types funcs export.now) }
    ensures texts { HasTexts (supply_tree result) }
{
    let name = export.name.as_str();
    Supply {
        name,
        export: PartExport {
            part: component,
            sort: export_sort(&export.def),
            name,
        },
    }
}

/// What a component exports, in order.
pub fn exports_of<'a>(
    alloc: Global,
    linked: &'a Linked<'_>,
    component: usize,
) -> Result<Vec<Supply<'a>>, AllocError>
    ensures exports { IfOk result (λ v. map supply_tree v.items
        ≡ exports_of (set_in linked.now).spaces component) }
    ensures texts { IfOk result (λ v. AllByRecursion HasTexts (map supply_tree v.items)) }
{
    let mut exports = Vec::new(alloc);
    let Some(checked) = linked.components().get(component) else {
        return Ok(exports);
    };
    for export in checked.exports() {
        exports.push(exported(component, export))?;
    }
    Ok(exports)
}
