//! The links of the imports of one part.

ghost use Rattle.std.specs.Prelude.{◌≡◌, ◌⊎◌, ◌≤◌, ◌<◌, IfErr, IfOk, IsSome, List, length, map};
ghost use Rattle.std.specs.Option.{option_map};
ghost use Rattle.cm_types.specs.Types.{FuncTy, Ty};
ghost use Rattle.cm_types_arena.specs.Externs.{extern_of};
ghost use Rattle.cm_validate_model.specs.Spaces.{Spaces};
ghost use Rattle.cm_bundle.specs.Trees.{export_tree, group_tree, supply_tree};
ghost use Rattle.cm_bundle.specs.declared.form.TheConstants.{MAX_PARTS};
ghost use Rattle.cm_bundle_links.specs.Links.{AreLinked, IsFirstUnlinked, component_of};
ghost use Rattle.cm_bundle_links.specs.Tables.{AreTables, export_named, is_for, link_given};
ghost use Rattle.cm_bundle_links.specs.Tables.{link_to};
ghost use Rattle.cm_bundle_links.specs.declared.fault.LinksReason.TheVariants as reasons;

use crate::fault::{LinksFault, LinksReason};
use crate::tables::{import_sort, sort_number};
use cm_bundle::{ImportGroup, PartExport, Supply};
use cm_match_model::Link;
use cm_names::Keys;
use cm_types_arena::Extern;
use std::alloc::Global;

/// Whether an argument is for an import: of its name and its sort.
fn is_for(import: &Extern, argument: &Supply<'_>) -> bool
    ensures { (types : List Ty) (funcs : List FuncTy)
        → result ≡ is_for (extern_of types funcs import.now) (supply_tree argument.now) }
{
    argument.name == import.name.as_str()
        && sort_number(argument.export.sort) == sort_number(import_sort(&import.desc))
}

/// The component of a part, counted from 0 in open and closed bundles; none where the part stands
/// for what the bundle imports.
fn component_of(front: &[ImportGroup<'_>], part: usize) -> Option<usize>
    ensures { result ≡ component_of (map group_tree front.now) part }
{
    if front.is_empty() {
        Some(part)
    } else {
        part.checked_sub(1)
    }
}

/// The number of the export that an argument names, of a component before.
fn export_named(before: &[Keys<'_>], component: usize, export: PartExport<'_>) -> Option<usize>
    ensures named { (set : List Spaces) → AreTables set before.now
        → result ≡ export_named set component (export_tree export.entry) }
    ensures within { IsSome result → component < length before.now }
{
    match before.get(component) {
        Some(table) => table.find(sort_number(export.sort), export.name),
        None => None,
    }
}

/// The link to the export that an argument names, of a component before.
fn link_to(
    before: &[Keys<'_>],
    component: usize,
    export: PartExport<'_>,
) -> Result<Link, LinksReason>
    requires { length before.now ≤ MAX_PARTS }
    ensures { (set : List Spaces) → AreTables set before.now
        → result ≡ link_to set component (export_tree export.entry) }
{
    match export_named(before, component, export) {
        Some(export) => Ok(Link {
            component: component as u32,
            export,
        }),
        None => Err(LinksReason::NoExport),
    }
}

/// The link of an import that is given this in its place.
fn link_given(
    front: &[ImportGroup<'_>],
    before: &[Keys<'_>],
    import: &Extern,
    argument: Option<&Supply<'_>>,
) -> Result<Link, LinksReason>
    requires { length before.now ≤ MAX_PARTS }
    ensures { (set : List Spaces) (types : List Ty) (funcs : List FuncTy)
        → AreTables set before.now → result ≡ link_given (map group_tree front.now) set
        (extern_of types funcs import.now) (option_map (λ x. supply_tree x.now) argument.entry) }
{
    let Some(argument) = argument else {
        return Err(LinksReason::NotGiven);
    };
    if !is_for(import, argument) {
        return Err(LinksReason::NotGiven);
    }
    match component_of(front, argument.export.part) {
        Some(component) => link_to(before, component, argument.export),
        None => Err(LinksReason::Imported),
    }
}

/// The links of the imports of a part that is given these arguments; the components before it have
/// these tables. The fault is that of the part, at the first argument that is not right.
pub(crate) fn row_of(
    alloc: Global,
    front: &[ImportGroup<'_>],
    before: &[Keys<'_>],
    part: usize,
    imports: &[Extern],
    arguments: &[Supply<'_>],
) -> Result<Vec<Link>, LinksFault>
    requires { length before.now ≤ MAX_PARTS }
    ensures linked { (set : List Spaces) (types : List Ty) (funcs : List FuncTy)
        → AreTables set before.now → IfOk result (λ row. AreLinked (map group_tree front.now) set
        (map (extern_of types funcs) imports.now) (map supply_tree arguments.now) row.items) }
    ensures refused { (set : List Spaces) (types : List Ty) (funcs : List FuncTy)
        → AreTables set before.now → IfErr result (λ f. (f.reason ≡ reasons.Memory)
        ⊎ ((f.part ≡ part) × IsFirstUnlinked (map group_tree front.now) set
        (map (extern_of types funcs) imports.now) (map supply_tree arguments.now)
        f.argument f.reason)) }
{
    let mut row = Vec::with_capacity(alloc, imports.len())?;
    for (argument, import) in imports.iter().enumerate() {
        match link_given(front, before, import, arguments.get(argument)) {
            Ok(link) => row.push(link)?,
            Err(reason) => {
                return Err(LinksFault {
                    part,
                    argument,
                    reason,
                });
            }
        }
    }
    if arguments.len() > imports.len() {
        return Err(LinksFault {
            part,
            argument: imports.len(),
            reason: LinksReason::NoImport,
        });
    }
    Ok(row)
}
