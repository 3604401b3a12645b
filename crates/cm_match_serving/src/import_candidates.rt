//! The candidates of each import, by what it sees and by its name.

ghost use Rattle.std.specs.Prelude.{◌≡◌, ◌<◌, ◌≤◌, ◌+◌, ◌++◌, IfOk, List, OnOk, length, map};
ghost use Rattle.std.specs.Prelude.{if◌then◌else◌};
ghost use Rattle.cm_types.specs.Signatures.{NamedExtern};
ghost use Rattle.cm_types.specs.Types.{FuncTy, Ty};
ghost use Rattle.cm_types_arena.specs.Externs.{extern_of};
ghost use Rattle.cm_match_model.specs.Fitting.{NamedExport, only};
ghost use Rattle.cm_match_serving.specs.ExportTables.{HasExports};
ghost use Rattle.cm_validate_spaces.specs.cm_validate_entries.ComponentSpaces.{export_def};
ghost use Rattle.cm_match_model.specs.Imports.{candidates, exports_from};
ghost use Rattle.cm_match_model.specs.Sights.{begins_at, is_seen_at, seen_before};
ghost use Rattle.cm_match_serving.specs.Candidates.{AreCandidates, candidates_from};
ghost use Rattle.cm_match_serving.specs.Candidates.{seen_exports};
ghost use Rattle.cm_match_serving.specs.Sets.{set_by, spaces_of_all};

use crate::chosen::{chosen_candidate, chosen_link};
use crate::exports::Exports;
use cm_match_model::sight_laws::{
    a_chosen_link_is_the_only_candidate, groups_see_what_stands_before,
};
use cm_match_model::{Candidate, Choices};
use cm_types::ExternName;
use cm_types_arena::Extern;
use cm_validate_spaces::{Checked, ExportEntry};
use std::alloc::{AllocError, Global};

/// The candidates of an import: by its link, where one is chosen, and else of the exports that its
/// component sees.
fn import_candidate(
    alloc: Global,
    components: &[Checked<'_>],
    choices: &Choices,
    exports: &Exports,
    importer: usize,
    import: usize,
    wanted: &ExternName,
) -> Result<Candidate, AllocError>
    ensures { IfOk result (λ c. HasExports exports.now
        (seen_exports components.now choices.now importer)
        → (x : NamedExtern) → x.name ≡ wanted.now
        → c ≡ only (candidates (set_by components.now choices.now) importer import x)) }
{
    groups_see_what_stands_before();
    a_chosen_link_is_the_only_candidate();
    match chosen_link(choices, importer, import) {
        Some(link) => chosen_candidate(alloc, components, importer, link, wanted),
        None => exports.candidate(alloc, wanted),
    }
}

/// The candidates of a component's imports, in order.
fn import_candidates(
    alloc: Global,
    components: &[Checked<'_>],
    choices: &Choices,
    exports: &Exports,
    importer: usize,
    imports: &[Extern],
) -> Result<Vec<Candidate>, AllocError>
    ensures { IfOk result (λ row. HasExports exports.now
        (seen_exports components.now choices.now importer)
        → (types : List Ty) (funcs : List FuncTy) → row.items
        ≡ candidates_from (set_by components.now choices.now) importer
        (map (extern_of types funcs) imports.now)) }
{
    let mut row = Vec::with_capacity(alloc, imports.len())?;
    for (import, wanted) in imports.iter().enumerate() {
        let candidate = import_candidate(
            alloc,
            components,
            choices,
            exports,
            importer,
            import,
            &wanted.name,
        )?;
        row.push(candidate)?;
    }
    Ok(row)
}

/// Adds the exports of a component to those of the components before it.
fn add_exports(
    exports: &mut Exports,
    component: usize,
    entries: &[ExportEntry<'_>],
) -> Result<(), AllocError>
    ensures { OnOk result ((types : List Ty) (funcs : List FuncTy) (before : List NamedExport)
        → HasExports exports.old before → HasExports exports.new
        (before ++ exports_from component 0 (map (export_def types funcs) entries.now))) }
{
    exports.reserve(entries.len())?;
    for (number, entry) in entries.iter().enumerate() {
        exports.add(entry.name, component, number)?;
    }
    Ok(())
}

/// Whether a component begins a group.
fn begins(choices: &Choices, component: usize) -> bool
    ensures { result ≡ begins_at choices.now.places.items component }
{
    match choices.places.get(component) {
        Some(place) => place.begins,
        None => true,
    }
}

/// Whether a component is seen from behind its group.
fn is_seen(choices: &Choices, component: usize) -> bool
    ensures { result ≡ is_seen_at choices.now.places.items component }
{
    match choices.places.get(component) {
        Some(place) => place.is_seen,
        None => true,
    }
}

/// Adds the exports of a component, where they are seen, to those that are seen before it.
fn add_if_seen(
    exports: &mut Exports,
    components: &[Checked<'_>],
    choices: &Choices,
    at: usize,
) -> Result<(), AllocError>
    requires { at < length components.now }
    ensures { OnOk result (HasExports exports.old
        (seen_before (spaces_of_all components.now) choices.now.places.items at)
        → HasExports exports.new
        (seen_before (spaces_of_all components.now) choices.now.places.items (at + 1))) }
{
    if !is_seen(choices, at) {
        return Ok(());
    }
    add_exports(exports, at, components[at].exports())
}

/// Adds the exports that are seen of the components from one to before another.
fn add_seen(
    exports: &mut Exports,
    components: &[Checked<'_>],
    choices: &Choices,
    from: usize,
    to: usize,
) -> Result<(), AllocError>
    requires ordered { from ≤ to }
    requires there { to ≤ length components.now }
    ensures { OnOk result (HasExports exports.old
        (seen_before (spaces_of_all components.now) choices.now.places.items from)
        → HasExports exports.new
        (seen_before (spaces_of_all components.now) choices.now.places.items to)) }
{
    for at in from..to {
        add_if_seen(exports, components, choices, at)?;
    }
    Ok(())
}

/// Adds the exports that are seen of the group before, where a component begins one. The first
/// component of its group is the result.
fn see_group(
    exports: &mut Exports,
    components: &[Checked<'_>],
    choices: &Choices,
    first: usize,
    at: usize,
) -> Result<usize, AllocError>
    requires ordered { first ≤ at }
    requires there { at ≤ length components.now }
    ensures group { IfOk result (λ n. n
        ≡ if begins_at choices.now.places.items at then at else first) }
    ensures seen { IfOk result (λ n. HasExports exports.old
        (seen_before (spaces_of_all components.now) choices.now.places.items first)
        → HasExports exports.new
        (seen_before (spaces_of_all components.now) choices.now.places.items n)) }
{
    if !begins(choices, at) {
        return Ok(first);
    }
    add_seen(exports, components, choices, first, at)?;
    Ok(at)
}

/// The candidates of each import of each component of a set: of what the import sees by these
/// choices, the exports that have its name, or its interface in a compatible version (how
/// components are linked is this project's own choice). No import is judged. `AllocError` comes
/// where there is no memory. An import costs the length of its name and the logarithm of the number
/// of exports before it; one for which a link is chosen, the lengths of its name and the export's.
pub fn candidates_of(
    alloc: Global,
    components: &[Checked<'_>],
    choices: &Choices,
) -> Result<Vec<Vec<Candidate>>, AllocError>
    ensures { IfOk result (λ rows. AreCandidates (set_by components.now choices.now) rows.items) }
{
    let mut exports = Exports::new(alloc);
    let mut rows = Vec::with_capacity(alloc, components.len())?;
    let mut first = 0;
    for (at, component) in components.iter().enumerate() {
        let group = see_group(&mut exports, components, choices, first, at)?;
        let imports = component.imports();
        let row = import_candidates(alloc, components, choices, &exports, at, imports)?;
        rows.push(row)?;
        first = group;
    }
    Ok(rows)
}
