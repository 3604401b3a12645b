//! The links of the parts of a bundle.

ghost use Rattle.std.specs.Prelude.{IfErr, IfOk, IsFalse, IsTrue, map};
ghost use Rattle.cm_match_serving.specs.Sets.{spaces_of_all};
ghost use Rattle.cm_bundle.specs.Trees.{bundle_tree};
ghost use Rattle.cm_bundle_links.specs.Links.{AreLinks, AreParts, IsLinksFault};

use crate::fault::{LinksFault, LinksReason};
use crate::rows::row_of;
use crate::tables::table_of;
use cm_bundle::{Bundle, MAX_PARTS};
use cm_match_model::Link;
use cm_match_serving::Checked;
use std::alloc::Global;

/// Whether there is a component for each part, of as many as a bundle may have.
fn are_parts(bundle: &Bundle<'_>, components: &[Checked<'_>]) -> bool
    ensures are { IsTrue result
        → AreParts (bundle_tree bundle.now) (spaces_of_all components.now) }
    ensures others { IsFalse result
        → AreParts (bundle_tree bundle.now) (spaces_of_all components.now) → ⊥ }
{
    let count = bundle.parts.len();
    components.len() == count && count <= MAX_PARTS
}

/// How the parts of a bundle are linked, whose files stand for these components, in their order:
/// for each part a row of the links of its imports, in order, each the export that the bundle says
/// by its name (Explainer.md, "Instance Definitions"). Parts, imports and exports count from 0.
///
/// The fault is the first one, by part and argument: `OtherParts` comes before all, and `NoImport`
/// behind those of the imports of the part. `Memory` comes where there is none for the rows, or for
/// the tables of exports by name, one for each component.
pub fn links_of(
    alloc: Global,
    bundle: &Bundle<'_>,
    components: &[Checked<'_>],
) -> Result<Vec<Vec<Link>>, LinksFault>
    ensures links { IfOk result (λ rows. AreLinks (bundle_tree bundle.now)
        (spaces_of_all components.now) (map (λ r. r.items) rows.items)) }
    ensures refused { IfErr result
        (IsLinksFault (bundle_tree bundle.now) (spaces_of_all components.now)) }
{
    if !are_parts(bundle, components) {
        return Err(LinksFault {
            part: 0,
            argument: 0,
            reason: LinksReason::OtherParts,
        });
    }
    let mut rows = Vec::new(alloc);
    let mut tables = Vec::new(alloc);
    for (number, component) in components.iter().enumerate() {
        let arguments = bundle.parts[number].arguments.as_slice();
        let imports = component.imports();
        let row = match row_of(alloc, &bundle.front, &tables, number, imports, arguments) {
            Ok(row) => row,
            Err(fault) => return Err(fault),
        };
        rows.push(row)?;
        let table = table_of(alloc, component.exports())?;
        tables.push(table)?;
    }
    Ok(rows)
}
