//! Linked sets as bundles, before they are written.

ghost use Rattle.std.specs.Prelude.{◌≡◌, ◌+◌, ◌≤◌, length, map, drop, IfOk};
ghost use Rattle.std.specs.List.{AllByRecursion, enumerate_from};
ghost use Rattle.cm_match_model.specs.Imports.{all_imports_from};
ghost use Rattle.cm_match_model.specs.Links.{lines_of};
ghost use Rattle.cm_match.specs.Linked.{set_in};
ghost use Rattle.cm_bundle.specs.Spelled.{AreSupplied};
ghost use Rattle.cm_bundle.specs.Trees.{bundle_tree, group_tree, part_tree};
ghost use Rattle.cm_bundle.specs.Bundled.{bundle_with, first_part, part_of};
ghost use Rattle.cm_bundle.specs.BundlingRefusals.{AreComplete};
ghost use Rattle.cm_bundle.specs.Texts.{HasTexts};

use crate::form::{Bundle, ImportGroup, Part};
use crate::set_supplies::{arguments_of, exports_of};
use cm_match::{Linked, PlanLine};
use cm_match_model::laws::links_lead_earlier;
use std::alloc::{AllocError, Global};

/// The number of the first component that is a part: 1 where component 0 stands for what an open
/// bundle imports.
pub fn first_part(front: &[ImportGroup<'_>]) -> usize
    ensures { result ≡ first_part (map group_tree front.now) }
{
    usize::from(!front.is_empty())
}

/// The bundle of a linked set, with this front and these custom sections, before it is written.
pub fn bundle_with<'a>(
    alloc: Global,
    linked: &'a Linked<'_>,
    front: &[ImportGroup<'a>],
    files: &[&'a [u8]],
    exporter: usize,
    customs: &[&'a [u8]],
) -> Result<Bundle<'a>, AllocError>
    requires { AreComplete (set_in linked.now) (map group_tree front.now)
        (map (λ f. f.now) files.now) exporter }
    ensures bundle { IfOk result (λ b. bundle_tree b ≡ bundle_with (set_in linked.now)
        (map group_tree front.now) (map (λ f. f.now) files.now) exporter
        (map (λ c. c.now) customs.now)) }
    ensures supplied { IfOk result (λ b. AreSupplied (first_part (map group_tree front.now))
        (bundle_tree b).parts (bundle_tree b).exports) }
{
    links_lead_earlier();
    let first = first_part(front);
    let lines = lines_behind(linked, first);
    let parts = parts_of(alloc, linked, first, lines, files)?;
    let exports = exports_of(alloc, linked, exporter)?;
    let front = front.to_vec(alloc)?;
    let customs = customs.to_vec(alloc)?;
    Ok(Bundle {
        front,
        parts,
        exports,
        customs,
    })
}

/// The lines of the plan for the imports of the components from this number on, which is 0 or 1.
fn lines_behind<'a>(linked: &'a Linked<'_>, first: usize) -> &'a [PlanLine]
    requires few { first ≤ 1 }
    requires there { first ≤ length (set_in linked.now).spaces }
    ensures { result.now ≡ lines_of (set_in linked.now)
        (all_imports_from first (drop first (set_in linked.now).spaces)) }
{
    let lines = linked.plan();
    if first == 0 {
        return lines;
    }
    let (_, behind) = lines.split_at(linked.components()[0].imports().len());
    behind
}

/// Each component from this number on with its file, and what its imports are given. There is a
/// line for each import, in order, so that each component takes its own from the front.
fn parts_of<'a>(
    alloc: Global,
    linked: &'a Linked<'_>,
    first: usize,
    lines: &'a [PlanLine],
    files: &[&'a [u8]],
) -> Result<Vec<Part<'a>>, AllocError>
    requires each { first + length files.now ≡ length (set_in linked.now).spaces }
    requires lines { lines.now ≡ lines_of (set_in linked.now)
        (all_imports_from first (drop first (set_in linked.now).spaces)) }
    ensures parts { IfOk result (λ v. map part_tree v.items ≡ map (part_of (set_in linked.now))
        (enumerate_from first (map (λ f. f.now) files.now))) }
    ensures texts { IfOk result (λ v.
        AllByRecursion (λ p. AllByRecursion HasTexts p.arguments) (map part_tree v.items)) }
{
    let components = linked.components();
    let mut lines = lines;
    let mut parts = Vec::new(alloc);
    for (number, file) in files.iter().enumerate() {
        let component = first + number;
        let (own, others) = lines.split_at(components[component].imports().len());
        let arguments = arguments_of(alloc, linked, own)?;
        parts.push(Part { file, arguments })?;
        lines = others;
    }
    Ok(parts)
}
