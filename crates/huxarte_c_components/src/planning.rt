//! The plan of the component of a file.

ghost use Rattle.std.specs.Prelude.{◌≡◌, IfErr, IfOk, OnErr, map};
ghost use Rattle.std.specs.List.{flat_map};
ghost use Rattle.cm_binary_model.specs.Trees.{section_tree};
ghost use Rattle.huxarte_c_components.specs.Plans.{IsNoPlan, IsPlanVerdict, IsTold, IsToldOf};
ghost use Rattle.huxarte_c_components.specs.Plans.{part_tree, row_of};

use crate::fault::ComponentFault;
use crate::plan_part::{HuxPlan, HuxPlanPart, Part};
use crate::planned::plan_of;
use crate::sound::{check_one, read_one};
use cm_binary_model::Section;
use huxarte_c_calls::{HuxVerdict, write_items};
use std::alloc::{AllocError, Global};

/// Parts in numbers.
fn rows_of(alloc: Global, parts: &[Part<'_>]) -> Result<Vec<HuxPlanPart>, AllocError>
    ensures { IfOk result (λ rows. rows.items ≡ map (λ p. row_of (part_tree p)) parts.now) }
{
    let mut rows = Vec::new(alloc);
    for part in parts {
        rows.push(part.row())?;
    }
    Ok(rows)
}

/// The bytes of parts, one behind the other.
fn texts_of(alloc: Global, parts: &[Part<'_>]) -> Result<Vec<u8>, AllocError>
    ensures { IfOk result (λ texts. texts.items ≡ flat_map (λ p. p.bytes.now) parts.now) }
{
    let mut texts = Vec::new(alloc);
    for part in parts {
        texts.extend_from_slice(part.bytes)?;
    }
    Ok(texts)
}

/// Writes the plan of a component of these sections into buffers.
fn write_plan(
    alloc: Global,
    sections: &[Section],
    parts: &mut [HuxPlanPart],
    texts: &mut [u8],
) -> Result<HuxPlan, AllocError>
    ensures told { IfOk result (λ plan. IsTold (map section_tree sections.now) plan
        parts.old parts.new texts.old texts.new) }
    ensures stays { OnErr result ((parts.new ≡ parts.old) × (texts.new ≡ texts.old)) }
{
    let found = plan_of(alloc, sections)?;
    let rows = rows_of(alloc, &found)?;
    let bytes = texts_of(alloc, &found)?;
    Ok(HuxPlan {
        parts: write_items(parts, &rows),
        bytes: write_items(texts, &bytes),
    })
}

/// Writes the plan of the component of a file into buffers.
fn plan_in(
    alloc: Global,
    bytes: &[u8],
    parts: &mut [HuxPlanPart],
    texts: &mut [u8],
) -> Result<HuxPlan, ComponentFault>
    ensures told { IfOk result (λ plan.
        IsToldOf bytes.now plan parts.old parts.new texts.old texts.new) }
    ensures refused { IfErr result (IsNoPlan bytes.now) }
    ensures stays { OnErr result ((parts.new ≡ parts.old) × (texts.new ≡ texts.old)) }
{
    let files = read_one(alloc, bytes)?;
    match check_one(alloc, &files) {
        Ok(checked) => {
            let plan = write_plan(alloc, checked.component().sections(), parts, texts)?;
            Ok(plan)
        }
        Err(fault) => Err(ComponentFault::Files(fault)),
    }
}

/// Tells what an engine needs to instantiate the core modules of a component.
///
/// `component` are the bytes of a component file. Where the answer is `Fine`, `parts` and `texts`
/// have as much as there is room for, and `seen` says how much there is. Else nothing is written.
pub fn plan(
    alloc: Global,
    component: &[u8],
    seen: &mut HuxPlan,
    parts: &mut [HuxPlanPart],
    texts: &mut [u8],
) -> HuxVerdict
    ensures { IsPlanVerdict component.now result seen.old seen.new parts.old parts.new
        texts.old texts.new }
{
    match plan_in(alloc, component, parts, texts) {
        Ok(plan) => {
            *seen = plan;
            HuxVerdict::fine()
        }
        Err(fault) => fault.verdict(),
    }
}
