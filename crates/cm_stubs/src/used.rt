//! Which exports of a component the plan of a linked set uses.

ghost use Rattle.std.specs.Prelude.{◌≡◌, ◌<◌, ℕ, IfOk, IsTrue, length};
ghost use Rattle.cm_stubs.specs.Used.{AreMarks, AreUsed};

use cm_match::PlanLine;
use std::alloc::{AllocError, Global};

/// A mark for each of so many exports of a component, where the plan uses it.
fn used_marks(
    alloc: Global,
    plan: &[PlanLine],
    provider: usize,
    count: usize,
) -> Result<Vec<bool>, AllocError>
    ensures { IfOk result (λ marks. AreMarks plan.now provider count marks.items) }
{
    let mut marks = Vec::from_elem(alloc, false, count)?;
    for line in plan {
        if line.provider == provider && line.export < count {
            marks[line.export] = true;
        }
    }
    Ok(marks)
}

/// Whether the plan uses each of so many exports of a component.
pub(crate) fn are_used(
    alloc: Global,
    plan: &[PlanLine],
    provider: usize,
    count: usize,
) -> Result<bool, AllocError>
    ensures { IfOk result (λ used. IsTrue used → AreUsed plan.now provider count) }
{
    let marks = used_marks(alloc, plan, provider, count)?;
    Ok(marks.iter().all(|mark| *mark))
}
