//! Whether what shims want holds.

ghost use Rattle.std.specs.Prelude.{◌≡◌, ◌⊎◌, IfErr, IfOk, take};
ghost use Rattle.cm_validate_model.specs.Spaces.{Spaces};
ghost use Rattle.cm_validate_spaces.specs.Checked.{spaces_in};
ghost use Rattle.cm_validate_spaces.specs.IndexSpaces.{IsAt};
ghost use Rattle.cm_shims.specs.declared.fault.FitReason.TheVariants as reasons;
ghost use Rattle.cm_shims.specs.Fitting.{AllHold, IsFirstUnmet};
ghost use Rattle.cm_shims.specs.Judging.{IsArenaOf, IsJudged};

use crate::fault::{FitFault, FitReason};
use crate::judge::Tables;
use cm_shims_plain::Want;
use cm_types_arena::Types;
use cm_validate_spaces::{Checked, IndexSpaces};
use std::alloc::{AllocError, Global};

/// Whether all that the shims of a file want holds of its plain component, which is valid: that
/// functions have the types that their shims say, that types are equal, and that types are
/// resources (Binary.md, "Instance Definitions", `instantiate`; "Import and Export Definitions").
///
/// Else the first want that does not hold is at fault. `Memory` comes at a want before which all
/// hold. It takes time and memory as `validate` does, and the logarithm of the types for each want.
pub fn fits(alloc: Global, checked: &Checked<'_>, wants: &[Want]) -> Result<(), FitFault>
    ensures held { IfOk result (λ _. AllHold (spaces_in checked.now) wants.now) }
    ensures complete { AllHold (spaces_in checked.now) wants.now
        → IfErr result (λ f. f.reason ≡ reasons.Memory) }
    ensures fault { IfErr result (λ f.
        ((f.reason ≡ reasons.Memory) × AllHold (spaces_in checked.now) (take f.want wants.now))
        ⊎ IsFirstUnmet (spaces_in checked.now) wants.now f) }
{
    if wants.is_empty() {
        return Ok(());
    }
    match checked.spaces(alloc) {
        Ok(spaces) => judge(alloc, spaces.arena(), &spaces, wants),
        Err(AllocError) => Err(no_memory(0)),
    }
}

/// Memory was refused at a want.
fn no_memory(want: usize) -> FitFault
    ensures want { result.want ≡ want }
    ensures reason { result.reason ≡ reasons.Memory }
{
    FitFault {
        want,
        reason: FitReason::Memory,
    }
}

/// Whether all wants hold of these index spaces, whose types stand in this arena.
fn judge(
    alloc: Global,
    arena: &Types,
    spaces: &IndexSpaces<'_>,
    wants: &[Want],
) -> Result<(), FitFault>
    requires { IsArenaOf arena.now spaces.now }
    ensures { (s : Spaces) → IsAt spaces.now s → IsJudged s wants.now result }
{
    let mut tables = Tables::new(alloc);
    for (number, want) in wants.iter().enumerate() {
        match tables.fault(alloc, arena, spaces, *want) {
            Ok(None) => {}
            Ok(Some(reason)) => {
                return Err(FitFault {
                    want: number,
                    reason,
                });
            }
            Err(AllocError) => return Err(no_memory(number)),
        }
    }
    Ok(())
}
