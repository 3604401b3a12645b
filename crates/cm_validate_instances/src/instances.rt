//! Instances of inline exports.

ghost use Rattle.std.specs.Prelude.{IfOk, OnErr};
ghost use Rattle.cm_binary_model.specs.declared.instances.InlineExport.{InlineExport};
ghost use Rattle.cm_types_arena.specs.Places.{funcs_of, types_of};
ghost use Rattle.cm_validate_model.specs.Items.{instance_item};
ghost use Rattle.cm_validate_entries.specs.ComponentSpaces.{Stays};
ghost use Rattle.cm_validate_instances.specs.Answers.{AnswersAmong};

use crate::item_faults::item_names_fault;
use crate::members::{examine, gather};
use crate::name_laws::names_are_sketched;
use cm_binary_model::InlineExport;
use cm_types_arena::Types;
use cm_validate_core::lesser;
use cm_validate_entries::ComponentSpaces;
use cm_validate_model::ValidReason;
use cm_validate_model::laws::least_of_both;
use cm_validate_types::TypeEntry;
use std::alloc::{AllocError, Global};

/// Adds an instance of definitions under names. Answers why it is refused: the reason with the
/// smallest number, or none. `NoSuchIndex` comes where an export names nothing, `WrongSort` where
/// it names a type that is neither a value type nor a resource, `DuplicateName` where two have the
/// same name, ASCII case aside, and `BadAnnotatedName` where one has a name that it may not have
/// among the others; the spaces then stay as they are. So they do with `AllocError`, which comes
/// where there is no memory (Explainer.md, "Instance Definitions").
///
/// It costs a look-up for each name, which is folded once.
pub fn add_instance<'a>(
    spaces: &mut ComponentSpaces<'a>,
    alloc: Global,
    arena: &Types,
    types: &[TypeEntry],
    exports: &'a [InlineExport],
) -> Result<Option<ValidReason>, AllocError>
    ensures answer { IfOk result (λ r. AnswersAmong (types_of arena.now) (funcs_of arena.now)
        types.now (instance_item exports.now) spaces.old r spaces.new) }
    ensures kept { OnErr result (Stays spaces.old spaces.new) }
{
    least_of_both();
    names_are_sketched();
    let mut sketches = Vec::new(alloc);
    let broken = examine(&mut sketches, spaces, arena, types, exports)?;
    let fault = lesser(broken, item_names_fault(alloc, &sketches)?);
    if fault.is_some() {
        return Ok(fault);
    }
    match gather(alloc, spaces, types, exports)? {
        None => Ok(Some(ValidReason::DuplicateName)),
        Some(members) => {
            spaces.push_members(alloc, members)?;
            Ok(None)
        }
    }
}
