//! What copying means, as laws: each function here does nothing, and its contract is the law.

ghost use Rattle.std.specs.Prelude.{◌^◌, ◌<◌, List, slice_index, ℕ};
ghost use Rattle.cm_types.specs.declared.core_value.CoreKind.{CoreKind};
ghost use Rattle.cm_types.specs.Types.{Fields};
ghost use Rattle.cm_types.specs.Values.{Val};
ghost use Rattle.cm_abi_model.specs.Views.{View};
ghost use Rattle.cm_abi_model.specs.Ways.{way_of};
ghost use Rattle.cm_abi_model.specs.Scanned.{Scanned};
ghost use Rattle.cm_abi_copy.specs.Copies.{FoundCanBeCopied};
ghost use Rattle.cm_abi_copy.specs.Settled.{IsSettled};
ghost use Rattle.cm_abi_copy.specs.declared.found.Found.{Found};

use cm_abi_requests::laws::{answers_place_parts, what_is_denoted_can_be_lowered};
use cm_abi_requests::requesting_laws::{
    all_answers_place_parts, records_ask_for_parts, regions_of_records_are_those_of_parts,
};

/// What can be copied from a memory of bytes is settled before any of it is: the value has its
/// types, and its parts have their places, apart exactly where the regions of the answers are.
pub(crate) fn what_can_be_copied_is_settled()
    ensures { (n : ℕ) (kinds : List CoreKind) (giver : View) (f : Found) (s : Scanned)
        (answers : List ℕ) (types : Fields) (v : Val)
        → ((i : ℕ) → slice_index f.memory.now i < 2 ^ 8)
        → FoundCanBeCopied n kinds giver f s answers types v
        → IsSettled n (way_of f.passed.way) s.parts answers types v }
{
    what_is_denoted_can_be_lowered();
    answers_place_parts();
    all_answers_place_parts();
    records_ask_for_parts();
    regions_of_records_are_those_of_parts();
}
