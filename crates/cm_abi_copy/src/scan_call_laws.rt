//! What the records of a call are, as laws: each function here does nothing, and its contract is
//! the law.

ghost use Rattle.std.specs.Prelude.{◌≡◌, [], List};
ghost use Rattle.cm_types.specs.declared.core_value.CoreValue.{CoreValue};
ghost use Rattle.cm_types.specs.Types.{Fields};
ghost use Rattle.cm_types.specs.Values.{Val};
ghost use Rattle.cm_layout.specs.Shapes.{layout_of_fields_at};
ghost use Rattle.cm_abi_model.specs.declared.encoding.StringEncoding.{StringEncoding};
ghost use Rattle.cm_abi_model.specs.declared.encoding.StringEncoding.TheVariants.{Latin1OrUtf16};
ghost use Rattle.cm_abi_model.specs.Denotes.{Denotes};
ghost use Rattle.cm_abi_model.specs.Receives.{leaves_in};
ghost use Rattle.cm_abi_model.specs.Requests.{call_parts, tuple_of};
ghost use Rattle.cm_abi_model.specs.Taken.{Transferable, met};
ghost use Rattle.cm_abi_model.specs.Taken as taken;
ghost use Rattle.cm_abi_model.specs.Views.{View, Way, flat_limit};
ghost use Rattle.cm_abi_load.specs.Reading.{seen_by};
ghost use Rattle.cm_abi_model.specs.Telling.{TellAll};
ghost use Rattle.cm_abi_model.specs.CallPlaces.{call_places};
ghost use Rattle.cm_abi_lift.specs.FlatRecords.{passed_records};
ghost use Rattle.cm_abi_model.specs.RecordRequests.{tags_of};
ghost use Rattle.cm_abi_copy.specs.Scans.{KeepsNothing};

use crate::met_laws::handles_that_are_met_are_the_values;
use cm_abi_lift::laws::{lifting_is_exact, what_is_passed_is_met};
use cm_abi_lift::scan_laws::{parts_that_are_shown_are_told, records_tell_parts};
use cm_abi_load::laws::numbers_are_sized;

/// The records of what core values denote tell its parts, one for one and in order, each at its
/// place: where the values are behind a pointer their tuple first, then their strings and lists.
/// Where the length of a string says by a tag what it is in, its record has that tag.
pub fn records_tell_what_is_passed()
    ensures tells { (w : View) (target : StringEncoding) (way : Way) (types : Fields)
        (slots : List CoreValue) (v : Val) → Denotes w way types slots v
        → TellAll w target
        (passed_records (seen_by w) target (flat_limit way) (layout_of_fields_at types) slots v)
        (call_parts way types v) (call_places w way types slots v) }
    ensures tags { (w : View) (target : StringEncoding) (way : Way) (types : Fields)
        (slots : List CoreValue) (v : Val) → w.encoding ≡ Latin1OrUtf16
        → Denotes w way types slots v → tags_of
        (passed_records (seen_by w) target (flat_limit way) (layout_of_fields_at types) slots v)
        ≡ taken.tags_of (met w way types slots v) }
{
    numbers_are_sized();
    records_tell_parts();
    parts_that_are_shown_are_told();
}

/// Of values that core values denote, that can be handed over and that have no part and no handle,
/// a scan keeps nothing. So it is never refused for want of memory.
pub fn what_has_nothing_keeps_nothing()
    ensures { (w : View) (target : StringEncoding) (way : Way) (types : Fields)
        (slots : List CoreValue) (v : Val) → Denotes w way types slots v
        → Transferable w way types slots v → call_parts way types v ≡ []
        → leaves_in (tuple_of types) v ≡ []
        → KeepsNothing (seen_by w) target (flat_limit way) (layout_of_fields_at types) slots }
{
    lifting_is_exact();
    what_is_passed_is_met();
    handles_that_are_met_are_the_values();
    records_tell_what_is_passed();
}
