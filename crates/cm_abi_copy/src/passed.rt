//! What a call passes.

ghost use Rattle.std.specs.Prelude.{◌≡◌, IfSome};
ghost use Rattle.cm_types.specs.Types.{Ty};
ghost use Rattle.cm_layout.specs.Layouts.{layout_of};
ghost use Rattle.cm_layout.specs.Shapes.{layout_at};
ghost use Rattle.cm_abi_model.specs.Views.{flat_limit};
ghost use Rattle.cm_abi_model.specs.Ways.{way_of};
ghost use Rattle.cm_abi_load.specs.Outcomes.{state_of};
ghost use Rattle.cm_abi_load.specs.Reading.{source_of};
ghost use Rattle.cm_abi_lift.specs.FlatReading.{read_passed};
ghost use Rattle.cm_abi_programs.specs.Checks.{passed_checks_of};
ghost use Rattle.cm_abi_programs.specs.Coded.{checks_in};
ghost use Rattle.cm_abi_lift.specs.Records.{Scans, ScansToKeep};
ghost use Rattle.cm_abi_lift.specs.FlatRecords.{passed_records};

use cm_abi_lift::{Passed, Recorder, make_passed};
use cm_abi_load::{Giver, Progress, Reader, Stop};
use cm_abi_model::{PartRecord, StringEncoding};
use cm_abi_programs::Check;
use cm_abi_running::laws::running_checks_is_lifting_flat;
use cm_abi_running::look_at_passed;

/// Scans the tuple of the values that are passed, for strings to be stored in an encoding: by the
/// checks of what passes it, where there are some, else by its layout.
#[inline(always)]
pub(crate) fn scan_passed(
    giver: &Giver<'_>,
    target: StringEncoding,
    passed: &Passed<'_>,
    checks: Option<&[Check]>,
    progress: &mut Progress,
    records: &mut Vec<PartRecord>,
) -> Result<(), Stop>
    requires layout { (t : Ty) × (layout_of passed.now.layout.now ≡ layout_at t) }
    requires checks { IfSome checks (λ cs. checks_in cs.now ≡ passed_checks_of
        (flat_limit (way_of passed.now.way)) (layout_of passed.now.layout.now)) }
    ensures reads { Scans
        (passed_records (source_of giver.now) target
        (flat_limit (way_of passed.now.way)) (layout_of passed.now.layout.now) passed.now.slots.now)
        (read_passed (source_of giver.now) (flat_limit (way_of passed.now.way))
        (layout_of passed.now.layout.now) passed.now.slots.now)
        records.old.items records.new.items (state_of progress.old) (state_of progress.new)
        result }
    ensures keeps { ScansToKeep
        (passed_records (source_of giver.now) target
        (flat_limit (way_of passed.now.way)) (layout_of passed.now.layout.now) passed.now.slots.now)
        (read_passed (source_of giver.now) (flat_limit (way_of passed.now.way))
        (layout_of passed.now.layout.now) passed.now.slots.now)
        records.old.items (state_of progress.old) result }
{
    let reader = Reader {
        giver: *giver,
        maker: Recorder { target },
    };
    match checks {
        Some(checks) => scan_by_checks(&reader, passed, checks, progress, records),
        None => make_passed(&reader, passed, progress, records),
    }
}

/// Scans the tuple of the values that are passed by the checks of what passes it.
#[inline(always)]
fn scan_by_checks(
    reader: &Reader<'_, Recorder>,
    passed: &Passed<'_>,
    checks: &[Check],
    progress: &mut Progress,
    records: &mut Vec<PartRecord>,
) -> Result<(), Stop>
    requires layout { (t : Ty) × (layout_of passed.now.layout.now ≡ layout_at t) }
    requires checks { checks_in checks.now ≡ passed_checks_of
        (flat_limit (way_of passed.now.way)) (layout_of passed.now.layout.now) }
    ensures reads { Scans
        (passed_records (source_of reader.now.giver) reader.now.maker.target
        (flat_limit (way_of passed.now.way)) (layout_of passed.now.layout.now) passed.now.slots.now)
        (read_passed (source_of reader.now.giver) (flat_limit (way_of passed.now.way))
        (layout_of passed.now.layout.now) passed.now.slots.now)
        records.old.items records.new.items (state_of progress.old) (state_of progress.new)
        result }
    ensures keeps { ScansToKeep
        (passed_records (source_of reader.now.giver) reader.now.maker.target
        (flat_limit (way_of passed.now.way)) (layout_of passed.now.layout.now) passed.now.slots.now)
        (read_passed (source_of reader.now.giver) (flat_limit (way_of passed.now.way))
        (layout_of passed.now.layout.now) passed.now.slots.now)
        records.old.items (state_of progress.old) result }
{
    running_checks_is_lifting_flat();
    look_at_passed(reader, passed, checks, progress, records)
}
