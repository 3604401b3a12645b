//! Why the type of a lift, or of a lower, is refused with the options that are there.

ghost use Rattle.std.specs.Prelude.{◌≡◌, ◌||◌};
ghost use Rattle.cm_types.specs.Types.{FuncTy};
ghost use Rattle.cm_validate_model.specs.Options.{latin1_broken, lift_type_broken};
ghost use Rattle.cm_validate_model.specs.Options.{lower_type_broken};
ghost use Rattle.cm_validate_model.specs.Options.{memory_use_broken, needs_memory, realloc_broken};
ghost use Rattle.cm_validate_model.specs.Reasons.{least};
ghost use Rattle.cm_validate_canons.specs.Types.{Passes};

use crate::options::{have_latin1, have_memory, have_realloc};
use crate::{FuncPassing, Passed};
use cm_binary_model::CanonOption;
use cm_validate_core::{broken_unless, lesser};
use cm_validate_model::ValidReason;
use cm_validate_model::laws::least_of_both;

/// Whether what is passed stands in memory, or its contents do.
fn stands_in_memory(passed: Passed) -> bool
    ensures { result ≡ passed.holds_pointer || passed.is_spilled }
{
    passed.holds_pointer || passed.is_spilled
}

fn needs_memory(passing: FuncPassing) -> bool
    ensures { (f : FuncTy) → Passes passing f → result ≡ needs_memory f }
{
    stands_in_memory(passing.params) || stands_in_memory(passing.result)
}

fn memory_use_fault(passing: FuncPassing, options: &[CanonOption]) -> Option<ValidReason>
    ensures { (f : FuncTy) → Passes passing f → result ≡ least (memory_use_broken f options.now) }
{
    let uses_memory = needs_memory(passing) || have_realloc(options);
    broken_unless(
        have_memory(options) || !uses_memory,
        ValidReason::NeedsMemory,
    )
}

fn realloc_fault(needed: bool, options: &[CanonOption]) -> Option<ValidReason>
    ensures { result ≡ least (realloc_broken needed options.now) }
{
    broken_unless(have_realloc(options) || !needed, ValidReason::NeedsRealloc)
}

fn latin1_fault(stores: bool, options: &[CanonOption]) -> Option<ValidReason>
    ensures { result ≡ least (latin1_broken stores options.now) }
{
    broken_unless(!(stores && have_latin1(options)), ValidReason::StoresLatin1)
}

/// Why the type of a lift is refused, by what a function of the type passes.
pub(crate) fn lift_type_fault(passing: FuncPassing, options: &[CanonOption]) -> Option<ValidReason>
    ensures { (f : FuncTy) → Passes passing f → result ≡ least (lift_type_broken options.now f) }
{
    least_of_both();
    let memory = memory_use_fault(passing, options);
    let realloc = realloc_fault(stands_in_memory(passing.params), options);
    lesser(
        lesser(memory, realloc),
        latin1_fault(passing.params.holds_string, options),
    )
}

/// Why the type of a lower is refused, by what a function of the type passes.
pub(crate) fn lower_type_fault(passing: FuncPassing, options: &[CanonOption]) -> Option<ValidReason>
    ensures { (f : FuncTy) → Passes passing f → result ≡ least (lower_type_broken options.now f) }
{
    least_of_both();
    let memory = memory_use_fault(passing, options);
    let realloc = realloc_fault(passing.result.holds_pointer, options);
    lesser(
        lesser(memory, realloc),
        latin1_fault(passing.result.holds_string, options),
    )
}
