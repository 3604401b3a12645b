//! Showing what a component imports and exports.

ghost use Rattle.std.specs.Prelude.{◌≡◌, ◌≤◌, ◌<◌, IfOk, IsErrOf, length};
ghost use Rattle.std.specs.String.{string_bytes};
ghost use Rattle.cm_validate.specs.cm_validate_spaces.Checked.{spaces_in};
ghost use Rattle.cm_validate.specs.Exports.{signature_in};
ghost use Rattle.cm_tool_show.specs.Shown.{shown};
ghost use Rattle.cm_tool_show.specs.declared.fault.ShowFault.TheVariants as fault;
ghost use Rattle.cm_tool_show.specs.declared.page.TheConstants.{MAX_SHOWN};

use cm_tool_help_texts::Escaped;
use cm_tool_show::{ShowFault, show};
use cm_validate::{Checked, signature};
use std::alloc::Global;
use std::fmt;

/// The text that shows what a component imports and exports, a line for each, in the order of its
/// file (`cm_tool_show::show`). The component is taken over.
///
/// `TooLong` comes where it has more than `MAX_SHOWN` bytes, and `Memory` where there is no memory.
pub fn show_component(alloc: Global, component: Checked<'_>) -> Result<String, ShowFault>
    ensures text { IfOk result
        (λ text. string_bytes text ≡ shown (signature_in (spaces_in component.entry))) }
    ensures short { IfOk result (λ text. length (string_bytes text) ≤ MAX_SHOWN) }
    ensures too_long { IsErrOf result fault.TooLong
        → MAX_SHOWN < length (shown (signature_in (spaces_in component.entry))) }
{
    let signature = signature(alloc, component)?;
    show(alloc, &signature)
}

/// Writes why the component of a file is not shown.
pub fn write_show_fault<W: fmt::Write>(
    f: &mut fmt::Formatter<W>,
    name: &str,
    fault: ShowFault,
) -> fmt::Result {
    let reason_name = match fault {
        ShowFault::TooLong => "TooLong",
        ShowFault::Memory => "Memory",
    };
    write!(f, "{}: {reason_name}: {fault}", Escaped(name))
}
