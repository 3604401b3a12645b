//! The lines of all core functions.

ghost use Rattle.std.specs.Prelude.{◌≤◌, IfOk, length};
ghost use Rattle.std.specs.String.{string_bytes};
ghost use Rattle.cm_tool_show.specs.declared.page.TheConstants.{MAX_SHOWN};

use crate::core_rows::core_row;
use crate::other_names::OtherNames;
use cm_tool_show::{Page, ShowFault};
use cm_types_arena::Signature;
use cm_validate_functions::Functions;
use std::alloc::Global;

/// A line for each core function of a component with this signature, in order (`CoreRow`), and
/// behind it the further names under which it is lifted.
///
/// `TooLong` comes where the text has more than `MAX_SHOWN` bytes, and `Memory` where there is no
/// memory. Each function costs its line and the nodes of its type.
pub fn core_text(
    alloc: Global,
    functions: &Functions<'_, '_>,
    signature: &Signature,
) -> Result<String, ShowFault>
    ensures short { IfOk result (λ text. length (string_bytes text) ≤ MAX_SHOWN) }
{
    let names = OtherNames::of(alloc, functions, signature)?;
    let mut page = Page::new(alloc);
    for index in 0..functions.count() {
        let row = core_row(alloc, functions, index)?;
        let line = format!(in alloc; "{row}{}\n", names.of_func(index))?;
        page.put(line.as_str())?;
    }
    page.finish()
}
