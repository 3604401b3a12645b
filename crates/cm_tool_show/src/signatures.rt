//! Signatures.

ghost use Rattle.std.specs.Prelude.{◌≡◌, ◌≤◌, ◌<◌, IfOk, IsErrOf, length};
ghost use Rattle.std.specs.String.{string_bytes};
ghost use Rattle.cm_types_arena.specs.Signatures.{signature_of};
ghost use Rattle.cm_tool_show.specs.Shown.{shown};
ghost use Rattle.cm_tool_show.specs.declared.fault.ShowFault.TheVariants as fault;
ghost use Rattle.cm_tool_show.specs.declared.page.TheConstants.{MAX_SHOWN};

use crate::items::show_externs;
use crate::laws::pieces_join;
use crate::{Page, ShowFault};
use cm_types_arena::Signature;
use std::alloc::Global;

/// The text that shows a signature: a line for each import and then for each export, in order, and
/// behind that of an instance one for each of its items, which two blanks begin. A function has its
/// parameters and its result, a type what it is: types are written as in WIT, with what they hold
/// in place (WIT.md, "Types"). Resources are numbered from 0 in the order of their first
/// appearance. The form of the text is this project's own choice.
///
/// What several items hold is written for each of them, so the text may be much longer than what it
/// is of. `TooLong` comes where it has more than `MAX_SHOWN` bytes, as soon as so many are written;
/// `Memory` where there is no memory. It costs time and memory linear in the bytes that are
/// written, with a search for each handle.
#[tactic(auto, using(crate::proofs::LineLaws::page_laws))]
pub fn show(alloc: Global, signature: &Signature) -> Result<String, ShowFault>
    ensures text { IfOk result
        (λ text. string_bytes text ≡ shown (signature_of signature.now)) }
    ensures short { IfOk result (λ text. length (string_bytes text) ≤ MAX_SHOWN) }
    ensures too_long { IsErrOf result fault.TooLong
        → MAX_SHOWN < length (shown (signature_of signature.now)) }
{
    pieces_join();
    let mut page = Page::new(alloc);
    show_externs(&mut page, signature.types(), "import ", signature.imports())?;
    show_externs(&mut page, signature.types(), "export ", signature.exports())?;
    page.finish()
}
