//! What a component imports and exports.

ghost use Rattle.std.specs.Prelude.{◌≡◌, IfErr, IfOk};
ghost use Rattle.std.specs.String.{string_bytes};
ghost use Rattle.cm_tool_show.specs.Shown.{shown};
ghost use Rattle.cm_validate.specs.Exports.{signature_in};
ghost use Rattle.cm_validate_spaces.specs.Checked.{spaces_in};
ghost use Rattle.huxarte_c_components.specs.Showing.{IsShowRefusal, IsShown, IsShownVerdict};
ghost use Rattle.huxarte_c_components.specs.Showing.{IsUnshown, of_show};
ghost use Rattle.huxarte_c_components.specs.declared.showing.ShowRefusal.TheVariants as refusal;

use crate::checking::files_verdict;
use crate::sound::{check_one, read_one};
use cm_shims::FilesFault;
use cm_tool_files::{Checked, show_component};
use cm_tool_show::ShowFault;
use huxarte_c_calls::{HuxKind, HuxVerdict, write_shown, write_text};
use std::alloc::Global;
use std::fmt;

/// Why the component of a file is not shown.
#[derive(Clone, Copy)]
pub enum ShowRefusal {
    /// The file stands for no valid component, or not for what its shims say.
    Files(FilesFault),
    /// The text is too long, or there is no memory for it.
    Show(ShowFault),
}

impl ShowRefusal {
    /// The refusal in numbers.
    fn verdict(self) -> HuxVerdict
        ensures { result ≡ of_show self }
    {
        match self {
            ShowRefusal::Files(fault) => files_verdict(fault),
            ShowRefusal::Show(fault) => {
                HuxVerdict::at_item(HuxKind::Show, fault.number(), 0, 0, 0)
            }
        }
    }
}

impl From<FilesFault> for ShowRefusal {
    ghost from_gives = { λ e r. r ≡ refusal.Files e };

    fn from(fault: FilesFault) -> ShowRefusal {
        ShowRefusal::Files(fault)
    }
}

impl fmt::Display for ShowRefusal {
    fn fmt<W: fmt::Write>(&self, f: &mut fmt::Formatter<W>) -> fmt::Result {
        match self {
            ShowRefusal::Files(fault) => write!(f, "{fault}"),
            ShowRefusal::Show(fault) => write!(f, "{fault}"),
        }
    }
}

/// The text that shows what a component imports and exports.
fn shown_one(alloc: Global, component: Checked<'_>) -> Result<String, ShowRefusal>
    ensures shown { IfOk result (λ text.
        string_bytes text ≡ shown (signature_in (spaces_in component.entry))) }
    ensures refused { IfErr result (IsUnshown (signature_in (spaces_in component.entry))) }
{
    match show_component(alloc, component) {
        Ok(text) => Ok(text),
        Err(fault) => Err(ShowRefusal::Show(fault)),
    }
}

/// The text that shows what the component of a file imports and exports.
fn shown_of(alloc: Global, bytes: &[u8]) -> Result<String, ShowRefusal>
    ensures shown { IfOk result (λ text. IsShown bytes.now (string_bytes text)) }
    ensures refused { IfErr result (IsShowRefusal bytes.now) }
{
    let files = read_one(alloc, bytes)?;
    match check_one(alloc, &files) {
        Ok(component) => shown_one(alloc, component),
        Err(fault) => Err(ShowRefusal::Files(fault)),
    }
}

/// Shows what the component of a file imports and exports, a line for each, in the order of its
/// file: the text that `component_tool show` prints of a file without shims.
///
/// The answer is `Fine`, and `text` has that text; else the first fault, which `text` shows. As
/// many bytes of the text as there is room for are written, and `wanted` says how many it has.
pub fn show(alloc: Global, bytes: &[u8], text: &mut [u8], wanted: &mut usize) -> HuxVerdict
    ensures { IsShownVerdict bytes.now result text.old wanted.new text.new }
{
    match shown_of(alloc, bytes) {
        Ok(shown) => {
            *wanted = write_text(text, shown.as_bytes());
            HuxVerdict::fine()
        }
        Err(refusal) => {
            *wanted = write_shown(alloc, text, &refusal);
            refusal.verdict()
        }
    }
}
