//! Lists with commas.

ghost use Rattle.std.specs.Prelude.{◌++◌, codes, map};
ghost use Rattle.cm_tool_show.specs.Pieces.{chars};
ghost use Rattle.cm_tool_show.specs.Lists.{comma_before, with_commas};
ghost use Rattle.cm_tool_show.specs.ShownTypes.{between, label_pieces};
ghost use Rattle.cm_tool_show.specs.Written.{Shows};

use crate::putting::put;
use crate::{Page, ShowFault};
use cm_types::Label;

/// Adds what stands before a member of a list, from 0: nothing before the first, and a comma
/// before each other one.
pub(crate) fn separate(page: &mut Page, index: usize) -> Result<(), ShowFault>
    ensures { Shows (comma_before index) page.old page.new result }
{
    if index == 0 {
        return Ok(());
    }
    put(page, ", ")
}

/// Adds a label of a list.
fn show_label(page: &mut Page, index: usize, label: &Label) -> Result<(), ShowFault>
    ensures { Shows (comma_before index ++ label_pieces label.now) page.old page.new result }
{
    separate(page, index)?;
    put(page, label.as_str())
}

/// Adds labels between braces.
pub(crate) fn show_labels(page: &mut Page, word: &str, labels: &[Label]) -> Result<(), ShowFault>
    ensures { Shows (between word.now (codes "}") (with_commas (map label_pieces labels.now)))
        page.old page.new result }
{
    put(page, word)?;
    show_label_list(page, labels)?;
    put(page, "}")
}

/// Adds labels.
fn show_label_list(page: &mut Page, labels: &[Label]) -> Result<(), ShowFault>
    ensures { Shows (with_commas (map label_pieces labels.now)) page.old page.new result }
{
    for (index, label) in labels.iter().enumerate() {
        show_label(page, index, label)?;
    }
    Ok(())
}
