//! Single mentions.

ghost use Rattle.std.specs.Prelude.{◌≡◌, OnOk};
ghost use Rattle.std.specs.Option.{option_map};
ghost use Rattle.cm_wit_names.specs.FileMentions.{label};
ghost use Rattle.cm_wit_names.specs.Marks.{one};
ghost use Rattle.cm_wit_names.specs.Mentions.{bare, declaring};
ghost use Rattle.cm_wit_names.specs.MentionViews.{Adds, full_name, mention_view};

use crate::mention::{FullName, ListedName, Mention, Reference};
use cm_types::Label;
use std::alloc::AllocError;

/// A name to which no rule applies.
pub fn bare<'a>() -> Mention<'a>
    ensures { mention_view result ≡ bare }
{
    Mention {
        declares: None,
        known: None,
        refers: Reference::Nothing,
        owner: None,
        in_result: false,
        may_be_resource: false,
    }
}

/// A name in a list of distinct names.
pub fn declaring<'a>(in_list: usize, name: FullName<'a>) -> Mention<'a>
    ensures { mention_view result ≡ declaring in_list (full_name name.entry) }
{
    let declares = Some(ListedName {
        in_list,
        name,
        is_own: false,
        after_self: false,
    });
    Mention { declares, ..bare() }
}

/// Adds a mention.
pub fn add<'a>(out: &mut Vec<Mention<'a>>, mention: Mention<'a>) -> Result<(), AllocError>
    ensures { OnOk result (Adds (one (mention_view mention.entry)) out.old out.new) }
{
    out.push(mention)?;
    Ok(())
}

/// Adds a label, behind an implied `self` or not.
pub fn add_label<'a>(
    out: &mut Vec<Mention<'a>>,
    in_list: usize,
    after_self: bool,
    name: &'a Label,
) -> Result<(), AllocError>
    ensures { OnOk result (Adds (one (label after_self in_list name.now)) out.old out.new) }
{
    let declares = Some(ListedName {
        in_list,
        name: FullName::Label(name),
        is_own: false,
        after_self,
    });
    add(out, Mention { declares, ..bare() })
}
