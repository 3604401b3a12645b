//! What is known by which name.

ghost use Rattle.std.specs.Prelude.{◌≡◌, IfOk, OnOk, map};
ghost use Rattle.std.specs.Option.{option_map};
ghost use Rattle.cm_wit_names.specs.MentionViews.{mention_view};
ghost use Rattle.cm_wit_names.specs.Table.{IsTableOf, Notes};

use crate::Mention;
use crate::first_keys::FirstKeys;
use cm_types::Label;
use std::alloc::{AllocError, Global};

/// Puts the number and the name by which a mention is known into a table, where they do not stand
/// there yet.
#[tactic(auto, using(crate::proofs::TableLaws::notes_nothing))]
fn note_known(
    table: &mut FirstKeys,
    known: Option<(usize, &Label)>,
    index: usize,
) -> Result<(), AllocError>
    ensures { OnOk result (Notes (option_map (λ k. (k.0, k.1.now)) known.entry) index
        table.old table.new) }
{
    match known {
        Some((number, name)) => {
            table.note(number, name.as_str(), index)?;
            Ok(())
        }
        None => Ok(()),
    }
}

/// For each number and name the mention that makes a type or an interface known by them first.
#[tactic(auto, using(crate::proofs::TableLaws::table_laws))]
pub fn known_names(alloc: Global, mentions: &[Mention<'_>]) -> Result<FirstKeys, AllocError>
    ensures { IfOk result (λ table. IsTableOf (map mention_view mentions.now) table) }
{
    let mut table = FirstKeys::new(alloc);
    for (index, mention) in mentions.iter().enumerate() {
        note_known(&mut table, mention.known, index)?;
    }
    Ok(table)
}
