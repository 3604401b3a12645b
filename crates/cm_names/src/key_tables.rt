//! The table of the first of each key.

ghost use Rattle.std.specs.Prelude.{◌≡◌, IfOk, OnOk, map};
ghost use Rattle.cm_names.specs.Keys.{key_view};
ghost use Rattle.cm_names.specs.KeyTables.{IsTableOf, Notes, NotesName, look_up};

use std::alloc::{AllocError, Global};
use std::collections::BTreeMap;

/// The places of names, under the numbers of their lists.
pub type KeyTable<'a> = BTreeMap<usize, BTreeMap<&'a str, usize>>;

/// The place that stands for a number and a name, from 0, if one does.
pub fn look_up(table: &KeyTable<'_>, number: usize, name: &str) -> Option<usize>
    ensures { result ≡ look_up table.now number name.now }
{
    table.get(&number)?.get(name).copied()
}

/// Puts the place of a name among names, where none stands for it yet.
fn note_name<'a>(
    names: &mut BTreeMap<&'a str, usize>,
    name: &'a str,
    place: usize,
) -> Result<(), AllocError>
    ensures { OnOk result (NotesName name.now place names.old names.new) }
{
    if names.get(name).is_none() {
        names.insert(name, place)?;
    }
    Ok(())
}

/// Puts the place of a key, a number and a name, into a table, where none stands for it yet.
/// `AllocError` comes where there is no memory, and the table is to be dropped then.
pub fn note<'a>(
    alloc: Global,
    table: &mut KeyTable<'a>,
    key: (usize, &'a str),
    place: usize,
) -> Result<(), AllocError>
    ensures { OnOk result (Notes (key_view key.entry) place table.old table.new) }
{
    let (number, name) = key;
    if let Some(names) = table.get_mut(&number) {
        return note_name(names, name, place);
    }
    let mut names = BTreeMap::new(alloc);
    names.insert(name, place)?;
    table.insert(number, names)?;
    Ok(())
}

/// The place of the first of each key.
#[tactic(auto, using(crate::proofs::KeyLaws::table_laws))]
pub fn key_table<'a>(alloc: Global, keys: &[(usize, &'a str)]) -> Result<KeyTable<'a>, AllocError>
    ensures { IfOk result (λ table. IsTableOf (map key_view keys.now) table) }
{
    let mut table = BTreeMap::new(alloc);
    for (place, key) in keys.iter().enumerate() {
        note(alloc, &mut table, *key, place)?;
    }
    Ok(table)
}
