//! Keys: a name, in a list of names that has a number.

ghost use Rattle.std.specs.Prelude.{map};
ghost use Rattle.cm_names.specs.Keys.{key_view};
ghost use Rattle.cm_names.specs.KeyTables.{IsTableOf};

use crate::key_tables::{KeyTable, key_table, look_up};
use std::alloc::{AllocError, Global};

/// Keys, each a number and a name, with a table of the first of each. A key is found in trees, so
/// that no choice of names makes it slower than the logarithm of their number, with the time that
/// it takes to compare two names.
#[derive(Drop)]
pub struct Keys<'a> {
    keys: Vec<(usize, &'a str)>,
    table: KeyTable<'a>,
    ghost is_table: { IsTableOf (map key_view keys.items) table },
}

impl<'a> Keys<'a> {
    ghost use Rattle.std.specs.Prelude.{◌≡◌, IfOk};
    ghost use Rattle.cm_names.specs.Keys.{first_key};
    ghost use Rattle.cm_names.specs.Listed.{listed};

    /// These keys. Refused only where there is no memory.
    pub fn new(alloc: Global, keys: Vec<(usize, &'a str)>) -> Result<Keys<'a>, AllocError>
        ensures { IfOk result (λ k. listed k ≡ map key_view keys.entry.items) }
    {
        let table = key_table(alloc, &keys)?;
        Ok(Keys { keys, table })
    }

    /// The place of the first key that is this number and name, from 0, if there is one.
    pub fn find(&self, number: usize, name: &str) -> Option<usize>
        ensures { result ≡ first_key (listed self.now) number name.now }
    {
        look_up(&self.table, number, name)
    }
}
