//! The numbers of nodes.

ghost use Rattle.std.specs.Prelude.{◌≡◌, IfOk, Some};
ghost use Rattle.std.specs.BTreeMap.{get, btree_map_len, IsEmpty};
ghost use Rattle.cm_types_numbers.specs.Tables.{key_order, IsOneToOne, KeepsNumbers};

use crate::key::Key;
use std::alloc::{AllocError, Global};
use std::collections::BTreeMap;

/// The nodes that have a number, each its own, from 0 on.
#[derive(Drop)]
pub(crate) struct NodeNumbers {
    numbers: BTreeMap<Key, usize>,
    ghost one_to_one: { IsOneToOne (get key_order numbers) (btree_map_len numbers) },
}

impl NodeNumbers {
    pub(crate) fn new(alloc: Global) -> NodeNumbers
        ensures { IsEmpty result.numbers }
    {
        NodeNumbers {
            numbers: BTreeMap::new(alloc),
        }
    }

    /// The number of a node: the one that it has, else the next.
    pub(crate) fn number(&mut self, key: Key) -> Result<usize, AllocError>
        ensures number { IfOk result (λ n. get key_order self.new.numbers key ≡ Some n) }
        ensures kept { KeepsNumbers
            (get key_order self.old.numbers) (get key_order self.new.numbers) }
    {
        if let Some(number) = self.numbers.get(&key) {
            return Ok(*number);
        }
        let next = self.numbers.len();
        self.numbers.insert(key, next)?;
        Ok(next)
    }
}
