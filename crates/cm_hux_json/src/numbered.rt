//! The types of a signature by their numbers.

use crate::met::Met;
use crate::types::made_object;
use cm_hux_show::{Key, Used, primitive_word};
use cm_types::TypeNode;
use cm_types_arena::{Signature, Types};
use serde_json::{ToValue, Value};
use std::alloc::{AllocError, Global};
use std::collections::BTreeMap;

/// The types that a signature names, by their numbers, from 0: equal ones have one number, and each
/// has a greater one than those that it holds. Those that have a word, as `u32`, have no number.
#[derive(Drop)]
pub(crate) struct Numbered<'t> {
    pub(crate) alloc: Global,
    pub(crate) types: &'t Types,
    lasts: Vec<Option<u64>>,
    numbers: BTreeMap<Key, usize>,
    /// The number of each type, by the line that tells what it is made of.
    made: BTreeMap<String, usize>,
    pub(crate) order: Vec<Used>,
}

impl<'t> Numbered<'t> {
    /// Those of a signature.
    pub(crate) fn of(alloc: Global, signature: &'t Signature) -> Result<Numbered<'t>, AllocError> {
        let Met { lasts, used, .. } = Met::of(alloc, signature)?;
        let mut numbered = Numbered {
            alloc,
            types: signature.types(),
            lasts,
            numbers: BTreeMap::new(alloc),
            made: BTreeMap::new(alloc),
            order: Vec::new(alloc),
        };
        for each in used.values() {
            numbered.add(*each)?;
        }
        Ok(numbered)
    }

    /// Gives a type its number, behind those that it holds.
    fn add(&mut self, used: Used) -> Result<(), AllocError> {
        if self.word(used).is_some() {
            return Ok(());
        }
        let line = made_object(self, used)?.line()?;
        let known = self.made.get(&line).copied();
        let number = match known {
            Some(number) => number,
            None => self.add_new(line, used)?,
        };
        self.numbers.insert(used.key(&self.lasts), number)?;
        Ok(())
    }

    /// The number of a type that is equal to none before, by the line of what it is made of.
    fn add_new(&mut self, line: String, used: Used) -> Result<usize, AllocError> {
        let number = self.order.len();
        self.order.push(used)?;
        self.made.insert(line, number)?;
        Ok(number)
    }

    /// The node of a type, if there is one.
    pub(crate) fn node(&self, used: Used) -> Option<&'t TypeNode> {
        let types = self.types;
        if used.place < types.len() {
            Some(types.node(used.place))
        } else {
            None
        }
    }

    /// The types that a type holds, in order.
    pub(crate) fn parts(&self, used: Used) -> Result<Vec<Used>, AllocError> {
        let types = self.types;
        if used.place >= types.len() {
            return Ok(Vec::new(self.alloc));
        }
        self.used_at(used, types.parts(used.place))
    }

    /// The types at these places, counted as one is.
    pub(crate) fn used_at(&self, used: Used, places: &[usize]) -> Result<Vec<Used>, AllocError> {
        let mut list = Vec::with_capacity(self.alloc, places.len())?;
        for place in places {
            list.push(used.at(*place))?;
        }
        Ok(list)
    }

    fn word(&self, used: Used) -> Option<&'static str> {
        primitive_word(self.node(used)?)
    }

    /// A type where it is used: its word, or its number; `null` where there is none.
    pub(crate) fn value(&self, used: Option<Used>) -> Result<Value, AllocError> {
        let Some(used) = used else {
            return Ok(Value::Null);
        };
        if let Some(word) = self.word(used) {
            return word.to_value(self.alloc);
        }
        match self.numbers.get(&used.key(&self.lasts)) {
            Some(number) => (*number).to_value(self.alloc),
            None => Ok(Value::Null),
        }
    }
}
