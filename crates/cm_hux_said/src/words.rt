//! Values and names as texts of a bounded length.

use cm_hux_values::{Naming, cut, front_of, say};
use cm_types::{TypeNode, Value};
use std::alloc::{AllocError, Global};

/// The most bytes of the values of a message, and of its name: this project's own choice.
pub const MAX_WORDS: usize = 1000;

/// How much of a name is looked at: it is cut where it has all of this.
const LOOKED_AT: usize = MAX_WORDS + 1;

/// Values as texts.
#[derive(Drop)]
pub(crate) struct Words {
    pub(crate) values: Vec<String>,
    room: usize,
    pub(crate) is_cut: bool,
}

impl Words {
    pub(crate) fn new(alloc: Global) -> Words {
        Words {
            values: Vec::new(alloc),
            room: MAX_WORDS,
            is_cut: false,
        }
    }

    /// Puts one more value, where none was cut.
    pub(crate) fn put(
        &mut self,
        alloc: Global,
        value: &Value,
        ty: &TypeNode,
        names: Naming<'_>,
    ) -> Result<(), AllocError> {
        if self.is_cut {
            return Ok(());
        }
        let said = say(alloc, value, ty, names, self.room)?;
        self.room = self.room.saturating_sub(said.text.len());
        self.is_cut = said.is_cut;
        self.values.push(said.text)?;
        Ok(())
    }
}

/// The front of a name, of which a cut is made.
pub(crate) fn front_of_name(name: &str) -> &str {
    front_of(name, LOOKED_AT)
}

/// Some names one behind the other, cut where they are too long.
pub(crate) fn joined(alloc: Global, names: &[&str]) -> Result<String, AllocError> {
    let mut text = String::new(alloc);
    for name in names {
        text.push_str(front_of_name(name))?;
    }
    let said = cut(alloc, text, MAX_WORDS)?;
    Ok(said.text)
}
