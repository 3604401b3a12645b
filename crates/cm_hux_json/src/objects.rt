//! Objects, made member by member.

use serde_json::{Map, ToValue, Value, put};
use std::alloc::{AllocError, Global};
use std::fmt::{Debug, Display};

/// An object that is made member by member. Its members are written in the order of their names.
///
/// Each function answers `AllocError` where there is no memory, and costs what it adds.
#[derive(Drop)]
pub struct Object {
    alloc: Global,
    members: Map<String, Value>,
}

impl Object {
    /// An object without members.
    pub fn new(alloc: Global) -> Object {
        Object {
            alloc,
            members: Map::new(alloc),
        }
    }

    /// With a member of this name, in the place of the one that has the name, if there is one.
    pub fn with<V: ToValue>(self, name: &str, value: V) -> Result<Object, AllocError> {
        let mut object = self;
        let value = value.to_value(object.alloc)?;
        put(&mut object.members, object.alloc, name, value)?;
        Ok(object)
    }

    /// The text that a value is shown as.
    pub fn shown<D: Display>(&self, value: &D) -> Result<String, AllocError> {
        format!(in self.alloc; "{value}")
    }

    /// With a member that is the text that a value is shown as.
    pub fn with_shown<D: Display>(self, name: &str, value: &D) -> Result<Object, AllocError> {
        let text = self.shown(value)?;
        self.with(name, text)
    }

    /// With what a reason is: its kind, as `Trap`, its name there, its number, and its meaning.
    pub fn with_reason<D: Display>(
        self,
        kind: &str,
        name: &str,
        number: u8,
        meaning: &D,
    ) -> Result<Object, AllocError> {
        let object = self.with("kind", kind)?.with("name", name)?;
        object
            .with("number", number)?
            .with_shown("meaning", meaning)
    }

    /// With what a reason is, as `with_reason`; its name is that of its variant.
    pub fn with_derived<R: Debug + Display>(
        self,
        kind: &str,
        reason: &R,
        number: u8,
    ) -> Result<Object, AllocError> {
        let shown = format!(in self.alloc; "{reason:?}")?;
        self.with_reason(kind, first_word(shown.as_str()), number, reason)
    }

    /// The object as a value.
    pub fn value(self) -> Value {
        Value::Object(self.members)
    }

    /// The object as a line of a text, with its line feed.
    pub fn line(self) -> Result<String, AllocError> {
        line_of(self.alloc, &self.value())
    }
}

/// A value as a line of a text, with its line feed. `AllocError` comes where there is no memory.
pub fn line_of(alloc: Global, value: &Value) -> Result<String, AllocError> {
    let mut line = value.to_string(alloc)?;
    line.push_str("\n")?;
    Ok(line)
}

/// What stands in front of the first blank and of the first bracket.
pub fn first_word(text: &str) -> &str {
    let word = text.split(' ').next().unwrap_or(text);
    word.split('(').next().unwrap_or(word)
}
