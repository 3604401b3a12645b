//! The words of values that have some of their own.

ghost use Rattle.std.specs.Prelude.{◌≡◌, IfOk, None, if◌then◌else◌, slice_get};
ghost use Rattle.std.specs.Option.{option_map};
ghost use Rattle.std.specs.String.{string_bytes};
ghost use Rattle.cm_types.specs.TypeTrees.{type_of};
ghost use Rattle.cm_types.specs.ValueTrees.{values_of};
ghost use Rattle.cm_hux_values.specs.Naming.{called_by, handle_text, words_of};
ghost use Rattle.cm_hux_values.specs.Texts.{bytes_in, is_byte, text_words};

use crate::bytes::{is_byte, words_of_bytes};
use crate::handles::{Resource, handle_text};
use cm_handles::Table;
use cm_types::{ResourceId, TypeNode, Value};
use cm_types_arena::{Move, moved_resource};
use cm_values::Worded;
use std::alloc::{AllocError, Global};

/// The names of handles that an instance gives: the resources of a component, how the types of the
/// values count them, and the table of the instance.
#[derive(Clone, Copy)]
pub struct Naming<'s> {
    pub alloc: Global,
    pub resources: &'s [Resource],
    pub by: Option<Move>,
    pub table: &'s Table,
}

impl Naming<'_> {
    /// What the handle at an index is called.
    fn called(&self, resource: ResourceId, index: u64) -> Result<String, AllocError>
        ensures { IfOk result (λ text. string_bytes text ≡ called_by self.now resource index) }
    {
        self.numbered(moved_resource(self.by, resource).number, index)
    }

    /// What the handle at an index is called, of the resource of a number: `file#3`, and `file#?`
    /// where none stands there. `AllocError` comes where there is no memory for it.
    pub fn numbered(&self, number: u64, index: u64) -> Result<String, AllocError>
        ensures { IfOk result (λ text. string_bytes text ≡ handle_text
            (slice_get self.now.resources.now number) self.now.table.now.handles index) }
    {
        let resource = self.resources.get(number as usize);
        handle_text(self.alloc, resource, self.table, index)
    }

    /// The text in quotes that values of a type are, where they are bytes that are one.
    fn text(&self, element: &TypeNode, values: &[Value]) -> Result<Option<String>, AllocError>
        ensures { IfOk result (λ text. option_map string_bytes text
            ≡ if is_byte (type_of element.now) then text_words (bytes_in (values_of values.now))
            else None) }
    {
        if is_byte(element) {
            words_of_bytes(self.alloc, values)
        } else {
            Ok(None)
        }
    }
}

impl Worded for Naming<'_> {
    ghost words = { words_of };

    fn word(&self, value: &Value, ty: &TypeNode) -> Result<Option<String>, AllocError> {
        match (ty, value) {
            (TypeNode::Own(id) | TypeNode::Borrow(id), Value::Unsigned(index)) => {
                Ok(Some(self.called(*id, *index)?))
            }
            (TypeNode::List(element), Value::List(values)) => self.text(element, values),
            (TypeNode::FixedList { element, .. }, Value::Fields(values)) => {
                self.text(element, values)
            }
            _ => Ok(None),
        }
    }
}
