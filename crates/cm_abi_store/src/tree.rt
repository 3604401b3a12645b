//! Trees of values, as a source.

ghost use Rattle.std.specs.Prelude.{◌≡◌, length};
ghost use Rattle.cm_types.specs.ValueTrees.{value_of, values_of};
ghost use Rattle.cm_abi_store.specs.Fitting.{FitEach, FitFields, Fits};
ghost use Rattle.cm_abi_store.specs.Sources.{scalars_of};
ghost use Rattle.cm_abi_store.specs.TreeLaws.{handle_is, no_fields_left, none_are_left};

use crate::numbers::number_in;
use crate::source::{PassedSource, StoredSource, ValueSource};
use crate::{stored_size, write_text};
use cm_abi_model::StringEncoding;
use cm_layout::{Layout, Leaf, Part};
use cm_types::Value;

/// A value, as a tree: a source of what is stored in a memory and of what is passed in slots.
#[derive(Clone, Copy)]
pub struct Tree<'a> {
    /// The value.
    pub value: &'a Value,
}

/// The elements or the fields of a value, each a tree, that are still to come.
#[derive(Clone, Copy)]
pub struct Trees<'a> {
    /// The values, in order.
    pub values: &'a [Value],
}

impl<'a> ValueSource for Tree<'a> {
    type Rest = Trees<'a>;

    ghost value = { λ s sh. value_of s.value.now };

    ghost ready = { λ s n g e sh k h. Fits n g sh (value_of s.value.now) k h };

    ghost scalars = { λ s. scalars_of (value_of s.value.now) };

    ghost values_left = { λ r e sh count. values_of r.values.now };

    ghost values_ready = { λ r n g e sh count k h. (length r.values.now ≡ count)
        × FitEach (Fits n g sh) (values_of r.values.now) k h };

    ghost fields_left = { λ r ps. values_of r.values.now };

    ghost fields_ready = { λ r n g ps k h. FitFields n g ps (values_of r.values.now) k h };

    ghost no_elements = { λ r n g e sh k h ready. none_are_left r.values.now ready.0 };

    ghost no_fields = { λ r n g k h ready. no_fields_left n g (values_of r.values.now) k h ready };

    ghost is_handle = { λ s n g e t k h ready. handle_is n g t (value_of s.value.now) k h ready };

    fn leaf(self, leaf: Leaf) -> u64 {
        number_in(self.value)
    }

    fn text_size(self, target: StringEncoding, part: usize) -> usize {
        match self.value {
            Value::String(text) => stored_size(target, text.as_str()),
            _ => 0,
        }
    }

    fn write_text(
        self,
        target: StringEncoding,
        memory: &mut [u8],
        at: usize,
        size: usize,
        part: usize,
    ) {
        if let Value::String(text) = self.value {
            write_text(target, memory, at, size, text.as_str());
        }
    }

    fn items(self, count: usize) -> Trees<'a> {
        match self.value {
            Value::Fields(values) => Trees { values },
            _ => Trees { values: &[] },
        }
    }

    fn fields(self) -> Trees<'a> {
        match self.value {
            Value::Fields(values) => Trees { values },
            _ => Trees { values: &[] },
        }
    }

    fn case(self, discriminant: u32, offset: u32) -> (u32, Option<Tree<'a>>) {
        match self.value {
            Value::Case { index, payload } => match payload {
                Some(value) => (*index, Some(Tree { value })),
                None => (*index, None),
            },
            _ => (0, None),
        }
    }

    fn next_element(rest: &mut Trees<'a>, element: &Layout) -> Tree<'a> {
        let value = &rest.values[0];
        rest.values = &rest.values[1..];
        Tree { value }
    }

    fn next_field(rest: &mut Trees<'a>, part: &Part) -> Tree<'a> {
        let value = &rest.values[0];
        rest.values = &rest.values[1..];
        Tree { value }
    }

    fn plain_bytes<'b>(rest: &'b Trees<'a>, element: &Layout, count: usize) -> Option<&'b [u8]> {
        None
    }
}

impl<'a> StoredSource for Tree<'a> {
    fn elements(self) -> (usize, Trees<'a>) {
        match self.value {
            Value::List(values) => (values.len(), Trees { values }),
            _ => (0, Trees { values: &[] }),
        }
    }
}

impl<'a> PassedSource for Tree<'a> {
    type Stored = Tree<'a>;

    fn stored_elements(self) -> (usize, Trees<'a>) {
        self.elements()
    }
}
