//! What a call is to pass.

use cm_abi_model::{Encodings, Way};
use cm_layout::Layout;
use cm_types::{CoreKind, Value};

/// What a call is to pass: values, and how.
#[derive(Clone, Copy)]
pub struct Passing<'a> {
    /// Which way the values go, which says how many core values pass them at most.
    pub way: Way,
    /// The layout of the tuple of their types.
    pub layout: &'a Layout,
    /// The kinds of the core values that pass them: the flat kinds of their types, one type after
    /// another, or where these are too many that of one pointer to their tuple in memory.
    pub kinds: &'a [CoreKind],
    /// The values, one of each type.
    pub values: &'a [Value],
    /// How their strings are encoded where they were lifted, and where they are lowered.
    pub encodings: Encodings,
    /// Of each string, in reading order, whether its length was tagged as UTF-16 where it was
    /// lifted. Only `Latin1OrUtf16` has tags; where there are too few, the others are not set.
    pub tags: &'a [bool],
}
