//! What a table of nodes is searched by.

/// A node of a type with numbers in place of what is below it. A list of fields or of cases is a
/// chain: its first member with the number of those that follow.
#[derive(Clone, Copy, PartialEq, Eq, PartialOrd, Ord)]
pub(crate) enum Key {
    Leaf(Leaf),
    List(usize),
    FixedList {
        element: usize,
        length: u32,
    },
    Record(usize),
    Tuple(usize),
    Variant(usize),
    Enum(usize),
    Option(usize),
    Result(usize),
    Flags(usize),
    Own {
        component: u32,
        number: u64,
    },
    Borrow {
        component: u32,
        number: u64,
    },
    Field {
        label: usize,
        ty: usize,
        others: usize,
    },
    Plain {
        label: usize,
        others: usize,
    },
    Carrying {
        label: usize,
        ty: usize,
        others: usize,
    },
    Func {
        params: usize,
        result: usize,
    },
    FuncWithoutResult {
        params: usize,
    },
}

/// A node with nothing below it: a type without parts, or the end of a chain.
#[derive(Clone, Copy, PartialEq, Eq, PartialOrd, Ord)]
pub(crate) enum Leaf {
    Bool,
    S8,
    U8,
    S16,
    U16,
    S32,
    U32,
    S64,
    U64,
    Char,
    String,
    NoFields,
    NoCases,
}
