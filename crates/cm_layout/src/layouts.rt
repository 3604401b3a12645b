//! Layouts: what is known of a type and of all types in it before any value, as one tree.

use crate::heads::Head;
use cm_types::ResourceId;
use std::sync::Arc;

/// A type that holds no other one and is passed as one core value, handles aside.
#[derive(Clone, Copy)]
pub enum Leaf {
    Bool,
    /// A number with a sign, of so many bytes.
    Signed(u32),
    /// A number without a sign, of so many bytes.
    Unsigned(u32),
    Char,
    /// A set of so many labels, in so many bytes.
    Flags { labels: usize, bytes: u32 },
}

/// What a handle is to its resource.
#[derive(Clone, Copy)]
pub enum HandleType {
    Own(ResourceId),
    Borrow(ResourceId),
}

/// The layout of a type and of all types in it: a walk over a value goes down it alone, and needs
/// no type beside it. What is below it is shared.
#[cycle(layouts)]
#[derive(Drop)]
pub struct Layout {
    /// What the type takes in memory and in core values.
    pub head: Head,
    /// What the type is.
    pub form: Form,
}

/// What a type is, with the layouts of what it holds.
#[cycle(layouts)]
#[derive(Drop)]
pub enum Form {
    Leaf(Leaf),
    String,
    /// A list, whose elements lie elsewhere, one behind the other: the layout of one.
    List(Arc<Layout>),
    /// So many elements, which lie in place, one behind the other.
    FixedList {
        element: Arc<Layout>,
        length: u32,
    },
    /// The fields of a record or a tuple, in order.
    Fields(Arc<Vec<Part>>),
    /// The cases of a variant, an option or a result.
    Cases {
        /// The size in bytes of the number of a case.
        discriminant: u32,
        /// Where the payload stands, in bytes from where the whole does.
        offset: u32,
        /// What each case carries, in order.
        payloads: Arc<Vec<Payload>>,
    },
    /// The cases of an enum, which carry nothing.
    Enum {
        /// The size in bytes of the number of a case.
        discriminant: u32,
        /// How many cases there are.
        count: usize,
    },
    Handle(HandleType),
}

/// A field.
#[cycle(layouts)]
#[derive(Drop)]
pub struct Part {
    /// Where it stands, in bytes from where the whole does.
    pub offset: u32,
    pub layout: Layout,
}

/// What a case carries.
#[cycle(layouts)]
#[derive(Drop)]
pub enum Payload {
    Nothing,
    Carried(Layout),
}
