//! The names in an item, in the order in which they stand.

/// What a name in an item is for.
#[derive(Clone, Copy, PartialEq, Eq)]
pub enum Role {
    /// A part of a path.
    Path,
    /// The name of a type, a function or an interface in place.
    Own,
    /// The name of a function of a resource.
    Method,
    /// A field, a case, a flag or a parameter.
    Member,
    /// A type that is used, by its name where it is declared.
    Used,
    /// The new name of a type that is used.
    UsedAs,
    /// A type.
    Named,
    /// A type that is a result, or stands in one.
    Answered,
    /// The resource of a borrow.
    Borrowed,
    /// A name of an included world.
    Included,
    /// The new name of such a one.
    IncludedAs,
}

/// A name in an item, and whether it is one that the item gives among those of its interface or
/// world.
#[derive(Clone, Copy)]
pub struct Mention<'a> {
    pub role: Role,
    pub declares: bool,
    pub name: &'a str,
}

impl<'a> Mention<'a> {
    /// A name that the item gives.
    pub fn given(role: Role, name: &'a str) -> Mention<'a> {
        Mention {
            role,
            declares: true,
            name,
        }
    }

    /// A name that the item does not give.
    pub fn other(role: Role, name: &'a str) -> Mention<'a> {
        Mention {
            role,
            declares: false,
            name,
        }
    }
}
