//! What shims want of types.

/// What a shim says of the functions and types of the plain component, by their indices there.
#[derive(Clone, Copy, Debug, PartialEq, Eq)]
pub enum Want {
    /// The function with this index has the type with that index.
    Func(u32, u32),
    /// The type with this index is equal to the type with that index.
    Type(u32, u32),
    /// The type with this index is a resource type.
    Resource(u32),
}
