//! Who receives the values of a call.

/// Who receives the values of a call.
#[derive(Clone, Copy)]
pub struct Receiver {
    /// The place of its instance, which tells the resources that it implements: those that the
    /// component of the same place defines.
    pub instance: u32,
    /// The number of the call, from which its borrowed handles are counted.
    pub call: u32,
}
