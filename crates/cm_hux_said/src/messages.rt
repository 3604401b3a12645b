//! What passed.

use cm_machine_model::Trap;

/// What a person wants to see of a play. Instances count from 0, as the components do.
#[derive(Drop)]
pub enum Message {
    /// A root call of this instance begins.
    Began { root: u32 },
    /// A call went through: the callee begins with its arguments.
    Call(Spoken),
    /// A call returned: the caller has its result.
    Answer(Spoken),
    /// A move was refused: instances are closed, and no call is on the stack.
    Trapped(Trapping),
    /// The root has returned.
    Ended,
}

/// What a call passes one way.
#[derive(Drop)]
pub struct Spoken {
    /// How many calls stand below this one: 0 where a root calls.
    pub depth: usize,
    /// The instance that calls.
    pub caller: u32,
    /// The instance that is called.
    pub callee: u32,
    /// The name under which the caller imports the function: `name`, or `instance#name` of an item
    /// of an instance. Where the caller drops a resource, and a destructor is called, it is
    /// `instance#[resource-drop]name`. At most `MAX_WORDS` bytes, the last two `..` where it was
    /// cut.
    pub name: String,
    /// The arguments, or the result, if there is one, each as text: `print` of cm_values, but
    /// handles are the name of their resource and their serial number, as `file#3`. All of them
    /// have `MAX_WORDS` bytes at most; where they were cut, the last one ends with `..`, and those
    /// behind it are left out.
    pub values: Vec<String>,
    /// Whether the values were cut.
    pub is_cut: bool,
}

/// A trap.
#[derive(Drop)]
pub struct Trapping {
    /// Why the move was refused.
    pub trap: Trap,
    /// The instance that made the move.
    pub instance: u32,
    /// What it did, in words: `call of inc`, `return from inc`, `write at 32`.
    pub doing: String,
    /// The instances that the trap closed.
    pub closed: Vec<u32>,
}
