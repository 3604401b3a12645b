//! What is on its way in the call on top.

ghost use Rattle.std.specs.Prelude.{◌≡◌, false};

use cm_abi_copy::Scan;
use cm_machine_model::Flat;
use std::alloc::Global;

/// What is on its way in the call on top. Nothing is kept of it when it has arrived; the lists
/// keep their room for the next call.
#[derive(Drop)]
pub struct Passing {
    /// The core values that were scanned last.
    pub slots: Flat,
    /// What is kept of the value that they denote while it is on its way: it has a value then, and
    /// none else.
    pub scan: Scan,
}

impl Passing {
    /// Nothing is on its way. It takes no memory before something is, and then from `alloc`.
    pub fn new(alloc: Global) -> Passing
        ensures { result.scan.has_value ≡ false }
    {
        Passing {
            slots: Flat::new(),
            scan: Scan::new(alloc),
        }
    }
}
