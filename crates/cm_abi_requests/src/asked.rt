//! What a lowering has asked for so far.

use cm_abi_model::Request;

/// What a lowering has asked for so far.
#[derive(Drop)]
pub struct Asked {
    /// The requests, in order.
    pub requests: Vec<Request>,
    /// How many strings had their tag looked at, as far as there are tags.
    pub next: usize,
}
