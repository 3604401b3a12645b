//! Stubs: components that stand in for a host, made from what others import or export.
#![tactic(auto)]

mod checked;
mod fault;
mod stubs;
mod used;

pub use cm_binary_model::Component;
pub use cm_types_arena::Signature;
pub use fault::StubFault;
pub use stubs::{caller, caller_for, provider, provider_for};
