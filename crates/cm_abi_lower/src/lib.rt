//! Lowers values: core values, memory behind pointers, the receiver's handles (CanonicalABI.md,
//! "Flattening" and "Lifting and Lowering Values").
//!
//! What goes to memory is stored by `cm_abi_store`.
#![tactic(auto)]

mod calls;
mod giving;
mod leaves;
mod passing;

pub use calls::store_call;
pub use giving::{borrowed_count, give, give_values};
pub use passing::pass_value;
