//! The core functions of a valid component, by number and by name: what each is used for.
//!
//! A guest's function is an export of a core instance; lifts, lowers and resources say what it is
//! used for. What a guest calls lowers an import, or makes, drops or reads handles.
#![tactic(auto)]

mod core_types;
mod functions;
mod leading;
mod lift_tables;
mod lifts;
mod names;
mod options;
mod shown;
mod using;

pub use cm_abi_model::StringEncoding;
pub use core_types::CoreFuncType;
pub use functions::Functions;
pub use lifts::Lift;
pub use options::encoding;
pub use shown::Described;
