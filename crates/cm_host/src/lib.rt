//! Hosts in terms of values: functions that a host serves, and functions that it calls.
//!
//! A `Seat` is a component of a linked set that stands in for a host. `Served` plays one: its
//! functions are those of a `Service`, which get values and answer values. `Seat::call` calls a
//! function that the component imports.
#![tactic(auto)]

mod answer;
mod caller;
mod calling;
mod fault;
mod found;
mod played;
mod playing;
mod seat;
mod served;
mod service;
mod writing;

pub use answer::Answer;
pub use caller::Caller;
pub use cm_host_values::ValuesFault;
pub use cm_machine as machine;
pub use cm_types::Value;
pub use cm_validate_functions as functions;
pub use fault::{CallFault, SeatFault, ServeFault};
pub use found::ResourceFuncs;
pub use played::Played;
pub use seat::Seat;
pub use served::Served;
pub use service::Service;
