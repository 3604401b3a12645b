//! A linked set that is played line by line: an engine makes the moves and is told the events.
//!
//! `serve` reads statements and answers their events, and before them the bytes that adapters wrote
//! into memories. What they wrote is known from moves and events: no memory is compared.
#![tactic(auto)]

mod answer;
mod fault;
mod goings_on;
mod listener;
mod played;
mod record;
mod results;
mod served;
mod session;
mod written;

pub use answer::{Answer, Written};
pub use cm_abi_model::Region;
pub use fault::LiveFault;
pub use listener::Listener;
pub use played::Played;
pub use record::Record;
pub use served::{Served, serve};
pub use session::Session;
pub use written::write_answer;
