//! The memory that lowering asks `realloc` for; whether its answers will do (CanonicalABI.md,
//! "Storing" of lists and strings).
//!
//! The requests for a value tree are one list (`requests`); those for what a scan recorded come one
//! after another (`PartRequests`). Nothing is lowered here.
#![tactic(auto)]

mod answers;
mod asked;
mod asking;
mod chains;
mod charsets;
pub mod laws;
mod part_requests;
mod placing;
mod record_requests;
mod regions;
mod request_lists;
pub mod requesting_laws;
mod sizes;
mod strings;

pub use answers::{check_answer, check_answers};
pub use part_requests::PartRequests;
pub use regions::are_disjoint;
pub use request_lists::requests;
