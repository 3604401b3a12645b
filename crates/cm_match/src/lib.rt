//! `link`: each import is served by one export of an earlier component; `link_by`: by a chosen one.
//!
//! Each pair of an instance type and an exported instance is compared once, however many imports
//! and exports have them.
#![tactic(auto)]

mod following;
mod judged;
mod linked;
mod linking;
mod target;
mod told;
mod walk;

pub use cm_match_model::{Choices, Link, LinkFault, LinkReason, MAX_COMPONENTS, Place, PlanLine};
pub use cm_match_serving::{Checked, CoreFuncEntry, ExportEntry, MadeFunc};
pub use linked::Linked;
pub use linking::{link, link_by};
pub use target::Target;
