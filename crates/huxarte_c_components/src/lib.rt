//! Components by the bytes of their files: checked, shown, linked, laid out, and called.
//!
//! Whether a file is a valid component, and fits a world; how the types of its functions lie, what
//! passing the parameters of a call asks for, and the parameters copied; what an engine needs of a
//! component; the files of a bundle, and how they are linked. The words and the files of a command
//! that is handed over are parts of the bytes.
#![tactic(auto)]

mod calling;
mod checking;
mod choosing;
mod command;
mod conforming;
mod copying;
mod fault;
mod func_type;
mod given;
pub mod laws;
mod laying;
mod linking;
mod plan_part;
mod planned;
mod planning;
mod requesting;
mod showing;
mod sound;
mod unbundled;
mod unbundling;

pub use calling::call_of;
pub use checking::{check, files_verdict};
pub use choosing::{HuxChoice, HuxPlace, link_by_numbers};
pub use command::Command;
pub use conforming::conform;
pub use copying::copy;
pub use fault::ComponentFault;
pub use given::{Given, HuxFile};
pub use laying::lay;
pub use linking::{LinkRefusal, files_of, link_files};
pub use plan_part::{HuxPlan, HuxPlanKind, HuxPlanPart};
pub use planning::plan;
pub use requesting::ask;
pub use showing::show;
pub use sound::{check_one, read_one};
pub use unbundled::HuxBundle;
pub use unbundling::{BundleRefusal, unbundle};
