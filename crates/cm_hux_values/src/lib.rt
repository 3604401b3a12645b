//! What `hux` says of values.
//!
//! They are printed as by `cm_values`, but handles by the names of their resources, and lists of
//! bytes that are a text as that text; and all of it is cut behind so many bytes.
#![tactic(auto)]

mod bytes;
mod cutting;
mod handles;
mod naming;

pub use cutting::{Said, cut, front_of, say};
pub use handles::Resource;
pub use naming::Naming;
