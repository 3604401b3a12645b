//! WIT texts: packages parsed and printed, signatures of worlds, conformance.
#![tactic(auto)]

pub mod laws;

pub use cm_types_arena::{Desc, Externs, Items, NamedDesc, NamedItem, Signature};
pub use cm_wit_conforms::{ConformFault, ConformItem, ConformList, ConformReason, conforms};
pub use cm_wit_package::{Package, WitFault, WitReason, parse, print};
pub use cm_wit_signature::world_signature;
pub use cm_wit_worlds::WorldFault;
