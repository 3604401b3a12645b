//! The Canonical ABI in definitions, with laws in the standard's words.
//!
//! Of code there is only plain data. `cm_abi_load` and `cm_abi_lift` read values by these
//! definitions, `cm_abi_store` and `cm_abi_lower` write them.
#![tactic(auto)]

mod encoding;
mod encodings;
mod fault;
pub mod laws;
mod leaf;
mod limits;
mod receiver;
mod record;
mod region;
mod request;
pub mod standard_laws;
mod string_sizes;
mod way;

pub use encoding::{StringEncoding, UTF16_TAG};
pub use encodings::Encodings;
pub use fault::AbiFault;
pub use leaf::{HandleLeaf, HandleValue};
pub use limits::MAX_CONTENT;
pub use receiver::Receiver;
pub use record::{PartKind, PartRecord};
pub use region::Region;
pub use request::Request;
pub use string_sizes::{text_align, utf16_size};
pub use way::Way;
