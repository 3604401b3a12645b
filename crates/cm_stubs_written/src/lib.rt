//! Stubs as they are written: what one exports or imports, and the component that does.
#![tactic(auto)]

mod asked;
mod calling;
mod providing;
mod resources;
mod wanted;

pub use asked::{Asked, names_of};
pub use calling::caller_written;
pub use cm_stubs_drafts::DraftFault;
pub use providing::provider_written;
