//! Files of stubs that other readers take, each read back, and judged by what it is read as.
#![tactic(auto)]

mod asking;
mod called;
mod fault;
mod read_back;

pub use asking::provider_file_of;
pub use cm_match as matching;
pub use cm_shims as shims;
pub use cm_stubs_shims::{func_over_named, import_over_named};
pub use fault::StubFileFault;
pub use read_back::{caller_file, provider_file};
