//! Texts in UTF-8, UTF-16 and Latin-1, and conversions between them.
#![tactic(auto)]

mod encoding;
mod fault;
mod kernels;
mod latin1;
pub mod laws;
mod sizes;
mod source;
mod transcoding;
mod utf16;
mod utf8;
mod writes;

pub use encoding::Encoding;
pub use fault::TextFault;
pub use kernels::{ascii_run, ascii_units, narrow, widen};
pub use latin1::Latin1;
pub use source::Source;
pub use transcoding::{transcode, transcode_into, transcoded_size};
pub use utf8::Utf8;
pub use utf16::Utf16;
