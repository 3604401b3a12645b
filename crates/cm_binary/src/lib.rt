//! Component files, decoded and encoded: whole, in pieces, by streams.
//!
//! Each form is written with the shortest spelling of each number (Binary.md).
#![tactic(auto)]

mod aliases;
mod canons;
mod decoder;
mod decoding;
mod encoding;
mod externs;
mod fault;
mod front;
mod gathered;
mod instances;
pub mod laws;
mod pieces;
mod sections;
mod streams;
mod types;
mod whole;
mod written;

pub use cm_binary_forms::{DecodeFault, DecodeReason, Feature};
pub use cm_binary_model::{
    Alias, Canon, CanonOption, Component, CoreInlineExport, CoreInstance, CoreInstantiationArg,
    CoreSort, CustomSection, Export, ExportSort, ExternDesc, Import, InlineExport, Instance,
    InstanceExportSort, LimitFault, Section,
};
pub use decoder::Decoder;
pub use decoding::decode;
pub use encoding::{encode, written_and_read};
pub use fault::{WriteFault, WriteReason};
pub use pieces::decode_pieces;
pub use sections::write_file;
pub use streams::{decode_from, write_to};
