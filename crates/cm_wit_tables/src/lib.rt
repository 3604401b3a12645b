//! The types that a world's interfaces declare, as one table.
//!
//! Each declaration is put into the table behind those that it uses. The list of declarations is
//! here, with what each uses, which are resources, and whether each name in their texts leads to a
//! type.
#![tactic(auto)]

mod declarations;
pub mod declared_laws;
mod entry;
mod fault;
mod filling;
mod keys;
pub mod laws;
mod leading;
mod listing;
mod making;
mod names;
mod placing;
mod resources;
mod rows;
mod table;
mod world_declarations;

pub use declarations::{Declaration, Declared, Instance};
pub use fault::TableFault;
pub use filling::fill;
pub use keys::declaration_keys;
pub use leading::{all_have_types, all_lead};
pub use listing::Listing;
pub use making::table_of;
pub use resources::{resource_ids, resource_marks};
pub use rows::use_rows;
pub use table::Table;
pub use world_declarations::declarations_of;
