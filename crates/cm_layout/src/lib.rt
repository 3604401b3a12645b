//! Sizes, alignments and offsets of types, and the core values that pass them (CanonicalABI.md,
//! "Alignment", "Element Size" and "Flattening").
//!
//! Sizes, alignments and offsets are there one by one, and as one tree for a type and each type in
//! it (`Layout`); `flatten` and `flatten_func` list core values and make core signatures.
#![tactic(auto)]

mod builders;
mod cases;
mod fields;
mod flat_funcs;
pub mod flat_laws;
mod flat_whole_types;
mod flattening;
mod heads;
pub mod laws;
mod layouts;
mod makers;
mod measures;
mod offsets;
mod steps;
mod whole_types;

pub use builders::{CasesBuilder, FieldsBuilder};
pub use cm_types::{MAX_FLAT_PARAMS, MAX_FLAT_RESULTS};
pub use flat_funcs::{FlatFunc, Side, flatten_func};
pub use flat_whole_types::flatten;
pub use heads::Head;
pub use layouts::{Form, HandleType, Layout, Leaf, Part, Payload};
pub use makers::{layout, layout_of_fields, layout_of_params};
pub use whole_types::{
    align, case_offset, discriminant_size, field_offset, has_cases, has_field, head,
    head_of_params, size,
};
