//! Files of providers that other readers take: instances as tool chains write them.
//!
//! By the standard a named type (a record, a variant, an enum, flags or a resource) is the very
//! index that a scope has imported or exported, and a name like `[method]r.m` stands behind the
//! export of `r`. An instance that is made of definitions under names is no such scope. So where a
//! stub has such names, or interfaces that share types, each instance is one of a nested component,
//! a shim: it takes the types and functions under other names, and exports them again.
#![tactic(auto)]

mod bag;
mod calling;
mod definition;
mod file;
mod imported;
mod lists;
mod names;
mod provided;
mod shim;

pub use calling::caller_file_of;
pub use file::{file_of, func_over_named};
pub use imported::import_over_named;
