//! Why a bundle is not made or taken.

use cm_bundle::{BundleFault, BundlingFault};
use cm_tool_help_texts::Escaped;
use std::alloc::{AllocError, AllocFailed};
use std::fmt;

/// Why a bundle is not made or taken. A name is the word of the command line.
#[derive(Drop)]
pub enum Trouble {
    /// The components are not written as one file; not for want of memory.
    NotMade(BundlingFault),
    /// The file of a component, by its number from 0, imports a type, which nothing in a bundle
    /// serves.
    ImportsType { component: usize },
    /// The file is no bundle; not for want of memory.
    NoBundle { name: String, fault: BundleFault },
    /// A bundle, or a part of one, that is called so, links otherwise than its files do, in words.
    OtherLinks { name: String, why: String },
    /// There was no memory.
    Memory,
}

impl From<AllocError> for Trouble {
    fn from(_error: AllocError) -> Self {
        Trouble::Memory
    }
}

impl<T: Drop> From<AllocFailed<T>> for Trouble {
    fn from(_error: AllocFailed<T>) -> Self {
        Trouble::Memory
    }
}

impl fmt::Display for Trouble {
    fn fmt<W: fmt::Write>(&self, f: &mut fmt::Formatter<W>) -> fmt::Result {
        match self {
            Trouble::NotMade(fault) => write!(f, "the bundle: {fault}"),
            Trouble::ImportsType { component } => write!(
                f,
                "the bundle: ImportsType in component {component}: nothing serves a type"
            ),
            Trouble::NoBundle { name, fault } => {
                write!(f, "{}: it is no bundle: {fault}", Escaped(name.as_str()))
            }
            Trouble::OtherLinks { name, why } => {
                let name = Escaped(name.as_str());
                write!(f, "{name}: OtherLinks: {why}")
            }
            Trouble::Memory => f.write_str("no memory"),
        }
    }
}
