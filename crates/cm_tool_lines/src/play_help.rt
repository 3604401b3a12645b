//! The lines of faults of a set and its drives.

use cm_machine_model::Misuse;
use std::fmt;

/// What a set is to be made of.
#[derive(Clone, Copy)]
pub struct SetSize {
    /// How many components there are.
    pub components: usize,
    /// How many numbers of pages the script gives.
    pub counts: usize,
    /// The greatest number of pages, 0 where there is none.
    pub most_pages: u32,
}

impl SetSize {
    /// The size of a set of so many components, for which a script gives these numbers of pages.
    pub fn new(components: usize, pages: &[u32]) -> SetSize {
        SetSize {
            components,
            counts: pages.len(),
            most_pages: pages.iter().copied().max().unwrap_or(0),
        }
    }
}

/// A drive: its place in the script, from 0, its root, and the number of components.
#[derive(Clone, Copy)]
pub struct Drive {
    pub index: usize,
    pub root: u32,
    pub components: usize,
}

fn write_drive<W: fmt::Write>(f: &mut fmt::Formatter<W>, drive: Drive) -> fmt::Result {
    let Drive { index, root, .. } = drive;
    write!(f, ": drive {index}, begin {root}")
}

/// Writes why the machine refused to make a set.
pub fn write_set_fault<W: fmt::Write>(
    f: &mut fmt::Formatter<W>,
    misuse: Misuse,
    size: SetSize,
) -> fmt::Result {
    write!(f, "{misuse}")?;
    write!(f, ": making the set")?;
    match misuse {
        Misuse::BadPages => write_bad_pages(f, size),
        _ => Ok(()),
    }
}

fn write_bad_pages<W: fmt::Write>(f: &mut fmt::Formatter<W>, size: SetSize) -> fmt::Result {
    let SetSize {
        components,
        counts,
        most_pages,
    } = size;
    if counts == components {
        write!(
            f,
            ": found {most_pages} pages, expected at most 1024 for a component"
        )
    } else {
        write!(
            f,
            ": found {counts} numbers in pages, expected one for each of {components} components"
        )
    }
}

/// Writes why the machine refused to begin a drive.
pub fn write_begin_fault<W: fmt::Write>(
    f: &mut fmt::Formatter<W>,
    misuse: Misuse,
    drive: Drive,
) -> fmt::Result {
    let components = drive.components;
    write!(f, "{misuse}")?;
    write_drive(f, drive)?;
    match misuse {
        Misuse::Busy => write!(f, ": a drive before it reached its limit"),
        Misuse::Closed => write!(f, ": a trap of a drive before it closed the instance"),
        Misuse::NoInstance => write!(f, ": expected a number below {components}"),
        _ => Ok(()),
    }
}

/// Writes that a drive made all its moves, and its root has not returned.
pub fn write_limit<W: fmt::Write>(
    f: &mut fmt::Formatter<W>,
    limit: u64,
    drive: Drive,
) -> fmt::Result {
    write!(f, "limit")?;
    write_drive(f, drive)?;
    write!(
        f,
        ": {limit} moves were made, and the root has not returned"
    )
}
