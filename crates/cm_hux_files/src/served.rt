//! What serves the imports of components.

use crate::providers::{Provider, link_to};
use cm_match_model::{Candidate, Link};
use cm_match_serving::Checked;
use cm_types_arena::Extern;
use std::alloc::{AllocError, Global};

/// What serves each import of components, by component and import: an export, nothing, or several,
/// of which none is chosen.
#[derive(Drop)]
pub struct Served {
    pub(crate) rows: Vec<Vec<Candidate>>,
}

/// An import that nothing serves: the number of its component, and its name.
#[derive(Clone, Copy)]
pub struct OpenImport<'a> {
    pub component: usize,
    pub name: &'a str,
}

impl Served {
    /// The imports of these components that nothing serves, in order.
    pub fn open<'c>(
        &self,
        alloc: Global,
        components: &'c [Checked<'_>],
    ) -> Result<Vec<OpenImport<'c>>, AllocError> {
        let mut open = Vec::new(alloc);
        for (number, (component, row)) in components.iter().zip(&self.rows).enumerate() {
            add_open(&mut open, number, component.imports(), row)?;
        }
        Ok(open)
    }

    /// The links of the imports. One that several exports may serve has none, and sees them all;
    /// the link of one that nothing serves is to its own component, of which it sees no export.
    pub(crate) fn links(&self, alloc: Global) -> Result<Vec<Vec<Option<Link>>>, AllocError> {
        let mut links = Vec::with_capacity(alloc, self.rows.len())?;
        for (component, row) in self.rows.iter().enumerate() {
            links.push(links_of(alloc, component, row)?)?;
        }
        Ok(links)
    }

    /// The same behind a component that has these exports, which serve what nothing else does.
    pub(crate) fn behind(
        &self,
        alloc: Global,
        stub: &Provider,
        components: &[Checked<'_>],
    ) -> Result<Served, AllocError> {
        let mut rows = Vec::new(alloc);
        rows.push(Vec::new(alloc))?;
        for (component, row) in components.iter().zip(&self.rows) {
            rows.push(row_behind(alloc, stub, component.imports(), row)?)?;
        }
        Ok(Served { rows })
    }
}

/// Adds the imports of a component that nothing serves.
fn add_open<'c>(
    open: &mut Vec<OpenImport<'c>>,
    component: usize,
    imports: &'c [Extern],
    row: &[Candidate],
) -> Result<(), AllocError> {
    for (import, served) in imports.iter().zip(row) {
        if *served == Candidate::None {
            let name = import.name.as_str();
            open.push(OpenImport { component, name })?;
        }
    }
    Ok(())
}

/// The links of the imports of the component of a number.
fn links_of(
    alloc: Global,
    component: usize,
    row: &[Candidate],
) -> Result<Vec<Option<Link>>, AllocError> {
    let mut links = Vec::with_capacity(alloc, row.len())?;
    for served in row {
        let chosen = match *served {
            Candidate::None => Candidate::One {
                component,
                export: 0,
            },
            served => served,
        };
        links.push(link_to(chosen))?;
    }
    Ok(links)
}

/// What serves imports behind a component that has these exports.
fn row_behind(
    alloc: Global,
    stub: &Provider,
    imports: &[Extern],
    row: &[Candidate],
) -> Result<Vec<Candidate>, AllocError> {
    let mut behind = Vec::with_capacity(alloc, row.len())?;
    for (import, served) in imports.iter().zip(row) {
        behind.push(match *served {
            Candidate::None => stub.fitting(alloc, &import.name)?,
            served => one_behind(served),
        })?;
    }
    Ok(behind)
}

/// The same export where one more component stands in front.
pub(crate) fn one_behind(served: Candidate) -> Candidate {
    match served {
        Candidate::One { component, export } => Candidate::One {
            component: component.saturating_add(1),
            export,
        },
        Candidate::None | Candidate::Several => served,
    }
}
