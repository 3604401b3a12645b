//! Where paths stand.

use crate::adding::put;
use crate::fault::Spot;
use cm_wit_projects::{ItemRef, Unit};
use cm_wit_projects_reading::PackageItem;
use cm_wit_tokens::WitReason;
use std::alloc::{AllocError, Global};

/// Where a path stands: its unit, and how many bytes of the text are left from the first token of
/// its item on.
#[derive(Clone, Copy)]
pub struct PathPlace {
    pub unit: usize,
    pub left: usize,
}

impl PathPlace {
    /// The fault at a name of the path.
    pub fn fault(self, name: usize, reason: WitReason) -> Spot {
        Spot {
            unit: self.unit,
            left: self.left,
            name: Some(name),
            reason,
        }
    }
}

/// Adds where the uses at the top of a unit stand.
fn add_places(
    out: &mut Vec<PathPlace>,
    unit: usize,
    items: &[ItemRef<'_>],
) -> Result<(), AllocError> {
    for item in items {
        if matches!(item.item, PackageItem::Use(_)) {
            let left = item.left;
            put(out, PathPlace { unit, left })?;
        }
    }
    Ok(())
}

/// Where each use at the top stands, in the order of `cm_wit_projects::named_in`. Refused only
/// where there is no memory.
pub fn top_places(alloc: Global, units: &[Unit<'_>]) -> Result<Vec<PathPlace>, AllocError> {
    let mut out = Vec::new(alloc);
    for (number, unit) in units.iter().enumerate() {
        add_places(&mut out, number, &unit.items)?;
    }
    Ok(out)
}
