//! What interfaces use.

use crate::directory::Directory;
use crate::placed::PlacedInterface;
use cm_wit_reading::InterfaceItem;
use std::alloc::{AllocError, Global};

impl<'a> Directory<'a> {
    ghost use Rattle.std.specs.Prelude.{◌≡◌, ◌++◌, IfOk, OnOk, map};
    ghost use Rattle.cm_wit_worlds.specs.Interfaces.{use_targets};
    ghost use Rattle.cm_wit_worlds.specs.InterfaceViews.{files_of, placed_interface};

    /// The interfaces that an interface uses, in the order of its text, and none for a path that
    /// leads to none. Refused only where there is no memory.
    #[tactic(auto, using(crate::proofs::KeyingLaws::use_laws))]
    pub fn use_targets(
        &self,
        alloc: Global,
        placed: &PlacedInterface<'a>,
    ) -> Result<Vec<Option<usize>>, AllocError>
        ensures { IfOk result (λ v. v.items
            ≡ use_targets (files_of self.now.files.items) (placed_interface placed.now)) }
    {
        let mut targets = Vec::new(alloc);
        for item in &placed.interface.items {
            if let InterfaceItem::Use(used) = item {
                targets.push(self.target(alloc, placed.place, &used.path)?)?;
            }
        }
        Ok(targets)
    }

    /// The interfaces that each of these uses, in the order of its text. Refused only where there
    /// is no memory.
    #[tactic(auto, using(crate::proofs::KeyingLaws::map_laws))]
    pub fn uses(
        &self,
        alloc: Global,
        interfaces: &[PlacedInterface<'a>],
    ) -> Result<Vec<Vec<Option<usize>>>, AllocError>
        ensures { IfOk result (λ v. map (λ r. r.items) v.items
            ≡ map (use_targets (files_of self.now.files.items))
            (map placed_interface interfaces.now)) }
    {
        let mut uses = Vec::new(alloc);
        for placed in interfaces {
            uses.push(self.use_targets(alloc, placed)?)?;
        }
        Ok(uses)
    }
}
