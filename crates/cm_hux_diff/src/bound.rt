//! What stands for resources.

ghost use Rattle.std.specs.Prelude.{◌≡◌, ◌==◌, ℕ, None, OnOk, Some, if◌then◌else◌, map};
ghost use Rattle.std.specs.Option.{option_or};
ghost use Rattle.cm_types_arena.specs.declared.types.Types.{Types as Arena};
ghost use Rattle.cm_hux_diff.specs.Breaking.{binds, bound, marked};
ghost use Rattle.cm_hux_diff.specs.Views.{bound_in, entry_view, held_view, standing_of};

use crate::held::{Entry, Held};
use cm_types::ResourceId;
use cm_types_arena::{Replacement, Types};
use std::alloc::{AllocError, Global};
use std::collections::BTreeMap;

/// A resource of the host (0), of the new one itself (1), or one that nothing is offered for (2).
fn marked(side: u32, resource: ResourceId) -> ResourceId
    ensures { result ≡ marked side resource }
{
    ResourceId {
        component: side,
        number: resource.number,
    }
}

/// What stands for resources, by their numbers.
#[derive(Drop)]
pub(crate) struct Bound {
    numbers: BTreeMap<u64, ResourceId>,
}

impl Bound {
    /// Nothing stands for any yet.
    pub(crate) fn new(alloc: Global) -> Bound
        ensures { (n : ℕ) → bound_in result n ≡ None }
    {
        Bound {
            numbers: BTreeMap::new(alloc),
        }
    }

    /// What stands for the resource of a number, if something does.
    pub(crate) fn get(&self, number: u64) -> Option<ResourceId>
        ensures { result ≡ bound_in self.now number }
    {
        self.numbers.get(&number).copied()
    }

    /// Binds the resource of a number, unless it is bound.
    fn bind(&mut self, number: u64, by: ResourceId) -> Result<(), AllocError>
        ensures { OnOk result ((n : ℕ) → bound_in self.new n
            ≡ option_or (bound_in self.old n) (if number == n then Some by else None)) }
    {
        if self.get(number).is_none() {
            self.numbers.insert(number, by)?;
        }
        Ok(())
    }

    /// Binds the resource that is wanted to what is offered for it, unless it is bound.
    #[tactic(auto, using(crate::proofs::Bindings::noted_none))]
    fn note(&mut self, offered: &Side<'_>, held: Held) -> Result<(), AllocError>
        ensures { OnOk result ((w o : Arena) (n : ℕ) → bound_in self.new n
            ≡ option_or (bound_in self.old n)
            (binds (standing_of offered.now) (held_view w o held) n)) }
    {
        match held {
            Held::Resources(a, b) => self.bind(a.number, offered.replace(b)),
            Held::Nothing => Ok(()),
            Held::Several => Ok(()),
            Held::Sorts => Ok(()),
            Held::Funcs(_, _) => Ok(()),
            Held::Types(_, _) => Ok(()),
        }
    }

    /// Binds each resource that is wanted and not bound yet to what it is offered first.
    #[tactic(auto, using(crate::proofs::Bindings::noted_none))]
    pub(crate) fn note_all(
        &mut self,
        offered: &Side<'_>,
        entries: &[Entry],
    ) -> Result<(), AllocError>
        ensures { OnOk result ((w o : Arena) (n : ℕ) → bound_in self.new n
            ≡ option_or (bound_in self.old n)
            (bound (standing_of offered.now) (map (entry_view w o) entries.now) n)) }
    {
        for entry in entries {
            self.note(offered, entry.held)?;
        }
        Ok(())
    }
}

/// The types of what is wanted, or of what is offered, and what stands for the resources in them:
/// what is bound to them, or else they themselves with a mark.
#[derive(Clone, Copy)]
pub(crate) struct Side<'a> {
    pub(crate) types: &'a Types,
    pub(crate) bound: &'a Bound,
    pub(crate) mark: u32,
}

impl<'a> Replacement for Side<'a> {
    ghost use Rattle.cm_hux_diff.specs.Views.{standing_of};

    ghost replacement = { standing_of };

    fn replace(&self, id: ResourceId) -> ResourceId {
        match self.bound.get(id.number) {
            Some(by) => by,
            None => marked(self.mark, id),
        }
    }
}
