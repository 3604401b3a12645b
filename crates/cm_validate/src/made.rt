//! The types of exported instances, each made once.

ghost use Rattle.std.specs.Prelude.{◌≡◌, ℕ, IfOk, List, true};
ghost use Rattle.cm_types.specs.Types.{FuncTy, Ty};
ghost use Rattle.cm_types_arena.specs.Instances.{are_items_there, items_of};
ghost use Rattle.cm_validate_model.specs.Spaces.{items_of_members};
ghost use Rattle.cm_validate_entries.specs.Entries.{are_members_there, members_of};

use crate::items::instance_items;
use cm_types_arena::InstanceType;
use cm_validate_entries::InstanceEntry;
use std::alloc::{AllocError, Global};
use std::collections::BTreeMap;
use std::rc::Rc;

/// The types that were made of instances, by the numbers of these.
#[derive(Drop)]
pub(crate) struct Made {
    types: BTreeMap<usize, Rc<InstanceType>>,
}

/// A new type of an instance that is exported: it brings no resource.
fn new_type(alloc: Global, instance: &InstanceEntry<'_>) -> Result<Rc<InstanceType>, AllocError>
    ensures are { IfOk result (λ t. (types : List Ty) (funcs : List FuncTy)
        → items_of types funcs t.value.items.items
        ≡ items_of_members (members_of types funcs instance.now)) }
    ensures there { IfOk result (λ t. (types funcs : ℕ)
        → are_members_there types funcs instance.now ≡ true
        → are_items_there types funcs t.value.items.items ≡ true) }
{
    let items = instance_items(alloc, instance)?;
    let ty = InstanceType {
        items,
        first: 0,
        fresh: 0,
    };
    Ok(Rc::new(alloc, ty)?)
}

impl Made {
    ghost use Rattle.std.specs.Prelude.{OnOk};
    ghost use Rattle.cm_validate_model.specs.Spaces.{Spaces};
    ghost use Rattle.cm_validate_entries.specs.declared.spaces.ExportedEntry.TheVariants as export;
    ghost use Rattle.cm_validate.specs.Made.{AreMade, InEachArena, IsTypeOf};

    /// No items were made yet.
    pub(crate) fn new(alloc: Global) -> Made
        ensures { (types : List Ty) (funcs : List FuncTy) (s : Spaces)
            → AreMade types funcs s result }
    {
        Made {
            types: BTreeMap::new(alloc),
        }
    }

    /// The type of an instance of this number, if it has one: the one that was made already, or a
    /// new one.
    pub(crate) fn instance_type(
        &mut self,
        alloc: Global,
        number: Option<usize>,
        instance: &InstanceEntry<'_>,
    ) -> Result<Rc<InstanceType>, AllocError>
        ensures is { IfOk result (λ t. InEachArena self.old number (export.Instance instance.now)
            (λ types funcs s. IsTypeOf types funcs (members_of types funcs instance.now) t.value)) }
        ensures made { OnOk result (InEachArena self.old number (export.Instance instance.now)
            (λ types funcs s. AreMade types funcs s self.new)) }
    {
        let Some(number) = number else {
            return new_type(alloc, instance);
        };
        if let Some(ty) = self.types.get(&number) {
            return ty.clone();
        }
        let ty = new_type(alloc, instance)?;
        self.types.insert(number, ty.clone()?)?;
        Ok(ty)
    }
}
