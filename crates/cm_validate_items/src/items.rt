//! The type of an instance, with its items found by their names.

ghost use Rattle.std.specs.Prelude.{◌≡◌, ◌++◌, ℕ, List, IfOk, OnOk, Some, cond};
ghost use Rattle.std.specs.BTreeMap.{get_by_text};
ghost use Rattle.std.specs.Str.{bytes_eq};
ghost use Rattle.cm_validate_items.specs.Items.{AreFound, fresh_at, fresh_from};

use cm_types_arena::{InstanceType, Item, ItemDesc};
use std::alloc::{AllocError, Global};
use std::collections::BTreeMap;
use std::rc::Rc;

/// The type of an instance, made once for all imports of it: each item is found by its name, and
/// the resources that it brings by their order.
#[derive(Drop)]
pub struct InstanceItems {
    ty: Rc<InstanceType>,
    /// The number of each item, and what it is, by its name.
    named: BTreeMap<String, (usize, ItemDesc)>,
    /// The numbers of the items that bring a resource, in order.
    fresh: Vec<usize>,
    ghost are_found: { AreFound named 0 ty.value.items.items },
    ghost are_fresh: { fresh.items ≡ fresh_from 0 ty.value.items.items },
}

/// Puts an item under its name, in place of what stood there.
fn put(
    alloc: Global,
    named: &mut BTreeMap<String, (usize, ItemDesc)>,
    number: usize,
    item: &Item,
) -> Result<(), AllocError>
    ensures { OnOk result ((q : List ℕ) → get_by_text named.new q
        ≡ cond (bytes_eq item.now.name q) (Some (number, item.now.desc))
        (get_by_text named.old q)) }
{
    let key = String::from_str(alloc, item.name.as_str())?;
    named.insert(key, (number, item.desc))?;
    Ok(())
}

/// What stands under each name, the first of several under one.
fn by_name(alloc: Global, items: &[Item]) -> Result<BTreeMap<String, (usize, ItemDesc)>, AllocError>
    ensures { IfOk result (λ named. AreFound named 0 items.now) }
{
    let mut named = BTreeMap::new(alloc);
    for number in (0..items.len()).rev() {
        put(alloc, &mut named, number, &items[number])?;
    }
    Ok(named)
}

/// Adds the number of an item that brings a resource.
fn push_fresh(fresh: &mut Vec<usize>, number: usize, item: ItemDesc) -> Result<(), AllocError>
    ensures { OnOk result (fresh.new.items ≡ fresh.old.items ++ fresh_at number item) }
{
    if let ItemDesc::FreshResource(_) = item {
        fresh.push(number)?;
    }
    Ok(())
}

/// The numbers of the items that bring a resource.
fn fresh_items(alloc: Global, items: &[Item]) -> Result<Vec<usize>, AllocError>
    ensures { IfOk result (λ fresh. fresh.items ≡ fresh_from 0 items.now) }
{
    let mut fresh = Vec::new(alloc);
    for number in 0..items.len() {
        push_fresh(&mut fresh, number, items[number].desc)?;
    }
    Ok(fresh)
}

impl InstanceItems {
    ghost use Rattle.cm_validate_items.specs.InstanceTypes.{instance_type_of};
    ghost use Rattle.cm_validate_items.specs.Items.{fresh_of, item_named};

    /// The items of this type. Each name is copied once. `AllocError` comes where there is no
    /// memory for it.
    pub fn new(alloc: Global, ty: Rc<InstanceType>) -> Result<InstanceItems, AllocError>
        ensures { IfOk result (λ items. instance_type_of items ≡ ty.value) }
    {
        let named = by_name(alloc, &ty.items)?;
        let fresh = fresh_items(alloc, &ty.items)?;
        Ok(InstanceItems { ty, named, fresh })
    }

    /// The type.
    pub fn ty(&self) -> &InstanceType
        ensures { result.now ≡ instance_type_of self.now }
    {
        &self.ty
    }

    /// The type, shared. `AllocError` comes where it is shared too often to be counted.
    pub fn share_type(&self) -> Result<Rc<InstanceType>, AllocError>
        ensures { IfOk result (λ ty. ty.value ≡ instance_type_of self.now) }
    {
        self.ty.clone()
    }

    /// The number of the item of this name, from 0, and what it is; the first of several. It costs
    /// one look-up.
    pub fn find(&self, name: &str) -> Option<(usize, ItemDesc)>
        ensures { result ≡ item_named 0 (instance_type_of self.now).items.items name.now }
    {
        self.named.get(name).copied()
    }

    /// The numbers of the items that bring a resource, in order.
    pub fn fresh(&self) -> &[usize]
        ensures { result.now ≡ fresh_of (instance_type_of self.now) }
    {
        &self.fresh
    }
}
