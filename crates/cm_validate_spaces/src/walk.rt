//! The walk over a component's sections, to the first fault.

ghost use Rattle.std.specs.Prelude.{◌≡◌, ◌⊎◌, IfErr, IfOk, IfSome, Some, slice_get};
ghost use Rattle.cm_binary_model.specs.Trees.{section_tree};
ghost use Rattle.cm_validate_model.specs.Items.{Item, items_of};
ghost use Rattle.cm_validate_model.specs.Spaces.{empty_spaces, spaces_of};
ghost use Rattle.cm_validate_model.specs.Valid.{IsFaultOf, IsValid};
ghost use Rattle.cm_validate_spaces.specs.IndexSpaces.{Answers, IsAt, Stands};
ghost use Rattle.cm_validate_spaces.specs.Walks.{IsFineBefore, Walks, WalksThrough};
ghost use Rattle.cm_validate_model.specs.declared.fault.ValidReason.TheVariants as reason;

use crate::IndexSpaces;
use crate::items::{add_item, item_at, item_count};
use crate::room::make_room;
use cm_binary_model::{Component, Section};
use cm_validate_model::{ValidFault, ValidReason};
use std::alloc::{AllocError, Global};

/// Adds the item of this number in a section.
fn walk_item<'a>(
    alloc: Global,
    section: &'a Section,
    number: usize,
    spaces: &mut IndexSpaces<'a>,
) -> Result<Option<ValidReason>, AllocError>
    requires { Stands spaces.old }
    ensures { IfOk result (λ r. (x : Item)
        → slice_get (items_of (section_tree section.now)) number ≡ Some x
        → Answers x spaces.old r spaces.new) }
{
    match item_at(section, number) {
        None => Ok(None),
        Some(item) => add_item(spaces, alloc, item),
    }
}

/// Adds the items of a section, up to the first fault: its number, and the least reason.
fn walk_items<'a>(
    alloc: Global,
    section: &'a Section,
    spaces: &mut IndexSpaces<'a>,
) -> Option<(usize, ValidReason)>
    requires { Stands spaces.old }
    ensures { Walks (items_of (section_tree section.now)) spaces.old result spaces.new }
{
    for number in 0..item_count(section) {
        match walk_item(alloc, section, number, spaces) {
            Ok(None) => {}
            Ok(Some(reason)) => return Some((number, reason)),
            Err(AllocError) => return Some((number, ValidReason::Memory)),
        }
    }
    None
}

/// Makes room for the items of a section, and adds them, up to the first fault.
fn walk_section<'a>(
    alloc: Global,
    section: &'a Section,
    spaces: &mut IndexSpaces<'a>,
) -> Option<(usize, ValidReason)>
    requires { Stands spaces.old }
    ensures { Walks (items_of (section_tree section.now)) spaces.old result spaces.new }
{
    match make_room(spaces, section) {
        Ok(()) => walk_items(alloc, section, spaces),
        Err(AllocError) => Some((0, ValidReason::Memory)),
    }
}

/// Adds the items of a component's sections, up to the first fault.
fn walk<'a>(
    alloc: Global,
    component: &'a Component,
    spaces: &mut IndexSpaces<'a>,
) -> Option<ValidFault>
    requires { IsAt spaces.old empty_spaces }
    ensures { WalksThrough component.now result spaces.new }
{
    for (at, section) in component.sections().iter().enumerate() {
        if let Some((item, reason)) = walk_section(alloc, section, spaces) {
            return Some(ValidFault {
                section: at,
                item,
                reason,
            });
        }
    }
    None
}

/// The index spaces of a whole component; or its fault, where it is not valid: the first section
/// with a faulty item, the first such item there, and of several reasons to refuse it the one with
/// the smallest number (Explainer.md, "Component Definitions"; this order is this project's own
/// choice). `Memory` comes where there is no memory for an item, or where the numbers of core
/// modules or resources pass what can be counted, and no item before that one is faulty; the item
/// itself may be.
pub fn index_spaces<'a>(
    alloc: Global,
    component: &'a Component,
) -> Result<IndexSpaces<'a>, ValidFault>
    ensures valid { IfOk result (λ w. IsValid component.now
        × IsAt w (spaces_of component.now)) }
    ensures fault { IfErr result (λ f.
        ((f.reason ≡ reason.Memory) × IsFineBefore component.now f.section f.item)
        ⊎ IsFaultOf component.now f.section f.item f.reason) }
{
    let Ok(mut spaces) = IndexSpaces::new(alloc) else {
        return Err(ValidFault {
            section: 0,
            item: 0,
            reason: ValidReason::Memory,
        });
    };
    match walk(alloc, component, &mut spaces) {
        None => Ok(spaces),
        Some(fault) => Err(fault),
    }
}
