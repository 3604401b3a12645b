//! The resources that appear in the text of a signature before a line of it.

ghost use Rattle.std.specs.Prelude.{◌≡◌, ◌<◌, length, true};
ghost use Rattle.cm_types_arena.specs.Places.{funcs_of, types_of};
ghost use Rattle.cm_types_arena.specs.Instances.{are_items_there};
ghost use Rattle.cm_types_arena.specs.Listed.{are_in, is_desc_in, is_item_in};
ghost use Rattle.cm_types_arena.specs.Shared.{are_shared_items_there};

use crate::blocks::Side;
use crate::spots::{Spot, list_of};
use cm_tool_show::{Counting, MAX_SHOWN, Page, ShowFault};
use cm_types::{ResourceId, TypeNode};
use cm_types_arena::{Desc, Externs, Item, ItemDesc, Items, Move, SharedItem, Signature, Types};
use std::alloc::Global;

/// An empty page on which resources are counted, and how many items and types were gone through.
#[derive(Drop)]
pub(crate) struct Counted {
    pub page: Page,
    steps: usize,
}

impl Counted {
    /// Nothing was gone through yet.
    pub(crate) fn new(alloc: Global) -> Counted {
        Counted {
            page: Page::new(alloc),
            steps: 0,
        }
    }

    /// One more item or type, each of which has some bytes in the text: `TooLong` comes only where
    /// the text is too long.
    fn step(&mut self) -> Result<(), ShowFault> {
        if self.steps >= MAX_SHOWN {
            return Err(ShowFault::TooLong);
        }
        self.steps += 1;
        Ok(())
    }
}

/// Counts what appears before a line. No name is read again for each import or export that has it.
pub(crate) fn count_before(
    counted: &mut Counted,
    signature: &Signature,
    spot: Spot,
) -> Result<(), ShowFault> {
    let types = signature.types();
    if spot.side == Side::Exports {
        let imports = signature.imports();
        count_externs(counted, types, imports, imports.len())?;
    }
    let externs = list_of(signature, spot.side);
    count_externs(counted, types, externs, spot.place)?;
    let (Some(number), Some(each)) = (spot.item, externs.at(spot.place)) else {
        return Ok(());
    };
    count_desc(counted, types, each.desc, number)
}

/// Counts the resources of so many imports or exports.
fn count_externs(
    counted: &mut Counted,
    types: &Types,
    externs: &Externs,
    count: usize,
) -> Result<(), ShowFault>
    requires { are_in types.now externs.now ≡ true }
{
    for place in 0..count {
        let Some(each) = externs.at(place) else {
            return Ok(());
        };
        count_desc(counted, types, each.desc, usize::MAX)?;
    }
    Ok(())
}

/// Counts the resources of a function, or of so many items of an instance.
fn count_desc(
    counted: &mut Counted,
    types: &Types,
    desc: Desc<'_>,
    count: usize,
) -> Result<(), ShowFault>
    requires { is_desc_in types.now desc ≡ true }
{
    counted.step()?;
    match desc {
        Desc::Func(placed) => count_func(
            counted,
            types,
            placed.place,
            Counting::new(placed.by, None),
        ),
        Desc::Instance(Items::OfComponent { list, by }) => {
            count_items(counted, types, list, by, count)
        }
        Desc::Instance(Items::OfWorld(shared)) => {
            count_shared(counted, types, &shared.items, count)
        }
    }
}

/// Counts the resources of so many items that an import or an export brings so.
#[tactic(auto, using(crate::proofs::There::there_laws))]
fn count_items(
    counted: &mut Counted,
    types: &Types,
    items: &[Item],
    brought: Option<Move>,
    count: usize,
) -> Result<(), ShowFault>
    requires { are_items_there (length (types_of types.now)) (length (funcs_of types.now))
        items.now ≡ true }
{
    for (place, item) in items.iter().enumerate() {
        if place == count {
            return Ok(());
        }
        count_item(counted, types, item.desc, brought)?;
    }
    Ok(())
}

/// Counts the resources of so many items of a world's instance.
#[tactic(auto, using(crate::proofs::There::there_laws))]
fn count_shared(
    counted: &mut Counted,
    types: &Types,
    items: &[SharedItem],
    count: usize,
) -> Result<(), ShowFault>
    requires { are_shared_items_there (length (types_of types.now)) (length (funcs_of types.now))
        items.now ≡ true }
{
    for (place, item) in items.iter().enumerate() {
        if place == count {
            return Ok(());
        }
        count_item(counted, types, item.desc, None)?;
    }
    Ok(())
}

/// Counts the resources of an item that an import or an export brings so.
fn count_item(
    counted: &mut Counted,
    types: &Types,
    desc: ItemDesc,
    brought: Option<Move>,
) -> Result<(), ShowFault>
    requires { is_item_in types.now desc ≡ true }
{
    counted.step()?;
    match desc {
        ItemDesc::Func(placed) => count_func(
            counted,
            types,
            placed.place,
            Counting::new(placed.by, brought),
        ),
        ItemDesc::EqualType(placed) => count_type(
            counted,
            types,
            placed.place,
            Counting::new(placed.by, brought),
        ),
        ItemDesc::EqualResource(number) | ItemDesc::FreshResource(number) => {
            let id = ResourceId {
                component: 0,
                number,
            };
            let id = Counting::new(None, brought).resource(id);
            counted.page.count_resource(id)
        }
    }
}

/// Counts the resources of the type of a function: of its parameters, and of its result.
#[tactic(auto, using(crate::proofs::There::there_laws))]
fn count_func(
    counted: &mut Counted,
    types: &Types,
    place: usize,
    by: Counting,
) -> Result<(), ShowFault>
    requires { place < length (funcs_of types.now) }
{
    for param in types.func_params(place) {
        count_type(counted, types, *param, by)?;
    }
    match types.func_result(place) {
        None => Ok(()),
        Some(result) => count_type(counted, types, result, by),
    }
}

/// Counts the resources of a type.
#[tactic(auto, using(crate::proofs::There::there_laws))]
fn count_type(
    counted: &mut Counted,
    types: &Types,
    place: usize,
    by: Counting,
) -> Result<(), ShowFault>
    requires { place < length (types_of types.now) }
{
    counted.step()?;
    match types.node(place) {
        TypeNode::Own(id) | TypeNode::Borrow(id) => counted.page.count_resource(by.resource(*id)),
        _ => {
            for part in types.parts(place) {
                count_type(counted, types, *part, by)?;
            }
            Ok(())
        }
    }
}
