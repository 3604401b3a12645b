//! Whether imports and exports stand in an arena.

ghost use Rattle.std.specs.Prelude.{◌≡◌, length};
ghost use Rattle.std.specs.List.{list_all};
ghost use Rattle.cm_types_arena.specs.Instances.{is_desc_there};
ghost use Rattle.cm_types_arena.specs.Shared.{are_shared_externs_there, are_shared_items_there};
ghost use Rattle.cm_types_arena.specs.Shared.{is_shared_there};

use cm_types_arena::{ItemDesc, SharedDesc, SharedExtern, SharedItem};

/// Whether an item has its place among so many types, and types of functions.
fn is_item_there(types: usize, funcs: usize, desc: ItemDesc) -> bool
    ensures { result ≡ is_desc_there types funcs desc }
{
    match desc {
        ItemDesc::Func(placed) => placed.is_there(funcs),
        ItemDesc::EqualType(placed) => placed.is_there(types),
        ItemDesc::EqualResource(_) | ItemDesc::FreshResource(_) => true,
    }
}

fn are_items_there(types: usize, funcs: usize, items: &[SharedItem]) -> bool
    ensures { result ≡ are_shared_items_there types funcs items.now }
{
    items
        .iter()
        .all(|item| is_item_there(types, funcs, item.desc))
}

fn is_extern_there(types: usize, funcs: usize, desc: &SharedDesc) -> bool
    ensures { result ≡ is_shared_there types funcs desc.now }
{
    match desc {
        SharedDesc::Func(placed) => placed.is_there(funcs),
        SharedDesc::Instance(items) => are_items_there(types, funcs, &items.items),
    }
}

/// Whether imports or exports have their places among so many types, and types of functions.
pub fn are_externs_there(types: usize, funcs: usize, externs: &[SharedExtern]) -> bool
    ensures { result ≡ are_shared_externs_there types funcs externs.now }
{
    externs
        .iter()
        .all(|one| is_extern_there(types, funcs, &one.desc))
}
