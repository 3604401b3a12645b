//! Signatures of what was gathered of components.

ghost use Rattle.std.specs.Prelude.{◌≡◌};
ghost use Rattle.cm_types_arena.specs.Externs.{are_externs_in, is_extern_there};
ghost use Rattle.cm_types_arena.specs.Instances.{are_items_there, is_desc_there};

use crate::fault::Fault;
use cm_stubs::StubFault;
use cm_types_arena::{
    Extern, ExternDesc, Externs, Item, ItemDesc, NumberedExterns, Signature, Types,
};
use std::alloc::Global;

/// The signature of a component that imports and exports this, with types of this arena. That their
/// places are there is seen to: the fault does not come.
pub(crate) fn gathered(
    alloc: Global,
    types: Types,
    imports: Vec<Extern>,
    exports: Vec<Extern>,
) -> Result<Signature, Fault> {
    if !are_there(&types, &imports) || !are_there(&types, &exports) {
        return Err(Fault::Stub(StubFault::NotExact));
    }
    Ok(Signature::new(
        types,
        Externs::OfComponent(NumberedExterns::unnumbered(alloc, imports)),
        Externs::OfComponent(NumberedExterns::unnumbered(alloc, exports)),
    ))
}

/// Whether all places are in the arena.
fn are_there(types: &Types, externs: &[Extern]) -> bool
    ensures { result ≡ are_externs_in types.now externs.now }
{
    let (types, funcs) = (types.len(), types.func_count());
    externs
        .iter()
        .all(|each| is_there(types, funcs, &each.desc))
}

fn is_there(types: usize, funcs: usize, desc: &ExternDesc) -> bool
    ensures { result ≡ is_extern_there types funcs desc.now }
{
    match desc {
        ExternDesc::Func(placed) => placed.is_there(funcs),
        ExternDesc::Instance { ty, .. } => are_items_there(types, funcs, &ty.items),
    }
}

fn are_items_there(types: usize, funcs: usize, items: &[Item]) -> bool
    ensures { result ≡ are_items_there types funcs items.now }
{
    items
        .iter()
        .all(|item| is_item_there(types, funcs, item.desc))
}

fn is_item_there(types: usize, funcs: usize, desc: ItemDesc) -> bool
    ensures { result ≡ is_desc_there types funcs desc }
{
    match desc {
        ItemDesc::Func(placed) => placed.is_there(funcs),
        ItemDesc::EqualType(placed) => placed.is_there(types),
        ItemDesc::EqualResource(_) | ItemDesc::FreshResource(_) => true,
    }
}
