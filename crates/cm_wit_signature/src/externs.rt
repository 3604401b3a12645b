//! Imports and exports.

ghost use Rattle.std.specs.Prelude.{◌≡◌, ◌≤◌, ◌+◌, ◌<◌, ◌^◌, ◌∷◌, ℕ, List, Some, true};
ghost use Rattle.std.specs.Prelude.{IfOk, IfErr, OnOk, length, slice_get};
ghost use Rattle.std.specs.List.{flat_map};
ghost use Rattle.cm_types_arena.specs.Places.{funcs_of, types_of};
ghost use Rattle.cm_types_arena.specs.Shared.{is_shared_there, shared_externs_of};
ghost use Rattle.cm_wit_reading.specs.Views.{file_tree};
ghost use Rattle.cm_wit_worlds.specs.InterfaceViews.{placed_interface};
ghost use Rattle.cm_wit_meanings.specs.Places.{ArePlaced, Extends};
ghost use Rattle.cm_wit_signature.specs.ItemFaults.{AreWithin, IsFaultWith};
ghost use Rattle.cm_wit_signature.specs.Functions.{extern_funcs};
ghost use Rattle.cm_wit_signature.specs.Own.{AreOwn};
ghost use Rattle.cm_wit_signature.specs.Signatures.{externs_from, func_extern};
ghost use Rattle.cm_wit_signature.specs.Signatures.{interface_extern};
ghost use Rattle.cm_wit_signature.specs.Adding.{Adds, AreExternsFault, AreExternsWithin, behind};
ghost use Rattle.cm_wit_signature.specs.PackageFronts.{HavePackages};
ghost use Rattle.cm_wit_signature.specs.PartViews.{are_made_there, extern_made, externs_made};
ghost use Rattle.cm_wit_signature.specs.PartViews.{files_in, interfaces_in, own_func_view};
ghost use Rattle.cm_wit_signature.specs.PartViews.{scopes_in, world_in};

use crate::item_laws::{items_stay, tables_stay};
use crate::items::push_items;
use crate::package_fronts;
use crate::parts::{OwnFunc, Parts};
use cm_types_arena::placed_laws::unmoved;
use cm_types_arena::{Placed, SharedDesc, SharedExtern, SharedExterns, SharedName, Types};
use cm_wit_meanings::{MeaningFault, push_func};
use cm_wit_worlds::PlacedInterface;
use std::alloc::Global;

/// Adds the types of the instance of an interface whose names are those of a list, and answers it.
fn push_instance(
    alloc: Global,
    types: &mut Types,
    parts: &Parts<'_, '_>,
    list: usize,
    placed: &PlacedInterface<'_>,
) -> Result<SharedExtern, MeaningFault>
    requires placed { ArePlaced (length (types_of types.old)) parts.now.table.now }
    requires own { (l : ℕ) → AreOwn (scopes_in (types_of types.old) parts.now l) }
    requires package { slice_get (files_in parts.now) placed.now.place
        ≡ Some (file_tree placed.now.file.now) }
    ensures is { IfOk result (λ e.
        interface_extern (scopes_in (types_of types.old) parts.now list)
        (placed_interface placed.now)
        ≡ Some (extern_made parts.now types.new e)) }
    ensures there { IfOk result (λ e. is_shared_there (length (types_of types.new))
        (length (funcs_of types.new)) e.desc ≡ true) }
    ensures within { IfOk result
        (λ e. AreWithin (extern_funcs (extern_made parts.now types.new e))) }
    ensures fault { IfErr result (IsFaultWith extern_funcs (interface_extern
        (scopes_in (types_of types.old) parts.now list) (placed_interface placed.now))) }
    ensures grown { Extends (types_of types.old) (types_of types.new) }
    ensures funcs { Extends (funcs_of types.old) (funcs_of types.new) }
{
    unmoved();
    let scope = parts.scope(list);
    let items = push_items(alloc, types, &scope, placed.interface)?;
    let front = parts.front_at(placed.place);
    let back = placed.interface.name.clone()?;
    Ok(SharedExtern {
        name: SharedName { front, back },
        desc: SharedDesc::Instance(items),
    })
}

/// Adds the types of a function of the world itself, and answers it.
fn push_own_func(
    alloc: Global,
    types: &mut Types,
    parts: &Parts<'_, '_>,
    own: OwnFunc<'_>,
) -> Result<SharedExtern, MeaningFault>
    requires placed { ArePlaced (length (types_of types.old)) parts.now.table.now }
    ensures is { IfOk result (λ e.
        func_extern (scopes_in (types_of types.old) parts.now parts.now.own)
        (own_func_view own.entry) ≡ Some (extern_made parts.now types.new e)) }
    ensures there { IfOk result (λ e. is_shared_there (length (types_of types.new))
        (length (funcs_of types.new)) e.desc ≡ true) }
    ensures within { IfOk result
        (λ e. AreWithin (extern_funcs (extern_made parts.now types.new e))) }
    ensures fault { IfErr result (IsFaultWith extern_funcs (func_extern
        (scopes_in (types_of types.old) parts.now parts.now.own) (own_func_view own.entry))) }
    ensures grown { Extends (types_of types.old) (types_of types.new) }
    ensures funcs { Extends (funcs_of types.old) (funcs_of types.new) }
{
    unmoved();
    let scope = parts.scope(parts.own);
    let place = push_func(alloc, types, &scope, own.func)?;
    let back = own.name.clone()?;
    Ok(SharedExtern {
        name: SharedName { front: 0, back },
        desc: SharedDesc::Func(Placed::at(place)),
    })
}

/// Adds the instance of an interface to others.
fn add_instance(
    alloc: Global,
    types: &mut Types,
    parts: &Parts<'_, '_>,
    list: usize,
    number: usize,
    out: &mut Vec<SharedExtern>,
) -> Result<(), MeaningFault>
    requires placed { ArePlaced (length (types_of types.old)) parts.now.table.now }
    requires own { (l : ℕ) → AreOwn (scopes_in (types_of types.old) parts.now l) }
    requires packages { HavePackages (files_in parts.now) (interfaces_in parts.now) }
    requires number { number < length parts.now.sources.interfaces.now }
    requires there { are_made_there types.old out.old.items ≡ true }
    requires within { AreExternsWithin (externs_made parts.now types.old out.old.items) }
    ensures adds { OnOk result (Adds (interfaces_in parts.now) (world_in parts.now)
        (scopes_in (types_of types.old) parts.now) parts.now.own number list (list + 1)
        (externs_made parts.now types.old out.old.items)
        (externs_made parts.now types.new out.new.items)) }
    ensures there { OnOk result (are_made_there types.new out.new.items ≡ true) }
    ensures within { OnOk result
        (AreExternsWithin (externs_made parts.now types.new out.new.items)) }
    ensures fault { (ns : List ℕ) → IfErr result (AreExternsFault
        (behind (externs_made parts.now types.old out.old.items)
        (externs_from (interfaces_in parts.now) (world_in parts.now)
        (scopes_in (types_of types.old) parts.now) parts.now.own list (number ∷ ns)))) }
    ensures grown { Extends (types_of types.old) (types_of types.new) }
    ensures funcs { Extends (funcs_of types.old) (funcs_of types.new) }
{
    items_stay();
    let instance = push_instance(alloc, types, parts, list, &parts.sources.interfaces[number])?;
    if out.push(instance).is_err() {
        return Err(MeaningFault::Memory);
    }
    Ok(())
}

/// Adds the function that an item of the world has to others, if it has one.
fn add_own_func(
    alloc: Global,
    types: &mut Types,
    parts: &Parts<'_, '_>,
    list: usize,
    number: usize,
    out: &mut Vec<SharedExtern>,
) -> Result<(), MeaningFault>
    requires placed { ArePlaced (length (types_of types.old)) parts.now.table.now }
    requires number { length parts.now.sources.interfaces.now ≤ number }
    requires there { are_made_there types.old out.old.items ≡ true }
    requires within { AreExternsWithin (externs_made parts.now types.old out.old.items) }
    ensures adds { OnOk result (Adds (interfaces_in parts.now) (world_in parts.now)
        (scopes_in (types_of types.old) parts.now) parts.now.own number list list
        (externs_made parts.now types.old out.old.items)
        (externs_made parts.now types.new out.new.items)) }
    ensures there { OnOk result (are_made_there types.new out.new.items ≡ true) }
    ensures within { OnOk result
        (AreExternsWithin (externs_made parts.now types.new out.new.items)) }
    ensures fault { (ns : List ℕ) → IfErr result (AreExternsFault
        (behind (externs_made parts.now types.old out.old.items)
        (externs_from (interfaces_in parts.now) (world_in parts.now)
        (scopes_in (types_of types.old) parts.now) parts.now.own list (number ∷ ns)))) }
    ensures grown { Extends (types_of types.old) (types_of types.new) }
    ensures funcs { Extends (funcs_of types.old) (funcs_of types.new) }
{
    items_stay();
    if let Some(own) = parts.func_at(number - parts.sources.interfaces.len()) {
        let func = push_own_func(alloc, types, parts, own)?;
        if out.push(func).is_err() {
            return Err(MeaningFault::Memory);
        }
    }
    Ok(())
}

/// Adds what a number stands for to others, and answers the number of the list of names of the next
/// instance.
fn add_number(
    alloc: Global,
    types: &mut Types,
    parts: &Parts<'_, '_>,
    list: usize,
    number: usize,
    out: &mut Vec<SharedExtern>,
) -> Result<usize, MeaningFault>
    requires placed { ArePlaced (length (types_of types.old)) parts.now.table.now }
    requires own { (l : ℕ) → AreOwn (scopes_in (types_of types.old) parts.now l) }
    requires packages { HavePackages (files_in parts.now) (interfaces_in parts.now) }
    requires list { list + 1 < 2 ^ 64 }
    requires there { are_made_there types.old out.old.items ≡ true }
    requires within { AreExternsWithin (externs_made parts.now types.old out.old.items) }
    ensures adds { IfOk result (λ next. Adds (interfaces_in parts.now) (world_in parts.now)
        (scopes_in (types_of types.old) parts.now) parts.now.own number list next
        (externs_made parts.now types.old out.old.items)
        (externs_made parts.now types.new out.new.items)) }
    ensures next { IfOk result (λ next. next ≤ list + 1) }
    ensures there { OnOk result (are_made_there types.new out.new.items ≡ true) }
    ensures within { OnOk result
        (AreExternsWithin (externs_made parts.now types.new out.new.items)) }
    ensures fault { (ns : List ℕ) → IfErr result (AreExternsFault
        (behind (externs_made parts.now types.old out.old.items)
        (externs_from (interfaces_in parts.now) (world_in parts.now)
        (scopes_in (types_of types.old) parts.now) parts.now.own list (number ∷ ns)))) }
    ensures grown { Extends (types_of types.old) (types_of types.new) }
    ensures funcs { Extends (funcs_of types.old) (funcs_of types.new) }
{
    if number < parts.sources.interfaces.len() {
        add_instance(alloc, types, parts, list, number, out)?;
        Ok(list + 1)
    } else {
        add_own_func(alloc, types, parts, list, number, out)?;
        Ok(list)
    }
}

/// Adds the types of imports or exports, and answers these, in order. They are given by numbers: an
/// interface by its own, and the function of the world's item j by j and the number of all
/// interfaces. The names of the first instance are those of the list `first`.
///
/// Their names share the fronts of the packages. Faults come as those of
/// `crate::items::push_items` and `cm_wit_meanings::push_func`. It costs what `package_fronts`
/// does, the texts' own length and a look-up for each of their names.
pub fn push_externs(
    alloc: Global,
    types: &mut Types,
    parts: &Parts<'_, '_>,
    first: usize,
    numbers: &[usize],
) -> Result<SharedExterns, MeaningFault>
    requires placed { ArePlaced (length (types_of types.old)) parts.now.table.now }
    requires own { (l : ℕ) → AreOwn (scopes_in (types_of types.old) parts.now l) }
    requires packages { HavePackages (files_in parts.now) (interfaces_in parts.now) }
    requires first { first < 2 ^ 63 }
    ensures externs { IfOk result (λ v. externs_from (interfaces_in parts.now) (world_in parts.now)
        (scopes_in (types_of types.old) parts.now) parts.now.own first numbers.now
        ≡ Some (shared_externs_of (types_of types.new) (funcs_of types.new) v)) }
    ensures there { IfOk result (λ v. are_made_there types.new v.externs.items ≡ true) }
    ensures within { IfOk result (λ v. AreWithin (flat_map extern_funcs
        (shared_externs_of (types_of types.new) (funcs_of types.new) v))) }
    ensures fault { IfErr result (AreExternsFault
        (externs_from (interfaces_in parts.now) (world_in parts.now)
        (scopes_in (types_of types.old) parts.now) parts.now.own first numbers.now)) }
    ensures grown { Extends (types_of types.old) (types_of types.new) }
    ensures funcs { Extends (funcs_of types.old) (funcs_of types.new) }
{
    tables_stay();
    let fronts = package_fronts(alloc, parts.sources.files)?;
    let mut list = first;
    let mut externs = Vec::new(alloc);
    for number in numbers {
        list = add_number(alloc, types, parts, list, *number, &mut externs)?;
    }
    Ok(SharedExterns { fronts, externs })
}
