//! The declarations of the instances of a world.

ghost use Rattle.std.specs.Prelude.{◌≡◌, ◌++◌, IfOk, OnOk, map};
ghost use Rattle.std.specs.List.{flat_map};
ghost use Rattle.std.specs.Option.{option_and_then};
ghost use Rattle.cm_wit_reading.specs.SignatureViews.{path_tree};
ghost use Rattle.cm_wit_reading.specs.Views.{interface_item_tree, used_name_tree};
ghost use Rattle.cm_wit_worlds.specs.Interfaces as spec;
ghost use Rattle.cm_wit_worlds.specs.InterfaceViews.{files_of, placed_interface};
ghost use Rattle.cm_wit_tables.specs.Worlds.{declarations, instance_declarations};
ghost use Rattle.cm_wit_tables.specs.Worlds.{item_declarations, used_as};
ghost use Rattle.cm_wit_tables.specs.Worlds.{used_place};
ghost use Rattle.cm_wit_tables.specs.DeclaredViews.{declaration_view, instance_view};
ghost use Rattle.cm_wit_tables.specs.InstanceKeys.{brought_from};
ghost use Rattle.cm_wit_tables.specs.Placings.{instances_in};

use crate::declarations::{Declaration, Declared, Instance};
use crate::placing::Placing;
use cm_wit_reading::{InterfaceItem, Path, UsedName};
use cm_wit_worlds::{Directory, PlacedInterface};
use std::alloc::{AllocError, Global};

/// Where an instance stands: on which side, at which place among the instances, and in the package
/// at which place.
#[derive(Clone, Copy)]
struct Spot {
    exported: bool,
    list: usize,
    place: usize,
}

/// The name that a used type gets.
fn used_as(used: &UsedName) -> &str
    ensures { result.now ≡ used_as (used_name_tree used.now) }
{
    match &used.new_name {
        Some(new) => new.as_str(),
        None => used.name.as_str(),
    }
}

/// A used type, in the list of this number, of the list that has it, if there is one.
fn brought_from(list: usize, from: Option<usize>, used: &UsedName) -> Declaration<'_>
    ensures { declaration_view result ≡ brought_from list from (used_name_tree used.now) }
{
    let key = match from {
        Some(number) => Some((number, used.name.as_str())),
        None => None,
    };
    Declaration {
        in_list: list,
        name: used_as(used),
        is: Declared::Brought(key),
    }
}

/// Adds used types.
#[tactic(auto, using(crate::proofs::ListLaws::list_laws))]
fn add_used<'a>(
    out: &mut Vec<Declaration<'a>>,
    list: usize,
    from: Option<usize>,
    names: &'a [UsedName],
) -> Result<(), AllocError>
    ensures { OnOk result (map declaration_view out.new.items ≡ map declaration_view out.old.items
        ++ map (brought_from list from) (map used_name_tree names.now)) }
{
    for used in names {
        out.push(brought_from(list, from, used))?;
    }
    Ok(())
}

/// Where the types are to which a path leads that stands in an instance at this spot.
fn used_list<'a>(
    alloc: Global,
    directory: &Directory<'a>,
    placing: &Placing<'_>,
    spot: Spot,
    path: &Path,
) -> Result<Option<usize>, AllocError>
    ensures { IfOk result (λ l. l
        ≡ option_and_then (used_place (instances_in placing.now) spot.exported)
        (spec.target (files_of directory.now.files.items) spot.place (path_tree path.now))) }
{
    match directory.target(alloc, spot.place, path)? {
        Some(interface) => Ok(placing.used_place(spot.exported, interface)),
        None => Ok(None),
    }
}

/// Adds what an item declares.
fn add_item<'a>(
    alloc: Global,
    directory: &Directory<'a>,
    placing: &Placing<'_>,
    spot: Spot,
    item: &'a InterfaceItem,
    out: &mut Vec<Declaration<'a>>,
) -> Result<(), AllocError>
    ensures { OnOk result (map declaration_view out.new.items ≡ map declaration_view out.old.items
        ++ item_declarations (files_of directory.now.files.items) (instances_in placing.now)
        spot.exported spot.list spot.place (interface_item_tree item.now)) }
{
    match item {
        InterfaceItem::Use(used) => {
            let from = used_list(alloc, directory, placing, spot, &used.path)?;
            add_used(out, spot.list, from, &used.names)?;
        }
        InterfaceItem::Type(name, definition) => out.push(Declaration {
            in_list: spot.list,
            name: name.as_str(),
            is: Declared::Defined(definition),
        })?,
        InterfaceItem::Func(_, _) => {}
    }
    Ok(())
}

/// Adds what items declare.
#[tactic(auto, using(crate::proofs::ListLaws::list_laws))]
fn add_items<'a>(
    alloc: Global,
    directory: &Directory<'a>,
    placing: &Placing<'_>,
    spot: Spot,
    items: &'a [InterfaceItem],
    out: &mut Vec<Declaration<'a>>,
) -> Result<(), AllocError>
    ensures { OnOk result (map declaration_view out.new.items ≡ map declaration_view out.old.items
        ++ flat_map (item_declarations (files_of directory.now.files.items)
        (instances_in placing.now) spot.exported spot.list spot.place)
        (map interface_item_tree items.now)) }
{
    for item in items {
        add_item(alloc, directory, placing, spot, item, out)?;
    }
    Ok(())
}

/// Adds what the instance at a place declares.
fn add_instance<'a>(
    alloc: Global,
    directory: &Directory<'a>,
    interfaces: &[PlacedInterface<'a>],
    placing: &Placing<'_>,
    list: usize,
    instance: Instance,
    out: &mut Vec<Declaration<'a>>,
) -> Result<(), AllocError>
    requires { map placed_interface interfaces.now
        ≡ spec.interfaces (files_of directory.now.files.items) }
    ensures { OnOk result (map declaration_view out.new.items ≡ map declaration_view out.old.items
        ++ instance_declarations (files_of directory.now.files.items) (instances_in placing.now)
        list (instance_view instance)) }
{
    if let Some(placed) = interfaces.get(instance.interface) {
        let spot = Spot {
            exported: instance.exported,
            list,
            place: placed.place,
        };
        add_items(
            alloc,
            directory,
            placing,
            spot,
            &placed.interface.items,
            out,
        )?;
    }
    Ok(())
}

/// The types that these instances of a world declare, in order, of packages whose interfaces are
/// these: what each uses and defines, in the order of its interface's text (WIT.md, "Item: `use`"
/// and "Item: `type`"). It takes time linear in the packages' texts. Refused only where there is no
/// memory.
#[tactic(auto, using(crate::proofs::ListLaws::list_laws))]
pub fn declarations_of<'a>(
    alloc: Global,
    directory: &Directory<'a>,
    interfaces: &[PlacedInterface<'a>],
    instances: &[Instance],
) -> Result<Vec<Declaration<'a>>, AllocError>
    requires { map placed_interface interfaces.now
        ≡ spec.interfaces (files_of directory.now.files.items) }
    ensures { IfOk result (λ v. map declaration_view v.items
        ≡ declarations (files_of directory.now.files.items) (map instance_view instances.now)) }
{
    let placing = Placing::new(alloc, instances)?;
    let mut out = Vec::new(alloc);
    for (list, instance) in instances.iter().enumerate() {
        add_instance(
            alloc, directory, interfaces, &placing, list, *instance, &mut out,
        )?;
    }
    Ok(out)
}
