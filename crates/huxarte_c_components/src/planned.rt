//! The parts of a plan, in order.

ghost use Rattle.std.specs.Prelude.{◌≡◌, ◌++◌, IfOk, OnOk, map};
ghost use Rattle.std.specs.List.{flat_map};
ghost use Rattle.cm_binary_model.specs.Trees.{alias_tree, arg_tree, canon_tree, core_export_tree};
ghost use Rattle.cm_binary_model.specs.Trees.{core_instance_tree, section_tree};
ghost use Rattle.huxarte_c_components.specs.Plans.{alias_parts, canon_parts, given_part};
ghost use Rattle.huxarte_c_components.specs.Plans.{instance_parts, item_part, option_part};
ghost use Rattle.huxarte_c_components.specs.Plans.{part_tree, plan_of, section_parts};

use crate::plan_part::{HuxPlanKind, Part, given_part, item_part, option_part, sort_number};
use cm_binary_model::{
    Alias, Canon, CanonOption, CoreInlineExport, CoreInstance, CoreInstantiationArg, Section,
};
use std::alloc::{AllocError, Global};

/// Adds the core instances that a core module is given.
#[tactic(auto, using(crate::proofs::ListLaws::list_laws))]
fn add_given<'a>(
    parts: &mut Vec<Part<'a>>,
    args: &'a [CoreInstantiationArg],
) -> Result<(), AllocError>
    ensures { OnOk result (map part_tree parts.new.items
        ≡ map part_tree parts.old.items ++ map given_part (map arg_tree args.now)) }
{
    for arg in args {
        parts.push(given_part(arg))?;
    }
    Ok(())
}

/// Adds what a core instance has.
#[tactic(auto, using(crate::proofs::ListLaws::list_laws))]
fn add_items<'a>(
    parts: &mut Vec<Part<'a>>,
    exports: &'a [CoreInlineExport],
) -> Result<(), AllocError>
    ensures { OnOk result (map part_tree parts.new.items
        ≡ map part_tree parts.old.items ++ map item_part (map core_export_tree exports.now)) }
{
    for export in exports {
        parts.push(item_part(export))?;
    }
    Ok(())
}

/// Adds a core instance.
fn add_instance<'a>(parts: &mut Vec<Part<'a>>, instance: &'a CoreInstance) -> Result<(), AllocError>
    ensures { OnOk result (map part_tree parts.new.items
        ≡ map part_tree parts.old.items ++ instance_parts (core_instance_tree instance.now)) }
{
    match instance {
        CoreInstance::Instantiate { module, args } => {
            let count = args.len();
            parts.push(Part::plain(HuxPlanKind::Instance, *module, count))?;
            add_given(parts, args)?;
        }
        CoreInstance::Exports(exports) => {
            let count = exports.len();
            parts.push(Part::plain(HuxPlanKind::Inline, 0, count))?;
            add_items(parts, exports)?;
        }
    }
    Ok(())
}

/// Adds core instances.
#[tactic(auto, using(crate::proofs::ListLaws::list_laws))]
fn add_instances<'a>(
    parts: &mut Vec<Part<'a>>,
    instances: &'a [CoreInstance],
) -> Result<(), AllocError>
    ensures { OnOk result (map part_tree parts.new.items ≡ map part_tree parts.old.items
        ++ flat_map instance_parts (map core_instance_tree instances.now)) }
{
    for instance in instances {
        add_instance(parts, instance)?;
    }
    Ok(())
}

/// Adds an alias, where it is of what a core instance exports.
fn add_alias<'a>(parts: &mut Vec<Part<'a>>, alias: &'a Alias) -> Result<(), AllocError>
    ensures { OnOk result (map part_tree parts.new.items
        ≡ map part_tree parts.old.items ++ alias_parts (alias_tree alias.now)) }
{
    match alias {
        Alias::CoreInstanceExport {
            sort,
            instance,
            name,
        } => parts.push(Part {
            kind: HuxPlanKind::Alias,
            index: *instance,
            sort: sort_number(*sort),
            count: 0,
            bytes: name.as_bytes(),
        })?,
        Alias::InstanceExport { .. } | Alias::OuterType(_) => {}
    }
    Ok(())
}

/// Adds aliases.
#[tactic(auto, using(crate::proofs::ListLaws::list_laws))]
fn add_aliases<'a>(parts: &mut Vec<Part<'a>>, aliases: &'a [Alias]) -> Result<(), AllocError>
    ensures { OnOk result (map part_tree parts.new.items ≡ map part_tree parts.old.items
        ++ flat_map alias_parts (map alias_tree aliases.now)) }
{
    for alias in aliases {
        add_alias(parts, alias)?;
    }
    Ok(())
}

/// Adds the options of a canonical definition.
fn add_options<'a>(parts: &mut Vec<Part<'a>>, options: &[CanonOption]) -> Result<(), AllocError>
    ensures { OnOk result (map part_tree parts.new.items
        ≡ map part_tree parts.old.items ++ map option_part options.now) }
{
    for option in options {
        parts.push(option_part(*option))?;
    }
    Ok(())
}

/// Adds a canonical definition with its options.
fn add_canon<'a>(parts: &mut Vec<Part<'a>>, canon: &Canon) -> Result<(), AllocError>
    ensures { OnOk result (map part_tree parts.new.items
        ≡ map part_tree parts.old.items ++ canon_parts (canon_tree canon.now)) }
{
    let (kind, index, options) = match canon {
        Canon::Lift {
            core_func,
            options,
            ..
        } => (HuxPlanKind::Lift, *core_func, options.as_slice()),
        Canon::Lower { func, options } => (HuxPlanKind::Lower, *func, options.as_slice()),
        Canon::ResourceNew { resource } => (HuxPlanKind::New, *resource, &[][..]),
        Canon::ResourceDrop { resource } => (HuxPlanKind::Drop, *resource, &[][..]),
        Canon::ResourceRep { resource } => (HuxPlanKind::Represent, *resource, &[][..]),
    };
    parts.push(Part::plain(kind, index, options.len()))?;
    add_options(parts, options)
}

/// Adds canonical definitions.
#[tactic(auto, using(crate::proofs::ListLaws::list_laws))]
fn add_canons<'a>(parts: &mut Vec<Part<'a>>, canons: &'a [Canon]) -> Result<(), AllocError>
    ensures { OnOk result (map part_tree parts.new.items
        ≡ map part_tree parts.old.items ++ flat_map canon_parts (map canon_tree canons.now)) }
{
    for canon in canons {
        add_canon(parts, canon)?;
    }
    Ok(())
}

/// Adds what a section defines for an engine.
fn add_section<'a>(parts: &mut Vec<Part<'a>>, section: &'a Section) -> Result<(), AllocError>
    ensures { OnOk result (map part_tree parts.new.items
        ≡ map part_tree parts.old.items ++ section_parts (section_tree section.now)) }
{
    match section {
        Section::CoreModule(bytes) => parts.push(Part {
            kind: HuxPlanKind::Module,
            index: 0,
            sort: 0,
            count: 0,
            bytes,
        })?,
        Section::CoreInstances(instances) => add_instances(parts, instances)?,
        Section::Aliases(aliases) => add_aliases(parts, aliases)?,
        Section::Canons(canons) => add_canons(parts, canons)?,
        Section::Custom(_)
        | Section::Instances(_)
        | Section::Types(_)
        | Section::Imports(_)
        | Section::Exports(_) => {}
    }
    Ok(())
}

/// The plan of a component of these sections.
#[tactic(auto, using(crate::proofs::ListLaws::list_laws))]
pub(crate) fn plan_of<'a>(
    alloc: Global,
    sections: &'a [Section],
) -> Result<Vec<Part<'a>>, AllocError>
    ensures { IfOk result (λ parts.
        map part_tree parts.items ≡ plan_of (map section_tree sections.now)) }
{
    let mut parts = Vec::new(alloc);
    for section in sections {
        add_section(&mut parts, section)?;
    }
    Ok(parts)
}
