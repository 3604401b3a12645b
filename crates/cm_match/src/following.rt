//! From an imported function to the lifted one that it comes to.

ghost use Rattle.std.specs.Prelude.{◌≡◌, IfSome, None, Some, length, slice_get, true};
ghost use Rattle.std.specs.Option.{option_and_then, option_map};
ghost use Rattle.cm_validate_model.specs.Spaces.{Spaces};
ghost use Rattle.cm_types_arena.specs.Placed.{is_there};
ghost use Rattle.cm_match_serving.specs.cm_validate_entries.Entries.{func_def, is_func_there};
ghost use Rattle.cm_match_serving.specs.cm_validate_spaces.Exported.{func_under};
ghost use Rattle.cm_match_model.specs.Imports.{export_in, links_of};
ghost use Rattle.cm_match_model.specs.Targets.{func_for, serving_func, target_within};
ghost use Rattle.cm_match_serving.specs.Linkings.{components_in, set_in};
ghost use Rattle.cm_match_serving.specs.Sets.{funcs_at};
ghost use Rattle.cm_match.specs.Targets.{func_at, target_def};

use crate::target::Target;
use cm_match_model::Link;
use cm_match_serving::{FuncEntry, Linking};

/// A function of a component, by its place in the set.
#[derive(Clone, Copy)]
pub(crate) struct ServingFunc<'a> {
    pub(crate) component: u32,
    pub(crate) func: FuncEntry<'a>,
}

/// The function that the export of a link is, or has under a name.
fn exported_func<'a>(
    linking: &Linking<'_, 'a>,
    link: Link,
    name: Option<&str>,
) -> Option<FuncEntry<'a>>
    ensures is { option_map (func_def (funcs_at (components_in linking.now) link.component)) result
        ≡ option_and_then (func_under (option_map (λ n. n.now) name.entry))
        (export_in (set_in linking.now).spaces link.component link.export) }
    ensures there { IfSome result (λ f. is_func_there
        (length (funcs_at (components_in linking.now) link.component)) f ≡ true) }
{
    let provider = linking.components().get(link.component as usize)?;
    provider.func(link.export, name)
}

/// The function that the export of a link has under the name of an import's item.
fn exported_under<'a>(
    linking: &Linking<'_, 'a>,
    link: Link,
    component: u32,
    import: usize,
    item: usize,
) -> Option<FuncEntry<'a>>
    ensures is { (s : Spaces) → slice_get (set_in linking.now).spaces component ≡ Some s
        → option_map (func_def (funcs_at (components_in linking.now) link.component)) result
        ≡ option_and_then (func_for s import (Some item))
        (export_in (set_in linking.now).spaces link.component link.export) }
    ensures there { IfSome result (λ f. is_func_there
        (length (funcs_at (components_in linking.now) link.component)) f ≡ true) }
{
    let name = linking.item_name(component as usize, import, item)?;
    exported_func(linking, link, Some(name))
}

/// The function of the export of a link that serves an import, or an item of one.
fn linked_func<'a>(
    linking: &Linking<'_, 'a>,
    link: Link,
    component: u32,
    import: usize,
    item: Option<usize>,
) -> Option<FuncEntry<'a>>
    ensures is { (s : Spaces) → slice_get (set_in linking.now).spaces component ≡ Some s
        → option_map (func_def (funcs_at (components_in linking.now) link.component)) result
        ≡ option_and_then (func_for s import item)
        (export_in (set_in linking.now).spaces link.component link.export) }
    ensures there { IfSome result (λ f. is_func_there
        (length (funcs_at (components_in linking.now) link.component)) f ≡ true) }
{
    match item {
        None => exported_func(linking, link, None),
        Some(item) => exported_under(linking, link, component, import, item),
    }
}

/// The function of another component by which an import, or an item of one, is served.
fn serving_func<'a>(
    linking: &Linking<'_, 'a>,
    component: u32,
    import: usize,
    item: Option<usize>,
) -> Option<ServingFunc<'a>>
    ensures is { option_map (func_at (components_in linking.now)) result
        ≡ serving_func (set_in linking.now).spaces (links_of (set_in linking.now))
        component import item }
    ensures there { IfSome result (λ f. is_func_there
        (length (funcs_at (components_in linking.now) f.component)) f.func ≡ true) }
{
    let link = linking.link(component, import)?;
    let func = linked_func(linking, link, component, import, item)?;
    Some(ServingFunc {
        component: link.component,
        func,
    })
}

/// The lifted function that an import, or an item of one, comes to by at most so many links.
pub(crate) fn target_within<'a>(
    linking: &Linking<'_, 'a>,
    count: usize,
    component: u32,
    import: usize,
    item: Option<usize>,
) -> Option<Target<'a>>
    ensures target { option_map (target_def (components_in linking.now)) result
        ≡ target_within count (set_in linking.now).spaces (links_of (set_in linking.now))
        component import item }
    ensures there { IfSome result (λ t. is_there
        (length (funcs_at (components_in linking.now) t.component)) t.ty ≡ true) }
    ensures unmoved { IfSome result (λ t. t.ty.by ≡ None) }
{
    let count = count.checked_sub(1)?;
    let serving = serving_func(linking, component, import, item)?;
    match serving.func {
        FuncEntry::Lifted {
            core_func,
            ty,
            options,
        } => Some(Target {
            component: serving.component,
            core_func,
            ty,
            options,
        }),
        FuncEntry::Imported { import, item, .. } => {
            target_within(linking, count, serving.component, import, item)
        }
    }
}
