//! Functions and resources of a component by name.

ghost use Rattle.std.specs.Prelude.{◌≡◌, ℕ, IfSome, Option, Some, slice_get};
ghost use Rattle.cm_types_arena.specs.Placed.{placed_func};
ghost use Rattle.cm_validate_spaces.specs.Checked.{funcs_in, spaces_in};
ghost use Rattle.cm_validate_model.specs.Definitions.{lowered as lowered_def};
ghost use Rattle.cm_host.specs.Seats.{is_utf8};

use cm_binary_model::CanonOption;
use cm_types_arena::{Extern, ExternDesc, Placed};
use cm_validate_functions::StringEncoding;
use cm_validate_spaces::{Checked, CoreFuncEntry, ExportedEntry, MadeFunc, MemberEntry, Resource};

/// The core functions of a resource: those that make, tell and drop a handle of it, and its
/// destructor, where the component has them.
#[derive(Clone, Copy, Debug, PartialEq, Eq)]
pub struct ResourceFuncs {
    /// Takes a representation and answers the index of a handle that owns it.
    pub make: Option<u32>,
    /// Takes an index and answers the representation.
    pub tell: Option<u32>,
    /// Takes the index of a handle, which goes.
    pub let_go: Option<u32>,
    /// Takes the representation of a resource that is gone.
    pub destructor: Option<u32>,
}

/// A function with its type, by its place among those of functions.
#[derive(Clone, Copy)]
pub(crate) struct Typed<'a> {
    pub(crate) core_func: u32,
    pub(crate) ty: Placed,
    pub(crate) options: &'a [CanonOption],
}

/// The name of an interface, if there is one, and that of an item.
fn parts_of(name: &str) -> (Option<&str>, &str) {
    match name.split_once('#') {
        Some((interface, item)) => (Some(interface), item),
        None => (None, name),
    }
}

/// The number of the export of a name.
fn export_number(checked: &Checked<'_>, name: &str) -> Option<usize> {
    for (number, export) in checked.exports().iter().enumerate() {
        if export.name.as_str() == name {
            return Some(number);
        }
    }
    None
}

/// The function that a core function lowers.
pub(crate) fn lowered<'a>(checked: &Checked<'a>, core_func: u32) -> Option<Typed<'a>>
    ensures itself { IfSome result (λ t. t.core_func ≡ core_func) }
    ensures lowers { IfSome result (λ t. (import : ℕ) × (item : Option ℕ)
        × (slice_get (spaces_in checked.now).core_funcs core_func ≡ Some (lowered_def import item
        (placed_func (funcs_in checked.now) t.ty) t.options.now))) }
{
    match checked.core(core_func)? {
        CoreFuncEntry::Made(MadeFunc::Lowered { ty, options, .. }) => Some(Typed {
            core_func,
            ty,
            options,
        }),
        _ => None,
    }
}

/// Whether an encoding is UTF-8.
pub(crate) fn is_utf8(encoding: StringEncoding) -> bool
    ensures { result ≡ is_utf8 encoding }
{
    match encoding {
        StringEncoding::Utf8 => true,
        StringEncoding::Utf16 | StringEncoding::Latin1OrUtf16 => false,
    }
}

/// Whether an import is an instance of a name, and its item of a number has this name.
fn brings(import: &Extern, item: usize, interface: &str, name: &str) -> bool {
    match &import.desc {
        ExternDesc::Func(_) => false,
        ExternDesc::Instance { ty, .. } => match ty.items.get(item) {
            None => false,
            Some(item) => import.name.as_str() == interface && item.name.as_str() == name,
        },
    }
}

/// The number of the resource that an imported instance of a name brings under a name.
fn brought_number(checked: &Checked<'_>, interface: &str, name: &str) -> Option<u64> {
    for number in 0..u64::MAX {
        match checked.resource(number)? {
            Resource::Brought { import, item } => {
                if brings(checked.imports().get(import)?, item, interface, name) {
                    return Some(number);
                }
            }
            Resource::Defined { .. } => {}
        }
    }
    None
}

/// The number of the resource that an exported instance has under a name.
fn exported_number(checked: &Checked<'_>, interface: &str, name: &str) -> Option<u64> {
    let export = checked.exports().get(export_number(checked, interface)?)?;
    match &export.def {
        ExportedEntry::Func(_) => None,
        ExportedEntry::Instance(instance) => match instance.member(name)? {
            MemberEntry::Resource(number) => Some(number),
            MemberEntry::Func(_) | MemberEntry::Value(_) => None,
        },
    }
}

/// Adds a core function to those of the resource of a number, where it is one.
fn add_core(found: &mut ResourceFuncs, number: u64, index: u32, func: CoreFuncEntry<'_>) {
    match func {
        CoreFuncEntry::Made(MadeFunc::Making(of)) if of == number => found.make = Some(index),
        CoreFuncEntry::Made(MadeFunc::Reading(of)) if of == number => found.tell = Some(index),
        CoreFuncEntry::Made(MadeFunc::Dropping(of)) if of == number => found.let_go = Some(index),
        _ => {}
    }
}

/// The destructor of the resource of a number.
fn destructor(checked: &Checked<'_>, number: u64) -> Option<u32> {
    match checked.resource(number)? {
        Resource::Defined { destructor } => destructor,
        Resource::Brought { .. } => None,
    }
}

/// The core functions of the resource that an instance, exported or imported, has under a name.
pub(crate) fn resource(checked: &Checked<'_>, name: &str) -> Option<ResourceFuncs> {
    let (interface, item) = parts_of(name);
    let interface = interface?;
    let number = match exported_number(checked, interface, item) {
        Some(number) => number,
        None => brought_number(checked, interface, item)?,
    };
    let mut found = ResourceFuncs {
        make: None,
        tell: None,
        let_go: None,
        destructor: destructor(checked, number),
    };
    for index in 0..u32::MAX {
        match checked.core(index) {
            Some(func) => add_core(&mut found, number, index, func),
            None => return Some(found),
        }
    }
    Some(found)
}
