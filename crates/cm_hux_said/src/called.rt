//! Finds the function of another instance that a core function calls, if it calls one.

use crate::naming::{ImportName, import_name, resource_name};
use crate::passing::Passes;
use crate::words::joined;
use cm_abi_model::StringEncoding;
use cm_binary_model::CanonOption;
use cm_match::{Checked, CoreFuncEntry, Linked, MadeFunc};
use cm_types::Func;
use cm_types_arena::{Move, Placed};
use std::alloc::{AllocError, Global};

/// What a core function is by which an instance calls another.
#[derive(Clone, Copy)]
pub(crate) enum Called<'b> {
    /// A lowered import.
    Func(CalledFunc<'b>),
    /// What drops handles of a resource, by its number in the component.
    Drop { number: u64, callee: u32 },
}

/// A lowered import: its name, its type, and how both sides encode strings.
#[derive(Clone, Copy)]
pub(crate) struct CalledFunc<'b> {
    pub(crate) name: ImportName<'b>,
    pub(crate) callee: u32,
    pub(crate) func: &'b Func,
    pub(crate) place: usize,
    /// How the import counts resources.
    pub(crate) by: Option<Move>,
    pub(crate) caller_encoding: StringEncoding,
    pub(crate) callee_encoding: StringEncoding,
}

/// The encoding of strings (CanonicalABI.md, "Canonical Definitions"): UTF-8 where no option says
/// more.
fn encoding_of(options: &[CanonOption]) -> StringEncoding {
    for option in options {
        match option {
            CanonOption::Utf8 => return StringEncoding::Utf8,
            CanonOption::Utf16 => return StringEncoding::Utf16,
            CanonOption::Latin1Utf16 => return StringEncoding::Latin1OrUtf16,
            CanonOption::Memory(_) | CanonOption::Realloc(_) | CanonOption::PostReturn(_) => {}
        }
    }
    StringEncoding::Utf8
}

/// The type of a function at a place among those of a component.
fn func_at<'b>(checked: &'b Checked<'_>, ty: Placed) -> Option<&'b Func> {
    let types = checked.types();
    if ty.place < types.func_count() {
        Some(types.func(ty.place))
    } else {
        None
    }
}

/// What the core function of an index of a component calls; `None` where it calls nothing.
pub(crate) fn called_by<'b>(
    linked: &'b Linked<'_>,
    component: u32,
    index: u32,
) -> Option<Called<'b>> {
    let checked = linked.components().get(component as usize)?;
    match checked.core(index)? {
        CoreFuncEntry::Made(
            MadeFunc::Lowered {
                import,
                item,
                ty,
                options,
            },
        ) => {
            let target = linked.target(component, import, item)?;
            Some(Called::Func(CalledFunc {
                name: import_name(checked, import, item)?,
                callee: target.component,
                func: func_at(checked, ty)?,
                place: ty.place,
                by: ty.by,
                caller_encoding: encoding_of(options),
                callee_encoding: encoding_of(target.options),
            }))
        }
        CoreFuncEntry::Made(MadeFunc::Dropping(number)) => {
            let origin = linked.resource(component, number)?;
            Some(Called::Drop {
                number,
                callee: origin.component,
            })
        }
        CoreFuncEntry::Made(MadeFunc::Making(_) | MadeFunc::Reading(_)) | CoreFuncEntry::Guest(_) =>
            None,
    }
}

impl Called<'_> {
    /// The instance that is called.
    pub(crate) fn callee(&self) -> u32 {
        match self {
            Called::Func(called) => called.callee,
            Called::Drop { callee, .. } => *callee,
        }
    }

    /// The name under which the component imports what is called.
    pub(crate) fn name(
        &self,
        alloc: Global,
        linked: &Linked<'_>,
        component: u32,
    ) -> Result<String, AllocError> {
        match self {
            Called::Func(called) => match called.name.item {
                None => joined(alloc, &[called.name.import]),
                Some(item) => joined(alloc, &[called.name.import, "#", item]),
            },
            Called::Drop { number, .. } => drop_name(alloc, linked, component, *number),
        }
    }
}

/// What tools call the function that drops a resource.
fn drop_name(
    alloc: Global,
    linked: &Linked<'_>,
    component: u32,
    number: u64,
) -> Result<String, AllocError> {
    let name = match linked.components().get(component as usize) {
        Some(checked) => resource_name(checked, number),
        None => None,
    };
    match name {
        Some(
            ImportName {
                import,
                item: Some(item),
            },
        ) => joined(alloc, &[import, "#[resource-drop]", item]),
        _ => String::from_str(alloc, "[resource-drop]resource"),
    }
}

/// How the functions of a set pass values, by component and by place among its types of functions:
/// each is found once, where it is needed.
#[derive(Drop)]
pub(crate) struct AllPasses {
    rows: Vec<Vec<Option<Passes>>>,
}

impl AllPasses {
    /// Those of the functions of a linked set.
    pub(crate) fn of(alloc: Global, linked: &Linked<'_>) -> Result<AllPasses, AllocError> {
        let mut rows = Vec::with_capacity(alloc, linked.components().len())?;
        for checked in linked.components() {
            rows.push(empty_row(alloc, checked.types().func_count())?)?;
        }
        Ok(AllPasses { rows })
    }

    /// Finds how a function of a component passes values, if that is not known.
    pub(crate) fn find(
        &mut self,
        alloc: Global,
        component: u32,
        called: &CalledFunc<'_>,
    ) -> Result<(), AllocError> {
        let Some(row) = self.rows.get_mut(component as usize) else {
            return Ok(());
        };
        match row.get_mut(called.place) {
            Some(place) if place.is_none() => {
                *place = Some(Passes::of(alloc, called.func)?);
                Ok(())
            }
            _ => Ok(()),
        }
    }

    /// How a function of a component passes values, if that was found.
    pub(crate) fn get(&self, component: u32, called: &CalledFunc<'_>) -> Option<&Passes> {
        let row = self.rows.get(component as usize)?;
        match row.get(called.place) {
            Some(place) => place.as_ref(),
            None => None,
        }
    }
}

fn empty_row(alloc: Global, count: usize) -> Result<Vec<Option<Passes>>, AllocError> {
    let mut row = Vec::with_capacity(alloc, count)?;
    for _ in 0..count {
        row.push(None)?;
    }
    Ok(row)
}
