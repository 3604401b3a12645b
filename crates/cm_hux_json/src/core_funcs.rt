//! Core functions as objects.

use crate::core_rows::{CoreRow, core_row, encoding_name};
use crate::objects::Object;
use crate::other_names::{OtherNames, Others};
use cm_tool_show::{Page, ShowFault};
use cm_types::CoreKind;
use cm_types_arena::Signature;
use cm_validate_functions::{CoreFuncType, Functions};
use serde_json::{ToValue, Value};
use std::alloc::{AllocError, Global};

/// A JSON object a line for each core function of a component with this signature, in order: its
/// number as `core`, the core values as `params` and `results`, its `memory`, its `encoding` of
/// strings, and as `is` what it is and is used for, all names under which it is lifted among that;
/// `null` where the component does not say.
///
/// `TooLong` comes where the text has more than `MAX_SHOWN` bytes, and `Memory` where there is no
/// memory. Each function costs its line and the nodes of its type.
pub fn core_objects(
    alloc: Global,
    functions: &Functions<'_, '_>,
    signature: &Signature,
) -> Result<String, ShowFault> {
    let names = OtherNames::of(alloc, functions, signature)?;
    let mut page = Page::new(alloc);
    for index in 0..functions.count() {
        let row = core_row(alloc, functions, index)?;
        let line = core_object(alloc, &row, names.of_func(index))?.line()?;
        page.put(line.as_str())?;
    }
    page.finish()
}

fn core_object(
    alloc: Global,
    row: &CoreRow<'_, '_, '_>,
    others: Others<'_>,
) -> Result<Object, AllocError> {
    let object = Object::new(alloc).with("core", row.index)?;
    let object = with_kinds(alloc, object, &row.kinds)?;
    let object = object.with("memory", row.memory)?;
    let object = match row.encoding {
        Some(encoding) => object.with("encoding", encoding_name(encoding))?,
        None => object.with("encoding", ())?,
    };
    match &row.described {
        Some(described) => {
            let told = format!(in alloc; "{described}{others}")?;
            object.with("is", told)
        }
        None => object.with("is", ()),
    }
}

fn with_kinds(
    alloc: Global,
    object: Object,
    kinds: &Option<CoreFuncType>,
) -> Result<Object, AllocError> {
    match kinds {
        Some(kinds) => {
            let object = object.with("params", kinds_value(alloc, &kinds.params)?)?;
            object.with("results", kinds_value(alloc, &kinds.results)?)
        }
        None => object.with("params", ())?.with("results", ()),
    }
}

/// The names of kinds of core values, in order.
fn kinds_value(alloc: Global, kinds: &[CoreKind]) -> Result<Value, AllocError> {
    let mut names = Vec::with_capacity(alloc, kinds.len())?;
    for kind in kinds {
        let name = match kind {
            CoreKind::I32 => "i32",
            CoreKind::I64 => "i64",
        };
        names.push(name.to_value(alloc)?)?;
    }
    Ok(Value::Array(names))
}
