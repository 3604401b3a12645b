//! Imports, exports and their items as objects.

use crate::met::used_at;
use crate::names::name_text;
use crate::numbered::Numbered;
use crate::objects::Object;
use crate::types::{fields_value, type_object};
use cm_tool_show::{Page, ShowFault};
use cm_types::ResourceId;
use cm_types_arena::{
    Desc, Externs, ItemDesc, Items, Move, NamedDesc, NamedItem, Placed, Signature, moved_resource,
};
use serde_json::Value;
use std::alloc::{AllocError, Global};

/// A JSON object a line for each type that a signature names and that has no word of its own, equal
/// ones once, each behind those that it holds, and then for each import and each export, in order.
///
/// A type has its number, from 0, as `type`, its word as `kind`, and what it is made of; where it
/// is used it stands by its number, or by its word, as `"u32"`. An import or export has its name,
/// and as `func` its parameters and its result, or as `items` those of the instance, each with a
/// `name` and a `func`, the `type` that it is equal to, or the number of its `resource`. Resources
/// have the numbers that the component gives them.
///
/// `TooLong` comes where the text has more than `MAX_SHOWN` bytes, and `Memory` where there is no
/// memory. A type costs its own node once for each way in which its resources are counted.
pub fn signature_objects(alloc: Global, signature: &Signature) -> Result<String, ShowFault> {
    signature_rows(alloc, signature, "", "")
}

/// The same, with these words before each type, and before each import and export.
pub fn signature_rows(
    alloc: Global,
    signature: &Signature,
    before_type: &str,
    before_extern: &str,
) -> Result<String, ShowFault> {
    let numbered = Numbered::of(alloc, signature)?;
    let mut page = Page::new(alloc);
    for (number, used) in numbered.order.iter().enumerate() {
        let object = type_object(&numbered, number, *used)?;
        put_row(&mut page, before_type, object)?;
    }
    put_externs(
        &mut page,
        &numbered,
        before_extern,
        "import",
        signature.imports(),
    )?;
    put_externs(
        &mut page,
        &numbered,
        before_extern,
        "export",
        signature.exports(),
    )?;
    page.finish()
}

fn put_row(page: &mut Page, before: &str, object: Object) -> Result<(), ShowFault> {
    let line = object.line()?;
    page.put(before)?;
    page.put(line.as_str())
}

fn put_externs(
    page: &mut Page,
    numbered: &Numbered<'_>,
    before: &str,
    side: &str,
    externs: &Externs,
) -> Result<(), ShowFault> {
    for place in 0..externs.len() {
        if let Some(each) = externs.at(place) {
            put_row(page, before, extern_object(numbered, side, each)?)?;
        }
    }
    Ok(())
}

/// An import or an export.
fn extern_object(
    numbered: &Numbered<'_>,
    side: &str,
    each: NamedDesc<'_>,
) -> Result<Object, AllocError> {
    let alloc = numbered.alloc;
    let name = name_text(alloc, each.name)?;
    let object = Object::new(alloc).with(side, name.as_str())?;
    match each.desc {
        Desc::Func(placed) => object.with("func", func_value(numbered, placed, None)?),
        Desc::Instance(items) => object.with("items", items_value(numbered, items)?),
    }
}

/// The items of an instance.
fn items_value(numbered: &Numbered<'_>, items: Items<'_>) -> Result<Vec<Value>, AllocError> {
    let mut list = Vec::with_capacity(numbered.alloc, items.len())?;
    for place in 0..items.len() {
        if let Some(item) = items.at(place) {
            list.push(item_value(numbered, item, items.by())?)?;
        }
    }
    Ok(list)
}

/// An item of an instance that an import or an export brings so.
fn item_value(
    numbered: &Numbered<'_>,
    item: NamedItem<'_>,
    brought: Option<Move>,
) -> Result<Value, AllocError> {
    let alloc = numbered.alloc;
    let name = name_text(alloc, item.name)?;
    let object = Object::new(alloc).with("name", name.as_str())?;
    let object = match item.desc {
        ItemDesc::Func(placed) => object.with("func", func_value(numbered, placed, brought)?)?,
        ItemDesc::EqualType(placed) => {
            object.with("type", numbered.value(Some(used_at(placed, brought)))?)?
        }
        ItemDesc::EqualResource(number) | ItemDesc::FreshResource(number) => {
            object.with("resource", brought_number(brought, number))?
        }
    };
    Ok(object.value())
}

/// The number of a resource as an import or an export counts it.
fn brought_number(brought: Option<Move>, number: u64) -> u64 {
    let resource = ResourceId {
        component: 0,
        number,
    };
    moved_resource(brought, resource).number
}

/// The type of a function that an import or an export brings so.
fn func_value(
    numbered: &Numbered<'_>,
    placed: Placed,
    brought: Option<Move>,
) -> Result<Value, AllocError> {
    let types = numbered.types;
    let place = placed.place;
    if place >= types.func_count() {
        return Ok(Value::Null);
    }
    let used = used_at(placed, brought);
    let params = numbered.used_at(used, types.func_params(place))?;
    let params = fields_value(numbered, &types.func(place).params, &params)?;
    let result = match types.func_result(place) {
        Some(place) => Some(used.at(place)),
        None => None,
    };
    let object = Object::new(numbered.alloc).with("params", params)?;
    Ok(object.with("result", numbered.value(result)?)?.value())
}
