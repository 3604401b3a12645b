//! Whether the names in texts lead to types.

ghost use Rattle.std.specs.Prelude.{◌≡◌, map};
ghost use Rattle.cm_names.specs.Listed.{listed};
ghost use Rattle.cm_wit_reading.specs.Types.{types_from};
ghost use Rattle.cm_wit_reading.specs.TypeViews.{type_tree};
ghost use Rattle.cm_wit_reading.specs.SignatureViews.{func_tree, typed_tree};
ghost use Rattle.cm_wit_reading.specs.Views.{resource_func_tree};
ghost use Rattle.cm_wit_signature.specs.Tests as test;

use cm_names::Keys;
use cm_wit_reading::{Func, ResourceFunc, Typed, WitType};

/// What finds the names of one list: the keys of declarations, with a mark for each that is of a
/// resource.
#[derive(Clone, Copy)]
pub struct Names<'n, 'k> {
    pub keys: &'n Keys<'k>,
    pub marks: &'n [bool],
    pub list: usize,
}

/// Whether a name leads to a type.
pub fn is_led(names: Names<'_, '_>, name: &str) -> bool
    ensures { result ≡ test.is_led (listed names.entry.keys.now) names.entry.list name.now }
{
    names.keys.find(names.list, name).is_some()
}

/// Whether a name leads to a resource.
pub fn is_resource_led(names: Names<'_, '_>, name: &str) -> bool
    ensures { result ≡ test.is_resource_led (listed names.entry.keys.now) names.entry.marks.now
        names.entry.list name.now }
{
    match names.keys.find(names.list, name) {
        Some(place) => names.marks.get(place).copied().unwrap_or(false),
        None => false,
    }
}

/// Whether each name in a type text leads to a type, and that of a borrow to a resource.
#[cycle(types)]
pub fn type_led(names: Names<'_, '_>, ty: &WitType) -> bool
    ensures { result ≡ test.type_led (listed names.entry.keys.now) names.entry.marks.now
        names.entry.list (type_tree ty.now) }
{
    match ty {
        WitType::Primitive(_) => true,
        WitType::Named(name) => is_led(names, name.as_str()),
        WitType::Borrow(name) => {
            is_led(names, name.as_str()) && is_resource_led(names, name.as_str())
        }
        WitType::List(element) => type_led(names, element),
        WitType::FixedList { element, .. } => type_led(names, element),
        WitType::Option(payload) => type_led(names, payload),
        WitType::Tuple(parts) => types_led(names, parts),
        WitType::Result { ok, error } => match (ok, error) {
            (None, None) => true,
            (Some(ok), None) => type_led(names, ok),
            (None, Some(error)) => type_led(names, error),
            (Some(ok), Some(error)) => type_led(names, ok) && type_led(names, error),
        },
    }
}

#[cycle(types)]
#[tactic(auto, using(crate::proofs::RestLaws::rest_laws))]
fn types_led(names: Names<'_, '_>, types: &[WitType]) -> bool
    ensures { result ≡ test.types_led (listed names.entry.keys.now) names.entry.marks.now
        names.entry.list (types_from (map type_tree types.now)) }
{
    for ty in types {
        if !type_led(names, ty) {
            return false;
        }
    }
    true
}

/// Whether each name in parameters leads to a type, and that of a borrow to a resource.
#[tactic(auto, using(crate::proofs::RestLaws::rest_laws))]
pub fn params_led(names: Names<'_, '_>, params: &[Typed]) -> bool
    ensures { result ≡ test.params_led (listed names.entry.keys.now) names.entry.marks.now
        names.entry.list (map typed_tree params.now) }
{
    for param in params {
        if !type_led(names, &param.ty) {
            return false;
        }
    }
    true
}

/// Whether each name in a function leads to a type, and that of a borrow to a resource.
pub fn func_led(names: Names<'_, '_>, func: &Func) -> bool
    ensures { result ≡ test.func_led (listed names.entry.keys.now) names.entry.marks.now
        names.entry.list (func_tree func.now) }
{
    let params = params_led(names, &func.params);
    match &func.result {
        Some(ty) => params && type_led(names, ty),
        None => params,
    }
}

/// Whether each name in a function of a resource leads to a type, and that of a borrow to a
/// resource.
pub fn resource_func_led(names: Names<'_, '_>, func: &ResourceFunc) -> bool
    ensures { result ≡ test.resource_func_led (listed names.entry.keys.now) names.entry.marks.now
        names.entry.list (resource_func_tree func.now) }
{
    match func {
        ResourceFunc::Method(_, func) => func_led(names, func),
        ResourceFunc::Static(_, func) => func_led(names, func),
        ResourceFunc::Constructor(params) => params_led(names, params),
    }
}
