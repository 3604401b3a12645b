//! Equality of types, where what stands for a resource decides.

ghost use Rattle.std.specs.Prelude.{◌≡◌, ◌↔◌, IsTrue};
ghost use Rattle.std.specs.Option.{option_map};
ghost use Rattle.std.specs.Str.{bytes_eq};
ghost use Rattle.cm_types_arena.specs.SameTypes.{same_case, same_cases, same_fields, same_func};
ghost use Rattle.cm_types_arena.specs.SameTypes.{same_labels, same_payload, same_type};
ghost use Rattle.cm_types.specs.Resolved.{resolved, resolved_func};
ghost use Rattle.cm_types.specs.Funcs.{func_of, tree_type};
ghost use Rattle.cm_types.specs.TypeTrees.{shared_payload, case_of, cases_of, fields_of, parts_of};
ghost use Rattle.cm_types.specs.TypeTrees.{type_of};

use cm_types::{Case, Field, Func, Label, ResourceId, TypeNode, TypeTree, resolve, same_resource};
use std::rc::Rc;

/// Whether two types are equal, labels as texts, once each resource is replaced by what stands for
/// it: in `a` by the member of `left` at the number of the resource, in `b` by that of `right`. A
/// resource whose number is past the end of its list stands for itself.
///
/// A record and a tuple, a variant, an enum, an option and a result are different types, also where
/// they have the same fields or cases.
pub fn same_type(a: &TypeNode, b: &TypeNode, left: &[ResourceId], right: &[ResourceId]) -> bool
    ensures { IsTrue result
        ↔ (resolved left.now (type_of a.now) ≡ resolved right.now (type_of b.now)) }
{
    same_node(a, b, left, right)
}

/// Whether two functions have the same type: equal labels and types of parameters, in order, and
/// equal results, by `same_type`.
pub fn same_func(a: &Func, b: &Func, left: &[ResourceId], right: &[ResourceId]) -> bool
    ensures { IsTrue result
        ↔ (resolved_func left.now (func_of a.now) ≡ resolved_func right.now (func_of b.now)) }
{
    same_parts_of_func(a, b, left, right)
}

fn same_parts_of_func(a: &Func, b: &Func, left: &[ResourceId], right: &[ResourceId]) -> bool
    ensures { result ≡ same_func left.now right.now (func_of a.now) (func_of b.now) }
{
    same_fields(&a.params, &b.params, left, right)
        && same_results(&a.result, &b.result, left, right)
}

fn same_results(
    a: &Option<TypeTree>,
    b: &Option<TypeTree>,
    left: &[ResourceId],
    right: &[ResourceId],
) -> bool
    ensures { result ≡ same_payload left.now right.now (option_map tree_type a.now)
        (option_map tree_type b.now) }
{
    match (a, b) {
        (Some(x), Some(y)) => same_node(&x.root, &y.root, left, right),
        (None, None) => true,
        _ => false,
    }
}

fn same_label(a: &Label, b: &Label) -> bool
    ensures { result ≡ bytes_eq a.now b.now }
{
    a.as_str() == b.as_str()
}

fn same_labels(a: &[Label], b: &[Label]) -> bool
    ensures { result ≡ same_labels a.now b.now }
{
    if a.len() != b.len() {
        return false;
    }
    for (i, x) in a.iter().enumerate() {
        if !same_label(x, &b[i]) {
            return false;
        }
    }
    true
}

/// Whether the types are the same once each resource is replaced by what stands for it on its side.
#[cycle(same)]
fn same_node(a: &TypeNode, b: &TypeNode, left: &[ResourceId], right: &[ResourceId]) -> bool
    ensures { result ≡ same_type left.now right.now (type_of a.now) (type_of b.now) }
{
    match (a, b) {
        (TypeNode::Bool, TypeNode::Bool) => true,
        (TypeNode::S8, TypeNode::S8) => true,
        (TypeNode::U8, TypeNode::U8) => true,
        (TypeNode::S16, TypeNode::S16) => true,
        (TypeNode::U16, TypeNode::U16) => true,
        (TypeNode::S32, TypeNode::S32) => true,
        (TypeNode::U32, TypeNode::U32) => true,
        (TypeNode::S64, TypeNode::S64) => true,
        (TypeNode::U64, TypeNode::U64) => true,
        (TypeNode::Char, TypeNode::Char) => true,
        (TypeNode::String, TypeNode::String) => true,
        (TypeNode::List(x), TypeNode::List(y)) => same_node(x, y, left, right),
        (
            TypeNode::FixedList {
                element: x,
                length: m,
            },
            TypeNode::FixedList {
                element: y,
                length: n,
            },
        ) => *m == *n && same_node(x, y, left, right),
        (TypeNode::Record(x), TypeNode::Record(y)) => same_fields(x, y, left, right),
        (TypeNode::Tuple(x), TypeNode::Tuple(y)) => same_parts(x, y, left, right),
        (TypeNode::Variant(x), TypeNode::Variant(y)) => same_cases(x, y, left, right),
        (TypeNode::Enum(x), TypeNode::Enum(y)) => same_labels(x, y),
        (TypeNode::Flags(x), TypeNode::Flags(y)) => same_labels(x, y),
        (TypeNode::Option(x), TypeNode::Option(y)) => same_node(x, y, left, right),
        (
            TypeNode::Result {
                ok: x,
                error: x_error,
            },
            TypeNode::Result {
                ok: y,
                error: y_error,
            },
        ) => same_shared(x, y, left, right) && same_shared(x_error, y_error, left, right),
        (TypeNode::Own(x), TypeNode::Own(y)) => same_resource(
            resolve(left, *x),
            resolve(right, *y),
        ),
        (TypeNode::Borrow(x), TypeNode::Borrow(y)) => {
            same_resource(resolve(left, *x), resolve(right, *y))
        }
        _ => false,
    }
}

#[cycle(same)]
fn same_shared(
    a: &Option<Rc<TypeNode>>,
    b: &Option<Rc<TypeNode>>,
    left: &[ResourceId],
    right: &[ResourceId],
) -> bool
    ensures { result ≡ same_payload left.now right.now (shared_payload a.now)
        (shared_payload b.now) }
{
    match (a, b) {
        (Some(x), Some(y)) => same_node(x, y, left, right),
        (None, None) => true,
        _ => false,
    }
}

#[cycle(same)]
fn same_fields(a: &[Field], b: &[Field], left: &[ResourceId], right: &[ResourceId]) -> bool
    ensures { result ≡ same_fields left.now right.now (fields_of a.now) (fields_of b.now) }
{
    if a.len() != b.len() {
        return false;
    }
    for (i, x) in a.iter().enumerate() {
        let y = &b[i];
        if !same_label(&x.label, &y.label) || !same_node(&x.ty, &y.ty, left, right) {
            return false;
        }
    }
    true
}

#[cycle(same)]
fn same_parts(a: &[TypeNode], b: &[TypeNode], left: &[ResourceId], right: &[ResourceId]) -> bool
    ensures { result ≡ same_fields left.now right.now (parts_of a.now) (parts_of b.now) }
{
    if a.len() != b.len() {
        return false;
    }
    for (i, x) in a.iter().enumerate() {
        if !same_node(x, &b[i], left, right) {
            return false;
        }
    }
    true
}

#[cycle(same)]
fn same_cases(a: &[Case], b: &[Case], left: &[ResourceId], right: &[ResourceId]) -> bool
    ensures { result ≡ same_cases left.now right.now (cases_of a.now) (cases_of b.now) }
{
    if a.len() != b.len() {
        return false;
    }
    for (i, x) in a.iter().enumerate() {
        if !same_case(x, &b[i], left, right) {
            return false;
        }
    }
    true
}

#[cycle(same)]
fn same_case(a: &Case, b: &Case, left: &[ResourceId], right: &[ResourceId]) -> bool
    ensures { result ≡ same_case left.now right.now (case_of a.now) (case_of b.now) }
{
    same_label(&a.label, &b.label) && same_payload(&a.payload, &b.payload, left, right)
}

#[cycle(same)]
fn same_payload(
    a: &Option<TypeNode>,
    b: &Option<TypeNode>,
    left: &[ResourceId],
    right: &[ResourceId],
) -> bool
    ensures { result ≡ same_payload left.now right.now (option_map type_of a.now)
        (option_map type_of b.now) }
{
    match (a, b) {
        (Some(x), Some(y)) => same_node(x, y, left, right),
        (None, None) => true,
        _ => false,
    }
}
