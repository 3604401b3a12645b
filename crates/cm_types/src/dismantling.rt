//! Letting a type go that is too deep to be dropped as it is.

use crate::type_trees::{Case, Field, TypeNode};
use std::mem;
use std::rc::Rc;

/// The last type that a node holds, if it holds one, and the node with what was above it in the
/// place of that type. What others hold too stays with them, and nothing is below it here. Nothing
/// else needs the stack or memory.
fn go_down(node: TypeNode, above: TypeNode) -> (Option<TypeNode>, TypeNode) {
    match node {
        TypeNode::List(element) | TypeNode::Option(element) => (Rc::into_inner(element), above),
        TypeNode::FixedList { element, .. } => (Rc::into_inner(element), above),
        TypeNode::Record(fields) => below_fields(fields, above),
        TypeNode::Tuple(parts) => below_parts(parts, above),
        TypeNode::Variant(cases) => below_cases(cases, above),
        TypeNode::Result { ok, error } => below_result(ok, error, above),
        _ => (None, above),
    }
}

fn below_fields(mut fields: Rc<Vec<Field>>, above: TypeNode) -> (Option<TypeNode>, TypeNode) {
    match Rc::get_mut(&mut fields) {
        Some(list) => match list.last_mut() {
            Some(last) => {
                let down = mem::replace(&mut last.ty, above);
                (Some(down), TypeNode::Record(fields))
            }
            None => (None, above),
        },
        None => (None, above),
    }
}

fn below_parts(mut parts: Rc<Vec<TypeNode>>, above: TypeNode) -> (Option<TypeNode>, TypeNode) {
    match Rc::get_mut(&mut parts) {
        Some(list) => match list.last_mut() {
            Some(last) => {
                let down = mem::replace(last, above);
                (Some(down), TypeNode::Tuple(parts))
            }
            None => (None, above),
        },
        None => (None, above),
    }
}

fn below_cases(mut cases: Rc<Vec<Case>>, above: TypeNode) -> (Option<TypeNode>, TypeNode) {
    match Rc::get_mut(&mut cases) {
        Some(list) => match list.last_mut() {
            Some(
                Case {
                    payload: Some(last),
                    ..
                },
            ) => {
                let down = mem::replace(last, above);
                (Some(down), TypeNode::Variant(cases))
            }
            Some(_) => {
                list.pop();
                (Some(TypeNode::Variant(cases)), above)
            }
            None => (None, above),
        },
        None => (None, above),
    }
}

fn below_result(
    ok: Option<Rc<TypeNode>>,
    error: Option<Rc<TypeNode>>,
    above: TypeNode,
) -> (Option<TypeNode>, TypeNode) {
    match ok {
        Some(mut first) => match Rc::get_mut(&mut first) {
            Some(ty) => {
                let down = mem::replace(ty, above);
                let ok = Some(first);
                (Some(down), TypeNode::Result { ok, error })
            }
            None => (Some(TypeNode::Result { ok: None, error }), above),
        },
        None => match error {
            Some(second) => (Rc::into_inner(second), above),
            None => (None, above),
        },
    }
}

/// The node above, without the place that it was left by, and what is above it; none at the top.
fn go_up(above: TypeNode) -> Option<(TypeNode, TypeNode)> {
    match above {
        TypeNode::Record(mut fields) => {
            let Field { ty, .. } = Rc::get_mut(&mut fields)?.pop()?;
            Some((TypeNode::Record(fields), ty))
        }
        TypeNode::Tuple(mut parts) => {
            let ty = Rc::get_mut(&mut parts)?.pop()?;
            Some((TypeNode::Tuple(parts), ty))
        }
        TypeNode::Variant(mut cases) => {
            let Case { payload, .. } = Rc::get_mut(&mut cases)?.pop()?;
            Some((TypeNode::Variant(cases), payload?))
        }
        TypeNode::Result { ok, error } => {
            let ty = Rc::into_inner(ok?)?;
            Some((TypeNode::Result { ok: None, error }, ty))
        }
        _ => None,
    }
}

/// Lets a type go, however deep: node by node, each freed before the next, without memory and with
/// none of the stack that a drop takes for each level.
pub(crate) fn dismantle(root: TypeNode) {
    let mut node = root;
    // The nodes that the node stood in, each in the place of the type that was taken out of the
    // next.
    let mut above = TypeNode::Bool;
    // A tree has fewer nodes than memory has bytes, so that the loop ends by a return.
    for _ in 0..u64::MAX {
        let (down, next) = go_down(node, above);
        match down {
            Some(ty) => {
                node = ty;
                above = next;
            }
            None => match go_up(next) {
                Some((rest, outer)) => {
                    node = rest;
                    above = outer;
                }
                None => return,
            },
        }
    }
}

/// Lets the types of fields go, however deep.
pub(crate) fn dismantle_fields(fields: Vec<Field>) {
    for field in fields {
        dismantle(field.ty);
    }
}
