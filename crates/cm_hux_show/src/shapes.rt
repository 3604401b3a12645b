//! What a type says beside its parts, as a text.

use crate::keys::Used;
use crate::types::{primitive_word, text_before};
use cm_types::{Case, Label, TypeNode};
use std::alloc::{AllocError, Global};

/// A text that two types have exactly where they are equal, given that the numbers of their parts
/// are equal exactly where these are.
pub(crate) fn shape_of(
    alloc: Global,
    node: &TypeNode,
    used: Used,
    parts: &[usize],
) -> Result<String, AllocError> {
    let mut shape = String::new(alloc);
    match node {
        TypeNode::Record(fields) => {
            shape.push_str("record")?;
            for field in fields.iter() {
                add_label(&mut shape, &field.label)?;
            }
        }
        TypeNode::Variant(cases) => add_cases(&mut shape, cases)?,
        TypeNode::Enum(labels) => add_labels(&mut shape, "enum", labels)?,
        TypeNode::Flags(labels) => add_labels(&mut shape, "flags", labels)?,
        TypeNode::FixedList { length, .. } => write!(shape, "list of {length}")?,
        TypeNode::Own(id) => write!(shape, "own {}", used.resource(*id))?,
        TypeNode::Borrow(id) => write!(shape, "borrow {}", used.resource(*id))?,
        _ => shape.push_str(primitive_word(node).unwrap_or(text_before(node, 0)))?,
    }
    for part in parts {
        write!(shape, " {part}")?;
    }
    Ok(shape)
}

/// Adds a label behind a sign that no label has.
fn add_label(shape: &mut String, label: &Label) -> Result<(), AllocError> {
    shape.push_str(";")?;
    shape.push_str(label.as_str())
}

fn add_labels(shape: &mut String, word: &str, labels: &[Label]) -> Result<(), AllocError> {
    shape.push_str(word)?;
    for label in labels {
        add_label(shape, label)?;
    }
    Ok(())
}

/// Adds the labels of cases, each with a sign where it carries a payload.
fn add_cases(shape: &mut String, cases: &[Case]) -> Result<(), AllocError> {
    shape.push_str("variant")?;
    for case in cases {
        add_label(shape, &case.label)?;
        if case.payload.is_some() {
            shape.push_str("(")?;
        }
    }
    Ok(())
}
