//! What the arena holds of each type.

ghost use Rattle.std.specs.Prelude.{◌≡◌, []};
ghost use Rattle.cm_types.specs.TypeTrees.{type_of};
ghost use Rattle.cm_types_arena.specs.Summaries.{summary_of};
ghost use Rattle.cm_types_arena.specs.TypeDefs.{primitive_type};

use crate::building::primitive_node;
use crate::primitives::Primitive;
use crate::summaries::Summary;
use cm_types::TypeNode;
use std::alloc::Global;

/// A type: its node, the places of its parts, and what is known of it.
#[derive(Drop)]
pub(crate) struct TypeEntry {
    pub(crate) node: TypeNode,
    pub(crate) parts: Vec<usize>,
    pub(crate) summary: Summary,
}

/// The entry of a primitive type.
pub(crate) fn primitive_entry(alloc: Global, primitive: Primitive) -> TypeEntry
    ensures node { type_of result.node ≡ primitive_type primitive }
    ensures parts { result.parts.items ≡ [] }
    ensures summary { result.summary ≡ summary_of (primitive_type primitive) }
{
    TypeEntry {
        node: primitive_node(primitive),
        parts: Vec::new(alloc),
        summary: primitive_summary(primitive),
    }
}

fn primitive_summary(primitive: Primitive) -> Summary
    ensures { result ≡ summary_of (primitive_type primitive) }
{
    match primitive {
        Primitive::String => Summary {
            holds_string: true,
            ..Summary::leaf()
        },
        _ => Summary::leaf(),
    }
}
