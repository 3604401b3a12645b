//! What is known of a type without a look below it.

ghost use Rattle.std.specs.Prelude.{◌≡◌, ◌≤◌, ◌+◌, ◌*◌};
ghost use Rattle.std.specs.Option.{SomeIff};
ghost use Rattle.cm_types.specs.declared.limits.TheConstants.{MAX_DEPTH, MAX_NODES};
ghost use Rattle.cm_types_arena.specs.Summaries.{above, beside, no_summary};

use cm_types::{MAX_DEPTH, MAX_NODES};

/// How large a type is, and what is in it.
#[derive(Clone, Copy)]
pub struct Summary {
    /// How many nodes it has.
    pub nodes: u32,
    /// How many levels it has.
    pub depth: u32,
    /// Whether it is a string or holds one.
    pub holds_string: bool,
    /// Whether it is a list of any length or holds one.
    pub holds_list: bool,
    /// Whether it is a borrow or holds one.
    pub holds_borrow: bool,
    /// Whether it is a handle, owned or borrowed, or holds one.
    pub holds_handle: bool,
}

impl Summary {
    /// What is known of no parts.
    pub(crate) fn none() -> Summary
        ensures { result ≡ no_summary }
    {
        Summary {
            nodes: 0,
            depth: 0,
            holds_string: false,
            holds_list: false,
            holds_borrow: false,
            holds_handle: false,
        }
    }

    /// What is known of a type that holds no other, and is no string and no handle.
    pub(crate) fn leaf() -> Summary
        ensures { result ≡ above 1 no_summary }
    {
        Summary {
            nodes: 1,
            depth: 1,
            ..Summary::none()
        }
    }

    /// What is known of both together, if that is within the limit on nodes.
    pub(crate) fn beside(self, other: Summary) -> Option<Summary>
        ensures { SomeIff result (self.nodes + other.nodes ≤ MAX_NODES) (beside self other) }
    {
        let nodes = self.nodes.checked_add(other.nodes)?;
        if nodes > MAX_NODES {
            return None;
        }
        Some(Summary {
            nodes,
            depth: self.depth.max(other.depth),
            holds_string: self.holds_string || other.holds_string,
            holds_list: self.holds_list || other.holds_list,
            holds_borrow: self.holds_borrow || other.holds_borrow,
            holds_handle: self.holds_handle || other.holds_handle,
        })
    }

    /// What is known of a type with these parts, `times` times each, if that is within the limits.
    pub(crate) fn above(self, times: u32) -> Option<Summary>
        ensures { SomeIff result
            ((1 + times * self.nodes ≤ MAX_NODES) × (1 + self.depth ≤ MAX_DEPTH))
            (above times self) }
    {
        let below = u64::from(times) * u64::from(self.nodes);
        if below >= u64::from(MAX_NODES) || self.depth >= MAX_DEPTH {
            return None;
        }
        Some(Summary {
            nodes: 1 + below as u32,
            depth: 1 + self.depth,
            ..self
        })
    }
}
