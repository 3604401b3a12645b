//! The layout of a type from those of what it holds: nothing below them is walked.

ghost use Rattle.std.specs.Prelude.{◌≡◌, ◌≤◌, IfOk, List, length, ℕ};
ghost use Rattle.cm_types.specs.Limits.{nodes_of};
ghost use Rattle.cm_types.specs.Types.{Ty, cases, enum_type, fixed_list, flags, list, string};
ghost use Rattle.cm_types.specs.TypeTrees.{plain_from};
ghost use Rattle.cm_layout.specs.Shapes.{handle_head, handle_shape, layout_at, leaf_head};
ghost use Rattle.cm_layout.specs.Shapes.{leaf_shape};

use crate::heads::{Head, discriminant_size, flags_size};
use crate::layouts::{Form, HandleType, Layout, Leaf};
use cm_types::MAX_NODES;
use std::alloc::{AllocError, Global};
use std::sync::Arc;

impl Layout {
    ghost use Rattle.cm_layout.specs.Layouts.{layout_of};

    /// The layout of a leaf.
    pub fn leaf(leaf: Leaf) -> Layout
        ensures { layout_of result ≡ record { head = leaf_head leaf; shape = leaf_shape leaf } }
    {
        Layout {
            head: leaf.head(),
            form: Form::Leaf(leaf),
        }
    }

    /// The layout of a string.
    pub fn string() -> Layout
        ensures { layout_of result ≡ layout_at string }
    {
        Layout {
            head: Head::pointer_and_length(),
            form: Form::String,
        }
    }

    /// The layout of a set of so many labels.
    pub fn flags(labels: usize) -> Layout
        ensures { (names : List (List ℕ)) → length names ≡ labels
            → layout_of result ≡ layout_at (flags names) }
    {
        Layout::leaf(Leaf::Flags {
            labels,
            bytes: flags_size(labels),
        })
    }

    /// The layout of an enum of so many cases.
    pub fn enumeration(count: usize) -> Layout
        ensures { (names : List (List ℕ)) → length names ≡ count
            → layout_of result ≡ layout_at (cases enum_type (plain_from names)) }
    {
        let discriminant = discriminant_size(count);
        Layout {
            head: Head::unit(discriminant),
            form: Form::Enum {
                discriminant,
                count,
            },
        }
    }

    /// The layout of a handle.
    pub fn handle(handle: HandleType) -> Layout
        ensures { layout_of result ≡ record { head = handle_head; shape = handle_shape handle } }
    {
        Layout {
            head: Head::unit(4),
            form: Form::Handle(handle),
        }
    }

    /// The layout of a list of these. `AllocError` comes where there is no memory for it.
    pub fn list(alloc: Global, element: Layout) -> Result<Layout, AllocError>
        ensures { IfOk result (λ l.
            (t : Ty) → layout_of element ≡ layout_at t → layout_of l ≡ layout_at (list t)) }
    {
        Ok(Layout {
            head: Head::pointer_and_length(),
            form: Form::List(Arc::new(alloc, element)?),
        })
    }

    /// The layout of so many of these, one behind the other, which have at most 10,000 nodes
    /// together. `AllocError` comes where there is no memory for it.
    pub fn fixed_list(alloc: Global, element: Layout, length: u32) -> Result<Layout, AllocError>
        requires { (t : Ty) × (nodes_of (fixed_list t length) ≤ MAX_NODES)
            × (layout_of element ≡ layout_at t) }
        ensures { IfOk result (λ l. (t : Ty) → layout_of element ≡ layout_at t
            → layout_of l ≡ layout_at (fixed_list t length)) }
    {
        let head = element.head.repeated(length);
        let element = Arc::new(alloc, element)?;
        Ok(Layout {
            head,
            form: Form::FixedList { element, length },
        })
    }

    /// This layout again: what is below it is shared. `AllocError` comes where it is shared too
    /// often to be counted, which is 2^64 times.
    pub fn share(&self) -> Result<Layout, AllocError>
        ensures { IfOk result (λ l. layout_of l ≡ layout_of self.now) }
    {
        let form = match &self.form {
            Form::Leaf(leaf) => Form::Leaf(*leaf),
            Form::String => Form::String,
            Form::List(element) => Form::List(element.clone()?),
            Form::FixedList { element, length } => Form::FixedList {
                element: element.clone()?,
                length: *length,
            },
            Form::Fields(parts) => Form::Fields(parts.clone()?),
            Form::Cases {
                discriminant,
                offset,
                payloads,
            } => Form::Cases {
                discriminant: *discriminant,
                offset: *offset,
                payloads: payloads.clone()?,
            },
            Form::Enum {
                discriminant,
                count,
            } => Form::Enum {
                discriminant: *discriminant,
                count: *count,
            },
            Form::Handle(handle) => Form::Handle(*handle),
        };
        Ok(Layout {
            head: self.head,
            form,
        })
    }
}

impl Leaf {
    /// What the leaf takes.
    pub fn head(self) -> Head
        ensures { result ≡ leaf_head self }
    {
        match self {
            Leaf::Bool => Head::unit(1),
            Leaf::Signed(bytes) | Leaf::Unsigned(bytes) => Head::number(bytes),
            Leaf::Char => Head::unit(4),
            Leaf::Flags { bytes, .. } => Head::unit(bytes),
        }
    }
}
