//! The memory that a lowering asks for.

ghost use Rattle.std.specs.Prelude.{◌≡◌, ◌≤◌, ◌++◌, IfOk, OnOk};
ghost use Rattle.cm_types.specs.Types.{Fields};
ghost use Rattle.cm_types.specs.Values.{HasType, parts};
ghost use Rattle.cm_layout.specs.Layouts.{layout_of};
ghost use Rattle.cm_layout.specs.Shapes.{layout_of_fields_at};
ghost use Rattle.cm_types.specs.ValueTrees.{values_of};
ghost use Rattle.cm_abi_model.specs.Parts.{parts_in};
ghost use Rattle.cm_abi_model.specs.Requests.{requests as requests_of, tuple_of};
ghost use Rattle.cm_abi_model.specs.Taken.{MAX_CONTENT};
ghost use Rattle.cm_abi_model.specs.Ways.{way_of};
ghost use Rattle.cm_abi_model.specs.Answering.{AreAligned};
ghost use Rattle.cm_abi_requests.specs.Asking.{AreSmall, ask_by, asking_of, content_of_parts};
ghost use Rattle.cm_abi_requests.specs.Asking.{parts_by};
ghost use Rattle.cm_abi_requests.specs.Asking.{tuple_request};

use crate::asked::Asked;
use crate::asking::{ask_each, ask_fields};
use crate::chains::ask_first;
use crate::strings::Strings;
use cm_abi_model::{Encodings, Request, Way};
use cm_layout::{Form, Head, Layout};
use cm_types::Value;
use std::alloc::{AllocError, Global};

/// Asks for a tuple that takes more core values than are passed flat.
fn ask_tuple(head: Head, limit: usize, requests: &mut Vec<Request>) -> Result<(), AllocError>
    ensures { OnOk result
        (requests.new.items ≡ requests.old.items ++ tuple_request head limit) }
{
    if head.width as usize > limit {
        ask_first(requests, head.align, head.size)?;
    }
    Ok(())
}

/// Asks for the parts of a tuple of values.
fn ask_values(
    to: &Strings<'_>,
    layout: &Layout,
    values: &[Value],
    asked: &mut Asked,
) -> Result<(), AllocError>
    requires small { AreSmall to.now.source (asking_of to.now asked.old).tags
        (parts_by (layout_of layout.now).shape (parts (values_of values.now))) }
    ensures { OnOk result (asking_of to.now asked.new
        ≡ ask_by to.now (parts_by (layout_of layout.now).shape (parts (values_of values.now)))
        (asking_of to.now asked.old)) }
{
    match &layout.form {
        Form::Fields(parts) => ask_fields(to, parts, values, asked),
        Form::FixedList { element, .. } => ask_each(to, element, values, asked),
        _ => Ok(()),
    }
}

/// What lowering values asks for, in order, by the layout of the tuple of their types, where they
/// go that way: where they take more core values than are passed flat, the tuple itself is asked
/// for first. The values have their types, and their strings and lists are at most 16,777,216
/// bytes, strings counted as in their source, where `tags` says of each whether its length was
/// tagged as UTF-16. Each request has an alignment, as what looks at the
/// answers wants it. `AllocError` comes where there is no memory for the answer.
pub fn requests(
    alloc: Global,
    layout: &Layout,
    way: Way,
    values: &[Value],
    encodings: Encodings,
    tags: &[bool],
) -> Result<Vec<Request>, AllocError>
    requires { (types : Fields) × (layout_of layout.now ≡ layout_of_fields_at types)
        × HasType (tuple_of types) (parts (values_of values.now))
        × (content_of_parts encodings.source tags.now
        (parts_in (tuple_of types) (parts (values_of values.now))) ≤ MAX_CONTENT) }
    ensures requests { (types : Fields) → layout_of layout.now ≡ layout_of_fields_at types
        → HasType (tuple_of types) (parts (values_of values.now))
        → IfOk result (λ rs. rs.items
        ≡ requests_of (way_of way) types (parts (values_of values.now))
        encodings.source encodings.target tags.now) }
    ensures aligned { IfOk result (λ rs. AreAligned rs.items) }
{
    let to = Strings {
        source: encodings.source,
        target: encodings.target,
        tags,
    };
    let mut asked = Asked {
        requests: Vec::new(alloc),
        next: 0,
    };
    ask_tuple(layout.head, way.flat_limit(), &mut asked.requests)?;
    ask_values(&to, layout, values, &mut asked)?;
    Ok(asked.requests)
}
