//! Values in memory: one walk down a layout, wherever the values come from.

ghost use Rattle.std.specs.Prelude.{◌≡◌, ℕ, ◌+◌, ◌*◌, ◌≤◌, length};
ghost use Rattle.cm_layout.specs.Laid.{Laid, PartsLaid};
ghost use Rattle.cm_layout.specs.Layouts.{layout_of, part_of, payload_of};
ghost use Rattle.cm_layout.specs.Shapes.{handle_shape, leaf_shape, string_shape};
ghost use Rattle.cm_layout.specs.declared.heads.Head.{Head as HeadTy};
ghost use Rattle.cm_abi_model.specs.Parts.{handle_count, part_count};
ghost use Rattle.cm_abi_model.specs.Stores.{Given, poke};
ghost use Rattle.cm_abi_store.specs.Fitting.{PayloadLies};
ghost use Rattle.cm_abi_store.specs.Sources.{IsCarriedReady, case_told};
ghost use Rattle.cm_abi_store.specs.Stored.{StoresFields, StoresElements, StoresPayload};
ghost use Rattle.cm_abi_store.specs.Stored.{StoresValue, cases_of, enum_of, fields_of};
ghost use Rattle.cm_abi_store.specs.Stored.{fixed_list_of, list_of, record_of};
ghost use Rattle.cm_abi_store.specs.Storing.{given_of, stored_by};

use crate::source::{StoredSource, ValueSource};
use crate::{Next, Target, store_handle, store_pointer, units_stored, write_bytes, write_number};
use cm_layout::{Form, HandleType, Layout, Leaf, Part, Payload};

/// Stores a leaf.
fn store_leaf<S: ValueSource>(memory: &mut [u8], leaf: Leaf, size: u32, source: S, at: usize)
    requires laid { Laid size (leaf_shape leaf) }
    requires inside { at + size ≤ length memory.old }
    requires ready { (n : ℕ) × (g : Given) × (e : HeadTy) × (k : ℕ) × (h : ℕ)
        × S.ready source n g e (leaf_shape leaf) k h }
    ensures stored { (g : Given) (k h : ℕ) → memory.new
        ≡ poke (stored_by g (leaf_shape leaf) (S.value source (leaf_shape leaf)) at k h)
        memory.old }
    ensures stays { length memory.new ≡ length memory.old }
    ensures parts { part_count (S.value source (leaf_shape leaf)) ≡ 0 }
    ensures handles { handle_count (S.value source (leaf_shape leaf)) ≡ 0 }
{
    let number = source.leaf(leaf);
    write_number(memory, at, size, number);
}

/// Stores a string: a pointer to its place and how many units it has, and its bytes at its place.
fn store_text<S: ValueSource>(
    to: &Target<'_>,
    memory: &mut [u8],
    source: S,
    at: usize,
    next: &mut Next,
)
    requires inside { at + 8 ≤ length memory.old }
    requires ready { (e : HeadTy) × S.ready source (length memory.old) (given_of to.now) e
        string_shape next.old.part next.old.handle }
    ensures { StoresValue (given_of to.now) string_shape (S.value source string_shape) at
        next.old memory.old next.new memory.new }
{
    let part = next.part;
    let size = source.text_size(to.encoding, part);
    let units = units_stored(to.encoding, size);
    let place = store_pointer(to, memory, at, units, next);
    source.write_text(to.encoding, memory, place, size, part);
}

/// Stores a handle: its number.
fn store_handle_of<S: ValueSource>(
    to: &Target<'_>,
    memory: &mut [u8],
    handle: HandleType,
    source: S,
    at: usize,
    next: &mut Next,
)
    requires inside { at + 4 ≤ length memory.old }
    requires ready { (e : HeadTy) × S.ready source (length memory.old) (given_of to.now) e
        (handle_shape handle) next.old.part next.old.handle }
    ensures { StoresValue (given_of to.now) (handle_shape handle)
        (S.value source (handle_shape handle)) at next.old memory.old next.new memory.new }
{
    store_handle(to, memory, at, next);
}

/// Stores the number of a case that carries nothing, of so many cases.
fn store_enum<S: ValueSource>(
    memory: &mut [u8],
    discriminant: u32,
    count: usize,
    source: S,
    at: usize,
)
    requires inside { at + discriminant ≤ length memory.old }
    requires ready { (n : ℕ) × (g : Given) × (e : HeadTy) × (k : ℕ) × (h : ℕ)
        × S.ready source n g e (enum_of discriminant count) k h }
    ensures stored { (g : Given) (k h : ℕ) → memory.new
        ≡ poke (stored_by g (enum_of discriminant count)
        (S.value source (enum_of discriminant count)) at k h)
        memory.old }
    ensures stays { length memory.new ≡ length memory.old }
    ensures parts { part_count (S.value source (enum_of discriminant count)) ≡ 0 }
    ensures handles { handle_count (S.value source (enum_of discriminant count)) ≡ 0 }
{
    let case = source.case(discriminant, discriminant);
    write_number(memory, at, discriminant, u64::from(case.0));
}

/// Stores a value by its layout at an address: the standard's `store` (CanonicalABI.md, "Storing").
/// The next part and the next handle are then those behind the value's; it takes no memory.
#[cycle(storing)]
pub fn store_value<S: StoredSource>(
    to: &Target<'_>,
    memory: &mut [u8],
    layout: &Layout,
    source: S,
    at: usize,
    next: &mut Next,
)
    requires laid { Laid (layout_of layout.now).head.size (layout_of layout.now).shape }
    requires inside { at + (layout_of layout.now).head.size ≤ length memory.old }
    requires ready { S.ready source (length memory.old) (given_of to.now)
        (layout_of layout.now).head (layout_of layout.now).shape next.old.part next.old.handle }
    ensures { StoresValue (given_of to.now) (layout_of layout.now).shape
        (S.value source (layout_of layout.now).shape) at next.old
        memory.old next.new memory.new }
{
    let size = layout.head.size;
    match &layout.form {
        Form::Leaf(leaf) => store_leaf(memory, *leaf, size, source, at),
        Form::String => store_text(to, memory, source, at, next),
        Form::List(element) => store_list(to, memory, element, source, at, next),
        Form::FixedList { element, length } => {
            store_fixed_list(to, memory, element, *length, source, at, next)
        }
        Form::Fields(parts) => store_record(to, memory, parts, source, at, size, next),
        Form::Cases {
            discriminant,
            offset,
            payloads,
        } => store_case(
            to,
            memory,
            payloads,
            *discriminant,
            *offset,
            source,
            at,
            size,
            next,
        ),
        Form::Enum {
            discriminant,
            count,
        } => store_enum(memory, *discriminant, *count, source, at),
        Form::Handle(handle) => store_handle_of(to, memory, *handle, source, at, next),
    }
}

/// Stores a list: a pointer to its place and how many elements it has, and these at its place.
#[cycle(storing)]
fn store_list<S: StoredSource>(
    to: &Target<'_>,
    memory: &mut [u8],
    element: &Layout,
    source: S,
    at: usize,
    next: &mut Next,
)
    requires laid { Laid (layout_of element.now).head.size (layout_of element.now).shape }
    requires inside { at + 8 ≤ length memory.old }
    requires ready { (e : HeadTy) × S.ready source (length memory.old) (given_of to.now) e
        (list_of (layout_of element.now)) next.old.part next.old.handle }
    ensures { StoresValue (given_of to.now) (list_of (layout_of element.now))
        (S.value source (list_of (layout_of element.now))) at next.old memory.old
        next.new memory.new }
{
    let elements = source.elements();
    let place = store_pointer(to, memory, at, elements.0, next);
    store_row::<S>(to, memory, element, elements.1, elements.0, place, next);
}

/// Stores a list of so many elements in place.
#[cycle(storing)]
fn store_fixed_list<S: StoredSource>(
    to: &Target<'_>,
    memory: &mut [u8],
    element: &Layout,
    count: u32,
    source: S,
    at: usize,
    next: &mut Next,
)
    requires laid { Laid (layout_of element.now).head.size (layout_of element.now).shape }
    requires inside { at + count * (layout_of element.now).head.size ≤ length memory.old }
    requires ready { (e : HeadTy) × S.ready source (length memory.old) (given_of to.now) e
        (fixed_list_of (layout_of element.now) count) next.old.part next.old.handle }
    ensures { StoresValue (given_of to.now) (fixed_list_of (layout_of element.now) count)
        (S.value source (fixed_list_of (layout_of element.now) count)) at next.old memory.old
        next.new memory.new }
{
    let items = source.items(count as usize);
    store_row::<S>(to, memory, element, items, count as usize, at, next);
}

/// Stores so many values of one layout, one behind the other; plain bytes as they stand, where they
/// do (CanonicalABI.md, "Storing" of lists).
#[cycle(storing)]
pub fn store_row<S: StoredSource>(
    to: &Target<'_>,
    memory: &mut [u8],
    element: &Layout,
    items: S::Rest,
    count: usize,
    at: usize,
    next: &mut Next,
)
    requires laid { Laid (layout_of element.now).head.size (layout_of element.now).shape }
    requires inside { at + count * (layout_of element.now).head.size ≤ length memory.old }
    requires ready { S.values_ready items (length memory.old) (given_of to.now)
        (layout_of element.now).head (layout_of element.now).shape count next.old.part
        next.old.handle }
    ensures { StoresElements (given_of to.now) (layout_of element.now)
        (S.values_left items (layout_of element.now).head (layout_of element.now).shape count) at
        next.old memory.old next.new memory.new }
{
    if element.head.is_bulk {
        if let Some(bytes) = S::plain_bytes(&items, element, count) {
            write_bytes(memory, at, bytes);
            return;
        }
    }
    let mut rest = items;
    let mut place = at;
    for _ in 0..count {
        let source = S::next_element(&mut rest, element);
        store_value(to, memory, element, source, place, next);
        place += element.head.size as usize;
    }
}

/// Stores a record or a tuple of so many bytes.
#[cycle(storing)]
fn store_record<S: StoredSource>(
    to: &Target<'_>,
    memory: &mut [u8],
    parts: &[Part],
    source: S,
    at: usize,
    size: u32,
    next: &mut Next,
)
    requires laid { PartsLaid size 0 (fields_of parts.now) }
    requires inside { at + size ≤ length memory.old }
    requires ready { (e : HeadTy) × S.ready source (length memory.old) (given_of to.now) e
        (record_of parts.now) next.old.part next.old.handle }
    ensures { StoresValue (given_of to.now) (record_of parts.now)
        (S.value source (record_of parts.now)) at next.old memory.old next.new memory.new }
{
    let fields = source.fields();
    store_fields::<S>(to, memory, parts, fields, at, size, next);
}

/// Stores the fields of a record or a tuple of so many bytes, each at its offset behind an address
/// (CanonicalABI.md, "Storing" of records). The next part and the next handle are then those behind
/// the fields'; it takes no memory.
#[cycle(storing)]
pub fn store_fields<S: StoredSource>(
    to: &Target<'_>,
    memory: &mut [u8],
    parts: &[Part],
    fields: S::Rest,
    at: usize,
    size: u32,
    next: &mut Next,
)
    requires laid { PartsLaid size 0 (fields_of parts.now) }
    requires inside { at + size ≤ length memory.old }
    requires ready { S.fields_ready fields (length memory.old) (given_of to.now)
        (fields_of parts.now) next.old.part next.old.handle }
    ensures { StoresFields (given_of to.now) (fields_of parts.now)
        (S.fields_left fields (fields_of parts.now)) at next.old memory.old
        next.new memory.new }
{
    let mut rest = fields;
    for part in parts {
        let source = S::next_field(&mut rest, part);
        store_field(to, memory, part, source, at, next);
    }
}

/// Stores a field of what stands at an address.
#[cycle(storing)]
fn store_field<S: StoredSource>(
    to: &Target<'_>,
    memory: &mut [u8],
    part: &Part,
    source: S,
    at: usize,
    next: &mut Next,
)
    requires laid { Laid (part_of part.now).1.head.size (part_of part.now).1.shape }
    requires inside { at + (part_of part.now).0 + (part_of part.now).1.head.size
        ≤ length memory.old }
    requires ready { S.ready source (length memory.old) (given_of to.now)
        (part_of part.now).1.head (part_of part.now).1.shape next.old.part next.old.handle }
    ensures { StoresValue (given_of to.now) (part_of part.now).1.shape
        (S.value source (part_of part.now).1.shape) (at + (part_of part.now).0)
        next.old memory.old next.new memory.new }
{
    let place = at + part.offset as usize;
    store_value(to, memory, &part.layout, source, place, next);
}

/// Stores one of some cases: its number, in so many bytes, and what it carries, so far behind an
/// address.
#[cycle(storing)]
fn store_case<S: StoredSource>(
    to: &Target<'_>,
    memory: &mut [u8],
    payloads: &[Payload],
    discriminant: u32,
    offset: u32,
    source: S,
    at: usize,
    size: u32,
    next: &mut Next,
)
    requires laid { Laid size (cases_of discriminant offset payloads.now) }
    requires inside { at + size ≤ length memory.old }
    requires ready { (e : HeadTy) × S.ready source (length memory.old) (given_of to.now) e
        (cases_of discriminant offset payloads.now) next.old.part next.old.handle }
    ensures { StoresValue (given_of to.now) (cases_of discriminant offset payloads.now)
        (S.value source (cases_of discriminant offset payloads.now)) at next.old memory.old
        next.new memory.new }
{
    let case = source.case(discriminant, offset);
    write_number(memory, at, discriminant, u64::from(case.0));
    match payloads.get(case.0 as usize) {
        Some(payload) => { store_payload(to, memory, payload, case.1, at + offset as usize, next) }
        None => {}
    }
}

/// Stores what a case carries, if anything, at an address.
#[cycle(storing)]
fn store_payload<S: StoredSource>(
    to: &Target<'_>,
    memory: &mut [u8],
    payload: &Payload,
    source: Option<S>,
    at: usize,
    next: &mut Next,
)
    requires lies { PayloadLies (length memory.old) at (payload_of payload.now) }
    requires ready { IsCarriedReady
        (λ s e sh. S.ready s (length memory.old) (given_of to.now) e sh next.old.part
        next.old.handle) (payload_of payload.now) source }
    ensures { StoresPayload (given_of to.now) (payload_of payload.now)
        (case_told S.value 0 (payload_of payload.now) source) at next.old memory.old
        next.new memory.new }
{
    if let Payload::Carried(layout) = payload {
        if let Some(source) = source {
            store_value(to, memory, layout, source, at, next);
        }
    }
}
