//! Values in core values: one walk down a layout, wherever the values come from, with what is
//! behind pointers in memory.

ghost use Rattle.std.specs.Prelude.{◌≡◌, ℕ, ◌+◌, ◌*◌, ◌≤◌, [], length};
ghost use Rattle.cm_layout.specs.Laid.{Laid};
ghost use Rattle.cm_layout.specs.Layouts.{layout_of, part_of, payload_of};
ghost use Rattle.cm_layout.specs.Shapes.{handle_shape, leaf_shape, string_shape};
ghost use Rattle.cm_layout.specs.declared.heads.Head.{Head as HeadTy};
ghost use Rattle.cm_abi_model.specs.Parts.{handle_count, part_count};
ghost use Rattle.cm_abi_model.specs.Stores.{Given, poke};
ghost use Rattle.cm_abi_store.specs.FlatLowering.{ArePassedIn, IsPassedIn, PayloadIsPassed};
ghost use Rattle.cm_abi_store.specs.FlatLowering.{behind_by, slots_by};
ghost use Rattle.cm_abi_store.specs.Storing.{given_of};
ghost use Rattle.cm_abi_store.specs.Sources.{IsCarriedReady, case_told};
ghost use Rattle.cm_abi_store.specs.Stored.{LowersFieldsFlat, LowersElementsFlat};
ghost use Rattle.cm_abi_store.specs.Stored.{LowersFlat, LowersPayloadFlat};
ghost use Rattle.cm_abi_store.specs.Stored.{cases_of, enum_of, fields_of, fixed_list_of, list_of};
ghost use Rattle.cm_abi_store.specs.Stored.{record_of};

use cm_abi_store::{
    Next, PassedSource, Target, ValueSource, field_width, number_passed, pass_handle, pass_pointer,
    store_row, units_stored,
};
use cm_layout::{Form, HandleType, Layout, Leaf, Part, Payload};

/// Passes a leaf.
fn pass_leaf<S: ValueSource>(slots: &mut [u64], leaf: Leaf, source: S, at: usize)
    requires inside { at + 1 ≤ length slots.old }
    requires ready { (n : ℕ) × (g : Given) × (e : HeadTy) × (k : ℕ) × (h : ℕ) × S.ready source n g e
        (leaf_shape leaf) k h }
    ensures slots { (g : Given) (k h : ℕ) → slots.new
        ≡ poke (slots_by g (leaf_shape leaf) (S.value source (leaf_shape leaf)) at k h) slots.old }
    ensures slots_stay { length slots.new ≡ length slots.old }
    ensures parts { part_count (S.value source (leaf_shape leaf)) ≡ 0 }
    ensures handles { handle_count (S.value source (leaf_shape leaf)) ≡ 0 }
{
    let number = source.leaf(leaf);
    slots[at] = number_passed(leaf, number);
}

/// Passes the number of a case that carries nothing, of so many cases.
fn pass_enum<S: ValueSource>(
    slots: &mut [u64],
    discriminant: u32,
    count: usize,
    source: S,
    at: usize,
)
    requires inside { at + 1 ≤ length slots.old }
    requires ready { (n : ℕ) × (g : Given) × (e : HeadTy) × (k : ℕ) × (h : ℕ) × S.ready source n g e
        (enum_of discriminant count) k h }
    ensures slots { (g : Given) (k h : ℕ) → slots.new
        ≡ poke (slots_by g (enum_of discriminant count)
        (S.value source (enum_of discriminant count)) at k h) slots.old }
    ensures behind { (g : Given) (k h : ℕ) → behind_by g (enum_of discriminant count)
        (S.value source (enum_of discriminant count)) k h ≡ [] }
    ensures slots_stay { length slots.new ≡ length slots.old }
    ensures parts { part_count (S.value source (enum_of discriminant count)) ≡ 0 }
    ensures handles { handle_count (S.value source (enum_of discriminant count)) ≡ 0 }
{
    let case = source.case(discriminant, discriminant);
    slots[at] = u64::from(case.0);
}

/// Passes a string: a pointer to its place and how many units it has, and its bytes at its place.
fn pass_text<S: ValueSource>(
    to: &Target<'_>,
    slots: &mut [u64],
    memory: &mut [u8],
    source: S,
    at: usize,
    next: &mut Next,
)
    requires inside { at + 2 ≤ length slots.old }
    requires ready { (e : HeadTy) × S.ready source (length memory.old) (given_of to.now) e
        string_shape next.old.part next.old.handle }
    ensures { LowersFlat (given_of to.now) string_shape
        (S.value source string_shape) at next.old slots.old memory.old
        next.new slots.new memory.new }
{
    let part = next.part;
    let size = source.text_size(to.encoding, part);
    let units = units_stored(to.encoding, size);
    let place = pass_pointer(to, slots, at, units, next);
    source.write_text(to.encoding, memory, place, size, part);
}

/// Passes a handle: its number.
fn pass_handle_of<S: ValueSource>(
    to: &Target<'_>,
    slots: &mut [u64],
    memory: &mut [u8],
    handle: HandleType,
    source: S,
    at: usize,
    next: &mut Next,
)
    requires inside { at + 1 ≤ length slots.old }
    requires ready { (e : HeadTy) × S.ready source (length memory.old) (given_of to.now) e
        (handle_shape handle) next.old.part next.old.handle }
    ensures { LowersFlat (given_of to.now) (handle_shape handle)
        (S.value source (handle_shape handle)) at next.old slots.old memory.old
        next.new slots.new memory.new }
{
    pass_handle(to, slots, at, next);
}

/// Passes a list: a pointer to its place and how many elements it has, and these at its place.
fn pass_list<S: PassedSource>(
    to: &Target<'_>,
    slots: &mut [u64],
    memory: &mut [u8],
    element: &Layout,
    source: S,
    at: usize,
    next: &mut Next,
)
    requires laid { Laid (layout_of element.now).head.size (layout_of element.now).shape }
    requires inside { at + 2 ≤ length slots.old }
    requires ready { (e : HeadTy) × S.ready source (length memory.old) (given_of to.now) e
        (list_of (layout_of element.now)) next.old.part next.old.handle }
    ensures { LowersFlat (given_of to.now) (list_of (layout_of element.now))
        (S.value source (list_of (layout_of element.now))) at next.old slots.old memory.old
        next.new slots.new memory.new }
{
    let elements = source.stored_elements();
    let place = pass_pointer(to, slots, at, elements.0, next);
    store_row::<S::Stored>(to, memory, element, elements.1, elements.0, place, next);
}

/// Passes a value by its layout in slots from this one on: the standard's `lower_flat`
/// (CanonicalABI.md, "Flat Lowering"). The next part and the next handle are then those behind the
/// value's; it takes no memory.
#[cycle(passing)]
pub fn pass_value<S: PassedSource>(
    to: &Target<'_>,
    slots: &mut [u64],
    memory: &mut [u8],
    layout: &Layout,
    source: S,
    at: usize,
    next: &mut Next,
)
    requires passed { IsPassedIn (layout_of layout.now).head.width (layout_of layout.now).shape }
    requires inside { at + (layout_of layout.now).head.width ≤ length slots.old }
    requires ready { S.ready source (length memory.old) (given_of to.now)
        (layout_of layout.now).head (layout_of layout.now).shape next.old.part next.old.handle }
    ensures { LowersFlat (given_of to.now) (layout_of layout.now).shape
        (S.value source (layout_of layout.now).shape) at next.old slots.old memory.old
        next.new slots.new memory.new }
{
    match &layout.form {
        Form::Leaf(leaf) => pass_leaf(slots, *leaf, source, at),
        Form::String => pass_text(to, slots, memory, source, at, next),
        Form::List(element) => pass_list(to, slots, memory, element, source, at, next),
        Form::FixedList { element, length } => {
            pass_fixed_list(to, slots, memory, element, *length, source, at, next)
        }
        Form::Fields(parts) => pass_record(
            to,
            slots,
            memory,
            parts,
            layout.head.width,
            source,
            at,
            next,
        ),
        Form::Cases {
            discriminant,
            offset,
            payloads,
        } => {
            pass_case(
                to,
                slots,
                memory,
                payloads,
                *discriminant,
                *offset,
                layout.head.width,
                source,
                at,
                next,
            )
        }
        Form::Enum {
            discriminant,
            count,
        } => pass_enum(slots, *discriminant, *count, source, at),
        Form::Handle(handle) => pass_handle_of(to, slots, memory, *handle, source, at, next),
    }
}

/// Passes a list of so many elements in place.
#[cycle(passing)]
fn pass_fixed_list<S: PassedSource>(
    to: &Target<'_>,
    slots: &mut [u64],
    memory: &mut [u8],
    element: &Layout,
    count: u32,
    source: S,
    at: usize,
    next: &mut Next,
)
    requires passed { IsPassedIn (layout_of element.now).head.width (layout_of element.now).shape }
    requires inside { at + count * (layout_of element.now).head.width ≤ length slots.old }
    requires ready { (e : HeadTy) × S.ready source (length memory.old) (given_of to.now) e
        (fixed_list_of (layout_of element.now) count) next.old.part next.old.handle }
    ensures { LowersFlat (given_of to.now) (fixed_list_of (layout_of element.now) count)
        (S.value source (fixed_list_of (layout_of element.now) count)) at
        next.old slots.old memory.old next.new slots.new memory.new }
{
    let items = source.items(count as usize);
    pass_row::<S>(to, slots, memory, element, items, count as usize, at, next);
}

/// Passes so many values of one layout, one behind the other.
#[cycle(passing)]
fn pass_row<S: PassedSource>(
    to: &Target<'_>,
    slots: &mut [u64],
    memory: &mut [u8],
    element: &Layout,
    items: S::Rest,
    count: usize,
    at: usize,
    next: &mut Next,
)
    requires passed { IsPassedIn (layout_of element.now).head.width (layout_of element.now).shape }
    requires inside { at + count * (layout_of element.now).head.width ≤ length slots.old }
    requires ready { S.values_ready items (length memory.old) (given_of to.now)
        (layout_of element.now).head (layout_of element.now).shape count next.old.part
        next.old.handle }
    ensures { LowersElementsFlat (given_of to.now) (layout_of element.now)
        (S.values_left items (layout_of element.now).head (layout_of element.now).shape count) at
        next.old slots.old memory.old next.new slots.new memory.new }
{
    let mut rest = items;
    let mut slot = at;
    for _ in 0..count {
        let source = S::next_element(&mut rest, element);
        pass_value(to, slots, memory, element, source, slot, next);
        slot += element.head.width as usize;
    }
}

/// Passes a record or a tuple in so many slots.
#[cycle(passing)]
fn pass_record<S: PassedSource>(
    to: &Target<'_>,
    slots: &mut [u64],
    memory: &mut [u8],
    parts: &[Part],
    width: u32,
    source: S,
    at: usize,
    next: &mut Next,
)
    requires passed { ArePassedIn width 0 (fields_of parts.now) }
    requires inside { at + width ≤ length slots.old }
    requires ready { (e : HeadTy) × S.ready source (length memory.old) (given_of to.now) e
        (record_of parts.now) next.old.part next.old.handle }
    ensures { LowersFlat (given_of to.now) (record_of parts.now)
        (S.value source (record_of parts.now)) at next.old slots.old memory.old
        next.new slots.new memory.new }
{
    let fields = source.fields();
    pass_fields::<S>(to, slots, memory, parts, width, fields, at, next);
}

/// Passes the fields of a record or a tuple in so many slots.
#[cycle(passing)]
pub(crate) fn pass_fields<S: PassedSource>(
    to: &Target<'_>,
    slots: &mut [u64],
    memory: &mut [u8],
    parts: &[Part],
    width: u32,
    fields: S::Rest,
    at: usize,
    next: &mut Next,
)
    requires passed { ArePassedIn width 0 (fields_of parts.now) }
    requires inside { at + width ≤ length slots.old }
    requires ready { S.fields_ready fields (length memory.old) (given_of to.now)
        (fields_of parts.now) next.old.part next.old.handle }
    ensures { LowersFieldsFlat (given_of to.now) (fields_of parts.now)
        (S.fields_left fields (fields_of parts.now)) at next.old slots.old memory.old
        next.new slots.new memory.new }
{
    let mut rest = fields;
    let mut slot = at;
    for part in parts {
        let source = S::next_field(&mut rest, part);
        pass_field(to, slots, memory, part, source, slot, next);
        slot += field_width(part);
    }
}

/// Passes a field in slots from this one on.
#[cycle(passing)]
fn pass_field<S: PassedSource>(
    to: &Target<'_>,
    slots: &mut [u64],
    memory: &mut [u8],
    part: &Part,
    source: S,
    at: usize,
    next: &mut Next,
)
    requires passed { IsPassedIn (part_of part.now).1.head.width (part_of part.now).1.shape }
    requires inside { at + (part_of part.now).1.head.width ≤ length slots.old }
    requires ready { S.ready source (length memory.old) (given_of to.now) (part_of part.now).1.head
        (part_of part.now).1.shape next.old.part next.old.handle }
    ensures { LowersFlat (given_of to.now) (part_of part.now).1.shape
        (S.value source (part_of part.now).1.shape) at next.old slots.old memory.old
        next.new slots.new memory.new }
{
    pass_value(to, slots, memory, &part.layout, source, at, next);
}

/// Passes one of some cases, in so many slots: its number, and what it carries in those behind it.
#[cycle(passing)]
fn pass_case<S: PassedSource>(
    to: &Target<'_>,
    slots: &mut [u64],
    memory: &mut [u8],
    payloads: &[Payload],
    discriminant: u32,
    offset: u32,
    width: u32,
    source: S,
    at: usize,
    next: &mut Next,
)
    requires passed { IsPassedIn width (cases_of discriminant offset payloads.now) }
    requires inside { at + width ≤ length slots.old }
    requires ready { (e : HeadTy) × S.ready source (length memory.old) (given_of to.now) e
        (cases_of discriminant offset payloads.now) next.old.part next.old.handle }
    ensures { LowersFlat (given_of to.now) (cases_of discriminant offset payloads.now)
        (S.value source (cases_of discriminant offset payloads.now)) at
        next.old slots.old memory.old next.new slots.new memory.new }
{
    let case = source.case(discriminant, offset);
    slots[at] = u64::from(case.0);
    match payloads.get(case.0 as usize) {
        Some(payload) => pass_payload(to, slots, memory, payload, case.1, at + 1, next),
        None => {}
    }
}

/// Passes what a case carries, if anything, in slots from this one on.
#[cycle(passing)]
fn pass_payload<S: PassedSource>(
    to: &Target<'_>,
    slots: &mut [u64],
    memory: &mut [u8],
    payload: &Payload,
    source: Option<S>,
    at: usize,
    next: &mut Next,
)
    requires passed { PayloadIsPassed (length slots.old) at (payload_of payload.now) }
    requires ready { IsCarriedReady (λ s e sh. S.ready s (length memory.old) (given_of to.now) e sh
        next.old.part next.old.handle) (payload_of payload.now) source }
    ensures { LowersPayloadFlat (given_of to.now) (payload_of payload.now)
        (case_told S.value 0 (payload_of payload.now) source) at next.old slots.old memory.old
        next.new slots.new memory.new }
{
    if let Payload::Carried(layout) = payload {
        if let Some(source) = source {
            pass_value(to, slots, memory, layout, source, at, next);
        }
    }
}
