//! The types in a type, by their layouts.

ghost use Rattle.std.specs.Prelude.{◌≡◌, map, option_and_then, option_map, slice_get};
ghost use Rattle.cm_layout.specs.Layouts.{layout_of, part_of, payload_of};
ghost use Rattle.cm_layout.specs.Shapes.{layout_at};
ghost use Rattle.cm_types.specs.Types.{Ty};
ghost use Rattle.huxarte_c_calls.specs.Nodes.{node_at, sort_number};
ghost use Rattle.huxarte_c_calls.specs.Shapes.{case_at, count_in, discriminant_in, element_at};
ghost use Rattle.huxarte_c_calls.specs.Shapes.{handle_sort, layout_along, leaf_count, leaf_sort};
ghost use Rattle.huxarte_c_calls.specs.Shapes.{node_in};
ghost use Rattle.huxarte_c_calls.specs.Shapes.{part_in, sort_in};

use cm_layout::{Form, HandleType, Layout, Leaf, Part, Payload};

/// What a type is, as CanonicalABI.md despecializes it: `HuxNode::sort` has its number.
#[derive(Clone, Copy)]
pub enum HuxSort {
    Bool = 0,
    /// A number with a sign.
    Signed = 1,
    /// A number without a sign.
    Unsigned = 2,
    Char = 3,
    /// `count` labels.
    Flags = 4,
    String = 5,
    /// A list, whose elements lie elsewhere: part 0 is one.
    List = 6,
    /// `count` elements in place: part 0 is the first one.
    FixedList = 7,
    /// The `count` fields of a record or a tuple: part k is field k.
    Fields = 8,
    /// The `count` cases of a variant, an enum, an option or a result: part k is what case k
    /// carries.
    Cases = 9,
    Own = 10,
    Borrow = 11,
}

/// A type in memory and in core values (CanonicalABI.md, "Alignment", "Element Size" and
/// "Flattening").
#[repr(C)]
#[derive(Clone, Copy)]
pub struct HuxNode {
    /// The number of a `HuxSort`.
    pub sort: u32,
    /// Where it stands in the type that holds it, in bytes; 0 where it is the element of a list.
    pub offset: u32,
    /// Its size, in bytes.
    pub size: u32,
    /// Its alignment, in bytes.
    pub align: u32,
    /// How many core values pass it.
    pub width: u32,
    /// The size of the number of a case, in bytes; 0 where there are no cases.
    pub discriminant: u32,
    /// How many labels, elements, fields or cases it has.
    pub count: usize,
}

fn leaf_sort(leaf: Leaf) -> HuxSort
    ensures { result ≡ leaf_sort leaf }
{
    match leaf {
        Leaf::Bool => HuxSort::Bool,
        Leaf::Signed(_) => HuxSort::Signed,
        Leaf::Unsigned(_) => HuxSort::Unsigned,
        Leaf::Char => HuxSort::Char,
        Leaf::Flags { .. } => HuxSort::Flags,
    }
}

fn handle_sort(handle: HandleType) -> HuxSort
    ensures { result ≡ handle_sort handle }
{
    match handle {
        HandleType::Own(_) => HuxSort::Own,
        HandleType::Borrow(_) => HuxSort::Borrow,
    }
}

/// What a type is.
fn sort(layout: &Layout) -> HuxSort
    ensures { result ≡ sort_in (layout_of layout.now).shape }
{
    match &layout.form {
        Form::Leaf(leaf) => leaf_sort(*leaf),
        Form::String => HuxSort::String,
        Form::List(_) => HuxSort::List,
        Form::FixedList { .. } => HuxSort::FixedList,
        Form::Fields(_) => HuxSort::Fields,
        Form::Cases { .. } | Form::Enum { .. } => HuxSort::Cases,
        Form::Handle(handle) => handle_sort(*handle),
    }
}

/// The size of the number of a case, in bytes; 0 where there are no cases.
fn discriminant(layout: &Layout) -> u32
    ensures { result ≡ discriminant_in (layout_of layout.now).shape }
{
    match &layout.form {
        Form::Cases { discriminant, .. } | Form::Enum { discriminant, .. } => *discriminant,
        _ => 0,
    }
}

fn leaf_count(leaf: Leaf) -> usize
    ensures { result ≡ leaf_count leaf }
{
    match leaf {
        Leaf::Flags { labels, .. } => labels,
        _ => 0,
    }
}

/// How many labels, elements in place, fields or cases there are.
fn count(layout: &Layout) -> usize
    ensures { result ≡ count_in (layout_of layout.now).shape }
{
    match &layout.form {
        Form::Leaf(leaf) => leaf_count(*leaf),
        Form::FixedList { length, .. } => *length as usize,
        Form::Fields(parts) => parts.len(),
        Form::Cases { payloads, .. } => payloads.len(),
        Form::Enum { count, .. } => *count,
        Form::String | Form::List(_) | Form::Handle(_) => 0,
    }
}

/// The numbers of a type at an offset in the one that holds it, in bytes or in core values.
fn node(offset: u32, layout: &Layout) -> HuxNode
    ensures { result ≡ node_in (offset, layout_of layout.now) }
{
    HuxNode {
        sort: sort(layout) as u32,
        offset,
        size: layout.head.size,
        align: layout.head.align,
        width: layout.head.width,
        discriminant: discriminant(layout),
        count: count(layout),
    }
}

/// An element, which is part 0.
fn element_at(element: &Layout, number: usize) -> Option<(u32, &Layout)>
    ensures { option_map (λ p. (p.0, layout_of p.1.now)) result
        ≡ element_at (layout_of element.now) number }
{
    if number == 0 {
        Some((0, element))
    } else {
        None
    }
}

/// A field, with where it stands.
fn field_at(parts: &[Part], number: usize) -> Option<(u32, &Layout)>
    ensures { option_map (λ p. (p.0, layout_of p.1.now)) result
        ≡ slice_get (map part_of parts.now) number }
{
    let part = parts.get(number)?;
    Some((part.offset, &part.layout))
}

/// What a case carries, if anything.
fn carried_at(payloads: &[Payload], number: usize) -> Option<&Layout>
    ensures { option_map (λ l. layout_of l.now) result
        ≡ option_and_then (λ p. p) (slice_get (map payload_of payloads.now) number) }
{
    match payloads.get(number)? {
        Payload::Carried(layout) => Some(layout),
        Payload::Nothing => None,
    }
}

/// The payload of a case among those that stand at an offset, with this offset.
fn case_at(offset: u32, payloads: &[Payload], number: usize) -> Option<(u32, &Layout)>
    ensures { option_map (λ p. (p.0, layout_of p.1.now)) result
        ≡ case_at offset
        (option_and_then (λ p. p) (slice_get (map payload_of payloads.now) number)) }
{
    let layout = carried_at(payloads, number)?;
    Some((offset, layout))
}

/// A part of a type, and where it stands there.
fn part(layout: &Layout, number: usize) -> Option<(u32, &Layout)>
    ensures { option_map (λ p. (p.0, layout_of p.1.now)) result
        ≡ part_in (layout_of layout.now).shape number }
{
    match &layout.form {
        Form::List(element) => element_at(element, number),
        Form::FixedList { element, .. } => element_at(element, number),
        Form::Fields(parts) => field_at(parts, number),
        Form::Cases {
            offset,
            payloads,
            ..
        } => case_at(*offset, payloads, number),
        Form::Enum { .. } => None,
        Form::Leaf(_) | Form::String | Form::Handle(_) => None,
    }
}

/// The type that a path leads to: a part, a part of that, and so on.
fn follow(layout: &Layout, path: &[u32]) -> Option<HuxNode>
    ensures { result
        ≡ option_map node_in (layout_along path.now (0, layout_of layout.now)) }
{
    let mut offset = 0;
    let mut found = layout;
    for number in path {
        let (at, layout) = part(found, *number as usize)?;
        offset = at;
        found = layout;
    }
    Some(node(offset, found))
}

/// The numbers of the type that a path leads to from one with this layout.
pub(crate) fn node_at(layout: &Layout, path: &[u32]) -> Option<HuxNode>
    ensures { (t : Ty) → layout_of layout.now ≡ layout_at t → result ≡ node_at t path.now }
{
    follow(layout, path)
}
