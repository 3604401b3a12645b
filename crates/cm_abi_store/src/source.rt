//! Where values come from that are stored and passed.

ghost use Rattle.std.specs.Prelude.{◌≡◌, ℕ, suc, ◌+◌, ◌*◌, ◌<◌, ◌≤◌, List, IfSome, IsTrue, length};
ghost use Rattle.cm_types.specs.Values.{HandleValue, Val, Vals, count_of, no_vals, val};
ghost use Rattle.cm_types.specs.Values.{elements as elements_value, handle as handle_value};
ghost use Rattle.cm_types.specs.Values.{parts as parts_value, text as text_value};
ghost use Rattle.cm_layout.specs.Layouts.{layout_of, part_of};
ghost use Rattle.cm_layout.specs.Shapes.{Parts, Payloads, Shape, cases_shape, fields_shape};
ghost use Rattle.cm_layout.specs.Shapes.{fixed_list_shape, handle_shape, leaf_shape, list_shape};
ghost use Rattle.cm_layout.specs.Shapes.{no_parts, string_shape};
ghost use Rattle.cm_layout.specs.declared.heads.Head.{Head as HeadTy};
ghost use Rattle.cm_layout.specs.declared.layouts.HandleType.{HandleType};
ghost use Rattle.cm_abi_model.specs.Parts.{handle_count, part_count};
ghost use Rattle.cm_abi_model.specs.Requests.{stored_charset, text_bytes};
ghost use Rattle.cm_abi_model.specs.Stores.{Given, placed, poke};
ghost use Rattle.cm_abi_store.specs.Fitting.{HasRoom};
ghost use Rattle.cm_abi_store.specs.Storing.{number_in};
ghost use Rattle.cm_abi_store.specs.Sources.{ArePlainBytes, IsCarriedReady, case_told};
ghost use Rattle.cm_abi_store.specs.Sources.{field_before, payload_in};

use cm_abi_model::StringEncoding;
use cm_layout::{Layout, Leaf, Part};

/// Where a value comes from that is stored or passed by its layout: a tree of values, a memory in
/// which it stands, or core values that pass it (CanonicalABI.md, "Storing" and "Flattening"). A
/// walk down the layout asks for what the layout says is there, and for nothing else.
///
/// What is asked of a source is said of where its value goes: a memory of so many bytes, what is
/// given there, and the numbers of the value's first part and first handle.
pub trait ValueSource: Copy {
    /// The elements or the fields that are still to come.
    type Rest: Copy;

    /// The value of a shape that stands here.
    ghost value: { Self → Shape → Val };

    /// That it can be stored: it is one of the shape, its parts have places, its handles numbers.
    ghost ready: { Self → ℕ → Given → HeadTy → Shape → ℕ → ℕ → Type 0 };

    /// The scalars of the string that stands here.
    ghost scalars: { Self → List ℕ };

    /// The next so many elements, and that they can be stored.
    ghost values_left: { Self.Rest → HeadTy → Shape → ℕ → Vals };

    ghost values_ready: { Self.Rest → ℕ → Given → HeadTy → Shape → ℕ → ℕ → ℕ → Type 0 };

    /// The next fields, and that they can be stored.
    ghost fields_left: { Self.Rest → Parts → Vals };

    ghost fields_ready: { Self.Rest → ℕ → Given → Parts → ℕ → ℕ → Type 0 };

    /// The number that a leaf is stored as.
    fn leaf(self, leaf: Leaf) -> u64
        requires { (n : ℕ) × (g : Given) × (e : HeadTy) × (k : ℕ) × (h : ℕ)
            × ready self n g e (leaf_shape leaf) k h }
        ensures number { result ≡ number_in (value self (leaf_shape leaf)) }
        ensures counts { (n : ℕ) (g : Given) (e : HeadTy) (k h : ℕ)
            → ready self n g e (leaf_shape leaf) k h
            → (part_count (value self (leaf_shape leaf)) ≡ 0)
            × (handle_count (value self (leaf_shape leaf)) ≡ 0) };

    /// How many bytes the string takes as it is stored, as the part of this number, from 0.
    fn text_size(self, target: StringEncoding, part: usize) -> usize
        requires { (n : ℕ) × (g : Given) × (e : HeadTy) × (h : ℕ)
            × (g.charset ≡ stored_charset target) × ready self n g e string_shape part h }
        ensures { (n : ℕ) (g : Given) (e : HeadTy) (h : ℕ) → g.charset ≡ stored_charset target
            → ready self n g e string_shape part h
            → (value self string_shape ≡ text_value (scalars self))
            × (result ≡ length (text_bytes (stored_charset target) (scalars self)))
            × HasRoom n g part result };

    /// Writes the bytes of the string, so many, as it is stored, at an address.
    fn write_text(
        self,
        target: StringEncoding,
        memory: &mut [u8],
        at: usize,
        size: usize,
        part: usize,
    )
        requires ready { (n : ℕ) × (g : Given) × (e : HeadTy) × (h : ℕ)
            × (g.charset ≡ stored_charset target) × ready self n g e string_shape part h }
        requires size { size ≡ length (text_bytes (stored_charset target) (scalars self)) }
        requires inside { at + size ≤ length memory.old }
        ensures stored { memory.new
            ≡ poke (placed at (text_bytes (stored_charset target) (scalars self))) memory.old }
        ensures stays { length memory.new ≡ length memory.old };

    /// The elements of a list of fixed length.
    fn items(self, count: usize) -> Self::Rest
        requires { (n : ℕ) × (g : Given) × (e : HeadTy) × (element : HeadTy) × (sh : Shape)
            × (k : ℕ) × (h : ℕ) × ready self n g e (fixed_list_shape element sh count) k h }
        ensures { (n : ℕ) (g : Given) (e element : HeadTy) (sh : Shape) (k h : ℕ)
            → ready self n g e (fixed_list_shape element sh count) k h
            → (value self (fixed_list_shape element sh count)
            ≡ parts_value (values_left result element sh count))
            × values_ready result n g element sh count k h };

    /// The fields of a record or a tuple.
    fn fields(self) -> Self::Rest
        requires { (n : ℕ) × (g : Given) × (e : HeadTy) × (ps : Parts) × (k : ℕ) × (h : ℕ)
            × ready self n g e (fields_shape ps) k h }
        ensures { (n : ℕ) (g : Given) (e : HeadTy) (ps : Parts) (k h : ℕ)
            → ready self n g e (fields_shape ps) k h
            → (value self (fields_shape ps) ≡ parts_value (fields_left result ps))
            × fields_ready result n g ps k h };

    /// The number of the case, which takes so many bytes, and what it carries, if anything, so far
    /// behind where the whole stands.
    fn case(self, discriminant: u32, offset: u32) -> (u32, Option<Self>)
        requires { (n : ℕ) × (g : Given) × (e : HeadTy) × (ps : Payloads) × (k : ℕ) × (h : ℕ)
            × ready self n g e (cases_shape discriminant offset ps) k h }
        ensures { (n : ℕ) (g : Given) (e : HeadTy) (ps : Payloads) (k h : ℕ)
            → ready self n g e (cases_shape discriminant offset ps) k h
            → (value self (cases_shape discriminant offset ps)
            ≡ case_told value result.0 (payload_in ps result.0) result.1)
            × IsCarriedReady (λ s e sh. ready s n g e sh k h) (payload_in ps result.0) result.1 };

    /// The next element, by its layout.
    fn next_element(rest: &mut Self::Rest, element: &Layout) -> Self
        requires { (n : ℕ) × (g : Given) × (count : ℕ) × (k : ℕ) × (h : ℕ)
            × values_ready rest.old n g (layout_of element.now).head (layout_of element.now).shape
            (suc count) k h }
        ensures { (n : ℕ) (g : Given) (count k h : ℕ)
            → values_ready rest.old n g (layout_of element.now).head (layout_of element.now).shape
            (suc count) k h
            → (values_left rest.old (layout_of element.now).head (layout_of element.now).shape
            (suc count)
            ≡ val (value result (layout_of element.now).shape)
            (values_left rest.new (layout_of element.now).head (layout_of element.now).shape
            count))
            × ready result n g (layout_of element.now).head (layout_of element.now).shape k h
            × values_ready rest.new n g (layout_of element.now).head
            (layout_of element.now).shape count
            (k + part_count (value result (layout_of element.now).shape))
            (h + handle_count (value result (layout_of element.now).shape)) };

    /// The next field, by its layout and where it stands in the whole.
    fn next_field(rest: &mut Self::Rest, part: &Part) -> Self
        requires { (n : ℕ) × (g : Given) × (ps : Parts) × (k : ℕ) × (h : ℕ)
            × fields_ready rest.old n g (field_before (part_of part.now) ps) k h }
        ensures { (n : ℕ) (g : Given) (ps : Parts) (k h : ℕ)
            → fields_ready rest.old n g (field_before (part_of part.now) ps) k h
            → (fields_left rest.old (field_before (part_of part.now) ps)
            ≡ val (value result (part_of part.now).1.shape) (fields_left rest.new ps))
            × ready result n g (part_of part.now).1.head (part_of part.now).1.shape k h
            × fields_ready rest.new n g ps
            (k + part_count (value result (part_of part.now).1.shape))
            (h + handle_count (value result (part_of part.now).1.shape)) };

    /// The bytes of so many elements that are plain bytes, where they stand as they are stored.
    fn plain_bytes<'a>(rest: &'a Self::Rest, element: &Layout, count: usize) -> Option<&'a [u8]>
        requires bulk { IsTrue (layout_of element.now).head.is_bulk }
        requires ready { (n : ℕ) × (g : Given) × (k : ℕ) × (h : ℕ)
            × values_ready rest.now n g (layout_of element.now).head (layout_of element.now).shape
            count k h }
        ensures { IfSome result (λ bytes. (n : ℕ) (g : Given) (k h at : ℕ)
            → values_ready rest.now n g (layout_of element.now).head (layout_of element.now).shape
            count k h
            → ArePlainBytes g (layout_of element.now)
            (values_left rest.now (layout_of element.now).head (layout_of element.now).shape count)
            count at k h bytes.now) };

    /// No elements are left where none are to come.
    ghost no_elements: { (r : Self.Rest) (n : ℕ) (g : Given) (e : HeadTy) (sh : Shape) (k h : ℕ)
        → values_ready r n g e sh 0 k h → values_left r e sh 0 ≡ no_vals };

    /// Nor fields.
    ghost no_fields: { (r : Self.Rest) (n : ℕ) (g : Given) (k h : ℕ)
        → fields_ready r n g no_parts k h → fields_left r no_parts ≡ no_vals };

    /// A handle is one, and has a number.
    ghost is_handle: { (s : Self) (n : ℕ) (g : Given) (e : HeadTy) (t : HandleType) (k h : ℕ)
        → ready s n g e (handle_shape t) k h
        → (h < length g.numbers) × (w : HandleValue)
        × (value s (handle_shape t) ≡ handle_value w) };
}

/// A source of values whose lists hold more of them: what is stored in a memory.
pub trait StoredSource: ValueSource {
    /// The elements of a list, with how many they are.
    fn elements(self) -> (usize, Self::Rest)
        requires { (n : ℕ) × (g : Given) × (e : HeadTy) × (element : HeadTy) × (sh : Shape)
            × (k : ℕ) × (h : ℕ) × Self.ready self n g e (list_shape element sh) k h }
        ensures { (n : ℕ) (g : Given) (e element : HeadTy) (sh : Shape) (k h : ℕ)
            → Self.ready self n g e (list_shape element sh) k h
            → (Self.value self (list_shape element sh)
            ≡ elements_value (Self.values_left result.1 element sh result.0))
            × (count_of (Self.values_left result.1 element sh result.0) ≡ result.0)
            × HasRoom n g k (result.0 * element.size)
            × Self.values_ready result.1 n g element sh result.0 (k + 1) h };
}

/// A source of values that are passed in core values, whose lists hold values that are stored.
pub trait PassedSource: ValueSource {
    /// Where the elements of its lists come from.
    type Stored: StoredSource;

    /// The elements of a list, with how many they are.
    fn stored_elements(self) -> (usize, <Self::Stored as ValueSource>::Rest)
        requires { (n : ℕ) × (g : Given) × (e : HeadTy) × (element : HeadTy) × (sh : Shape)
            × (k : ℕ) × (h : ℕ) × Self.ready self n g e (list_shape element sh) k h }
        ensures { (n : ℕ) (g : Given) (e element : HeadTy) (sh : Shape) (k h : ℕ)
            → Self.ready self n g e (list_shape element sh) k h
            → (Self.value self (list_shape element sh)
            ≡ elements_value (Self.Stored.values_left result.1 element sh result.0))
            × (count_of (Self.Stored.values_left result.1 element sh result.0) ≡ result.0)
            × HasRoom n g k (result.0 * element.size)
            × Self.Stored.values_ready result.1 n g element sh result.0 (k + 1) h };
}
