//! What is made of the values that a walk reads.

ghost use Rattle.std.specs.Prelude.{◌≡◌, ◌++◌, ◌∷◌, [], IfErr, IfOk, IfSome, List, OnOk};
ghost use Rattle.cm_types.specs.Values.{Val, Vals, bearing, elements, no_vals, parts};
ghost use Rattle.cm_types.specs.ValueTrees.{value_of};
ghost use Rattle.cm_abi_model.specs.declared.encoding.StringEncoding.{StringEncoding as Encoded};
ghost use Rattle.cm_abi_load.specs.Outcomes.{state_of};
ghost use Rattle.cm_abi_load.specs.declared.stop.Stop.TheVariants.{Memory};
ghost use Rattle.cm_abi_load.specs.Making.{Makes, with_last};
ghost use Rattle.cm_abi_load.specs.Reading.{read_text};
ghost use Rattle.cm_abi_load.specs.Records.{text_record};
ghost use Rattle.cm_abi_model.specs.declared.record.PartRecord.{PartRecord as Told};

use crate::{Giver, Progress, Stop};
use cm_abi_model::PartRecord;
use cm_types::Value;
use std::alloc::Global;

/// What is made of the values that a walk reads, and what is kept of their strings and lists.
///
/// A walk reads values part after part. Of each it has something made, of values in a row too, and
/// it tells each string and each list before what is in it.
pub trait Maker: Copy {
    /// What is made of a value.
    type Made: Drop;

    /// What is made of values in a row, one after another.
    type Row: Drop;

    /// What is kept of the strings and lists.
    type Kept;

    // How strings are encoded where the values go, which is what records tell.
    ghost target: { Self → Encoded };

    // What was made stands for a value, or for values in a row.
    ghost stands: { Self.Made → Val → Type 0 };

    ghost stand: { Self.Row → Vals → Type 0 };

    // What was kept, with these records behind it.
    ghost keeps: { Self.Kept → List Told → Self.Kept → Type 0 };

    // Memory is wanted for values too, not for records, tags and handles alone.
    ghost allocates: { Type 0 };

    /// What is made of a value that holds no other.
    fn make(value: Value) -> Self::Made
        ensures { stands result (value_of value) };

    /// What is made of any value, if all values make one thing: then a value that cannot be at
    /// fault need not be looked at.
    fn unread() -> Option<Self::Made>
        ensures { IfSome result (λ made. (v : Val) → stands made v) };

    /// What is made of any values in a row, if all of them make one thing.
    fn unread_row() -> Option<Self::Row>
        ensures { IfSome result (λ row. (vs : Vals) → stand row vs) };

    /// What is made of the string at a pointer, of a tagged length, whose record is kept. Its bytes
    /// are taken from those that may still come, and its tag is kept, if it has one.
    ///
    /// It stops with `Misaligned` where the pointer is not aligned, else with `PointerBounds` where
    /// the string passes the end of the memory, else with `TooLarge` where fewer bytes may still
    /// come, else with `BadText` where it is no text of its encoding; and with `Memory` where there
    /// is none for what is made, for the record or for the tag.
    fn text(
        self,
        giver: &Giver<'_>,
        at: u32,
        tagged: u32,
        progress: &mut Progress,
        kept: &mut Self::Kept,
    ) -> Result<Self::Made, Stop>
        ensures { Makes stands keeps allocates
            (λ v. text_record giver.now.encoding (target self) at tagged v ∷ [])
            (read_text giver.now.memory.now giver.now.encoding at tagged (state_of progress.old))
            kept.old kept.new (state_of progress.old) (state_of progress.new) result };

    /// Keeps the record of a list; it stops with `Memory` where there is none for it.
    fn keep(kept: &mut Self::Kept, list: PartRecord) -> Result<(), Stop>
        ensures ok { OnOk result (keeps kept.old (list ∷ []) kept.new) }
        ensures err { IfErr result (λ e. e ≡ Memory) };

    /// What is made of no values.
    fn row(alloc: Global) -> Self::Row
        ensures { stand result no_vals };

    /// Adds one more value to a row; it stops with `Memory` where there is none for it.
    fn push(row: &mut Self::Row, made: Self::Made) -> Result<(), Stop>
        ensures ok { OnOk result ((vs : Vals) (v : Val) → stand row.old vs → stands made v
            → stand row.new (with_last vs v)) }
        ensures err { IfErr result (λ e. (e ≡ Memory) × allocates) };

    /// What is made of a list with these elements.
    fn list(row: Self::Row) -> Self::Made
        ensures { (vs : Vals) → stand row vs → stands result (elements vs) };

    /// What is made of a record, a tuple or a list of fixed length with these values.
    fn fields(row: Self::Row) -> Self::Made
        ensures { (vs : Vals) → stand row vs → stands result (parts vs) };

    /// What is made of the case of this number with what it carries; it stops with `Memory` where
    /// there is none for it.
    fn case(alloc: Global, index: u32, payload: Self::Made) -> Result<Self::Made, Stop>
        ensures ok { IfOk result (λ made. (v : Val) → stands payload v
            → stands made (bearing index v)) }
        ensures err { IfErr result (λ e. (e ≡ Memory) × allocates) };

    // To keep nothing, and to keep records behind records.
    ghost keeps_nothing: { (kept : Self.Kept) → keeps kept [] kept };

    ghost keeps_both: { (a b c : Self.Kept) (rs ss : List Told) → keeps a rs b → keeps b ss c
        → keeps a (rs ++ ss) c };
}

/// What values are read from, and what is made of them.
#[derive(Drop)]
pub struct Reader<'a, M> {
    /// What the values stand in.
    pub giver: Giver<'a>,
    /// What is made of them.
    pub maker: M,
}
