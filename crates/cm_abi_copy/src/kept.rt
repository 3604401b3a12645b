//! What is kept of a value between its scan and its copy.

ghost use Rattle.std.specs.Prelude.{◌≡◌, ◌++◌, ◌∷◌, [], IfErr, IfSome, IsSome, List, OnErr, OnOk};
ghost use Rattle.std.specs.Prelude.{None, Some, ◌*◌, ◌<◌, ◌≤◌, false, ℕ};
ghost use Rattle.std.specs.Option.{IsSomeAnd};
ghost use Rattle.cm_abi_model.specs.Answered.{IsAnswered, OnlyAnswered, all_requests, next_of};
ghost use Rattle.cm_abi_model.specs.Answering.{answer_fault};
ghost use Rattle.cm_abi_model.specs.HandleLeaves.{leaves_of};
ghost use Rattle.cm_abi_model.specs.Scanned.{IsInOrder, OnlyAsked, all_kept, nothing_kept};
ghost use Rattle.cm_abi_model.specs.Scanned.{things_kept};
ghost use Rattle.cm_abi_copy.specs.Kept.{AreAtRest, kept_in};

use cm_abi_lift::Handed;
use cm_abi_load::Progress;
use cm_abi_model::{AbiFault, Encodings, HandleLeaf, MAX_CONTENT, PartRecord, Request};
use cm_abi_requests::PartRequests;
use cm_handles::Handle;
use std::alloc::Global;
use std::marker::Model;

/// What is kept of a value on its way from one instance to another, between its scan and its copy:
/// a record of each part, a string, the elements of a list or a tuple behind a pointer, with how
/// far the memory for it is asked for and answered; and the handles of the value
/// (CanonicalABI.md, "Lifting and Lowering Values"; that this is kept is this project's own
/// choice).
///
/// It is made empty, is filled by `scan` as often as wanted, and keeps the room of its lists: where
/// a value takes no more than one before it, no memory is taken.
#[derive(Drop)]
pub struct Scan {
    // Whether a value is kept.
    pub(crate) has_value: bool,
    pub(crate) lists: Lists,
}

/// The lists of a scan.
#[derive(Drop)]
pub(crate) struct Lists {
    // The parts, and how far they are asked for.
    pub(crate) parts: PartRequests,
    // The handles of the value, in reading order.
    pub(crate) handles: Vec<HandleLeaf>,
    // Those that were taken out of the giver's table, and the indices that were lent.
    pub(crate) handed: Handed,
    // The numbers that stand for the handles where they were given.
    pub(crate) numbers: Vec<u32>,
    // How many bytes of strings and lists there are, and the walk's own lists.
    pub(crate) progress: Progress,
}

impl Model for Scan {
    ghost use Rattle.cm_abi_model.specs.Scanned.{Scanned};

    ghost Value = { Scanned };

    ghost use Rattle.cm_abi_copy.specs.Kept.{AreAtRest, kept_in};

    ghost view = { λ s. kept_in s.has_value s.lists };

    ghost invariant = { λ s. AreAtRest s.has_value s.lists };
}

impl Lists {
    /// Nothing is kept; the lists keep their room. No memory is taken.
    pub(crate) fn clear(&mut self)
        ensures kept { kept_in false self.new ≡ nothing_kept }
        ensures rest { AreAtRest false self.new }
    {
        self.parts.clear();
        self.handles.clear();
        self.handed.clear();
        self.numbers.clear();
        self.progress.left = MAX_CONTENT;
        self.progress.handles.clear();
        self.progress.tags.clear();
    }
}

impl Scan {
    /// Nothing is kept. It takes no memory.
    pub fn new(alloc: Global) -> Scan
        ensures { result ≡ nothing_kept }
    {
        Scan {
            has_value: false,
            lists: Lists {
                parts: PartRequests::new(alloc),
                handles: Vec::new(alloc),
                handed: Handed::new(alloc),
                numbers: Vec::new(alloc),
                progress: Progress {
                    left: MAX_CONTENT,
                    handles: Vec::new(alloc),
                    tags: Vec::new(alloc),
                },
            },
        }
    }

    /// Keeps nothing any more; the lists keep their room. No memory is taken.
    pub fn clear(&mut self)
        ensures { self.new ≡ nothing_kept }
    {
        self.has_value = false;
        self.lists.clear();
    }

    /// Whether a value is kept. What is kept is in order.
    pub fn has_value(&self) -> bool
        ensures value { result ≡ self.now.has_value }
        ensures order { IsInOrder self.now }
    {
        self.has_value
    }

    /// How many things are kept: a record of each part, and the handles. All lists together have at
    /// most three times as many members: a part has a place beside its record, a handle says beside
    /// how its type has it where it went, and what its number is. Where no value is kept, they have
    /// none.
    pub fn parts(&self) -> usize
        ensures things { result ≡ things_kept self.now }
        ensures all { all_kept self.now ≤ 3 * result }
        ensures none { self.now.has_value ≡ false → result ≡ 0 }
    {
        self.lists.parts.records().len() + self.lists.handles.len()
    }

    /// How many bytes the strings and the elements of the lists are, as they stand in the giver's
    /// memory.
    pub fn content(&self) -> u32
        ensures { result ≡ self.now.content }
    {
        MAX_CONTENT.saturating_sub(self.lists.progress.left)
    }

    /// The request behind those that were answered, with its old pointer: where it is chained the
    /// answer to the request before it, else 0. `None` comes behind the last request. No memory is
    /// taken.
    pub fn next_request(&self) -> Option<(Request, u32)>
        requires answered { (answers : List ℕ) × IsAnswered self.now.parts answers }
        ensures next { (answers : List ℕ) → IsAnswered self.now.parts answers
            → result ≡ next_of (all_requests self.now.parts) answers }
        ensures aligned { IfSome result (λ r. 0 < r.0.align) }
    {
        self.lists.parts.next_request()
    }

    /// Keeps the answer to the next request, in a memory of so many bytes. An answer that is not
    /// aligned is `Misaligned`, else one at which what was asked for passes the end of the memory
    /// is `PointerBounds`, and then nothing is changed. The caller has seen that there is a next
    /// request. No memory is taken.
    pub fn answer(&mut self, at: u32, memory_length: usize) -> Result<(), AbiFault>
        requires answered { (answers : List ℕ) × IsAnswered self.old.parts answers
            × IsSome (next_of (all_requests self.old.parts) answers) }
        ensures kept { OnOk result ((answers : List ℕ) → IsAnswered self.old.parts answers
            → IsAnswered self.new.parts (answers ++ at ∷ [])) }
        ensures fine { OnOk result ((answers : List ℕ) → IsAnswered self.old.parts answers
            → IsSomeAnd (next_of (all_requests self.old.parts) answers)
            (λ r. answer_fault memory_length r.0 at ≡ None)) }
        ensures fault { IfErr result (λ e. (answers : List ℕ) → IsAnswered self.old.parts answers
            → IsSomeAnd (next_of (all_requests self.old.parts) answers)
            (λ r. answer_fault memory_length r.0 at ≡ Some e)) }
        ensures unchanged { OnErr result (self.new ≡ self.old) }
        ensures only { OnlyAsked self.old self.new }
    {
        let answered = self.lists.parts.answer(at, memory_length);
        // Read behind it, so that the check knows that no part has two places.
        let _ = self.lists.parts.places();
        answered
    }

    /// The records of the parts, in reading order, a list before its elements; where the values are
    /// behind a pointer, their tuple is the first part.
    pub fn records(&self) -> &[PartRecord]
        ensures { result.now ≡ self.now.parts.records }
    {
        self.lists.parts.records()
    }

    /// Where the parts stand whose requests are all answered, in order: each at the answer to the
    /// last request for it.
    pub fn places(&self) -> &[u32]
        ensures { result.now ≡ self.now.parts.places }
    {
        self.lists.parts.places()
    }

    /// How strings are encoded where the values come from, and where they go.
    pub fn encodings(&self) -> Encodings
        ensures { result
            ≡ record { source = self.now.parts.source; target = self.now.parts.target } }
    {
        self.lists.parts.encodings()
    }

    /// The handles of the values, in reading order, each as its type has it: to be owned, or to be
    /// borrowed. They are what the receiver is given.
    pub fn handles(&self) -> &[HandleLeaf]
        ensures { leaves_of result.now ≡ self.now.handles }
    {
        &self.lists.handles
    }

    /// The handles that were taken out of the giver's table, in reading order.
    pub fn owns(&self) -> &[Handle]
        ensures { result.now ≡ self.now.owns }
    {
        &self.lists.handed.owns
    }

    /// The indices of the handles that were lent, in reading order.
    pub fn lends(&self) -> &[u32]
        ensures { result.now ≡ self.now.lends }
    {
        &self.lists.handed.lends
    }

    /// The number that stands for each handle where it was given, in reading order, once the values
    /// were copied: its index in the receiver's table, or the representation of a resource that the
    /// receiver implements. None before.
    pub fn numbers(&self) -> &[u32]
        ensures { result.now ≡ self.now.numbers }
    {
        &self.lists.numbers
    }
}
