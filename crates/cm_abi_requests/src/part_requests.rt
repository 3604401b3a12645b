//! Requests for the parts of a value, answered one after another.

ghost use Rattle.std.specs.Prelude.{◌≡◌, ◌↔◌, ◌<◌, ◌≤◌, ◌++◌, ◌∷◌, [], IfErr, IfSome, IsOk, IsSome};
ghost use Rattle.std.specs.Prelude.{IsTrue, List, None, OnErr, OnOk, Some, drop, length, ℕ};
ghost use Rattle.std.specs.Prelude.{slice_get};
ghost use Rattle.std.specs.Option.{IsSomeAnd};
ghost use Rattle.cm_abi_model.specs.Answered.{IsAllAnswered, IsAnswered, OnlyAnswered};
ghost use Rattle.cm_abi_model.specs.Answered.{all_requests, next_of, nothing_asked, unanswered};
ghost use Rattle.cm_abi_model.specs.Answered.{with_last};
ghost use Rattle.cm_abi_model.specs.Answering.{answer_fault};
ghost use Rattle.cm_abi_model.specs.Overlap.{AreDisjoint};
ghost use Rattle.cm_abi_model.specs.Placing.{regions_at};
ghost use Rattle.cm_abi_model.specs.RecordRequests.{AreAskable, first_request};
ghost use Rattle.cm_abi_requests.specs.Sizes.{sizes_seen};
ghost use Rattle.cm_abi_requests.specs.Stages.{AreSizesOfFirst};

use crate::placing::put_regions;
use crate::record_requests::{request_at, sizes_for};
use crate::sizes::Sizes;
use crate::{are_disjoint, check_answer};
use cm_abi_model::{AbiFault, Encodings, PartRecord, Region, Request, StringEncoding};
use std::alloc::{AllocError, Global};
use std::marker::Model;

/// The requests for the parts of a value, by their records, and how far they are answered.
#[derive(Drop)]
pub struct PartRequests {
    // The records of the parts, in order.
    records: Vec<PartRecord>,
    // Where the parts stand that have all their answers, in order: each at the last one.
    places: Vec<u32>,
    // Room for a region of each part, to look at when all have their places; else no region.
    regions: Vec<Region>,
    source: StringEncoding,
    target: StringEncoding,
    // The sizes that are asked for the next part.
    sizes: Sizes,
    // How many requests for it are answered.
    stage: usize,
    // The answer that came last; 0 before the first one.
    last: u32,
}

impl Model for PartRequests {
    ghost use Rattle.std.specs.Prelude.{◌≡◌, [], length, vec_capacity};
    ghost use Rattle.cm_abi_model.specs.Answered.{Requesting};

    ghost Value = { Requesting };

    ghost use Rattle.cm_abi_requests.specs.Sizes.{sizes_seen};
    ghost use Rattle.cm_abi_requests.specs.Stages.{IsAtStage, requesting_of};

    ghost view = { λ s.
        requesting_of s.records.items s.source s.target s.places.items s.stage s.last };

    ghost invariant = { λ s. IsAtStage s.records.items s.source s.target (length s.places.items)
        s.stage (sizes_seen s.sizes) (vec_capacity s.places) (vec_capacity s.regions)
        × (s.regions.items ≡ []) };
}

/// The record of the part of this number, from 0.
fn part_at(records: &[PartRecord], at: usize) -> Option<PartRecord>
    ensures { result ≡ slice_get records.now at }
{
    records.get(at).copied()
}

/// The sizes that are asked for the part of this number, from 0; those of no part are not looked
/// at.
fn sizes_at(records: &[PartRecord], at: usize, encodings: Encodings) -> Sizes
    requires askable { AreAskable records.now }
    ensures { AreSizesOfFirst encodings.source encodings.target (drop at records.now)
        (sizes_seen result) }
{
    match part_at(records, at) {
        Some(part) => sizes_for(part, encodings.source, encodings.target),
        None => Sizes::One(0),
    }
}

/// A request with its old pointer: where it is chained the answer to the request before it, else 0.
fn with_old(request: Request, last: u32) -> (Request, u32)
    ensures { result ≡ with_last last request }
{
    let old = if request.chained { last } else { 0 };
    (request, old)
}

/// Looks at the answer to a first request for so many bytes, as `check_answer` does.
fn check_first(align: u32, size: u32, at: u32, memory_length: usize) -> Result<(), AbiFault>
    requires aligned { 0 < align }
    ensures ok { OnOk result (answer_fault memory_length (first_request align size) at ≡ None) }
    ensures err { IfErr result (λ e.
        answer_fault memory_length (first_request align size) at ≡ Some e) }
{
    if at % align != 0 {
        return Err(AbiFault::Misaligned);
    }
    if u64::from(at) + u64::from(size) > memory_length as u64 {
        return Err(AbiFault::PointerBounds);
    }
    Ok(())
}

impl PartRequests {
    /// Requests for no parts. It takes no memory.
    pub fn new(alloc: Global) -> PartRequests
        ensures { result ≡ nothing_asked }
    {
        PartRequests {
            records: Vec::new(alloc),
            places: Vec::new(alloc),
            regions: Vec::new(alloc),
            source: StringEncoding::Utf8,
            target: StringEncoding::Utf8,
            sizes: Sizes::One(0),
            stage: 0,
            last: 0,
        }
    }

    /// Takes the list of the records out, empty, with the room that it had; then nothing is asked
    /// for. It takes no memory.
    pub fn take_records(&mut self, alloc: Global) -> Vec<PartRecord>
        ensures none { result.items ≡ [] }
        ensures empty { self.new ≡ nothing_asked }
    {
        self.places.clear();
        self.stage = 0;
        self.last = 0;
        self.source = StringEncoding::Utf8;
        self.target = StringEncoding::Utf8;
        let mut records = std::mem::replace(&mut self.records, Vec::new(alloc));
        records.clear();
        records
    }

    /// Asks for nothing; the lists keep their room.
    pub fn clear(&mut self)
        ensures { self.new ≡ nothing_asked }
    {
        self.records.clear();
        self.places.clear();
        self.stage = 0;
        self.last = 0;
        self.source = StringEncoding::Utf8;
        self.target = StringEncoding::Utf8;
    }

    /// Asks for the parts of these records, with none of the requests answered. `AllocError` comes
    /// where there is no memory for the places and the regions of the parts, and then nothing is
    /// asked for; where there is no part, or as much room as there are parts, none is taken.
    pub fn ask(&mut self, records: Vec<PartRecord>, encodings: Encodings) -> Result<(), AllocError>
        requires askable { AreAskable records.items }
        ensures asked { OnOk result
            (self.new ≡ unanswered records.items encodings.source encodings.target) }
        ensures none { records.items ≡ [] → IsOk result }
        ensures empty { OnErr result (self.new ≡ nothing_asked) }
    {
        let count = records.len();
        self.records.clear();
        self.places.clear();
        self.stage = 0;
        self.last = 0;
        self.source = StringEncoding::Utf8;
        self.target = StringEncoding::Utf8;
        self.places.reserve(count)?;
        self.regions.reserve(count)?;
        self.sizes = sizes_at(&records, 0, encodings);
        self.source = encodings.source;
        self.target = encodings.target;
        self.records = records;
        Ok(())
    }

    /// The request behind those that were answered, with its old pointer: where it is chained the
    /// answer to the request before it, else 0. `None` comes behind the last request.
    pub fn next_request(&self) -> Option<(Request, u32)>
        requires answered { (answers : List ℕ) × IsAnswered self.now answers }
        ensures next { (answers : List ℕ) → IsAnswered self.now answers
            → result ≡ next_of (all_requests self.now) answers }
        ensures aligned { IfSome result (λ r. 0 < r.0.align) }
    {
        let Some(part) = part_at(&self.records, self.places.len()) else {
            return None;
        };
        let Some(request) = request_at(self.sizes, part.align, self.stage) else {
            return None;
        };
        Some(with_old(request, self.last))
    }

    /// Keeps the answer to the next request, in a memory of so many bytes. An answer that is not
    /// aligned is `Misaligned`, else one at which what was asked for passes the end of the memory
    /// is `PointerBounds`, and then nothing is changed. The caller has seen that there is a next
    /// request. No memory is taken.
    pub fn answer(&mut self, at: u32, memory_length: usize) -> Result<(), AbiFault>
        requires answered { (answers : List ℕ) × IsAnswered self.old answers
            × IsSome (next_of (all_requests self.old) answers) }
        ensures kept { OnOk result ((answers : List ℕ) → IsAnswered self.old answers
            → IsAnswered self.new (answers ++ at ∷ [])) }
        ensures fine { OnOk result ((answers : List ℕ) → IsAnswered self.old answers
            → IsSomeAnd (next_of (all_requests self.old) answers)
            (λ r. answer_fault memory_length r.0 at ≡ None)) }
        ensures fault { IfErr result (λ e. (answers : List ℕ) → IsAnswered self.old answers
            → IsSomeAnd (next_of (all_requests self.old) answers)
            (λ r. answer_fault memory_length r.0 at ≡ Some e)) }
        ensures unchanged { OnErr result (self.new ≡ self.old) }
        ensures only { OnlyAnswered self.old self.new }
    {
        match self.check_next(at, memory_length) {
            Ok(()) => {
                self.keep(at);
                Ok(())
            }
            Err(fault) => Err(fault),
        }
    }

    /// Looks at the answer to the next request, which there is, as `check_answer` does. The request
    /// for a part of one size is the first and the last for it, and is not made.
    fn check_next(&self, at: u32, memory_length: usize) -> Result<(), AbiFault>
        requires answered { (answers : List ℕ) × IsAnswered self.now answers
            × IsSome (next_of (all_requests self.now) answers) }
        ensures fine { OnOk result ((answers : List ℕ) → IsAnswered self.now answers
            → IsSomeAnd (next_of (all_requests self.now) answers)
            (λ r. answer_fault memory_length r.0 at ≡ None)) }
        ensures fault { IfErr result (λ e. (answers : List ℕ) → IsAnswered self.now answers
            → IsSomeAnd (next_of (all_requests self.now) answers)
            (λ r. answer_fault memory_length r.0 at ≡ Some e)) }
    {
        if let Sizes::One(size) = self.sizes {
            let Some(part) = part_at(&self.records, self.places.len()) else {
                unreachable!()
            };
            return check_first(part.align, size, at, memory_length);
        }
        let Some((request, _)) = self.next_request() else {
            unreachable!()
        };
        check_answer(request, at, memory_length)
    }

    /// Keeps the answer to the next request, which there is.
    fn keep(&mut self, at: u32)
        requires answered { (answers : List ℕ) × IsAnswered self.old answers
            × IsSome (next_of (all_requests self.old) answers) }
        ensures kept { (answers : List ℕ) → IsAnswered self.old answers
            → IsAnswered self.new (answers ++ at ∷ []) }
        ensures only { OnlyAnswered self.old self.new }
    {
        if self.stage + 1 < self.sizes.count() {
            self.stage += 1;
            self.last = at;
        } else {
            let encodings = Encodings {
                source: self.source,
                target: self.target,
            };
            self.sizes = sizes_at(&self.records, self.places.len() + 1, encodings);
            self.stage = 0;
            self.places.push_reserved(at);
            self.last = at;
        }
    }

    /// The records of the parts, in order.
    pub fn records(&self) -> &[PartRecord]
        ensures { result.now ≡ self.now.records }
    {
        &self.records
    }

    /// Where the parts stand that have all their answers, in order: each at the answer to the last
    /// request for it. No part has two.
    pub fn places(&self) -> &[u32]
        ensures places { result.now ≡ self.now.places }
        ensures few { length self.now.places ≤ length self.now.records }
    {
        &self.places
    }

    /// How strings are encoded in the source, and where they are stored.
    pub fn encodings(&self) -> Encodings
        ensures { result ≡ record { source = self.now.source; target = self.now.target } }
    {
        Encodings {
            source: self.source,
            target: self.target,
        }
    }

    /// Whether no address is in the regions of two parts, once all requests are answered; a part of
    /// no bytes has no region. Nothing is changed, and no memory is taken.
    pub fn are_apart(&mut self) -> bool
        requires answered { (answers : List ℕ) × IsAllAnswered self.old answers }
        ensures answer { IsTrue result
            ↔ AreDisjoint (regions_at self.old.records self.old.places) }
        ensures same { self.new ≡ self.old }
    {
        if self.records.len() < 2 {
            return true;
        }
        put_regions(&self.records, &self.places, &mut self.regions);
        let apart = are_disjoint(&mut self.regions);
        self.regions.clear();
        apart
    }
}
