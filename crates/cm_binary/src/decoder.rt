//! A decoder of component files that come in pieces.

ghost use Rattle.std.specs.Prelude.{◌≡◌, ℕ, ◌+◌, ◌^◌, ◌⊎◌, ◌↔◌, ◌<◌, ◌≤◌, ◌++◌, List, []};
ghost use Rattle.std.specs.Prelude.{length, drop};
ghost use Rattle.std.specs.Prelude.{IsTrue, OnOk, IfOk, IfErr, IfSome, Some, None};
ghost use Rattle.cm_binary_forms.specs.declared.fault.DecodeFault.{DecodeFault};
ghost use Rattle.cm_binary_forms.specs.declared.fault.DecodeReason.TheVariants as reasons;
ghost use Rattle.cm_binary.specs.Answers.{IsAnswer};
ghost use Rattle.cm_binary.specs.After.{Answer, nothing, After, Follows, IsSettled, BeginsSection};
ghost use Rattle.cm_binary.specs.After.{Waits, GoesOn, HasFault, EndsEarly, StopsAt};
ghost use Rattle.cm_binary.specs.Progress.{HasRead};
ghost use Rattle.cm_binary.specs.Views.{progress};
ghost use Rattle.cm_binary.specs.declared.front.Next.TheVariants as nexts;
ghost use Rattle.cm_binary_model.specs.declared.limits.TheConstants.{MAX_FILE_BYTES};

use crate::front::{Front, Next};
use crate::whole::drop_front;
use cm_binary_forms::{DecodeFault, DecodeReason};
use cm_binary_grammar::{End, ReadError};
use cm_binary_model::{Component, MAX_FILE_BYTES, component_within_limits};
use std::alloc::Global;
use std::marker::Model;

/// A component file that comes in pieces. Contracts see what it holds: what was read of the file,
/// the bytes kept unread, and the fault that it met.
#[derive(Drop)]
pub struct Decoder {
    front: Front,
    kept: Vec<u8>,
    fault: Option<DecodeFault>,
    alloc: Global,
}

impl Model for Decoder {
    ghost use Rattle.cm_binary.specs.After.{Held, IsHeld};
    ghost use Rattle.cm_binary.specs.Views.{progress};

    ghost Value = { Held };

    ghost view = { λ d. record { read = progress d.front; kept = d.kept.items; fault = d.fault } };

    ghost invariant = { λ d. IsHeld d.fault (progress d.front) d.kept.items };
}

impl Decoder {
    /// Nothing has come.
    pub fn new(alloc: Global) -> Decoder
        ensures empty { result ≡ nothing }
        ensures answers { (bytes : List ℕ) (answer : Answer) → After result bytes answer
            ↔ IsAnswer bytes answer }
    {
        Decoder {
            front: Front::new(alloc),
            kept: Vec::new(alloc),
            fault: None,
            alloc,
        }
    }

    /// How many bytes are kept unread: at most 7, or 6 and the size of the section begun.
    pub fn pending(&self) -> usize
        ensures count { result ≡ length self.now.kept }
        ensures few { (result ≤ 7)
            ⊎ ((size : ℕ) × BeginsSection size self.now.kept × (result ≤ size + 6)) }
    {
        self.kept.len()
    }

    /// How many bytes have come, where no fault was met.
    pub(crate) fn position(&self) -> usize
        ensures { result ≡ self.now.read.offset + length self.now.kept }
    {
        self.front.offset + self.kept.len()
    }

    /// Goes on with a further piece. It answers a fault exactly where the file has it however it
    /// goes on, and so never that the input ends too early; or that memory was refused. After a
    /// fault each later call answers it.
    pub fn feed(&mut self, piece: &[u8]) -> Result<(), DecodeFault>
        ensures ok { OnOk result (Follows self.old piece.now self.new) }
        ensures unsettled { OnOk result ((f : DecodeFault) → IsSettled self.old piece.now f → ⊥) }
        ensures settled { IfErr result
            (λ f. (f.reason ≡ reasons.Memory) ⊎ IsSettled self.old piece.now f) }
        ensures stays { IfErr result (λ f. self.new.fault ≡ Some f) }
        ensures again { IfSome self.old.fault (λ f. result ≡ Err f) }
    {
        if let Some(fault) = self.fault {
            return Err(fault);
        }
        match read_piece(self.alloc, &mut self.front, &mut self.kept, piece) {
            Ok(()) => Ok(()),
            Err(fault) => {
                self.kept.clear();
                self.fault = Some(fault);
                Err(fault)
            }
        }
    }

    /// The component of all that has come, or the first fault of it. Where a fault was met before,
    /// it is answered again; no memory is taken.
    pub fn finish(self) -> Result<Component, DecodeFault>
        ensures { After self [] result }
    {
        let Decoder {
            front,
            kept,
            fault,
            alloc: _,
        } = self;
        if let Some(fault) = fault {
            return Err(fault);
        }
        if may_end(front.next, &kept) {
            return Ok(component_within_limits(front.sections));
        }
        Err(DecodeFault {
            at: front.offset + kept.len(),
            reason: DecodeReason::Truncated,
        })
    }
}

/// Whether the file may end where this comes next and these bytes are kept.
fn may_end(next: Next, kept: &[u8]) -> bool
    ensures { IsTrue result ↔ ((next ≡ nexts.Section) × (kept.now ≡ [])) }
{
    match next {
        Next::Preamble => false,
        Next::Section => kept.is_empty(),
    }
}

/// Goes on with a further piece, behind the bytes that are kept. Where none are, what is
/// read of the piece is read where it stands.
fn read_piece(
    alloc: Global,
    front: &mut Front,
    kept: &mut Vec<u8>,
    piece: &[u8],
) -> Result<(), DecodeFault>
    requires { Waits (progress front.old) kept.old.items }
    ensures ok { OnOk result (GoesOn (progress front.old) (kept.old.items ++ piece.now)
        kept.new.items (progress front.new)) }
    ensures err { IfErr result (λ f. (f.reason ≡ reasons.Memory)
        ⊎ HasFault (progress front.old) (kept.old.items ++ piece.now) f) }
{
    if kept.is_empty() {
        return read_where_it_stands(alloc, front, kept, piece);
    }
    if kept.extend_from_slice(piece).is_err() {
        return Err(memory_fault());
    }
    let taken = read_within_limit(alloc, front, kept)?;
    drop_front(kept, taken);
    Ok(())
}

/// Goes on with a further piece where no bytes are kept, and keeps what is not read of it.
fn read_where_it_stands(
    alloc: Global,
    front: &mut Front,
    kept: &mut Vec<u8>,
    piece: &[u8],
) -> Result<(), DecodeFault>
    requires waits { Waits (progress front.old) kept.old.items }
    requires none { kept.old.items ≡ [] }
    ensures ok { OnOk result (GoesOn (progress front.old) (kept.old.items ++ piece.now)
        kept.new.items (progress front.new)) }
    ensures err { IfErr result (λ f. (f.reason ≡ reasons.Memory)
        ⊎ HasFault (progress front.old) (kept.old.items ++ piece.now) f) }
{
    let taken = read_within_limit(alloc, front, piece)?;
    if kept.extend_from_slice(&piece[taken..]).is_err() {
        return Err(memory_fault());
    }
    Ok(())
}

/// Reads on in bytes that stand in a file behind what was read: how many were read, where the
/// file may go on.
fn read_within_limit(alloc: Global, front: &mut Front, bytes: &[u8]) -> Result<usize, DecodeFault>
    requires read { HasRead (progress front.old) }
    requires few { front.old.offset ≤ MAX_FILE_BYTES }
    ensures ok { IfOk result (λ n. (n ≤ length bytes.now)
        × GoesOn (progress front.old) bytes.now (drop n bytes.now) (progress front.new)) }
    ensures err { IfErr result (λ f. (f.reason ≡ reasons.Memory)
        ⊎ HasFault (progress front.old) bytes.now f) }
{
    let limit = MAX_FILE_BYTES - front.offset;
    if bytes.len() <= limit {
        read_to_end(alloc, front, bytes, End::Cut(DecodeReason::Truncated))
    } else {
        read_to_end(
            alloc,
            front,
            &bytes[..limit],
            End::Cut(DecodeReason::TooLong),
        )
    }
}

/// Reads on in bytes that end so: how many were read, where the input ends too early.
fn read_to_end(
    alloc: Global,
    front: &mut Front,
    bytes: &[u8],
    end: End<DecodeReason>,
) -> Result<usize, DecodeFault>
    requires { front.old.offset + length bytes.now < 2 ^ 64 }
    ensures ok { IfOk result (λ n. (n ≤ length bytes.now)
        × EndsEarly (progress front.old) end bytes.now (drop n bytes.now) (progress front.new)) }
    ensures err { IfErr result (λ f. (f.reason ≡ reasons.Memory)
        ⊎ StopsAt (progress front.old) end bytes.now f (progress front.new)) }
{
    let (rest, error) = front.read_on(alloc, bytes, end);
    match error {
        ReadError::Fault(fault) => {
            if is_want(fault.reason) {
                return Ok(bytes.len() - rest.len());
            }
            Err(DecodeFault {
                at: front.offset + rest.len() - fault.left,
                reason: fault.reason,
            })
        }
        ReadError::Memory => Err(memory_fault()),
    }
}

/// Whether the reason is that the input ends too early.
fn is_want(reason: DecodeReason) -> bool
    ensures { IsTrue result ↔ (reason ≡ reasons.Truncated) }
{
    matches!(reason, DecodeReason::Truncated)
}

/// Memory was refused.
fn memory_fault() -> DecodeFault
    ensures { result.reason ≡ reasons.Memory }
{
    DecodeFault {
        at: 0,
        reason: DecodeReason::Memory,
    }
}
