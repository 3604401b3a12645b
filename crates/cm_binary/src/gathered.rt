//! Pieces that are gathered before they are fed.

ghost use Rattle.std.specs.Prelude.{◌≡◌, ◌⊎◌, ◌↔◌, ℕ, ◌≤◌, ◌++◌, List, [], length};
ghost use Rattle.std.specs.Prelude.{OnOk, IfErr, None};
ghost use Rattle.cm_binary_forms.specs.declared.fault.DecodeReason.TheVariants as reasons;
ghost use Rattle.cm_binary.specs.Answers.{AreBytes};
ghost use Rattle.cm_binary.specs.Pieces.{HasCome, IsOpen, StaysFault, Decodes};

use crate::decoder::Decoder;
use crate::whole::{Feeding, drop_front, next_feeding};
use cm_binary_forms::{DecodeFault, DecodeReason};
use cm_binary_model::{COMPONENT_PREAMBLE, Component};
use std::alloc::Global;

/// A decoder with bytes that it was not fed yet. It is fed where a section is whole: so no byte of
/// a section is read twice, and the whole takes time as the bytes do.
#[derive(Drop)]
pub struct Gathered {
    pub decoder: Decoder,
    pub unfed: Vec<u8>,
    /// How many bytes are to be gathered before some are fed.
    wanted: usize,
    // No more than a file may have, and one.
    ghost few: { wanted ≤ 16_777_217 },
}

impl Gathered {
    /// Nothing has come.
    pub fn new(alloc: Global) -> Gathered
        ensures { HasCome result.decoder result.unfed.items [] }
    {
        Gathered {
            decoder: Decoder::new(alloc),
            unfed: Vec::new(alloc),
            wanted: COMPONENT_PREAMBLE.len(),
        }
    }

    /// Takes further bytes. After a fault, but want of memory, what has come is still known.
    pub fn take(&mut self, bytes: &[u8]) -> Result<(), DecodeFault>
        ensures ok { OnOk result ((before : List ℕ)
            → HasCome self.old.decoder self.old.unfed.items before
            → HasCome self.new.decoder self.new.unfed.items (before ++ bytes.now)) }
        ensures err { IfErr result (λ f. (f.reason ≡ reasons.Memory) ⊎ ((before : List ℕ)
            → HasCome self.old.decoder self.old.unfed.items before
            → HasCome self.new.decoder self.new.unfed.items (before ++ bytes.now)
            × StaysFault (before ++ bytes.now) f)) }
        ensures bytes { AreBytes bytes.now }
    {
        if self.unfed.extend_from_slice(bytes).is_err() {
            return Err(DecodeFault {
                at: 0,
                reason: DecodeReason::Memory,
            });
        }
        if self.unfed.len() < self.wanted {
            return Ok(());
        }
        let Feeding { fed, wanted } = next_feeding(&self.unfed, self.decoder.position());
        self.wanted = wanted;
        self.feed_front(fed)
    }

    /// Feeds so many of the bytes that were not fed yet. After a fault, but want of memory, what
    /// has come is known.
    fn feed_front(&mut self, count: usize) -> Result<(), DecodeFault>
        requires { count ≤ length self.old.unfed.items }
        ensures ok { OnOk result ((before : List ℕ)
            → HasCome self.old.decoder self.old.unfed.items before
            → HasCome self.new.decoder self.new.unfed.items before) }
        ensures err { IfErr result (λ f. (f.reason ≡ reasons.Memory) ⊎ ((before : List ℕ)
            → HasCome self.old.decoder self.old.unfed.items before
            → HasCome self.new.decoder self.new.unfed.items before × StaysFault before f)) }
    {
        let outcome = self.decoder.feed(&self.unfed[..count]);
        drop_front(&mut self.unfed, count);
        outcome
    }

    /// Feeds what was not fed yet. After a fault, but want of memory, what has come is known.
    pub fn feed_all(&mut self) -> Result<(), DecodeFault>
        ensures ok { OnOk result ((before : List ℕ)
            → HasCome self.old.decoder self.old.unfed.items before
            → HasCome self.new.decoder self.new.unfed.items before × IsOpen before) }
        ensures unharmed { OnOk result (self.new.decoder.fault ≡ None) }
        ensures fed { self.new.unfed.items ≡ [] }
        ensures err { IfErr result (λ f. (f.reason ≡ reasons.Memory) ⊎ ((before : List ℕ)
            → HasCome self.old.decoder self.old.unfed.items before
            → HasCome self.new.decoder self.new.unfed.items before × StaysFault before f)) }
    {
        let outcome = self.decoder.feed(&self.unfed);
        self.unfed.clear();
        outcome
    }

    /// The component of all that has come, or the first fault of it.
    pub fn finish(mut self) -> Result<Component, DecodeFault>
        ensures { (before : List ℕ) → HasCome self.decoder self.unfed.items before
            → Decodes before result }
    {
        self.feed_all()?;
        self.decoder.finish()
    }
}
