//! Text that is read from the front on.

ghost use Rattle.std.specs.Prelude.{◌≡◌, ◌≤◌, length, take, drop};
ghost use Rattle.cm_values.specs.ReadFaults.{flaw};
ghost use Rattle.cm_values.specs.Grammar.{first, passes, run_behind, run_front};
ghost use Rattle.cm_values.specs.Reading.{Reads};
ghost use Rattle.cm_values.specs.Words.{belongs, expect, is, mark, mark_gap, name};
ghost use Rattle.cm_values.specs.Words.{separator, word};
ghost use Rattle.cm_values.specs.declared.value_fault.ReadError.TheVariants as errors;
ghost use Rattle.cm_values.specs.declared.kind.Kind.TheVariants as kind;

use crate::kind::Kind;
use crate::value_fault::{Fault, ReadError, ValueReason};

/// The bytes of a text that are left. After an error nothing is said of them.
#[derive(Clone, Copy)]
pub struct Cursor<'t> {
    pub rest: &'t [u8],
}

impl<'t> Cursor<'t> {
    /// The fault of this reason at the next byte, or at the end where no byte is left.
    pub fn fault(&self, reason: ValueReason) -> ReadError
        ensures { result ≡ errors.Fault (flaw (length self.now.rest.now) reason) }
    {
        ReadError::Fault(Fault {
            left: self.rest.len(),
            reason,
        })
    }

    /// Whether the next byte is this one.
    pub fn next_is(&self, byte: u8) -> bool
        ensures { result ≡ passes (is byte) (first self.now.rest.now) }
    {
        match self.rest {
            [] => false,
            [first, ..] => *first == byte,
        }
    }

    /// Reads this byte.
    pub fn expect(&mut self, byte: u8) -> Result<(), ReadError>
        ensures { Reads (expect byte) (λ x. x) self.old self.new result }
    {
        match self.rest {
            [first, rest @ ..] if *first == byte => {
                self.rest = rest;
                Ok(())
            }
            _ => Err(self.fault(ValueReason::Unexpected)),
        }
    }

    /// Reads as many bytes of a kind as there are.
    pub fn run(&mut self, kind: Kind) -> &'t [u8]
        ensures front { result.now ≡ run_front (belongs kind) self.old.rest.now }
        ensures behind { self.new.rest.now ≡ run_behind (belongs kind) self.old.rest.now }
    {
        let (run, rest) = self.rest.split_at(run_length(kind, self.rest));
        self.rest = rest;
        run
    }

    /// Reads blanks, if there are any.
    pub fn gap(&mut self)
        ensures { self.new.rest.now ≡ run_behind (belongs kind.Blank) self.old.rest.now }
    {
        self.run(Kind::Blank);
    }

    /// Reads a mark, and blanks before it.
    pub fn mark(&mut self, byte: u8) -> Result<(), ReadError>
        ensures { Reads (mark byte) (λ x. x) self.old self.new result }
    {
        self.gap();
        self.expect(byte)
    }

    /// Reads a mark, and blanks behind it.
    pub fn mark_gap(&mut self, byte: u8) -> Result<(), ReadError>
        ensures { Reads (mark_gap byte) (λ x. x) self.old self.new result }
    {
        self.expect(byte)?;
        self.gap();
        Ok(())
    }

    /// Reads a comma, if the list is not closed there.
    pub fn separator(&mut self, closing: u8) -> Result<(), ReadError>
        ensures { Reads (separator closing) (λ x. x) self.old self.new result }
    {
        self.gap();
        if self.next_is(b',') {
            self.mark_gap(b',')
        } else if self.next_is(closing) {
            Ok(())
        } else {
            Err(self.fault(ValueReason::Unexpected))
        }
    }

    /// Reads a word.
    pub fn word(&mut self) -> Result<&'t [u8], ReadError>
        ensures { Reads word (λ x. x.now) self.old self.new result }
    {
        let start = *self;
        match self.run(Kind::Word) {
            [] => Err(start.fault(ValueReason::Unexpected)),
            word => Ok(word),
        }
    }

    /// Reads a name, with a `%` before it or not.
    pub fn name(&mut self) -> Result<&'t [u8], ReadError>
        ensures { Reads name (λ x. x.now) self.old self.new result }
    {
        if self.next_is(b'%') {
            self.expect(b'%')?;
        }
        self.word()
    }
}

/// How many bytes of a kind a text begins with.
#[tactic(auto, using(crate::proofs::RunLaws::run_laws))]
fn run_length(kind: Kind, text: &[u8]) -> usize
    ensures within { result ≤ length text.now }
    ensures front { take result text.now ≡ run_front (belongs kind) text.now }
    ensures behind { drop result text.now ≡ run_behind (belongs kind) text.now }
{
    for (count, byte) in text.iter().enumerate() {
        if !kind.belongs(*byte) {
            return count;
        }
    }
    text.len()
}
