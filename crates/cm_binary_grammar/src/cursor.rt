//! Bytes that are read from the front on.

ghost use Rattle.std.specs.Prelude.{◌≡◌, ℕ, ◌<◌, List, [], ◌∷◌, length, take, drop, min, Result};
ghost use Rattle.std.specs.Prelude.{OnOk, OnErr, IfErr};
ghost use Rattle.cm_binary_grammar.specs.Reading.{Reads, ReadsAll, part_end, IsInside, behind_part};
ghost use Rattle.cm_binary_grammar.specs.Faults.{Gives, flaw, want};
ghost use Rattle.cm_binary_grammar.specs.Grammar.{number, signed, raw, code, fixed};
ghost use Rattle.cm_binary_grammar.specs.Whole.{begins_with, begins_with_reads, too_short};
ghost use Rattle.cm_binary_grammar.specs.declared.fault.ReadError.TheVariants as errors;

use crate::fault::{End, Fault, ReadError};
use cm_leb::LebFault;
use cm_leb::formats::{front_s33, front_u32};

/// Bytes of which a part was read: what is left, and how it ends. After an error nothing is said of
/// what is left.
#[derive(Clone, Copy)]
pub struct Cursor<'a, R> {
    pub rest: &'a [u8],
    pub end: End<R>,
}

impl<'a, R: Copy> Cursor<'a, R> {
    /// Nothing read yet.
    pub fn new(rest: &'a [u8], end: End<R>) -> Cursor<'a, R>
        ensures rest { result.rest.now ≡ rest.now }
        ensures end { result.end ≡ end }
    {
        Cursor { rest, end }
    }

    /// The fault of this reason at the next byte, or at the end where no byte is left.
    pub fn fault(&self, reason: R) -> ReadError<R>
        ensures { result ≡ errors.Fault (flaw (length self.now.rest.now) reason) }
    {
        ReadError::Fault(Fault {
            left: self.rest.len(),
            reason,
        })
    }

    /// The fault that a byte is wanted where the bytes end.
    pub fn want(&self) -> ReadError<R>
        ensures { result ≡ errors.Fault (want self.now.end) }
    {
        let (End::Whole(reason) | End::Cut(reason)) = self.end;
        ReadError::Fault(Fault { left: 0, reason })
    }

    /// Reads a number of 32 bits without a sign. One that is too long or too large is a fault of
    /// the reason `bad` at its first byte.
    pub fn number(&mut self, bad: R) -> Result<u32, ReadError<R>>
        ensures read { Reads (number bad) (λ x. x) self.old self.new result }
        ensures end { self.new.end ≡ self.old.end }
    {
        match front_u32(self.rest) {
            Ok((number, rest)) => {
                self.rest = rest;
                Ok(number)
            }
            Err(LebFault::Truncated) => Err(self.want()),
            Err(LebFault::TooLong | LebFault::BadLastBits) => Err(self.fault(bad)),
        }
    }

    /// Reads so many bytes.
    pub fn raw(&mut self, count: usize) -> Result<&'a [u8], ReadError<R>>
        ensures read { Reads (raw count) (λ x. x.now) self.old self.new result }
        ensures end { self.new.end ≡ self.old.end }
    {
        if self.rest.len() < count {
            return Err(self.want());
        }
        let (front, rest) = self.rest.split_at(count);
        self.rest = rest;
        Ok(front)
    }

    /// Reads a number of 33 bits with a sign. One that is too long or too large is a fault of the
    /// reason `bad` at its first byte.
    pub fn signed(&mut self, bad: R) -> Result<i64, ReadError<R>>
        ensures read { Reads (signed bad) (λ x. x) self.old self.new result }
        ensures end { self.new.end ≡ self.old.end }
    {
        match front_s33(self.rest) {
            Ok((number, rest)) => {
                self.rest = rest;
                Ok(number)
            }
            Err(LebFault::Truncated) => Err(self.want()),
            Err(LebFault::TooLong | LebFault::BadLastBits) => Err(self.fault(bad)),
        }
    }

    /// Reads a byte of a table. A byte that the table refuses is a fault at that byte.
    pub fn code<K: Code<R>>(&mut self) -> Result<K, ReadError<R>>
        ensures read { Reads (code K.table) (λ x. x) self.old self.new result }
        ensures end { self.new.end ≡ self.old.end }
    {
        match self.rest {
            [] => Err(self.want()),
            [byte, rest @ ..] => match K::from_byte(*byte) {
                Ok(meaning) => {
                    self.rest = rest;
                    Ok(meaning)
                }
                Err(reason) => Err(self.fault(reason)),
            },
        }
    }

    /// Reads this byte. Another one is a fault of the reason, at its place.
    pub fn byte(&mut self, expected: u8, reason: R) -> Result<(), ReadError<R>>
        ensures read { Reads (fixed (expected ∷ []) reason) (λ x. x) self.old self.new result }
        ensures end { self.new.end ≡ self.old.end }
    {
        match self.rest {
            [] => Err(self.want()),
            [byte, rest @ ..] => {
                if *byte != expected {
                    return Err(self.fault(reason));
                }
                self.rest = rest;
                Ok(())
            }
        }
    }

    /// Reads this literal. A fault of the reason is at the first byte that differs.
    pub fn fixed(&mut self, literal: &[u8], reason: R) -> Result<(), ReadError<R>>
        ensures read { Reads (fixed literal.now reason) (λ x. x) self.old self.new result }
        ensures end { self.new.end ≡ self.old.end }
    {
        match literal {
            [] => Ok(()),
            [expected, literal @ ..] => match self.rest {
                [] => Err(self.want()),
                [byte, rest @ ..] => {
                    if byte != expected {
                        return Err(self.fault(reason));
                    }
                    self.rest = rest;
                    self.fixed(literal, reason)
                }
            },
        }
    }

    /// All that is left, which begins with this literal. A fault of the reason is at its first
    /// byte: where a byte differs, and where all that was to come is only a beginning of the
    /// literal. Where the input ends before the literal does, a byte is wanted there.
    pub fn begins_with(&self, literal: &[u8], reason: R) -> Result<&'a [u8], ReadError<R>>
        ensures { ReadsAll (begins_with literal.now reason) (λ x. x.now) self.now result }
    {
        self.compare_rest(literal, self.rest, reason)?;
        Ok(self.rest)
    }

    /// Of a literal and of what is left, the parts behind what is equal in both.
    fn compare_rest(&self, literal: &[u8], rest: &[u8], reason: R) -> Result<(), ReadError<R>>
        ensures { Gives (λ _. self.now.rest.now) result
            (begins_with_reads literal.now reason self.now.end self.now.rest.now rest.now) }
    {
        match literal {
            [] => Ok(()),
            [expected, literal @ ..] => match rest {
                [] => Err(self.too_short(reason)),
                [byte, rest @ ..] => {
                    if byte != expected {
                        return Err(self.fault(reason));
                    }
                    self.compare_rest(literal, rest, reason)
                }
            },
        }
    }

    /// That nothing is left; else the next byte is a fault of the reason.
    pub fn finish(&self, surplus: R) -> Result<(), ReadError<R>>
        ensures ok { OnOk result (self.now.rest.now ≡ []) }
        ensures err { IfErr result
            (λ e. e ≡ errors.Fault (flaw (length self.now.rest.now) surplus)) }
        ensures some { OnErr result (0 < length self.now.rest.now) }
    {
        match self.rest {
            [] => Ok(()),
            [_, ..] => Err(self.fault(surplus)),
        }
    }

    /// A part of so many bytes, which ends at a want of the reason `mismatch`; where fewer are
    /// left, these, which end as they do here.
    pub fn part(&self, size: u32, mismatch: R) -> Cursor<'a, R>
        ensures rest { result.rest.now ≡ take size self.now.rest.now }
        ensures end { result.end ≡ part_end mismatch size self.now.end self.now.rest.now }
    {
        let size = size as usize;
        if size <= self.rest.len() {
            Cursor {
                rest: &self.rest[..size],
                end: End::Whole(mismatch),
            }
        } else {
            let end = match self.end {
                End::Whole(reason) => End::Whole(reason),
                End::Cut(reason) => End::Cut(reason),
            };
            Cursor {
                rest: self.rest,
                end,
            }
        }
    }

    /// Goes on behind a part of so many bytes, with what was read of it. A part that is cut short
    /// lacks a byte where the bytes end, unless a fault stands in it.
    pub fn leave<T: Drop>(
        &mut self,
        size: u32,
        outcome: Result<T, ReadError<R>>,
    ) -> Result<T, ReadError<R>>
        requires { IsInside (min size (length self.old.rest.now)) outcome }
        ensures read { result ≡ behind_part size self.old.end self.old.rest.now outcome }
        ensures rest { self.new.rest.now ≡ drop size self.old.rest.now }
        ensures end { self.new.end ≡ self.old.end }
    {
        let size = size as usize;
        if self.rest.len() < size {
            let want = self.want();
            self.rest = &self.rest[self.rest.len()..];
            return outcome.and(Err(want));
        }
        self.rest = &self.rest[size..];
        match outcome {
            Err(ReadError::Fault(fault)) => Err(ReadError::Fault(Fault {
                left: fault.left + self.rest.len(),
                reason: fault.reason,
            })),
            other => other,
        }
    }

    /// The fault of what is left being only a beginning of what is wanted.
    fn too_short(&self, reason: R) -> ReadError<R>
        ensures { result ≡ errors.Fault (too_short reason self.now.end self.now.rest.now) }
    {
        match self.end {
            End::Whole(_) => self.fault(reason),
            End::Cut(_) => self.want(),
        }
    }
}

/// What one byte stands for.
pub trait Code<R>: Sized {
    ghost table: { ℕ → Result Self R };

    /// The meaning of the byte, or why it has none.
    fn from_byte(byte: u8) -> Result<Self, R>
        ensures { result ≡ table byte };
}
