//! A line that is written piece by piece, and the first thing that is wrong with it.

use crate::bytes::read_bytes;
use crate::fault::RowFault;
use crate::words::words_from;
use std::alloc::{AllocError, Global};
use std::fmt::{Debug, Display};
use std::str::FromStr;

/// The answer to a row, written piece by piece. The first thing that is wrong with the row, or with
/// what is written, is kept: the line is then no answer, whatever is written behind it.
#[derive(Drop)]
pub struct Line {
    text: String,
    fault: Option<RowFault>,
}

impl Line {
    /// An empty line.
    pub fn new(alloc: Global) -> Line {
        Line {
            text: String::new(alloc),
            fault: None,
        }
    }

    /// An empty line with room for most answers, so that writing one takes no memory behind the
    /// call that it shows.
    pub fn with_room(alloc: Global) -> Result<Line, AllocError> {
        Ok(Line {
            text: String::with_capacity(alloc, 1 << 14)?,
            fault: None,
        })
    }

    /// What is written so far.
    pub fn as_str(&self) -> &str {
        self.text.as_str()
    }

    /// Keeps what is wrong with another line.
    pub fn keep_fault_of(&mut self, other: &Line) {
        if let Some(fault) = other.fault {
            self.fail(fault);
        }
    }

    /// Writes a text behind what stands there.
    pub fn put(&mut self, text: &str) {
        if self.text.push_str(text).is_err() {
            self.fail(RowFault::Memory);
        }
    }

    /// Writes a value as it is displayed.
    pub fn show<T: Display + Drop>(&mut self, value: T) {
        if write!(self.text, "{value}").is_err() {
            self.fail(RowFault::Memory);
        }
    }

    /// Writes what was found, or `none`.
    pub fn found<T: Display + Drop>(&mut self, found: Option<T>) {
        match found {
            Some(found) => self.show(found),
            None => self.put("none"),
        }
    }

    /// Writes a value as it is displayed to those who write programs.
    pub fn debug<T: Debug>(&mut self, value: &T) {
        if write!(self.text, "{value:?}").is_err() {
            self.fail(RowFault::Memory);
        }
    }

    /// Writes `fault` and the value's own name.
    pub fn fault<T: Debug>(&mut self, fault: &T) {
        self.put("fault ");
        self.debug(fault);
    }

    /// Writes a name and its number, behind those that were written before.
    pub fn number_of(&mut self, name: &str, number: u8) {
        if !self.text.is_empty() {
            self.put(", ");
        }
        self.put(name);
        self.put(" ");
        self.show(number);
    }

    /// Puts a value by its own name, and the number behind it.
    pub fn number_of_debug<T: Debug>(&mut self, value: &T, number: u8) {
        if !self.text.is_empty() {
            self.put(", ");
        }
        self.debug(value);
        self.put(" ");
        self.show(number);
    }

    /// Writes a byte as a pair of hexadecimal digits.
    pub fn pair(&mut self, byte: u8) {
        if write!(self.text, "{byte:02x}").is_err() {
            self.fail(RowFault::Memory);
        }
    }

    /// Writes a number in hexadecimal digits.
    pub fn hex(&mut self, number: u32) {
        if write!(self.text, "{number:x}").is_err() {
            self.fail(RowFault::Memory);
        }
    }

    /// Keeps what is wrong, if nothing was before.
    pub fn fail(&mut self, fault: RowFault) {
        if self.fault.is_none() {
            self.fault = Some(fault);
        }
    }

    /// Whether nothing was wrong so far.
    pub fn is_fine(&self) -> bool {
        self.fault.is_none()
    }

    /// Keeps that the row is none.
    pub fn refuse(&mut self) {
        self.fail(RowFault::NotARow);
    }

    /// Keeps that there was no memory, if that is so.
    pub fn fail_if_memory(&mut self, is_memory: bool) {
        if is_memory {
            self.fail(RowFault::Memory);
        }
    }

    /// Keeps that there was no memory, or else that the row is none.
    pub fn refuse_for(&mut self, is_memory: bool) {
        self.fail_if_memory(is_memory);
        self.refuse();
    }

    /// What was made; where it was not, why is kept.
    pub fn kept<T: Drop, E: Drop>(&mut self, made: Result<T, E>) -> Option<T>
    where
        RowFault: From<E>,
    {
        match made {
            Ok(made) => Some(made),
            Err(fault) => {
                self.fail(RowFault::from(fault));
                None
            }
        }
    }

    /// What is to be there; where it is not, the row is none.
    pub fn wanted<T: Drop>(&mut self, given: Option<T>) -> Option<T> {
        if given.is_none() {
            self.refuse();
        }
        given
    }

    /// Puts an item behind those of a list.
    pub fn push<T: Drop>(&mut self, items: &mut Vec<T>, item: T) {
        if items.push(item).is_err() {
            self.fail(RowFault::Memory);
        }
    }

    /// The words before and after the first that is `mark`; where there is none, the row is none.
    pub fn split<'a, 'b>(
        &mut self,
        words: &'a [&'b str],
        mark: &str,
    ) -> (&'a [&'b str], &'a [&'b str]) {
        let place = words.iter().position(|word| *word == mark);
        if place.is_none() {
            self.refuse();
        }
        let length = words.len();
        let (before, after) = words.split_at(place.unwrap_or(length).min(length));
        (before, words_from(after, 1))
    }

    /// The number that a word is; where it is none, the row is none.
    pub fn number<T: FromStr + Default>(&mut self, word: &str) -> T
    where
        <T as FromStr>::Err: Drop,
    {
        match word.parse::<T>() {
            Ok(number) => number,
            Err(_) => {
                self.refuse();
                T::default()
            }
        }
    }

    /// The bytes that a word spells: `-` is none; else parts joined by dots, each of which is pairs
    /// of digits, or `N*` and pairs of digits that stand N times. Where it spells none, the row is
    /// none.
    pub fn bytes(&mut self, alloc: Global, word: &str) -> Vec<u8> {
        match read_bytes(alloc, word) {
            Ok(bytes) => bytes,
            Err(fault) => {
                self.fail(fault);
                Vec::new(alloc)
            }
        }
    }

    /// The line, or the first thing that was wrong.
    pub fn done(self) -> Result<String, RowFault> {
        match self.fault {
            None => Ok(self.text),
            Some(fault) => Err(fault),
        }
    }
}
