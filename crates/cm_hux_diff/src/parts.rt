//! The words of texts that show functions and types, and the types that begin at them.

use cm_names::TextNumbers;
use std::alloc::{AllocError, Global};
use std::collections::BTreeMap;

/// Numbers of words, which are even, and of pairs of numbers, which are odd, above 0: types that
/// are spelled alike have one number.
#[derive(Drop)]
pub(crate) struct Numbers {
    words: TextNumbers,
    pairs: BTreeMap<(u64, u64), u64>,
}

impl Numbers {
    /// Nothing has a number yet.
    pub(crate) fn new(alloc: Global) -> Numbers {
        Numbers {
            words: TextNumbers::new(alloc),
            pairs: BTreeMap::new(alloc),
        }
    }

    fn word(&mut self, word: &str) -> Result<u64, AllocError> {
        let number = self.words.number(word)? as u64;
        Ok(number.saturating_mul(2).saturating_add(2))
    }

    fn pair(&mut self, first: u64, second: u64) -> Result<u64, AllocError> {
        if let Some(number) = self.pairs.get(&(first, second)) {
            return Ok(*number);
        }
        let count = self.pairs.len() as u64;
        let number = count.saturating_mul(2).saturating_add(1);
        self.pairs.insert((first, second), number)?;
        Ok(number)
    }
}

/// What a part of a text is.
#[derive(Clone, Copy, PartialEq, Eq)]
enum Sort {
    /// A bracket that opens.
    Open,
    /// A bracket that closes.
    Close,
    /// The name of a field, a parameter, a case or a flag; a colon or a comma.
    Label,
    /// The word that a type begins with, or an arrow.
    Word,
}

/// A word, a bracket, a colon or a comma of a text.
#[derive(Clone, Copy)]
pub(crate) struct Part {
    /// The number of its text.
    pub(crate) word: u64,
    sort: Sort,
    /// The number of the type that begins here, or 0.
    pub(crate) ty: u64,
    /// The place behind that type.
    pub(crate) end: usize,
}

/// The parts of a text so far, and for each bracket that is open whether labels stand in it.
#[derive(Drop)]
struct Reading<'n> {
    numbers: &'n mut Numbers,
    parts: Vec<Part>,
    open: Vec<bool>,
}

impl Reading<'_> {
    fn add(&mut self, text: &str, sort: Sort) -> Result<(), AllocError> {
        let word = self.numbers.word(text)?;
        self.parts.push(Part {
            word,
            sort,
            ty: 0,
            end: 0,
        })?;
        Ok(())
    }

    /// Adds a word, if it is one, with the mark behind it.
    fn add_word(&mut self, word: &str, mark: &str) -> Result<(), AllocError> {
        if word.is_empty() {
            return Ok(());
        }
        let is_label = mark == ":" || self.open.last() == Some(&true);
        self.add(word, if is_label { Sort::Label } else { Sort::Word })
    }

    /// Adds a mark, if it is one, behind a word.
    fn add_mark(&mut self, word: &str, mark: &str) -> Result<(), AllocError> {
        match sort_of(mark) {
            None => return Ok(()),
            Some(Sort::Open) => self.open.push(mark == "{" && has_labels(word))?,
            Some(Sort::Close) => {
                let _closed = self.open.pop();
            }
            Some(_) => {}
        }
        self.add(mark, sort_of(mark).unwrap_or(Sort::Label))
    }
}

/// Whether all words in the brackets behind this one are labels.
fn has_labels(word: &str) -> bool {
    word == "enum" || word == "flags" || word == "variant"
}

/// What a mark is, if it is one.
fn sort_of(mark: &str) -> Option<Sort> {
    match mark.chars().next()? {
        '{' | '<' | '(' => Some(Sort::Open),
        '}' | '>' | ')' => Some(Sort::Close),
        ':' | ',' => Some(Sort::Label),
        _ => None,
    }
}

/// Whether a character ends a word.
fn is_mark(c: char) -> bool {
    matches!(c, '{' | '<' | '(' | '}' | '>' | ')' | ':' | ',' | ' ')
}

/// The parts of a text, in order.
fn read(alloc: Global, numbers: &mut Numbers, text: &str) -> Result<Vec<Part>, AllocError> {
    let mut reading = Reading {
        numbers,
        parts: Vec::new(alloc),
        open: Vec::new(alloc),
    };
    for chunk in text.split_inclusive(|c: char| is_mark(c)) {
        if chunk == "->" {
            reading.add(chunk, Sort::Word)?;
            continue;
        }
        let word = chunk.trim_end_matches(|c: char| is_mark(c));
        let mark = chunk.strip_prefix(word).unwrap_or("");
        reading.add_word(word, mark)?;
        reading.add_mark(word, mark)?;
    }
    Ok(reading.parts)
}

/// What was numbered, from the end on: what stands behind in the same brackets, what stands behind
/// the brackets that were closed, and the brackets that begin here with the place behind them.
#[derive(Drop)]
struct Numbering {
    rest: u64,
    outer: Vec<(u64, usize)>,
    inner: Option<(u64, usize)>,
}

impl Numbering {
    /// Numbers a part at a place.
    fn add(
        &mut self,
        numbers: &mut Numbers,
        place: usize,
        part: &mut Part,
    ) -> Result<(), AllocError> {
        let word = part.word;
        match part.sort {
            Sort::Close => {
                self.outer.push((self.rest, place.saturating_add(1)))?;
                self.rest = 0;
            }
            Sort::Open => {
                let inner = numbers.pair(word, self.rest)?;
                let (rest, end) = self.outer.pop().unwrap_or((0, place));
                self.inner = Some((inner, end));
                self.rest = rest;
            }
            Sort::Label | Sort::Word => {
                let (inner, end) = self.inner.take().unwrap_or((0, place.saturating_add(1)));
                let number = numbers.pair(word, inner)?;
                part.end = end;
                part.ty = if part.sort == Sort::Word { number } else { 0 };
                self.rest = numbers.pair(number, self.rest)?;
            }
        }
        Ok(())
    }
}

/// The parts of a text in order, each type with its number. It costs time linear in the text, with
/// a search for each part.
pub(crate) fn parts_of(
    alloc: Global,
    numbers: &mut Numbers,
    text: &str,
) -> Result<Vec<Part>, AllocError> {
    let mut parts = read(alloc, numbers, text)?;
    let mut numbering = Numbering {
        rest: 0,
        outer: Vec::new(alloc),
        inner: None,
    };
    for place in (0..parts.len()).rev() {
        if let Some(part) = parts.get_mut(place) {
            numbering.add(numbers, place, part)?;
        }
    }
    Ok(parts)
}
