//! Tables of texts.

ghost use Rattle.std.specs.Prelude.{◌≡◌, ◌++◌, ◌∷◌, ◌+◌, ◌*◌, ◌≤◌, [], ℕ, List, OnErr, OnOk};
ghost use Rattle.std.specs.Prelude.{length, map, max};
ghost use Rattle.std.specs.BTreeMap.{get_by_text};
ghost use Rattle.std.specs.String.{string_bytes};
ghost use Rattle.cm_names.specs.MarkedTexts.{IsTable, PutsLast, looked_up};

use crate::finding::find;
use crate::placing::{put, spread};
use std::alloc::{AllocError, Global};
use std::collections::BTreeMap;

/// Texts by number, from 0 on in the order in which they came.
///
/// A text is found by its hash, at one of 16 places; those for which the 16 are taken are in a
/// tree. So no choice of texts makes one slower to find than the tree does, but for 16 comparisons.
#[derive(Drop)]
pub struct TextTable {
    alloc: Global,
    texts: Vec<String>,
    /// By place: 0, or the number of a text and 1.
    marks: Vec<u32>,
    /// The numbers of the texts for which no place was left.
    rest: BTreeMap<String, usize>,
    /// How many texts there are to be when more places are made.
    next: usize,
    /// How many texts room was asked for, at most.
    room: usize,
    ghost is_table: { IsTable marks.items (map string_bytes texts.items) rest },
    // Places cost what the texts do, or those that room was asked for: eight for each at most, and
    // 80 more.
    ghost few: { length marks.items ≤ 8 * max (length texts.items) room + 80 },
}

/// The number of a text by its marks, or else by the tree.
fn looked_up(
    marks: &[u32],
    texts: &[String],
    rest: &BTreeMap<String, usize>,
    text: &str,
) -> Option<usize>
    ensures { result ≡ looked_up marks.now (map string_bytes texts.now) rest.now text.now }
{
    match find(marks, texts, text) {
        Some(number) => Some(number),
        None => rest.get(text).copied(),
    }
}

/// Puts the number of a text into the tree, and copies the text there.
fn put_aside(
    alloc: Global,
    rest: &mut BTreeMap<String, usize>,
    text: &str,
    number: usize,
) -> Result<(), AllocError>
    ensures put { OnOk result (PutsLast text.now number rest.old rest.new) }
    ensures kept { OnErr result ((t : List ℕ) → get_by_text rest.new t ≡ get_by_text rest.old t) }
{
    let copy = String::from_str(alloc, text)?;
    rest.insert(copy, number)?;
    Ok(())
}

/// Puts the number of a text, the next one, to a place, or else into the tree.
fn place(
    alloc: Global,
    marks: &mut Vec<u32>,
    rest: &mut BTreeMap<String, usize>,
    text: &str,
    number: usize,
) -> Result<(), AllocError>
    ensures placed { OnOk result ((ts : List (List ℕ)) → length ts ≡ number
        → IsTable marks.old.items ts rest.old
        → IsTable marks.new.items (ts ++ text.now ∷ []) rest.new) }
    ensures kept { OnErr result ((ts : List (List ℕ)) → IsTable marks.old.items ts rest.old
        → IsTable marks.new.items ts rest.new) }
    ensures places { length marks.new.items ≡ length marks.old.items }
{
    if put(marks, text, number) {
        return Ok(());
    }
    put_aside(alloc, rest, text, number)
}

impl TextTable {
    ghost use Rattle.std.specs.Prelude.{IfSome, Some, is_some, slice_get};
    ghost use Rattle.std.specs.List.{list_any};
    ghost use Rattle.std.specs.Str.{bytes_eq};
    ghost use Rattle.cm_names.specs.TextTables.{texts_of};

    /// No texts.
    pub fn new(alloc: Global) -> TextTable
        ensures { texts_of result ≡ [] }
    {
        TextTable {
            alloc,
            texts: Vec::new(alloc),
            marks: Vec::new(alloc),
            rest: BTreeMap::new(alloc),
            next: 0,
            room: 0,
        }
    }

    /// How many texts there are.
    pub fn len(&self) -> usize
        ensures { result ≡ length (texts_of self.now) }
    {
        self.texts.len()
    }

    /// The number of a text, if it is there: one of them, where it is there more than once.
    pub fn number(&self, text: &str) -> Option<usize>
        ensures there { IfSome result (λ n. slice_get (texts_of self.now) n ≡ Some text.now) }
        ensures known { is_some result ≡ list_any (bytes_eq text.now) (texts_of self.now) }
    {
        looked_up(&self.marks, &self.texts, &self.rest, text)
    }

    /// Makes places for so many texts, so that an eighth of them is marked then, and a fourth once
    /// the texts have doubled.
    fn widen(&mut self, texts: usize) -> Result<(), AllocError>
        requires { texts ≤ max (length (texts_of self.old)) self.old.room }
        ensures { texts_of self.new ≡ texts_of self.old }
    {
        let texts = texts.max(8);
        let size = texts.saturating_mul(8).saturating_add(16);
        if let Some(marks) = spread(self.alloc, &self.marks, &self.texts, size)? {
            self.marks = marks;
        }
        self.next = texts.saturating_mul(2);
        Ok(())
    }

    /// Makes more places, if it is time.
    fn make_room(&mut self) -> Result<(), AllocError>
        ensures { texts_of self.new ≡ texts_of self.old }
    {
        let texts = self.texts.len();
        if texts >= self.next {
            self.widen(texts)?;
        }
        Ok(())
    }

    /// Makes room for so many texts more, so that adding them makes none; where that makes places
    /// at all, it makes as many as `add` would. `AllocError` comes where there is no memory for it.
    /// The texts are what they were.
    pub fn reserve(&mut self, more: usize) -> Result<(), AllocError>
        ensures { texts_of self.new ≡ texts_of self.old }
    {
        self.texts.reserve(more)?;
        let count = self.texts.len();
        let texts = count.saturating_add(more);
        self.room = self.room.max(texts);
        if texts > self.next {
            self.widen(count.max(texts / 2 + 1))?;
        }
        Ok(())
    }

    /// Adds a text, whether it is there or not: its number is that of the texts before.
    /// `AllocError` comes where there is no memory for it, and the texts are then what they were.
    pub fn add(&mut self, text: String) -> Result<(), AllocError>
        ensures added { OnOk result
            (texts_of self.new ≡ texts_of self.old ++ string_bytes text ∷ []) }
        ensures kept { OnErr result (texts_of self.new ≡ texts_of self.old) }
    {
        self.make_room()?;
        self.texts.reserve(1)?;
        let number = self.texts.len();
        place(
            self.alloc,
            &mut self.marks,
            &mut self.rest,
            text.as_str(),
            number,
        )?;
        self.texts.push_reserved(text);
        Ok(())
    }
}
