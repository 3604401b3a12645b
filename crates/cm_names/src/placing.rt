//! Marking places.

ghost use Rattle.std.specs.Prelude.{◌≡◌, ◌≤◌, ◌^◌, IfOk, IfSome, length, map, slice_get, suc};
ghost use Rattle.std.specs.Prelude.{true};
ghost use Rattle.std.specs.Option.{option_map};
ghost use Rattle.std.specs.String.{string_bytes};
ghost use Rattle.cm_names.specs.Finding.{IsFound, IsFoundOf, KeepsFound, KeepsFoundOf};
ghost use Rattle.cm_names.specs.Places.{IsRoom};

use crate::finding::{WINDOW, marked};
use crate::hash::home;
use std::alloc::{AllocError, Global};

/// The first place from a home on that is not marked, if one of 16 is not.
fn room(marks: &[u32], home: usize) -> Option<usize>
    requires { home ≤ 2 ^ 32 }
    ensures { IfSome result (IsRoom marks.now home) }
{
    for at in home..home + WINDOW {
        if *marks.get(at)? == 0 {
            return Some(at);
        }
    }
    None
}

/// The mark of a number, if it has one.
fn mark_of(number: usize) -> Option<u32>
    ensures { IfSome result (λ m. m ≡ suc number) }
{
    u32::try_from(number).ok()?.checked_add(1)
}

/// Marks a place with the number of a text, and says whether there was room.
pub(crate) fn put(marks: &mut Vec<u32>, text: &str, number: usize) -> bool
    ensures kept { KeepsFound marks.old.items marks.new.items }
    ensures found { result ≡ true → IsFound marks.new.items text.now number }
    ensures places { length marks.new.items ≡ length marks.old.items }
{
    let Some(mark) = mark_of(number) else {
        return false;
    };
    match room(marks, home(text, marks.len())) {
        Some(at) => {
            marks[at] = mark;
            true
        }
        None => false,
    }
}

/// The text of a number, if there is one.
fn text_at(texts: &[String], number: usize) -> Option<&str>
    ensures { option_map (λ t. t.now) result ≡ slice_get (map string_bytes texts.now) number }
{
    match texts.get(number) {
        Some(text) => Some(text.as_str()),
        None => None,
    }
}

/// Marks a place with a number again, if there is one and it is a text's, and says whether there
/// was room.
fn put_again(marks: &mut Vec<u32>, texts: &[String], number: Option<usize>) -> bool
    ensures kept { KeepsFound marks.old.items marks.new.items }
    ensures found { result ≡ true → IfSome number (IsFoundOf (map string_bytes texts.now)
        marks.new.items) }
    ensures places { length marks.new.items ≡ length marks.old.items }
{
    let Some(number) = number else {
        return true;
    };
    match text_at(texts, number) {
        Some(text) => put(marks, text, number),
        None => true,
    }
}

/// As many places as are asked for, marked with the numbers that others are marked with; none where
/// there is no room for one of them.
pub(crate) fn spread(
    alloc: Global,
    marks: &[u32],
    texts: &[String],
    size: usize,
) -> Result<Option<Vec<u32>>, AllocError>
    ensures found { IfOk result (λ r. IfSome r (λ new.
        KeepsFoundOf (map string_bytes texts.now) marks.now new.items)) }
    ensures places { IfOk result (λ r. IfSome r (λ new. length new.items ≡ size)) }
{
    let mut new = Vec::from_elem(alloc, 0, size)?;
    for at in 0..marks.len() {
        if !put_again(&mut new, texts, marked(marks, at)) {
            return Ok(None);
        }
    }
    Ok(Some(new))
}
