//! Text of several lines in a row of one.

use crate::line::Line;
use std::alloc::Global;

/// The text that words spell, one space between them: `\n`, `\r` and `\t` are the line feed, the
/// carriage return and the tab, and `\N(PART)` stands for N times the part, which has neither `)`
/// nor a backslash.
pub fn read_text(alloc: Global, words: &[&str], line: &mut Line) -> String {
    let mut text = Line::new(alloc);
    for (i, word) in words.iter().enumerate() {
        if i > 0 {
            text.put(" ");
        }
        read_word(&mut text, word);
    }
    line.kept(text.done()).unwrap_or(String::new(alloc))
}

fn read_word(text: &mut Line, word: &str) {
    for (i, part) in word.split('\\').enumerate() {
        if i == 0 {
            text.put(part);
        } else {
            read_escape(text, part);
        }
    }
}

/// Adds what stands behind a backslash.
fn read_escape(text: &mut Line, part: &str) {
    let (escape, rest) = part.split_at_checked(1).unwrap_or(("", ""));
    text.put(match escape {
        "n" => "\n",
        "r" => "\r",
        "t" => "\t",
        _ => return read_repeated(text, part),
    });
    text.put(rest);
}

/// Adds what `N(PART)` and what stands behind it spell.
fn read_repeated(text: &mut Line, part: &str) {
    let (times, rest) = part.split_once('(').unwrap_or(("", ""));
    let (repeated, rest) = rest.split_once(')').unwrap_or(("", ""));
    for _ in 0..text.number::<u32>(times) {
        text.put(repeated);
    }
    text.put(rest);
}

/// Writes bytes as the text that `read_text` reads, or `-` for none; a byte that is no ASCII as
/// `?`.
pub fn write_text(line: &mut Line, bytes: &[u8]) {
    if bytes.is_empty() {
        line.put("-");
    }
    for byte in bytes {
        match byte {
            b'\n' => line.put("\\n"),
            b'\r' => line.put("\\r"),
            b'\t' => line.put("\\t"),
            0x20..0x7F => line.show(char::from(*byte)),
            _ => line.put("?"),
        }
    }
}
