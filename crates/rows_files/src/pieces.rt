//! Rows on files that come in pieces.

use crate::outcomes::{show_outcome, write_answers, write_fault, write_outcome};
use cm_binary::{Decoder, decode_pieces};
use cm_rows::{Line, word, words_from};
use std::alloc::Global;

/// What takes the pieces of a file.
#[derive(Clone, Copy)]
enum Taker {
    /// A decoder that is fed them.
    Decoder,
    /// `decode_pieces`.
    Joined,
}

/// The answer to `feed PIECE..`, `feed_cuts FILE`, `feed_parts SIZE FILE` or, of `decode_pieces`,
/// `join PIECE..`, `join_cuts FILE` or `join_parts SIZE FILE`.
pub fn answer(alloc: Global, words: &[&str], line: &mut Line) {
    let rest = words_from(words, 1);
    match word(words, 0) {
        "feed" => take_pieces(alloc, Taker::Decoder, rest, line),
        "join" => take_pieces(alloc, Taker::Joined, rest, line),
        "feed_parts" => take_parts(alloc, Taker::Decoder, rest, line),
        "join_parts" => take_parts(alloc, Taker::Joined, rest, line),
        "feed_cuts" => write_fed_cuts(alloc, &line.bytes(alloc, word(rest, 0)), line),
        "join_cuts" => write_joined_cuts(alloc, &line.bytes(alloc, word(rest, 0)), line),
        _ => line.refuse(),
    }
}

fn take_pieces(alloc: Global, taker: Taker, words: &[&str], line: &mut Line) {
    let mut pieces = Vec::new(alloc);
    for word in words {
        let piece = line.bytes(alloc, word);
        line.push(&mut pieces, piece);
    }
    take(alloc, taker, &slices(alloc, &pieces, line), line);
}

fn slices<'a>(alloc: Global, pieces: &'a [Vec<u8>], line: &mut Line) -> Vec<&'a [u8]> {
    let mut slices = Vec::new(alloc);
    for piece in pieces {
        line.push(&mut slices, piece.as_slice());
    }
    slices
}

fn take_parts(alloc: Global, taker: Taker, words: &[&str], line: &mut Line) {
    let size = line.number(word(words, 0));
    let file = line.bytes(alloc, word(words, 1));
    take(alloc, taker, &parts(alloc, &file, size, line), line);
}

/// The file in parts of so many bytes, with an empty piece behind each.
fn parts<'a>(alloc: Global, file: &'a [u8], size: usize, line: &mut Line) -> Vec<&'a [u8]> {
    let mut parts: Vec<&'a [u8]> = Vec::new(alloc);
    if size == 0 {
        line.refuse();
        return parts;
    }
    for part in file.chunks(size) {
        line.push(&mut parts, part);
        line.push(&mut parts, &[]);
    }
    parts
}

/// Writes what each piece is answered, and then `finish`; or what the pieces come to.
fn take(alloc: Global, taker: Taker, pieces: &[&[u8]], line: &mut Line) {
    match taker {
        Taker::Decoder => {
            let answers = feed_all(alloc, Decoder::new(alloc), pieces, line);
            write_answers(line, &answers);
        }
        Taker::Joined => write_outcome(alloc, decode_pieces(alloc, pieces), line),
    }
}

fn feed_all(alloc: Global, mut decoder: Decoder, pieces: &[&[u8]], line: &mut Line) -> Vec<Line> {
    let mut answers = Vec::new(alloc);
    for piece in pieces {
        line.push(&mut answers, feed(alloc, &mut decoder, piece));
    }
    line.push(&mut answers, show_outcome(alloc, decoder.finish()));
    answers
}

/// Feeds the piece: `pending` then, or the fault.
fn feed(alloc: Global, decoder: &mut Decoder, piece: &[u8]) -> Line {
    let mut line = Line::new(alloc);
    match decoder.feed(piece) {
        Ok(()) => line.show(decoder.pending()),
        Err(fault) => write_fault(&mut line, &fault),
    }
    line
}

/// What is answered at each cut of a file: the piece before it, the piece behind it, and `finish`.
#[derive(Drop)]
struct Cuts {
    before: Vec<Line>,
    behind: Vec<Line>,
    ends: Vec<Line>,
}

impl Cuts {
    fn feed(&mut self, alloc: Global, first: &[u8], second: &[u8], line: &mut Line) {
        let mut decoder = Decoder::new(alloc);
        line.push(&mut self.before, feed(alloc, &mut decoder, first));
        line.push(&mut self.behind, feed(alloc, &mut decoder, second));
        line.push(&mut self.ends, show_outcome(alloc, decoder.finish()));
    }

    fn write(&self, line: &mut Line) {
        line.put("before: ");
        write_answers(line, &self.before);
        line.put(" | behind: ");
        write_answers(line, &self.behind);
        line.put(" | finish: ");
        write_answers(line, &self.ends);
    }
}

/// Writes for each cut of the file what the piece before it is answered; then, again for each, the
/// piece behind it; then `finish`.
fn write_fed_cuts(alloc: Global, file: &[u8], line: &mut Line) {
    let mut cuts = Cuts {
        before: Vec::new(alloc),
        behind: Vec::new(alloc),
        ends: Vec::new(alloc),
    };
    for cut in 0..=file.len() {
        let (first, second) = file.split_at(cut);
        cuts.feed(alloc, first, second, line);
    }
    cuts.write(line);
}

/// Writes what the two pieces of each cut come to, with empty pieces around them.
fn write_joined_cuts(alloc: Global, file: &[u8], line: &mut Line) {
    let mut answers = Vec::new(alloc);
    for cut in 0..=file.len() {
        let (first, second) = file.split_at(cut);
        let outcome = decode_pieces(alloc, &[&[], first, &[], second, &[]]);
        line.push(&mut answers, show_outcome(alloc, outcome));
    }
    write_answers(line, &answers);
}
