//! Rows on the answers to requests: `answers LENGTH REQUEST.. = ANSWER..`.
//!
//! LENGTH is that of the memory, in bytes. A request is `ALIGN:SIZE`, and one that hands back what
//! the request before it got has a `>` before it.

ghost use Rattle.std.specs.Prelude.{◌<◌, IfOk};
ghost use Rattle.cm_abi_model.specs.Answering.{AreAligned};

use crate::call::read_answers;
use crate::passing::write_fault;
use cm_abi_model::Request;
use cm_abi_requests::check_answers;
use cm_rows::{Line, RowFault, word, words_from};
use std::alloc::{AllocError, Global};

/// Writes where the parts stand, or the fault.
pub fn answer(alloc: Global, words: &[&str], line: &mut Line) {
    let length = line.number(word(words, 0));
    let (requests, answers) = line.split(words_from(words, 1), "=");
    let answers = read_answers(alloc, answers, line);
    match read_requests(alloc, requests, line) {
        Ok(requests) => write_places(alloc, &requests, &answers, length, line),
        Err(_) => line.fail(RowFault::Memory),
    }
}

fn write_places(
    alloc: Global,
    requests: &[Request],
    answers: &[u32],
    length: usize,
    line: &mut Line,
)
    requires { AreAligned requests.now }
{
    if answers.len() != requests.len() {
        return line.refuse();
    }
    match check_answers(alloc, requests, answers, length) {
        Ok(places) => {
            line.put("places");
            for place in &places {
                line.put(" ");
                line.show(*place);
            }
        }
        Err(fault) => write_fault(line, fault),
    }
}

fn read_requests(alloc: Global, words: &[&str], line: &mut Line) -> Result<Vec<Request>, AllocError>
    ensures { IfOk result (λ rs. AreAligned rs.items) }
{
    let mut requests = Vec::new(alloc);
    for word in words {
        requests.push(read_request(word, line))?;
    }
    Ok(requests)
}

/// A request; one with no alignment is no row.
fn read_request(word: &str, line: &mut Line) -> Request
    ensures { 0 < result.align }
{
    let (chained, word) = match word.split_once('>') {
        Some((_, word)) => (true, word),
        None => (false, word),
    };
    let (align, size) = word.split_once(':').unwrap_or(("", ""));
    let align = line.number::<u32>(align);
    if align == 0 {
        line.refuse();
    }
    Request {
        chained,
        old_size: 0,
        align: align.max(1),
        size: line.number(size),
    }
}
