//! Rows on printing.

use crate::reading::write_fault;
use crate::texts::Texts;
use cm_rows::{Line, write_text};
use cm_wit_package::{WitFault, parse, print};
use std::alloc::Global;

/// The text that prints the package of a text.
fn printed(alloc: Global, text: &str) -> Result<String, WitFault> {
    let package = parse(alloc, text)?;
    match print(alloc, &package) {
        Ok(printed) => Ok(printed),
        Err(error) => Err(WitFault::from(error)),
    }
}

/// The text that prints the package of a text, and the one that prints the package of that.
fn printed_twice(alloc: Global, text: &str) -> Result<(String, String), WitFault> {
    let once = printed(alloc, text)?;
    let again = printed(alloc, once.as_str())?;
    Ok((once, again))
}

/// Writes the text that prints a package, where reading and printing it gives the same bytes again.
pub fn answer(alloc: Global, text: &str, line: &mut Line) {
    match printed_twice(alloc, text) {
        Ok((once, again)) => write_printed(line, once.as_str(), again.as_str()),
        Err(fault) => write_fault(line, fault),
    }
}

fn write_printed(line: &mut Line, once: &str, again: &str) {
    if again == once {
        write_text(line, once.as_bytes());
    } else {
        line.put("printed again in another way");
    }
}

/// Writes whether the package of one text is printed as another text stands, and so is what was
/// printed, and how many bytes were printed.
pub fn compare(alloc: Global, texts: &Texts, written: &str, wanted: &str, line: &mut Line) {
    let (Some(written), Some(wanted)) = (texts.named(written), texts.named(wanted)) else {
        return line.refuse();
    };
    match printed_twice(alloc, written) {
        Ok((once, again)) => write_compared(line, once.as_str(), again.as_str(), wanted),
        Err(fault) => write_fault(line, fault),
    }
}

fn write_compared(line: &mut Line, once: &str, again: &str, wanted: &str) {
    line.show(once.len());
    line.put(if once != wanted {
        " other bytes"
    } else if again != wanted {
        " bytes, but others again"
    } else {
        " bytes, and again"
    });
}
