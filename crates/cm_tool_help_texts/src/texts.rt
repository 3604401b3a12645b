//! What stands in a WIT text where it is refused.

use crate::escaped::Escaped;
use crate::expected::{expected, fault_in};
use crate::position::Position;
use crate::wit_token::{ends_with, front_at, rest_at, token_of};
use cm_wit_package::{WitFault, WitReason};
use std::alloc::{AllocError, Global};
use std::fmt::Write;

/// The most bytes of a token that are shown.
const MAX_TOKEN: usize = 60;

/// Where a text has its fault, as an editor names the place, what stands there, and what is wrong
/// with it or may stand there.
pub fn wit_help(alloc: Global, text: &str, fault: WitFault) -> Result<String, AllocError> {
    let mut out = String::new(alloc);
    if fault.reason == WitReason::Memory {
        return Ok(out);
    }
    let position = Position::of(text, fault.at);
    write!(out, ": {position}: ")?;
    write_found(&mut out, token_of(rest_at(text, fault.at)))?;
    match fault.reason {
        WitReason::BadToken => out.push_str(bad_token(text, fault.at))?,
        WitReason::Unsupported => out.push_str(unsupported(text, fault.at))?,
        WitReason::Unexpected => write_expected(alloc, &mut out, text, fault.at)?,
        WitReason::UnknownName => write_unknown(alloc, &mut out, text, fault.at)?,
        _ => {}
    }
    Ok(out)
}

fn write_found(out: &mut String, token: &str) -> Result<(), AllocError> {
    if token.is_empty() {
        return out.push_str("found the end of the text");
    }
    if token.len() > MAX_TOKEN {
        let length = token.len();
        write!(out, "found a word of {length} letters")?;
        return Ok(());
    }
    write!(out, "found \"{}\"", Escaped(token))?;
    Ok(())
}

/// What is wrong with what begins at a byte and is no token.
fn bad_token(text: &str, at: usize) -> &'static str {
    let (front, rest) = (front_at(text, at), rest_at(text, at));
    if ends_with(front, "@") {
        ", which is no version as 1.2.3"
    } else if rest.starts_with("/*") {
        ", a comment without its end"
    } else if rest.starts_with(|c: char| c.is_ascii_digit()) {
        ", which is no number: digits alone, and no 0 before others"
    } else if rest.starts_with(|c: char| c.is_ascii_alphabetic() || c == '%') {
        ", which is no name: words in lower case or acronyms in upper case, joined by hyphens, \
         each beginning with a letter"
    } else {
        ", of which WIT knows no token"
    }
}

/// Which form is not read.
fn unsupported(text: &str, at: usize) -> &'static str {
    match token_of(rest_at(text, at)) {
        "include" => ": worlds that include others are not read",
        "own" => ": the name of a resource alone is its owned handle",
        "f32" | "f64" => ": there are no floats so far",
        "stream" | "future" | "async" => ": there are no asynchronous functions so far",
        "from" => ": write the path first, as in use a-path.{a-name}",
        "@" => ": gates, as @since, are not read",
        "use" => ": a use stands in an interface",
        _ => "",
    }
}

fn write_expected(
    alloc: Global,
    out: &mut String,
    text: &str,
    at: usize,
) -> Result<(), AllocError> {
    let token = token_of(rest_at(text, at));
    let front = front_at(text, at);
    if token == "borrow" && ends_with_result(front) {
        return out.push_str(", and no result holds a borrow");
    }
    let words = expected(alloc, front)?;
    if words.is_empty() {
        return Ok(());
    }
    if is_name(token) && is_answer(words.as_str()) {
        return out.push_str(", a name that leads to a borrow, which no result holds");
    }
    write!(out, ", expected {}", words.as_str())?;
    if is_name(token) && words.as_str().contains("a name") {
        write!(out, "; as a name it is written %{token}")?;
    }
    if is_of_interfaces(token) && words.as_str().contains("import") {
        out.push_str("; types and uses stand in interfaces")?;
    }
    Ok(())
}

/// Whether a word may be a name, with `%` before it where it is a keyword.
fn is_name(token: &str) -> bool {
    token.starts_with(|c: char| c.is_ascii_alphabetic() || c == '%') && token != "borrow"
}

/// Whether a word begins an item that interfaces have and worlds have not.
fn is_of_interfaces(token: &str) -> bool {
    matches!(
        token,
        "use" | "type" | "record" | "variant" | "enum" | "flags" | "resource"
    )
}

/// Whether a type is expected, and nothing else.
fn is_answer(words: &str) -> bool {
    words == "a type" || words == "a type or _"
}

/// Whether a result stands open before a place.
fn ends_with_result(front: &str) -> bool {
    match front.rsplit_once("->") {
        Some((_, behind)) => !behind.contains(';'),
        None => false,
    }
}

/// What is wrong with a name that leads nowhere.
fn write_unknown(alloc: Global, out: &mut String, text: &str, at: usize) -> Result<(), AllocError> {
    if is_declared(alloc, text, at)? {
        return out.push_str(", which is declared but is no resource");
    }
    Ok(())
}

/// Whether the name in a borrow that is refused is declared: the same text with the name alone is
/// not refused there.
fn is_declared(alloc: Global, text: &str, at: usize) -> Result<bool, AllocError> {
    let front = front_at(text, at);
    let Some(front) = before_borrow(front) else {
        return Ok(false);
    };
    let rest = rest_at(text, at);
    let name = token_of(rest);
    let Some((_, behind)) = rest.split_once('>') else {
        return Ok(false);
    };
    let tried = format!(in alloc; "{front}{name}{behind}")?;
    match fault_in(alloc, tried.as_str()) {
        None => Ok(true),
        Some(fault) => Ok(fault.at > front.len()),
    }
}

/// What stands before the word `borrow` that a name in `<` `>` stands behind.
fn before_borrow(front: &str) -> Option<&str> {
    front
        .trim_end()
        .strip_suffix('<')?
        .trim_end()
        .strip_suffix("borrow")
}
