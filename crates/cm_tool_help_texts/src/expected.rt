//! What may stand at a place of a WIT text, found by the reader itself.

use cm_wit_package::{WitFault, parse};
use std::alloc::{AllocError, Global};

/// Types that have a name of their own.
const PRIMITIVE: &str = "u8";

/// Tokens that are tried, each with the words that name it.
const TOKENS: [(&str, &str); 34] = [
    ("a-name", "a name"),
    ("u8", "a type"),
    ("func", "func"),
    ("static", "static"),
    ("constructor", "constructor"),
    ("package", "package"),
    ("interface", "interface"),
    ("world", "world"),
    ("import", "import"),
    ("export", "export"),
    ("use", "use"),
    ("as", "as"),
    ("type", "type"),
    ("record", "record"),
    ("variant", "variant"),
    ("enum", "enum"),
    ("flags", "flags"),
    ("resource", "resource"),
    ("1", "a number"),
    ("=", "="),
    (",", ","),
    (":", ":"),
    (";", ";"),
    ("(", "("),
    (")", ")"),
    ("{", "{"),
    ("}", "}"),
    ("<", "<"),
    (">", ">"),
    ("->", "->"),
    ("/", "/"),
    (".", "."),
    ("@", "@"),
    ("_", "_"),
];

/// The longest text before a place that is read again.
const MAX_FRONT: usize = 65_536;

/// The first fault of a text, if it has one.
pub(crate) fn fault_in(alloc: Global, text: &str) -> Option<WitFault> {
    parse(alloc, text).err()
}

/// Whether a text may go on with a token behind its front: the first fault is then not at the
/// token.
fn may_follow(alloc: Global, front: &str, token: &str) -> Result<bool, AllocError> {
    let tried = format!(in alloc; "{front} {token}")?;
    let at = front.len().saturating_add(1);
    match fault_in(alloc, tried.as_str()) {
        None => Ok(true),
        Some(fault) => Ok(fault.at > at),
    }
}

/// What may stand behind the front of a text, joined by commas; nothing where the front is long. A
/// name that is a type may be one of each.
pub(crate) fn expected(alloc: Global, front: &str) -> Result<String, AllocError> {
    let mut out = String::new(alloc);
    if front.len() > MAX_FRONT {
        return Ok(out);
    }
    let is_type = may_follow(alloc, front, PRIMITIVE)?;
    for (token, words) in TOKENS {
        let is_told = !is_type || token != "a-name";
        if is_told && may_follow(alloc, front, token)? {
            add(&mut out, words)?;
        }
    }
    if fault_in(alloc, front).is_none() {
        add(&mut out, "the end of the text")?;
    }
    Ok(out)
}

fn add(out: &mut String, words: &str) -> Result<(), AllocError> {
    if !out.is_empty() {
        out.push_str(" or ")?;
    }
    out.push_str(words)
}
