//! Whether colors are wanted.

use std::env::FillError;
use std::rt::Env;

/// Whether lines are colored that go to a terminal, or to none: to a terminal, unless the
/// environment has `NO_COLOR` or `TERM` is `dumb`; and elsewhere where it has `CLICOLOR_FORCE`, but
/// no `NO_COLOR`. A variable that is empty counts as none.
pub fn is_colored<R: Env>(rt: &R, is_terminal: bool) -> bool {
    if has(rt, "NO_COLOR") {
        return false;
    }
    has(rt, "CLICOLOR_FORCE") || is_terminal && !is_dumb(rt)
}

/// Whether the environment has a variable that is not empty.
fn has<R: Env>(rt: &R, name: &str) -> bool {
    let mut text = [0u8; 1];
    match rt.var(name, &mut text) {
        Ok(length) => length > 0,
        Err(FillError::TooLong) => true,
        Err(FillError::NotPresent) => false,
    }
}

/// Whether the terminal has no colors.
fn is_dumb<R: Env>(rt: &R) -> bool {
    let mut text = [0u8; 4];
    match rt.var("TERM", &mut text) {
        Ok(4) => &text == b"dumb",
        _ => false,
    }
}
