//! What the words of a command line should have been.

use crate::mistakes::{Mistake, mistake_in};
use std::fmt;

/// The commands, as a line of standard error names them.
pub const USAGE: &str = "component_tool check FILE | component_tool show FILE \
    | component_tool conform --wit W --world N FILE | component_tool link FILE.. \
    | component_tool play --script S FILE..";

/// A command, by the form that its words have.
#[derive(Clone, Copy, PartialEq, Eq)]
pub enum Form {
    Check,
    Show,
    Conform,
    Link,
    Play,
}

impl Form {
    /// Every command.
    pub const ALL: [Form; 5] = [
        Form::Check,
        Form::Show,
        Form::Conform,
        Form::Link,
        Form::Play,
    ];

    /// The word that names the command.
    pub fn name(self) -> &'static str {
        match self {
            Form::Check => "check",
            Form::Show => "show",
            Form::Conform => "conform",
            Form::Link => "link",
            Form::Play => "play",
        }
    }

    /// All words of the command.
    fn text(self) -> &'static str {
        match self {
            Form::Check => "component_tool check FILE",
            Form::Show => "component_tool show FILE",
            Form::Conform => "component_tool conform --wit W --world N FILE",
            Form::Link => "component_tool link FILE..",
            Form::Play => "component_tool play --script S FILE..",
        }
    }

    /// The names of its options, each of which is given once, with a value.
    pub fn options(self) -> &'static [&'static str] {
        match self {
            Form::Check | Form::Show | Form::Link => &[],
            Form::Conform => &["wit", "world"],
            Form::Play => &["script"],
        }
    }

    /// Whether it is on one file, and not on several.
    pub fn has_one_file(self) -> bool {
        matches!(self, Form::Check | Form::Show | Form::Conform)
    }
}

/// Words that are no command, or that ask for help. It is shown as a line of standard error has it:
/// `usage`, which word was wrong, and what was expected.
#[derive(Clone, Copy)]
pub enum Usage<'a> {
    /// These words.
    Words(&'a [String]),
    /// Words of which one is no text.
    NoText,
}

impl fmt::Display for Usage<'_> {
    fn fmt<W: fmt::Write>(&self, f: &mut fmt::Formatter<W>) -> fmt::Result {
        match self {
            Usage::Words(words) => write_usage(f, words),
            Usage::NoText => write!(f, "usage: a word is no text in UTF-8: expected {USAGE}"),
        }
    }
}

/// Writes which of these words is wrong, and what was expected.
fn write_usage<W: fmt::Write>(f: &mut fmt::Formatter<W>, words: &[String]) -> fmt::Result {
    f.write_str("usage: ")?;
    let mistake = mistake_in(words);
    if mistake != Mistake::Help {
        write!(f, "{mistake}: expected ")?;
    }
    match form_of(words) {
        Some(form) => f.write_str(form.text()),
        None => f.write_str(USAGE),
    }
}

/// The command that the first word names, or the second where the first one is `help`.
fn form_of(words: &[String]) -> Option<Form> {
    let first = words.first()?;
    if first.as_str() == "help" {
        let second = words.get(1)?;
        form_named(second.as_str())
    } else {
        form_named(first.as_str())
    }
}

/// The command of this name.
pub(crate) fn form_named(word: &str) -> Option<Form> {
    Form::ALL.iter().copied().find(|form| form.name() == word)
}
