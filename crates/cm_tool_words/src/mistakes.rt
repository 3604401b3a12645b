//! Which word of a command line is wrong.

use crate::usage::{Form, form_named};
use cm_tool_help_texts::{Escaped, is_near};
use std::fmt;

/// What is wrong with the words of a command line.
#[derive(Clone, Copy, PartialEq, Eq)]
pub enum Mistake<'a> {
    /// There are no words.
    NoWords,
    /// They ask for help.
    Help,
    /// The first word names no command; it may stand for the other one.
    NoCommand(&'a str, Option<&'static str>),
    /// The command has no option of this word; it may stand for the other one.
    NoOption(Form, &'a str, Option<&'static str>),
    /// No value stands behind an option.
    NoValue(&'static str),
    /// An option stands twice.
    Twice(&'static str),
    /// An option is not given.
    Missing(&'static str),
    /// No file is given.
    NoFile,
    /// A file more than the command takes.
    OneFile(&'a str),
}

impl fmt::Display for Mistake<'_> {
    fn fmt<W: fmt::Write>(&self, f: &mut fmt::Formatter<W>) -> fmt::Result {
        match self {
            Mistake::NoWords => f.write_str("no command is given"),
            Mistake::Help => f.write_str("help"),
            Mistake::NoCommand(word, meant) => {
                write!(f, "\"{}\" is no command", Escaped(word))?;
                write_meant(f, "", *meant)
            }
            Mistake::NoOption(form, word, meant) => {
                let command = form.name();
                write!(f, "{command} has no option {}", Escaped(word))?;
                write_meant(f, "--", *meant)
            }
            Mistake::NoValue(option) => write!(f, "no value stands behind --{option}"),
            Mistake::Twice(option) => write!(f, "--{option} stands twice"),
            Mistake::Missing(option) => write!(f, "--{option} is missing"),
            Mistake::NoFile => f.write_str("no FILE is given"),
            Mistake::OneFile(word) => { write!(f, "\"{}\" is one FILE too many", Escaped(word)) }
        }
    }
}

/// Writes what a word may stand for, with a front.
fn write_meant<W: fmt::Write>(
    f: &mut fmt::Formatter<W>,
    front: &str,
    meant: Option<&'static str>,
) -> fmt::Result {
    match meant {
        Some(meant) => write!(f, " (is {front}{meant} meant?)"),
        None => Ok(()),
    }
}

/// The first mistake in the words of a command line that are refused.
pub(crate) fn mistake_in(words: &[String]) -> Mistake<'_> {
    let Some((first, rest)) = words.split_first() else {
        return Mistake::NoWords;
    };
    match first.as_str() {
        "help" | "--help" | "-h" => Mistake::Help,
        name => match form_named(name) {
            Some(form) => mistake_behind(form, rest),
            None => Mistake::NoCommand(name, meant_command(name.trim_start_matches('-'))),
        },
    }
}

/// Words by which other tools know the commands.
const OTHER_NAMES: [(&str, &str); 12] = [
    ("validate", "check"),
    ("verify", "check"),
    ("print", "show"),
    ("wit", "show"),
    ("inspect", "show"),
    ("targets", "conform"),
    ("fits", "conform"),
    ("compose", "link"),
    ("plug", "link"),
    ("run", "play"),
    ("execute", "play"),
    ("start", "play"),
];

/// The command that a word likely stands for.
fn meant_command(word: &str) -> Option<&'static str> {
    for (other, name) in OTHER_NAMES {
        if other == word {
            return Some(name);
        }
    }
    meant_name(word, &["check", "show", "conform", "link", "play"])
}

/// The first of these names for which a word is likely a slip.
fn meant_name(word: &str, names: &[&'static str]) -> Option<&'static str> {
    for name in names {
        if is_near(word, name) {
            return Some(name);
        }
    }
    None
}

/// What was read of the words behind a command.
#[derive(Clone, Copy)]
struct Behind<'a> {
    form: Form,
    /// The first option, and the second, were given.
    given: [bool; 2],
    /// The option whose value is the next word.
    open: Option<&'static str>,
    /// How many files were given, and that options are over.
    files: usize,
    no_more_options: bool,
    mistake: Option<Mistake<'a>>,
}

/// The first mistake in the words behind a command.
fn mistake_behind(form: Form, words: &[String]) -> Mistake<'_> {
    let mut behind = Behind {
        form,
        given: [false, false],
        open: None,
        files: 0,
        no_more_options: false,
        mistake: None,
    };
    for word in words {
        behind = behind.with(word.as_str());
        if let Some(mistake) = behind.mistake {
            return mistake;
        }
    }
    behind.at_end()
}

impl<'a> Behind<'a> {
    /// The same, with one word more.
    fn with(self, word: &'a str) -> Behind<'a> {
        if self.open.is_some() {
            return Behind { open: None, ..self };
        }
        if self.no_more_options || !word.starts_with('-') || word == "-" {
            return self.with_file(word);
        }
        match word {
            "--" => Behind {
                no_more_options: true,
                ..self
            },
            "-h" | "--help" => self.wrong(Mistake::Help),
            _ => self.with_option(word),
        }
    }

    fn wrong(self, mistake: Mistake<'a>) -> Behind<'a> {
        Behind {
            mistake: Some(mistake),
            ..self
        }
    }

    fn with_file(self, word: &'a str) -> Behind<'a> {
        if self.form.has_one_file() && self.files > 0 {
            return self.wrong(Mistake::OneFile(word));
        }
        Behind {
            files: self.files.saturating_add(1),
            ..self
        }
    }

    fn with_option(self, word: &'a str) -> Behind<'a> {
        let (name, value) = match word.split_once('=') {
            Some((name, value)) => (name, Some(value)),
            None => (word, None),
        };
        let [first, second] = self.given;
        match self.form.place_of(name) {
            Some((_, option)) if self.is_given(option) => self.wrong(Mistake::Twice(option)),
            Some((place, option)) => Behind {
                given: [first || place == 0, second || place == 1],
                open: if value.is_some() { None } else { Some(option) },
                ..self
            },
            None => {
                let bare = name.trim_start_matches('-');
                let meant = meant_name(bare, self.form.options());
                self.wrong(Mistake::NoOption(self.form, name, meant))
            }
        }
    }

    fn is_given(self, option: &str) -> bool {
        let [first, second] = self.given;
        match self.form.options() {
            [a, ..] if *a == option => first,
            [_, b, ..] if *b == option => second,
            _ => false,
        }
    }

    /// What is missing behind the last word.
    fn at_end(self) -> Mistake<'a> {
        if let Some(option) = self.open {
            return Mistake::NoValue(option);
        }
        let [first, second] = self.given;
        match self.form.options() {
            [a, ..] if !first => Mistake::Missing(a),
            [_, b, ..] if !second => Mistake::Missing(b),
            _ => Mistake::NoFile,
        }
    }
}

impl Form {
    /// The place among the options, and the name, of the one that a word with its dashes is.
    fn place_of(self, word: &str) -> Option<(usize, &'static str)> {
        let bare = word.strip_prefix("--")?;
        match self.options() {
            [a, ..] if *a == bare => Some((0, a)),
            [_, b, ..] if *b == bare => Some((1, b)),
            _ => None,
        }
    }
}
