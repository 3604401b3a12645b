//! Words and options of commands.

use clap::{Arg, ArgAction};
use std::alloc::{AllocError, Global};

/// A word or an option of a command.
pub(crate) struct Word {
    /// The name by which it is found; of an option the one behind `--`.
    pub(crate) name: &'static str,
    /// What stands for its value in the help; nothing for a flag.
    pub(crate) value: &'static str,
    pub(crate) help: &'static str,
    pub(crate) form: Form,
    /// The letter of an option behind `-`.
    pub(crate) letter: Option<char>,
    pub(crate) tie: Tie,
}

/// What is given, and how often.
#[derive(Clone, Copy, PartialEq)]
pub(crate) enum Form {
    /// A word, which has to be there.
    Word,
    /// One word or more.
    Words,
    /// Any number of words.
    AnyWords,
    /// An option without a value.
    Flag,
    /// The same, which the help does not name.
    Hidden,
    /// An option with a value, which may be given once.
    Choice,
    /// An option with a value, which may be given again.
    Choices,
    /// An option with a value, which has to be given once.
    Needed,
    /// An option with a value, which has to be given, and may be given again.
    NeededAgain,
}

/// What an option asks of another one.
#[derive(Clone, Copy)]
pub(crate) enum Tie {
    Free,
    /// It is given with this one alone.
    With(&'static str),
    /// It is not given with this one.
    Without(&'static str),
}

impl Form {
    fn is_option(self) -> bool {
        !matches!(self, Form::Word | Form::Words | Form::AnyWords)
    }

    fn is_required(self) -> bool {
        !matches!(
            self,
            Form::Flag | Form::Hidden | Form::Choice | Form::Choices | Form::AnyWords
        )
    }

    fn action(self) -> ArgAction {
        match self {
            Form::Flag | Form::Hidden => ArgAction::SetTrue,
            Form::Words | Form::AnyWords | Form::Choices | Form::NeededAgain => ArgAction::Append,
            Form::Word | Form::Choice | Form::Needed => ArgAction::Set,
        }
    }
}

impl Word {
    pub(crate) fn arg<'a>(&self, alloc: Global) -> Result<Arg<'a>, AllocError> {
        let arg = Arg::new(alloc, self.name)
            .help(self.help)
            .required(self.form.is_required())
            .action(self.form.action());
        self.tied(self.with_value(self.with_names(arg)))
    }

    fn with_names<'a>(&self, arg: Arg<'a>) -> Arg<'a> {
        if !self.form.is_option() {
            return arg;
        }
        match self.letter {
            Some(letter) => arg.long(self.name).short(letter),
            None => arg.long(self.name),
        }
    }

    fn with_value<'a>(&self, arg: Arg<'a>) -> Arg<'a> {
        match self.form {
            Form::Flag => arg,
            Form::Hidden => arg.hide(true),
            Form::Words | Form::AnyWords => arg.value_name(self.value).num_args(1..),
            _ => arg.value_name(self.value),
        }
    }

    fn tied<'a>(&self, arg: Arg<'a>) -> Result<Arg<'a>, AllocError> {
        match self.tie {
            Tie::Free => Ok(arg),
            Tie::With(other) => arg.requires_arg(other),
            Tie::Without(other) => arg.conflicts_with(other),
        }
    }
}
