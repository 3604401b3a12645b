//! What the words of the command line ask for.

use clap::error::ErrorKind;
use clap::{Arg, ArgAction, ArgMatches, Command};
use std::alloc::{AllocError, Global};
use thiserror::Error;

/// Why words are no command.
#[derive(Clone, Copy, Debug, Error)]
pub enum WordsFault {
    /// The words are no command, or ask for help.
    #[error("no command")]
    NoCommand,
    /// There was no memory.
    #[error("no memory")]
    Memory,
}

/// A command, with the names of its files in order.
#[derive(Drop)]
pub enum Request<'a> {
    /// `check FILE`
    Check {
        file: &'a str,
    },
    /// `show FILE`
    Show {
        file: &'a str,
    },
    /// `conform --wit W --world N FILE`
    Conform {
        wit: &'a str,
        world: &'a str,
        file: &'a str,
    },
    /// `link FILE..`
    Link {
        files: Vec<&'a str>,
    },
    /// `play --script S FILE..`
    Play {
        script: &'a str,
        files: Vec<&'a str>,
    },
}

impl<'a> Request<'a> {
    /// The command that the words ask for. The program's own name is not among them.
    ///
    /// Words that are no command, or that ask for help, are refused with `NoCommand`; `Memory`
    /// comes where there is no memory.
    pub fn read(alloc: Global, words: &'a [String]) -> Result<Request<'a>, WordsFault> {
        let matches = match_words(alloc, words)?;
        match matches.subcommand() {
            Some(("check", found)) => Request::check(found),
            Some(("show", found)) => Request::show(found),
            Some(("conform", found)) => Request::conform(found),
            Some(("link", found)) => Request::link(alloc, found),
            Some(("play", found)) => Request::play(alloc, found),
            _ => Err(WordsFault::NoCommand),
        }
    }

    fn check(found: &ArgMatches<'a>) -> Result<Request<'a>, WordsFault> {
        let file = value_of(found, "file")?;
        Ok(Request::Check { file })
    }

    fn show(found: &ArgMatches<'a>) -> Result<Request<'a>, WordsFault> {
        let file = value_of(found, "file")?;
        Ok(Request::Show { file })
    }

    fn conform(found: &ArgMatches<'a>) -> Result<Request<'a>, WordsFault> {
        let wit = value_of(found, "wit")?;
        let world = value_of(found, "world")?;
        let file = value_of(found, "file")?;
        Ok(Request::Conform { wit, world, file })
    }

    fn link(alloc: Global, found: &ArgMatches<'a>) -> Result<Request<'a>, WordsFault> {
        let files = files_of(alloc, found)?;
        Ok(Request::Link { files })
    }

    fn play(alloc: Global, found: &ArgMatches<'a>) -> Result<Request<'a>, WordsFault> {
        let script = value_of(found, "script")?;
        let files = files_of(alloc, found)?;
        Ok(Request::Play { script, files })
    }
}

fn match_words<'a>(alloc: Global, words: &'a [String]) -> Result<ArgMatches<'a>, WordsFault> {
    let tool = match commands(alloc) {
        Ok(tool) => tool,
        Err(AllocError) => return Err(WordsFault::Memory),
    };
    match tool.try_get_matches_from(words) {
        Ok(matches) => Ok(matches),
        Err(error) if error.kind() == ErrorKind::OutOfMemory => Err(WordsFault::Memory),
        Err(_) => Err(WordsFault::NoCommand),
    }
}

/// The tool with all its commands.
fn commands<'a>(alloc: Global) -> Result<Command<'a>, AllocError> {
    let tool = Command::new(alloc, "component_tool")
        .no_binary_name(true)
        .subcommand_required(true);
    let tool = add(tool, on_file(alloc, "check"))?;
    let tool = add(tool, on_file(alloc, "show"))?;
    let tool = add(tool, conform(alloc))?;
    let tool = add(tool, on_files(alloc, "link"))?;
    add(tool, play(alloc))
}

/// The tool with one command more.
fn add<'a>(
    tool: Command<'a>,
    command: Result<Command<'a>, AllocError>,
) -> Result<Command<'a>, AllocError> {
    tool.subcommand(command?)
}

/// The command of this name, on one file.
fn on_file<'a>(alloc: Global, name: &'a str) -> Result<Command<'a>, AllocError> {
    Command::new(alloc, name).arg(Arg::new(alloc, "file").required(true))
}

/// The command of this name, on one file or more.
fn on_files<'a>(alloc: Global, name: &'a str) -> Result<Command<'a>, AllocError> {
    let files = Arg::new(alloc, "files")
        .required(true)
        .num_args(1..)
        .action(ArgAction::Append);
    Command::new(alloc, name).arg(files)
}

fn conform<'a>(alloc: Global) -> Result<Command<'a>, AllocError> {
    on_file(alloc, "conform")?
        .arg(option(alloc, "wit"))?
        .arg(option(alloc, "world"))
}

fn play<'a>(alloc: Global) -> Result<Command<'a>, AllocError> {
    on_files(alloc, "play")?.arg(option(alloc, "script"))
}

/// An option with a value, which is given once.
fn option<'a>(alloc: Global, name: &'a str) -> Arg<'a> {
    Arg::new(alloc, name).long(name).required(true)
}

fn value_of<'a>(found: &ArgMatches<'a>, id: &str) -> Result<&'a str, WordsFault> {
    found.get_str(id).ok_or(WordsFault::NoCommand)
}

fn files_of<'a>(alloc: Global, found: &ArgMatches<'a>) -> Result<Vec<&'a str>, WordsFault> {
    match found.get_strs("files") {
        Some(names) => match names.to_vec(alloc) {
            Ok(names) => Ok(names),
            Err(AllocError) => Err(WordsFault::Memory),
        },
        None => Err(WordsFault::NoCommand),
    }
}
