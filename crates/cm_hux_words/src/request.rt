//! What the words of the command line ask for.

use crate::asked::{
    CallWords, ConformWords, DiffWords, LinkWords, LiveWords, PlayWords, PlugWords, ServeWords,
    StubWords, WitWords,
};
use crate::program::program;
use clap::error::ErrorKind;
use clap::{ArgMatches, Error};
use std::alloc::{AllocError, AllocFailed, Global};

/// A command, with its words.
#[derive(Drop)]
pub enum Request<'a> {
    /// `check FILE..`
    Check { files: Vec<&'a str> },
    /// `show FILE`
    Show { file: &'a str },
    /// `core FILE`
    Core { file: &'a str },
    /// `conform --wit W --world N [--features F,F,..] FILE`
    Conform(ConformWords<'a>),
    /// `wit W [--world N] [--features F,F,..]`
    Wit(WitWords<'a>),
    /// `link FILE.. [-o OUT [--export I]] [--open] [--mermaid]`
    Link(LinkWords<'a>),
    /// `unbundle FILE -o DIR`
    Unbundle { file: &'a str, folder: &'a str },
    /// `plug --plug PROVIDER.. SOCKET [-o OUT]`
    Plug(PlugWords<'a>),
    /// `play --script S FILE.. [--values] [--mermaid [--messages N]]`
    Play(PlayWords<'a>),
    /// `call [--script S] FILE.. CALL`
    Call(CallWords<'a>),
    /// `live FILE.. [--record SCRIPT] [--limit N] [--pages N,N,..] [--values]`
    Live(LiveWords<'a>),
    /// `stub FILE.. -o OUT`, `stub --caller FILE.. -o OUT`, or `stub --wit W --world N -o OUT`
    Stub(StubWords<'a>),
    /// `explain WHAT..`
    Explain { words: Vec<&'a str> },
    /// `diff A B [--world N [--world N]] [--features F,F,..]`
    Diff(DiffWords<'a>),
}

/// What a command prints, and in which form.
#[derive(Clone, Copy, Drop)]
pub struct Habits {
    /// As JSON, an object a line.
    pub json: bool,
    /// Only what is wrong.
    pub quiet: bool,
}

/// What words ask for.
#[derive(Drop)]
pub enum Answer<'a> {
    /// A command, and how it tells what it does.
    Run(Request<'a>, Habits),
    /// A text: help, or the version.
    Text(String),
}

/// Why words are not read.
#[derive(Drop)]
pub enum WordsFault {
    /// They are no command. The text says what is wrong, and what is expected.
    NoCommand(String),
    /// There was no memory.
    Memory,
}

impl From<AllocError> for WordsFault {
    fn from(_error: AllocError) -> WordsFault {
        WordsFault::Memory
    }
}

impl<T: Drop> From<AllocFailed<T>> for WordsFault {
    fn from(_error: AllocFailed<T>) -> WordsFault {
        WordsFault::Memory
    }
}

impl<'a> Answer<'a> {
    /// What the words ask for. The program's own name is not among them.
    ///
    /// `--help`, `-h` and `help COMMAND` ask for a text, and `--version` and `-V` too. Other words
    /// that are no command are refused with `NoCommand`; `Memory` comes where there is no memory.
    pub fn read(alloc: Global, words: &'a [String]) -> Result<Answer<'a>, WordsFault> {
        match program(alloc)?.try_get_matches_from(words) {
            Ok(matches) => Ok(Answer::Run(request_of(alloc, &matches)?, habits_of(&matches))),
            Err(error) => text_of(alloc, &error),
        }
    }
}

/// The text that stands for words which are no command.
fn text_of<'a>(alloc: Global, error: &Error) -> Result<Answer<'a>, WordsFault> {
    if error.kind() == ErrorKind::OutOfMemory {
        return Err(WordsFault::Memory);
    }
    let text = format!(in alloc; "{error}")?;
    if error.use_stderr() {
        Err(WordsFault::NoCommand(text))
    } else {
        Ok(Answer::Text(text))
    }
}

fn habits_of(matches: &ArgMatches<'_>) -> Habits {
    match matches.subcommand() {
        Some((_, found)) => habits_in(found),
        None => habits_in(matches),
    }
}

fn habits_in(found: &ArgMatches<'_>) -> Habits {
    Habits {
        json: found.get_flag("json"),
        quiet: found.get_flag("quiet"),
    }
}

fn request_of<'a>(alloc: Global, matches: &ArgMatches<'a>) -> Result<Request<'a>, WordsFault> {
    match matches.subcommand() {
        Some(("check", found)) => check(alloc, found),
        Some(("show", found)) => show(alloc, found),
        Some(("core", found)) => core(alloc, found),
        Some(("conform", found)) => conform(alloc, found),
        Some(("wit", found)) => wit(alloc, found),
        Some((name, found)) => request_of_many(alloc, name, found),
        None => Err(no_command(alloc)),
    }
}

/// What the words behind the name of a command ask for, which links files or compares them, or
/// plays something.
fn request_of_many<'a>(
    alloc: Global,
    name: &str,
    found: &ArgMatches<'a>,
) -> Result<Request<'a>, WordsFault> {
    match name {
        "link" => link(alloc, found),
        "unbundle" => unbundle(alloc, found),
        "plug" => plug(alloc, found),
        "stub" => stub(alloc, found),
        "diff" => diff(alloc, found),
        _ => request_of_play(alloc, name, found),
    }
}

/// What the words behind the name of a command ask for, which plays something, or explains it.
fn request_of_play<'a>(
    alloc: Global,
    name: &str,
    found: &ArgMatches<'a>,
) -> Result<Request<'a>, WordsFault> {
    match name {
        "play" => play(alloc, found),
        "call" => call(alloc, found),
        "live" => live(alloc, found),
        "explain" => explain(alloc, found),
        _ => Err(no_command(alloc)),
    }
}

fn check<'a>(alloc: Global, found: &ArgMatches<'a>) -> Result<Request<'a>, WordsFault> {
    let files = values_of(alloc, found, "files")?;
    Ok(Request::Check { files })
}

fn show<'a>(alloc: Global, found: &ArgMatches<'a>) -> Result<Request<'a>, WordsFault> {
    let file = value_of(alloc, found, "file")?;
    Ok(Request::Show { file })
}

fn core<'a>(alloc: Global, found: &ArgMatches<'a>) -> Result<Request<'a>, WordsFault> {
    let file = value_of(alloc, found, "file")?;
    Ok(Request::Core { file })
}

fn conform<'a>(alloc: Global, found: &ArgMatches<'a>) -> Result<Request<'a>, WordsFault> {
    let wit = value_of(alloc, found, "wit")?;
    let world = value_of(alloc, found, "world")?;
    let file = value_of(alloc, found, "file")?;
    Ok(Request::Conform(ConformWords {
        wit,
        world,
        features: found.get_str("features"),
        file,
    }))
}

fn wit<'a>(alloc: Global, found: &ArgMatches<'a>) -> Result<Request<'a>, WordsFault> {
    let wit = value_of(alloc, found, "wit")?;
    Ok(Request::Wit(WitWords {
        wit,
        world: found.get_str("world"),
        features: found.get_str("features"),
    }))
}

fn link<'a>(alloc: Global, found: &ArgMatches<'a>) -> Result<Request<'a>, WordsFault> {
    let files = values_of(alloc, found, "files")?;
    Ok(Request::Link(LinkWords {
        files,
        out: found.get_str("out"),
        export: found.get_str("export"),
        open: found.get_flag("open"),
        mermaid: found.get_flag("mermaid"),
        serve: serve_words(alloc, found)?,
    }))
}

fn unbundle<'a>(alloc: Global, found: &ArgMatches<'a>) -> Result<Request<'a>, WordsFault> {
    let file = value_of(alloc, found, "file")?;
    let folder = value_of(alloc, found, "out")?;
    Ok(Request::Unbundle { file, folder })
}

fn plug<'a>(alloc: Global, found: &ArgMatches<'a>) -> Result<Request<'a>, WordsFault> {
    let socket = value_of(alloc, found, "file")?;
    let mut files = values_of(alloc, found, "plug")?;
    files.push(socket)?;
    let out = found.get_str("out");
    let words = all_of(alloc, found, "serve")?;
    let serve = ServeWords {
        words,
        nearest: true,
    };
    Ok(Request::Plug(PlugWords { files, out, serve }))
}

fn play<'a>(alloc: Global, found: &ArgMatches<'a>) -> Result<Request<'a>, WordsFault> {
    let script = value_of(alloc, found, "script")?;
    let files = values_of(alloc, found, "files")?;
    Ok(Request::Play(PlayWords {
        script,
        files,
        values: found.get_flag("values"),
        mermaid: found.get_flag("mermaid"),
        messages: found.get_str("messages"),
        serve: serve_words(alloc, found)?,
    }))
}

fn call<'a>(alloc: Global, found: &ArgMatches<'a>) -> Result<Request<'a>, WordsFault> {
    let call = value_of(alloc, found, "call")?;
    let files = values_of(alloc, found, "files")?;
    let script = found.get_str("script");
    Ok(Request::Call(CallWords {
        script,
        files,
        call,
        serve: serve_words(alloc, found)?,
    }))
}

fn live<'a>(alloc: Global, found: &ArgMatches<'a>) -> Result<Request<'a>, WordsFault> {
    let files = values_of(alloc, found, "files")?;
    Ok(Request::Live(LiveWords {
        files,
        record: found.get_str("record"),
        limit: found.get_str("limit"),
        pages: found.get_str("pages"),
        values: found.get_flag("values"),
        serve: serve_words(alloc, found)?,
    }))
}

fn stub<'a>(alloc: Global, found: &ArgMatches<'a>) -> Result<Request<'a>, WordsFault> {
    let out = value_of(alloc, found, "out")?;
    let files = all_of(alloc, found, "files")?;
    let caller = found.get_flag("caller");
    Ok(Request::Stub(StubWords {
        files,
        caller,
        wit: found.get_str("wit"),
        world: found.get_str("world"),
        features: found.get_str("features"),
        out,
        serve: serve_words(alloc, found)?,
    }))
}

fn explain<'a>(alloc: Global, found: &ArgMatches<'a>) -> Result<Request<'a>, WordsFault> {
    let words = values_of(alloc, found, "what")?;
    Ok(Request::Explain { words })
}

fn diff<'a>(alloc: Global, found: &ArgMatches<'a>) -> Result<Request<'a>, WordsFault> {
    let old = value_of(alloc, found, "old")?;
    let new = value_of(alloc, found, "new")?;
    let worlds = all_of(alloc, found, "world")?;
    Ok(Request::Diff(DiffWords {
        old,
        new,
        worlds,
        features: found.get_str("features"),
    }))
}

/// What is said of the links of files.
fn serve_words<'a>(alloc: Global, found: &ArgMatches<'a>) -> Result<ServeWords<'a>, WordsFault> {
    let words = all_of(alloc, found, "serve")?;
    let nearest = found.get_flag("nearest");
    Ok(ServeWords { words, nearest })
}

/// The values of an option, which may be none.
fn all_of<'a>(alloc: Global, found: &ArgMatches<'a>, id: &str) -> Result<Vec<&'a str>, WordsFault> {
    match found.get_strs(id) {
        Some(values) => Ok(values.to_vec(alloc)?),
        None => Ok(Vec::new(alloc)),
    }
}

fn no_command(alloc: Global) -> WordsFault {
    WordsFault::NoCommand(String::new(alloc))
}

fn value_of<'a>(alloc: Global, found: &ArgMatches<'a>, id: &str) -> Result<&'a str, WordsFault> {
    match found.get_str(id) {
        Some(value) => Ok(value),
        None => Err(no_command(alloc)),
    }
}

fn values_of<'a>(
    alloc: Global,
    found: &ArgMatches<'a>,
    id: &str,
) -> Result<Vec<&'a str>, WordsFault> {
    match found.get_strs(id) {
        Some(values) => Ok(values.to_vec(alloc)?),
        None => Err(no_command(alloc)),
    }
}
