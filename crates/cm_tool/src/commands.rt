//! The commands.

use crate::playing::play;
use cm_machine::Set;
use cm_tool_commands::{
    Asked, Fault, Files, LIMIT, Linked, Outcome, Request, SetSize, Usage, WordsFault, load_files,
    load_script, report, run_check, run_conform, run_link, run_show,
};
use std::alloc::Global;
use std::io::Write;

/// Runs the command that the words ask for, and answers its exit status: 0 where it is done, 1
/// where something was refused, 2 where the words are no command or ask for help, 3 where a drive
/// trapped, 4 where a file cannot be read or standard output not be written.
///
/// The words are those after the program's name. Files are read and decoded in their order, up to
/// the first that cannot be, and those before it are validated in their order; `link` and `play`
/// then link them, and `play` reads its script after that, as `conform` does its text. The first
/// fault, in the order of the files, ends the command, with one line on standard error that begins
/// with `error: `; of `play`, also each drive that is refused or reaches its limit has such a line,
/// and the later ones run.
pub fn tool<F: Files, O: Write, E: Write>(
    alloc: Global,
    words: &[String],
    files: &mut F,
    out: &mut O,
    err: &mut E,
) -> u8 {
    match run(alloc, words, files, out, err) {
        Ok(outcome) => outcome.status(),
        Err(fault) => {
            report(err, &fault);
            fault.status()
        }
    }
}

fn run<F: Files, O: Write, E: Write>(
    alloc: Global,
    words: &[String],
    files: &mut F,
    out: &mut O,
    err: &mut E,
) -> Result<Outcome, Fault> {
    match read_words(alloc, words)? {
        Request::Check { file } => run_check(alloc, file, files, out),
        Request::Show { file } => run_show(alloc, file, files, out),
        Request::Conform { wit, world, file } => {
            run_conform(alloc, Asked { wit, world, file }, files, out)
        }
        Request::Link { files: names } => run_link(alloc, names.as_slice(), files, out),
        Request::Play {
            script,
            files: names,
        } => run_play(alloc, script, names.as_slice(), files, out, err),
    }
}

fn read_words<'a>(alloc: Global, words: &'a [String]) -> Result<Request<'a>, Fault> {
    match Request::read(alloc, words) {
        Ok(request) => Ok(request),
        Err(WordsFault::NoCommand) => Err(Fault::usage(alloc, Usage::Words(words))),
        Err(WordsFault::Memory) => Err(Fault::Memory),
    }
}

fn run_play<F: Files, O: Write, E: Write>(
    alloc: Global,
    script: &str,
    names: &[&str],
    files: &mut F,
    out: &mut O,
    err: &mut E,
) -> Result<Outcome, Fault> {
    let loaded = load_files(alloc, files, names)?;
    let linked = loaded.link(alloc)?;
    play_linked(alloc, script, &linked, files, out, err)
}

/// Plays the script of a file on components that are linked.
pub fn play_linked<F: Files, O: Write, E: Write>(
    alloc: Global,
    name: &str,
    linked: &Linked<'_>,
    files: &mut F,
    out: &mut O,
    err: &mut E,
) -> Result<Outcome, Fault> {
    let script = load_script(alloc, files, name, linked.components().len())?;
    let mut set = make_set(alloc, linked, script.pages.as_slice())?;
    play(alloc, &mut set, script, LIMIT, out, err)
}

fn make_set(alloc: Global, linked: &Linked<'_>, pages: &[u32]) -> Result<Set, Fault> {
    let size = SetSize::new(linked.components().len(), pages);
    Set::new(alloc, linked, pages).map_err(|misuse| Fault::Set { misuse, size })
}
