//! The commands.

use crate::bundling::{run_link, run_plug, run_unbundle};
use crate::conforming::{conform, signature_of};
use crate::differing::run_diff;
use crate::explaining::run_explain;
use crate::objects::{checked_object, tell_fit};
use crate::stubbing::run_stub;
use crate::wit_files::WitFiles;
use cm_hux_call::run_call;
use cm_hux_json::{core_objects, core_text, signature_objects};
use cm_hux_play::files::{
    Asked, Ending, Escaped, Fault, Files, Functions, Loaded, LoadedFiles, Object, Streams,
    ToolFault, check_file, load_files, read_bytes, report, signature_in, tell, tell_bytes,
    tell_fault,
};
use cm_hux_play::{run_live, run_play};
use cm_hux_show::{ShowFault, show_world};
use cm_hux_words::{Answer, ConformWords, Habits, Request, WitWords, WordsFault};
use cm_types_arena::Signature;
use std::alloc::{AllocError, Global};
use std::io;
use std::io::Write;

/// Runs the command that the words ask for, and answers how it ends.
///
/// The words are those after the program's name. `check` reads and checks each file, whatever comes
/// of the others, and prints a line for each; it ends as the worst of them. Of the other commands
/// the first fault, in the order of the files, ends the command, with one line on standard error
/// that begins with `error: `; of `play`, also each drive that is refused or reaches its limit has
/// such a line, and the later ones run. Words that ask for help or the version have a text printed,
/// and words that are no command one on standard error.
pub fn run_hux<F: Files, S: Streams, O: Write, E: Write>(
    alloc: Global,
    words: &[String],
    files: &mut F,
    streams: &mut S,
    out: &mut O,
    err: &mut E,
) -> Ending {
    let answer = Answer::read(alloc, words);
    let objects = wants_objects(&answer, words);
    match run_answer(alloc, answer, objects, files, streams, out, err) {
        Ok(ending) => ending,
        Err(fault) => {
            report(err, &fault);
            if objects {
                // Where that fails too, the line on standard error stands.
                let _ = tell_fault(alloc, &fault, out);
            }
            fault.ending()
        }
    }
}

/// Whether faults are printed as objects too: the lines of `live` have a form of their own.
fn wants_objects(answer: &Result<Answer<'_>, WordsFault>, words: &[String]) -> bool {
    match answer {
        Ok(Answer::Run(Request::Live(_), _)) => false,
        Ok(Answer::Run(_, habits)) => habits.json,
        _ => words.iter().any(|word| word.as_str() == "--json"),
    }
}

fn run_answer<F: Files, S: Streams, O: Write, E: Write>(
    alloc: Global,
    answer: Result<Answer<'_>, WordsFault>,
    objects: bool,
    files: &mut F,
    streams: &mut S,
    out: &mut O,
    err: &mut E,
) -> Result<Ending, Fault> {
    match answer {
        Ok(Answer::Run(request, habits)) => run(alloc, &request, habits, files, streams, out, err),
        Ok(Answer::Text(text)) => print_text(alloc, text.as_str(), objects, out),
        Err(WordsFault::NoCommand(text)) => Err(Fault::Usage(text)),
        Err(WordsFault::Memory) => Err(Fault::Memory),
    }
}

/// Prints help or the version, as an object where objects are wanted.
fn print_text<O: Write>(
    alloc: Global,
    text: &str,
    objects: bool,
    out: &mut O,
) -> Result<Ending, Fault> {
    if !objects {
        return print(out, text);
    }
    tell_bytes(alloc, "text", text.as_bytes(), out)?;
    Ok(Ending::Done)
}

/// Runs a command. Where only what is wrong is wanted, what the command prints is dropped, but for
/// the files that `check` refuses, the traps of `play`, what `live` answers, and what `diff` finds
/// broken.
fn run<F: Files, S: Streams, O: Write, E: Write>(
    alloc: Global,
    request: &Request<'_>,
    habits: Habits,
    files: &mut F,
    streams: &mut S,
    out: &mut O,
    err: &mut E,
) -> Result<Ending, Fault> {
    let prints = matches!(
        request,
        Request::Check { .. } | Request::Play(_) | Request::Live(_) | Request::Diff(_)
    );
    if habits.quiet && !prints {
        return run_command(alloc, request, habits, files, streams, &mut io::sink(), err);
    }
    run_command(alloc, request, habits, files, streams, out, err)
}

fn run_command<F: Files, S: Streams, O: Write, E: Write>(
    alloc: Global,
    request: &Request<'_>,
    habits: Habits,
    files: &mut F,
    streams: &mut S,
    out: &mut O,
    err: &mut E,
) -> Result<Ending, Fault> {
    match request {
        Request::Check { files: names } => run_check(alloc, names, habits, files, out),
        Request::Show { file } => run_show(alloc, file, habits, files, out),
        Request::Core { file } => run_core(alloc, file, habits, files, out),
        Request::Conform(asked) => run_conform(alloc, *asked, habits, files, streams, out),
        Request::Wit(asked) => run_wit(alloc, *asked, habits, files, streams, out),
        Request::Link(link) => run_link(alloc, link, habits, files, streams, out),
        Request::Unbundle { file, folder } => {
            run_unbundle(alloc, file, folder, habits, files, streams, out)
        }
        Request::Plug(plug) => run_plug(alloc, plug, habits, files, streams, out),
        Request::Play(play) => run_play(alloc, play, habits, files, out, err),
        Request::Call(call) => run_call(alloc, call, habits.json, files, out, err),
        Request::Live(live) => run_live(alloc, live, habits, files, streams, out, err),
        Request::Explain { words } => run_explain(alloc, words, habits, out),
        Request::Diff(diff) => run_diff(alloc, diff, habits, files, streams, out),
        Request::Stub(stub) => run_stub(alloc, stub, habits, files, streams, out),
    }
}

fn print<O: Write>(out: &mut O, text: &str) -> Result<Ending, Fault> {
    out.write_all(text.as_bytes())?;
    out.flush()?;
    Ok(Ending::Done)
}

/// Prints of each file, in order, that it is a valid component, or a bundle of such ones, or what
/// is wrong with it.
fn run_check<F: Files, O: Write>(
    alloc: Global,
    names: &[&str],
    habits: Habits,
    files: &mut F,
    out: &mut O,
) -> Result<Ending, Fault> {
    let mut worst = Ending::Done;
    for name in names {
        let checked = check_file(alloc, files, name);
        worst = worst.max(ending_of(&checked));
        if habits.quiet && checked.is_ok() {
            continue;
        }
        if habits.json {
            tell(checked_object(alloc, name, &checked)?, out)?;
        } else {
            write_checked(name, &checked, out)?;
        }
    }
    out.flush()?;
    Ok(worst)
}

/// How a command ends by what it found of a file.
fn ending_of(checked: &Result<(), Fault>) -> Ending {
    match checked {
        Ok(()) => Ending::Done,
        Err(fault) => fault.ending(),
    }
}

/// Prints the line of a file.
fn write_checked<O: Write>(name: &str, checked: &Result<(), Fault>, out: &mut O) -> io::Result<()> {
    match checked {
        Ok(()) => writeln!(out, "{}: ok", Escaped(name)),
        Err(Fault::Memory) => writeln!(out, "{}: {}", Escaped(name), Fault::Memory),
        Err(fault) => writeln!(out, "{fault}"),
    }
}

/// Says that the component of a file fits a world.
fn run_conform<F: Files, S: Streams, O: Write>(
    alloc: Global,
    words: ConformWords<'_>,
    habits: Habits,
    files: &mut F,
    streams: &mut S,
    out: &mut O,
) -> Result<Ending, Fault> {
    let asked = Asked {
        wit: words.wit,
        world: words.world,
        file: words.file,
    };
    conform(alloc, asked, words.features, files, streams)?;
    if !habits.json {
        return print(out, "ok\n");
    }
    tell_fit(alloc, asked, out)?;
    Ok(Ending::Done)
}

/// Prints what a world of a text or a project imports and exports, or the names of the worlds of
/// its own package, a line each.
fn run_wit<F: Files, S: Streams, O: Write>(
    alloc: Global,
    words: WitWords<'_>,
    habits: Habits,
    files: &mut F,
    streams: &mut S,
    out: &mut O,
) -> Result<Ending, Fault> {
    let (wit, file) = (words.wit, words.wit);
    let texts = WitFiles::read(alloc, files, streams, wit)?;
    let Some(world) = words.world else {
        return tell_worlds(
            alloc,
            &texts.worlds(alloc, wit, words.features)?,
            habits,
            out,
        );
    };
    let signature = texts.signature(alloc, Asked { wit, world, file }, words.features)?;
    tell_signature(alloc, wit, &signature, habits, out)
}

/// Prints names of worlds, a line each.
fn tell_worlds<O: Write>(
    alloc: Global,
    worlds: &[String],
    habits: Habits,
    out: &mut O,
) -> Result<Ending, Fault> {
    for world in worlds {
        if habits.json {
            tell(Object::new(alloc).with("world", world.as_str())?, out)?;
        } else {
            writeln!(out, "{world}")?;
        }
    }
    out.flush()?;
    Ok(Ending::Done)
}

/// Prints what the component of a file imports and exports.
fn run_show<F: Files, O: Write>(
    alloc: Global,
    name: &str,
    habits: Habits,
    files: &mut F,
    out: &mut O,
) -> Result<Ending, Fault> {
    let signature = signature_in(alloc, name, read_bytes(alloc, files, name)?)?;
    tell_signature(alloc, name, &signature, habits, out)
}

/// Prints a signature, which is that of a file of this name.
fn tell_signature<O: Write>(
    alloc: Global,
    name: &str,
    signature: &Signature,
    habits: Habits,
    out: &mut O,
) -> Result<Ending, Fault> {
    let text = shown(alloc, name, show_world(alloc, signature))?;
    if !habits.json {
        return print(out, text.as_str());
    }
    tell_shown(alloc, name, signature, text.as_str(), out)
}

/// Prints a signature as objects, before them the text that shows it.
fn tell_shown<O: Write>(
    alloc: Global,
    name: &str,
    signature: &Signature,
    text: &str,
    out: &mut O,
) -> Result<Ending, Fault> {
    let lines = shown(alloc, name, signature_objects(alloc, signature))?;
    tell_bytes(alloc, "wit", text.as_bytes(), out)?;
    print(out, lines.as_str())
}

/// Prints what a script has to know of the core functions of the component of a file, or of each
/// part of a bundle, in order, behind a line with its number.
fn run_core<F: Files, O: Write>(
    alloc: Global,
    name: &str,
    habits: Habits,
    files: &mut F,
    out: &mut O,
) -> Result<Ending, Fault> {
    let (loaded, unread) = load_files(alloc, files, &[name]);
    let _checked = loaded.check(alloc, unread)?;
    let text = core_text_of(alloc, &loaded, habits)?;
    print(out, text.as_str())
}

fn core_text_of(alloc: Global, loaded: &LoadedFiles<'_>, habits: Habits) -> Result<String, Fault> {
    let mut text = String::new(alloc);
    for (number, file) in loaded.files().iter().enumerate() {
        if loaded.bundle().is_some() {
            text.push_str(part_line(alloc, number, habits)?.as_str())?;
        }
        text.push_str(core_lines(alloc, file, habits)?.as_str())?;
    }
    Ok(text)
}

/// The line before those of a part of a bundle.
fn part_line(alloc: Global, number: usize, habits: Habits) -> Result<String, AllocError> {
    if habits.json {
        return format!(in alloc; "{{\"component\":{number}}}\n");
    }
    format!(in alloc; "component {number}\n")
}

/// A line, or an object, for each core function of a file.
fn core_lines(alloc: Global, loaded: &Loaded<'_>, habits: Habits) -> Result<String, Fault> {
    let signature = signature_of(alloc, loaded)?;
    let checked = loaded.check(alloc)?;
    let functions = Functions::of(alloc, &checked)?;
    let text = if habits.json {
        core_objects(alloc, &functions, &signature)
    } else {
        core_text(alloc, &functions, &signature)
    };
    shown(alloc, loaded.name, text)
}

/// A text of a file, or why it is not shown.
fn shown(alloc: Global, name: &str, text: Result<String, ShowFault>) -> Result<String, Fault> {
    match text {
        Ok(text) => Ok(text),
        Err(fault) => Err(Fault::Tool(ToolFault::show(alloc, name, fault))),
    }
}
