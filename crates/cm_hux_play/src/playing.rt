//! Playing a script on the files of a command.

use crate::named::{component_names, file_names};
use crate::told_play::{Form, Play, Wanted};
use cm_hux_drive::files::{Ending, Fault, Files, Linked, LoadedFiles, load_files};
use cm_hux_drive::{HuxScript, Names, load_script, make_set};
use cm_hux_words::{Habits, PlayWords};
use cm_tool_script::read_u64;
use std::alloc::Global;
use std::io::Write;

/// The most messages of a diagram where no option says more.
const MESSAGES: u64 = 100;

/// Links the components of files, and plays the script of another, whose checks are made: prints
/// its events, or what components say to one another, as lines, as JSON objects in lines, or as a
/// diagram, which is one object then. Where only what is wrong is wanted, it prints the traps.
pub fn run_play<F: Files, O: Write, E: Write>(
    alloc: Global,
    words: &PlayWords<'_>,
    habits: Habits,
    files: &mut F,
    out: &mut O,
    err: &mut E,
) -> Result<Ending, Fault> {
    let form = form_of(alloc, words)?;
    let (mut loaded, unread) = load_files(alloc, files, &words.files);
    loaded.serve_by(alloc, &words.serve)?;
    let linked = loaded.link(alloc, unread)?;
    let script = script_of(alloc, words.script, &linked, files)?;
    let wanted = Wanted { form, habits };
    Ok(play_linked(alloc, wanted, script, &loaded, &linked, out, err)?)
}

/// Plays a script on a set of what is linked.
fn play_linked<O: Write, E: Write>(
    alloc: Global,
    wanted: Wanted,
    script: HuxScript,
    loaded: &LoadedFiles<'_>,
    linked: &Linked<'_>,
    out: &mut O,
    err: &mut E,
) -> Result<Ending, Fault> {
    let mut set = make_set(alloc, linked, &script.script.pages)?;
    let shown = component_names(alloc, loaded)?;
    let play = Play {
        alloc,
        names: file_names(alloc, loaded)?,
        shown: &shown,
        linked,
        set: &mut set,
        script,
        wanted,
    };
    let ended = play.print(out, err);
    match ended {
        Ok(ending) => Ok(ending),
        Err(stop) => Err(stop.fault()),
    }
}

/// What the words want printed.
fn form_of(alloc: Global, words: &PlayWords<'_>) -> Result<Form, Fault> {
    let messages = messages_of(alloc, words.messages)?;
    if words.values {
        Ok(Form::Values)
    } else if words.mermaid {
        Ok(Form::Chart(messages))
    } else {
        Ok(Form::Events)
    }
}

/// The most messages of a diagram.
fn messages_of(alloc: Global, word: Option<&str>) -> Result<u64, Fault> {
    let Some(word) = word else {
        return Ok(MESSAGES);
    };
    match read_u64(word) {
        Some(messages) => Ok(messages),
        None => Err(Fault::Usage(format!(in alloc; "error: --messages {word}: no number")?)),
    }
}

/// The script of a file, for what is linked.
fn script_of<F: Files>(
    alloc: Global,
    name: &str,
    linked: &Linked<'_>,
    files: &mut F,
) -> Result<HuxScript, Fault> {
    let names = Names::of(alloc, linked.components())?;
    load_script(alloc, files, name, &names)
}
