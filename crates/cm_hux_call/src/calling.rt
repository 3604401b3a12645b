//! Calling a function that the last of several components exports.

use crate::call_text::CallText;
use crate::called::Called;
use crate::callers::{caller_of, link_behind, names_of, set_with_caller};
use crate::drives::Drives;
use crate::passing::{Answered, Passed, Results};
use crate::resumed::Resumed;
use crate::scripts::script_of;
use cm_hux_drive::files::{Ending, Fault, Files, Stop, load_files};
use cm_hux_drive::{HuxScript, Set};
use cm_hux_words::CallWords;
use cm_types::Func;
use std::alloc::Global;
use std::io::Write;

/// Links the components of files, and behind them a caller that imports what the last one exports,
/// plays the drives of a script, and then a call, of which it prints the result, as a line, or as a
/// JSON object in one.
///
/// A call that traps ends as `Trapped`, with a line on standard error. The script, if there is one,
/// is one for the files alone; without it each guest stops at once.
pub fn run_call<F: Files, O: Write, E: Write>(
    alloc: Global,
    words: &CallWords<'_>,
    json: bool,
    files: &mut F,
    out: &mut O,
    err: &mut E,
) -> Result<Ending, Fault> {
    let call = CallText::read(alloc, words.call)?;
    let (mut loaded, unread) = load_files(alloc, files, &words.files);
    loaded.serve_by(alloc, &words.serve)?;
    let stub = caller_of(alloc, &loaded, unread)?;
    let linked = link_behind(alloc, &loaded, &stub)?;
    let Some((seat, components)) = linked.components().split_last() else {
        return Err(Fault::Memory);
    };
    let called = Called::of(alloc, &call, seat)?;
    let script = script_of(alloc, words.script, components, files)?;
    let mut set = set_with_caller(alloc, &linked, &script.script.pages)?;
    let call = Call {
        alloc,
        json,
        names: names_of(alloc, &loaded)?,
        set: &mut set,
        called,
    };
    let ending = call.play(script, out, err)?;
    if words.script.is_none() && ending == Ending::Trapped {
        // Where that fails, there is nobody left to tell.
        let _ = writeln!(err, "{}", STILL);
    }
    Ok(ending)
}

/// What is said where a guest trapped and there was no script.
const STILL: &str =
    "without a script each guest stops at once: --script S plays moves, `hux live` core code";

/// A call that is to be played: the names of the components, the set, and what is passed.
#[derive(Drop)]
struct Call<'f> {
    alloc: Global,
    /// Whether what is printed is JSON objects in lines.
    json: bool,
    names: Vec<String>,
    set: &'f mut Set,
    called: Called<'f>,
}

impl Call<'_> {
    /// Plays the drives of a script for the files, and then the call.
    fn play<O: Write, E: Write>(
        self,
        script: HuxScript,
        out: &mut O,
        err: &mut E,
    ) -> Result<Ending, Fault> {
        let Call {
            alloc,
            json,
            names,
            set,
            called,
        } = self;
        let Called { func, passed } = called;
        let Passed { guest, results } = passed;
        let drives = Drives::new(alloc, script, guest)?;
        let mut resumed = Resumed::new(alloc, drives.caller(), json, out);
        let ended = drives.play(set, names, &mut resumed, err);
        match ended {
            Ok(driven) if driven.is_ended => {
                tell(alloc, set, func, &mut resumed, &results)?;
                Ok(driven.ending)
            }
            Ok(driven) => Ok(driven.ending),
            Err(stop) => Err(stop.fault()),
        }
    }
}

/// Prints the result of the call.
fn tell<O: Write>(
    alloc: Global,
    set: &Set,
    func: &Func,
    resumed: &mut Resumed<'_, O>,
    results: &Results,
) -> Result<(), Fault> {
    let memory = set.memory(resumed.root()).unwrap_or(&[]);
    match results.answered(alloc, func, memory, resumed.values())? {
        Answered::Nothing => end(resumed.write_result(None)),
        Answered::Value(text) => end(resumed.write_result(Some(text.as_str()))),
        Answered::Fault(text) => Err(Fault::Refused(text)),
    }
}

/// How the call ends where what was printed is written so.
fn end(written: Result<(), Stop>) -> Result<(), Fault> {
    match written {
        Ok(()) => Ok(()),
        Err(stop) => Err(stop.fault()),
    }
}
