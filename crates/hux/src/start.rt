//! The program on the machine that it runs on.

use crate::painter::Painter;
use crate::wanted::is_colored;
use cm_hux::{Disk, DiskStreams, Ending, Fault, report, run_hux, words_of};
use std::alloc::Global;
use std::io;
use std::io::{BufWriter, Input, IsTerminal, Write};
use std::rt::{Env, Files};

/// What is said where a word of the command line is no text.
const NO_TEXT: &str = "error: a word of the command line is not UTF-8

Usage: hux <COMMAND>

For more information, try '--help'.
";

/// Runs the command of the program's words, which come after its name, on the files of the disk,
/// and answers how it ends. Words that matter are colored where they go to a terminal.
pub fn start<
    R: Env + Files + Input + AllocGlobal + Clone + Drop,
    O: Write + IsTerminal + Drop,
    E: Write + IsTerminal,
>(rt: &R, out: O, err: &mut E) -> Ending {
    let is_colored = is_colored(rt, err.is_terminal());
    let mut err = Painter::new(rt.alloc(), err, is_colored);
    match run(rt, out, &mut err) {
        Ok(ending) => ending,
        Err(error) => {
            let fault = fault_of(rt.alloc(), &error);
            report(&mut err, &fault);
            fault.ending()
        }
    }
}

fn run<R: Env + Files + Input + AllocGlobal + Clone + Drop, O: Write + IsTerminal + Drop, E: Write>(
    rt: &R,
    out: O,
    err: &mut E,
) -> io::Result<Ending> {
    let words = words_of(rt)?;
    let is_colored = is_colored(rt, out.is_terminal());
    let out = BufWriter::new(rt.alloc(), out)?;
    let mut out = Painter::new(rt.alloc(), out, is_colored);
    Ok(run_hux(
        rt.alloc(),
        words.as_slice(),
        &mut Disk::new(rt),
        &mut DiskStreams::new(rt),
        &mut out,
        err,
    ))
}

/// Words that are no text are no command.
fn fault_of(alloc: Global, error: &io::Error) -> Fault {
    if error.kind() == io::ErrorKind::OutOfMemory {
        return Fault::Memory;
    }
    match String::from_str(alloc, NO_TEXT) {
        Ok(text) => Fault::Usage(text),
        Err(_) => Fault::Memory,
    }
}
