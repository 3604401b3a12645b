//! The program on the machine that it runs on.

use cm_tool::{Disk, Fault, Usage, report, tool, words_of};
use std::alloc::Global;
use std::io;
use std::io::{BufWriter, Input, Write};
use std::rt::{Env, Files};

/// Runs the command of the program's words, which come after its name, on the files of the disk,
/// and answers its exit status.
pub fn start<R: Env + Files + Input + AllocGlobal, O: Write + Drop, E: Write>(
    rt: &R,
    out: O,
    err: &mut E,
) -> u8 {
    match run(rt, out, err) {
        Ok(status) => status,
        Err(error) => {
            let fault = fault_of(rt.alloc(), &error);
            report(err, &fault);
            fault.status()
        }
    }
}

fn run<R: Env + Files + Input + AllocGlobal, O: Write + Drop, E: Write>(
    rt: &R,
    out: O,
    err: &mut E,
) -> io::Result<u8> {
    let words = words_of(rt)?;
    run_words(rt, words.as_slice(), out, err)
}

/// Runs the command of these words.
fn run_words<R: Files + Input + AllocGlobal, O: Write + Drop, E: Write>(
    rt: &R,
    words: &[String],
    out: O,
    err: &mut E,
) -> io::Result<u8> {
    let mut out = BufWriter::new(rt.alloc(), out)?;
    Ok(tool(rt.alloc(), words, &mut Disk::new(rt), &mut out, err))
}

/// Words that are no text are no command.
fn fault_of(alloc: Global, error: &io::Error) -> Fault {
    if error.kind() == io::ErrorKind::OutOfMemory {
        Fault::Memory
    } else {
        Fault::usage(alloc, Usage::NoText)
    }
}
