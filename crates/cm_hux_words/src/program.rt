//! The program, as `clap` reads its words.

use crate::commands::{ABOUT_ALL, COMMANDS, Described};
use clap::{Arg, ArgAction, Command};
use std::alloc::{AllocError, Global};

/// The version of Huxarte.
pub const VERSION: &str = "0.1.0";

/// The program with all its commands.
pub(crate) fn program<'a>(alloc: Global) -> Result<Command<'a>, AllocError> {
    let mut hux = Command::new(alloc, "hux")
        .about("Checks, shows, links and plays WebAssembly components")
        .version(VERSION)
        .after_help(ABOUT_ALL)
        .no_binary_name(true)
        .subcommand_required(true)
        .bin_name("hux")?
        .arg(json(alloc))?
        .arg(quiet(alloc))?;
    for described in &COMMANDS {
        hux = hux.subcommand(command(alloc, described)?)?;
    }
    Ok(hux)
}

/// A command with its words and options.
fn command<'a>(alloc: Global, described: &Described) -> Result<Command<'a>, AllocError> {
    let mut command = Command::new(alloc, described.name)
        .about(described.about)
        .after_help(described.example);
    for word in described.words {
        command = command.arg(word.arg(alloc)?)?;
    }
    Ok(command)
}

fn json<'a>(alloc: Global) -> Arg<'a> {
    Arg::new(alloc, "json")
        .long("json")
        .action(ArgAction::SetTrue)
        .help("Prints a JSON object a line")
        .display_order(900)
        .global(true)
}

fn quiet<'a>(alloc: Global) -> Arg<'a> {
    Arg::new(alloc, "quiet")
        .long("quiet")
        .action(ArgAction::SetTrue)
        .short('q')
        .help("Prints nothing but what is wrong")
        .display_order(901)
        .global(true)
}
