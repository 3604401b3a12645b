//! `hux`: checks, shows, links and plays WebAssembly components, as tools write them.
//!
//! Words that matter are colored where lines go to a terminal.
#![tactic(auto)]

mod painter;
mod start;
mod wanted;

use start::start;
use std::process::ExitCode;

fn main(rt: HostRuntime) -> ExitCode {
    ExitCode::from(start(&rt, rt.stdout(), &mut rt.stderr()).status())
}
