//! Answers the rows on calls that no command shows.
#![tactic(auto)]

use cm_rows::{Asked, answer_families};
use rows_calls::CallRows;
use rows_files::FileRows;
use rows_hosts::HostRows;
use rows_sets::{SetRows, answer_moves};
use rows_sweeps::SweepRows;
use rows_types::TypeRows;
use rows_wit::WitRows;
use std::io;
use std::process::ExitCode;

fn main(rt: HostRuntime) -> io::Result<ExitCode> {
    let asked = Asked::read(&rt)?;
    let types = answer_families::<TypeRows, _>(&rt, &rows_types::FAMILIES, &asked)?;
    let calls = answer_families::<CallRows, _>(&rt, &rows_calls::FAMILIES, &asked)?;
    let files = answer_families::<FileRows, _>(&rt, &rows_files::FAMILIES, &asked)?;
    let texts = answer_families::<WitRows, _>(&rt, &rows_wit::FAMILIES, &asked)?;
    let hosts = answer_families::<HostRows, _>(&rt, &rows_hosts::FAMILIES, &asked)?;
    let sets = answer_families::<SetRows, _>(&rt, &rows_sets::FAMILIES, &asked)?;
    let sweeps = answer_families::<SweepRows, _>(&rt, &rows_sweeps::FAMILIES, &asked)?;
    let moves = !asked.has("moves") || answer_moves(&rt)?;
    Ok(if types && calls && files && texts && hosts && sets && sweeps && moves {
        ExitCode::SUCCESS
    } else {
        ExitCode::FAILURE
    })
}
