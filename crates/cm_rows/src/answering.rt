//! The families of a program of rows: files of rows, each of which holds what is asked and the
//! answer that is wanted.

use crate::asked::Asked;
use crate::fault::RowFault;
use crate::line::Line;
use std::alloc::Global;
use std::rt::Files;
use std::{fs, io};

/// What stands between the two halves of a row.
const MARK: &str = " => ";

/// What answers the rows of a family, in their order.
pub trait Driver: Drop {
    /// The driver of the first row of a family.
    fn new(alloc: Global) -> Self;

    /// Writes the answer to a row, whose words stand one space apart. Where the line keeps that
    /// something is wrong, what was written is let go.
    fn answer(&mut self, alloc: Global, words: &[&str], line: &mut Line);
}

/// How many rows a family has, and how many of them were answered as wanted.
#[derive(Clone, Copy)]
struct Tally {
    rows: u64,
    passed: u64,
}

impl Tally {
    fn add(&mut self, passes: bool) {
        self.rows = self.rows.saturating_add(1);
        self.passed = self.passed.saturating_add(u64::from(passes));
    }

    /// Prints how many rows of a family pass.
    fn print(&self, rt: &impl Print, family: &str) -> io::Result<()> {
        let Tally { rows, passed } = *self;
        if rows == passed {
            println!(rt; "{family}: {rows} rows pass")
        } else {
            println!(rt; "{family}: {passed} of {rows} rows pass")
        }
    }
}

/// Answers the rows of each of these families that is asked for, with a driver of its own. The rows
/// of a family are the lines `INPUT => WANTED` of the file `FAMILY.rows` in the folder where the
/// program runs, where a line that is empty or begins with `#` is none. Prints each row that is
/// answered in another way than wanted, with its line, and for each family how many of its rows
/// pass. Answers whether all do; the error is that of a file that cannot be read, or of what cannot
/// be printed.
pub fn answer_families<D: Driver, R: Files + Print + AllocGlobal>(
    rt: &R,
    families: &[&str],
    asked: &Asked,
) -> io::Result<bool> {
    let mut all_pass = true;
    for family in families {
        if asked.has(family) {
            let tally = answer_family::<D, R>(rt, family)?;
            tally.print(rt, family)?;
            all_pass = all_pass && tally.rows == tally.passed;
        }
    }
    Ok(all_pass)
}

fn answer_family<D: Driver, R: Files + Print + AllocGlobal>(
    rt: &R,
    family: &str,
) -> io::Result<Tally> {
    let alloc = rt.alloc();
    let name = format!(in alloc; "{family}.rows")?;
    let text = fs::read_to_string(rt, name.as_str())?;
    let mut driver = D::new(alloc);
    let mut tally = Tally { rows: 0, passed: 0 };
    for (place, line) in text.as_str().lines().enumerate() {
        if !line.is_empty() && !line.starts_with('#') {
            let number = place.saturating_add(1);
            tally.add(passes(rt, &mut driver, family, number, line)?);
        }
    }
    Ok(tally)
}

/// Whether a row is answered as wanted; where it is not, it is printed. A row that finds no memory
/// is answered once more: a refused call leaves all as it was, so the second answer is the wanted
/// one where one allocation alone is refused.
fn passes<D: Driver>(
    rt: &(impl Print + AllocGlobal),
    driver: &mut D,
    family: &str,
    number: usize,
    row: &str,
) -> io::Result<bool> {
    let Some((input, wanted)) = row.split_once(MARK) else {
        println!(rt; "{family}.rows:{number}: wanted `INPUT => WANTED`, got {row}")?;
        return Ok(false);
    };
    let answer = match answer_row(driver, rt.alloc(), input) {
        Err(RowFault::Memory) => answer_row(driver, rt.alloc(), input),
        answer => answer,
    };
    let answer = match &answer {
        Ok(answer) => answer.as_str(),
        Err(fault) => fault.text(),
    };
    if answer != wanted {
        println!(rt; "{family}.rows:{number}: wanted {wanted}, got {answer}")?;
    }
    Ok(answer == wanted)
}

fn answer_row<D: Driver>(driver: &mut D, alloc: Global, row: &str) -> Result<String, RowFault> {
    let words: Vec<&str> = row.split(' ').collect(alloc)?;
    let mut answer = Line::with_room(alloc)?;
    driver.answer(alloc, words.as_slice(), &mut answer);
    answer.done()
}
