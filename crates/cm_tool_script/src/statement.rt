//! The statements of scripts, one a line.

ghost use Rattle.std.specs.Prelude.{◌≡◌, ◌∷◌, codes, map, IfOk, IfErr};
ghost use Rattle.std.specs.List.{AllZip};
ghost use Rattle.cm_tool_script.specs.LineFaults.{line_fault_of};
ghost use Rattle.cm_tool_script.specs.Statements.{SpellsStatement, words_of, AreReadAs, AreRefused};
ghost use Rattle.cm_tool_script.specs.Statements.{IsRead, IsNumber, IsValue, AreOne};
ghost use Rattle.cm_tool_script.specs.declared.statement.Statement as spelled;
ghost use Rattle.cm_tool_script.specs.declared.statement.LineFault.TheVariants as fault;

use crate::hex_bytes::{ScriptFault, script_bytes};
use crate::numbers::{read_u32, read_u64};
use cm_machine_model::Move;
use cm_types::CoreValue;
use std::alloc::{AllocError, AllocFailed, Global};
use std::fmt;

/// Why a line of a script is refused.
#[derive(Clone, Copy)]
pub enum LineFault {
    /// The line is no statement.
    NotAStatement,
    /// The bytes of a `write` are not spelled.
    BadHex,
    /// The first statement is not `pages`.
    PagesFirst,
    /// A statement after the first is `pages`.
    PagesTwice,
    /// A move stands before the first `guest`.
    NoGuest,
    /// A `guest` names no component.
    NoSuchComponent,
    /// There was no memory for the statement.
    Memory,
}

impl LineFault {
    fn text(self) -> &'static str {
        match self {
            LineFault::NotAStatement => "no statement",
            LineFault::BadHex => "two hex digits a byte, or - for no bytes",
            LineFault::PagesFirst => "the first statement is pages",
            LineFault::PagesTwice => "pages stands once",
            LineFault::NoGuest => "a move before the first guest",
            LineFault::NoSuchComponent => "no such component",
            LineFault::Memory => "no memory",
        }
    }
}

impl fmt::Display for LineFault {
    fn fmt<W: fmt::Write>(&self, f: &mut fmt::Formatter<W>) -> fmt::Result {
        f.write_str(self.text())
    }
}

impl From<AllocError> for LineFault {
    ghost from_gives = { λ _ f. f ≡ fault.Memory };

    fn from(_error: AllocError) -> LineFault {
        LineFault::Memory
    }
}

impl<T: Drop> From<AllocFailed<T>> for LineFault {
    ghost from_gives = { λ _ f. f ≡ fault.Memory };

    fn from(_error: AllocFailed<T>) -> LineFault {
        LineFault::Memory
    }
}

impl From<ScriptFault> for LineFault {
    ghost from_gives = { λ e f. f ≡ line_fault_of e };

    fn from(fault: ScriptFault) -> LineFault {
        match fault {
            ScriptFault::BadHex => LineFault::BadHex,
            ScriptFault::Memory => LineFault::Memory,
        }
    }
}

/// One statement of a script. Components and functions count from 0.
#[derive(Drop)]
pub enum Statement {
    /// The pages of memory that each component begins with.
    Pages(Vec<u32>),
    /// The moves that follow are those of this component.
    Guest(u32),
    /// The next move of the component that is named last.
    Move(Move),
    /// A drive whose root is this component.
    Begin(u32),
}

impl Statement {
    /// The statement that a line spells; its words stand one space apart.
    ///
    /// `BadHex` comes exactly for a line `write AT HEX` whose `HEX` spells no bytes, and
    /// `NotAStatement` for each other line that spells no statement. `Memory` comes where there is
    /// no memory for the words or for the statement; of any line this may be found first.
    pub fn parse(alloc: Global, line: &str) -> Result<Statement, LineFault>
        ensures spelled { IfOk result (λ s. SpellsStatement line.now s) }
        ensures complete { (s : spelled.Statement)
            → SpellsStatement line.now s
            → IfErr result (λ e. e ≡ LineFault.Memory) }
        ensures refused { IfErr result (λ e. AreRefused (words_of line.now) e) }
    {
        let words: Vec<&str> = line.split(' ').collect(alloc)?;
        read_words(alloc, words.as_slice())
    }
}

/// The statement that the words of a line are.
fn read_words(alloc: Global, words: &[&str]) -> Result<Statement, LineFault>
    ensures { AreReadAs (map (λ w. w.now) words.now) result }
{
    let (first, rest) = words.split_first().ok_or(LineFault::NotAStatement)?;
    match *first {
        "pages" => read_pages(alloc, rest),
        "guest" => read_guest(rest),
        "begin" => read_begin(rest),
        "write" => read_write(alloc, rest),
        "grow" => read_grow(rest),
        "call" => read_call(alloc, rest),
        "return" => read_return(alloc, rest),
        "unreachable" => read_unreachable(rest),
        _ => Err(LineFault::NotAStatement),
    }
}

/// The statement `pages` with these words behind it.
fn read_pages(alloc: Global, counts: &[&str]) -> Result<Statement, LineFault>
    ensures { AreReadAs (codes "pages" ∷ map (λ w. w.now) counts.now) result }
{
    Ok(Statement::Pages(read_numbers(alloc, counts)?))
}

/// The statement `guest` with these words behind it.
fn read_guest(words: &[&str]) -> Result<Statement, LineFault>
    ensures { AreReadAs (codes "guest" ∷ map (λ w. w.now) words.now) result }
{
    Ok(Statement::Guest(read_one(words)?))
}

/// The statement `begin` with these words behind it.
fn read_begin(words: &[&str]) -> Result<Statement, LineFault>
    ensures { AreReadAs (codes "begin" ∷ map (λ w. w.now) words.now) result }
{
    Ok(Statement::Begin(read_one(words)?))
}

/// The move `write` with these words behind it.
fn read_write(alloc: Global, words: &[&str]) -> Result<Statement, LineFault>
    ensures { AreReadAs (codes "write" ∷ map (λ w. w.now) words.now) result }
{
    let [at, hex] = words else {
        return Err(LineFault::NotAStatement);
    };
    let at = read_number(at)?;
    let bytes = script_bytes(alloc, hex)?;
    Ok(Statement::Move(Move::Write { at, bytes }))
}

/// The move `grow` with these words behind it.
fn read_grow(words: &[&str]) -> Result<Statement, LineFault>
    ensures { AreReadAs (codes "grow" ∷ map (λ w. w.now) words.now) result }
{
    let pages = read_one(words)?;
    Ok(Statement::Move(Move::Grow { pages }))
}

/// The move `call` with these words behind it.
fn read_call(alloc: Global, words: &[&str]) -> Result<Statement, LineFault>
    ensures { AreReadAs (codes "call" ∷ map (λ w. w.now) words.now) result }
{
    let (func, args) = words.split_first().ok_or(LineFault::NotAStatement)?;
    let func = read_number(func)?;
    let args = read_values(alloc, args)?;
    Ok(Statement::Move(Move::Call { func, args }))
}

/// The move `return` with these words behind it.
fn read_return(alloc: Global, words: &[&str]) -> Result<Statement, LineFault>
    ensures { AreReadAs (codes "return" ∷ map (λ w. w.now) words.now) result }
{
    let values = read_values(alloc, words)?;
    Ok(Statement::Move(Move::Return { values }))
}

/// The move `unreachable` with these words behind it.
fn read_unreachable(words: &[&str]) -> Result<Statement, LineFault>
    ensures { AreReadAs (codes "unreachable" ∷ map (λ w. w.now) words.now) result }
{
    if words.is_empty() {
        Ok(Statement::Move(Move::Unreachable))
    } else {
        Err(LineFault::NotAStatement)
    }
}

/// The number that is the only word.
fn read_one(words: &[&str]) -> Result<u32, LineFault>
    ensures { IsRead (AreOne (map (λ w. w.now) words.now)) result }
{
    match words {
        [word] => read_number(word),
        _ => Err(LineFault::NotAStatement),
    }
}

/// The number that a word is, at most 4,294,967,295.
fn read_number(word: &str) -> Result<u32, LineFault>
    ensures { IsRead (IsNumber word.now) result }
{
    read_u32(word).ok_or(LineFault::NotAStatement)
}

/// A number for each word.
fn read_numbers(alloc: Global, words: &[&str]) -> Result<Vec<u32>, LineFault>
    ensures { IsRead
        (λ numbers. AllZip IsNumber (map (λ w. w.now) words.now) numbers.items)
        result }
{
    let mut numbers = Vec::with_capacity(alloc, words.len())?;
    for word in words {
        numbers.push(read_number(word)?)?;
    }
    Ok(numbers)
}

/// A core value: `i32:` or `i64:`, and then its number.
fn read_value(word: &str) -> Result<CoreValue, LineFault>
    ensures { IsRead (IsValue word.now) result }
{
    if let Some(number) = word.strip_prefix("i32:") {
        let number = read_u32(number).ok_or(LineFault::NotAStatement)?;
        Ok(CoreValue::I32(number))
    } else if let Some(number) = word.strip_prefix("i64:") {
        let number = read_u64(number).ok_or(LineFault::NotAStatement)?;
        Ok(CoreValue::I64(number))
    } else {
        Err(LineFault::NotAStatement)
    }
}

/// A core value for each word.
fn read_values(alloc: Global, words: &[&str]) -> Result<Vec<CoreValue>, LineFault>
    ensures { IsRead (λ values. AllZip IsValue (map (λ w. w.now) words.now) values.items) result }
{
    let mut values = Vec::with_capacity(alloc, words.len())?;
    for word in words {
        values.push(read_value(word)?)?;
    }
    Ok(values)
}
