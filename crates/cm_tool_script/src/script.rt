//! Scripts: what the guests of a set do, and which of them begin.

use crate::statement::{LineFault, Statement};
use cm_machine_model::Move;
use std::alloc::{AllocError, Global};
use std::collections::VecDeque;

/// A script for a set of components, which count from 0.
#[derive(Drop)]
pub struct Script {
    /// The pages of memory that each component begins with.
    pub pages: Vec<u32>,
    /// The moves of each component's guest, in order.
    pub moves: Vec<VecDeque<Move>>,
    /// The root of each drive, in order.
    pub begins: Vec<u32>,
}

/// The first line of a script that is at fault, from 1, and why.
#[derive(Clone, Copy)]
pub struct ScriptRefusal {
    pub line: usize,
    pub fault: LineFault,
}

impl Script {
    /// The script that a text is, for so many components.
    ///
    /// Its lines end with LF, which the last one need not. Empty lines are skipped, and each other
    /// one is a statement, of which the first and no other is `pages`. A text with no statement is
    /// refused in line 1. The first line at fault is answered; nothing is said of a line after it.
    pub fn parse(alloc: Global, text: &str, components: usize) -> Result<Script, ScriptRefusal> {
        let mut reader = ScriptReader::new(alloc, components).map_err(|_| ScriptRefusal {
            line: 1,
            fault: LineFault::Memory,
        })?;
        for (index, line) in text.split('\n').enumerate() {
            if let Err(fault) = reader.read_line(alloc, line) {
                return Err(ScriptRefusal {
                    line: index.saturating_add(1),
                    fault,
                });
            }
        }
        reader.finish()
    }
}

/// What has been read of a script.
#[derive(Drop)]
struct ScriptReader {
    pages: Option<Vec<u32>>,
    moves: Vec<VecDeque<Move>>,
    guest: Option<usize>,
    begins: Vec<u32>,
}

impl ScriptReader {
    fn new(alloc: Global, components: usize) -> Result<ScriptReader, AllocError> {
        let mut moves = Vec::with_capacity(alloc, components)?;
        for _ in 0..components {
            moves.push(VecDeque::new(alloc))?;
        }
        Ok(ScriptReader {
            pages: None,
            moves,
            guest: None,
            begins: Vec::new(alloc),
        })
    }

    fn read_line(&mut self, alloc: Global, line: &str) -> Result<(), LineFault> {
        if line.is_empty() {
            return Ok(());
        }
        let statement = Statement::parse(alloc, line)?;
        if self.pages.is_some() {
            self.add(statement)
        } else {
            self.open(statement)
        }
    }

    /// Takes the first statement.
    fn open(&mut self, statement: Statement) -> Result<(), LineFault> {
        match statement {
            Statement::Pages(pages) => {
                self.pages = Some(pages);
                Ok(())
            }
            Statement::Guest(_) | Statement::Move(_) | Statement::Begin(_) => {
                Err(LineFault::PagesFirst)
            }
        }
    }

    /// Takes a later statement.
    fn add(&mut self, statement: Statement) -> Result<(), LineFault> {
        match statement {
            Statement::Pages(_) => Err(LineFault::PagesTwice),
            Statement::Guest(index) => self.name_guest(index as usize),
            Statement::Move(made) => self.add_move(made),
            Statement::Begin(root) => {
                self.begins.push(root)?;
                Ok(())
            }
        }
    }

    fn name_guest(&mut self, index: usize) -> Result<(), LineFault> {
        if index < self.moves.len() {
            self.guest = Some(index);
            Ok(())
        } else {
            Err(LineFault::NoSuchComponent)
        }
    }

    fn add_move(&mut self, made: Move) -> Result<(), LineFault> {
        let guest = self.guest.ok_or(LineFault::NoGuest)?;
        match self.moves.get_mut(guest) {
            Some(moves) => {
                moves.push_back(made)?;
                Ok(())
            }
            None => Err(LineFault::NoGuest),
        }
    }

    fn finish(self) -> Result<Script, ScriptRefusal> {
        let ScriptReader {
            pages,
            moves,
            begins,
            guest: _,
        } = self;
        match pages {
            Some(pages) => Ok(Script {
                pages,
                moves,
                begins,
            }),
            None => Err(ScriptRefusal {
                line: 1,
                fault: LineFault::PagesFirst,
            }),
        }
    }
}
