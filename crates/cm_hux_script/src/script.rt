//! Scripts of `hux`.

use crate::check::{Check, Moment, Wanted};
use crate::fault::{HuxLineFault, HuxRefusal};
use crate::functions::CoreNames;
use crate::statement::{HuxStatement, read_statement};
use cm_machine_model::Move;
use cm_tool_script::{LineFault, Script, Statement};
use std::alloc::{AllocError, Global};
use std::collections::VecDeque;

/// A script, and what is to be seen of its play.
#[derive(Drop)]
pub struct HuxScript {
    pub script: Script,
    /// The checks, in the order of their lines. Of each guest, and of the drives, that is the order
    /// of their moments.
    pub checks: Vec<Check>,
}

impl HuxScript {
    /// The script that a text is, for the components whose core functions have these names.
    ///
    /// Lines are as those of `Script::parse`, which reads a script without checks and names as the
    /// same one. Beside its statements there are `expect EVENT`, `memory I AT HEX` and `print I AT
    /// SIZE`, for the moment of the statement before them that is none of these: of a move, when it
    /// is made and its event told; of `guest I`, when its guest has made the moves that it has so
    /// far; of `begin I`, when the drive is over; of `pages`, before the first drive, where nothing
    /// is there to `expect`. In `call F V ..` a name may stand for F, as in an event. The first
    /// line at fault is answered; nothing is said of a line after it.
    pub fn parse<N: CoreNames>(
        alloc: Global,
        text: &str,
        names: &N,
    ) -> Result<HuxScript, HuxRefusal> {
        let mut reader = Reader::new(alloc, names.count()).map_err(|_| HuxRefusal {
            line: 1,
            fault: HuxLineFault::Line(LineFault::Memory),
        })?;
        for (index, line) in text.split('\n').enumerate() {
            let number = index.saturating_add(1);
            if let Err(fault) = reader.read_line(alloc, number, line, names) {
                return Err(HuxRefusal {
                    line: number,
                    fault,
                });
            }
        }
        reader.finish()
    }
}

/// What has been read of a script.
#[derive(Drop)]
struct Reader {
    pages: Option<Vec<u32>>,
    moves: Vec<VecDeque<Move>>,
    guest: Option<usize>,
    begins: Vec<u32>,
    moment: Moment,
    checks: Vec<Check>,
}

impl Reader {
    fn new(alloc: Global, components: usize) -> Result<Reader, AllocError> {
        let mut moves = Vec::with_capacity(alloc, components)?;
        for _ in 0..components {
            moves.push(VecDeque::new(alloc))?;
        }
        Ok(Reader {
            pages: None,
            moves,
            guest: None,
            begins: Vec::new(alloc),
            moment: Moment::Start,
            checks: Vec::new(alloc),
        })
    }

    fn read_line<N: CoreNames>(
        &mut self,
        alloc: Global,
        number: usize,
        line: &str,
        names: &N,
    ) -> Result<(), HuxLineFault> {
        if line.is_empty() {
            return Ok(());
        }
        match read_statement(alloc, line, self.guest, names)? {
            HuxStatement::Plain(statement) => self.add(statement),
            HuxStatement::Check(wanted) => self.add_check(number, wanted),
        }
    }

    fn add(&mut self, statement: Statement) -> Result<(), HuxLineFault> {
        if self.pages.is_none() {
            return self.open(statement);
        }
        match statement {
            Statement::Pages(_) => Err(HuxLineFault::Line(LineFault::PagesTwice)),
            Statement::Guest(index) => self.name_guest(index as usize),
            Statement::Move(made) => self.add_move(made),
            Statement::Begin(root) => {
                self.moment = Moment::Drive(self.begins.len());
                self.begins.push(root)?;
                Ok(())
            }
        }
    }

    /// Takes the first statement.
    fn open(&mut self, statement: Statement) -> Result<(), HuxLineFault> {
        match statement {
            Statement::Pages(pages) => {
                self.pages = Some(pages);
                Ok(())
            }
            Statement::Guest(_) | Statement::Move(_) | Statement::Begin(_) => {
                Err(HuxLineFault::Line(LineFault::PagesFirst))
            }
        }
    }

    fn name_guest(&mut self, component: usize) -> Result<(), HuxLineFault> {
        match self.moves.get(component) {
            Some(moves) => {
                self.guest = Some(component);
                self.moment = Moment::Guest {
                    component,
                    moves: moves.len(),
                };
                Ok(())
            }
            None => Err(HuxLineFault::Line(LineFault::NoSuchComponent)),
        }
    }

    fn add_move(&mut self, made: Move) -> Result<(), HuxLineFault> {
        let Some(component) = self.guest else {
            return Err(HuxLineFault::Line(LineFault::NoGuest));
        };
        match self.moves.get_mut(component) {
            Some(moves) => {
                moves.push_back(made)?;
                self.moment = Moment::Guest {
                    component,
                    moves: moves.len(),
                };
                Ok(())
            }
            None => Err(HuxLineFault::Line(LineFault::NoGuest)),
        }
    }

    fn add_check(&mut self, line: usize, wanted: Wanted) -> Result<(), HuxLineFault> {
        if self.pages.is_none() {
            return Err(HuxLineFault::Line(LineFault::PagesFirst));
        }
        let moment = self.moment;
        if matches!(&wanted, Wanted::Event(_)) && moment == Moment::Start {
            return Err(HuxLineFault::NoEvent);
        }
        self.checks.push(Check {
            line,
            moment,
            wanted,
        })?;
        Ok(())
    }

    fn finish(self) -> Result<HuxScript, HuxRefusal> {
        let Reader {
            pages,
            moves,
            begins,
            checks,
            guest: _,
            moment: _,
        } = self;
        match pages {
            Some(pages) => Ok(HuxScript {
                script: Script {
                    pages,
                    moves,
                    begins,
                },
                checks,
            }),
            None => Err(HuxRefusal {
                line: 1,
                fault: HuxLineFault::Line(LineFault::PagesFirst),
            }),
        }
    }
}
