//! A play, printed in one of several forms.

use crate::diagram::Diagram;
use crate::said_chart::SaidChart;
use crate::said_objects::SaidObjects;
use crate::telling::Telling;
use crate::told_events::ToldEvents;
use cm_hux_drive::files::{Ending, Linked, Stop, tell_bytes, told};
use cm_hux_drive::{HuxScript, Printer, Set, play_script};
use cm_hux_said::Watch;
use cm_hux_words::Habits;
use std::alloc::Global;
use std::io;
use std::io::Write;

/// What is printed of a play.
#[derive(Clone, Copy, Drop)]
pub(crate) enum Form {
    /// Its events.
    Events,
    /// What components say to one another.
    Values,
    /// A diagram of that, of at most so many messages.
    Chart(u64),
}

/// What the words want printed, and in which form.
#[derive(Clone, Copy, Drop)]
pub(crate) struct Wanted {
    pub(crate) form: Form,
    pub(crate) habits: Habits,
}

/// A script that is to be played on a set of what is linked.
#[derive(Drop)]
pub(crate) struct Play<'s, 'n, 'l, 'a> {
    pub(crate) alloc: Global,
    /// The words of the command line that name the files.
    pub(crate) names: Vec<String>,
    /// The names of the components.
    pub(crate) shown: &'s [&'n str],
    pub(crate) linked: &'l Linked<'a>,
    pub(crate) set: &'s mut Set,
    pub(crate) script: HuxScript,
    pub(crate) wanted: Wanted,
}

impl Play<'_, '_, '_, '_> {
    /// Plays the script, and prints what is wanted of it. A diagram is one text: it is not printed
    /// where only what is wrong is wanted.
    pub(crate) fn print<O: Write, E: Write>(
        self,
        out: &mut O,
        err: &mut E,
    ) -> Result<Ending, Stop> {
        let Wanted { form, habits } = self.wanted;
        match form {
            Form::Events => self.events(out, err),
            Form::Values => self.values(out, err),
            Form::Chart(messages) if habits.quiet => self.chart(messages, &mut io::sink(), err),
            Form::Chart(messages) if habits.json => self.chart_object(messages, out, err),
            Form::Chart(messages) => self.chart(messages, out, err),
        }
    }

    /// Plays the script for a printer.
    fn printed<P: Printer, E: Write>(self, printer: &mut P, err: &mut E) -> Result<Ending, Stop> {
        let Play {
            alloc,
            names,
            set,
            script,
            ..
        } = self;
        play_script(alloc, set, script, names, printer, err)
    }

    fn events<O: Write, E: Write>(self, out: &mut O, err: &mut E) -> Result<Ending, Stop> {
        let alloc = self.alloc;
        let habits = self.wanted.habits;
        self.printed(&mut ToldEvents { alloc, habits, out }, err)
    }

    fn values<O: Write, E: Write>(self, out: &mut O, err: &mut E) -> Result<Ending, Stop> {
        let said = SaidObjects {
            alloc: self.alloc,
            names: self.shown,
            habits: self.wanted.habits,
            out,
        };
        let watch = Watch::new(self.alloc, self.linked)?;
        let mut telling = Telling::new(self.alloc, watch, said);
        self.printed(&mut telling, err)
    }

    fn chart<O: Write, E: Write>(
        self,
        messages: u64,
        out: &mut O,
        err: &mut E,
    ) -> Result<Ending, Stop> {
        let diagram = Diagram::begin(out, self.shown, messages)?;
        let watch = Watch::new(self.alloc, self.linked)?;
        let mut telling = Telling::new(self.alloc, watch, SaidChart { diagram, out });
        let ending = self.printed(&mut telling, err)?;
        telling.into_teller().finish()?;
        Ok(ending)
    }

    /// Plays the script, and writes a diagram as an object.
    fn chart_object<O: Write, E: Write>(
        self,
        messages: u64,
        out: &mut O,
        err: &mut E,
    ) -> Result<Ending, Stop> {
        let alloc = self.alloc;
        let mut chart = Vec::new(alloc);
        let ending = self.chart(messages, &mut chart, err)?;
        told(tell_bytes(alloc, "mermaid", chart.as_slice(), out))?;
        Ok(ending)
    }
}
