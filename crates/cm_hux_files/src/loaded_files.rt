//! The files of a command, bundles among them, and the set that they are.

use crate::choosing::choosing_text;
use crate::fault::Fault;
use crate::fronts::stub_of;
use crate::groups::{Group, add_places, fault_inside, group_of, is_seen};
use crate::loading::{Loaded, kept, load_bytes, load_part, not_made, of_file, read_bytes};
use crate::part_words::part_words;
use crate::serve_words::{FileName, refuse_words};
use crate::served::Served;
use crate::serving::served_by;
use crate::taking::{Arguments, arguments_of, bundle_in, is_bundle, part_of, read_bundle};
use cm_binary_model::Component;
use cm_bundle::{Bundle, PartName, part_names};
use cm_hux_words::ServeWords;
use cm_match::link_by;
use cm_match_model::{Choices, LinkReason};
use cm_tool_commands::{
    Checked, Fault as ToolFault, Files, LinkFault, Linked, MAX_COMPONENTS, checked_of, signature,
};
use cm_tool_help_types::link_help;
use cm_types_arena::Signature;
use std::alloc::{AllocError, Global};

/// What some files stand for, in order: those before the first that cannot be read. For a bundle
/// its parts stand.
#[derive(Drop)]
pub struct LoadedFiles<'a> {
    loaded: Vec<Loaded<'a>>,
    /// How many components there are.
    count: usize,
    /// The bundle whose parts they all are, by its name and its bytes; none where there are other
    /// files.
    bundle: Option<(&'a str, Vec<u8>)>,
    /// The number of the part whose exports it has; none where it has none.
    exporter: Option<usize>,
    /// The bundles among other files, in order.
    groups: Vec<Group<'a>>,
    /// Which exports serve their imports.
    serve: ServeWords<'a>,
}

/// Reads and checks the file of this name: a component has to be valid, and a bundle to be that of
/// its parts, each valid, as its arguments link them.
pub fn check_file<F: Files>(alloc: Global, files: &mut F, name: &str) -> Result<(), Fault> {
    let bytes = read_bytes(alloc, files, name)?;
    if is_bundle(alloc, &bytes)? {
        return check_bundle(alloc, name, bytes);
    }
    let loaded = load_bytes(alloc, name, bytes)?;
    not_made(loaded.check(alloc))
}

fn check_bundle(alloc: Global, name: &str, bytes: Vec<u8>) -> Result<(), Fault> {
    match LoadedFiles::of_bundle(alloc, name, bytes) {
        Ok(loaded) => match loaded.inside(alloc) {
            Ok(_) => Ok(()),
            Err(fault) => Err(fault_inside(alloc, name, fault)),
        },
        Err(fault) => Err(fault_inside(alloc, name, fault)),
    }
}

/// These files, which are read in order, up to the first that cannot be, with its fault, where
/// there is one. Where there are more than a set may have, one more than that is read, and the
/// others are not. For a bundle its parts stand, as `name/logger` or `name/1`; among other files it
/// is linked by itself before, and its own fault comes where it is not the bundle of its parts.
pub fn load_files<'a, F: Files>(
    alloc: Global,
    files: &mut F,
    names: &[&'a str],
) -> (LoadedFiles<'a>, Option<Fault>) {
    let mut loaded = LoadedFiles::none(alloc, names.len());
    let read = match names {
        [name] => loaded.load_alone(alloc, files, name),
        _ => loaded.load_each(alloc, files, names),
    };
    (loaded, read.err())
}

impl<'a> LoadedFiles<'a> {
    /// No file yet, of so many.
    fn none(alloc: Global, count: usize) -> LoadedFiles<'a> {
        LoadedFiles {
            loaded: Vec::new(alloc),
            count,
            bundle: None,
            exporter: None,
            groups: Vec::new(alloc),
            serve: ServeWords {
                words: Vec::new(alloc),
                nearest: false,
            },
        }
    }

    /// The parts of the bundle of this name, whose bytes these are.
    pub(crate) fn of_bundle(
        alloc: Global,
        name: &'a str,
        bytes: Vec<u8>,
    ) -> Result<LoadedFiles<'a>, Fault> {
        let mut loaded = LoadedFiles::none(alloc, 0);
        match loaded.load_parts(alloc, name, &bytes) {
            Ok(_) => {
                loaded.bundle = Some((name, bytes));
                Ok(loaded)
            }
            Err(fault) => Err(fault),
        }
    }

    fn load_each<F: Files>(
        &mut self,
        alloc: Global,
        files: &mut F,
        names: &[&'a str],
    ) -> Result<(), Fault> {
        for name in names {
            if self.loaded.len() > MAX_COMPONENTS {
                break;
            }
            self.load_next(alloc, files, name)?;
        }
        Ok(())
    }

    /// Loads a file behind those that are loaded, or the parts of a bundle.
    fn load_next<F: Files>(
        &mut self,
        alloc: Global,
        files: &mut F,
        name: &'a str,
    ) -> Result<(), Fault> {
        let bytes = read_bytes(alloc, files, name)?;
        if is_bundle(alloc, &bytes)? {
            return self.load_bundle(alloc, name, bytes);
        }
        self.loaded.push(load_bytes(alloc, name, bytes)?)?;
        Ok(())
    }

    /// Loads the parts of a bundle, which is linked by itself before.
    fn load_bundle(&mut self, alloc: Global, name: &'a str, bytes: Vec<u8>) -> Result<(), Fault> {
        match LoadedFiles::of_bundle(alloc, name, bytes) {
            Ok(alone) => match alone.inside(alloc) {
                Ok(inside) => Ok(self.add_parts(alone, inside)?),
                Err(fault) => Err(fault_inside(alloc, name, fault)),
            },
            Err(fault) => Err(fault_inside(alloc, name, fault)),
        }
    }

    /// How the parts of the bundle are linked that these are: so they have to link, behind a
    /// component that exports what it imports, where it is open.
    pub(crate) fn inside(&self, alloc: Global) -> Result<Arguments, Fault> {
        let components = (&*self).check(alloc, None)?;
        let Some((name, bytes)) = &self.bundle else {
            return Err(Fault::Memory);
        };
        let bundle = read_bundle(alloc, name, bytes)?;
        let arguments = self.arguments(alloc, name, &bundle, &components)?;
        if bundle.front.is_empty() {
            let served = arguments.served(alloc)?;
            not_made(self.link_served(alloc, components, &served))?;
        } else {
            let stub = stub_of(alloc, name, &bundle.front)?;
            self.link_inside(alloc, &stub, components, &arguments)?;
        }
        Ok(arguments)
    }

    /// Adds the parts of a bundle, which are linked so.
    fn add_parts(&mut self, alone: LoadedFiles<'a>, inside: Arguments) -> Result<(), AllocError> {
        let LoadedFiles { loaded, bundle, .. } = alone;
        let first = self.loaded.len();
        self.count = self.count.saturating_add(loaded.len()).saturating_sub(1);
        for part in loaded {
            self.loaded.push(part)?;
        }
        if let Some((name, bytes)) = bundle {
            self.groups.push(Group {
                name,
                bytes,
                first,
                inside,
            })?;
        }
        Ok(())
    }

    fn load_alone<F: Files>(
        &mut self,
        alloc: Global,
        files: &mut F,
        name: &'a str,
    ) -> Result<(), Fault> {
        let bytes = read_bytes(alloc, files, name)?;
        if self.load_parts(alloc, name, &bytes)? {
            self.bundle = Some((name, bytes));
        } else {
            self.loaded.push(load_bytes(alloc, name, bytes)?)?;
        }
        Ok(())
    }

    /// Loads the parts of a bundle of this name, and answers whether these bytes are one. Of more
    /// parts than a set may have one more than that is loaded.
    fn load_parts(&mut self, alloc: Global, name: &'a str, bytes: &[u8]) -> Result<bool, Fault> {
        let Some(bundle) = bundle_in(alloc, bytes)? else {
            return Ok(false);
        };
        self.count = bundle.parts.len();
        if let Some(supply) = bundle.exports.first() {
            self.exporter = part_of(&bundle, supply.export);
        }
        let words = part_words(alloc, name, &bundle)?;
        for (part, word) in bundle.parts.iter().zip(words) {
            let file = part.file.to_vec(alloc)?;
            self.loaded.push(load_part(alloc, name, word, file)?)?;
        }
        Ok(true)
    }

    /// Has the files linked as these words say.
    pub fn serve_by(&mut self, alloc: Global, words: &ServeWords<'a>) -> Result<(), AllocError> {
        self.serve = ServeWords {
            words: words.words.to_vec(alloc)?,
            nearest: words.nearest,
        };
        Ok(())
    }

    /// The words that say how the files are linked.
    pub(crate) fn serve_words(&self) -> &ServeWords<'a> {
        &self.serve
    }

    /// The files, in order.
    pub fn files(&self) -> &[Loaded<'a>] {
        &self.loaded
    }

    /// The bundle whose files they are, by its name and its bytes; none where they are files of
    /// their own.
    pub fn bundle(&self) -> Option<(&'a str, &[u8])> {
        match &self.bundle {
            Some((name, bytes)) => Some((name, bytes.as_slice())),
            None => None,
        }
    }

    /// The bundles among other files, in order.
    pub fn groups(&self) -> &[Group<'a>] {
        &self.groups
    }

    /// The number of the component whose exports the last file has.
    pub fn exporter(&self) -> usize {
        let last = self.loaded.len().saturating_sub(1);
        match (self.exporter, group_of(&self.groups, last)) {
            (Some(exporter), _) => exporter,
            (None, Some(group)) => group.exporter(),
            (None, None) => last,
        }
    }

    /// The bytes of the files, in order.
    pub fn bytes(&self, alloc: Global) -> Result<Vec<&[u8]>, AllocError> {
        let mut bytes = Vec::with_capacity(alloc, self.loaded.len())?;
        for file in &self.loaded {
            bytes.push(file.bytes.as_slice())?;
        }
        Ok(bytes)
    }

    /// What the parts of a bundle of these files are called: as their components are, or as the
    /// bundle whose parts they all are has it.
    pub fn part_names(&self, alloc: Global) -> Result<Vec<PartName<'_>>, Fault> {
        match &self.bundle {
            Some((name, bytes)) => Ok(part_names(alloc, &read_bundle(alloc, name, bytes)?)?),
            None => Ok(self.called(alloc)?),
        }
    }

    /// What the components are called, by number.
    fn called(&self, alloc: Global) -> Result<Vec<PartName<'_>>, AllocError> {
        let mut names = Vec::with_capacity(alloc, self.loaded.len())?;
        let mut part: u32 = 0;
        for file in &self.loaded {
            let name = file.called();
            names.push(PartName { part, name })?;
            part = part.saturating_add(1);
        }
        Ok(names)
    }

    /// The components of the files, in order.
    pub fn into_components(self, alloc: Global) -> Result<Vec<Component>, AllocError> {
        let mut components = Vec::with_capacity(alloc, self.loaded.len())?;
        for file in self.loaded {
            let shimmed = file.shimmed;
            components.push(shimmed.component)?;
        }
        Ok(components)
    }

    /// The components, checked in order. The fault is the first in the order of the files, of which
    /// `unread` is that of the last.
    pub fn check<'b>(
        &'b self,
        alloc: Global,
        unread: Option<Fault>,
    ) -> Result<Vec<Checked<'b>>, Fault> {
        let mut components = Vec::with_capacity(alloc, self.loaded.len())?;
        for file in &self.loaded {
            components.push(file.check(alloc)?)?;
        }
        match unread {
            Some(fault) => Err(fault),
            None => Ok(components),
        }
    }

    /// The linked set of the components, which borrows them: checked in order, and then linked.
    pub fn link<'b>(&'b self, alloc: Global, unread: Option<Fault>) -> Result<Linked<'b>, Fault> {
        self.link_checked(alloc, self.check(alloc, unread)?)
    }

    /// What serves the imports of the components: by a bundle, or by words. `Refused` comes where
    /// there is a word for the files of a bundle.
    pub fn served(&self, alloc: Global, components: &[Checked<'_>]) -> Result<Served, Fault> {
        let Some((name, bytes)) = &self.bundle else {
            let names = self.names(alloc)?;
            let served = served_by(alloc, &names, components, &self.groups, &self.serve)?;
            return Ok(served);
        };
        refuse_words(alloc, &self.serve.words)?;
        let bundle = read_bundle(alloc, name, bytes)?;
        let arguments = self.arguments(alloc, name, &bundle, components)?;
        Ok(arguments.served(alloc)?)
    }

    /// How the parts of the bundle of this name are linked.
    fn arguments(
        &self,
        alloc: Global,
        name: &'a str,
        bundle: &Bundle<'_>,
        components: &[Checked<'_>],
    ) -> Result<Arguments, Fault> {
        let loaded = self.loaded.as_slice();
        Ok(arguments_of(alloc, name, bundle, loaded, components)?)
    }

    /// What is chosen of the links of the components, as `served` has it.
    pub fn choices(&self, alloc: Global, components: &[Checked<'_>]) -> Result<Choices, Fault> {
        let served = self.served(alloc, components)?;
        Ok(self.choices_by(alloc, &served)?)
    }

    /// The choices by which these exports serve the imports of the components.
    fn choices_by(&self, alloc: Global, served: &Served) -> Result<Choices, AllocError> {
        let mut choices = Choices::none(alloc);
        choices.links = served.links(alloc)?;
        add_places(&mut choices, &self.groups, self.loaded.len())?;
        Ok(choices)
    }

    /// What names the components, in order. A bundle among other files names the part whose exports
    /// it has.
    fn names(&self, alloc: Global) -> Result<Vec<FileName<'_>>, AllocError> {
        let mut names = Vec::with_capacity(alloc, self.loaded.len())?;
        for (number, file) in self.loaded.iter().enumerate() {
            names.push(FileName {
                file: self.file_of(number, file.name),
                part: file.part.as_deref(),
            })?;
        }
        Ok(names)
    }

    fn file_of<'n>(&'n self, number: usize, name: &'n str) -> &'n str {
        match group_of(&self.groups, number) {
            None => name,
            Some(group) if group.exporter() == number => group.name,
            Some(_) => "",
        }
    }

    /// The linked set of the components, as words say, or as the bundle links them.
    pub fn link_checked<'b>(
        &'b self,
        alloc: Global,
        components: Vec<Checked<'b>>,
    ) -> Result<Linked<'b>, Fault> {
        let served = self.served(alloc, &components)?;
        self.link_served(alloc, components, &served)
    }

    /// The linked set of the components, whose imports these exports serve.
    pub fn link_served<'b>(
        &self,
        alloc: Global,
        components: Vec<Checked<'b>>,
        served: &Served,
    ) -> Result<Linked<'b>, Fault> {
        let choices = self.choices_by(alloc, served)?;
        match link_by(alloc, components, choices) {
            Ok(linked) => Ok(linked),
            Err(fault) => Err(self.not_linked(alloc, fault)),
        }
    }

    /// The fault of components that do not link.
    pub(crate) fn not_linked(&self, alloc: Global, fault: LinkFault) -> Fault {
        Fault::Tool(ToolFault::Link {
            fault,
            count: self.count,
            tail: kept(alloc, self.tail_of(alloc, fault)),
        })
    }

    /// What the components have where they do not link, in words.
    fn tail_of(&self, alloc: Global, fault: LinkFault) -> Result<String, Fault> {
        let mut files = Vec::with_capacity(alloc, self.loaded.len())?;
        for (number, file) in self.loaded.iter().enumerate() {
            files.push((
                file.word(),
                self.seen_of(alloc, number, file, fault.component)?,
            ))?;
        }
        let mut tail = link_help(alloc, &files, fault)?;
        if fault.reason == LinkReason::TwoProviders {
            tail.push_str(self.choosing(alloc, fault)?.as_str())?;
        }
        Ok(tail)
    }

    /// What an importer sees of the component of this number, which is that of a file.
    fn seen_of(
        &self,
        alloc: Global,
        number: usize,
        file: &Loaded<'a>,
        importer: usize,
    ) -> Result<Signature, Fault> {
        if number != importer && self.is_hidden(number, importer) {
            return nothing(alloc);
        }
        Ok(signature(alloc, file.check(alloc)?)?)
    }

    /// Whether another component is hidden from an importer: it is no exporter of a bundle, or they
    /// are parts of one.
    fn is_hidden(&self, number: usize, importer: usize) -> bool {
        match group_of(&self.groups, importer) {
            Some(group) if group.given_to(number).is_some() => true,
            _ => !is_seen(&self.groups, number),
        }
    }

    /// The words that choose what serves the import of a fault.
    fn choosing(&self, alloc: Global, fault: LinkFault) -> Result<String, Fault> {
        let names = self.names(alloc)?;
        let importer = fault.component;
        if let Some(group) = group_of(&self.groups, importer) {
            return match group.open_name(importer, fault.import) {
                Some(import) => { choosing_text(alloc, &self.loaded, &names, group.first, import) }
                None => Ok(String::new(alloc)),
            };
        }
        let Some(file) = self.loaded.get(importer) else {
            return Ok(String::new(alloc));
        };
        let checked = file.check(alloc)?;
        match checked.imports().get(fault.import) {
            Some(import) => choosing_text(alloc, &self.loaded, &names, importer, &import.name),
            None => Ok(String::new(alloc)),
        }
    }
}

/// The signature of a component that imports and exports nothing.
fn nothing(alloc: Global) -> Result<Signature, Fault> {
    let Ok(component) = Component::new(Vec::new(alloc)) else {
        return Err(Fault::Memory);
    };
    match checked_of(alloc, "", &component) {
        Ok(checked) => Ok(signature(alloc, checked)?),
        Err(bad) => Err(of_file(alloc, bad)),
    }
}
