//! The lines of a component.

ghost use Rattle.std.specs.Prelude.{◌≡◌, ◌+◌, ◌-◌, ◌^◌, IfOk, filter, length, min};
ghost use Rattle.cm_live_plan.specs.Numbers.{aliases_core_func, core_funcs_in, makes_core_func};
ghost use Rattle.cm_live_plan.specs.Numbers.{sort_word};

use crate::hex_text::HexText;
use crate::memories::{memory_of, pages_of};
use crate::names::{export_name, import_name};
use crate::sections::{Place, module_places};
use cm_binary_model::{
    Alias, Canon, CoreInlineExport, CoreInstance, CoreInstantiationArg, CoreSort, Section,
};
use cm_types::CoreKind;
use cm_validate_functions::{Functions, StringEncoding};
use cm_validate_spaces::{Checked, CoreFuncEntry, MadeFunc};
use std::alloc::Global;
use std::io::Write;
use std::{fmt, io};

/// The kinds of core values as one word: `i32,i64`, or `-` for none.
#[derive(Clone, Copy)]
struct Kinds<'a>(&'a [CoreKind]);

impl fmt::Display for Kinds<'_> {
    fn fmt<W: fmt::Write>(&self, f: &mut fmt::Formatter<W>) -> fmt::Result {
        if self.0.is_empty() {
            return f.write_str("-");
        }
        let mut comma = "";
        for kind in self.0 {
            let name = match kind {
                CoreKind::I32 => "i32",
                CoreKind::I64 => "i64",
            };
            write!(f, "{comma}{name}")?;
            comma = ",";
        }
        Ok(())
    }
}

/// The word of a sort.
fn sort_word(sort: CoreSort) -> &'static str
    ensures { result.now ≡ sort_word sort }
{
    match sort {
        CoreSort::Func => "func",
        CoreSort::Table => "table",
        CoreSort::Memory => "memory",
        CoreSort::Global => "global",
    }
}

/// Whether an alias is of a core function (Binary.md, "Alias Definitions").
fn aliases_core_func(alias: &Alias) -> bool
    ensures { result ≡ aliases_core_func alias.now }
{
    matches!(
        alias,
        Alias::CoreInstanceExport {
            sort: CoreSort::Func,
            ..
        }
    )
}

/// Whether a canonical definition makes a core function (Binary.md, "Canonical Definitions").
fn makes_core_func(canon: &Canon) -> bool
    ensures { result ≡ makes_core_func canon.now }
{
    !matches!(canon, Canon::Lift { .. })
}

/// How many of these aliases are of core functions.
fn aliased_count(aliases: &[Alias]) -> usize
    ensures { result ≡ length (filter (λ a. aliases_core_func a) aliases.now) }
{
    aliases
        .iter()
        .filter(|alias| aliases_core_func(alias))
        .count()
}

/// How many of these canonical definitions make core functions.
fn made_count(canons: &[Canon]) -> usize
    ensures { result ≡ length (filter (λ c. makes_core_func c) canons.now) }
{
    canons.iter().filter(|canon| makes_core_func(canon)).count()
}

/// How many core functions a section defines.
fn core_funcs_in(section: &Section) -> usize
    ensures { result ≡ core_funcs_in section.now }
{
    match section {
        Section::Aliases(aliases) => aliased_count(aliases),
        Section::Canons(canons) => made_count(canons),
        _ => 0,
    }
}

/// The word of an encoding of strings, as the text format of components has it; `-` for none.
fn encoding_word(encoding: Option<StringEncoding>) -> &'static str {
    match encoding {
        Some(StringEncoding::Utf8) => "utf8",
        Some(StringEncoding::Utf16) => "utf16",
        Some(StringEncoding::Latin1OrUtf16) => "latin1+utf16",
        None => "-",
    }
}

/// Where an engine finds a component.
#[derive(Clone, Copy)]
pub struct PlacedFile<'f> {
    /// The name of the file in which it stands.
    pub name: &'f str,
    /// The byte of that file with which it begins: 0 but in a bundle.
    pub at: usize,
    /// Its own bytes.
    pub bytes: &'f [u8],
}

/// What is written of a component beside its own definitions.
#[derive(Clone, Copy)]
pub struct Beside<'f> {
    pub file: PlacedFile<'f>,
    /// The lines of the types of its functions, each with its LF.
    pub types: &'f str,
    /// The most pages that its memory may have.
    pub most: u32,
}

/// Writes what an engine needs to instantiate the core modules of a component, a line each, in the
/// order of their definitions; then what it needs to play them. An error is the writer's, or that
/// there is no memory.
pub fn write_component<O: Write>(
    alloc: Global,
    out: &mut O,
    beside: Beside<'_>,
    checked: &Checked<'_>,
) -> io::Result<()> {
    let file = beside.file;
    writeln!(out, "component {}", HexText(file.name.as_bytes()))?;
    let pages = pages_of(alloc, checked.component())?;
    writeln!(out, "pages {pages} {}", beside.most)?;
    out.write_all(beside.types.as_bytes())?;
    let functions = Functions::of(alloc, checked)?;
    let mut plan = Plan {
        alloc,
        out,
        checked,
        functions,
        places: module_places(alloc, file.bytes)?,
        at: file.at,
        modules: 0,
    };
    let mut funcs = 0;
    for section in checked.component().sections() {
        funcs = plan.write_section(section, funcs)?;
    }
    plan.write_lifts()?;
    plan.write_memory()
}

/// The lines of a component that are being written.
#[derive(Drop)]
struct Plan<'o, 'c, 'b, 'a, O> {
    alloc: Global,
    out: &'o mut O,
    checked: &'c Checked<'a>,
    functions: Functions<'b, 'a>,
    places: Vec<Place>,
    /// Where the component begins in its file.
    at: usize,
    /// How many core modules have been written.
    modules: usize,
}

impl<O: Write> Plan<'_, '_, '_, '_, O> {
    /// Writes the definitions of a section, before which so many core functions were defined:
    /// answers how many there are behind it.
    fn write_section(&mut self, section: &Section, funcs: usize) -> io::Result<usize>
        ensures { IfOk result
            (λ all. all ≡ min (funcs + core_funcs_in section.now) (2 ^ 64 - 1)) }
    {
        match section {
            Section::CoreModule(_) => self.write_module()?,
            Section::CoreInstances(instances) => self.write_instances(instances)?,
            Section::Aliases(aliases) => self.write_aliases(aliases)?,
            Section::Canons(canons) => self.write_canons(canons, funcs)?,
            _ => {}
        }
        Ok(funcs.saturating_add(core_funcs_in(section)))
    }

    fn write_module(&mut self) -> io::Result<()> {
        let number = self.modules;
        self.modules = number.saturating_add(1);
        match self.places.get(number) {
            Some(place) => {
                let at = place.at.saturating_add(self.at);
                writeln!(self.out, "module {at} {}", place.size)
            }
            None => Ok(()),
        }
    }

    fn write_instances(&mut self, instances: &[CoreInstance]) -> io::Result<()> {
        for instance in instances {
            match instance {
                CoreInstance::Instantiate { module, args } => {
                    write!(self.out, "instance {module}")?;
                    write_args(self.out, args)?;
                }
                CoreInstance::Exports(exports) => {
                    self.out.write_all(b"inline")?;
                    write_exports(self.out, exports)?;
                }
            }
        }
        Ok(())
    }

    fn write_aliases(&mut self, aliases: &[Alias]) -> io::Result<()> {
        for alias in aliases {
            let Alias::CoreInstanceExport {
                sort,
                instance,
                name,
            } = alias
            else {
                continue;
            };
            let (word, name) = (sort_word(*sort), HexText(name.as_bytes()));
            writeln!(self.out, "alias {word} {instance} {name}")?;
        }
        Ok(())
    }

    /// Writes the canonical definitions that make core functions, of which this is the number of
    /// the first.
    fn write_canons(&mut self, canons: &[Canon], first: usize) -> io::Result<()> {
        let made = canons.iter().filter(|canon| makes_core_func(canon));
        for (before, canon) in made.enumerate() {
            self.write_canon(canon, first.saturating_add(before))?;
        }
        Ok(())
    }

    /// Writes a canonical definition that makes the core function of an index.
    fn write_canon(&mut self, canon: &Canon, index: usize) -> io::Result<()> {
        let word = match canon {
            Canon::Lift { .. } => return Ok(()),
            Canon::Lower { .. } => return self.write_lower(u32::try_from(index).unwrap_or(
                u32::MAX,
            )),
            Canon::ResourceNew { .. } => "new",
            Canon::ResourceDrop { .. } => "drop",
            Canon::ResourceRep { .. } => "rep",
        };
        writeln!(self.out, "resource {word} {index}")
    }

    fn write_lower(&mut self, index: u32) -> io::Result<()> {
        let Some(CoreFuncEntry::Made(MadeFunc::Lowered { import, item, .. })) = self
            .checked
            .core(index)
        else {
            return Ok(());
        };
        let name = import_name(self.alloc, self.checked, import, item)?;
        write!(self.out, "lower {index} {}", HexText(name.as_bytes()))?;
        self.write_kinds(index)
    }

    /// Writes the kinds of the core values that a core function takes and answers, and how strings
    /// are encoded that it passes, and ends the line.
    fn write_kinds(&mut self, index: u32) -> io::Result<()> {
        match self.functions.kinds(self.alloc, index)? {
            None => self.out.write_all(b" - - ")?,
            Some(ty) => write!(self.out, " {} {} ", Kinds(&ty.params), Kinds(&ty.results))?,
        }
        writeln!(
            self.out,
            "{}",
            encoding_word(self.functions.encoding(index))
        )
    }

    fn write_lifts(&mut self) -> io::Result<()> {
        for index in 0..self.functions.count() {
            let Some(lift) = self.functions.lifted(index) else {
                continue;
            };
            let name = export_name(self.alloc, self.checked, &lift)?;
            write!(self.out, "lift {index} {}", HexText(name.as_bytes()))?;
            self.write_kinds(index)?;
        }
        Ok(())
    }

    fn write_memory(&mut self) -> io::Result<()> {
        match memory_of(self.checked.component()) {
            Some(index) => writeln!(self.out, "memory {index}"),
            None => Ok(()),
        }
    }
}

/// Writes the core instances that are given to a core module, and ends the line.
fn write_args<O: Write>(out: &mut O, args: &[CoreInstantiationArg]) -> io::Result<()> {
    for arg in args {
        write!(out, " {}={}", HexText(arg.name.as_bytes()), arg.instance)?;
    }
    out.write_all(b"\n")
}

/// Writes what a core instance has, and ends the line.
fn write_exports<O: Write>(out: &mut O, exports: &[CoreInlineExport]) -> io::Result<()> {
    for export in exports {
        let (word, index) = (sort_word(export.sort), export.index);
        write!(out, " {}={word}:{index}", HexText(export.name.as_bytes()))?;
    }
    out.write_all(b"\n")
}
