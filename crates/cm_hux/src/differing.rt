//! What a component or a world in place of another breaks for users and hosts.

use crate::wit_files::WitFiles;
use cm_hux_diff::{Change, Difference, Effect, differences, replaces};
use cm_hux_play::files::{
    Asked, Ending, Escaped, Fault, Files, Object, Streams, ToValue, ToolFault, Value, read_bytes,
    signature_in, tell,
};
use cm_hux_words::{DiffWords, Habits};
use cm_tool_show::show;
use cm_types_arena::Signature;
use std::alloc::{AllocError, Global};
use std::io::Write;

/// What a WebAssembly file begins with; others are texts.
const MAGIC: &[u8] = b"\0asm";

/// What a file or a folder of a name has.
#[derive(Drop)]
struct Read<'a> {
    name: &'a str,
    has: Has,
}

/// The bytes of a component file, or texts.
#[derive(Drop)]
enum Has {
    Component(Vec<u8>),
    Texts(WitFiles),
}

impl Has {
    fn of<F: Files, S: Streams>(
        alloc: Global,
        files: &mut F,
        streams: &mut S,
        name: &str,
    ) -> Result<Has, Fault> {
        if let Some(project) = WitFiles::of_folder(alloc, files, streams, name)? {
            return Ok(Has::Texts(project));
        }
        let bytes = read_bytes(alloc, files, name)?;
        if bytes.starts_with(MAGIC) {
            return Ok(Has::Component(bytes));
        }
        Ok(Has::Texts(WitFiles::of_text(alloc, name, bytes)?))
    }
}

impl<'a> Read<'a> {
    fn of<F: Files, S: Streams>(
        alloc: Global,
        files: &mut F,
        streams: &mut S,
        name: &'a str,
    ) -> Result<Read<'a>, Fault> {
        let has = Has::of(alloc, files, streams, name)?;
        Ok(Read { name, has })
    }

    fn is_text(&self) -> bool {
        matches!(self.has, Has::Texts(_))
    }

    /// What the component of the file imports and exports, or the world of the texts, where these
    /// features are wanted.
    fn signature(
        &self,
        alloc: Global,
        world: Option<&str>,
        features: Option<&str>,
    ) -> Result<Signature, Fault> {
        match &self.has {
            Has::Component(bytes) => signature_in(alloc, self.name, bytes.to_vec(alloc)?),
            Has::Texts(texts) => {
                let (wit, file) = (self.name, self.name);
                let world = world.unwrap_or("");
                texts.signature(alloc, Asked { wit, world, file }, features)
            }
        }
    }
}

/// Prints what differs, a line each, and for whom it breaks something, and `ok` where for nobody.
pub(crate) fn run_diff<F: Files, S: Streams, O: Write>(
    alloc: Global,
    words: &DiffWords<'_>,
    habits: Habits,
    files: &mut F,
    streams: &mut S,
    out: &mut O,
) -> Result<Ending, Fault> {
    let both = Both::read(alloc, words, files, streams)?;
    let telling = Telling { alloc, habits };
    let is_broken = telling.tell_both(&both, out)?;
    telling.tell_end(is_broken, out)?;
    Ok(if is_broken {
        Ending::Refused
    } else {
        Ending::Done
    })
}

/// What two files import and export.
#[derive(Drop)]
struct Both<'a> {
    old_name: &'a str,
    new_name: &'a str,
    old: Signature,
    new: Signature,
}

impl<'a> Both<'a> {
    fn read<F: Files, S: Streams>(
        alloc: Global,
        words: &DiffWords<'a>,
        files: &mut F,
        streams: &mut S,
    ) -> Result<Both<'a>, Fault> {
        let old = Read::of(alloc, files, streams, words.old)?;
        let new = Read::of(alloc, files, streams, words.new)?;
        Both::of(alloc, &old, &new, words)
    }

    fn of(
        alloc: Global,
        old: &Read<'a>,
        new: &Read<'a>,
        words: &DiffWords<'a>,
    ) -> Result<Both<'a>, Fault> {
        let (of_old, of_new) = worlds_of(alloc, old, new, &words.worlds)?;
        let before = old.signature(alloc, of_old, words.features)?;
        let after = new.signature(alloc, of_new, words.features)?;
        Ok(Both {
            old_name: old.name,
            new_name: new.name,
            old: before,
            new: after,
        })
    }
}

/// The worlds of the two files: those that are texts have one each, in order, or both the only one
/// that was named.
fn worlds_of<'a>(
    alloc: Global,
    old: &Read<'a>,
    new: &Read<'a>,
    worlds: &[&'a str],
) -> Result<(Option<&'a str>, Option<&'a str>), Fault> {
    match (old.is_text(), new.is_text(), worlds) {
        (false, false, []) => Ok((None, None)),
        (true, false, [world]) => Ok((Some(*world), None)),
        (false, true, [world]) => Ok((None, Some(*world))),
        (true, true, [world]) => Ok((Some(*world), Some(*world))),
        (true, true, [first, second]) => Ok((Some(*first), Some(*second))),
        (_, _, []) => Err(no_world_named(alloc, if old.is_text() { old.name } else { new.name })?),
        _ => Err(many_worlds(alloc)?),
    }
}

fn no_world_named(alloc: Global, name: &str) -> Result<Fault, Fault> {
    let name = Escaped(name);
    Ok(Fault::Usage(format!(in alloc;
        "error: {name} is a text, of which --world names the world\n"
    )?))
}

fn many_worlds(alloc: Global) -> Result<Fault, Fault> {
    Ok(Fault::Usage(String::from_str(
        alloc,
        "error: --world names more worlds than there are texts\n",
    )?))
}

/// The text that shows a signature.
fn shown(alloc: Global, name: &str, of: &Signature) -> Result<String, Fault> {
    match show(alloc, of) {
        Ok(text) => Ok(text),
        Err(fault) => Err(Fault::Tool(ToolFault::show(alloc, name, fault))),
    }
}

/// How differences are printed.
#[derive(Clone, Copy)]
struct Telling {
    alloc: Global,
    habits: Habits,
}

impl Telling {
    /// Prints what differs between the two, and answers whether something is broken.
    fn tell_both<O: Write>(self, both: &Both<'_>, out: &mut O) -> Result<bool, Fault> {
        let old = shown(self.alloc, both.old_name, &both.old)?;
        let new = shown(self.alloc, both.new_name, &both.new)?;
        self.tell_texts(both, &old, &new, out)
    }

    /// Prints what differs between the two, which these texts show.
    fn tell_texts<O: Write>(
        self,
        both: &Both<'_>,
        old: &str,
        new: &str,
        out: &mut O,
    ) -> Result<bool, Fault> {
        let broken = replaces(self.alloc, &both.old, &both.new)?;
        let found = differences(self.alloc, old, new, &broken)?;
        self.tell_differences(&found, out)?;
        Ok(broken.breaks())
    }

    /// Prints each difference, or only what is broken.
    fn tell_differences<O: Write>(
        self,
        found: &[Difference<'_>],
        out: &mut O,
    ) -> Result<(), Fault> {
        for difference in found {
            if !self.habits.quiet || difference.effect.breaks() {
                self.tell_difference(difference, out)?;
            }
        }
        Ok(())
    }

    fn tell_difference<O: Write>(
        self,
        difference: &Difference<'_>,
        out: &mut O,
    ) -> Result<(), Fault> {
        if self.habits.json {
            return tell(difference_object(self.alloc, difference)?, out);
        }
        writeln!(out, "{difference}")?;
        Ok(())
    }

    /// Prints `ok` where nothing is broken.
    fn tell_end<O: Write>(self, is_broken: bool, out: &mut O) -> Result<(), Fault> {
        if self.habits.json {
            tell(Object::new(self.alloc).with("ok", !is_broken)?, out)?;
        } else if !is_broken && !self.habits.quiet {
            writeln!(out, "ok")?;
        }
        out.flush()?;
        Ok(())
    }
}

/// A difference as an object.
fn difference_object(alloc: Global, difference: &Difference<'_>) -> Result<Object, AllocError> {
    let object = Object::new(alloc).with_shown("side", &difference.side)?;
    let object = object.with("name", difference.name)?;
    let object = object.with("harmless", difference.effect == Effect::Harmless)?;
    let object = object.with_shown("effect", &difference.effect)?;
    let object = match difference.item {
        Some(item) => object.with("item", item)?,
        None => object,
    };
    let object = with_users(alloc, object, &difference.used_by)?;
    with_change(object, &difference.change)
}

/// With the items that differ by it alone, where there are any.
fn with_users(alloc: Global, object: Object, users: &[&str]) -> Result<Object, AllocError> {
    if users.is_empty() {
        return Ok(object);
    }
    let mut names = Vec::with_capacity(alloc, users.len())?;
    for user in users {
        names.push((*user).to_value(alloc)?)?;
    }
    object.with("used_by", Value::Array(names))
}

/// With how it differs.
fn with_change(object: Object, change: &Change<'_>) -> Result<Object, AllocError> {
    match change {
        Change::Gone { other } => with_other(object.with("change", "gone")?, *other),
        Change::New { other } => with_other(object.with("change", "new")?, *other),
        Change::Changed { was, is } => {
            let object = object.with("change", "changed")?.with("was", was.as_str())?;
            object.with("is", is.as_str())
        }
        Change::Renamed { is } => object.with("change", "renamed")?.with("is", *is),
        Change::Several => object.with("change", "several"),
        Change::Exported => object.with("change", "exported"),
    }
}

/// With the other version of an interface that is there, if there is one.
fn with_other(object: Object, other: Option<&str>) -> Result<Object, AllocError> {
    match other {
        Some(other) => object.with("other", other),
        None => Ok(object),
    }
}
