//! The world of a signature.

ghost use Rattle.std.specs.Prelude.{◌≤◌, IfOk, length};
ghost use Rattle.std.specs.String.{string_bytes};
ghost use Rattle.cm_tool_show.specs.declared.page.TheConstants.{MAX_SHOWN};

use crate::keys::Used;
use crate::scope::Scope;
use crate::writer::Writer;
use cm_tool_show::{Counting, ShowFault};
use cm_types::ExternNameForm;
use cm_types_arena::{Desc, Externs, Items, NamedDesc, Signature};
use std::alloc::{AllocError, Global};

/// The text of a signature as WIT writes it (WIT.md, "Worlds"): each import and then each export,
/// in order, as it stands in a world. The items of an instance stand in it: each type and resource
/// once, under the first name that the instance gives it, and in other instances brought by `use`.
/// Methods, static functions and constructors stand with their resources.
///
/// A type with no name of its own has that of one that is equal to it in the same instance: files
/// define a type anew where they export it. A record, a variant, an enum or flags without a name, a
/// resource too, and another type of more than 16 nodes, is declared where it is first used under a
/// name that no file can have: `#` and a number, from 0 on. Other types without a name are written
/// where they are used.
///
/// `TooLong` comes where the text has more than `MAX_SHOWN` bytes, and `Memory` where there is no
/// memory. Each use of a type costs its name, or at most 16 nodes.
pub fn show_world(alloc: Global, signature: &Signature) -> Result<String, ShowFault>
    ensures short { IfOk result (λ text. length (string_bytes text) ≤ MAX_SHOWN) }
{
    let mut writer = Writer::new(alloc, signature.types())?;
    let written = writer.write_world(&mut Scope::new(alloc, None, ""), signature);
    written?;
    writer.book.finish()
}

/// The text of the name of an instance.
fn form_text(alloc: Global, form: ExternNameForm<'_>) -> Result<String, AllocError> {
    let mut text = String::new(alloc);
    match form {
        ExternNameForm::Interface {
            namespace,
            package,
            interface,
            version,
        } => {
            for piece in [namespace, ":", package, "/", interface] {
                text.push_str(piece)?;
            }
            if let Some(version) = version {
                text.push_str("@")?;
                text.push_str(version)?;
            }
        }
        ExternNameForm::Label(label) => text.push_str(label)?,
        ExternNameForm::Method { .. }
        | ExternNameForm::Static { .. }
        | ExternNameForm::Constructor { .. } => {}
    }
    Ok(text)
}

impl<'a> Writer<'a> {
    /// Adds the lines of all imports and exports.
    fn write_world(
        &mut self,
        world: &mut Scope,
        signature: &'a Signature,
    ) -> Result<(), ShowFault> {
        self.note_labels(world, signature.imports())?;
        self.note_labels(world, signature.exports())?;
        self.write_externs(world, "import ", signature.imports())?;
        self.write_externs(world, "export ", signature.exports())
    }

    /// Notes the labels that imports or exports take in the world.
    fn note_labels(&mut self, world: &mut Scope, externs: &'a Externs) -> Result<(), ShowFault> {
        for place in 0..externs.len() {
            if let Some(
                NamedDesc {
                    name: ExternNameForm::Label(label),
                    ..
                },
            ) = externs.at(place)
            {
                let label = self.book.label(label)?;
                world.taken.insert(label)?;
            }
        }
        Ok(())
    }

    /// Adds the lines of imports, or of exports.
    fn write_externs(
        &mut self,
        world: &mut Scope,
        word: &str,
        externs: &'a Externs,
    ) -> Result<(), ShowFault> {
        for place in 0..externs.len() {
            if let Some(each) = externs.at(place) {
                self.write_extern(world, word, each)?;
            }
        }
        Ok(())
    }

    fn write_extern(
        &mut self,
        world: &mut Scope,
        word: &str,
        each: NamedDesc<'a>,
    ) -> Result<(), ShowFault> {
        match each.desc {
            Desc::Func(placed) => {
                let used = Used {
                    place: placed.place,
                    by: Counting::new(placed.by, None),
                };
                self.prepare_func(world, used)?;
                self.begin_extern(word, each.name)?;
                self.write_func(world, used, 0)?;
                self.book.put(";\n")
            }
            Desc::Instance(items) => {
                let name = form_text(self.alloc, each.name)?;
                let name = self.book.label(name.as_str())?;
                let mut scope = Scope::new(self.alloc, Some(name), "  ");
                self.write_instance(&mut scope, word, each.name, items)
            }
        }
    }

    /// Adds an instance, in a scope of its own.
    fn write_instance(
        &mut self,
        scope: &mut Scope,
        word: &str,
        name: ExternNameForm<'a>,
        items: Items<'a>,
    ) -> Result<(), ShowFault> {
        self.note_items(scope, items)?;
        self.begin_extern(word, name)?;
        self.book.put("interface {\n")?;
        self.write_items(scope, items)?;
        self.book.put("}\n")
    }

    fn begin_extern(&mut self, word: &str, name: ExternNameForm<'a>) -> Result<(), ShowFault> {
        self.book.put(word)?;
        self.book.put_form(name)?;
        self.book.put(": ")
    }
}
