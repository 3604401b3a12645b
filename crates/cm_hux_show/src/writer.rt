//! What is written, and what is declared in it.

ghost use Rattle.std.specs.Prelude.{◌≤◌, IfOk, length};
ghost use Rattle.std.specs.String.{string_bytes};
ghost use Rattle.cm_tool_show.specs.declared.page.TheConstants.{MAX_SHOWN};

use crate::keys::{Key, TypeKeys, Used, last_resources};
use crate::labels::Labels;
use crate::scope::{Home, Name, Scope};
use crate::shapes::shape_of;
use cm_names::TextNumbers;
use cm_tool_show::{Page, ShowFault};
use cm_types::{ExternNameForm, TypeNode};
use cm_types_arena::Types;
use cm_wit_tokens::Keyword;
use std::alloc::Global;
use std::collections::BTreeMap;

/// The text so far, with what it declares.
#[derive(Drop)]
pub(crate) struct Writer<'a> {
    pub alloc: Global,
    pub types: &'a Types,
    pub book: Book,
    homes: BTreeMap<Key, Home>,
}

/// The text so far, and the numbers that types and names have in it.
#[derive(Drop)]
pub(crate) struct Book {
    page: Page,
    labels: Labels,
    lasts: Vec<Option<u64>>,
    /// The numbers of types that were met, and the texts by which they are equal.
    numbers: BTreeMap<Key, usize>,
    shapes: TextNumbers,
    /// How many names were made.
    made: usize,
}

/// Adds a label to a text, which a `%` begins where it is a keyword (WIT.md, "Identifiers").
fn put_label(page: &mut Page, label: &str) -> Result<(), ShowFault> {
    if Keyword::of_word(label.as_bytes()).is_some() {
        page.put("%")?;
    }
    page.put(label)
}

impl Book {
    /// The text as it is, where it is not too long.
    pub(crate) fn finish(self) -> Result<String, ShowFault>
        ensures short { IfOk result (λ text. length (string_bytes text) ≤ MAX_SHOWN) }
    {
        self.page.finish()
    }

    /// Adds a text.
    pub(crate) fn put(&mut self, text: &str) -> Result<(), ShowFault> {
        self.page.put(text)
    }

    /// Adds a number.
    pub(crate) fn put_number(&mut self, number: usize) -> Result<(), ShowFault> {
        self.page.put_number(number)
    }

    /// The number of a text.
    pub(crate) fn label(&mut self, text: &str) -> Result<usize, ShowFault> {
        Ok(self.labels.number(text)?)
    }

    /// Adds the text of a number, as a label.
    pub(crate) fn put_label_of(&mut self, number: usize) -> Result<(), ShowFault> {
        put_label(&mut self.page, self.labels.text(number))
    }

    /// Adds a name.
    pub(crate) fn put_name(&mut self, name: Name) -> Result<(), ShowFault> {
        match name {
            Name::Given(label) => self.put_label_of(label),
            Name::Made(number) => {
                self.put("#")?;
                self.put_number(number)
            }
        }
    }

    /// Adds a label.
    pub(crate) fn put_label(&mut self, label: &str) -> Result<(), ShowFault> {
        put_label(&mut self.page, label)
    }

    /// Adds what the name of an import, an export or an item says.
    pub(crate) fn put_form(&mut self, form: ExternNameForm<'_>) -> Result<(), ShowFault> {
        match form {
            ExternNameForm::Label(label) => self.put_label(label),
            ExternNameForm::Method { resource, method } => {
                self.put_all(&["[method]", resource, ".", method])
            }
            ExternNameForm::Static { resource, function } => {
                self.put_all(&["[static]", resource, ".", function])
            }
            ExternNameForm::Constructor { resource } => {
                self.put_all(&["[constructor]", resource])
            }
            ExternNameForm::Interface {
                namespace,
                package,
                interface,
                version,
            } => {
                self.put_all(&[namespace, ":", package, "/", interface])?;
                match version {
                    Some(version) => self.put_all(&["@", version]),
                    None => Ok(()),
                }
            }
        }
    }

    /// Adds texts, one behind the other.
    pub(crate) fn put_all(&mut self, texts: &[&str]) -> Result<(), ShowFault> {
        for text in texts {
            self.put(text)?;
        }
        Ok(())
    }

    /// Adds what stands before a member of a list, from 0.
    pub(crate) fn separate(&mut self, index: usize) -> Result<(), ShowFault> {
        if index == 0 {
            return Ok(());
        }
        self.put(", ")
    }
}

impl<'a> Writer<'a> {
    /// An empty text, over these types.
    pub(crate) fn new(alloc: Global, types: &'a Types) -> Result<Writer<'a>, ShowFault> {
        let lasts = last_resources(alloc, types)?;
        let book = Book {
            page: Page::new(alloc),
            labels: Labels::new(alloc),
            lasts,
            numbers: BTreeMap::new(alloc),
            shapes: TextNumbers::new(alloc),
            made: 0,
        };
        Ok(Writer {
            alloc,
            types,
            book,
            homes: BTreeMap::new(alloc),
        })
    }

    /// The node of a type.
    pub(crate) fn node(&self, place: usize) -> Option<&'a TypeNode> {
        let types = self.types;
        if place < types.len() {
            Some(types.node(place))
        } else {
            None
        }
    }

    /// The places of a type's parts.
    pub(crate) fn parts(&self, place: usize) -> &'a [usize] {
        let types = self.types;
        if place < types.len() {
            types.parts(place)
        } else {
            &[]
        }
    }

    /// What a type is named by.
    pub(crate) fn keys(&mut self, used: Used) -> Result<TypeKeys, ShowFault> {
        Ok(TypeKeys {
            own: used.key(&self.book.lasts),
            equal: Key::Equal(self.number(used)?),
        })
    }

    /// The number of a type: equal exactly where types are equal. What it holds costs its own
    /// length once for each way in which its resources are counted.
    fn number(&mut self, used: Used) -> Result<usize, ShowFault> {
        let key = used.key(&self.book.lasts);
        if let Some(number) = self.book.numbers.get(&key) {
            return Ok(*number);
        }
        let mut parts = Vec::new(self.alloc);
        for part in self.parts(used.place) {
            if *part < used.place {
                let number = self.number(used.at(*part))?;
                parts.push(number)?;
            }
        }
        let number = self.number_of_parts(used, &parts)?;
        self.book.numbers.insert(key, number)?;
        Ok(number)
    }

    /// The number of a type whose parts have these numbers.
    fn number_of_parts(&mut self, used: Used, parts: &[usize]) -> Result<usize, ShowFault> {
        let Some(node) = self.node(used.place) else {
            return Ok(0);
        };
        let shape = shape_of(self.alloc, node, used, parts)?;
        Ok(self.book.shapes.number(shape.as_str())?)
    }

    /// A name that no file can have.
    pub(crate) fn make_name(&mut self) -> Name {
        let number = self.book.made;
        self.book.made = number.saturating_add(1);
        Name::Made(number)
    }

    /// A type that is declared under a name in a scope has it there, and its home if it has none.
    pub(crate) fn settle_type(
        &mut self,
        scope: &mut Scope,
        keys: TypeKeys,
        name: Name,
    ) -> Result<(), ShowFault> {
        self.settle(scope, keys.own, name)?;
        self.settle(scope, keys.equal, name)
    }

    /// What is declared under a name in a scope has it there; it has its home there if it has none.
    pub(crate) fn settle(
        &mut self,
        scope: &mut Scope,
        key: Key,
        name: Name,
    ) -> Result<(), ShowFault> {
        scope.give(key, name)?;
        if !self.homes.contains_key(&key) {
            let instance = scope.instance;
            self.homes.insert(key, Home { instance, name })?;
        }
        Ok(())
    }

    /// Where something was declared before, if it was.
    pub(crate) fn home(&self, key: Key) -> Option<Home> {
        self.homes.get(&key).copied()
    }

    /// Brings what was declared elsewhere, if it was, and says so.
    pub(crate) fn bring(&mut self, scope: &mut Scope, key: Key) -> Result<bool, ShowFault> {
        let Some(home) = self.home(key) else {
            return Ok(false);
        };
        let name = self.local_name(scope, home)?;
        if let Some(instance) = home.instance {
            self.write_bringing(scope.margin, instance, home.name, name)?;
        }
        scope.give(key, name)?;
        Ok(true)
    }

    /// The name that something has in a scope which was declared elsewhere: its own, where that is
    /// not taken.
    fn local_name(&mut self, scope: &mut Scope, home: Home) -> Result<Name, ShowFault> {
        match home.name {
            Name::Given(label) if !scope.taken.insert(label)? => Ok(self.make_name()),
            name => Ok(name),
        }
    }

    /// Adds a line that brings a name of an instance as another one, or the same.
    pub(crate) fn write_bringing(
        &mut self,
        margin: &'static str,
        instance: usize,
        there: Name,
        here: Name,
    ) -> Result<(), ShowFault> {
        self.book.put_all(&[margin, "use "])?;
        self.book.put_label_of(instance)?;
        self.book.put(".{")?;
        self.book.put_name(there)?;
        if there != here {
            self.book.put(" as ")?;
            self.book.put_name(here)?;
        }
        self.book.put("};\n")
    }
}
