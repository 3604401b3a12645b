//! Functions, and the items of instances.

use crate::keys::{Key, Used};
use crate::scope::{Name, Scope};
use crate::types::primitive_word;
use crate::writer::Writer;
use cm_tool_show::{Counting, ShowFault};
use cm_types::{ExternNameForm, ResourceId};
use cm_types_arena::{ItemDesc, Items, Move, NamedItem, Placed};

/// A function of a resource, as WIT writes it there.
#[derive(Clone, Copy)]
enum Member<'a> {
    /// Its first parameter is the resource.
    Method(&'a str),
    Static(&'a str),
    /// It answers the resource.
    Constructor,
}

/// The resource that a function belongs to by its name, and what it is there.
fn member_of<'a>(form: ExternNameForm<'a>) -> Option<(&'a str, Member<'a>)> {
    match form {
        ExternNameForm::Method { resource, method } => Some((resource, Member::Method(method))),
        ExternNameForm::Static { resource, function } => {
            Some((resource, Member::Static(function)))
        }
        ExternNameForm::Constructor { resource } => Some((resource, Member::Constructor)),
        ExternNameForm::Label(_) | ExternNameForm::Interface { .. } => None,
    }
}

/// What an item is, as an import or an export brings it.
#[derive(Clone, Copy)]
enum Meaning {
    Type(Used),
    Resource(u64),
    Func(Used),
}

/// What an item is, as an import or an export brings it.
fn meaning_of(desc: ItemDesc, brought: Option<Move>) -> Meaning {
    let used = |placed: Placed| Used {
        place: placed.place,
        by: Counting::new(placed.by, brought),
    };
    match desc {
        ItemDesc::Func(placed) => Meaning::Func(used(placed)),
        ItemDesc::EqualType(placed) => Meaning::Type(used(placed)),
        ItemDesc::EqualResource(number) | ItemDesc::FreshResource(number) => {
            let id = ResourceId {
                component: 0,
                number,
            };
            Meaning::Resource(Counting::new(None, brought).resource(id).number)
        }
    }
}

impl<'a> Writer<'a> {
    /// Notes the names of an instance's items, before any of them is written.
    pub(crate) fn note_items(
        &mut self,
        scope: &mut Scope,
        items: Items<'a>,
    ) -> Result<(), ShowFault> {
        for place in 0..items.len() {
            if let Some(item) = items.at(place) {
                self.note_item(scope, item, items.by(), place)?;
            }
        }
        Ok(())
    }

    fn note_item(
        &mut self,
        scope: &mut Scope,
        item: NamedItem<'a>,
        brought: Option<Move>,
        place: usize,
    ) -> Result<(), ShowFault> {
        if let Some((resource, _)) = member_of(item.name) {
            let resource = self.book.label(resource)?;
            scope.add_member(self.alloc, resource, place)?;
        }
        let ExternNameForm::Label(label) = item.name else {
            return Ok(());
        };
        let label = self.book.label(label)?;
        scope.taken.insert(label)?;
        match meaning_of(item.desc, brought) {
            Meaning::Func(_) => Ok(()),
            Meaning::Resource(number) => self.note_resource(scope, label, number),
            Meaning::Type(used) => {
                let keys = self.keys(used)?;
                Ok(scope.give_type(keys, Name::Given(label))?)
            }
        }
    }

    /// Notes a resource by a name; its members stand with it under the first one, if it was not
    /// declared elsewhere.
    fn note_resource(
        &mut self,
        scope: &mut Scope,
        label: usize,
        number: u64,
    ) -> Result<(), ShowFault> {
        let key = Key::Resource(number);
        if scope.name(key).is_none() && self.home(key).is_none() {
            scope.open.insert(label)?;
        }
        Ok(scope.give(key, Name::Given(label))?)
    }

    /// Adds the lines of the items of an instance, whose names were noted.
    pub(crate) fn write_items(
        &mut self,
        scope: &mut Scope,
        items: Items<'a>,
    ) -> Result<(), ShowFault> {
        for place in 0..items.len() {
            if let Some(item) = items.at(place) {
                self.write_item(scope, items, item)?;
            }
        }
        Ok(())
    }

    fn write_item(
        &mut self,
        scope: &mut Scope,
        items: Items<'a>,
        item: NamedItem<'a>,
    ) -> Result<(), ShowFault> {
        match (meaning_of(item.desc, items.by()), item.name) {
            (Meaning::Func(used), name) => self.write_func_item(scope, name, used),
            (Meaning::Type(used), ExternNameForm::Label(label)) => {
                let label = self.book.label(label)?;
                self.write_type_item(scope, label, used)
            }
            (Meaning::Resource(number), ExternNameForm::Label(label)) => {
                let label = self.book.label(label)?;
                self.write_resource_item(scope, items, label, number)
            }
            _ => Ok(()),
        }
    }

    /// Adds a function that is no member of a resource of the instance: these stand with it.
    fn write_func_item(
        &mut self,
        scope: &mut Scope,
        name: ExternNameForm<'a>,
        used: Used,
    ) -> Result<(), ShowFault> {
        if let Some((resource, _)) = member_of(name) {
            let resource = self.book.label(resource)?;
            if scope.open.contains(&resource) {
                return Ok(());
            }
        }
        self.prepare_func(scope, used)?;
        self.book.put(scope.margin)?;
        self.book.put_form(name)?;
        self.book.put(": ")?;
        self.write_func(scope, used, 0)?;
        self.book.put(";\n")
    }

    /// Adds a type under one of its names: the first is declared, or brought where it was declared
    /// elsewhere.
    fn write_type_item(
        &mut self,
        scope: &mut Scope,
        label: usize,
        used: Used,
    ) -> Result<(), ShowFault> {
        let Some(node) = self.node(used.place) else {
            return Ok(());
        };
        if primitive_word(node).is_none() {
            let key = self.declared_key(used)?;
            if self.is_there(scope, key, label)? {
                return Ok(());
            }
        }
        self.prepare_parts(scope, used)?;
        self.prepare_handle(scope, used)?;
        self.declare(scope, Name::Given(label), used)
    }

    /// By what a type is found where it was declared before: itself; but where it has handles any
    /// equal one, since a file that names it elsewhere copies it.
    fn declared_key(&mut self, used: Used) -> Result<Key, ShowFault> {
        let keys = self.keys(used)?;
        let types = self.types;
        if used.place < types.len() && types.summary(used.place).holds_handle {
            return Ok(keys.equal);
        }
        Ok(keys.own)
    }

    /// Whether what has this label in a scope has another name in it, or was declared elsewhere; it
    /// is said so then.
    fn is_there(&mut self, scope: &Scope, key: Key, label: usize) -> Result<bool, ShowFault> {
        match scope.name(key) {
            Some(Name::Given(first)) if first != label => {
                self.write_other_name(scope, Name::Given(label), Name::Given(first))?;
                return Ok(true);
            }
            _ => {}
        }
        let Some(home) = self.home(key) else {
            return Ok(false);
        };
        match home.instance {
            Some(instance) => {
                self.write_bringing(scope.margin, instance, home.name, Name::Given(label))?;
            }
            None => self.write_other_name(scope, Name::Given(label), home.name)?,
        }
        Ok(true)
    }

    /// Adds a resource under one of its names, with its members.
    fn write_resource_item(
        &mut self,
        scope: &mut Scope,
        items: Items<'a>,
        label: usize,
        number: u64,
    ) -> Result<(), ShowFault> {
        let key = Key::Resource(number);
        if self.is_there(scope, key, label)? {
            return Ok(());
        }
        let name = Name::Given(label);
        self.settle(scope, key, name)?;
        let members = match scope.members.get(&label) {
            None => Vec::new(self.alloc),
            Some(places) => places.clone()?,
        };
        self.prepare_members(scope, items, &members)?;
        self.book.put_all(&[scope.margin, "resource "])?;
        self.book.put_name(name)?;
        if members.is_empty() {
            return self.book.put(";\n");
        }
        self.book.put(" {\n")?;
        self.write_members(scope, items, &members)?;
        self.book.put_all(&[scope.margin, "}\n"])
    }

    fn prepare_members(
        &mut self,
        scope: &mut Scope,
        items: Items<'a>,
        places: &[usize],
    ) -> Result<(), ShowFault> {
        for place in places {
            if let Some(item) = items.at(*place) {
                if let Meaning::Func(used) = meaning_of(item.desc, items.by()) {
                    self.prepare_func(scope, used)?;
                }
            }
        }
        Ok(())
    }

    fn write_members(
        &mut self,
        scope: &Scope,
        items: Items<'a>,
        places: &[usize],
    ) -> Result<(), ShowFault> {
        for place in places {
            if let Some(item) = items.at(*place) {
                if let (Meaning::Func(used), Some((_, member))) = (
                    meaning_of(item.desc, items.by()),
                    member_of(item.name),
                ) {
                    self.write_member(scope, member, used)?;
                }
            }
        }
        Ok(())
    }

    fn write_member(
        &mut self,
        scope: &Scope,
        member: Member<'a>,
        used: Used,
    ) -> Result<(), ShowFault> {
        self.book.put_all(&[scope.margin, "  "])?;
        match member {
            Member::Method(name) => {
                self.book.put_label(name)?;
                self.book.put(": ")?;
                self.write_func(scope, used, 1)?;
            }
            Member::Static(name) => {
                self.book.put_label(name)?;
                self.book.put(": static ")?;
                self.write_func(scope, used, 0)?;
            }
            Member::Constructor => {
                self.book.put("constructor")?;
                self.write_params(scope, used, 0)?;
            }
        }
        self.book.put(";\n")
    }

    /// Gives the types in a function names in a scope.
    pub(crate) fn prepare_func(&mut self, scope: &mut Scope, used: Used) -> Result<(), ShowFault> {
        let types = self.types;
        if used.place >= types.func_count() {
            return Ok(());
        }
        for param in types.func_params(used.place) {
            self.prepare(scope, used.at(*param))?;
        }
        if let Some(answer) = types.func_result(used.place) {
            self.prepare(scope, used.at(answer))?;
        }
        Ok(())
    }

    /// Adds the type of a function, but for so many of its parameters.
    pub(crate) fn write_func(
        &mut self,
        scope: &Scope,
        used: Used,
        without: usize,
    ) -> Result<(), ShowFault> {
        self.book.put("func")?;
        self.write_params(scope, used, without)?;
        let types = self.types;
        if used.place >= types.func_count() {
            return Ok(());
        }
        match types.func_result(used.place) {
            None => Ok(()),
            Some(answer) => {
                self.book.put(" -> ")?;
                self.write_used(scope, used.at(answer))
            }
        }
    }

    fn write_params(&mut self, scope: &Scope, used: Used, without: usize) -> Result<(), ShowFault> {
        self.book.put("(")?;
        let types = self.types;
        if used.place < types.func_count() {
            let fields = types.func(used.place).params.iter();
            let params = fields.zip(types.func_params(used.place)).skip(without);
            for (index, (field, param)) in params.enumerate() {
                self.book.separate(index)?;
                self.write_field(scope, field, used.at(*param))?;
            }
        }
        self.book.put(")")
    }
}
