//! Types: named before they are used, and written by their names.

use crate::keys::{Key, TypeKeys, Used};
use crate::scope::{Name, Scope};
use crate::writer::Writer;
use cm_tool_show::{Counting, Page, ShowFault, show_type};
use cm_types::{Case, Field, Label, TypeNode};
use std::alloc::{AllocError, Global};

/// The most nodes of a type without a name that are written where it is used, each type with a name
/// counted as one: a longer one gets a name.
pub(crate) const MAX_SPELLED: usize = 16;

/// The word of a type that is no other type's: of a number, a text and the like.
pub fn primitive_word(node: &TypeNode) -> Option<&'static str> {
    match node {
        TypeNode::Bool => Some("bool"),
        TypeNode::S8 => Some("s8"),
        TypeNode::U8 => Some("u8"),
        TypeNode::S16 => Some("s16"),
        TypeNode::U16 => Some("u16"),
        TypeNode::S32 => Some("s32"),
        TypeNode::U32 => Some("u32"),
        TypeNode::S64 => Some("s64"),
        TypeNode::U64 => Some("u64"),
        TypeNode::Char => Some("char"),
        TypeNode::String => Some("string"),
        _ => None,
    }
}

/// A type in one line, written out, with its resources numbered from 0; nothing where that would be
/// longer than `MAX_SHOWN`.
pub fn type_text(alloc: Global, node: &TypeNode) -> Result<String, AllocError> {
    let mut page = Page::new(alloc);
    match show_type(&mut page, node, Counting::new(None, None)) {
        Ok(()) => {}
        Err(ShowFault::TooLong) => return Ok(String::new(alloc)),
        Err(ShowFault::Memory) => return Err(AllocError),
    }
    match page.finish() {
        Ok(text) => Ok(text),
        Err(ShowFault::TooLong) => Ok(String::new(alloc)),
        Err(ShowFault::Memory) => Err(AllocError),
    }
}

/// Whether WIT writes a type only where it is declared.
pub(crate) fn is_declared(node: &TypeNode) -> bool {
    matches!(
        node,
        TypeNode::Record(_) | TypeNode::Variant(_) | TypeNode::Enum(_) | TypeNode::Flags(_)
    )
}

/// What stands before a part of a type that is written where it is used.
pub(crate) fn text_before(node: &TypeNode, index: usize) -> &'static str {
    match node {
        _ if index > 0 => ", ",
        TypeNode::List(_) | TypeNode::FixedList { .. } => "list<",
        TypeNode::Option(_) => "option<",
        TypeNode::Result { ok: None, .. } => "result<_, ",
        TypeNode::Result { .. } => "result<",
        _ => "tuple<",
    }
}

impl<'a> Writer<'a> {
    /// The name of a type in a scope, if it has one; a number, a text and the like have none.
    fn name_in(
        &mut self,
        scope: &Scope,
        node: &TypeNode,
        used: Used,
    ) -> Result<Option<Name>, ShowFault> {
        if primitive_word(node).is_some() {
            return Ok(None);
        }
        let keys = self.keys(used)?;
        Ok(scope.type_name(keys))
    }

    /// Gives a type that is to be used in a scope a name there, if it has to have one, and what it
    /// holds too; answers of how many nodes it is written then.
    #[cycle(prepare)]
    pub(crate) fn prepare(&mut self, scope: &mut Scope, used: Used) -> Result<usize, ShowFault> {
        let Some(node) = self.node(used.place) else {
            return Ok(1);
        };
        if primitive_word(node).is_some() || self.is_known(scope, node, used)? {
            return Ok(1);
        }
        let nodes = self.prepare_parts(scope, used)?;
        if nodes <= MAX_SPELLED && !is_declared(node) {
            return Ok(nodes);
        }
        let name = self.make_name();
        self.declare(scope, name, used)?;
        Ok(1)
    }

    /// Gives what a type holds names in a scope, and answers of how many nodes it is written then.
    #[cycle(prepare)]
    pub(crate) fn prepare_parts(
        &mut self,
        scope: &mut Scope,
        used: Used,
    ) -> Result<usize, ShowFault> {
        let mut nodes: usize = 1;
        for part in self.parts(used.place) {
            if *part < used.place {
                let more = self.prepare(scope, used.at(*part))?;
                nodes = nodes.saturating_add(more);
            }
        }
        Ok(nodes)
    }

    /// Whether a type has a name in a scope, or is brought there by one, or is a handle of a
    /// resource, which then has a name.
    fn is_known(
        &mut self,
        scope: &mut Scope,
        node: &TypeNode,
        used: Used,
    ) -> Result<bool, ShowFault> {
        let keys = self.keys(used)?;
        if scope.type_name(keys).is_some() || self.bring_type(scope, node, keys)? {
            return Ok(true);
        }
        match node {
            TypeNode::Own(id) | TypeNode::Borrow(id) => {
                self.prepare_resource(scope, used.resource(*id))?;
                Ok(true)
            }
            _ => Ok(false),
        }
    }

    /// Brings a type that was declared elsewhere, if it was, or a type that is equal to one that
    /// WIT only writes where it is declared.
    fn bring_type(
        &mut self,
        scope: &mut Scope,
        node: &TypeNode,
        keys: TypeKeys,
    ) -> Result<bool, ShowFault> {
        if self.bring(scope, keys.own)? {
            return Ok(true);
        }
        Ok(is_declared(node) && self.bring(scope, keys.equal)?)
    }

    /// Gives the resource of a handle a name in a scope.
    pub(crate) fn prepare_handle(
        &mut self,
        scope: &mut Scope,
        used: Used,
    ) -> Result<(), ShowFault> {
        match self.node(used.place) {
            Some(TypeNode::Own(id) | TypeNode::Borrow(id)) => {
                self.prepare_resource(scope, used.resource(*id))
            }
            _ => Ok(()),
        }
    }

    /// Gives a resource that is to be used in a scope a name there.
    fn prepare_resource(&mut self, scope: &mut Scope, number: u64) -> Result<(), ShowFault> {
        let key = Key::Resource(number);
        if scope.name(key).is_some() || self.bring(scope, key)? {
            return Ok(());
        }
        let name = self.make_name();
        self.settle(scope, key, name)?;
        self.book.put_all(&[scope.margin, "resource "])?;
        self.book.put_name(name)?;
        self.book.put(";\n")
    }

    /// Adds a type where it is used: its name, or itself where it has none.
    #[cycle(write)]
    pub(crate) fn write_used(&mut self, scope: &Scope, used: Used) -> Result<(), ShowFault> {
        match self.node(used.place) {
            None => Ok(()),
            Some(node) => match self.name_in(scope, node, used)? {
                Some(name) => self.book.put_name(name),
                None => self.write_spelled(scope, node, used),
            },
        }
    }

    /// Adds a type itself, as it is written where it is used.
    #[cycle(write)]
    fn write_spelled(
        &mut self,
        scope: &Scope,
        node: &TypeNode,
        used: Used,
    ) -> Result<(), ShowFault> {
        match node {
            TypeNode::Own(id) => self.write_resource(scope, used.resource(*id)),
            TypeNode::Borrow(id) => {
                self.book.put("borrow<")?;
                self.write_resource(scope, used.resource(*id))?;
                self.book.put(">")
            }
            _ => match primitive_word(node) {
                Some(word) => self.book.put(word),
                None => self.write_parts(scope, node, used),
            },
        }
    }

    /// Adds a type that holds others.
    #[cycle(write)]
    fn write_parts(&mut self, scope: &Scope, node: &TypeNode, used: Used) -> Result<(), ShowFault> {
        let parts = self.parts(used.place);
        for (index, part) in parts.iter().enumerate() {
            if *part < used.place {
                self.book.put(text_before(node, index))?;
                self.write_used(scope, used.at(*part))?;
            }
        }
        self.end_parts(node, parts.is_empty())
    }

    /// Adds what stands behind the parts of a type that holds others.
    fn end_parts(&mut self, node: &TypeNode, is_empty: bool) -> Result<(), ShowFault> {
        if let TypeNode::FixedList { length, .. } = node {
            self.book.put(", ")?;
            self.book.put_number(*length as usize)?;
        }
        // Of what is used without a declaration only a result may hold nothing.
        self.book.put(if is_empty { "result" } else { ">" })
    }

    /// Adds the name of a resource.
    fn write_resource(&mut self, scope: &Scope, number: u64) -> Result<(), ShowFault> {
        match scope.name(Key::Resource(number)) {
            Some(name) => self.book.put_name(name),
            None => self.book.put_number(number as usize),
        }
    }

    /// Declares a type under a name, where what it holds has names.
    pub(crate) fn declare(
        &mut self,
        scope: &mut Scope,
        name: Name,
        used: Used,
    ) -> Result<(), ShowFault> {
        let Some(node) = self.node(used.place) else {
            return Ok(());
        };
        match node {
            TypeNode::Record(fields) => {
                self.begin_block(scope, "record ", name)?;
                self.write_fields(scope, fields, used)?;
                self.book.put(" }\n")?;
            }
            TypeNode::Variant(cases) => {
                self.begin_block(scope, "variant ", name)?;
                self.write_cases(scope, cases, used)?;
                self.book.put(" }\n")?;
            }
            TypeNode::Enum(labels) => self.write_labels(scope, "enum ", name, labels)?,
            TypeNode::Flags(labels) => self.write_labels(scope, "flags ", name, labels)?,
            _ => self.write_alias(scope, node, name, used)?,
        }
        if primitive_word(node).is_some() {
            return Ok(());
        }
        let keys = self.keys(used)?;
        self.settle_type(scope, keys, name)
    }

    fn begin_line(&mut self, scope: &Scope, word: &str, name: Name) -> Result<(), ShowFault> {
        self.book.put(scope.margin)?;
        self.book.put(word)?;
        self.book.put_name(name)
    }

    fn begin_block(&mut self, scope: &Scope, word: &str, name: Name) -> Result<(), ShowFault> {
        self.begin_line(scope, word, name)?;
        self.book.put(" { ")
    }

    /// Declares a type that WIT writes where it is used.
    fn write_alias(
        &mut self,
        scope: &Scope,
        node: &TypeNode,
        name: Name,
        used: Used,
    ) -> Result<(), ShowFault> {
        self.begin_line(scope, "type ", name)?;
        self.book.put(" = ")?;
        self.write_spelled(scope, node, used)?;
        self.book.put(";\n")
    }

    /// Declares that a name is another one's in the same scope.
    pub(crate) fn write_other_name(
        &mut self,
        scope: &Scope,
        name: Name,
        first: Name,
    ) -> Result<(), ShowFault> {
        self.begin_line(scope, "type ", name)?;
        self.book.put(" = ")?;
        self.book.put_name(first)?;
        self.book.put(";\n")
    }

    fn write_fields(
        &mut self,
        scope: &Scope,
        fields: &[Field],
        used: Used,
    ) -> Result<(), ShowFault> {
        let parts = self.parts(used.place);
        for (index, (field, part)) in fields.iter().zip(parts).enumerate() {
            self.book.separate(index)?;
            self.write_field(scope, field, used.at(*part))?;
        }
        Ok(())
    }

    /// Adds a label with its type.
    pub(crate) fn write_field(
        &mut self,
        scope: &Scope,
        field: &Field,
        used: Used,
    ) -> Result<(), ShowFault> {
        self.book.put_label(field.label.as_str())?;
        self.book.put(": ")?;
        self.write_used(scope, used)
    }

    fn write_cases(&mut self, scope: &Scope, cases: &[Case], used: Used) -> Result<(), ShowFault> {
        let mut payloads = self.parts(used.place).iter();
        for (index, case) in cases.iter().enumerate() {
            self.book.separate(index)?;
            self.book.put_label(case.label.as_str())?;
            if case.payload.is_some() {
                if let Some(part) = payloads.next() {
                    self.write_payload(scope, used.at(*part))?;
                }
            }
        }
        Ok(())
    }

    fn write_payload(&mut self, scope: &Scope, used: Used) -> Result<(), ShowFault> {
        self.book.put("(")?;
        self.write_used(scope, used)?;
        self.book.put(")")
    }

    fn write_labels(
        &mut self,
        scope: &Scope,
        word: &str,
        name: Name,
        labels: &[Label],
    ) -> Result<(), ShowFault> {
        self.begin_block(scope, word, name)?;
        for (index, label) in labels.iter().enumerate() {
            self.book.separate(index)?;
            self.book.put_label(label.as_str())?;
        }
        self.book.put(" }\n")
    }
}
