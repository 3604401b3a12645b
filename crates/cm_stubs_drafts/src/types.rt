//! Types of arenas, written as definitions of a file: each once, behind those of its parts.

ghost use Rattle.std.specs.Prelude.{◌<◌, length};
ghost use Rattle.cm_types_arena.specs.Places.{types_of};

use crate::draft::Draft;
use crate::fault::DraftFault;
use crate::handles::{Handles, ResourceKey};
use crate::lists::put;
use cm_types::{
    Case, CaseType, DefValType, Field, FuncType, Label, LabeledValType, MAX_NODES, PrimValType,
    ResourceId, TypeNode, ValType,
};
use cm_types_arena::{Move, Placed, Types, moved_resource};
use std::alloc::{AllocError, Global};
use std::collections::{BTreeMap, BTreeSet};

/// A type, or the type of a function, of what is asked: of which list, from 0, at which place of
/// its arena, and the two moves of its resources, one behind the other. A type with no handle has
/// no moves.
#[derive(Clone, Copy, PartialEq, Eq, PartialOrd, Ord)]
pub struct TypeKey {
    pub of: usize,
    pub place: usize,
    pub first: Option<Move>,
    pub second: Option<Move>,
}

impl TypeKey {
    /// What stands at a place of a list's arena, where the import of an instance moves it too.
    pub fn new(of: usize, placed: Placed, by: Option<Move>) -> TypeKey {
        TypeKey {
            of,
            place: placed.place,
            first: placed.by,
            second: by,
        }
    }

    /// The type at another place, with the same moves.
    fn at(self, types: &Types, place: usize) -> TypeKey {
        let has_handle = place < types.len() && types.summary(place).holds_handle;
        TypeKey {
            of: self.of,
            place,
            first: if has_handle { self.first } else { None },
            second: if has_handle { self.second } else { None },
        }
    }

    /// The type at another place, with these moves whether it has a handle or not.
    fn part(self, place: usize) -> TypeKey {
        TypeKey { place, ..self }
    }

    /// A resource of the type, as what is asked numbers it.
    fn resource(self, id: ResourceId) -> ResourceKey {
        let moved = moved_resource(self.second, moved_resource(self.first, id));
        ResourceKey {
            of: self.of,
            number: moved.number,
        }
    }
}

/// The value type that has no parts, if it is one.
fn primitive(node: &TypeNode) -> Option<PrimValType> {
    match node {
        TypeNode::Bool => Some(PrimValType::Bool),
        TypeNode::S8 => Some(PrimValType::S8),
        TypeNode::U8 => Some(PrimValType::U8),
        TypeNode::S16 => Some(PrimValType::S16),
        TypeNode::U16 => Some(PrimValType::U16),
        TypeNode::S32 => Some(PrimValType::S32),
        TypeNode::U32 => Some(PrimValType::U32),
        TypeNode::S64 => Some(PrimValType::S64),
        TypeNode::U64 => Some(PrimValType::U64),
        TypeNode::Char => Some(PrimValType::Char),
        TypeNode::String => Some(PrimValType::String),
        _ => None,
    }
}

/// Fields, or parameters, with these types.
fn labeled(
    alloc: Global,
    fields: &[Field],
    parts: &[ValType],
) -> Result<Vec<LabeledValType>, AllocError> {
    let mut labeled = Vec::with_capacity(alloc, parts.len())?;
    for (field, ty) in fields.iter().zip(parts) {
        let label = field.label.clone()?;
        put(&mut labeled, LabeledValType { label, ty: *ty })?;
    }
    Ok(labeled)
}

/// Cases whose payloads have these types, in order.
fn cases_of(
    alloc: Global,
    cases: &[Case],
    payloads: &[ValType],
) -> Result<Vec<CaseType>, AllocError> {
    let mut written = Vec::with_capacity(alloc, cases.len())?;
    let mut left = payloads.iter();
    for case in cases {
        let label = case.label.clone()?;
        let payload = match case.payload {
            Some(_) => left.next().copied(),
            None => None,
        };
        put(&mut written, CaseType { label, payload })?;
    }
    Ok(written)
}

/// These labels, shared.
fn labels_of(alloc: Global, labels: &[Label]) -> Result<Vec<Label>, AllocError> {
    let mut copies = Vec::with_capacity(alloc, labels.len())?;
    for label in labels {
        put(&mut copies, label.clone()?)?;
    }
    Ok(copies)
}

/// The definition of a type that has parts of these types, and of whose resources this is one.
fn definition(
    alloc: Global,
    node: &TypeNode,
    parts: &[ValType],
    resource: u32,
) -> Result<DefValType, DraftFault> {
    let first = parts.first().copied();
    let only = first.unwrap_or(ValType::Primitive(PrimValType::Bool));
    Ok(match node {
        TypeNode::List(_) => DefValType::List(only),
        TypeNode::FixedList { length, .. } => DefValType::FixedList {
            element: only,
            length: *length,
        },
        TypeNode::Option(_) => DefValType::Option(only),
        TypeNode::Record(fields) => DefValType::Record(labeled(alloc, fields, parts)?),
        TypeNode::Tuple(_) => DefValType::Tuple(parts.to_vec(alloc)?),
        TypeNode::Variant(cases) => DefValType::Variant(cases_of(alloc, cases, parts)?),
        TypeNode::Enum(labels) => DefValType::Enum(labels_of(alloc, labels)?),
        TypeNode::Flags(labels) => DefValType::Flags(labels_of(alloc, labels)?),
        TypeNode::Result { ok, error } => DefValType::Result {
            ok: if ok.is_some() { first } else { None },
            error: if error.is_some() {
                parts.last().copied()
            } else {
                None
            },
        },
        TypeNode::Own(_) => DefValType::Own(resource),
        TypeNode::Borrow(_) => DefValType::Borrow(resource),
        _ => DefValType::Primitive(primitive(node).unwrap_or(PrimValType::Bool)),
    })
}

/// The definitions that were written, by what they define.
#[derive(Drop)]
pub struct Written {
    alloc: Global,
    values: BTreeMap<TypeKey, u32>,
    funcs: BTreeMap<TypeKey, u32>,
}

impl Written {
    /// No definitions.
    pub fn new(alloc: Global) -> Written {
        Written {
            alloc,
            values: BTreeMap::new(alloc),
            funcs: BTreeMap::new(alloc),
        }
    }

    /// The index of a type that is written, or of no parts, where it is used.
    fn used(&self, types: &Types, key: TypeKey) -> ValType {
        if key.place < types.len() {
            if let Some(primitive) = primitive(types.node(key.place)) {
                return ValType::Primitive(primitive);
            }
        }
        match self.values.get(&key) {
            Some(index) => ValType::Index(*index),
            None => ValType::Primitive(PrimValType::Bool),
        }
    }

    /// The types at places with the moves of a type, where they are used.
    fn all_used(
        &self,
        types: &Types,
        of: TypeKey,
        places: &[usize],
    ) -> Result<Vec<ValType>, AllocError> {
        let mut all = Vec::with_capacity(self.alloc, places.len())?;
        for place in places {
            all.push(self.used(types, of.at(types, *place)))?;
        }
        Ok(all)
    }

    /// Whether the type itself, or what it holds at this place, has to be written and is not yet.
    fn is_missing(&self, types: &Types, key: TypeKey, place: usize) -> bool
        requires { place < length (types_of types.now) }
    {
        (place == key.place || primitive(types.node(place)).is_none())
            && !self.values.contains_key(&key.at(types, place))
    }

    /// The places of the parts of a type, however deep, that are not written yet, and its own.
    fn missing(&self, types: &Types, key: TypeKey) -> Result<BTreeSet<usize>, AllocError> {
        let mut missing = BTreeSet::new(self.alloc);
        let mut found = vec![in self.alloc; key.place]?;
        // What a type holds is found at most once for each of its nodes.
        for _node in 0..MAX_NODES {
            let Some(place) = found.pop() else {
                return Ok(missing);
            };
            if place < types.len() && self.is_missing(types, key, place) && missing.insert(place)? {
                found.extend_from_slice(types.parts(place))?;
            }
        }
        Ok(missing)
    }
}

/// What writes types: the draft that they are written to, and the indices of resources and types.
#[derive(Drop)]
pub struct Writer {
    pub draft: Draft,
    pub handles: Handles,
    pub written: Written,
}

impl Writer {
    /// Nothing is written.
    pub fn new(alloc: Global) -> Writer {
        Writer {
            draft: Draft::new(alloc),
            handles: Handles::new(alloc),
            written: Written::new(alloc),
        }
    }

    /// Begins to declare the type of an instance: what is declared in it is its own.
    pub fn begin_instance(&mut self) {
        self.written = Written::new(self.draft.alloc());
        self.draft.begin_instance();
    }

    /// Ends the type of the instance that is declared, and answers its index.
    pub fn end_instance(&mut self) -> Result<u32, DraftFault> {
        self.written = Written::new(self.draft.alloc());
        self.handles.end_instance();
        self.draft.end_instance()
    }

    /// The index of the resource whose handles a type holds itself, or 0.
    fn resource_of(&mut self, key: TypeKey, node: &TypeNode) -> Result<u32, DraftFault> {
        match node {
            TypeNode::Own(id) | TypeNode::Borrow(id) => {
                self.handles.index(&mut self.draft, key.resource(*id))
            }
            _ => Ok(0),
        }
    }

    /// Writes the definition of a type whose parts are written.
    fn define(&mut self, types: &Types, key: TypeKey) -> Result<(), DraftFault> {
        if key.place >= types.len() {
            return Ok(());
        }
        let alloc = self.draft.alloc();
        let node = types.node(key.place);
        let resource = self.resource_of(key, node)?;
        let parts = self.written.all_used(types, key, types.parts(key.place))?;
        let def = definition(alloc, node, &parts, resource)?;
        let index = self.draft.value_type(def)?;
        self.written.values.insert(key, index)?;
        Ok(())
    }

    /// The index of a type, which is written where it was not, behind what it holds.
    pub fn type_index(&mut self, types: &Types, key: TypeKey) -> Result<u32, DraftFault> {
        let key = key.at(types, key.place);
        if let Some(index) = self.written.values.get(&key) {
            return Ok(*index);
        }
        let missing = self.written.missing(types, key)?;
        for place in &missing {
            self.define(types, key.at(types, *place))?;
        }
        self.written
            .values
            .get(&key)
            .copied()
            .ok_or(DraftFault::NoResource)
    }

    /// The type has another index from now on: the one of its name.
    pub fn rename(&mut self, types: &Types, key: TypeKey, index: u32) -> Result<(), DraftFault> {
        self.written.values.insert(key.at(types, key.place), index)?;
        Ok(())
    }

    /// A type where it is used, which is written where it was not.
    fn val_type(&mut self, types: &Types, key: TypeKey) -> Result<ValType, DraftFault> {
        if key.place < types.len() && primitive(types.node(key.place)).is_none() {
            return Ok(ValType::Index(self.type_index(types, key)?));
        }
        Ok(self.written.used(types, key))
    }

    /// The types of the parameters of a function, where they are used.
    fn param_types(
        &mut self,
        types: &Types,
        func: TypeKey,
        places: &[usize],
    ) -> Result<Vec<ValType>, DraftFault> {
        let mut all = Vec::with_capacity(self.draft.alloc(), places.len())?;
        for place in places {
            all.push(self.val_type(types, func.part(*place))?)?;
        }
        Ok(all)
    }

    /// The index of the type of a function, which is written where it was not, behind what it
    /// holds.
    pub fn func_index(&mut self, types: &Types, key: TypeKey) -> Result<u32, DraftFault> {
        if let Some(index) = self.written.funcs.get(&key) {
            return Ok(*index);
        }
        if key.place >= types.func_count() {
            return Err(DraftFault::NoResource);
        }
        let params = self.param_types(types, key, types.func_params(key.place))?;
        let answer = match types.func_result(key.place) {
            Some(place) => Some(self.val_type(types, key.part(place))?),
            None => None,
        };
        let fields = &types.func(key.place).params;
        let def = FuncType {
            params: labeled(self.draft.alloc(), fields, &params)?,
            result: answer,
        };
        let index = self.draft.func_type(def)?;
        self.written.funcs.insert(key, index)?;
        Ok(index)
    }
}
