//! Types as a component file writes them: a part that is a type of its own stands as an index
//! (Binary.md, "Type Definitions"). Indices count from 0 in the index space of types.

use crate::{ExternName, Label};

/// A value type that has no parts (Binary.md, `primvaltype`).
#[derive(Clone, Copy, Debug, PartialEq, Eq)]
pub enum PrimValType {
    Bool,
    S8,
    U8,
    S16,
    U16,
    S32,
    U32,
    S64,
    U64,
    Char,
    String,
}

/// A value type where it is used (Binary.md, `valtype`).
#[derive(Clone, Copy, Debug, PartialEq, Eq)]
pub enum ValType {
    Primitive(PrimValType),
    /// The type with this index.
    Index(u32),
}

/// A parameter of a function or a field of a record: its label and its type (Binary.md,
/// `labelvaltype`).
#[derive(Drop)]
pub struct LabeledValType {
    pub label: Label,
    pub ty: ValType,
}

/// A case of a variant: its label, and the type of its payload, if it carries one (Binary.md,
/// `case`).
#[derive(Drop)]
pub struct CaseType {
    pub label: Label,
    pub payload: Option<ValType>,
}

/// A value type that is defined (Binary.md, `defvaltype`).
#[derive(Drop)]
pub enum DefValType {
    Primitive(PrimValType),
    Record(Vec<LabeledValType>),
    Variant(Vec<CaseType>),
    List(ValType),
    /// A list of exactly `length` elements.
    FixedList {
        element: ValType,
        length: u32,
    },
    Tuple(Vec<ValType>),
    /// The labels of its flags.
    Flags(Vec<Label>),
    /// The labels of its cases.
    Enum(Vec<Label>),
    Option(ValType),
    Result {
        ok: Option<ValType>,
        error: Option<ValType>,
    },
    /// An owned handle of the resource type with this index.
    Own(u32),
    /// A borrowed handle of the resource type with this index.
    Borrow(u32),
}

/// The type of a function: its parameters in order, and its result, if it has one (Binary.md,
/// `functype`).
#[derive(Drop)]
pub struct FuncType {
    pub params: Vec<LabeledValType>,
    pub result: Option<ValType>,
}

/// A type definition (Binary.md, `deftype`).
#[derive(Drop)]
pub enum DefType {
    Value(DefValType),
    Func(FuncType),
    /// A resource type, with the index of the core function that is its destructor, if it has one.
    Resource(Option<u32>),
    /// The type of an instance, by what it declares.
    Instance(Vec<Declaration>),
}

/// What the type of an instance declares (Binary.md, `instancedecl`). Indices in it count from 0 in
/// the index space of its own types.
#[derive(Drop)]
pub enum Declaration {
    Type(DeclaredType),
    /// A type of a component around.
    OuterType(OuterType),
    /// What an instance of the type exports.
    Export(ExportDecl),
}

/// A type that the type of an instance declares (Binary.md, `type`). Types do not nest further.
#[derive(Drop)]
pub enum DeclaredType {
    Value(DefValType),
    Func(FuncType),
}

/// A type of a component around: how many components outwards, from 0 for the one where the alias
/// stands, and the type there (Binary.md, `aliastarget`).
#[derive(Clone, Copy)]
pub struct OuterType {
    pub count: u32,
    pub index: u32,
}

/// An export of the instances of a type (Binary.md, `exportdecl`).
#[derive(Drop)]
pub struct ExportDecl {
    pub name: ExternName,
    pub desc: ExportDesc,
}

/// What is exported (Binary.md, `externdesc`).
#[derive(Clone, Copy)]
pub enum ExportDesc {
    /// A function of the type with this index.
    Func(u32),
    Type(TypeBound),
}

/// What is known of a type that is exported (Binary.md, `typebound`).
#[derive(Clone, Copy)]
pub enum TypeBound {
    /// It is the type with this index.
    Equal(u32),
    /// It is a resource type of its own.
    SubResource,
}
