//! Types.

ghost use Rattle.std.specs.Prelude.{◌≡◌, ◌≤◌, ℕ, List, length, map, true};
ghost use Rattle.std.specs.List.{sum_by};
ghost use Rattle.cm_leb.specs.NumbersWritten.{shortest_unsigned};
ghost use Rattle.cm_binary_grammar.specs.Spelling.{blob_spelling};
ghost use Rattle.cm_types.specs.DefTypes.{def_val_type_tree, func_type_tree, def_type_tree};
ghost use Rattle.cm_types.specs.DefTypes.{declared_type_tree, DeclarationTree, declaration_tree};
ghost use Rattle.cm_types.specs.DefTypes.{DefTypeTree};
ghost use Rattle.cm_types.specs.declared.def_types.ValType.{ValType};
ghost use Rattle.cm_types.specs.declared.def_types.LabeledValType.{LabeledValType};
ghost use Rattle.cm_types.specs.declared.def_types.CaseType.{CaseType};
ghost use Rattle.cm_binary_model.specs.Spelling.{optional_spelling, val_type_spelling};
ghost use Rattle.cm_binary_model.specs.Spelling.{param_spelling, case_spelling};
ghost use Rattle.cm_binary_model.specs.Spelling.{def_val_type_parts, result_spelling};
ghost use Rattle.cm_binary_model.specs.Spelling.{func_spelling, declared_type_spelling};
ghost use Rattle.cm_binary_model.specs.Spelling.{type_bound_spelling, export_desc_spelling};
ghost use Rattle.cm_binary_model.specs.Spelling.{export_decl_spelling, declaration_spelling};
ghost use Rattle.cm_binary_model.specs.Spelling.{def_spelling};
ghost use Rattle.cm_binary_model.specs.Limits.{types_in_declaration, types_in_def};
ghost use Rattle.cm_binary_model.specs.Parts.{holds_optional, holds_label, holds_val_type};
ghost use Rattle.cm_binary_model.specs.Parts.{holds_param, holds_case, holds_def_val_type};
ghost use Rattle.cm_binary_model.specs.Parts.{holds_func, holds_declared_type, holds_type_bound};
ghost use Rattle.cm_binary_model.specs.Parts.{holds_export_desc, holds_export_decl};
ghost use Rattle.cm_binary_model.specs.Parts.{holds_declaration, holds_def, is_index};
ghost use Rattle.cm_binary_model.specs.Measures.{saturate};

use crate::aliases::outer_type_length;
use crate::measuring::{extern_name_length, index_length, label_length, signed_index_length};
use crate::part::{Part, length_of_vec};
use cm_types::{
    CaseType, Declaration, DeclaredType, DefType, DefValType, ExportDecl, ExportDesc, FuncType,
    Label, LabeledValType, TypeBound, ValType,
};

/// The length of a value type, at most 5.
fn val_type_length(ty: ValType) -> u64
    ensures length { result ≡ length (val_type_spelling ty) }
    ensures few { result ≤ 5 }
    ensures holds { holds_val_type ty ≡ true }
{
    match ty {
        ValType::Primitive(_) => 1,
        ValType::Index(index) => signed_index_length(index),
    }
}

/// The length of a value type that may be there, at most 6.
fn optional_val_type_length(ty: Option<ValType>) -> u64
    ensures length { result ≡ length (optional_spelling val_type_spelling ty) }
    ensures few { result ≤ 6 }
    ensures holds { holds_optional holds_val_type ty ≡ true }
{
    match ty {
        Some(ty) => 1 + val_type_length(ty),
        None => 1,
    }
}

/// The length of the result of a function, at most 6.
fn result_length(result_type: Option<ValType>) -> u64
    ensures length { result ≡ length (result_spelling result_type) }
    ensures few { result ≤ 6 }
    ensures holds { holds_optional holds_val_type result_type ≡ true }
{
    match result_type {
        Some(ty) => 1 + val_type_length(ty),
        None => 2,
    }
}

/// The length of a resource's destructor or that it has none, at most 6.
fn destructor_length(destructor: Option<u32>) -> u64
    ensures length { result ≡ length (optional_spelling shortest_unsigned destructor) }
    ensures few { result ≤ 6 }
    ensures holds { holds_optional is_index destructor ≡ true }
{
    match destructor {
        Some(func) => 1 + index_length(func),
        None => 1,
    }
}

fn func_length(func: &FuncType) -> u64
    ensures length { result ≡ saturate (length (func_spelling (func_type_tree func.now))) }
    ensures holds { holds_func (func_type_tree func.now) ≡ true }
{
    length_of_vec(&func.params).saturating_add(result_length(func.result))
}

/// The length of a value type that is defined, behind its code.
fn def_val_type_parts_length(def: &DefValType) -> u64
    ensures length { result ≡ saturate (length (def_val_type_parts (def_val_type_tree def.now))) }
    ensures holds { holds_def_val_type (def_val_type_tree def.now) ≡ true }
{
    match def {
        DefValType::Primitive(_) => 0,
        DefValType::Record(fields) => length_of_vec(fields),
        DefValType::Variant(cases) => length_of_vec(cases),
        DefValType::List(element) | DefValType::Option(element) => val_type_length(*element),
        DefValType::FixedList { element, length } => {
            val_type_length(*element) + index_length(*length)
        }
        DefValType::Tuple(parts) => length_of_vec(parts),
        DefValType::Flags(labels) | DefValType::Enum(labels) => length_of_vec(labels),
        DefValType::Result { ok, error } => {
            optional_val_type_length(*ok) + optional_val_type_length(*error)
        }
        DefValType::Own(resource) | DefValType::Borrow(resource) => index_length(*resource),
    }
}

fn declared_type_length(ty: &DeclaredType) -> u64
    ensures length { result
        ≡ saturate (length (declared_type_spelling (declared_type_tree ty.now))) }
    ensures holds { holds_declared_type (declared_type_tree ty.now) ≡ true }
{
    match ty {
        DeclaredType::Value(value) => def_val_type_parts_length(value).saturating_add(1),
        DeclaredType::Func(func) => func_length(func).saturating_add(1),
    }
}

/// The length of what is known of a type, at most 6.
fn type_bound_length(bound: TypeBound) -> u64
    ensures length { result ≡ length (type_bound_spelling bound) }
    ensures few { result ≤ 6 }
    ensures holds { holds_type_bound bound ≡ true }
{
    match bound {
        TypeBound::Equal(ty) => 1 + index_length(ty),
        TypeBound::SubResource => 1,
    }
}

/// The length of what the instances of a type export, at most 7.
fn export_desc_length(desc: ExportDesc) -> u64
    ensures length { result ≡ length (export_desc_spelling desc) }
    ensures few { result ≤ 7 }
    ensures holds { holds_export_desc desc ≡ true }
{
    match desc {
        ExportDesc::Func(ty) => 1 + index_length(ty),
        ExportDesc::Type(bound) => 1 + type_bound_length(bound),
    }
}

fn export_decl_length(export: &ExportDecl) -> u64
    ensures length { result ≡ saturate (length (export_decl_spelling export.now)) }
    ensures holds { holds_export_decl export.now ≡ true }
{
    extern_name_length(&export.name).saturating_add(export_desc_length(export.desc))
}

impl Part for Label {
    ghost Tree = { List ℕ };

    ghost tree = { λ l. l };

    ghost spelling = { blob_spelling };

    ghost holds = { holds_label };

    fn length(&self) -> u64 {
        label_length(self)
    }
}

impl Part for ValType {
    ghost Tree = { ValType };

    ghost tree = { λ t. t };

    ghost spelling = { val_type_spelling };

    ghost holds = { holds_val_type };

    fn length(&self) -> u64 {
        val_type_length(*self)
    }
}

impl Part for LabeledValType {
    ghost Tree = { LabeledValType };

    ghost tree = { λ p. p };

    ghost spelling = { param_spelling };

    ghost holds = { holds_param };

    fn length(&self) -> u64 {
        label_length(&self.label).saturating_add(val_type_length(self.ty))
    }
}

impl Part for CaseType {
    ghost Tree = { CaseType };

    ghost tree = { λ c. c };

    ghost spelling = { case_spelling };

    ghost holds = { holds_case };

    fn length(&self) -> u64 {
        label_length(&self.label).saturating_add(optional_val_type_length(self.payload) + 1)
    }
}

impl Part for Declaration {
    ghost Tree = { DeclarationTree };

    ghost tree = { declaration_tree };

    ghost spelling = { declaration_spelling };

    ghost holds = { holds_declaration };

    fn length(&self) -> u64 {
        match self {
            Declaration::Type(ty) => declared_type_length(ty).saturating_add(1),
            Declaration::OuterType(outer) => 3 + outer_type_length(*outer),
            Declaration::Export(export) => export_decl_length(export).saturating_add(1),
        }
    }
}

impl Part for DefType {
    ghost Tree = { DefTypeTree };

    ghost tree = { def_type_tree };

    ghost spelling = { def_spelling };

    ghost holds = { holds_def };

    fn length(&self) -> u64 {
        match self {
            DefType::Value(value) => def_val_type_parts_length(value).saturating_add(1),
            DefType::Func(func) => func_length(func).saturating_add(1),
            DefType::Resource(destructor) => 2 + destructor_length(*destructor),
            DefType::Instance(declarations) => length_of_vec(declarations).saturating_add(1),
        }
    }
}

/// How many types a declaration takes of those that a file may have: 1 or none.
pub fn types_in_declaration(declaration: &Declaration) -> u64
    ensures { result ≡ types_in_declaration (declaration_tree declaration.now) }
{
    match declaration {
        Declaration::Type(_) => 1,
        Declaration::OuterType(_) | Declaration::Export(_) => 0,
    }
}

/// How many types these declarations take, or `u64::MAX` where it is more.
fn types_in_declarations(declarations: &[Declaration]) -> u64
    ensures { result
        ≡ saturate (sum_by types_in_declaration (map declaration_tree declarations.now)) }
{
    let mut total: u64 = 0;
    for declaration in declarations {
        total = total.saturating_add(types_in_declaration(declaration));
    }
    total
}

/// How many types a type definition takes of those that a file may have, or `u64::MAX` where it is
/// more.
pub fn types_in_def(def: &DefType) -> u64
    ensures { result ≡ saturate (types_in_def (def_type_tree def.now)) }
{
    match def {
        DefType::Value(_) | DefType::Func(_) | DefType::Resource(_) => 1,
        DefType::Instance(declarations) => types_in_declarations(declarations).saturating_add(1),
    }
}

/// How many types these type definitions take, or `u64::MAX` where it is more.
pub(crate) fn types_in_defs(defs: &[DefType]) -> u64
    ensures { result ≡ saturate (sum_by types_in_def (map def_type_tree defs.now)) }
{
    let mut total: u64 = 0;
    for def in defs {
        total = total.saturating_add(types_in_def(def));
    }
    total
}
