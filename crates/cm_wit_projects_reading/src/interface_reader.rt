//! Reading interfaces.

ghost use Rattle.std.specs.Prelude.{◌≡◌, map};
ghost use Rattle.cm_wit_tokens.specs.declared.operator.Operator.TheVariants as operator;
ghost use Rattle.cm_wit_tokens.specs.Exact.{Lawful};
ghost use Rattle.cm_wit_tokens.specs.Lists.{items, items_and};
ghost use Rattle.cm_wit_tokens.specs.Parts.{identifier};
ghost use Rattle.cm_wit_tokens.specs.Reading.{Reads};
ghost use Rattle.cm_wit_reading.specs.declared.heads.TypeHead.TheVariants as plain_is;
ghost use Rattle.cm_wit_reading.specs.Interfaces.{braced, def_rest, ended, func_rest, is_static};
ghost use Rattle.cm_wit_reading.specs.Interfaces.{more_flags};
ghost use Rattle.cm_wit_reading.specs.Signatures.{params};
ghost use Rattle.cm_wit_reading.specs.SignatureViews.{func_tree, typed_tree};
ghost use Rattle.cm_wit_reading.specs.Views.{type_def_tree, use_tree, used_name_tree};
ghost use Rattle.cm_wit_projects_reading.specs.Interfaces.{built, interface_items, interface_rest};
ghost use Rattle.cm_wit_projects_reading.specs.Interfaces.{item_rest, kept_func, method_rest};
ghost use Rattle.cm_wit_projects_reading.specs.Interfaces.{named_func, resource_rest, type_rest};
ghost use Rattle.cm_wit_projects_reading.specs.Interfaces.{use_rest, used_names};
ghost use Rattle.cm_wit_projects_reading.specs.LeftOut.{or_left_out};
ghost use Rattle.cm_wit_projects_reading.specs.Views.{gated_tree, interface_item_tree};
ghost use Rattle.cm_wit_projects_reading.specs.Views.{interface_tree, kept_tree};
ghost use Rattle.cm_wit_projects_reading.specs.Views.{resource_item_tree, type_item_tree};

use crate::gate_reader::read_gates;
use crate::gates::{Gated, Kept};
use crate::heads::{ItemHead, MethodHead, TypeHead, read_item_head, read_method_head};
use crate::interfaces::{Interface, InterfaceItem, ResourceItem, TypeItem};
use crate::left_out::{pass_left_out, place};
use cm_types::{Label, MAX_DEPTH, MAX_FLAGS};
use cm_wit_reading::{
    Func, ResourceFunc, TypeDef, Typed, Use, UsedName, read_func, read_params, read_path, read_type,
};
use cm_wit_tokens::{
    Cursor, Item, Keyword, Operator, ReadError, read_items, read_items_and, read_members,
};
use std::alloc::Global;

/// Reads the names that are used, where there are any.
#[tactic(auto, using(crate::proofs::InterfaceLaws::use_laws))]
fn read_used_names(alloc: Global, cursor: &mut Cursor) -> Result<Vec<UsedName>, ReadError>
    ensures { Reads used_names (λ v. map used_name_tree v.items) cursor.old cursor.new result }
{
    if cursor.next_is(Operator::RightBrace) {
        return Ok(Vec::new(alloc));
    }
    read_items(alloc, cursor, Operator::RightBrace)
}

/// Reads what stands behind `use`.
pub fn read_use(alloc: Global, cursor: &mut Cursor) -> Result<Use, ReadError>
    ensures { Reads use_rest use_tree cursor.old cursor.new result }
{
    let path = read_path(cursor)?;
    cursor.expect(Operator::Period)?;
    cursor.expect(Operator::LeftBrace)?;
    let names = read_used_names(alloc, cursor)?;
    cursor.expect(Operator::RightBrace)?;
    cursor.expect(Operator::Semicolon)?;
    Ok(Use { path, names })
}

/// Reads things behind commas in braces.
pub fn read_braced<T: Item>(alloc: Global, cursor: &mut Cursor) -> Result<Vec<T>, ReadError>
    requires { Lawful T.grammar }
    ensures { Reads (braced (items operator.RightBrace T.grammar)) (λ v. map T.tree v.items)
        cursor.old cursor.new result }
{
    cursor.expect(Operator::LeftBrace)?;
    let list = read_items(alloc, cursor, Operator::RightBrace)?;
    cursor.expect(Operator::RightBrace)?;
    Ok(list)
}

/// Reads names in braces, at most 32.
fn read_flags(alloc: Global, cursor: &mut Cursor) -> Result<Vec<Label>, ReadError>
    ensures { Reads (braced (items_and more_flags operator.RightBrace identifier))
        (λ v. v.items) cursor.old cursor.new result }
{
    cursor.expect(Operator::LeftBrace)?;
    let names = read_items_and(alloc, cursor, Operator::RightBrace, MAX_FLAGS - 1)?;
    cursor.expect(Operator::RightBrace)?;
    Ok(names)
}

/// Reads `func`, parameters, a result where there is one, and `;`.
fn read_func_rest(alloc: Global, cursor: &mut Cursor) -> Result<Func, ReadError>
    ensures { Reads func_rest func_tree cursor.old cursor.new result }
{
    cursor.expect_keyword(Keyword::Func)?;
    let func = read_func(alloc, cursor)?;
    cursor.expect(Operator::Semicolon)?;
    Ok(func)
}

/// Reads the same, or passes over what is left out.
#[tactic(auto, using(crate::proofs::LeftOutLaws::kept_laws))]
pub fn read_kept_func(alloc: Global, cursor: &mut Cursor) -> Result<Kept<Func>, ReadError>
    ensures { Reads kept_func (kept_tree func_tree) cursor.old cursor.new result }
{
    match read_func_rest(alloc, cursor) {
        Ok(func) => Ok(Kept::Read(func)),
        Err(fault) => Ok(Kept::LeftOut(pass_left_out(cursor, Operator::Semicolon, fault)?)),
    }
}

/// Reads parameters and `;`.
fn read_constructor(alloc: Global, cursor: &mut Cursor) -> Result<Vec<Typed>, ReadError>
    ensures { Reads (ended params) (λ v. map typed_tree v.items) cursor.old cursor.new result }
{
    let params = read_params(alloc, cursor)?;
    cursor.expect(Operator::Semicolon)?;
    Ok(params)
}

/// Reads the same, or passes over what is left out.
#[tactic(auto, using(crate::proofs::LeftOutLaws::kept_laws))]
fn read_kept_constructor(alloc: Global, cursor: &mut Cursor) -> Result<Kept<Vec<Typed>>, ReadError>
    ensures { Reads (or_left_out operator.Semicolon (ended params))
        (kept_tree (λ v. map typed_tree v.items)) cursor.old cursor.new result }
{
    match read_constructor(alloc, cursor) {
        Ok(params) => Ok(Kept::Read(params)),
        Err(fault) => Ok(Kept::LeftOut(pass_left_out(cursor, Operator::Semicolon, fault)?)),
    }
}

/// Reads `static`, where it stands.
fn read_static(cursor: &mut Cursor) -> Result<bool, ReadError>
    ensures { Reads is_static (λ x. x) cursor.old cursor.new result }
{
    if cursor.next_is_keyword(Keyword::Static) {
        cursor.expect_keyword(Keyword::Static)?;
        Ok(true)
    } else {
        Ok(false)
    }
}

/// A function of a resource with its name.
fn named_func(name: Label, is_static: bool, func: Kept<Func>) -> ResourceItem
    ensures { resource_item_tree result ≡ named_func name is_static (kept_tree func_tree func) }
{
    match func {
        Kept::Read(func) if is_static => ResourceItem::Read(ResourceFunc::Static(name, func)),
        Kept::Read(func) => ResourceItem::Read(ResourceFunc::Method(name, func)),
        Kept::LeftOut(left) => ResourceItem::LeftOut {
            name: Some(name),
            left,
        },
    }
}

/// A constructor with these parameters.
fn built(params: Kept<Vec<Typed>>) -> ResourceItem
    ensures { resource_item_tree result ≡ built (kept_tree (λ v. map typed_tree v.items) params) }
{
    match params {
        Kept::Read(params) => ResourceItem::Read(ResourceFunc::Constructor(params)),
        Kept::LeftOut(left) => ResourceItem::LeftOut { name: None, left },
    }
}

/// Reads a function of a resource behind its first token.
fn read_method(
    alloc: Global,
    cursor: &mut Cursor,
    head: MethodHead,
) -> Result<ResourceItem, ReadError>
    ensures { Reads (method_rest head) resource_item_tree cursor.old cursor.new result }
{
    match head {
        MethodHead::Constructor => Ok(built(read_kept_constructor(alloc, cursor)?)),
        MethodHead::Named(name) => {
            cursor.expect(Operator::Colon)?;
            let is_static = read_static(cursor)?;
            let func = read_kept_func(alloc, cursor)?;
            Ok(named_func(name, is_static, func))
        }
    }
}

impl Item for Gated<ResourceItem> {
    ghost use Rattle.cm_wit_projects_reading.specs.Gates.{gated};
    ghost use Rattle.cm_wit_projects_reading.specs.Interfaces.{resource_item};
    ghost use Rattle.cm_wit_projects_reading.specs.Trees as trees;
    ghost use Rattle.cm_wit_projects_reading.specs.Views.{gated_tree, resource_item_tree};

    ghost Tree = { trees.Gated trees.ResourceItem };

    ghost tree = { gated_tree resource_item_tree };

    ghost grammar = { gated (λ _. resource_item) };

    fn read(alloc: Global, cursor: &mut Cursor) -> Result<Gated<ResourceItem>, ReadError> {
        let gates = read_gates(alloc, cursor)?;
        let left = place(cursor);
        let head = read_method_head(cursor)?;
        let item = read_method(alloc, cursor, head)?;
        Ok(Gated { gates, left, item })
    }
}

/// Reads `;`, or the functions of a resource in braces.
#[tactic(auto, using(crate::proofs::InterfaceLaws::resource_item_laws))]
fn read_resource(alloc: Global, cursor: &mut Cursor) -> Result<Vec<Gated<ResourceItem>>, ReadError>
    ensures { Reads resource_rest (λ v. map (gated_tree resource_item_tree) v.items)
        cursor.old cursor.new result }
{
    if cursor.next_is(Operator::Semicolon) {
        cursor.expect(Operator::Semicolon)?;
        return Ok(Vec::new(alloc));
    }
    cursor.expect(Operator::LeftBrace)?;
    let functions = read_members(alloc, cursor)?;
    cursor.expect(Operator::RightBrace)?;
    Ok(functions)
}

/// Reads `=`, a type and `;`.
fn read_alias(alloc: Global, cursor: &mut Cursor) -> Result<TypeDef, ReadError>
    ensures { Reads (def_rest plain_is.Type) type_def_tree cursor.old cursor.new result }
{
    cursor.expect(Operator::Equals)?;
    let ty = read_type(alloc, cursor, true, MAX_DEPTH)?;
    cursor.expect(Operator::Semicolon)?;
    Ok(TypeDef::Alias(ty))
}

/// Reads the fields of a record in braces.
#[tactic(auto, using(crate::proofs::InterfaceLaws::def_laws))]
fn read_record(alloc: Global, cursor: &mut Cursor) -> Result<TypeDef, ReadError>
    ensures { Reads (def_rest plain_is.Record) type_def_tree cursor.old cursor.new result }
{
    Ok(TypeDef::Record(read_braced(alloc, cursor)?))
}

/// Reads the cases of a variant in braces.
#[tactic(auto, using(crate::proofs::InterfaceLaws::def_laws))]
fn read_variant(alloc: Global, cursor: &mut Cursor) -> Result<TypeDef, ReadError>
    ensures { Reads (def_rest plain_is.Variant) type_def_tree cursor.old cursor.new result }
{
    Ok(TypeDef::Variant(read_braced(alloc, cursor)?))
}

/// Reads `=`, a type and `;`, or passes over what is left out.
#[tactic(auto, using(crate::proofs::LeftOutLaws::kept_laws))]
fn read_kept_alias(alloc: Global, cursor: &mut Cursor) -> Result<Kept<TypeDef>, ReadError>
    ensures { Reads (or_left_out operator.Semicolon (def_rest plain_is.Type))
        (kept_tree type_def_tree) cursor.old cursor.new result }
{
    match read_alias(alloc, cursor) {
        Ok(def) => Ok(Kept::Read(def)),
        Err(fault) => Ok(Kept::LeftOut(pass_left_out(cursor, Operator::Semicolon, fault)?)),
    }
}

/// Reads the fields of a record, or passes over what is left out.
#[tactic(auto, using(crate::proofs::LeftOutLaws::kept_laws))]
fn read_kept_record(alloc: Global, cursor: &mut Cursor) -> Result<Kept<TypeDef>, ReadError>
    ensures { Reads (or_left_out operator.RightBrace (def_rest plain_is.Record))
        (kept_tree type_def_tree) cursor.old cursor.new result }
{
    match read_record(alloc, cursor) {
        Ok(def) => Ok(Kept::Read(def)),
        Err(fault) => Ok(Kept::LeftOut(pass_left_out(cursor, Operator::RightBrace, fault)?)),
    }
}

/// Reads the cases of a variant, or passes over what is left out.
#[tactic(auto, using(crate::proofs::LeftOutLaws::kept_laws))]
fn read_kept_variant(alloc: Global, cursor: &mut Cursor) -> Result<Kept<TypeDef>, ReadError>
    ensures { Reads (or_left_out operator.RightBrace (def_rest plain_is.Variant))
        (kept_tree type_def_tree) cursor.old cursor.new result }
{
    match read_variant(alloc, cursor) {
        Ok(def) => Ok(Kept::Read(def)),
        Err(fault) => Ok(Kept::LeftOut(pass_left_out(cursor, Operator::RightBrace, fault)?)),
    }
}

/// Reads what stands behind the name of a type, by the keyword before it.
#[tactic(auto, using(crate::proofs::InterfaceLaws::def_laws))]
pub fn read_type_item(
    alloc: Global,
    cursor: &mut Cursor,
    head: TypeHead,
) -> Result<TypeItem, ReadError>
    ensures { Reads (type_rest head) type_item_tree cursor.old cursor.new result }
{
    match head {
        TypeHead::Type => Ok(TypeItem::Def(read_kept_alias(alloc, cursor)?)),
        TypeHead::Record => Ok(TypeItem::Def(read_kept_record(alloc, cursor)?)),
        TypeHead::Variant => Ok(TypeItem::Def(read_kept_variant(alloc, cursor)?)),
        TypeHead::Enum => {
            let names = read_braced(alloc, cursor)?;
            Ok(TypeItem::Def(Kept::Read(TypeDef::Enum(names))))
        }
        TypeHead::Flags => {
            let names = read_flags(alloc, cursor)?;
            Ok(TypeItem::Def(Kept::Read(TypeDef::Flags(names))))
        }
        TypeHead::Resource => Ok(TypeItem::Resource(read_resource(alloc, cursor)?)),
    }
}

/// Reads an item of an interface behind its first token.
fn read_interface_item(
    alloc: Global,
    cursor: &mut Cursor,
    head: ItemHead,
) -> Result<InterfaceItem, ReadError>
    ensures { Reads (item_rest head) interface_item_tree cursor.old cursor.new result }
{
    match head {
        ItemHead::Use => Ok(InterfaceItem::Use(read_use(alloc, cursor)?)),
        ItemHead::Type(head) => {
            let name = cursor.identifier()?;
            Ok(InterfaceItem::Type(name, read_type_item(alloc, cursor, head)?))
        }
        ItemHead::Func(name) => {
            cursor.expect(Operator::Colon)?;
            Ok(InterfaceItem::Func(name, read_kept_func(alloc, cursor)?))
        }
    }
}

impl Item for Gated<InterfaceItem> {
    ghost use Rattle.cm_wit_projects_reading.specs.Gates.{gated};
    ghost use Rattle.cm_wit_projects_reading.specs.Interfaces.{interface_item};
    ghost use Rattle.cm_wit_projects_reading.specs.Trees as trees;
    ghost use Rattle.cm_wit_projects_reading.specs.Views.{gated_tree, interface_item_tree};

    ghost Tree = { trees.Gated trees.InterfaceItem };

    ghost tree = { gated_tree interface_item_tree };

    ghost grammar = { gated (λ _. interface_item) };

    fn read(alloc: Global, cursor: &mut Cursor) -> Result<Gated<InterfaceItem>, ReadError> {
        let gates = read_gates(alloc, cursor)?;
        let left = place(cursor);
        let head = read_item_head(cursor)?;
        let item = read_interface_item(alloc, cursor, head)?;
        Ok(Gated { gates, left, item })
    }
}

/// Reads the items of an interface in braces.
#[tactic(auto, using(crate::proofs::InterfaceLaws::interface_item_laws))]
pub fn read_interface_items(
    alloc: Global,
    cursor: &mut Cursor,
) -> Result<Vec<Gated<InterfaceItem>>, ReadError>
    ensures { Reads interface_items (λ v. map (gated_tree interface_item_tree) v.items)
        cursor.old cursor.new result }
{
    cursor.expect(Operator::LeftBrace)?;
    let items = read_members(alloc, cursor)?;
    cursor.expect(Operator::RightBrace)?;
    Ok(items)
}

/// Reads the name of an interface and its items in braces.
pub fn read_interface(alloc: Global, cursor: &mut Cursor) -> Result<Interface, ReadError>
    ensures { Reads interface_rest interface_tree cursor.old cursor.new result }
{
    let name = cursor.identifier()?;
    let items = read_interface_items(alloc, cursor)?;
    Ok(Interface { name, items })
}
