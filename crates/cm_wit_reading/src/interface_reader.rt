//! Reading interfaces.

ghost use Rattle.std.specs.Prelude.{◌≡◌, map};
ghost use Rattle.cm_wit_tokens.specs.declared.operator.Operator.TheVariants as operator;
ghost use Rattle.cm_wit_tokens.specs.Exact.{Lawful};
ghost use Rattle.cm_wit_tokens.specs.Lists.{items, items_and};
ghost use Rattle.cm_wit_tokens.specs.Parts.{identifier};
ghost use Rattle.cm_wit_tokens.specs.Reading.{Reads};
ghost use Rattle.cm_wit_reading.specs.Interfaces.{braced, case_type, def_rest, func_rest};
ghost use Rattle.cm_wit_reading.specs.Interfaces.{is_static};
ghost use Rattle.cm_wit_reading.specs.Interfaces.{interface_rest, item_rest, method_rest, new_name};
ghost use Rattle.cm_wit_reading.specs.Interfaces.{more_flags, resource_rest, use_rest};
ghost use Rattle.cm_wit_reading.specs.Views.{interface_item_tree, interface_tree};
ghost use Rattle.cm_wit_reading.specs.Views.{resource_func_tree, type_def_tree, use_tree};
ghost use Rattle.cm_wit_reading.specs.SignatureViews.{func_tree};
ghost use Rattle.cm_wit_reading.specs.TypeViews.{payload_tree};

use crate::heads::{ItemHead, MethodHead, TypeHead, read_item_head, read_method_head};
use crate::interfaces::{Case, Interface, InterfaceItem, ResourceFunc, TypeDef, Use, UsedName};
use crate::{Func, WitType, read_func, read_params, read_path, read_type};
use cm_types::{Label, MAX_DEPTH, MAX_FLAGS};
use cm_wit_tokens::{
    Cursor, Item, Keyword, Operator, ReadError, read_items, read_items_and, read_members,
};
use std::alloc::Global;

/// Reads `as` and a new name, where they stand.
fn read_new_name(cursor: &mut Cursor) -> Result<Option<Label>, ReadError>
    ensures { Reads new_name (λ x. x) cursor.old cursor.new result }
{
    if cursor.next_is_keyword(Keyword::As) {
        cursor.expect_keyword(Keyword::As)?;
        Ok(Some(cursor.identifier()?))
    } else {
        Ok(None)
    }
}

impl Item for UsedName {
    ghost use Rattle.cm_wit_reading.specs.Interfaces.{used_name};
    ghost use Rattle.cm_wit_reading.specs.Trees as trees;
    ghost use Rattle.cm_wit_reading.specs.Views.{used_name_tree};

    ghost Tree = { trees.UsedName };

    ghost tree = { used_name_tree };

    ghost grammar = { used_name };

    fn read(_alloc: Global, cursor: &mut Cursor) -> Result<UsedName, ReadError> {
        let name = cursor.identifier()?;
        let new_name = read_new_name(cursor)?;
        Ok(UsedName { name, new_name })
    }
}

/// Reads what stands behind `use`.
#[tactic(auto, using(crate::proofs::InterfaceLaws::used_name_lawful))]
fn read_use(alloc: Global, cursor: &mut Cursor) -> Result<Use, ReadError>
    ensures { Reads use_rest use_tree cursor.old cursor.new result }
{
    let path = read_path(cursor)?;
    cursor.expect(Operator::Period)?;
    cursor.expect(Operator::LeftBrace)?;
    let names = read_items(alloc, cursor, Operator::RightBrace)?;
    cursor.expect(Operator::RightBrace)?;
    cursor.expect(Operator::Semicolon)?;
    Ok(Use { path, names })
}

/// Reads the type of a case in parentheses, where it stands.
fn read_case_type(alloc: Global, cursor: &mut Cursor) -> Result<Option<Box<WitType>>, ReadError>
    ensures { Reads case_type payload_tree cursor.old cursor.new result }
{
    if !cursor.next_is(Operator::LeftParenthesis) {
        return Ok(None);
    }
    cursor.expect(Operator::LeftParenthesis)?;
    let ty = Box::new(alloc, read_type(alloc, cursor, true, MAX_DEPTH)?)?;
    cursor.expect(Operator::RightParenthesis)?;
    Ok(Some(ty))
}

impl Item for Case {
    ghost use Rattle.cm_wit_reading.specs.Interfaces.{case};
    ghost use Rattle.cm_wit_reading.specs.Trees as trees;
    ghost use Rattle.cm_wit_reading.specs.Views.{case_tree};

    ghost Tree = { trees.Case };

    ghost tree = { case_tree };

    ghost grammar = { case };

    fn read(alloc: Global, cursor: &mut Cursor) -> Result<Case, ReadError> {
        let name = cursor.identifier()?;
        let ty = read_case_type(alloc, cursor)?;
        Ok(Case { name, ty })
    }
}

/// Reads `func`, parameters, a result where there is one, and `;`.
fn read_func_rest(alloc: Global, cursor: &mut Cursor) -> Result<Func, ReadError>
    ensures { Reads func_rest func_tree cursor.old cursor.new result }
{
    cursor.expect_keyword(Keyword::Func)?;
    let func = read_func(alloc, cursor)?;
    cursor.expect(Operator::Semicolon)?;
    Ok(func)
}

/// Reads `static`, where it stands.
fn read_static(cursor: &mut Cursor) -> Result<bool, ReadError>
    ensures { Reads is_static (λ x. x) cursor.old cursor.new result }
{
    if cursor.next_is_keyword(Keyword::Static) {
        cursor.expect_keyword(Keyword::Static)?;
        Ok(true)
    } else {
        Ok(false)
    }
}

/// Reads a function of a resource behind its first token.
fn read_method(
    alloc: Global,
    cursor: &mut Cursor,
    head: MethodHead,
) -> Result<ResourceFunc, ReadError>
    ensures { Reads (method_rest head) resource_func_tree cursor.old cursor.new result }
{
    match head {
        MethodHead::Constructor => {
            let params = read_params(alloc, cursor)?;
            cursor.expect(Operator::Semicolon)?;
            Ok(ResourceFunc::Constructor(params))
        }
        MethodHead::Named(name) => {
            cursor.expect(Operator::Colon)?;
            if read_static(cursor)? {
                Ok(ResourceFunc::Static(name, read_func_rest(alloc, cursor)?))
            } else {
                Ok(ResourceFunc::Method(name, read_func_rest(alloc, cursor)?))
            }
        }
    }
}

impl Item for ResourceFunc {
    ghost use Rattle.cm_wit_reading.specs.Interfaces.{resource_func};
    ghost use Rattle.cm_wit_reading.specs.Trees as trees;
    ghost use Rattle.cm_wit_reading.specs.Views.{resource_func_tree};

    ghost Tree = { trees.ResourceFunc };

    ghost tree = { resource_func_tree };

    ghost grammar = { resource_func };

    fn read(alloc: Global, cursor: &mut Cursor) -> Result<ResourceFunc, ReadError> {
        let head = read_method_head(cursor)?;
        read_method(alloc, cursor, head)
    }
}

/// Reads `;`, or the functions of a resource in braces.
#[tactic(auto, using(crate::proofs::InterfaceLaws::resource_func_laws))]
fn read_resource(alloc: Global, cursor: &mut Cursor) -> Result<Vec<ResourceFunc>, ReadError>
    ensures { Reads resource_rest (λ v. map resource_func_tree v.items)
        cursor.old cursor.new result }
{
    if cursor.next_is(Operator::Semicolon) {
        cursor.expect(Operator::Semicolon)?;
        return Ok(Vec::new(alloc));
    }
    cursor.expect(Operator::LeftBrace)?;
    let functions = read_members(alloc, cursor)?;
    cursor.expect(Operator::RightBrace)?;
    Ok(functions)
}

/// Reads things behind commas in braces.
fn read_braced<T: Item>(alloc: Global, cursor: &mut Cursor) -> Result<Vec<T>, ReadError>
    requires { Lawful T.grammar }
    ensures { Reads (braced (items operator.RightBrace T.grammar)) (λ v. map T.tree v.items)
        cursor.old cursor.new result }
{
    cursor.expect(Operator::LeftBrace)?;
    let list = read_items(alloc, cursor, Operator::RightBrace)?;
    cursor.expect(Operator::RightBrace)?;
    Ok(list)
}

/// Reads names in braces, at most 32.
fn read_flags(alloc: Global, cursor: &mut Cursor) -> Result<Vec<Label>, ReadError>
    ensures { Reads (braced (items_and more_flags operator.RightBrace identifier))
        (λ v. v.items) cursor.old cursor.new result }
{
    cursor.expect(Operator::LeftBrace)?;
    let names = read_items_and(alloc, cursor, Operator::RightBrace, MAX_FLAGS - 1)?;
    cursor.expect(Operator::RightBrace)?;
    Ok(names)
}

/// Reads what stands behind the name of a type, by the keyword before it.
#[tactic(auto, using(crate::proofs::InterfaceLaws::def_laws))]
fn read_type_def(alloc: Global, cursor: &mut Cursor, head: TypeHead) -> Result<TypeDef, ReadError>
    ensures { Reads (def_rest head) type_def_tree cursor.old cursor.new result }
{
    match head {
        TypeHead::Type => {
            cursor.expect(Operator::Equals)?;
            let ty = read_type(alloc, cursor, true, MAX_DEPTH)?;
            cursor.expect(Operator::Semicolon)?;
            Ok(TypeDef::Alias(ty))
        }
        TypeHead::Record => Ok(TypeDef::Record(read_braced(alloc, cursor)?)),
        TypeHead::Variant => Ok(TypeDef::Variant(read_braced(alloc, cursor)?)),
        TypeHead::Enum => Ok(TypeDef::Enum(read_braced(alloc, cursor)?)),
        TypeHead::Flags => Ok(TypeDef::Flags(read_flags(alloc, cursor)?)),
        TypeHead::Resource => Ok(TypeDef::Resource(read_resource(alloc, cursor)?)),
    }
}

/// Reads an item of an interface behind its first token.
fn read_interface_item(
    alloc: Global,
    cursor: &mut Cursor,
    head: ItemHead,
) -> Result<InterfaceItem, ReadError>
    ensures { Reads (item_rest head) interface_item_tree cursor.old cursor.new result }
{
    match head {
        ItemHead::Use => Ok(InterfaceItem::Use(read_use(alloc, cursor)?)),
        ItemHead::Type(head) => {
            let name = cursor.identifier()?;
            Ok(InterfaceItem::Type(name, read_type_def(alloc, cursor, head)?))
        }
        ItemHead::Func(name) => {
            cursor.expect(Operator::Colon)?;
            Ok(InterfaceItem::Func(name, read_func_rest(alloc, cursor)?))
        }
    }
}

impl Item for InterfaceItem {
    ghost use Rattle.cm_wit_reading.specs.Interfaces.{interface_item};
    ghost use Rattle.cm_wit_reading.specs.Trees as trees;
    ghost use Rattle.cm_wit_reading.specs.Views.{interface_item_tree};

    ghost Tree = { trees.InterfaceItem };

    ghost tree = { interface_item_tree };

    ghost grammar = { interface_item };

    fn read(alloc: Global, cursor: &mut Cursor) -> Result<InterfaceItem, ReadError> {
        let head = read_item_head(cursor)?;
        read_interface_item(alloc, cursor, head)
    }
}

/// Reads the name of an interface and its items in braces.
#[tactic(auto, using(crate::proofs::InterfaceLaws::interface_item_laws))]
pub fn read_interface(alloc: Global, cursor: &mut Cursor) -> Result<Interface, ReadError>
    ensures { Reads interface_rest interface_tree cursor.old cursor.new result }
{
    let name = cursor.identifier()?;
    cursor.expect(Operator::LeftBrace)?;
    let items = read_members(alloc, cursor)?;
    cursor.expect(Operator::RightBrace)?;
    Ok(Interface { name, items })
}
