//! Reading functions and the paths of interfaces.

ghost use Rattle.std.specs.Prelude.{◌≡◌, map};
ghost use Rattle.cm_wit_tokens.specs.Reading.{Reads};
ghost use Rattle.cm_wit_reading.specs.Signatures.{foreign_rest, func, optional_version, params};
ghost use Rattle.cm_wit_reading.specs.Signatures.{path};
ghost use Rattle.cm_wit_reading.specs.SignatureViews.{func_tree, path_tree, typed_tree};

use crate::signatures::{Func, Path, Typed};
use crate::type_reader::read_type;
use cm_wit_tokens::{Cursor, Item, Label, MAX_DEPTH, Operator, ReadError, Version, read_items};
use std::alloc::Global;

/// A name, `:` and a type.
impl Item for Typed {
    ghost use Rattle.cm_wit_reading.specs.Signatures.{typed};
    ghost use Rattle.cm_wit_reading.specs.Signatures as spec;
    ghost use Rattle.cm_wit_reading.specs.SignatureViews.{typed_tree};

    ghost Tree = { spec.Typed };

    ghost tree = { typed_tree };

    ghost grammar = { typed };

    fn read(alloc: Global, cursor: &mut Cursor) -> Result<Typed, ReadError> {
        let name = cursor.identifier()?;
        cursor.expect(Operator::Colon)?;
        let ty = read_type(alloc, cursor, true, MAX_DEPTH)?;
        Ok(Typed { name, ty })
    }
}

/// Reads parameters in parentheses.
#[tactic(auto, using(crate::proofs::SignatureLaws::typed_lawful))]
pub fn read_params(alloc: Global, cursor: &mut Cursor) -> Result<Vec<Typed>, ReadError>
    ensures { Reads params (λ v. map typed_tree v.items) cursor.old cursor.new result }
{
    cursor.expect(Operator::LeftParenthesis)?;
    let params = if cursor.next_is(Operator::RightParenthesis) {
        Vec::new(alloc)
    } else {
        read_items(alloc, cursor, Operator::RightParenthesis)?
    };
    cursor.expect(Operator::RightParenthesis)?;
    Ok(params)
}

/// Reads parameters and a result, in which no borrow may stand, where there is one.
pub fn read_func(alloc: Global, cursor: &mut Cursor) -> Result<Func, ReadError>
    ensures { Reads func func_tree cursor.old cursor.new result }
{
    let params = read_params(alloc, cursor)?;
    if cursor.next_is(Operator::Arrow) {
        cursor.expect(Operator::Arrow)?;
        let result = Some(read_type(alloc, cursor, false, MAX_DEPTH)?);
        Ok(Func { params, result })
    } else {
        Ok(Func {
            params,
            result: None,
        })
    }
}

/// Reads `@` and a version, where they stand.
pub fn read_optional_version(cursor: &mut Cursor) -> Result<Option<Version>, ReadError>
    ensures { Reads optional_version (λ v. v) cursor.old cursor.new result }
{
    if cursor.next_is(Operator::At) {
        cursor.expect(Operator::At)?;
        Ok(Some(cursor.version()?))
    } else {
        Ok(None)
    }
}

/// Reads what stands behind a namespace and its `:` in a path.
pub fn read_foreign_path(namespace: Label, cursor: &mut Cursor) -> Result<Path, ReadError>
    ensures { Reads (foreign_rest namespace) path_tree cursor.old cursor.new result }
{
    let package = cursor.identifier()?;
    cursor.expect(Operator::Slash)?;
    let interface = cursor.identifier()?;
    let version = read_optional_version(cursor)?;
    Ok(Path::Foreign {
        namespace,
        package,
        interface,
        version,
    })
}

/// Reads the path of an interface.
pub fn read_path(cursor: &mut Cursor) -> Result<Path, ReadError>
    ensures { Reads path path_tree cursor.old cursor.new result }
{
    let name = cursor.identifier()?;
    if cursor.next_is(Operator::Colon) {
        cursor.expect(Operator::Colon)?;
        read_foreign_path(name, cursor)
    } else {
        Ok(Path::Local(name))
    }
}
