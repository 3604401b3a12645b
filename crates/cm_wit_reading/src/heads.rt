//! What the first tokens of items say.

ghost use Rattle.std.specs.Prelude.{◌≡◌};
ghost use Rattle.cm_wit_tokens.specs.Grammar.{token};
ghost use Rattle.cm_wit_tokens.specs.Reading.{Reads};
ghost use Rattle.cm_wit_reading.specs.Heads.{file_head, item_head, method_head, package_head};
ghost use Rattle.cm_wit_reading.specs.Heads.{type_head, world_head};

use cm_types::Label;
use cm_wit_tokens::{Cursor, Form, Keyword, ReadError};

/// The keyword before a type's name.
#[derive(Clone, Copy)]
pub enum TypeHead {
    Type,
    Record,
    Variant,
    Enum,
    Flags,
    Resource,
}

/// What the first token of an interface's item says.
#[derive(Drop)]
pub enum ItemHead {
    Use,
    Type(TypeHead),
    /// The name of a function.
    Func(Label),
}

/// What the first token of a resource's function says.
#[derive(Drop)]
pub enum MethodHead {
    Constructor,
    Named(Label),
}

/// What the first token of a world's item says.
#[derive(Clone, Copy)]
pub enum WorldHead {
    Import,
    Export,
}

/// What the first token of a file's item says.
#[derive(Clone, Copy)]
pub enum FileHead {
    Interface,
    World,
}

/// The type that a keyword begins to define, if it is one of these.
fn type_head(keyword: Keyword) -> Option<TypeHead>
    ensures { result ≡ type_head keyword }
{
    match keyword {
        Keyword::Type => Some(TypeHead::Type),
        Keyword::Record => Some(TypeHead::Record),
        Keyword::Variant => Some(TypeHead::Variant),
        Keyword::Enum => Some(TypeHead::Enum),
        Keyword::Flags => Some(TypeHead::Flags),
        Keyword::Resource => Some(TypeHead::Resource),
        _ => None,
    }
}

/// Reads what the first token of an interface's item says.
pub fn read_item_head(cursor: &mut Cursor) -> Result<ItemHead, ReadError>
    ensures { Reads (token item_head) (λ x. x) cursor.old cursor.new result }
{
    let keyword = match cursor.next() {
        Some(Form::Identifier(_)) => return Ok(ItemHead::Func(cursor.identifier()?)),
        Some(Form::Keyword(keyword)) => *keyword,
        _ => return Err(cursor.unexpected_item()),
    };
    if let Keyword::Use = keyword {
        cursor.take();
        return Ok(ItemHead::Use);
    }
    match type_head(keyword) {
        Some(head) => {
            cursor.take();
            Ok(ItemHead::Type(head))
        }
        None => Err(cursor.unexpected_item()),
    }
}

/// Reads what the first token of a resource's function says.
pub fn read_method_head(cursor: &mut Cursor) -> Result<MethodHead, ReadError>
    ensures { Reads (token method_head) (λ x. x) cursor.old cursor.new result }
{
    match cursor.next() {
        Some(Form::Identifier(_)) => Ok(MethodHead::Named(cursor.identifier()?)),
        Some(Form::Keyword(Keyword::Constructor)) => {
            cursor.take();
            Ok(MethodHead::Constructor)
        }
        _ => Err(cursor.unexpected_item()),
    }
}

/// Reads what the first token of a world's item says.
pub fn read_world_head(cursor: &mut Cursor) -> Result<WorldHead, ReadError>
    ensures { Reads (token world_head) (λ x. x) cursor.old cursor.new result }
{
    let head = match cursor.next() {
        Some(Form::Keyword(Keyword::Import)) => WorldHead::Import,
        Some(Form::Keyword(Keyword::Export)) => WorldHead::Export,
        _ => return Err(cursor.unexpected_item()),
    };
    cursor.take();
    Ok(head)
}

/// Reads what the first token of a file's item says.
pub fn read_file_head(cursor: &mut Cursor) -> Result<FileHead, ReadError>
    ensures { Reads (token file_head) (λ x. x) cursor.old cursor.new result }
{
    let head = match cursor.next() {
        Some(Form::Keyword(Keyword::Interface)) => FileHead::Interface,
        Some(Form::Keyword(Keyword::World)) => FileHead::World,
        _ => return Err(cursor.unexpected_file_item()),
    };
    cursor.take();
    Ok(head)
}

/// Reads the word `package`. In its place an item of a file may begin that is not read.
pub fn read_package_head(cursor: &mut Cursor) -> Result<(), ReadError>
    ensures { Reads (token package_head) (λ x. x) cursor.old cursor.new result }
{
    let Some(Form::Keyword(Keyword::Package)) = cursor.next() else {
        return Err(cursor.unexpected_file_item());
    };
    cursor.take();
    Ok(())
}
