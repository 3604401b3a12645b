//! What the first tokens of items say.

ghost use Rattle.std.specs.Prelude.{◌≡◌};
ghost use Rattle.cm_wit_tokens.specs.Grammar.{token};
ghost use Rattle.cm_wit_tokens.specs.Reading.{Reads};
ghost use Rattle.cm_wit_projects_reading.specs.Heads.{field, file_head, file_word, gate_head};
ghost use Rattle.cm_wit_projects_reading.specs.Heads.{gate_word, item_head, method_head};
ghost use Rattle.cm_wit_projects_reading.specs.Heads.{package_head, package_word, type_head};
ghost use Rattle.cm_wit_projects_reading.specs.Heads.{world_head, world_word};

use cm_types::Label;
use cm_wit_tokens::{Cursor, Form, Keyword, ReadError};

/// The word of a gate.
#[derive(Clone, Copy)]
pub enum GateHead {
    Since,
    Unstable,
    Deprecated,
}

/// The keyword before a type's name.
#[derive(Clone, Copy)]
pub enum TypeHead {
    Type,
    Record,
    Variant,
    Enum,
    Flags,
    Resource,
}

/// What the first token of an interface's item says.
#[derive(Drop)]
pub enum ItemHead {
    Use,
    Type(TypeHead),
    /// The name of a function.
    Func(Label),
}

/// What the first token of a resource's function says.
#[derive(Drop)]
pub enum MethodHead {
    Constructor,
    Named(Label),
}

/// What the first token of a world's item says.
#[derive(Clone, Copy)]
pub enum WorldHead {
    Import,
    Export,
    Use,
    Type(TypeHead),
    Include,
}

/// What the first token of a package's item says.
#[derive(Clone, Copy)]
pub enum PackageHead {
    Use,
    Interface,
    World,
}

/// What the first token of a file's item says.
#[derive(Clone, Copy)]
pub enum FileHead {
    Item(PackageHead),
    Package,
}

/// The gate that a word begins, if it begins one.
fn gate_word(word: &[u8]) -> Option<GateHead>
    ensures { result ≡ gate_word word.now }
{
    if word == b"since".as_slice() {
        Some(GateHead::Since)
    } else if word == b"unstable".as_slice() {
        Some(GateHead::Unstable)
    } else if word == b"deprecated".as_slice() {
        Some(GateHead::Deprecated)
    } else {
        None
    }
}

/// Reads the word of a gate.
pub fn read_gate_head(cursor: &mut Cursor) -> Result<GateHead, ReadError>
    ensures { Reads (token gate_head) (λ x. x) cursor.old cursor.new result }
{
    let Some(Form::Identifier(word)) = cursor.next() else {
        return Err(cursor.unexpected());
    };
    match gate_word(word.as_bytes()) {
        Some(head) => {
            cursor.take();
            Ok(head)
        }
        None => Err(cursor.unexpected()),
    }
}

/// Reads the name of a gate's field.
pub fn read_field(cursor: &mut Cursor, name: &str) -> Result<(), ReadError>
    ensures { Reads (token (field name.now)) (λ x. x) cursor.old cursor.new result }
{
    match cursor.next() {
        Some(Form::Identifier(word)) if word.as_bytes() == name.as_bytes() => {
            cursor.take();
            Ok(())
        }
        _ => Err(cursor.unexpected()),
    }
}

/// The type that a keyword begins to define, if it is one of these.
fn type_head(keyword: Keyword) -> Option<TypeHead>
    ensures { result ≡ type_head keyword }
{
    match keyword {
        Keyword::Type => Some(TypeHead::Type),
        Keyword::Record => Some(TypeHead::Record),
        Keyword::Variant => Some(TypeHead::Variant),
        Keyword::Enum => Some(TypeHead::Enum),
        Keyword::Flags => Some(TypeHead::Flags),
        Keyword::Resource => Some(TypeHead::Resource),
        _ => None,
    }
}

/// Reads what the first token of an interface's item says.
pub fn read_item_head(cursor: &mut Cursor) -> Result<ItemHead, ReadError>
    ensures { Reads (token item_head) (λ x. x) cursor.old cursor.new result }
{
    let keyword = match cursor.next() {
        Some(Form::Identifier(_)) => return Ok(ItemHead::Func(cursor.identifier()?)),
        Some(Form::Keyword(keyword)) => *keyword,
        _ => return Err(cursor.unexpected()),
    };
    if let Keyword::Use = keyword {
        cursor.take();
        return Ok(ItemHead::Use);
    }
    match type_head(keyword) {
        Some(head) => {
            cursor.take();
            Ok(ItemHead::Type(head))
        }
        None => Err(cursor.unexpected()),
    }
}

/// Reads what the first token of a resource's function says.
pub fn read_method_head(cursor: &mut Cursor) -> Result<MethodHead, ReadError>
    ensures { Reads (token method_head) (λ x. x) cursor.old cursor.new result }
{
    match cursor.next() {
        Some(Form::Identifier(_)) => Ok(MethodHead::Named(cursor.identifier()?)),
        Some(Form::Keyword(Keyword::Constructor)) => {
            cursor.take();
            Ok(MethodHead::Constructor)
        }
        _ => Err(cursor.unexpected()),
    }
}

/// What a keyword begins in a world, if it begins anything.
fn world_word(keyword: Keyword) -> Option<WorldHead>
    ensures { result ≡ world_word keyword }
{
    match keyword {
        Keyword::Import => Some(WorldHead::Import),
        Keyword::Export => Some(WorldHead::Export),
        Keyword::Use => Some(WorldHead::Use),
        Keyword::Include => Some(WorldHead::Include),
        keyword => type_head(keyword).map(WorldHead::Type),
    }
}

/// Reads what the first token of a world's item says.
pub fn read_world_head(cursor: &mut Cursor) -> Result<WorldHead, ReadError>
    ensures { Reads (token world_head) (λ x. x) cursor.old cursor.new result }
{
    let Some(Form::Keyword(keyword)) = cursor.next() else {
        return Err(cursor.unexpected());
    };
    match world_word(*keyword) {
        Some(head) => {
            cursor.take();
            Ok(head)
        }
        None => Err(cursor.unexpected()),
    }
}

/// What a keyword begins in a package, behind gates or not, if it begins anything.
fn package_word(gated: bool, keyword: Keyword) -> Option<PackageHead>
    ensures { result ≡ package_word gated keyword }
{
    match keyword {
        Keyword::Interface => Some(PackageHead::Interface),
        Keyword::World => Some(PackageHead::World),
        Keyword::Use if !gated => Some(PackageHead::Use),
        _ => None,
    }
}

/// What a keyword begins in a file, behind gates or not, if it begins anything.
fn file_word(gated: bool, keyword: Keyword) -> Option<FileHead>
    ensures { result ≡ file_word gated keyword }
{
    match keyword {
        Keyword::Package if !gated => Some(FileHead::Package),
        keyword => package_word(gated, keyword).map(FileHead::Item),
    }
}

/// Reads what the first token of a package's item says, behind gates or not.
pub fn read_package_head(cursor: &mut Cursor, gated: bool) -> Result<PackageHead, ReadError>
    ensures { Reads (token (package_head gated)) (λ x. x) cursor.old cursor.new result }
{
    let Some(Form::Keyword(keyword)) = cursor.next() else {
        return Err(cursor.unexpected());
    };
    match package_word(gated, *keyword) {
        Some(head) => {
            cursor.take();
            Ok(head)
        }
        None => Err(cursor.unexpected()),
    }
}

/// Reads what the first token of a file's item says, behind gates or not.
pub fn read_file_head(cursor: &mut Cursor, gated: bool) -> Result<FileHead, ReadError>
    ensures { Reads (token (file_head gated)) (λ x. x) cursor.old cursor.new result }
{
    let Some(Form::Keyword(keyword)) = cursor.next() else {
        return Err(cursor.unexpected());
    };
    match file_word(gated, *keyword) {
        Some(head) => {
            cursor.take();
            Ok(head)
        }
        None => Err(cursor.unexpected()),
    }
}
