//! Types as WIT texts write them.

ghost use Rattle.std.specs.Prelude.{◌≡◌};
ghost use Rattle.std.specs.Option.{option_map};
ghost use Rattle.cm_wit_reading.specs.Types.{keyword_head, begins_type_in};
ghost use Rattle.cm_wit_reading.specs.TypeViews.{head_tree};

use cm_wit_tokens::{Form, Keyword, Label};

/// A type that holds no other (WIT.md, "Item: `ty`").
#[derive(Clone, Copy)]
pub enum Primitive {
    Bool,
    S8,
    S16,
    S32,
    S64,
    U8,
    U16,
    U32,
    U64,
    Char,
    String,
}

/// A type as it is written: names stand as they are.
#[derive(Drop)]
pub enum WitType {
    Primitive(Primitive),
    Named(Label),
    /// A borrow of the resource of this name.
    Borrow(Label),
    List(Box<WitType>),
    /// A list of exactly `length` elements, at least 1.
    FixedList {
        element: Box<WitType>,
        length: u32,
    },
    Option(Box<WitType>),
    Tuple(Vec<WitType>),
    Result {
        ok: Option<Box<WitType>>,
        error: Option<Box<WitType>>,
    },
}

/// What the first token of a type says.
#[derive(Drop)]
pub enum Head {
    Primitive(Primitive),
    Named(Label),
    Borrow,
    List,
    Option,
    Tuple,
    Result,
}

/// What a keyword begins as a type, if it begins one.
pub fn keyword_head(keyword: Keyword) -> Option<Head>
    ensures { option_map head_tree result ≡ keyword_head keyword }
{
    match keyword {
        Keyword::Bool => Some(Head::Primitive(Primitive::Bool)),
        Keyword::S8 => Some(Head::Primitive(Primitive::S8)),
        Keyword::S16 => Some(Head::Primitive(Primitive::S16)),
        Keyword::S32 => Some(Head::Primitive(Primitive::S32)),
        Keyword::S64 => Some(Head::Primitive(Primitive::S64)),
        Keyword::U8 => Some(Head::Primitive(Primitive::U8)),
        Keyword::U16 => Some(Head::Primitive(Primitive::U16)),
        Keyword::U32 => Some(Head::Primitive(Primitive::U32)),
        Keyword::U64 => Some(Head::Primitive(Primitive::U64)),
        Keyword::Char => Some(Head::Primitive(Primitive::Char)),
        Keyword::String => Some(Head::Primitive(Primitive::String)),
        Keyword::Borrow => Some(Head::Borrow),
        Keyword::List => Some(Head::List),
        Keyword::Option => Some(Head::Option),
        Keyword::Tuple => Some(Head::Tuple),
        Keyword::Result => Some(Head::Result),
        _ => None,
    }
}

/// Whether a token begins a type, of those without borrows where `borrows` is false.
pub fn begins_type_in(form: &Form, borrows: bool) -> bool
    ensures { result ≡ begins_type_in borrows form.now }
{
    match form {
        Form::Identifier(_) => true,
        Form::Keyword(keyword) => match keyword_head(*keyword) {
            Some(Head::Borrow) => borrows,
            Some(_) => true,
            None => false,
        },
        _ => false,
    }
}
