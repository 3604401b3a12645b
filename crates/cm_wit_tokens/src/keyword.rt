//! The keywords of WIT texts.

ghost use Rattle.std.specs.Prelude.{◌≡◌, ◌≢◌, true, false, option_copied};
ghost use Rattle.cm_wit_tokens.specs.Keywords.{spelling, keyword_of, keywords_that_begin};

/// A word that is no identifier, unless `%` stands before it (WIT.md, "Keywords"). Those of forms
/// that are not read are keywords too.
#[derive(Clone, Copy, PartialEq, Eq)]
pub enum Keyword {
    Package,
    Interface,
    World,
    Use,
    As,
    Type,
    Record,
    Variant,
    Enum,
    Flags,
    Resource,
    Func,
    Static,
    Constructor,
    Import,
    Export,
    Include,
    List,
    Option,
    Result,
    Tuple,
    Own,
    Borrow,
    Bool,
    S8,
    S16,
    S32,
    S64,
    U8,
    U16,
    U32,
    U64,
    F32,
    F64,
    Char,
    String,
    Stream,
    Future,
    Async,
    From,
}

/// The keywords with so many letters that begin with a letter, in the order in which the standard
/// names them.
fn that_begin(length: usize, first: u8) -> &'static [Keyword]
    ensures { result.now ≡ keywords_that_begin length first }
{
    match (length, first) {
        (2, b'a') => &[Keyword::As],
        (2, b's') => &[Keyword::S8],
        (2, b'u') => &[Keyword::U8],
        (3, b'u') => &[Keyword::Use, Keyword::U16, Keyword::U32, Keyword::U64],
        (3, b'o') => &[Keyword::Own],
        (3, b's') => &[Keyword::S16, Keyword::S32, Keyword::S64],
        (3, b'f') => &[Keyword::F32, Keyword::F64],
        (4, b't') => &[Keyword::Type],
        (4, b'e') => &[Keyword::Enum],
        (4, b'f') => &[Keyword::Func, Keyword::From],
        (4, b'l') => &[Keyword::List],
        (4, b'b') => &[Keyword::Bool],
        (4, b'c') => &[Keyword::Char],
        (5, b'w') => &[Keyword::World],
        (5, b'f') => &[Keyword::Flags],
        (5, b't') => &[Keyword::Tuple],
        (5, b'a') => &[Keyword::Async],
        (6, b'r') => &[Keyword::Record, Keyword::Result],
        (6, b's') => &[Keyword::Static, Keyword::String, Keyword::Stream],
        (6, b'i') => &[Keyword::Import],
        (6, b'e') => &[Keyword::Export],
        (6, b'o') => &[Keyword::Option],
        (6, b'b') => &[Keyword::Borrow],
        (6, b'f') => &[Keyword::Future],
        (7, b'p') => &[Keyword::Package],
        (7, b'v') => &[Keyword::Variant],
        (7, b'i') => &[Keyword::Include],
        (8, b'r') => &[Keyword::Resource],
        (9, b'i') => &[Keyword::Interface],
        (11, b'c') => &[Keyword::Constructor],
        _ => &[],
    }
}

impl Keyword {
    /// The word in a text.
    pub fn as_str(self) -> &'static str
        ensures { result.now ≡ spelling self }
    {
        match self {
            Keyword::Package => "package",
            Keyword::Interface => "interface",
            Keyword::World => "world",
            Keyword::Use => "use",
            Keyword::As => "as",
            Keyword::Type => "type",
            Keyword::Record => "record",
            Keyword::Variant => "variant",
            Keyword::Enum => "enum",
            Keyword::Flags => "flags",
            Keyword::Resource => "resource",
            Keyword::Func => "func",
            Keyword::Static => "static",
            Keyword::Constructor => "constructor",
            Keyword::Import => "import",
            Keyword::Export => "export",
            Keyword::Include => "include",
            Keyword::List => "list",
            Keyword::Option => "option",
            Keyword::Result => "result",
            Keyword::Tuple => "tuple",
            Keyword::Own => "own",
            Keyword::Borrow => "borrow",
            Keyword::Bool => "bool",
            Keyword::S8 => "s8",
            Keyword::S16 => "s16",
            Keyword::S32 => "s32",
            Keyword::S64 => "s64",
            Keyword::U8 => "u8",
            Keyword::U16 => "u16",
            Keyword::U32 => "u32",
            Keyword::U64 => "u64",
            Keyword::F32 => "f32",
            Keyword::F64 => "f64",
            Keyword::Char => "char",
            Keyword::String => "string",
            Keyword::Stream => "stream",
            Keyword::Future => "future",
            Keyword::Async => "async",
            Keyword::From => "from",
        }
    }

    /// Whether it is this keyword.
    pub(crate) fn is(self, other: Keyword) -> bool
        ensures same { result ≡ true → self ≡ other }
        ensures other { result ≡ false → self ≢ other }
    {
        self == other
    }

    /// The keyword that a word is, if it is one.
    #[tactic(auto, unfolding(crate::specs::Keywords::keyword_of))]
    pub fn of_word(word: &[u8]) -> Option<Keyword>
        ensures { result ≡ keyword_of word.now }
    {
        let [first, ..] = word else {
            return None;
        };
        that_begin(word.len(), *first)
            .iter()
            .find(|keyword| keyword.as_str().as_bytes() == word)
            .copied()
    }
}
