//! Names of functions, as users write them.

ghost use Rattle.std.specs.Prelude.{◌≡◌};
ghost use Rattle.cm_validate_functions.specs.FuncNames.{name_parts, parts_of};

/// The name of a function: that of its interface, if it is in one, and its own.
#[derive(Clone, Copy)]
pub(crate) struct FuncName<'a> {
    pub(crate) interface: Option<&'a str>,
    pub(crate) name: &'a str,
}

/// What a text names: `interface#function`, or a function that stands alone.
pub(crate) fn func_name(text: &str) -> FuncName<'_>
    ensures { name_parts result ≡ parts_of text.now }
{
    match text.split_once('#') {
        Some((interface, name)) => FuncName {
            interface: Some(interface),
            name,
        },
        None => FuncName {
            interface: None,
            name: text,
        },
    }
}
