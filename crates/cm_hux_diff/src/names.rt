//! The names of imports and exports.

ghost use Rattle.std.specs.Prelude.{◌≡◌, ◌++◌, IfOk, OnOk, option_to_list, slice_get};
ghost use Rattle.std.specs.Option.{option_map};
ghost use Rattle.std.specs.String.{string_bytes};
ghost use Rattle.cm_types.specs.ExternNames.{name_spelling};
ghost use Rattle.cm_types.specs.ExternNameForms.{form_tree};
ghost use Rattle.cm_types_arena.specs.Listed.{externs_listed};
ghost use Rattle.cm_types_arena.specs.declared.types.Types.{Types};
ghost use Rattle.cm_wit_conforms.specs.Places.{extern_names};

use cm_types::{ExternName, ExternNameForm};
use cm_types_arena::Externs;
use std::alloc::{AllocError, Global};

/// The text of a name. Refused only where there is no memory.
#[tactic(auto, using(crate::proofs::Texts::text_laws))]
fn spelled(alloc: Global, name: ExternNameForm<'_>) -> Result<String, AllocError>
    ensures { IfOk result (λ text. string_bytes text ≡ name_spelling (form_tree name.entry)) }
{
    let mut out = String::new(alloc);
    match name {
        ExternNameForm::Label(text) => out.push_str(text)?,
        ExternNameForm::Method { resource, method } => {
            out.push_str("[method]")?;
            out.push_str(resource)?;
            out.push_str(".")?;
            out.push_str(method)?;
        }
        ExternNameForm::Static { resource, function } => {
            out.push_str("[static]")?;
            out.push_str(resource)?;
            out.push_str(".")?;
            out.push_str(function)?;
        }
        ExternNameForm::Constructor { resource } => {
            out.push_str("[constructor]")?;
            out.push_str(resource)?;
        }
        ExternNameForm::Interface {
            namespace,
            package,
            interface,
            version,
        } => {
            out.push_str(namespace)?;
            out.push_str(":")?;
            out.push_str(package)?;
            out.push_str("/")?;
            out.push_str(interface)?;
            if let Some(version) = version {
                out.push_str("@")?;
                out.push_str(version)?;
            }
        }
    }
    Ok(out)
}

/// A name by itself. Refused only where there is no memory.
fn name_of(alloc: Global, form: ExternNameForm<'_>) -> Result<ExternName, AllocError>
    ensures { IfOk result (λ name. name ≡ name_spelling (form_tree form.entry)) }
{
    let text = spelled(alloc, form)?;
    // A name of a signature is one, so what is refused is memory.
    match ExternName::parse(alloc, text.as_str()) {
        Ok(name) => Ok(name),
        Err(_) => Err(AllocError),
    }
}

/// Adds the name of the import or export at a place, if there is one.
fn add_name(
    alloc: Global,
    names: &mut Vec<ExternName>,
    externs: &Externs,
    place: usize,
) -> Result<(), AllocError>
    ensures { OnOk result ((t : Types) → names.new.items ≡ names.old.items
        ++ option_to_list (option_map (λ e. e.name)
        (slice_get (externs_listed t externs.now) place))) }
{
    let Some(each) = externs.at(place) else {
        return Ok(());
    };
    let name = name_of(alloc, each.name)?;
    names.push(name)?;
    Ok(())
}

/// The names of imports or exports, in order. Refused only where there is no memory.
#[tactic(auto, using(crate::proofs::Places::names_end))]
pub(crate) fn names_of(alloc: Global, externs: &Externs) -> Result<Vec<ExternName>, AllocError>
    ensures { IfOk result (λ v. (t : Types) → v.items ≡ extern_names t externs.now) }
{
    let mut names = Vec::with_capacity(alloc, externs.len())?;
    for place in 0..externs.len() {
        add_name(alloc, &mut names, externs, place)?;
    }
    Ok(names)
}
