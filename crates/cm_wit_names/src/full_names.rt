//! Full names without ASCII case.

ghost use Rattle.std.specs.Prelude.{◌≡◌, ◌++◌, ◌∷◌, map, IfOk, IsTrue, OnOk};
ghost use Rattle.std.specs.Char.{to_ascii_lowercase};
ghost use Rattle.std.specs.String.{string_bytes};
ghost use Rattle.cm_types.specs.ExternNames.{name_spelling};
ghost use Rattle.cm_types.specs.ExternNameForms.{form_tree};
ghost use Rattle.cm_wit_names.specs.Rules.{folded};

use cm_types::ExternNameForm;
use std::alloc::{AllocError, Global};

/// Appends the bytes of a text, with letters in lower case.
fn add_folded(out: &mut Vec<u8>, text: &str) -> Result<(), AllocError>
    ensures { OnOk result (out.new.items ≡ out.old.items ++ map to_ascii_lowercase text.now) }
{
    for byte in text.as_bytes() {
        out.push(byte.to_ascii_lowercase())?;
    }
    Ok(())
}

/// Appends a mark and a text.
fn add_behind(out: &mut Vec<u8>, mark: u8, text: &str) -> Result<(), AllocError>
    ensures { OnOk result (out.new.items
        ≡ out.old.items ++ to_ascii_lowercase mark ∷ map to_ascii_lowercase text.now) }
{
    out.push(mark.to_ascii_lowercase())?;
    add_folded(out, text)
}

/// How many bytes spell a full name, or a few more.
fn spelled_len(name: ExternNameForm<'_>) -> usize {
    let parts = match name {
        ExternNameForm::Label(text) => [text, "", "", ""],
        ExternNameForm::Method { resource, method } => ["[method].", resource, method, ""],
        ExternNameForm::Static { resource, function } => ["[static].", resource, function, ""],
        ExternNameForm::Constructor { resource } => ["[constructor]", resource, "", ""],
        ExternNameForm::Interface {
            namespace,
            package,
            interface,
            version,
        } => [namespace, package, interface, version.unwrap_or("")],
    };
    let mut length = ":/@".len();
    for part in parts {
        length = length.saturating_add(part.len());
    }
    length
}

/// A full name without ASCII case. Refused only where there is no memory.
#[tactic(auto, using(crate::proofs::NameLaws::fold_laws))]
pub fn folded(alloc: Global, name: ExternNameForm<'_>) -> Result<Vec<u8>, AllocError>
    ensures { IfOk result (λ v. v.items ≡ folded (form_tree name.entry)) }
{
    let mut out = Vec::with_capacity(alloc, spelled_len(name))?;
    match name {
        ExternNameForm::Label(text) => add_folded(&mut out, text)?,
        ExternNameForm::Method { resource, method } => {
            add_folded(&mut out, "[method]")?;
            add_folded(&mut out, resource)?;
            add_behind(&mut out, b'.', method)?;
        }
        ExternNameForm::Static { resource, function } => {
            add_folded(&mut out, "[static]")?;
            add_folded(&mut out, resource)?;
            add_behind(&mut out, b'.', function)?;
        }
        ExternNameForm::Constructor { resource } => {
            add_folded(&mut out, "[constructor]")?;
            add_folded(&mut out, resource)?;
        }
        ExternNameForm::Interface {
            namespace,
            package,
            interface,
            version,
        } => {
            add_folded(&mut out, namespace)?;
            add_behind(&mut out, b':', package)?;
            add_behind(&mut out, b'/', interface)?;
            if let Some(version) = version {
                add_behind(&mut out, b'@', version)?;
            }
        }
    }
    Ok(out)
}

/// Whether no letter of a text is in upper case.
#[tactic(auto, using(crate::proofs::NameLaws::lower_laws))]
pub fn has_no_capital(text: &str) -> bool
    ensures { IsTrue result → map to_ascii_lowercase text.now ≡ text.now }
{
    for (index, byte) in text.as_bytes().iter().enumerate() {
        if byte.is_ascii_uppercase() {
            return false;
        }
    }
    true
}

/// A full name as it is spelled. Refused only where there is no memory.
#[tactic(auto, using(crate::proofs::NameLaws::fold_laws))]
fn spelled(alloc: Global, name: ExternNameForm<'_>) -> Result<String, AllocError>
    ensures { IfOk result (λ text. string_bytes text ≡ name_spelling (form_tree name.entry)) }
{
    let mut out = String::with_capacity(alloc, spelled_len(name))?;
    match name {
        ExternNameForm::Label(text) => out.push_str(text)?,
        ExternNameForm::Method { resource, method } => {
            out.push_str("[method]")?;
            out.push_str(resource)?;
            out.push_str(".")?;
            out.push_str(method)?;
        }
        ExternNameForm::Static { resource, function } => {
            out.push_str("[static]")?;
            out.push_str(resource)?;
            out.push_str(".")?;
            out.push_str(function)?;
        }
        ExternNameForm::Constructor { resource } => {
            out.push_str("[constructor]")?;
            out.push_str(resource)?;
        }
        ExternNameForm::Interface {
            namespace,
            package,
            interface,
            version,
        } => {
            out.push_str(namespace)?;
            out.push_str(":")?;
            out.push_str(package)?;
            out.push_str("/")?;
            out.push_str(interface)?;
            if let Some(version) = version {
                out.push_str("@")?;
                out.push_str(version)?;
            }
        }
    }
    Ok(out)
}

/// The same name as [`folded`] gives, as a text. Refused only where there is no memory.
pub fn folded_text(alloc: Global, name: ExternNameForm<'_>) -> Result<String, AllocError>
    ensures { IfOk result (λ text. string_bytes text ≡ folded (form_tree name.entry)) }
{
    let mut out = spelled(alloc, name)?;
    out.make_ascii_lowercase();
    Ok(out)
}
