//! Extern names: the names of imports and exports, and of an instance's items.

ghost use Rattle.std.specs.Prelude.{◌≡◌, IfOk, IfErr, ◌⊎◌, Some, None, ◌<◌, option_copied};
ghost use Rattle.std.specs.Prelude.{[], Err, Ok, false, true};
ghost use Rattle.cm_types.specs.declared.names.NameFault.{NameFault};
ghost use Rattle.std.specs.Option.{option_map};
ghost use Rattle.std.specs.List.{list_any};
ghost use Rattle.cm_types.specs.Names.{label_fault};
ghost use Rattle.cm_types.specs.ExternNames.{cut, cut_or_all, extern_name_fault, form_of};
ghost use Rattle.cm_types.specs.ExternNames.{interface_of, interface_parts, is_bracketed};
ghost use Rattle.cm_types.specs.ExternNames.{is_interface_mark, labels_fault};
ghost use Rattle.cm_types.specs.ExternNames.{least_fault, member, method, parts_fault, static};
ghost use Rattle.cm_types.specs.ExternNames.{name_spelling, version_fault};
ghost use Rattle.cm_types.specs.ExternNames.{without_front};
ghost use Rattle.cm_types.specs.ExternNames.{HasLabels, version_in, version_text};
ghost use Rattle.cm_types.specs.ExternNameForms.{form_tree, pair_view};

use crate::label_walk::is_label;
use crate::names::{NameFault, label_fault};
use crate::shared_text::SharedText;
use crate::version::reads_as_version;
use std::alloc::{AllocError, Global};
use std::marker::Model;

/// What an extern name says, part by part.
#[derive(Clone, Copy)]
pub enum ExternNameForm<'a> {
    /// A plain label.
    Label(&'a str),
    /// `[method]resource.method`
    Method {
        resource: &'a str,
        method: &'a str,
    },
    /// `[static]resource.function`
    Static {
        resource: &'a str,
        function: &'a str,
    },
    /// `[constructor]resource`
    Constructor {
        resource: &'a str,
    },
    /// `namespace:package/interface`, and after it `@version` where there is one.
    Interface {
        namespace: &'a str,
        package: &'a str,
        interface: &'a str,
        version: Option<&'a str>,
    },
}

/// The name of an import, of an export or of an instance's item: a plain label, a method, a static
/// function or the constructor of a resource, or an interface with or without a version.
///
/// Contracts see an extern name as the bytes of its text, which are an extern name by the grammar
/// of Explainer.md, "Import and Export Definitions".
#[derive(Drop)]
pub struct ExternName {
    text: SharedText,
}

impl Model for ExternName {
    ghost use Rattle.std.specs.Prelude.{◌≡◌, ℕ, List, true};
    ghost use Rattle.cm_types.specs.ExternNames.{is_extern_name};
    ghost use Rattle.cm_types.specs.SharedTexts.{text_bytes};

    ghost Value = { List ℕ };

    ghost view = { λ name. text_bytes name.text };

    ghost invariant = { λ name. is_extern_name (text_bytes name.text) ≡ true };
}

impl ExternName {
    ghost use Rattle.std.specs.Prelude.{true};
    ghost use Rattle.std.specs.Str.{is_utf8};
    ghost use Rattle.cm_types.specs.ExternNames.{is_extern_name, IsExternName};
    ghost use Rattle.cm_types.specs.declared.names.NameFault.TheVariants as name_fault;

    /// The text as an extern name.
    ///
    /// A text that is none is refused with the fault of the smallest number: `Empty` where it or a
    /// part that its form wants is empty or missing, `BadFragment` where a part is no label,
    /// `BadAnnotation` where it begins with `[` and not with `[method]` or `[static]` and two parts
    /// at a dot, or with `[constructor]`, and `BadVersion` where what follows `@` is no version.
    /// A text with `:`, `/` or `@` is read as an interface name. `Memory` comes where the copy of
    /// the text or the reading of its version finds no memory: so a faulty text that shows no
    /// version is refused with its own fault.
    pub fn parse(alloc: Global, text: &str) -> Result<ExternName, NameFault>
        ensures text { IfOk result (λ name. name ≡ text.now) }
        ensures accepted { IfOk result (λ _. IsExternName text.now) }
        ensures complete { IsExternName text.now → IfErr result (λ e. e ≡ name_fault.Memory) }
        ensures refused { IfErr result (λ e.
            (e ≡ name_fault.Memory) ⊎ (extern_name_fault text.now ≡ Some e)) }
        ensures faulty { (e : NameFault) → extern_name_fault text.now ≡ Some e
            → version_in text.now ≡ [] → result ≡ Err e }
    {
        match extern_name_fault(alloc, text) {
            Err(AllocError) => Err(NameFault::Memory),
            Ok(Some(fault)) => Err(fault),
            Ok(None) => match SharedText::new(alloc, text) {
                Ok(text) => Ok(ExternName { text }),
                Err(AllocError) => Err(NameFault::Memory),
            },
        }
    }

    /// The text of the name, as it was given.
    pub fn as_str(&self) -> &str
        ensures text { result.now ≡ self.now }
        ensures name { IsExternName result.now }
    {
        self.text.as_str()
    }

    /// The bytes of the name's text.
    pub fn as_bytes(&self) -> &[u8]
        ensures bytes { result.now ≡ self.now }
        ensures utf8 { is_utf8 result.now ≡ true }
        ensures name { is_extern_name result.now ≡ true }
    {
        self.text.as_str().as_bytes()
    }

    /// The form of the name, with its parts: what is spelled as the name, and whose parts are
    /// labels.
    pub fn form(&self) -> ExternNameForm<'_>
        ensures read { form_of self.now ≡ Some (form_tree result) }
        ensures spelled { name_spelling (form_tree result) ≡ self.now }
        ensures labels { HasLabels (form_tree result) }
    {
        match form_of(self.text.as_str()) {
            Some(form) => form,
            None => unreachable!(),
        }
    }
}

impl Clone for ExternName {
    ghost is_clone = { λ name copy. copy ≡ name };

    /// This name again; its text is shared. `AllocError` comes where it is shared too often to be
    /// counted.
    fn clone(&self) -> Result<ExternName, AllocError> {
        let text = self.text.share()?;
        Ok(ExternName { text })
    }
}

fn least_fault(a: Option<NameFault>, b: Option<NameFault>) -> Option<NameFault>
    ensures { result ≡ least_fault a b }
{
    match (a, b) {
        (None, other) => other,
        (Some(fault), None) => Some(fault),
        (Some(fault), Some(other)) => {
            if fault.number() <= other.number() {
                Some(fault)
            } else {
                Some(other)
            }
        }
    }
}

fn version_fault(alloc: Global, text: &str) -> Result<Option<NameFault>, AllocError>
    ensures value { IfOk result (λ f. f ≡ version_fault text.now) }
    ensures exact { text.now ≡ [] → result ≡ Ok (version_fault text.now) }
{
    if text.is_empty() {
        Ok(Some(NameFault::Empty))
    } else if reads_as_version(alloc, text)? {
        Ok(None)
    } else {
        Ok(Some(NameFault::BadVersion))
    }
}

fn without_front<'a>(text: &'a str, front: &str) -> Option<&'a str>
    ensures { option_copied result ≡ without_front front.now text.now }
{
    text.strip_prefix(front)
}

fn cut(text: &str, separator: char) -> Option<(&str, &str)>
    requires { separator < 128 }
    ensures { pair_view result ≡ cut separator text.now }
{
    text.split_once(separator)
}

fn cut_or_all(text: &str, separator: char) -> (&str, &str)
    requires { separator < 128 }
    ensures { (result.0.now, result.1.now) ≡ cut_or_all separator text.now }
{
    match cut(text, separator) {
        Some(parts) => parts,
        None => (text, ""),
    }
}

fn has_interface_mark(text: &str) -> bool
    ensures { result ≡ list_any is_interface_mark text.now }
{
    text.bytes().any(|b| b == b':' || b == b'/' || b == b'@')
}

fn is_bracketed(text: &str) -> bool
    ensures { result ≡ is_bracketed text.now }
{
    text.starts_with('[')
}

fn interface_parts<'a>(text: &'a str, version: Option<&'a str>) -> ExternNameForm<'a>
    ensures { form_tree result ≡ interface_parts (option_copied version.entry) text.now }
{
    let (namespace, rest) = cut_or_all(text, ':');
    let (package, interface) = cut_or_all(rest, '/');
    ExternNameForm::Interface {
        namespace,
        package,
        interface,
        version,
    }
}

fn interface_of(text: &str) -> ExternNameForm<'_>
    ensures { form_tree result ≡ interface_of text.now }
{
    match cut(text, '@') {
        Some((name, version)) => interface_parts(name, Some(version)),
        None => interface_parts(text, None),
    }
}

/// The form of a text that does not begin with a bracket.
#[tactic(auto, using(crate::proofs::ExternNameLaws::unbracketed))]
fn plain_form(text: &str) -> ExternNameForm<'_>
    requires { is_bracketed text.now ≡ false }
    ensures { form_of text.now ≡ Some (form_tree result) }
{
    if has_interface_mark(text) {
        interface_of(text)
    } else {
        ExternNameForm::Label(text)
    }
}

fn method_of(text: &str) -> Option<ExternNameForm<'_>>
    ensures { option_map form_tree result ≡ member method text.now }
{
    let (resource, method) = cut(text, '.')?;
    Some(ExternNameForm::Method { resource, method })
}

fn static_of(text: &str) -> Option<ExternNameForm<'_>>
    ensures { option_map form_tree result ≡ member static text.now }
{
    let (resource, function) = cut(text, '.')?;
    Some(ExternNameForm::Static { resource, function })
}

/// The form of a text that begins with a bracket, if it has one of the three annotations.
fn annotated_form(text: &str) -> Option<ExternNameForm<'_>>
    requires { is_bracketed text.now ≡ true }
    ensures { option_map form_tree result ≡ form_of text.now }
{
    if let Some(rest) = without_front(text, "[method]") {
        method_of(rest)
    } else if let Some(rest) = without_front(text, "[static]") {
        static_of(rest)
    } else {
        let resource = without_front(text, "[constructor]")?;
        Some(ExternNameForm::Constructor { resource })
    }
}

fn form_of(text: &str) -> Option<ExternNameForm<'_>>
    ensures { option_map form_tree result ≡ form_of text.now }
{
    if is_bracketed(text) {
        annotated_form(text)
    } else {
        Some(plain_form(text))
    }
}

fn labels_fault(form: &ExternNameForm<'_>) -> Option<NameFault>
    ensures { result ≡ labels_fault (form_tree form.now) }
{
    match form {
        ExternNameForm::Label(label) => label_fault(label),
        ExternNameForm::Method { resource, method } => least_fault(
            label_fault(resource),
            label_fault(method),
        ),
        ExternNameForm::Static { resource, function } => least_fault(
            label_fault(resource),
            label_fault(function),
        ),
        ExternNameForm::Constructor { resource } => label_fault(resource),
        ExternNameForm::Interface {
            namespace,
            package,
            interface,
            ..
        } => least_fault(
            label_fault(namespace),
            least_fault(label_fault(package), label_fault(interface)),
        ),
    }
}

fn parts_fault(alloc: Global, form: &ExternNameForm<'_>) -> Result<Option<NameFault>, AllocError>
    ensures value { IfOk result (λ f. f ≡ parts_fault (form_tree form.now)) }
    ensures exact { version_text (form_tree form.now) ≡ []
        → result ≡ Ok (parts_fault (form_tree form.now)) }
{
    let labels = labels_fault(form);
    match form {
        ExternNameForm::Interface {
            version: Some(version),
            ..
        } => Ok(least_fault(labels, version_fault(alloc, version)?)),
        _ => Ok(labels),
    }
}

/// Why a text is no extern name. Most names are labels, which have no other form to be read.
#[tactic(auto, using(crate::proofs::ExternNameLaws::label_is_name))]
fn extern_name_fault(alloc: Global, text: &str) -> Result<Option<NameFault>, AllocError>
    ensures value { IfOk result (λ f. f ≡ extern_name_fault text.now) }
    ensures exact { version_in text.now ≡ [] → result ≡ Ok (extern_name_fault text.now) }
{
    if is_label(text) {
        return Ok(None);
    }
    match form_of(text) {
        Some(form) => parts_fault(alloc, &form),
        None => Ok(Some(NameFault::BadAnnotation)),
    }
}
