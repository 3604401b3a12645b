//! Names that are distinct.

ghost use Rattle.std.specs.Prelude.{◌≡◌, IfOk, IsFalse, IsTrue, map, take};
ghost use Rattle.cm_types.specs.ExternNameForms.{form_tree};
ghost use Rattle.cm_wit_names.specs.MentionViews.{declared_view, mention_view};
ghost use Rattle.cm_wit_names.specs.Distinct.{Adds, Has, IsIn, Notes};
ghost use Rattle.cm_wit_names.specs.Known.{IsAt};
ghost use Rattle.cm_wit_names.specs.Rules.{IsLeast, IsTaken, folded, is_self, own_part, told_by};

use crate::first_keys::FirstKeys;
use crate::full_names::{folded, folded_text, has_no_capital};
use crate::names::Names;
use crate::{ListedName, Mention};
use cm_types::ExternNameForm;
use std::alloc::{AllocError, Global};

/// An interface's name without its package.
fn own_part<'a>(name: ExternNameForm<'a>) -> ExternNameForm<'a>
    ensures { form_tree result ≡ own_part (form_tree name.entry) }
{
    match name {
        ExternNameForm::Interface { interface, .. } => ExternNameForm::Interface {
            namespace: "",
            package: "",
            interface,
            version: None,
        },
        ExternNameForm::Label(_)
        | ExternNameForm::Method { .. }
        | ExternNameForm::Static { .. }
        | ExternNameForm::Constructor { .. } => name,
    }
}

/// What tells a declared name from others.
fn told_by<'a>(declared: ListedName<'a>) -> ExternNameForm<'a>
    ensures { form_tree result ≡ told_by (declared_view declared.entry) }
{
    let name = declared.name.form();
    if declared.is_own {
        own_part(name)
    } else {
        name
    }
}

/// Whether a mention has the name of an implied `self`. Refused only where there is no memory.
fn is_self(alloc: Global, mention: &Mention<'_>) -> Result<bool, AllocError>
    ensures { IfOk result (λ b. b ≡ is_self (mention_view mention.now)) }
{
    match mention.declares {
        Some(declared) if declared.after_self => {
            Ok(folded(alloc, declared.name.form())?.as_slice() == b"self".as_slice())
        }
        _ => Ok(false),
    }
}

/// Puts a name to the others of its list, and answers whether it was not there.
#[tactic(auto, using(crate::proofs::DistinctLaws::insert_laws))]
fn insert(
    seen: &mut FirstKeys,
    in_list: usize,
    name: &str,
    index: usize,
) -> Result<bool, AllocError>
    ensures added { IfOk result (λ b. IsTrue b → Adds (in_list, name.now) seen.old seen.new) }
    ensures present { IfOk result (λ b. IsFalse b → Has seen.old (in_list, name.now)) }
{
    let is_new = seen.note(in_list, name, index)?;
    Ok(is_new)
}

/// Puts a full name to the others of its list, without ASCII case, and answers whether it was not
/// there.
fn insert_folded(
    alloc: Global,
    seen: &mut FirstKeys,
    in_list: usize,
    name: ExternNameForm<'_>,
    index: usize,
) -> Result<bool, AllocError>
    ensures added { IfOk result (λ b. IsTrue b →
        Adds (in_list, folded (form_tree name.entry)) seen.old seen.new) }
    ensures present { IfOk result (λ b. IsFalse b →
        Has seen.old (in_list, folded (form_tree name.entry))) }
{
    if let ExternNameForm::Label(text) = name {
        if has_no_capital(text) {
            let is_new = insert(seen, in_list, text, index)?;
            return Ok(is_new);
        }
    }
    let text = folded_text(alloc, name)?;
    let is_new = insert(seen, in_list, text.as_str(), index)?;
    Ok(is_new)
}

/// Puts the name of a mention, the one of this index, to the others of its list. Answers whether it
/// was not there.
#[tactic(auto, using(crate::proofs::DistinctLaws::distinct_note_laws))]
fn note(
    alloc: Global,
    seen: &mut FirstKeys,
    mention: &Mention<'_>,
    index: usize,
) -> Result<bool, AllocError>
    ensures noted { IfOk result (λ b. IsTrue b →
        Notes (mention_view mention.now) seen.old seen.new) }
    ensures taken { IfOk result (λ b. IsFalse b → IsIn seen.old (mention_view mention.now)) }
{
    if is_self(alloc, mention)? {
        return Ok(false);
    }
    match mention.declares {
        None => Ok(true),
        Some(declared) => {
            let name = told_by(declared);
            let is_new = insert_folded(alloc, seen, declared.in_list, name, index)?;
            Ok(is_new)
        }
    }
}

impl Names<'_> {
    #[tactic(auto, using(crate::proofs::DistinctLaws::distinct_laws))]
    /// The first name that stands in its list already. Refused only where there is no memory.
    pub fn first_duplicate(&self, alloc: Global) -> Result<Option<usize>, AllocError>
        ensures { IfOk result (IsLeast (λ n. IsAt (map mention_view self.now.mentions.items) n
            (IsTaken (take n (map mention_view self.now.mentions.items))))) }
    {
        let mut seen = FirstKeys::new(alloc);
        for (index, mention) in self.mentions.iter().enumerate() {
            if !note(alloc, &mut seen, mention, index)? {
                return Ok(Some(index));
            }
        }
        Ok(None)
    }
}
