//! The mentions in labelled types, parameters and functions.

ghost use Rattle.std.specs.Prelude.{OnOk, map};
ghost use Rattle.cm_wit_reading.specs.Views.{case_tree};
ghost use Rattle.cm_wit_reading.specs.SignatureViews.{func_tree, typed_tree};
ghost use Rattle.cm_wit_names.specs.FileMentions.{case_marks, func_marks, label_marks};
ghost use Rattle.cm_wit_names.specs.FileMentions.{typed_marks};
ghost use Rattle.cm_wit_names.specs.MentionViews.{Adds};

use crate::adding::add_label;
use crate::mention::{Mention, Place};
use crate::scope::Scope;
use crate::type_mentions::add_type;
use cm_types::Label;
use cm_wit_reading::{Case, Func, Typed};
use std::alloc::AllocError;

/// Adds names with types, behind an implied `self` or not.
#[tactic(auto, using(crate::proofs::AddLaws::add_laws))]
pub fn add_typed<'a>(
    out: &mut Vec<Mention<'a>>,
    after_self: bool,
    place: Place,
    list: &'a [Typed],
) -> Result<(), AllocError>
    ensures { OnOk result
        (Adds (typed_marks after_self place (map typed_tree list.now)) out.old out.new) }
{
    let in_list = Scope::next(out).list();
    for typed in list {
        add_label(out, in_list, after_self, &typed.name)?;
        add_type(out, place, &typed.ty)?;
    }
    Ok(())
}

/// Adds the cases of a variant.
#[tactic(auto, using(crate::proofs::AddLaws::add_laws))]
pub fn add_cases<'a>(
    out: &mut Vec<Mention<'a>>,
    place: Place,
    cases: &'a [Case],
) -> Result<(), AllocError>
    ensures { OnOk result (Adds (case_marks place (map case_tree cases.now)) out.old out.new) }
{
    let in_list = Scope::next(out).list();
    for case in cases {
        add_label(out, in_list, false, &case.name)?;
        if let Some(ty) = &case.ty {
            add_type(out, place, ty)?;
        }
    }
    Ok(())
}

/// Adds names alone.
#[tactic(auto, using(crate::proofs::AddLaws::add_laws))]
pub fn add_labels<'a>(out: &mut Vec<Mention<'a>>, names: &'a [Label]) -> Result<(), AllocError>
    ensures { OnOk result (Adds (label_marks names.now) out.old out.new) }
{
    let in_list = Scope::next(out).list();
    for name in names {
        add_label(out, in_list, false, name)?;
    }
    Ok(())
}

/// Adds the parameters, behind an implied `self` or not, and the result of a function of the
/// interface or world `scope`.
#[tactic(auto, using(crate::proofs::AddLaws::add_laws))]
pub fn add_func<'a>(
    out: &mut Vec<Mention<'a>>,
    after_self: bool,
    scope: usize,
    func: &'a Func,
) -> Result<(), AllocError>
    ensures { OnOk result
        (Adds (func_marks after_self scope (func_tree func.now)) out.old out.new) }
{
    let params = Place {
        scope,
        owner: None,
        in_result: false,
    };
    add_typed(out, after_self, params, &func.params)?;
    if let Some(ty) = &func.result {
        let result = Place {
            scope,
            owner: None,
            in_result: true,
        };
        add_type(out, result, ty)?;
    }
    Ok(())
}
