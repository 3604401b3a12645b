//! Canonical definitions and their options.

ghost use Rattle.std.specs.Prelude.{◌≡◌, Ok, map};
ghost use Rattle.cm_binary_grammar.specs.Faults.{Gives};
ghost use Rattle.cm_binary_grammar.specs.Reading.{Reads};
ghost use Rattle.cm_binary_model.specs.declared.canons.CanonOption.{CanonOption};
ghost use Rattle.cm_binary_model.specs.Trees.{CanonTree, canon_tree};
ghost use Rattle.cm_binary_forms.specs.declared.codes.CanonForm.TheVariants as canon_forms;
ghost use Rattle.cm_binary_forms.specs.Texts.{vector};
ghost use Rattle.cm_binary_forms.specs.Canons.{canon_option, canon_option_of, canon_of, canon};

use crate::indices::read_index;
use crate::sections::Items;
use crate::{CanonForm, DecodeReason, OptionForm};
use cm_binary_grammar::{Cursor, Form, ReadError, read_vec};
use cm_binary_model::{Canon, CanonOption};
use std::alloc::Global;

impl Form<DecodeReason, Items> for CanonOption {
    ghost Tree = { CanonOption };

    ghost tree = { λ o. o };

    ghost grammar = { canon_option };

    #[tactic(auto, unfolding(crate::specs::Canons::canon_option, crate::specs::Canons::canon_option_of))]
    fn read(
        _alloc: Global,
        bytes: &mut Cursor<'_, DecodeReason>,
    ) -> Result<Self, ReadError<DecodeReason>> {
        match bytes.code()? {
            OptionForm::Utf8 => Ok(CanonOption::Utf8),
            OptionForm::Utf16 => Ok(CanonOption::Utf16),
            OptionForm::Latin1Utf16 => Ok(CanonOption::Latin1Utf16),
            OptionForm::Memory => Ok(CanonOption::Memory(read_index(bytes)?)),
            OptionForm::Realloc => { Ok(CanonOption::Realloc(read_index(bytes)?)) }
            OptionForm::PostReturn => { Ok(CanonOption::PostReturn(read_index(bytes)?)) }
        }
    }
}

impl Form<DecodeReason, Items> for Canon {
    ghost Tree = { CanonTree };

    ghost tree = { canon_tree };

    ghost grammar = { canon };

    #[tactic(auto, unfolding(crate::specs::Canons::canon, crate::specs::Canons::canon_of))]
    fn read(
        alloc: Global,
        bytes: &mut Cursor<'_, DecodeReason>,
    ) -> Result<Self, ReadError<DecodeReason>> {
        match bytes.code()? {
            CanonForm::Lift => read_lift(alloc, bytes),
            CanonForm::Lower => read_lower(alloc, bytes),
            CanonForm::ResourceNew => {
                let resource = read_index(bytes)?;
                Ok(Canon::ResourceNew { resource })
            }
            CanonForm::ResourceDrop => {
                let resource = read_index(bytes)?;
                Ok(Canon::ResourceDrop { resource })
            }
            CanonForm::ResourceRep => {
                let resource = read_index(bytes)?;
                Ok(Canon::ResourceRep { resource })
            }
        }
    }
}

/// Reads a lift, behind its form.
#[tactic(auto, unfolding(crate::specs::Canons::canon_of))]
fn read_lift(
    alloc: Global,
    bytes: &mut Cursor<'_, DecodeReason>,
) -> Result<Canon, ReadError<DecodeReason>>
    ensures read { Reads (canon_of canon_forms.Lift) canon_tree bytes.old bytes.new result }
    ensures end { bytes.new.end ≡ bytes.old.end }
{
    bytes.byte(0x00, DecodeReason::UnknownCode)?;
    let core_func = read_index(bytes)?;
    let options = read_vec::<_, Items, _>(alloc, bytes, DecodeReason::BadNumber)?;
    let ty = read_index(bytes)?;
    Ok(Canon::Lift {
        core_func,
        options,
        ty,
    })
}

/// Reads a lower, behind its form.
#[tactic(auto, unfolding(crate::specs::Canons::canon_of))]
fn read_lower(
    alloc: Global,
    bytes: &mut Cursor<'_, DecodeReason>,
) -> Result<Canon, ReadError<DecodeReason>>
    ensures read { Reads (canon_of canon_forms.Lower) canon_tree bytes.old bytes.new result }
    ensures end { bytes.new.end ≡ bytes.old.end }
{
    bytes.byte(0x00, DecodeReason::UnknownCode)?;
    let func = read_index(bytes)?;
    let options = read_vec::<_, Items, _>(alloc, bytes, DecodeReason::BadNumber)?;
    Ok(Canon::Lower { func, options })
}
