//! Types.

ghost use Rattle.std.specs.Prelude.{◌≡◌, ℕ, List, Ok, pos};
ghost use Rattle.cm_binary_grammar.specs.Faults.{Gives, Fails};
ghost use Rattle.cm_binary_grammar.specs.Reading.{Reads};
ghost use Rattle.cm_types.specs.declared.def_types.ValType.{ValType};
ghost use Rattle.cm_types.specs.declared.def_types.LabeledValType.{LabeledValType};
ghost use Rattle.cm_types.specs.declared.def_types.CaseType.{CaseType};
ghost use Rattle.cm_types.specs.DefTypes.{def_val_type_tree, func_type_tree, DefTypeTree};
ghost use Rattle.cm_types.specs.DefTypes.{def_type_tree};
ghost use Rattle.cm_binary_model.specs.Limits.{types_in_def};
ghost use Rattle.cm_binary_forms.specs.Texts.{index, label};
ghost use Rattle.cm_binary_forms.specs.Types.{optional, type_index, val_type, param, case_type};
ghost use Rattle.cm_binary_forms.specs.Types.{def_val_type_of, func_result_of, func_result};
ghost use Rattle.cm_binary_forms.specs.Types.{func_type, def_type, def_type_from};

use crate::indices::read_index;
use crate::{DecodeReason, OptionalForm, ResultForm, TypeForm, ValueForm, read_label};
use cm_binary_grammar::{Cursor, Form, ReadError, StockedForm, read_stocked, read_vec};
use cm_binary_model::types_in_def;
use cm_types::{CaseType, DefType, DefValType, FuncType, Label, LabeledValType, ValType};
use std::alloc::Global;

/// The sections of types, as a place of forms.
pub struct Types;

impl Form<DecodeReason, Types> for Label {
    ghost Tree = { List ℕ };

    ghost tree = { λ l. l };

    ghost grammar = { label };

    fn read(
        alloc: Global,
        bytes: &mut Cursor<'_, DecodeReason>,
    ) -> Result<Self, ReadError<DecodeReason>> {
        read_label(alloc, bytes)
    }
}

impl Form<DecodeReason, Types> for ValType {
    ghost Tree = { ValType };

    ghost tree = { λ t. t };

    ghost grammar = { val_type };

    fn read(
        _alloc: Global,
        bytes: &mut Cursor<'_, DecodeReason>,
    ) -> Result<Self, ReadError<DecodeReason>> {
        read_val_type(bytes)
    }
}

/// A parameter of a function or a field of a record.
impl Form<DecodeReason, Types> for LabeledValType {
    ghost Tree = { LabeledValType };

    ghost tree = { λ p. p };

    ghost grammar = { param };

    #[tactic(auto, unfolding(crate::specs::Types::param))]
    fn read(
        alloc: Global,
        bytes: &mut Cursor<'_, DecodeReason>,
    ) -> Result<Self, ReadError<DecodeReason>> {
        let label = read_label(alloc, bytes)?;
        let ty = read_val_type(bytes)?;
        Ok(LabeledValType { label, ty })
    }
}

impl Form<DecodeReason, Types> for CaseType {
    ghost Tree = { CaseType };

    ghost tree = { λ c. c };

    ghost grammar = { case_type };

    #[tactic(auto, unfolding(crate::specs::Types::case_type))]
    fn read(
        alloc: Global,
        bytes: &mut Cursor<'_, DecodeReason>,
    ) -> Result<Self, ReadError<DecodeReason>> {
        let label = read_label(alloc, bytes)?;
        let payload = read_optional_val_type(bytes)?;
        bytes.byte(0x00, DecodeReason::UnknownCode)?;
        Ok(CaseType { label, payload })
    }
}

impl StockedForm<DecodeReason, Types> for DefType {
    ghost Tree = { DefTypeTree };

    ghost tree = { def_type_tree };

    ghost grammar = { def_type_from };

    ghost cost = { types_in_def };

    #[tactic(auto, unfolding(crate::specs::Types::def_type_from))]
    fn read(
        alloc: Global,
        bytes: &mut Cursor<'_, DecodeReason>,
        stock: usize,
    ) -> Result<Self, ReadError<DecodeReason>> {
        if stock == 0 {
            return Err(bytes.fault(DecodeReason::TooMany));
        }
        read_def_type(alloc, bytes, stock - 1)
    }

    fn rest_of(&self, stock: usize) -> usize {
        stock.saturating_sub(types_in_def(self) as usize)
    }
}

/// Reads a value type.
#[inline(always)]
#[tactic(auto, unfolding(crate::specs::Types::val_type, crate::specs::Types::val_type_of))]
fn read_val_type(bytes: &mut Cursor<'_, DecodeReason>) -> Result<ValType, ReadError<DecodeReason>>
    ensures read { Reads val_type (λ t. t) bytes.old bytes.new result }
    ensures end { bytes.new.end ≡ bytes.old.end }
{
    match bytes.rest {
        [] => Err(bytes.want()),
        [0x40..=0x7f, ..] => Ok(ValType::Primitive(bytes.code()?)),
        [_, ..] => Ok(ValType::Index(read_type_index(bytes)?)),
    }
}

/// Reads the index of a type as a number with a sign.
#[inline(never)]
#[tactic(auto, unfolding(crate::specs::Types::type_index))]
fn read_type_index(bytes: &mut Cursor<'_, DecodeReason>) -> Result<u32, ReadError<DecodeReason>>
    ensures read { Reads type_index (λ i. pos i) bytes.old bytes.new result }
    ensures end { bytes.new.end ≡ bytes.old.end }
{
    let fault = bytes.fault(DecodeReason::BadNumber);
    let number = bytes.signed(DecodeReason::BadNumber)?;
    if number < 0 || number >= 1 << 32 {
        return Err(fault);
    }
    Ok(number as u32)
}

/// Reads a value type that may be there.
#[tactic(auto, unfolding(crate::specs::Types::optional, crate::specs::Types::optional_of))]
fn read_optional_val_type(
    bytes: &mut Cursor<'_, DecodeReason>,
) -> Result<Option<ValType>, ReadError<DecodeReason>>
    ensures read { Reads (optional val_type) (λ o. o) bytes.old bytes.new result }
    ensures end { bytes.new.end ≡ bytes.old.end }
{
    match bytes.code()? {
        OptionalForm::Absent => Ok(None),
        OptionalForm::Present => Ok(Some(read_val_type(bytes)?)),
    }
}

/// Reads an index that may be there.
#[tactic(auto, unfolding(crate::specs::Types::optional, crate::specs::Types::optional_of))]
fn read_optional_index(
    bytes: &mut Cursor<'_, DecodeReason>,
) -> Result<Option<u32>, ReadError<DecodeReason>>
    ensures read { Reads (optional index) (λ o. o) bytes.old bytes.new result }
    ensures end { bytes.new.end ≡ bytes.old.end }
{
    match bytes.code()? {
        OptionalForm::Absent => Ok(None),
        OptionalForm::Present => Ok(Some(read_index(bytes)?)),
    }
}

/// Reads a type definition, where `left` more types may stand in it.
#[tactic(auto, unfolding(crate::specs::Types::def_type, crate::specs::Types::def_type_of, crate::specs::Types::declarations))]
fn read_def_type(
    alloc: Global,
    bytes: &mut Cursor<'_, DecodeReason>,
    left: usize,
) -> Result<DefType, ReadError<DecodeReason>>
    ensures read { Reads (def_type left) def_type_tree bytes.old bytes.new result }
    ensures end { bytes.new.end ≡ bytes.old.end }
{
    match bytes.code()? {
        TypeForm::Value(form) => Ok(DefType::Value(read_def_val_type(alloc, bytes, form)?)),
        TypeForm::Func => Ok(DefType::Func(read_func_type(alloc, bytes)?)),
        TypeForm::Resource => {
            bytes.byte(0x7f, DecodeReason::UnknownCode)?;
            Ok(DefType::Resource(read_optional_index(bytes)?))
        }
        TypeForm::Instance => {
            let bad = DecodeReason::BadNumber;
            let declarations = read_stocked::<_, Types, _>(alloc, bytes, bad, left)?;
            Ok(DefType::Instance(declarations))
        }
    }
}

/// Reads a value type that is defined, behind its form.
#[tactic(auto, unfolding(crate::specs::Types::def_val_type_of))]
pub(crate) fn read_def_val_type(
    alloc: Global,
    bytes: &mut Cursor<'_, DecodeReason>,
    form: ValueForm,
) -> Result<DefValType, ReadError<DecodeReason>>
    ensures read { Reads (def_val_type_of form) def_val_type_tree bytes.old bytes.new result }
    ensures end { bytes.new.end ≡ bytes.old.end }
{
    let bad = DecodeReason::BadNumber;
    match form {
        ValueForm::Primitive(primitive) => Ok(DefValType::Primitive(primitive)),
        ValueForm::Record => Ok(DefValType::Record(read_vec::<_, Types, _>(alloc, bytes, bad)?)),
        ValueForm::Variant => Ok(DefValType::Variant(read_vec::<_, Types, _>(alloc, bytes, bad)?)),
        ValueForm::List => Ok(DefValType::List(read_val_type(bytes)?)),
        ValueForm::FixedList => {
            let element = read_val_type(bytes)?;
            let length = read_index(bytes)?;
            Ok(DefValType::FixedList { element, length })
        }
        ValueForm::Tuple => Ok(DefValType::Tuple(read_vec::<_, Types, _>(alloc, bytes, bad)?)),
        ValueForm::Flags => Ok(DefValType::Flags(read_vec::<_, Types, _>(alloc, bytes, bad)?)),
        ValueForm::Enum => Ok(DefValType::Enum(read_vec::<_, Types, _>(alloc, bytes, bad)?)),
        ValueForm::Option => Ok(DefValType::Option(read_val_type(bytes)?)),
        ValueForm::Result => {
            let ok = read_optional_val_type(bytes)?;
            let error = read_optional_val_type(bytes)?;
            Ok(DefValType::Result { ok, error })
        }
        ValueForm::Own => Ok(DefValType::Own(read_index(bytes)?)),
        ValueForm::Borrow => Ok(DefValType::Borrow(read_index(bytes)?)),
    }
}

/// Reads the type of a function, behind its code.
#[tactic(auto, unfolding(crate::specs::Types::func_type))]
pub(crate) fn read_func_type(
    alloc: Global,
    bytes: &mut Cursor<'_, DecodeReason>,
) -> Result<FuncType, ReadError<DecodeReason>>
    ensures read { Reads func_type func_type_tree bytes.old bytes.new result }
    ensures end { bytes.new.end ≡ bytes.old.end }
{
    let params = read_vec::<_, Types, _>(alloc, bytes, DecodeReason::BadNumber)?;
    let result = read_result(bytes)?;
    Ok(FuncType { params, result })
}

/// Reads the result of a function.
#[tactic(auto, unfolding(crate::specs::Types::func_result, crate::specs::Types::func_result_of))]
fn read_result(
    bytes: &mut Cursor<'_, DecodeReason>,
) -> Result<Option<ValType>, ReadError<DecodeReason>>
    ensures read { Reads func_result (λ x. x) bytes.old bytes.new result }
    ensures end { bytes.new.end ≡ bytes.old.end }
{
    match bytes.code()? {
        ResultForm::One => Ok(Some(read_val_type(bytes)?)),
        ResultForm::Zero => {
            bytes.byte(0x00, DecodeReason::UnknownCode)?;
            Ok(None)
        }
    }
}
