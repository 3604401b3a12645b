//! The bytes that name forms, place by place.

ghost use Rattle.std.specs.Prelude.{◌≡◌};
ghost use Rattle.cm_binary_forms.specs.Codes.{section_kind, core_instance_form, core_sort};
ghost use Rattle.cm_binary_forms.specs.Codes.{instance_form, instance_export_sort, alias_sort};
ghost use Rattle.cm_binary_forms.specs.Codes.{core_alias_target, func_alias_target};
ghost use Rattle.cm_binary_forms.specs.Codes.{type_alias_target, no_alias_target, prim_val_type};
ghost use Rattle.cm_binary_forms.specs.Codes.{value_form, type_form};
ghost use Rattle.cm_binary_forms.specs.Codes.{declared_type_form, optional_form, result_form};
ghost use Rattle.cm_binary_forms.specs.Codes.{outer_type_target, declaration_form};
ghost use Rattle.cm_binary_forms.specs.Codes.{declared_desc_form, type_bound_form};
ghost use Rattle.cm_binary_forms.specs.Codes.{canon_form, option_form, desc_form, export_sort};
ghost use Rattle.cm_binary_forms.specs.Codes.{export_desc};

use crate::fault::{DecodeReason, Feature};
use cm_binary_grammar::Code;
use cm_binary_model::{CoreSort, ExportSort, InstanceExportSort};
use cm_types::PrimValType;

/// What a section holds.
#[derive(Clone, Copy)]
pub enum SectionKind {
    Custom,
    CoreModule,
    CoreInstances,
    Instances,
    Aliases,
    Types,
    Canons,
    Imports,
    Exports,
}

/// How a core instance is made.
#[derive(Clone, Copy)]
pub enum CoreInstanceForm {
    Instantiate,
    Exports,
}

/// How an instance is made.
#[derive(Clone, Copy)]
pub enum InstanceForm {
    Exports,
}

/// What is aliased.
#[derive(Clone, Copy)]
pub enum AliasSort {
    Core,
    Func,
    Type,
    Instance,
}

/// Where an alias of a core definition comes from.
#[derive(Clone, Copy)]
pub enum CoreAliasTarget {
    CoreInstanceExport,
}

/// Where an alias of a function comes from.
#[derive(Clone, Copy)]
pub enum FuncAliasTarget {
    InstanceExport,
}

/// Where an alias of a type comes from.
#[derive(Clone, Copy)]
pub enum TypeAliasTarget {
    InstanceExport,
    OuterType,
}

/// Which value type is defined.
#[derive(Clone, Copy)]
pub enum ValueForm {
    Primitive(PrimValType),
    Record,
    Variant,
    List,
    FixedList,
    Tuple,
    Flags,
    Enum,
    Option,
    Result,
    Own,
    Borrow,
}

/// Which type is defined.
#[derive(Clone, Copy)]
pub enum TypeForm {
    Value(ValueForm),
    Func,
    Resource,
    Instance,
}

/// Which type the type of an instance declares.
#[derive(Clone, Copy)]
pub enum DeclaredTypeForm {
    Value(ValueForm),
    Func,
}

/// What the type of an instance declares.
#[derive(Clone, Copy)]
pub enum DeclarationForm {
    Type,
    Alias,
    Export,
}

/// Where an alias in the type of an instance comes from.
#[derive(Clone, Copy)]
pub enum OuterTypeTarget {
    OuterType,
}

/// What the instances of a type export.
#[derive(Clone, Copy)]
pub enum DeclaredDescForm {
    Func,
    Type,
}

/// What is known of a type.
#[derive(Clone, Copy)]
pub enum TypeBoundForm {
    Equal,
    SubResource,
}

/// Whether something is there.
#[derive(Clone, Copy)]
pub enum OptionalForm {
    Absent,
    Present,
}

/// How many results a function has.
#[derive(Clone, Copy)]
pub enum ResultForm {
    One,
    Zero,
}

/// Which canonical definition stands there.
#[derive(Clone, Copy)]
pub enum CanonForm {
    Lift,
    Lower,
    ResourceNew,
    ResourceDrop,
    ResourceRep,
}

/// Which canonical option stands there.
#[derive(Clone, Copy)]
pub enum OptionForm {
    Utf8,
    Utf16,
    Latin1Utf16,
    Memory,
    Realloc,
    PostReturn,
}

/// What an import describes.
#[derive(Clone, Copy)]
pub enum DescForm {
    Func,
    Instance,
}

/// That an export has no description.
#[derive(Clone, Copy)]
pub enum NoDescription {
    Absent,
}

impl Code<DecodeReason> for SectionKind {
    ghost table = { section_kind };

    fn from_byte(byte: u8) -> Result<SectionKind, DecodeReason> {
        match byte {
            0x00 => Ok(SectionKind::Custom),
            0x01 => Ok(SectionKind::CoreModule),
            0x02 => Ok(SectionKind::CoreInstances),
            0x03 => Err(DecodeReason::Unsupported(Feature::CoreTypes)),
            0x04 => Err(DecodeReason::Unsupported(Feature::NestedComponents)),
            0x05 => Ok(SectionKind::Instances),
            0x06 => Ok(SectionKind::Aliases),
            0x07 => Ok(SectionKind::Types),
            0x08 => Ok(SectionKind::Canons),
            0x09 => Err(DecodeReason::Unsupported(Feature::Start)),
            0x0a => Ok(SectionKind::Imports),
            0x0b => Ok(SectionKind::Exports),
            _ => Err(DecodeReason::UnknownCode),
        }
    }
}

impl Code<DecodeReason> for CoreInstanceForm {
    ghost table = { core_instance_form };

    fn from_byte(byte: u8) -> Result<CoreInstanceForm, DecodeReason> {
        match byte {
            0x00 => Ok(CoreInstanceForm::Instantiate),
            0x01 => Ok(CoreInstanceForm::Exports),
            _ => Err(DecodeReason::UnknownCode),
        }
    }
}

impl Code<DecodeReason> for CoreSort {
    ghost table = { core_sort };

    fn from_byte(byte: u8) -> Result<CoreSort, DecodeReason> {
        match byte {
            0x00 => Ok(CoreSort::Func),
            0x01 => Ok(CoreSort::Table),
            0x02 => Ok(CoreSort::Memory),
            0x03 => Ok(CoreSort::Global),
            0x10..=0x12 => Err(DecodeReason::Unsupported(Feature::CoreSort)),
            _ => Err(DecodeReason::UnknownCode),
        }
    }
}

impl Code<DecodeReason> for InstanceForm {
    ghost table = { instance_form };

    fn from_byte(byte: u8) -> Result<InstanceForm, DecodeReason> {
        match byte {
            0x00 => Err(DecodeReason::Unsupported(Feature::InstanceOfComponent)),
            0x01 => Ok(InstanceForm::Exports),
            _ => Err(DecodeReason::UnknownCode),
        }
    }
}

impl Code<DecodeReason> for InstanceExportSort {
    ghost table = { instance_export_sort };

    fn from_byte(byte: u8) -> Result<InstanceExportSort, DecodeReason> {
        match byte {
            0x01 => Ok(InstanceExportSort::Func),
            0x03 => Ok(InstanceExportSort::Type),
            0x00..=0x05 => Err(DecodeReason::Unsupported(Feature::Sort)),
            _ => Err(DecodeReason::UnknownCode),
        }
    }
}

impl Code<DecodeReason> for AliasSort {
    ghost table = { alias_sort };

    fn from_byte(byte: u8) -> Result<AliasSort, DecodeReason> {
        match byte {
            0x00 => Ok(AliasSort::Core),
            0x01 => Ok(AliasSort::Func),
            0x03 => Ok(AliasSort::Type),
            0x05 => Ok(AliasSort::Instance),
            0x02 | 0x04 => Err(DecodeReason::Unsupported(Feature::Sort)),
            _ => Err(DecodeReason::UnknownCode),
        }
    }
}

impl Code<DecodeReason> for CoreAliasTarget {
    ghost table = { core_alias_target };

    fn from_byte(byte: u8) -> Result<CoreAliasTarget, DecodeReason> {
        match byte {
            0x01 => Ok(CoreAliasTarget::CoreInstanceExport),
            _ => Err(no_alias_target(byte)),
        }
    }
}

impl Code<DecodeReason> for FuncAliasTarget {
    ghost table = { func_alias_target };

    fn from_byte(byte: u8) -> Result<FuncAliasTarget, DecodeReason> {
        match byte {
            0x00 => Ok(FuncAliasTarget::InstanceExport),
            _ => Err(no_alias_target(byte)),
        }
    }
}

impl Code<DecodeReason> for TypeAliasTarget {
    ghost table = { type_alias_target };

    fn from_byte(byte: u8) -> Result<TypeAliasTarget, DecodeReason> {
        match byte {
            0x00 => Ok(TypeAliasTarget::InstanceExport),
            0x02 => Ok(TypeAliasTarget::OuterType),
            _ => Err(no_alias_target(byte)),
        }
    }
}

impl Code<DecodeReason> for PrimValType {
    ghost table = { prim_val_type };

    fn from_byte(byte: u8) -> Result<PrimValType, DecodeReason> {
        match byte {
            0x7f => Ok(PrimValType::Bool),
            0x7e => Ok(PrimValType::S8),
            0x7d => Ok(PrimValType::U8),
            0x7c => Ok(PrimValType::S16),
            0x7b => Ok(PrimValType::U16),
            0x7a => Ok(PrimValType::S32),
            0x79 => Ok(PrimValType::U32),
            0x78 => Ok(PrimValType::S64),
            0x77 => Ok(PrimValType::U64),
            0x75 | 0x76 => Err(DecodeReason::Unsupported(Feature::FloatType)),
            0x74 => Ok(PrimValType::Char),
            0x73 => Ok(PrimValType::String),
            _ => Err(DecodeReason::UnknownCode),
        }
    }
}

impl Code<DecodeReason> for ValueForm {
    ghost table = { value_form };

    fn from_byte(byte: u8) -> Result<ValueForm, DecodeReason> {
        match byte {
            0x72 => Ok(ValueForm::Record),
            0x71 => Ok(ValueForm::Variant),
            0x70 => Ok(ValueForm::List),
            0x6f => Ok(ValueForm::Tuple),
            0x6e => Ok(ValueForm::Flags),
            0x6d => Ok(ValueForm::Enum),
            0x6b => Ok(ValueForm::Option),
            0x6a => Ok(ValueForm::Result),
            0x69 => Ok(ValueForm::Own),
            0x68 => Ok(ValueForm::Borrow),
            0x67 => Ok(ValueForm::FixedList),
            _ => match PrimValType::from_byte(byte) {
                Ok(primitive) => Ok(ValueForm::Primitive(primitive)),
                Err(reason) => Err(reason),
            },
        }
    }
}

impl Code<DecodeReason> for TypeForm {
    ghost table = { type_form };

    fn from_byte(byte: u8) -> Result<TypeForm, DecodeReason> {
        match byte {
            0x40 => Ok(TypeForm::Func),
            0x3f => Ok(TypeForm::Resource),
            0x41 => Err(DecodeReason::Unsupported(Feature::TypeDefinition)),
            0x42 => Ok(TypeForm::Instance),
            _ => match ValueForm::from_byte(byte) {
                Ok(form) => Ok(TypeForm::Value(form)),
                Err(reason) => Err(reason),
            },
        }
    }
}

impl Code<DecodeReason> for DeclaredTypeForm {
    ghost table = { declared_type_form };

    fn from_byte(byte: u8) -> Result<DeclaredTypeForm, DecodeReason> {
        match byte {
            0x40 => Ok(DeclaredTypeForm::Func),
            0x3f | 0x41 | 0x42 => Err(DecodeReason::Unsupported(Feature::DeclaredType)),
            _ => match ValueForm::from_byte(byte) {
                Ok(form) => Ok(DeclaredTypeForm::Value(form)),
                Err(reason) => Err(reason),
            },
        }
    }
}

impl Code<DecodeReason> for DeclarationForm {
    ghost table = { declaration_form };

    fn from_byte(byte: u8) -> Result<DeclarationForm, DecodeReason> {
        match byte {
            0x00 => Err(DecodeReason::Unsupported(Feature::Declaration)),
            0x01 => Ok(DeclarationForm::Type),
            0x02 => Ok(DeclarationForm::Alias),
            0x04 => Ok(DeclarationForm::Export),
            _ => Err(DecodeReason::UnknownCode),
        }
    }
}

impl Code<DecodeReason> for OuterTypeTarget {
    ghost table = { outer_type_target };

    fn from_byte(byte: u8) -> Result<OuterTypeTarget, DecodeReason> {
        match byte {
            0x02 => Ok(OuterTypeTarget::OuterType),
            _ => Err(no_alias_target(byte)),
        }
    }
}

impl Code<DecodeReason> for DeclaredDescForm {
    ghost table = { declared_desc_form };

    fn from_byte(byte: u8) -> Result<DeclaredDescForm, DecodeReason> {
        match byte {
            0x01 => Ok(DeclaredDescForm::Func),
            0x03 => Ok(DeclaredDescForm::Type),
            0x00..=0x05 => Err(DecodeReason::Unsupported(Feature::Description)),
            _ => Err(DecodeReason::UnknownCode),
        }
    }
}

impl Code<DecodeReason> for TypeBoundForm {
    ghost table = { type_bound_form };

    fn from_byte(byte: u8) -> Result<TypeBoundForm, DecodeReason> {
        match byte {
            0x00 => Ok(TypeBoundForm::Equal),
            0x01 => Ok(TypeBoundForm::SubResource),
            _ => Err(DecodeReason::UnknownCode),
        }
    }
}

impl Code<DecodeReason> for OptionalForm {
    ghost table = { optional_form };

    fn from_byte(byte: u8) -> Result<OptionalForm, DecodeReason> {
        match byte {
            0x00 => Ok(OptionalForm::Absent),
            0x01 => Ok(OptionalForm::Present),
            _ => Err(DecodeReason::UnknownCode),
        }
    }
}

impl Code<DecodeReason> for ResultForm {
    ghost table = { result_form };

    fn from_byte(byte: u8) -> Result<ResultForm, DecodeReason> {
        match byte {
            0x00 => Ok(ResultForm::One),
            0x01 => Ok(ResultForm::Zero),
            _ => Err(DecodeReason::UnknownCode),
        }
    }
}

impl Code<DecodeReason> for CanonForm {
    ghost table = { canon_form };

    fn from_byte(byte: u8) -> Result<CanonForm, DecodeReason> {
        match byte {
            0x00 => Ok(CanonForm::Lift),
            0x01 => Ok(CanonForm::Lower),
            0x02 => Ok(CanonForm::ResourceNew),
            0x03 => Ok(CanonForm::ResourceDrop),
            0x04 => Ok(CanonForm::ResourceRep),
            _ => Err(DecodeReason::UnknownCode),
        }
    }
}

impl Code<DecodeReason> for OptionForm {
    ghost table = { option_form };

    fn from_byte(byte: u8) -> Result<OptionForm, DecodeReason> {
        match byte {
            0x00 => Ok(OptionForm::Utf8),
            0x01 => Ok(OptionForm::Utf16),
            0x02 => Ok(OptionForm::Latin1Utf16),
            0x03 => Ok(OptionForm::Memory),
            0x04 => Ok(OptionForm::Realloc),
            0x05 => Ok(OptionForm::PostReturn),
            _ => Err(DecodeReason::UnknownCode),
        }
    }
}

impl Code<DecodeReason> for DescForm {
    ghost table = { desc_form };

    fn from_byte(byte: u8) -> Result<DescForm, DecodeReason> {
        match byte {
            0x01 => Ok(DescForm::Func),
            0x05 => Ok(DescForm::Instance),
            0x00..=0x05 => Err(DecodeReason::Unsupported(Feature::Description)),
            _ => Err(DecodeReason::UnknownCode),
        }
    }
}

impl Code<DecodeReason> for ExportSort {
    ghost table = { export_sort };

    fn from_byte(byte: u8) -> Result<ExportSort, DecodeReason> {
        match byte {
            0x01 => Ok(ExportSort::Func),
            0x05 => Ok(ExportSort::Instance),
            0x00..=0x05 => Err(DecodeReason::Unsupported(Feature::Sort)),
            _ => Err(DecodeReason::UnknownCode),
        }
    }
}

impl Code<DecodeReason> for NoDescription {
    ghost table = { export_desc };

    fn from_byte(byte: u8) -> Result<NoDescription, DecodeReason> {
        match byte {
            0x00 => Ok(NoDescription::Absent),
            0x01 => Err(DecodeReason::Unsupported(Feature::ExportDescription)),
            _ => Err(DecodeReason::UnknownCode),
        }
    }
}

/// Why the target of an alias is refused.
pub fn no_alias_target(byte: u8) -> DecodeReason
    ensures { result ≡ no_alias_target byte }
{
    match byte {
        0x00..=0x02 => DecodeReason::Unsupported(Feature::AliasTarget),
        _ => DecodeReason::UnknownCode,
    }
}
