//! The names in the texts of definitions.

ghost use Rattle.std.specs.Prelude.{◌≡◌, ◌∷◌, [], IfOk, OnOk, map};
ghost use Rattle.std.specs.List.{flat_map};
ghost use Rattle.cm_wit_reading.specs.Types.{types_from};
ghost use Rattle.cm_wit_reading.specs.TypeViews.{type_tree};
ghost use Rattle.cm_wit_reading.specs.SignatureViews.{typed_tree};
ghost use Rattle.cm_wit_reading.specs.Views.{case_tree, type_def_tree};
ghost use Rattle.cm_wit_tables.specs.Declarations.{names_in, names_in_all, names_in_def};
ghost use Rattle.cm_wit_tables.specs.Declarations.{names_in_payload};
ghost use Rattle.cm_wit_tables.specs.TypeFaults.{borrowed_in, borrowed_in_all, borrowed_in_def};
ghost use Rattle.cm_wit_tables.specs.TypeFaults.{borrowed_in_payload};
ghost use Rattle.cm_wit_tables.specs.Names.{Adds, texts};

use cm_wit_reading::{Case, TypeDef, Typed, WitType};
use std::alloc::{AllocError, Global};

/// The names in a text, in reading order, and those among them that are of borrowed resources.
#[derive(Drop)]
pub struct Names<'a> {
    pub all: Vec<&'a str>,
    pub borrowed: Vec<&'a str>,
}

/// Adds a name.
fn add_name<'a>(out: &mut Names<'a>, name: &'a str) -> Result<(), AllocError>
    ensures { OnOk result (Adds (name.now ∷ []) [] out.old out.new) }
{
    out.all.push(name)?;
    Ok(())
}

/// Adds the name of a borrowed resource.
fn add_borrowed<'a>(out: &mut Names<'a>, name: &'a str) -> Result<(), AllocError>
    ensures { OnOk result (Adds (name.now ∷ []) (name.now ∷ []) out.old out.new) }
{
    out.all.push(name)?;
    out.borrowed.push(name)?;
    Ok(())
}

/// Adds the names in a type text.
#[cycle(types)]
#[tactic(auto, using(crate::proofs::AddLaws::add_laws))]
fn add_type<'a>(out: &mut Names<'a>, ty: &'a WitType) -> Result<(), AllocError>
    ensures { OnOk result
        (Adds (names_in (type_tree ty.now)) (borrowed_in (type_tree ty.now)) out.old out.new) }
{
    match ty {
        WitType::Primitive(_) => Ok(()),
        WitType::Named(name) => add_name(out, name.as_str()),
        WitType::Borrow(name) => add_borrowed(out, name.as_str()),
        WitType::List(element) | WitType::FixedList { element, .. } => add_type(out, element),
        WitType::Option(payload) => add_type(out, payload),
        WitType::Tuple(types) => add_types(out, types),
        WitType::Result { ok, error } => match (ok, error) {
            (None, None) => Ok(()),
            (Some(ty), None) | (None, Some(ty)) => add_type(out, ty),
            (Some(ok), Some(error)) => {
                add_type(out, ok)?;
                add_type(out, error)?;
                Ok(())
            }
        },
    }
}

/// Adds the names in type texts.
#[cycle(types)]
#[tactic(auto, using(crate::proofs::AddLaws::add_laws))]
fn add_types<'a>(out: &mut Names<'a>, types: &'a [WitType]) -> Result<(), AllocError>
    ensures { OnOk result (Adds (names_in_all (types_from (map type_tree types.now)))
        (borrowed_in_all (types_from (map type_tree types.now))) out.old out.new) }
{
    for ty in types {
        add_type(out, ty)?;
    }
    Ok(())
}

/// Adds the names in the types of fields.
#[tactic(auto, using(crate::proofs::AddLaws::add_laws))]
fn add_fields<'a>(out: &mut Names<'a>, fields: &'a [Typed]) -> Result<(), AllocError>
    ensures { OnOk result (Adds (flat_map (λ f. names_in f.1) (map typed_tree fields.now))
        (flat_map (λ f. borrowed_in f.1) (map typed_tree fields.now)) out.old out.new) }
{
    for field in fields {
        add_type(out, &field.ty)?;
    }
    Ok(())
}

/// Adds the names in the payload of a case, if it carries one.
#[tactic(auto, using(crate::proofs::AddLaws::add_laws))]
fn add_case<'a>(out: &mut Names<'a>, case: &'a Case) -> Result<(), AllocError>
    ensures { OnOk result (Adds (names_in_payload (case_tree case.now).ty)
        (borrowed_in_payload (case_tree case.now).ty) out.old out.new) }
{
    match &case.ty {
        Some(ty) => add_type(out, ty),
        None => Ok(()),
    }
}

/// Adds the names in the payloads of cases.
#[tactic(auto, using(crate::proofs::AddLaws::add_laws))]
fn add_cases<'a>(out: &mut Names<'a>, cases: &'a [Case]) -> Result<(), AllocError>
    ensures { OnOk result (Adds (flat_map (λ c. names_in_payload c.ty) (map case_tree cases.now))
        (flat_map (λ c. borrowed_in_payload c.ty) (map case_tree cases.now)) out.old out.new) }
{
    for case in cases {
        add_case(out, case)?;
    }
    Ok(())
}

/// Adds the names in what a definition defines.
#[tactic(auto, using(crate::proofs::AddLaws::add_laws))]
fn add_def<'a>(out: &mut Names<'a>, def: &'a TypeDef) -> Result<(), AllocError>
    ensures { OnOk result (Adds (names_in_def (type_def_tree def.now))
        (borrowed_in_def (type_def_tree def.now)) out.old out.new) }
{
    match def {
        TypeDef::Alias(ty) => add_type(out, ty),
        TypeDef::Record(fields) => add_fields(out, fields),
        TypeDef::Variant(cases) => add_cases(out, cases),
        TypeDef::Enum(_) | TypeDef::Flags(_) | TypeDef::Resource(_) => Ok(()),
    }
}

/// The names in what a definition defines, in time linear in its text. Refused only where there is
/// no memory.
pub fn names_in_def<'a>(alloc: Global, def: &'a TypeDef) -> Result<Names<'a>, AllocError>
    ensures all { IfOk result (λ n. texts n.all.items ≡ names_in_def (type_def_tree def.now)) }
    ensures borrowed { IfOk result (λ n.
        texts n.borrowed.items ≡ borrowed_in_def (type_def_tree def.now)) }
{
    let mut names = Names {
        all: Vec::new(alloc),
        borrowed: Vec::new(alloc),
    };
    add_def(&mut names, def)?;
    Ok(names)
}
