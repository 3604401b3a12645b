//! The mentions in types.

ghost use Rattle.std.specs.Prelude.{OnOk, map};
ghost use Rattle.cm_wit_reading.specs.Types.{types_from};
ghost use Rattle.cm_wit_reading.specs.TypeViews.{type_tree};
ghost use Rattle.cm_wit_names.specs.FileMentions.{reference, type_marks, types_marks};
ghost use Rattle.cm_wit_names.specs.Marks.{one};
ghost use Rattle.cm_wit_names.specs.MentionViews.{Adds, reference_view};

use crate::adding::{add, bare};
use crate::mention::{Mention, Place, Reference};
use cm_wit_reading::WitType;
use std::alloc::AllocError;

/// Adds what a name in a type refers to.
fn add_reference<'a>(
    out: &mut Vec<Mention<'a>>,
    place: Place,
    refers: Reference<'a>,
) -> Result<(), AllocError>
    ensures { OnOk result
        (Adds (one (reference place (reference_view refers.entry))) out.old out.new) }
{
    let mention = Mention {
        refers,
        owner: place.owner,
        in_result: place.in_result,
        ..bare()
    };
    add(out, mention)
}

/// Adds the mentions of a type.
#[cycle(types)]
#[tactic(auto, using(crate::proofs::AddLaws::add_laws))]
pub fn add_type<'a>(
    out: &mut Vec<Mention<'a>>,
    place: Place,
    ty: &'a WitType,
) -> Result<(), AllocError>
    ensures { OnOk result (Adds (type_marks place (type_tree ty.now)) out.old out.new) }
{
    let scope = place.scope;
    match ty {
        WitType::Primitive(_) => Ok(()),
        WitType::Named(name) => { add_reference(out, place, Reference::Type { scope, name }) }
        WitType::Borrow(name) => { add_reference(out, place, Reference::Resource { scope, name }) }
        WitType::List(element) | WitType::FixedList { element, .. } => {
            add_type(out, place, element)
        }
        WitType::Option(payload) => add_type(out, place, payload),
        WitType::Tuple(types) => add_types(out, place, types),
        WitType::Result { ok, error } => match (ok, error) {
            (None, None) => Ok(()),
            (Some(ty), None) | (None, Some(ty)) => add_type(out, place, ty),
            (Some(ok), Some(error)) => {
                add_type(out, place, ok)?;
                add_type(out, place, error)?;
                Ok(())
            }
        },
    }
}

#[cycle(types)]
fn add_types<'a>(
    out: &mut Vec<Mention<'a>>,
    place: Place,
    types: &'a [WitType],
) -> Result<(), AllocError>
    ensures { OnOk result
        (Adds (types_marks place (types_from (map type_tree types.now))) out.old out.new) }
{
    for ty in types {
        add_type(out, place, ty)?;
    }
    Ok(())
}
