//! Imports, exports and their items by their places, and those of the same name in another
//! signature.

ghost use Rattle.std.specs.Prelude.{◌≡◌, true};
ghost use Rattle.cm_types_arena.specs.Listed.{are_in};

use crate::blocks::Side;
use cm_types::ExternNameForm;
use cm_types_arena::{Desc, Externs, Items, Signature};

/// An import or an export by its place, from 0, or an item of one by its place there.
#[derive(Clone, Copy)]
pub(crate) struct Spot {
    pub side: Side,
    pub place: usize,
    pub item: Option<usize>,
}

impl Spot {
    /// The import or the export itself.
    pub(crate) fn whole(self) -> Spot {
        Spot {
            side: self.side,
            place: self.place,
            item: None,
        }
    }

    /// What has the same name in another signature, on the same side.
    pub(crate) fn facing(self, own: &Signature, other: &Signature) -> Option<Spot> {
        let each = list_of(own, self.side).at(self.place)?;
        let others = list_of(other, self.side);
        let place = extern_named(others, each.name)?;
        let item = match self.item {
            None => None,
            Some(number) => {
                let item = items_of(each.desc)?.at(number)?;
                let facing = items_of(others.at(place)?.desc)?;
                Some(item_named(facing, item.name)?)
            }
        };
        Some(Spot {
            side: self.side,
            place,
            item,
        })
    }
}

/// The imports or the exports of a signature.
pub(crate) fn list_of(signature: &Signature, side: Side) -> &Externs
    ensures { are_in signature.now.types result.now ≡ true }
{
    match side {
        Side::Imports => signature.imports(),
        Side::Exports => signature.exports(),
    }
}

/// The items of an instance.
fn items_of(desc: Desc<'_>) -> Option<Items<'_>> {
    match desc {
        Desc::Func(_) => None,
        Desc::Instance(items) => Some(items),
    }
}

/// The place of the import or the export of this name.
fn extern_named(externs: &Externs, name: ExternNameForm<'_>) -> Option<usize> {
    for place in 0..externs.len() {
        if is_same(externs.at(place)?.name, name) {
            return Some(place);
        }
    }
    None
}

/// The place of the item of this name.
fn item_named(items: Items<'_>, name: ExternNameForm<'_>) -> Option<usize> {
    for place in 0..items.len() {
        if is_same(items.at(place)?.name, name) {
            return Some(place);
        }
    }
    None
}

/// Whether two names are the same. What stands in front, which many names may share, is compared
/// last.
fn is_same(a: ExternNameForm<'_>, b: ExternNameForm<'_>) -> bool {
    match (a, b) {
        (ExternNameForm::Label(a), ExternNameForm::Label(b))
        | (
            ExternNameForm::Constructor { resource: a },
            ExternNameForm::Constructor { resource: b },
        ) => a == b,
        (
            ExternNameForm::Method {
                resource,
                method: a,
            },
            ExternNameForm::Method {
                resource: other,
                method: b,
            },
        )
        | (
            ExternNameForm::Static {
                resource,
                function: a,
            },
            ExternNameForm::Static {
                resource: other,
                function: b,
            },
        ) => a == b && resource == other,
        _ => is_same_interface(a, b),
    }
}

/// Whether two names are that of one interface.
fn is_same_interface(a: ExternNameForm<'_>, b: ExternNameForm<'_>) -> bool {
    match (a, b) {
        (
            ExternNameForm::Interface {
                namespace,
                package,
                interface: a,
                version,
            },
            ExternNameForm::Interface {
                namespace: space,
                package: other,
                interface: b,
                version: number,
            },
        ) => a == b && version == number && package == other && namespace == space,
        _ => false,
    }
}
