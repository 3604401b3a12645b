//! Values of which a tree is made.

ghost use Rattle.std.specs.Prelude.{◌≡◌, ⊤};
ghost use Rattle.cm_types.specs.ValueTrees.{value_of, values_of};
ghost use Rattle.cm_abi_model.specs.declared.encoding.StringEncoding.TheVariants.{Utf8 as utf8};

use crate::maker::Maker;
use crate::{Giver, Progress, Stop, load_text};
use cm_abi_model::PartRecord;
use cm_types::Value;
use std::alloc::Global;

/// Makes the tree of a value, and keeps no record of its parts.
#[derive(Clone, Copy)]
pub struct Trees;

impl Maker for Trees {
    type Made = Value;

    type Row = Vec<Value>;

    type Kept = ();

    // No record is kept.
    ghost target = { λ maker. utf8 };

    ghost stands = { λ made v. value_of made ≡ v };

    ghost stand = { λ row vs. values_of row.items ≡ vs };

    ghost keeps = { λ old records new. ⊤ };

    ghost allocates = { ⊤ };

    ghost keeps_nothing = { λ kept. tt };

    ghost keeps_both = { λ a b c rs ss first second. tt };

    fn make(value: Value) -> Value {
        value
    }

    fn unread() -> Option<Value> {
        None
    }

    fn unread_row() -> Option<Vec<Value>> {
        None
    }

    fn text(
        self,
        giver: &Giver<'_>,
        at: u32,
        tagged: u32,
        progress: &mut Progress,
        _kept: &mut (),
    ) -> Result<Value, Stop> {
        load_text(giver, at, tagged, progress)
    }

    fn keep(_kept: &mut (), _list: PartRecord) -> Result<(), Stop> {
        Ok(())
    }

    fn row(alloc: Global) -> Vec<Value> {
        Vec::new(alloc)
    }

    fn push(row: &mut Vec<Value>, made: Value) -> Result<(), Stop> {
        row.push(made)?;
        Ok(())
    }

    fn list(row: Vec<Value>) -> Value {
        Value::List(row)
    }

    fn fields(row: Vec<Value>) -> Value {
        Value::Fields(row)
    }

    fn case(alloc: Global, index: u32, payload: Value) -> Result<Value, Stop> {
        Ok(Value::Case {
            index,
            payload: Some(Box::new(alloc, payload)?),
        })
    }
}
