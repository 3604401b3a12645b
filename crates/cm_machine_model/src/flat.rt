//! Core values in place: a call passes at most `MAX_FLAT_PARAMS` of them.

ghost use Rattle.std.specs.Prelude.{⊤, ◌≡◌, ◌<◌, ◌≤◌, [], ◌∷◌, ◌++◌, length, take};
ghost use Rattle.std.specs.Borrow.{sem};
ghost use Rattle.cm_types.specs.declared.core_value.CoreValue.{CoreValue};

use crate::cells::Cells;
use cm_types::{CoreValue, MAX_FLAT_PARAMS};
use std::alloc::AllocError;
use std::fmt;
use std::marker::Model;

/// At most `MAX_FLAT_PARAMS` core values, kept in place: making one takes no memory.
#[derive(Drop)]
pub struct Flat {
    /// The values stand first; what lies behind them counts for nothing.
    values: Cells<CoreValue, MAX_FLAT_PARAMS>,
    count: usize,
}

impl Model for Flat {
    ghost use Rattle.std.specs.Prelude.{◌≡◌, ◌≤◌, List, length, take};
    ghost use Rattle.cm_types.specs.declared.core_value.CoreValue.{CoreValue};
    ghost use Rattle.cm_types.specs.declared.limits.TheConstants.{MAX_FLAT_PARAMS};

    ghost Value = { List CoreValue };

    ghost view = { λ f. take f.count f.values.xs };

    ghost invariant = { λ f. (f.count ≤ MAX_FLAT_PARAMS)
        × (length f.values.xs ≡ MAX_FLAT_PARAMS) };
}

impl Flat {
    ghost use Rattle.cm_machine_model.specs.Lending.{lends_values};

    /// No values.
    pub fn new() -> Flat
        ensures { result ≡ [] }
    {
        Flat {
            values: Cells {
                xs: [CoreValue::I32(0); MAX_FLAT_PARAMS],
            },
            count: 0,
        }
    }

    /// One value.
    pub fn one(value: CoreValue) -> Flat
        ensures { result ≡ value ∷ [] }
    {
        let mut values = Flat::new();
        values.push(value);
        values
    }

    /// The values of a slice of at most `MAX_FLAT_PARAMS`.
    pub fn from_slice(slice: &[CoreValue]) -> Flat
        requires { length slice.now ≤ MAX_FLAT_PARAMS }
        ensures { result ≡ slice.now }
    {
        let mut values = Flat::new();
        values.set(slice);
        values
    }

    /// The same values. It takes no memory.
    pub fn copied(&self) -> Flat
        ensures { result ≡ self.now }
    {
        Flat {
            values: self.values,
            count: self.count,
        }
    }

    /// The values, in order.
    pub fn as_slice(&self) -> &[CoreValue]
        ensures { result.now ≡ self.now }
    {
        &self.values.xs[..self.count]
    }

    /// The values, in order, for writing in their places.
    pub fn as_mut_slice(&mut self) -> &mut [CoreValue]
        ensures* writes_back { sem 𝓛 (lends_values self.entry result) }
        ensures value { result.now ≡ self.old }
    {
        self.values.front_mut(self.count)
    }

    /// Puts the values of a slice of at most `MAX_FLAT_PARAMS` in place of all that were there.
    pub fn set(&mut self, slice: &[CoreValue])
        requires { length slice.now ≤ MAX_FLAT_PARAMS }
        ensures { self.new ≡ slice.now }
    {
        put_first(&mut self.values, slice);
        self.count = slice.len();
    }

    /// Takes all values away.
    pub fn clear(&mut self)
        ensures { self.new ≡ [] }
    {
        self.count = 0;
    }

    /// Puts a value behind the others, of which there are fewer than `MAX_FLAT_PARAMS`.
    pub fn push(&mut self, value: CoreValue)
        requires { length self.old < MAX_FLAT_PARAMS }
        ensures { self.new ≡ self.old ++ value ∷ [] }
    {
        self.values.xs[self.count] = value;
        self.count += 1;
    }
}

/// So many values are written one by one, for which a copy of a whole slice is a detour.
const FEW: usize = 4;

/// Writes the values of a slice over the first ones of an array that has room for them.
fn put_first(values: &mut Cells<CoreValue, MAX_FLAT_PARAMS>, slice: &[CoreValue])
    requires room { length slice.now ≤ MAX_FLAT_PARAMS }
    ensures first { take (length slice.now) values.new.xs ≡ slice.now }
    ensures length { length values.new.xs ≡ length values.old.xs }
{
    if slice.len() > FEW {
        values.put_front(slice);
    } else {
        put_few(values, slice);
    }
}

/// Writes the values of a short slice over the first ones of an array that has room for them.
fn put_few(values: &mut Cells<CoreValue, MAX_FLAT_PARAMS>, slice: &[CoreValue])
    requires room { length slice.now ≤ length values.old.xs }
    ensures first { take (length slice.now) values.new.xs ≡ slice.now }
    ensures length { length values.new.xs ≡ length values.old.xs }
{
    for (place, value) in slice.iter().enumerate() {
        values.xs[place] = *value;
    }
}

impl Clone for Flat {
    ghost is_clone = { λ values copy. copy ≡ values };

    ghost is_infallible = { λ _. ⊤ };

    /// The same values. It takes no memory, and so it never fails.
    fn clone(&self) -> Result<Flat, AllocError> {
        Ok(self.copied())
    }
}

/// The values are compared, whatever lies behind them.
impl PartialEq for Flat {
    ghost use Rattle.std.specs.Cmp.Lexicographic.{lists_per, pointwise};
    ghost use Rattle.cm_types.specs.contracts.core_value.CoreValuePartialEq.TheImpl.{ghosts};
    ghost use Rattle.cm_types.specs.contracts.core_value.CoreValuePartialEq.TheImpl.Laws.{laws-law};

    ghost eq = { pointwise ghosts.eq };

    ghost laws = { lists_per laws-law };

    fn eq(&self, other: &Flat) -> bool {
        self.as_slice() == other.as_slice()
    }
}

impl fmt::Debug for Flat {
    fn fmt<W: fmt::Write>(&self, f: &mut fmt::Formatter<W>) -> fmt::Result {
        f.debug_struct("Flat")
            .field("values", &self.as_slice())
            .finish()
    }
}

/// The values as scripts and events spell them, each after a space: ` i32:41 i64:7`.
impl fmt::Display for Flat {
    fn fmt<W: fmt::Write>(&self, f: &mut fmt::Formatter<W>) -> fmt::Result {
        write_values(f, self.as_slice())
    }
}

/// Writes core values as scripts and events spell them, each after a space.
pub(crate) fn write_values<W: fmt::Write>(
    f: &mut fmt::Formatter<W>,
    values: &[CoreValue],
) -> fmt::Result {
    for value in values {
        match value {
            CoreValue::I32(number) => write!(f, " i32:{number}")?,
            CoreValue::I64(number) => write!(f, " i64:{number}")?,
        }
    }
    Ok(())
}
