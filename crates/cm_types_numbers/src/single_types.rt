//! The numbers of single types of an arena.

ghost use Rattle.std.specs.Prelude.{◌≡◌, ◌<◌, IfOk, Some, length, map};
ghost use Rattle.std.specs.List.{AllByRecursion};
ghost use Rattle.cm_types_arena.specs.Places.{funcs_of, types_of};
ghost use Rattle.cm_types_arena.specs.TypeDefs.{func_at, type_at};
ghost use Rattle.cm_types_arena.specs.Replaced.{replaced, replaced_func};
ghost use Rattle.cm_types_numbers.specs.Knowing.{Knows};
ghost use Rattle.cm_types_numbers.specs.Numbering.{AreNumbers, Extends, number, number_func};
ghost use Rattle.cm_types_numbers.specs.Numbering.{numbering};

use crate::key::{Key, Leaf};
use crate::known::Known;
use crate::numbers::Numbers;
use cm_types_arena::{Replacement, Types};
use std::alloc::{AllocError, Global};

impl Numbers {
    /// The number of the type at a place of an arena, once each resource in it is replaced by what
    /// stands for it; behind the last place stands `bool`. A type that has no number gets the next.
    ///
    /// Of the types in it each costs its own length once, and nothing where its number is known;
    /// what was numbered here is known from then on. `AllocError` comes where there is no memory;
    /// the types that have a number keep it.
    pub fn number_type<R: Replacement>(
        &mut self,
        alloc: Global,
        replacement: &R,
        types: &Types,
        known: &mut Known,
        place: usize,
    ) -> Result<usize, AllocError>
        requires { Knows (numbering self.old)
            (R.replacement replacement.now) (types_of types.now) known.old }
        ensures number { IfOk result (λ n. number (numbering self.new)
            (replaced (R.replacement replacement.now) (type_at (types_of types.now) place))
            ≡ Some n) }
        ensures known { Knows (numbering self.new)
            (R.replacement replacement.now) (types_of types.now) known.new }
        ensures kept { Extends (numbering self.old) (numbering self.new) }
    {
        if let Some(number) = known.get(place) {
            return Ok(number);
        }
        if place >= types.len() {
            return self.node(Key::Leaf(Leaf::Bool));
        }
        let mut parts = Vec::new(alloc);
        for part in types.parts(place) {
            let number = self.number_type(alloc, replacement, types, known, *part)?;
            parts.push(number)?;
        }
        let key = self.key(replacement, &parts, types.node(place))?;
        let number = self.node(key)?;
        known.note(place, number)?;
        Ok(number)
    }

    /// The numbers of the types at some places of an arena.
    fn number_parts<R: Replacement>(
        &mut self,
        alloc: Global,
        replacement: &R,
        types: &Types,
        known: &mut Known,
        places: &[usize],
    ) -> Result<Vec<usize>, AllocError>
        requires { Knows (numbering self.old)
            (R.replacement replacement.now) (types_of types.now) known.old }
        ensures numbers { IfOk result (λ ns. AreNumbers (numbering self.new)
            (R.replacement replacement.now) (map (type_at (types_of types.now)) places.now)
            ns.items) }
        ensures known { Knows (numbering self.new)
            (R.replacement replacement.now) (types_of types.now) known.new }
        ensures kept { Extends (numbering self.old) (numbering self.new) }
    {
        let mut parts = Vec::new(alloc);
        for part in places {
            let number = self.number_type(alloc, replacement, types, known, *part)?;
            parts.push(number)?;
        }
        Ok(parts)
    }

    /// The number of the type of a function at a place of an arena, once each resource in it is
    /// replaced by what stands for it; behind the last place stands that of a function with neither
    /// parameters nor a result. A type that has no number gets the next.
    ///
    /// It costs what `number_type` says. `AllocError` comes where there is no memory; the types
    /// that have a number keep it.
    pub fn number_func_type<R: Replacement>(
        &mut self,
        alloc: Global,
        replacement: &R,
        types: &Types,
        known: &mut Known,
        place: usize,
    ) -> Result<usize, AllocError>
        requires { Knows (numbering self.old)
            (R.replacement replacement.now) (types_of types.now) known.old }
        ensures number { IfOk result (λ n. number_func (numbering self.new)
            (replaced_func (R.replacement replacement.now) (func_at (funcs_of types.now) place))
            ≡ Some n) }
        ensures known { Knows (numbering self.new)
            (R.replacement replacement.now) (types_of types.now) known.new }
        ensures kept { Extends (numbering self.old) (numbering self.new) }
    {
        if place >= types.func_count() {
            let params = self.node(Key::Leaf(Leaf::NoFields))?;
            return self.node(Key::FuncWithoutResult { params });
        }
        let places = types.func_params(place);
        let parts = self.number_parts(alloc, replacement, types, known, places)?;
        let params = self.fields(&parts, &types.func(place).params)?;
        match types.func_result(place) {
            None => self.node(Key::FuncWithoutResult { params }),
            Some(answer) => {
                let result = self.number_type(alloc, replacement, types, known, answer)?;
                self.node(Key::Func { params, result })
            }
        }
    }
}
