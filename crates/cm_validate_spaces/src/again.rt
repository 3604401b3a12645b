//! The index spaces of a valid component, gone through once more.

use crate::IndexSpaces;
use crate::checked::Checked;
use crate::walk::index_spaces;
use cm_types_arena::Types;
use cm_validate_entries::FuncEntry;
use cm_validate_types::TypeEntry;
use std::alloc::{AllocError, Global};

impl<'a> Checked<'a> {
    ghost use Rattle.std.specs.Prelude.{IfOk};
    ghost use Rattle.cm_validate_spaces.specs.Checked.{spaces_in};
    ghost use Rattle.cm_validate_spaces.specs.IndexSpaces.{IsAt};

    /// The index spaces of the component, which is gone through once more: for who asks what the
    /// index of a function or a type stands for. `AllocError` comes where there is no memory. It
    /// takes time and memory as `validate` does.
    pub fn spaces(&self, alloc: Global) -> Result<IndexSpaces<'a>, AllocError>
        ensures { IfOk result (λ w. IsAt w (spaces_in self.now)) }
    {
        match index_spaces(alloc, self.component) {
            Ok(spaces) => Ok(spaces),
            Err(_) => Err(AllocError),
        }
    }
}

impl<'a> IndexSpaces<'a> {
    ghost use Rattle.std.specs.Prelude.{◌≡◌, slice_get};
    ghost use Rattle.std.specs.Option.{option_map};
    ghost use Rattle.cm_types_arena.specs.Places.{funcs_of, types_of};
    ghost use Rattle.cm_validate_model.specs.Spaces.{Spaces};
    ghost use Rattle.cm_validate_types.specs.Entries.{def_of};
    ghost use Rattle.cm_validate_spaces.specs.cm_validate_entries.Entries.{func_def};
    ghost use Rattle.cm_validate_spaces.specs.IndexSpaces.{IsAt, funcs_in, types_in};

    /// The arena of the types.
    pub fn arena(&self) -> &Types
        ensures types { types_of result.now ≡ types_in self.now }
        ensures funcs { funcs_of result.now ≡ funcs_in self.now }
    {
        self.types.types()
    }

    /// The function of an index, if there is one.
    pub fn func(&self, index: u32) -> Option<FuncEntry<'a>>
        ensures { (s : Spaces) → IsAt self.now s
            → option_map (func_def (funcs_in self.now)) result ≡ slice_get s.funcs index }
    {
        self.component.func(index)
    }

    /// What an index of a type stands for, if there is one.
    pub fn type_entry(&self, index: u32) -> Option<&TypeEntry>
        ensures { (s : Spaces) → IsAt self.now s
            → option_map (λ e. def_of (types_in self.now) (funcs_in self.now) e.now) result
            ≡ slice_get s.types index }
    {
        self.types.get(index)
    }
}
