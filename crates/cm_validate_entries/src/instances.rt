//! Instances that are made of definitions under names.

use crate::entries::{FuncEntry, InstanceEntry, MemberEntry};
use crate::spaces::ComponentSpaces;
use cm_validate_core::NameMap;
use std::alloc::{AllocError, Global};
use std::rc::Rc;

impl<'a> ComponentSpaces<'a> {
    ghost use Rattle.std.specs.Prelude.{◌≡◌, IfSome, List, OnErr, OnOk, length, map, slice_get};
    ghost use Rattle.std.specs.Prelude.{true};
    ghost use Rattle.std.specs.List.{flat_map, list_all};
    ghost use Rattle.std.specs.Option.{option_map};
    ghost use Rattle.cm_types.specs.Types.{FuncTy, Ty};
    ghost use Rattle.cm_binary_model.specs.declared.instances.InlineExport.{InlineExport};
    ghost use Rattle.cm_validate_model.specs.Items.{instance_item};
    ghost use Rattle.cm_validate_model.specs.Spaces.{Spaces, after_item};
    ghost use Rattle.cm_validate_model.specs.Spaces.{named_member as member_of_export};
    ghost use Rattle.cm_validate_entries.specs.ComponentSpaces.{IsComponentOf, Stays};
    ghost use Rattle.cm_validate_entries.specs.Entries.{func_def, is_func_there, is_member_there};
    ghost use Rattle.cm_validate_entries.specs.Entries.{named_member};
    ghost use Rattle.cm_validate_core.specs.NameMaps.{entries_of};

    /// The function of an index, if there is one.
    pub fn func(&self, index: u32) -> Option<FuncEntry<'a>>
        ensures def { (types : List Ty) (funcs : List FuncTy) (s : Spaces)
            → IsComponentOf types funcs self.now s
            → option_map (func_def funcs) result ≡ slice_get s.funcs index }
        ensures there { (types : List Ty) (funcs : List FuncTy) (s : Spaces)
            → IsComponentOf types funcs self.now s
            → IfSome result (λ f. is_func_there (length funcs) f ≡ true) }
    {
        self.func_entry(index)
    }

    /// Adds an instance that has these members, which are those of inline exports that violate no
    /// rule. `AllocError` comes where there is no memory for it; the spaces then stay as they are.
    pub fn push_members(
        &mut self,
        alloc: Global,
        members: NameMap<'a, MemberEntry<'a>>,
    ) -> Result<(), AllocError>
        ensures added { OnOk result ((types : List Ty) (funcs : List FuncTy) (s : Spaces)
            (es : List InlineExport)
            → map (named_member types funcs) (entries_of members.entry)
            ≡ flat_map (member_of_export s) es
            → list_all (λ e. is_member_there (length types) (length funcs) e.1)
            (entries_of members.entry) ≡ true
            → IsComponentOf types funcs self.old s
            → IsComponentOf types funcs self.new (after_item s (instance_item es))) }
        ensures kept { OnErr result (Stays self.old self.new) }
    {
        let shared = Rc::new(alloc, members)?;
        self.push_instance(InstanceEntry::Exporting(shared))
    }
}
