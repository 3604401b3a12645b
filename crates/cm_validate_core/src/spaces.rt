//! The core index spaces.

ghost use Rattle.cm_validate_core.specs.CoreSpaces.{IsCoreOf};

use crate::entries::{CoreFunc, CoreInstanceEntry, GuestExport, GuestMemory};
use crate::name_map::NameMap;
use cm_validate_model::ValidReason;
use std::alloc::{AllocError, Global};

/// The core index spaces of a component, after some of its items (Explainer.md, "Index Spaces").
/// Names are borrowed from the component.
#[derive(Drop)]
pub struct CoreSpaces<'a> {
    pub(crate) modules: u32,
    pub(crate) instances: Vec<CoreInstanceEntry<'a>>,
    pub(crate) funcs: Vec<CoreFunc<'a>>,
    pub(crate) tables: Vec<GuestExport<'a>>,
    pub(crate) memories: Vec<GuestMemory<'a>>,
    pub(crate) globals: Vec<GuestExport<'a>>,
    pub(crate) memory: Option<GuestMemory<'a>>,
    pub(crate) made: u32,
    /// The names that memories of instances of modules were aliased by, each once.
    pub(crate) memory_names: NameMap<'a, ()>,
}

impl<'a> CoreSpaces<'a> {
    ghost use Rattle.std.specs.Prelude.{◌≡◌, false, map, ℕ, OnOk, OnErr};
    ghost use Rattle.cm_validate_model.specs.Definitions.{CoreFuncDef};
    ghost use Rattle.cm_validate_model.specs.Items.{core_module_item};
    ghost use Rattle.cm_validate_model.specs.Options.{guest_broken, is_guest};
    ghost use Rattle.cm_validate_model.specs.Reasons.{least};
    ghost use Rattle.cm_validate_model.specs.Spaces.{Spaces, after_item, empty_spaces};
    ghost use Rattle.cm_validate_core.specs.CoreSpaces.{Becomes, Stays, made_count};
    ghost use Rattle.cm_validate_core.specs.Entries.{func_of};

    /// No definitions.
    pub fn new(alloc: Global) -> CoreSpaces<'a>
        ensures empty { (made : ℕ → CoreFuncDef) → ((n : ℕ) → is_guest (made n) ≡ false)
            → IsCoreOf made result empty_spaces }
        ensures counted { made_count result ≡ 0 }
    {
        CoreSpaces {
            modules: 0,
            instances: Vec::new(alloc),
            funcs: Vec::new(alloc),
            tables: Vec::new(alloc),
            memories: Vec::new(alloc),
            globals: Vec::new(alloc),
            memory: None,
            made: 0,
            memory_names: NameMap::new(alloc),
        }
    }

    /// Adds a core module. `AllocError` comes where there are too many to be counted; nothing is
    /// changed then.
    pub fn add_module(&mut self) -> Result<(), AllocError>
        ensures added { OnOk result (Becomes core_module_item self.old self.new) }
        ensures counted { made_count self.new ≡ made_count self.old }
        ensures kept { OnErr result (Stays self.old self.new) }
    {
        self.modules = self.modules.checked_add(1).ok_or(AllocError)?;
        Ok(())
    }

    /// The core functions, in order; what else stands in the spaces is dropped.
    pub fn into_funcs(self) -> Vec<CoreFunc<'a>>
        ensures { (made : ℕ → CoreFuncDef) (s : Spaces) → IsCoreOf made self.entry s
            → s.core_funcs ≡ map (func_of made) result.items }
    {
        let CoreSpaces { funcs, .. } = self;
        funcs
    }

    /// Why an index of a core function that has to be a guest's is refused: `NoSuchIndex` where it
    /// names nothing, `NotGuestFunction` where a canonical definition made the function.
    pub fn guest_fault(&self, index: u32) -> Option<ValidReason>
        ensures { (made : ℕ → CoreFuncDef) (s : Spaces) → IsCoreOf made self.now s
            → result ≡ least (guest_broken s.core_funcs index) }
    {
        match self.funcs.get(index as usize) {
            None => Some(ValidReason::NoSuchIndex),
            Some(CoreFunc::Guest(_)) => None,
            Some(CoreFunc::Made(_)) => Some(ValidReason::NotGuestFunction),
        }
    }
}
