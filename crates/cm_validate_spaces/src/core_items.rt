//! Core modules, core instances, and aliases of what core instances export.

use crate::spaces::IndexSpaces;
use cm_binary_model::{CoreInstance, CoreSort};
use cm_validate_entries::laws::others_add_nothing as component_stays;
use cm_validate_model::ValidReason;
use std::alloc::{AllocError, Global};

impl<'a> IndexSpaces<'a> {
    ghost use Rattle.std.specs.Prelude.{IfOk, None, OnOk};
    ghost use Rattle.cm_binary_model.specs.Trees.{core_instance_export, core_instance_tree};
    ghost use Rattle.cm_validate_model.specs.Items.{alias_item, core_instance_item};
    ghost use Rattle.cm_validate_model.specs.Items.{core_module_item};
    ghost use Rattle.cm_validate_spaces.specs.IndexSpaces.{Answers};

    /// Adds a core module, which violates no rule. `AllocError` comes where there are too many to
    /// be counted; the spaces are then to be dropped.
    pub fn add_core_module(&mut self) -> Result<(), AllocError>
        ensures { OnOk result (Answers core_module_item self.old None self.new) }
    {
        component_stays();
        self.core.add_module()
    }

    /// Adds a core instance. Answers the least reason to refuse it, or none: `NoSuchIndex` where
    /// the module, the core instance of an argument or the definition of an export is not there,
    /// `DuplicateName` where two arguments, or two exports, have the same name, as texts; nothing
    /// is added then (Explainer.md, "Instance Definitions"). `AllocError` comes where there is no
    /// memory; the spaces are then to be dropped. Each name is looked up once.
    pub fn add_core_instance(
        &mut self,
        alloc: Global,
        instance: &'a CoreInstance,
    ) -> Result<Option<ValidReason>, AllocError>
        ensures { IfOk result (λ r. Answers
            (core_instance_item (core_instance_tree instance.now)) self.old r self.new) }
    {
        component_stays();
        self.core.add_instance(alloc, instance)
    }

    /// Adds an alias of what a core instance exports under a name. Answers why it is refused, or
    /// none: `NoSuchIndex` where there is no such instance or no such name in it, `WrongSort` where
    /// what is there is of another sort; nothing is added then (Explainer.md, "Alias Definitions").
    /// `AllocError` comes where there is no memory; the spaces are then to be dropped. It costs one
    /// look-up.
    pub fn alias_core_export(
        &mut self,
        sort: CoreSort,
        instance: u32,
        name: &'a str,
    ) -> Result<Option<ValidReason>, AllocError>
        ensures { IfOk result (λ r. Answers
            (alias_item (core_instance_export sort instance name.now)) self.old r self.new) }
    {
        component_stays();
        self.core.alias(sort, instance, name)
    }
}
