//! Definitions of types.

use crate::spaces::IndexSpaces;
use cm_layout_placed::laws::first_layouts_stay;
use cm_types::{Declaration, DefType, DefValType, FuncType};
use cm_validate_core::laws::others_add_nothing as core_stays;
use cm_validate_entries::laws::{entries_stay, others_add_nothing as component_stays};
use cm_validate_instances::define_instance;
use cm_validate_model::ValidReason;
use cm_validate_model::counted_laws::resources_are_counted;
use std::alloc::{AllocError, Global};

impl<'a> IndexSpaces<'a> {
    ghost use Rattle.std.specs.Prelude.{◌≡◌, ℕ, IfOk, map};
    ghost use Rattle.cm_types.specs.DefTypes.{declaration_tree, def_type_tree, def_val_type_tree};
    ghost use Rattle.cm_types.specs.DefTypes.{func_def, func_type_tree, instance_def};
    ghost use Rattle.cm_types.specs.DefTypes.{resource_def, value_def};
    ghost use Rattle.cm_validate_model.specs.Definitions.{CoreFuncDef};
    ghost use Rattle.cm_validate_model.specs.Items.{type_item};
    ghost use Rattle.cm_validate_model.specs.Options.{guest_broken};
    ghost use Rattle.cm_validate_model.specs.Reasons.{if_found, least};
    ghost use Rattle.cm_validate_model.specs.Spaces.{Spaces};
    ghost use Rattle.cm_validate_core.specs.CoreSpaces.{IsCoreOf};
    ghost use Rattle.cm_validate_spaces.specs.IndexSpaces.{Answers};

    /// Adds a value type.
    fn define_value(
        &mut self,
        alloc: Global,
        def: &DefValType,
    ) -> Result<Option<ValidReason>, AllocError>
        ensures { IfOk result (λ r. Answers (type_item (value_def (def_val_type_tree def.now)))
            self.old r self.new) }
    {
        first_layouts_stay();
        core_stays();
        component_stays();
        entries_stay();
        self.types.define_value(alloc, def)
    }

    /// Adds the type of a function.
    fn define_func(
        &mut self,
        alloc: Global,
        def: &FuncType,
    ) -> Result<Option<ValidReason>, AllocError>
        ensures { IfOk result (λ r. Answers (type_item (func_def (func_type_tree def.now)))
            self.old r self.new) }
    {
        first_layouts_stay();
        core_stays();
        component_stays();
        entries_stay();
        self.types.define_func(alloc, def)
    }

    /// Why the destructor of a resource is refused.
    fn destructor_fault(&self, destructor: Option<u32>) -> Option<ValidReason>
        ensures { (made : ℕ → CoreFuncDef) (s : Spaces) → IsCoreOf made self.now.core s
            → result ≡ least (if_found (guest_broken s.core_funcs) destructor) }
    {
        match destructor {
            None => None,
            Some(index) => self.core.guest_fault(index),
        }
    }

    /// Adds a resource that the component defines.
    fn define_resource(
        &mut self,
        destructor: Option<u32>,
    ) -> Result<Option<ValidReason>, AllocError>
        ensures { IfOk result (λ r. Answers (type_item (resource_def destructor))
            self.old r self.new) }
    {
        first_layouts_stay();
        core_stays();
        entries_stay();
        let fault = self.destructor_fault(destructor);
        if fault.is_some() {
            return Ok(fault);
        }
        let ty = self.component.define_resource(destructor)?;
        self.types.add(ty)?;
        Ok(None)
    }

    /// Adds the type of an instance.
    fn define_instance(
        &mut self,
        alloc: Global,
        declarations: &[Declaration],
    ) -> Result<Option<ValidReason>, AllocError>
        ensures { IfOk result (λ r. Answers
            (type_item (instance_def (map declaration_tree declarations.now)))
            self.old r self.new) }
    {
        first_layouts_stay();
        core_stays();
        component_stays();
        entries_stay();
        resources_are_counted();
        let next = self.component.resource_count();
        define_instance(&mut self.types, alloc, declarations, next)
    }

    /// Adds a type. Answers the least reason to refuse its definition, or none; nothing is added
    /// then (Explainer.md, "Type Definitions"). `AllocError` comes where there is no memory; the
    /// spaces are then to be dropped. It costs the definition's own length, and a look-up for each
    /// of its labels and names.
    pub fn add_type(
        &mut self,
        alloc: Global,
        def: &DefType,
    ) -> Result<Option<ValidReason>, AllocError>
        ensures { IfOk result (λ r. Answers (type_item (def_type_tree def.now))
            self.old r self.new) }
    {
        match def {
            DefType::Value(value) => self.define_value(alloc, value),
            DefType::Func(func) => self.define_func(alloc, func),
            DefType::Resource(destructor) => self.define_resource(*destructor),
            DefType::Instance(declarations) => self.define_instance(alloc, declarations),
        }
    }
}
