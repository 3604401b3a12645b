//! The declarations of the type of an instance, by sketches of the types that they name. A faulty
//! one keeps its place.

ghost use Rattle.std.specs.Prelude.{◌≡◌};

use crate::NamedSketch;
use crate::entries::sketch_entry;
use crate::level::SketchLevel;
use crate::sketches::Sketch;
use cm_types::{Declaration, DeclaredType, DefValType, FuncType, OuterType};
use cm_validate_model::ValidReason;
use cm_validate_types::TypeScope;
use std::alloc::{AllocError, Global};

/// What declarations have declared so far, in sketches: types, the items with their names, and the
/// number that the next resource of the instance's own gets.
#[derive(Drop)]
pub(crate) struct Sketching {
    pub(crate) own: SketchLevel,
    pub(crate) items: Vec<NamedSketch>,
    pub(crate) next: u64,
}

impl Sketching {
    ghost use Rattle.std.specs.Prelude.{IfOk, OnOk};
    ghost use Rattle.cm_types.specs.DefTypes.{declaration_tree, declared_func, declared_value};
    ghost use Rattle.cm_types.specs.DefTypes.{def_val_type_tree, func_type_tree};
    ghost use Rattle.cm_types.specs.DefTypes.{outer_type_decl, type_decl};
    ghost use Rattle.cm_validate_model.specs.Reasons.{least};
    ghost use Rattle.cm_validate_types.specs.TypeScopes.{own_types};
    ghost use Rattle.cm_validate_instances.specs.SketchScopes.{after_sketched};
    ghost use Rattle.cm_validate_instances.specs.SketchScopes.{declaration_faults};
    ghost use Rattle.cm_validate_instances.specs.SketchScopes.{outer_sketched};
    ghost use Rattle.cm_validate_instances.specs.SketchScopes.{sketches_before};
    ghost use Rattle.cm_validate_instances.specs.Sketchings.{scope_sketched};

    /// Before the first declaration, where the next resource has this number.
    pub(crate) fn new(alloc: Global, next: u64) -> Sketching
        ensures { scope_sketched result ≡ sketches_before next }
    {
        Sketching {
            own: SketchLevel::new(alloc),
            items: Vec::new(alloc),
            next,
        }
    }

    /// A value type: the least reason to refuse it besides the limits.
    fn declare_value(
        &mut self,
        alloc: Global,
        component: &TypeScope,
        def: &DefValType,
    ) -> Result<Option<ValidReason>, AllocError>
        ensures fault { IfOk result (λ r. r ≡ least
            (declaration_faults (own_types component.now) (scope_sketched self.old)
            (type_decl (declared_value (def_val_type_tree def.now))))) }
        ensures declared { OnOk result (scope_sketched self.new
            ≡ after_sketched (own_types component.now) (scope_sketched self.old)
            (type_decl (declared_value (def_val_type_tree def.now)))) }
    {
        let _component = component;
        let fault = self.own.value_def_fault(alloc, def)?;
        let sketch = self.own.value_def(def);
        self.own.push(sketch)?;
        Ok(fault)
    }

    /// The type of a function: the least reason to refuse it besides the limits.
    fn declare_func(
        &mut self,
        alloc: Global,
        component: &TypeScope,
        def: &FuncType,
    ) -> Result<Option<ValidReason>, AllocError>
        ensures fault { IfOk result (λ r. r ≡ least
            (declaration_faults (own_types component.now) (scope_sketched self.old)
            (type_decl (declared_func (func_type_tree def.now))))) }
        ensures declared { OnOk result (scope_sketched self.new
            ≡ after_sketched (own_types component.now) (scope_sketched self.old)
            (type_decl (declared_func (func_type_tree def.now)))) }
    {
        let _component = component;
        let fault = self.own.func_def_fault(alloc, def)?;
        let sketch = self.own.func_def(def);
        self.own.push(sketch)?;
        Ok(fault)
    }

    /// The sketch of what an alias names, if it names anything.
    fn outer(&self, component: &TypeScope, outer: OuterType) -> Option<Sketch>
        ensures { result
            ≡ outer_sketched (own_types component.now) (scope_sketched self.now)
            outer.count outer.index }
    {
        match outer.count {
            0 => self.own.get(outer.index),
            1 => component
                .get(outer.index)
                .map(|entry| sketch_entry(component.types(), entry)),
            _ => None,
        }
    }

    /// An alias of a type of its own or of the component.
    fn alias(
        &mut self,
        component: &TypeScope,
        outer: OuterType,
    ) -> Result<Option<ValidReason>, AllocError>
        ensures fault { IfOk result (λ r. r ≡ least
            (declaration_faults (own_types component.now) (scope_sketched self.old)
            (outer_type_decl outer))) }
        ensures declared { OnOk result (scope_sketched self.new
            ≡ after_sketched (own_types component.now) (scope_sketched self.old)
            (outer_type_decl outer)) }
    {
        match self.outer(component, outer) {
            None => {
                self.own.push(Sketch::Faulty)?;
                Ok(Some(ValidReason::NoSuchIndex))
            }
            Some(sketch) => {
                self.own.push(sketch)?;
                Ok(None)
            }
        }
    }

    /// Reads a declaration, and answers the least reason to refuse it besides the limits, if there
    /// is one. It costs the declaration's own length and a look-up for each label.
    pub(crate) fn declare(
        &mut self,
        alloc: Global,
        component: &TypeScope,
        declaration: &Declaration,
    ) -> Result<Option<ValidReason>, AllocError>
        ensures fault { IfOk result (λ r. r ≡ least
            (declaration_faults (own_types component.now) (scope_sketched self.old)
            (declaration_tree declaration.now))) }
        ensures declared { OnOk result (scope_sketched self.new
            ≡ after_sketched (own_types component.now) (scope_sketched self.old)
            (declaration_tree declaration.now)) }
    {
        match declaration {
            Declaration::Type(DeclaredType::Value(def)) => {
                self.declare_value(alloc, component, def)
            }
            Declaration::Type(DeclaredType::Func(def)) => self.declare_func(alloc, component, def),
            Declaration::OuterType(outer) => self.alias(component, *outer),
            Declaration::Export(export) => self.export(component, export),
        }
    }
}
