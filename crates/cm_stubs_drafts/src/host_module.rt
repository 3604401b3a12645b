//! The two core modules of a stub, and the core instances of them.

use crate::core_module::{BASE, CoreModule, CoreType, MEMORY, MemoryIs, REALLOC};
use crate::draft::Draft;
use crate::fault::DraftFault;
use crate::lists::put;
use cm_binary_model::{
    CanonOption, Component, CoreInlineExport, CoreInstance, CoreInstantiationArg, CoreSort,
};
use std::alloc::{AllocError, Global};

/// The core instance of the module `base`, which is the first.
const BASE_INSTANCE: u32 = 0;
/// The number of the module `base`, and that of the module `host`.
const BASE_MODULE: u32 = 0;

const HOST_MODULE: u32 = 1;

/// Core functions of canonical definitions that the module `host` imports from one module.
#[derive(Drop)]
struct CoreImports {
    module: String,
    funcs: Vec<CoreInlineExport>,
}

/// The two core modules of a stub: `base` has the memory, the allocator and the destructors, `host`
/// imports the memory and what canonical definitions make, and exports what is lifted.
#[derive(Drop)]
pub struct HostModules {
    alloc: Global,
    base: CoreModule,
    host: CoreModule,
    imports: Vec<CoreImports>,
}

impl HostModules {
    /// Both modules, with no functions but the allocator.
    pub fn new(alloc: Global) -> Result<HostModules, AllocError> {
        let mut base = CoreModule::new(alloc, MemoryIs::Own);
        base.export(REALLOC, CoreType::of_pointers(alloc, 4, 1)?)?;
        Ok(HostModules {
            alloc,
            base,
            host: CoreModule::new(alloc, MemoryIs::Imported),
            imports: Vec::new(alloc),
        })
    }

    /// Instantiates the module `base`, and adds its memory and its allocator.
    pub fn open(&self, draft: &mut Draft) -> Result<(), DraftFault> {
        draft.core_instance(CoreInstance::Instantiate {
            module: BASE_MODULE,
            args: Vec::new(self.alloc),
        })?;
        draft.memory(BASE_INSTANCE, String::from_str(self.alloc, MEMORY)?)?;
        draft.core_func(BASE_INSTANCE, String::from_str(self.alloc, REALLOC)?)?;
        Ok(())
    }

    /// Adds a function that the module `base` exports under this name: its core function.
    pub fn base_func(
        &mut self,
        draft: &mut Draft,
        name: String,
        ty: CoreType,
    ) -> Result<u32, DraftFault> {
        draft.spend(name.len())?;
        self.base.export(name.as_str(), ty)?;
        draft.core_func(BASE_INSTANCE, name)
    }

    /// Adds a function that the module `host`, which has this core instance, exports under a name:
    /// its core function.
    pub fn host_func(
        &mut self,
        draft: &mut Draft,
        host: u32,
        name: String,
        ty: CoreType,
    ) -> Result<u32, DraftFault> {
        draft.spend(name.len())?;
        self.host.export(name.as_str(), ty)?;
        draft.core_func(host, name)
    }

    /// The options of all lifts and lowers.
    pub fn options(&self) -> Result<Vec<CanonOption>, AllocError> {
        let memory = CanonOption::Memory(0);
        let realloc = CanonOption::Realloc(0);
        Ok(vec![in self.alloc; CanonOption::Utf8, memory, realloc]?)
    }

    /// Begins with the functions that are imported from a module of this name.
    pub fn begin_imports(&mut self, draft: &mut Draft, module: String) -> Result<(), DraftFault> {
        draft.spend(module.len())?;
        let funcs = Vec::new(self.alloc);
        put(&mut self.imports, CoreImports { module, funcs })?;
        Ok(())
    }

    /// Adds a core function that is imported from that module, under this name.
    pub fn import(
        &mut self,
        draft: &mut Draft,
        name: String,
        index: u32,
        ty: CoreType,
    ) -> Result<(), DraftFault> {
        let Some(imports) = self.imports.last_mut() else {
            return Ok(());
        };
        draft.spend(imports.module.len().saturating_add(name.len()))?;
        self.host
            .import(imports.module.as_str(), name.as_str(), ty)?;
        imports.funcs.push(CoreInlineExport {
            name,
            sort: CoreSort::Func,
            index,
        })?;
        Ok(())
    }

    /// Instantiates the module `host` with what it imports: the number of its instance.
    pub fn instantiate(&mut self, draft: &mut Draft) -> Result<u32, DraftFault> {
        let mut args = Vec::new(self.alloc);
        args.push(CoreInstantiationArg {
            name: String::from_str(self.alloc, BASE)?,
            instance: BASE_INSTANCE,
        })?;
        for _group in 0..self.imports.len() {
            let Some(CoreImports { module, funcs }) = self.imports.pop() else {
                break;
            };
            let instance = draft.core_instance(CoreInstance::Exports(funcs))?;
            args.push(CoreInstantiationArg {
                name: module,
                instance,
            })?;
        }
        draft.core_instance(CoreInstance::Instantiate {
            module: HOST_MODULE,
            args,
        })
    }

    /// The component of both modules and of what was written behind them.
    pub fn component(&self, draft: Draft) -> Result<Component, DraftFault> {
        let mut modules = Vec::new(self.alloc);
        put(&mut modules, self.base.bytes()?)?;
        put(&mut modules, self.host.bytes()?)?;
        draft.component(modules)
    }
}
