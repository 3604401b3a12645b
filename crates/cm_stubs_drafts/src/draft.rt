//! A component while it is written: its sections so far, and how much each index space has.

use crate::fault::DraftFault;
use crate::lists::{one, put};
use cm_binary_model::{
    Alias, Canon, Component, CoreInstance, CoreSort, Export, ExportSort, ExternDesc, Import,
    Instance, InstanceExportSort, MAX_FILE_BYTES, MAX_TYPES, Section,
};
use cm_types::{
    Declaration, DeclaredType, DefType, DefValType, ExportDecl, ExportDesc, ExternName, FuncType,
    OuterType, TypeBound,
};
use std::alloc::Global;

/// How many definitions an index space has (Explainer.md, "Index Spaces").
#[derive(Clone, Copy)]
struct Count(u32);

impl Count {
    /// None.
    fn none() -> Count {
        Count(0)
    }

    /// The index of one more, which is added.
    fn next(&mut self) -> Result<u32, DraftFault> {
        let index = self.0;
        match index.checked_add(1) {
            Some(count) => self.0 = count,
            None => return Err(DraftFault::TooLong),
        }
        Ok(index)
    }
}

/// The type of an instance while it is declared: its declarations, and how many types they made.
#[derive(Drop)]
struct Declared {
    declarations: Vec<Declaration>,
    types: Count,
}

/// A component while it is written. Each call adds an item and answers the index that it gets.
/// While the type of an instance is declared, value types and types of functions are declared in
/// it; all else stands before it.
///
/// `TooMany` comes where the types are more than a file may have, `TooLong` where the items, or the
/// bytes of the names that were spent, are more than a file may have bytes.
#[derive(Drop)]
pub struct Draft {
    alloc: Global,
    sections: Vec<Section>,
    declared: Option<Declared>,
    /// How many bytes the file may still have.
    left: usize,
    /// How many types it may still have.
    types_left: usize,
    core_instances: Count,
    core_funcs: Count,
    memories: Count,
    types: Count,
    funcs: Count,
    instances: Count,
}

impl Draft {
    /// No sections.
    pub fn new(alloc: Global) -> Draft {
        Draft {
            alloc,
            sections: Vec::new(alloc),
            declared: None,
            left: MAX_FILE_BYTES,
            types_left: MAX_TYPES,
            core_instances: Count::none(),
            core_funcs: Count::none(),
            memories: Count::none(),
            types: Count::none(),
            funcs: Count::none(),
            instances: Count::none(),
        }
    }

    /// What allocates.
    pub fn alloc(&self) -> Global {
        self.alloc
    }

    /// Takes so many bytes of those that a file may have.
    pub fn spend(&mut self, bytes: usize) -> Result<(), DraftFault> {
        match self.left.checked_sub(bytes) {
            Some(left) => self.left = left,
            None => return Err(DraftFault::TooLong),
        }
        Ok(())
    }

    /// Takes one of the types that a file may have.
    fn spend_type(&mut self) -> Result<(), DraftFault> {
        match self.types_left.checked_sub(1) {
            Some(left) => self.types_left = left,
            None => return Err(DraftFault::TooMany),
        }
        Ok(())
    }

    /// Adds a core instance.
    pub fn core_instance(&mut self, instance: CoreInstance) -> Result<u32, DraftFault> {
        self.spend(1)?;
        match self.sections.last_mut() {
            Some(Section::CoreInstances(items)) => put(items, instance)?,
            _ => {
                let items = one(self.alloc, instance)?;
                put(&mut self.sections, Section::CoreInstances(items))?;
            }
        }
        self.core_instances.next()
    }

    /// Adds an alias.
    fn alias(&mut self, alias: Alias) -> Result<(), DraftFault> {
        self.spend(1)?;
        match self.sections.last_mut() {
            Some(Section::Aliases(items)) => put(items, alias)?,
            _ => {
                let items = one(self.alloc, alias)?;
                put(&mut self.sections, Section::Aliases(items))?;
            }
        }
        Ok(())
    }

    /// Adds the core function that a core instance exports under a name.
    pub fn core_func(&mut self, instance: u32, name: String) -> Result<u32, DraftFault> {
        self.alias(Alias::CoreInstanceExport {
            sort: CoreSort::Func,
            instance,
            name,
        })?;
        self.core_funcs.next()
    }

    /// Adds the memory that a core instance exports under a name.
    pub fn memory(&mut self, instance: u32, name: String) -> Result<u32, DraftFault> {
        self.alias(Alias::CoreInstanceExport {
            sort: CoreSort::Memory,
            instance,
            name,
        })?;
        self.memories.next()
    }

    /// Adds the function that an instance exports under a name.
    pub fn func_of(&mut self, instance: u32, name: ExternName) -> Result<u32, DraftFault> {
        self.alias(Alias::InstanceExport {
            sort: InstanceExportSort::Func,
            instance,
            name,
        })?;
        self.funcs.next()
    }

    /// Adds the type that an instance exports under a name.
    pub fn type_of(&mut self, instance: u32, name: ExternName) -> Result<u32, DraftFault> {
        self.alias(Alias::InstanceExport {
            sort: InstanceExportSort::Type,
            instance,
            name,
        })?;
        self.types.next()
    }

    /// Adds a type to those of the component.
    fn component_type(&mut self, def: DefType) -> Result<u32, DraftFault> {
        self.spend(1)?;
        self.spend_type()?;
        match self.sections.last_mut() {
            Some(Section::Types(items)) => put(items, def)?,
            _ => {
                let items = one(self.alloc, def)?;
                put(&mut self.sections, Section::Types(items))?;
            }
        }
        self.types.next()
    }

    /// Adds a resource type with the core function of this index as its destructor.
    pub fn resource(&mut self, destructor: u32) -> Result<u32, DraftFault> {
        self.component_type(DefType::Resource(Some(destructor)))
    }

    /// Adds the type of an instance with these declarations, of which none takes a type.
    pub fn instance_type(&mut self, declarations: Vec<Declaration>) -> Result<u32, DraftFault> {
        self.component_type(DefType::Instance(declarations))
    }

    /// Adds a value type where types are declared.
    pub fn value_type(&mut self, def: DefValType) -> Result<u32, DraftFault> {
        if self.is_declaring() {
            self.declared_type(DeclaredType::Value(def))
        } else {
            self.component_type(DefType::Value(def))
        }
    }

    /// Adds the type of a function where types are declared.
    pub fn func_type(&mut self, def: FuncType) -> Result<u32, DraftFault> {
        if self.is_declaring() {
            self.declared_type(DeclaredType::Func(def))
        } else {
            self.component_type(DefType::Func(def))
        }
    }

    /// Adds a type to those of the instance type that is declared.
    fn declared_type(&mut self, ty: DeclaredType) -> Result<u32, DraftFault> {
        self.spend_type()?;
        self.declaration(Declaration::Type(ty))?;
        self.next_declared()
    }

    /// Adds a declaration to the instance type that is declared.
    fn declaration(&mut self, declaration: Declaration) -> Result<(), DraftFault> {
        self.spend(1)?;
        if let Some(declared) = &mut self.declared {
            put(&mut declared.declarations, declaration)?;
        }
        Ok(())
    }

    /// The index of one more type of the instance type that is declared.
    fn next_declared(&mut self) -> Result<u32, DraftFault> {
        match &mut self.declared {
            Some(declared) => declared.types.next(),
            None => self.types.next(),
        }
    }

    /// Whether the type of an instance is declared.
    pub fn is_declaring(&self) -> bool {
        self.declared.is_some()
    }

    /// Begins to declare the type of an instance.
    pub fn begin_instance(&mut self) {
        self.declared = Some(Declared {
            declarations: Vec::new(self.alloc),
            types: Count::none(),
        });
    }

    /// Ends the type of the instance that is declared, and adds it to those of the component.
    pub fn end_instance(&mut self) -> Result<u32, DraftFault> {
        let declarations = match self.declared.take() {
            Some(declared) => declared.declarations,
            None => Vec::new(self.alloc),
        };
        self.component_type(DefType::Instance(declarations))
    }

    /// Adds the component's type of this index to those of the instance type that is declared.
    pub fn outer_type(&mut self, index: u32) -> Result<u32, DraftFault> {
        self.declaration(Declaration::OuterType(OuterType { count: 1, index }))?;
        self.next_declared()
    }

    /// Declares that the instance exports a function of the type of this index.
    pub fn declare_func(&mut self, name: ExternName, ty: u32) -> Result<(), DraftFault> {
        self.spend(name.as_str().len())?;
        let desc = ExportDesc::Func(ty);
        self.declaration(Declaration::Export(ExportDecl { name, desc }))
    }

    /// Declares that the instance exports a type, which is one more.
    pub fn declare_type(&mut self, name: ExternName, bound: TypeBound) -> Result<u32, DraftFault> {
        self.spend(name.as_str().len())?;
        let desc = ExportDesc::Type(bound);
        self.declaration(Declaration::Export(ExportDecl { name, desc }))?;
        self.next_declared()
    }

    /// Adds a canonical definition.
    fn canon(&mut self, canon: Canon) -> Result<(), DraftFault> {
        self.spend(1)?;
        match self.sections.last_mut() {
            Some(Section::Canons(items)) => put(items, canon)?,
            _ => {
                let items = one(self.alloc, canon)?;
                put(&mut self.sections, Section::Canons(items))?;
            }
        }
        Ok(())
    }

    /// Adds the core function that a canonical definition makes.
    pub fn canon_core(&mut self, canon: Canon) -> Result<u32, DraftFault> {
        self.canon(canon)?;
        self.core_funcs.next()
    }

    /// Adds the function that a lift makes.
    pub fn lift(&mut self, canon: Canon) -> Result<u32, DraftFault> {
        self.canon(canon)?;
        self.funcs.next()
    }

    /// Adds an import.
    fn import(&mut self, import: Import) -> Result<(), DraftFault> {
        self.spend(import.name.as_str().len())?;
        match self.sections.last_mut() {
            Some(Section::Imports(items)) => put(items, import)?,
            _ => {
                let items = one(self.alloc, import)?;
                put(&mut self.sections, Section::Imports(items))?;
            }
        }
        Ok(())
    }

    /// Adds an imported function of the type of this index.
    pub fn import_func(&mut self, name: ExternName, ty: u32) -> Result<u32, DraftFault> {
        let desc = ExternDesc::Func(ty);
        self.import(Import { name, desc })?;
        self.funcs.next()
    }

    /// Adds an imported instance of the type of this index.
    pub fn import_instance(&mut self, name: ExternName, ty: u32) -> Result<u32, DraftFault> {
        let desc = ExternDesc::Instance(ty);
        self.import(Import { name, desc })?;
        self.instances.next()
    }

    /// Adds an instance of definitions under names.
    pub fn instance(&mut self, instance: Instance) -> Result<u32, DraftFault> {
        self.spend(1)?;
        match self.sections.last_mut() {
            Some(Section::Instances(items)) => put(items, instance)?,
            _ => {
                let items = one(self.alloc, instance)?;
                put(&mut self.sections, Section::Instances(items))?;
            }
        }
        self.instances.next()
    }

    /// Adds an export.
    pub fn export(
        &mut self,
        name: ExternName,
        sort: ExportSort,
        index: u32,
    ) -> Result<(), DraftFault> {
        self.spend(name.as_str().len())?;
        let export = Export { name, sort, index };
        match self.sections.last_mut() {
            Some(Section::Exports(items)) => put(items, export)?,
            _ => {
                let items = one(self.alloc, export)?;
                put(&mut self.sections, Section::Exports(items))?;
            }
        }
        Ok(())
    }

    /// The component of these core modules and of the sections behind them.
    pub fn component(self, modules: Vec<Vec<u8>>) -> Result<Component, DraftFault> {
        let Draft {
            alloc,
            sections: behind,
            ..
        } = self;
        let mut sections = Vec::with_capacity(alloc, behind.len())?;
        for module in modules {
            put(&mut sections, Section::CoreModule(module))?;
        }
        for section in behind {
            put(&mut sections, section)?;
        }
        Ok(Component::new(sections)?)
    }
}
