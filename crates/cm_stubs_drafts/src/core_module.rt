//! Core modules of stubs: what they import and export by name (the core specification, "Modules").

use crate::lists::put;
use cm_binary_model::MODULE_PREAMBLE;
use cm_layout::FlatFunc;
use cm_leb::formats::write_count;
use cm_types::CoreKind;
use std::alloc::{AllocError, Global};

/// The byte of the instruction that stops, and of the one that ends a body.
const UNREACHABLE: u8 = 0x00;

const END: u8 = 0x0b;
/// The byte before the type of a function.
const FUNC: u8 = 0x60;
/// The bytes of the sorts of imports and exports.
const FUNC_SORT: u8 = 0x00;

const MEMORY_SORT: u8 = 0x02;

/// The ids of the sections.
const TYPES: u8 = 1;

const IMPORTS: u8 = 2;

const FUNCS: u8 = 3;

const MEMORIES: u8 = 5;

const EXPORTS: u8 = 7;

const CODE: u8 = 10;

/// The name of the module that has the memory and the allocator.
pub(crate) const BASE: &str = "base";
/// The name of the memory.
pub(crate) const MEMORY: &str = "memory";
/// The name of the allocator.
pub(crate) const REALLOC: &str = "cabi_realloc";

/// The type of a core function.
#[derive(Drop)]
pub struct CoreType {
    pub params: Vec<CoreKind>,
    pub results: Vec<CoreKind>,
}

impl CoreType {
    /// The type with so many parameters and results, which are all addresses or the like.
    pub fn of_pointers(
        alloc: Global,
        params: usize,
        results: usize,
    ) -> Result<CoreType, AllocError> {
        Ok(CoreType {
            params: vec![in alloc; CoreKind::I32; params]?,
            results: vec![in alloc; CoreKind::I32; results]?,
        })
    }

    /// The type of a function that was flattened.
    pub fn of_flat(flat: FlatFunc) -> CoreType {
        let FlatFunc {
            params,
            results,
            ..
        } = flat;
        CoreType { params, results }
    }

    /// The type of the function that is called when a result was read: it takes what the lifted
    /// one answers.
    pub fn of_post_return(&self, alloc: Global) -> Result<CoreType, AllocError> {
        Ok(CoreType {
            params: self.results.clone()?,
            results: Vec::new(alloc),
        })
    }
}

/// A function that a core module imports.
#[derive(Drop)]
struct CoreImport {
    module: String,
    name: String,
}

/// Where the memory of a core module is.
#[derive(Clone, Copy, PartialEq, Eq)]
pub(crate) enum MemoryIs {
    /// In the module, which exports it.
    Own,
    /// In the module `base`, from which it is imported.
    Imported,
}

/// A core module: functions that it imports, and functions that it exports, each of which stops.
#[derive(Drop)]
pub(crate) struct CoreModule {
    alloc: Global,
    memory: MemoryIs,
    /// The types of the imported functions, and behind them those of the others.
    types: Vec<CoreType>,
    imports: Vec<CoreImport>,
    exports: Vec<String>,
}

/// Writes a number of items or of bytes. It promises nothing, so that what calls it proves nothing
/// of the bytes.
fn write_number(out: &mut Vec<u8>, number: usize) -> Result<(), AllocError> {
    write_count(out, number)
}

/// Writes a text behind its length.
fn write_name(out: &mut Vec<u8>, name: &str) -> Result<(), AllocError> {
    write_number(out, name.len())?;
    out.extend_from_slice(name.as_bytes())
}

/// Writes the kinds of core values behind their number.
fn write_kinds(out: &mut Vec<u8>, kinds: &[CoreKind]) -> Result<(), AllocError> {
    write_number(out, kinds.len())?;
    for kind in kinds {
        let code = match kind {
            CoreKind::I32 => 0x7fu8,
            CoreKind::I64 => 0x7e,
        };
        out.push(code)?;
    }
    Ok(())
}

/// Writes a section.
fn write_section(out: &mut Vec<u8>, id: u8, contents: &[u8]) -> Result<(), AllocError> {
    out.push(id)?;
    write_number(out, contents.len())?;
    out.extend_from_slice(contents)
}

impl CoreModule {
    /// A module with no functions.
    pub(crate) fn new(alloc: Global, memory: MemoryIs) -> CoreModule {
        CoreModule {
            alloc,
            memory,
            types: Vec::new(alloc),
            imports: Vec::new(alloc),
            exports: Vec::new(alloc),
        }
    }

    /// Adds a function that is imported; none was exported yet.
    pub(crate) fn import(
        &mut self,
        module: &str,
        name: &str,
        ty: CoreType,
    ) -> Result<(), AllocError> {
        let module = String::from_str(self.alloc, module)?;
        let name = String::from_str(self.alloc, name)?;
        put(&mut self.types, ty)?;
        put(&mut self.imports, CoreImport { module, name })?;
        Ok(())
    }

    /// Adds a function that is exported.
    pub(crate) fn export(&mut self, name: &str, ty: CoreType) -> Result<(), AllocError> {
        let name = String::from_str(self.alloc, name)?;
        put(&mut self.types, ty)?;
        put(&mut self.exports, name)?;
        Ok(())
    }

    /// The contents of the section of types.
    fn types(&self) -> Result<Vec<u8>, AllocError> {
        let mut out = Vec::new(self.alloc);
        write_number(&mut out, self.types.len())?;
        for ty in &self.types {
            out.push(FUNC)?;
            write_kinds(&mut out, &ty.params)?;
            write_kinds(&mut out, &ty.results)?;
        }
        Ok(out)
    }

    /// The contents of the section of imports.
    fn imports(&self) -> Result<Vec<u8>, AllocError> {
        let mut out = Vec::new(self.alloc);
        match self.memory {
            MemoryIs::Own => write_number(&mut out, self.imports.len())?,
            MemoryIs::Imported => {
                write_number(&mut out, self.imports.len().saturating_add(1))?;
                write_name(&mut out, BASE)?;
                write_name(&mut out, MEMORY)?;
                out.extend_from_slice(&[MEMORY_SORT, 0, 0])?;
            }
        }
        for (index, import) in self.imports.iter().enumerate() {
            write_name(&mut out, import.module.as_str())?;
            write_name(&mut out, import.name.as_str())?;
            out.push(FUNC_SORT)?;
            write_number(&mut out, index)?;
        }
        Ok(out)
    }

    /// The contents of the section of functions: function n is of type n.
    fn funcs(&self) -> Result<Vec<u8>, AllocError> {
        let mut out = Vec::new(self.alloc);
        write_number(&mut out, self.exports.len())?;
        for index in self.imports.len()..self.types.len() {
            write_number(&mut out, index)?;
        }
        Ok(out)
    }

    /// The contents of the section of exports.
    fn exports(&self) -> Result<Vec<u8>, AllocError> {
        let mut out = Vec::new(self.alloc);
        match self.memory {
            MemoryIs::Imported => write_number(&mut out, self.exports.len())?,
            MemoryIs::Own => {
                write_number(&mut out, self.exports.len().saturating_add(1))?;
                write_name(&mut out, MEMORY)?;
                out.extend_from_slice(&[MEMORY_SORT, 0])?;
            }
        }
        for (number, name) in self.exports.iter().enumerate() {
            write_name(&mut out, name.as_str())?;
            out.push(FUNC_SORT)?;
            write_number(&mut out, self.imports.len().saturating_add(number))?;
        }
        Ok(out)
    }

    /// The contents of the section of code: each function stops.
    fn code(&self) -> Result<Vec<u8>, AllocError> {
        let mut out = Vec::new(self.alloc);
        write_number(&mut out, self.exports.len())?;
        for _export in &self.exports {
            out.extend_from_slice(&[3, 0, UNREACHABLE, END])?;
        }
        Ok(out)
    }

    /// The bytes of the module.
    pub(crate) fn bytes(&self) -> Result<Vec<u8>, AllocError> {
        let mut out = Vec::new(self.alloc);
        out.extend_from_slice(&MODULE_PREAMBLE)?;
        write_section(&mut out, TYPES, &self.types()?)?;
        write_section(&mut out, IMPORTS, &self.imports()?)?;
        write_section(&mut out, FUNCS, &self.funcs()?)?;
        if self.memory == MemoryIs::Own {
            write_section(&mut out, MEMORIES, &[1, 0, 1])?;
        }
        write_section(&mut out, EXPORTS, &self.exports()?)?;
        write_section(&mut out, CODE, &self.code()?)?;
        Ok(out)
    }
}
