//! The memories of the instances.

ghost use Rattle.std.specs.Prelude.{◌≡◌, ◌+◌, ◌*◌, ◌<◌, ◌≤◌, List, [], ◌∷◌, ◌++◌, ℕ, length};
ghost use Rattle.std.specs.Prelude.{replicate, take, drop, vec_len, IfOk, OnOk, OnErr, slice_get};
ghost use Rattle.std.specs.Prelude.{slice_set, Some};
ghost use Rattle.std.specs.Option.{option_copied};
ghost use Rattle.cm_machine_model.specs.Memories.{after_write, after_growth, memory_at};

use crate::{MAX_MEMORY_SIZE, MAX_PAGES, PAGE_SIZE};
use std::alloc::{AllocError, Global};
use std::marker::Model;
use std::mem;

/// One instance's linear memory, seen as its bytes.
#[derive(Drop)]
pub struct Memory {
    bytes: Vec<u8>,
}

impl Model for Memory {
    ghost use Rattle.std.specs.Prelude.{◌≤◌, List, ℕ, length};
    ghost use Rattle.cm_machine_model.specs.declared.limits.TheConstants.{MAX_MEMORY_SIZE};

    ghost Value = { List ℕ };

    ghost view = { λ m. m.bytes.items };

    ghost invariant = { λ m. length m.bytes.items ≤ MAX_MEMORY_SIZE };
}

impl Memory {
    /// So many pages of zeros.
    pub fn new(alloc: Global, pages: u32) -> Result<Memory, AllocError>
        requires { pages ≤ MAX_PAGES }
        ensures { IfOk result (λ m. m ≡ replicate (pages * PAGE_SIZE) 0) }
    {
        let bytes = vec![in alloc; 0; pages as usize * PAGE_SIZE]?;
        Ok(Memory { bytes })
    }

    /// The bytes.
    pub fn as_slice(&self) -> &[u8]
        ensures bytes { result.now ≡ self.now }
        ensures most { length self.now ≤ MAX_MEMORY_SIZE }
    {
        &self.bytes
    }

    /// The bytes, by value: no byte is copied, no memory is taken, and an empty memory is left.
    fn take(&mut self, alloc: Global) -> Vec<u8>
        ensures bytes { result.items ≡ self.old }
        ensures left { self.new ≡ [] }
        ensures most { length self.old ≤ MAX_MEMORY_SIZE }
    {
        mem::replace(&mut self.bytes, Vec::new(alloc))
    }

    /// Has these bytes from now on, in the place of those that it had.
    fn put(&mut self, bytes: Vec<u8>)
        requires { length bytes.items ≤ MAX_MEMORY_SIZE }
        ensures { self.new ≡ bytes.items }
    {
        self.bytes = bytes;
    }

    /// Writes bytes that lie inside.
    pub fn write(&mut self, at: usize, bytes: &[u8])
        requires { at + length bytes.now ≤ length self.old }
        ensures { self.new ≡ after_write self.old at bytes.now }
    {
        // Read first, so that the check knows what holds of the memory.
        let _ = &self.bytes;
        self.bytes[at..at + bytes.len()].copy_from_slice(bytes);
    }

    /// Adds pages of zeros at the end; no pages want no memory. A refusal changes nothing.
    pub fn grow(&mut self, pages: u32) -> Result<(), AllocError>
        requires { length self.old + pages * PAGE_SIZE ≤ MAX_MEMORY_SIZE }
        ensures ok { OnOk result (self.new ≡ after_growth self.old pages) }
        ensures err { OnErr result (self.new ≡ self.old) }
        ensures some { OnErr result (0 < pages) }
    {
        if pages == 0 {
            return Ok(());
        }
        // Read first, so that the check knows what holds of the memory.
        let _ = &self.bytes;
        let bytes = self.bytes.len() + pages as usize * PAGE_SIZE;
        self.bytes.resize(bytes, 0)
    }
}

/// The memories of the instances, in order, seen as a list of byte lists.
#[derive(Drop)]
pub struct Memories {
    memories: Vec<Memory>,
}

impl Model for Memories {
    ghost use Rattle.std.specs.Prelude.{List, ℕ};

    ghost Value = { List (List ℕ) };

    ghost view = { λ m. m.memories.items };
}

impl Memories {
    /// No memories, with room for so many.
    pub fn with_capacity(alloc: Global, count: usize) -> Result<Memories, AllocError>
        ensures { IfOk result (λ m. m ≡ []) }
    {
        let memories = Vec::with_capacity(alloc, count)?;
        Ok(Memories { memories })
    }

    /// One more memory, at the end.
    pub fn push(&mut self, memory: Memory) -> Result<(), AllocError>
        ensures ok { OnOk result (self.new ≡ self.old ++ memory ∷ []) }
    {
        self.memories.push(memory)?;
        Ok(())
    }

    /// The bytes of an instance's memory.
    pub fn get(&self, instance: usize) -> Option<&[u8]>
        ensures { option_copied result ≡ slice_get self.now instance }
    {
        match self.memories.get(instance) {
            Some(memory) => Some(memory.as_slice()),
            None => None,
        }
    }

    /// How many bytes an instance's memory has, 0 where there is no such instance.
    pub fn len_of(&self, instance: usize) -> usize
        ensures len { result ≡ length (memory_at self.now instance) }
        ensures most { result ≤ MAX_MEMORY_SIZE }
    {
        match self.memories.get(instance) {
            Some(memory) => memory.as_slice().len(),
            None => 0,
        }
    }

    /// The bytes of an instance's memory, by value, so that another memory can be read while they
    /// are written: no byte is copied, no memory is taken, and an empty memory is left, until
    /// `put` puts them back.
    pub fn take(&mut self, alloc: Global, instance: usize) -> Vec<u8>
        requires { instance < length self.old }
        ensures bytes { result.items ≡ memory_at self.old instance }
        ensures left { self.new ≡ slice_set self.old instance [] }
        ensures most { length (memory_at self.old instance) ≤ MAX_MEMORY_SIZE }
    {
        let memory = &mut self.memories[instance];
        memory.take(alloc)
    }

    /// An instance's memory has these bytes from now on, in the place of those that it had.
    pub fn put(&mut self, instance: usize, bytes: Vec<u8>)
        requires there { instance < length self.old }
        requires small { length bytes.items ≤ MAX_MEMORY_SIZE }
        ensures { self.new ≡ slice_set self.old instance bytes.items }
    {
        let memory = &mut self.memories[instance];
        memory.put(bytes);
    }

    /// Writes bytes that lie inside the instance's memory.
    pub fn write(&mut self, instance: usize, at: usize, bytes: &[u8])
        requires there { instance < length self.old }
        requires inside { at + length bytes.now ≤ length (memory_at self.old instance) }
        ensures { self.new ≡ slice_set self.old instance
            (after_write (memory_at self.old instance) at bytes.now) }
    {
        let memory = &mut self.memories[instance];
        memory.write(at, bytes);
    }

    /// Adds pages of zeros at the end of the instance's memory. A refusal changes nothing.
    pub fn grow(&mut self, instance: usize, pages: u32) -> Result<(), AllocError>
        requires there { instance < length self.old }
        requires room { length (memory_at self.old instance) + pages * PAGE_SIZE
            ≤ MAX_MEMORY_SIZE }
        ensures ok { OnOk result (self.new ≡ slice_set self.old instance
            (after_growth (memory_at self.old instance) pages)) }
        ensures err { OnErr result (self.new ≡ self.old) }
        ensures some { OnErr result (0 < pages) }
    {
        let memory = &mut self.memories[instance];
        memory.grow(pages)
    }
}
