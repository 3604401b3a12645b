//! Core functions that canonical definitions make, and the first memory that their options name.

ghost use Rattle.std.specs.Prelude.{◌≡◌, ◌+◌, ◌++◌, ◌∷◌, [], ℕ, OnErr, OnOk, Some};
ghost use Rattle.std.specs.Option.{option_map, option_or};
ghost use Rattle.cm_binary_model.specs.Trees.{canon_tree, lift, lower};
ghost use Rattle.cm_validate_model.specs.Definitions.{CoreFuncDef};
ghost use Rattle.cm_validate_model.specs.Items.{canon_item};
ghost use Rattle.cm_validate_model.specs.Spaces.{Spaces, after_item, canon_core_func, first_memory};
ghost use Rattle.cm_validate_model.specs.Spaces.{option_memory};
ghost use Rattle.cm_validate_core.specs.CoreSpaces.{IsCoreOf, IsFirstNumbered, Stays, count_made};
ghost use Rattle.cm_validate_core.specs.CoreSpaces.{made_count, memory_names_of, number_made};
ghost use Rattle.cm_validate_core.specs.Entries.{memory_of};

use crate::entries::{CoreFunc, GuestMemory};
use crate::spaces::CoreSpaces;
use cm_binary_model::{Canon, CanonOption};
use std::alloc::AllocError;

impl<'a> CoreSpaces<'a> {
    /// The memory that an option names, if it names one.
    fn option_memory(&self, option: CanonOption) -> Option<GuestMemory<'a>>
        ensures memory { (made : ℕ → CoreFuncDef) (s : Spaces) → IsCoreOf made self.now s
            → option_map memory_of result ≡ option_memory s option }
        ensures numbered { (made : ℕ → CoreFuncDef) (s : Spaces) → IsCoreOf made self.now s
            → IsFirstNumbered (memory_names_of self.now) result }
    {
        match option {
            CanonOption::Memory(index) => self.memories.get(index as usize).copied(),
            _ => None,
        }
    }

    /// The first memory that options name.
    fn first_memory(&self, options: &[CanonOption]) -> Option<GuestMemory<'a>>
        ensures memory { (made : ℕ → CoreFuncDef) (s : Spaces) → IsCoreOf made self.now s
            → option_map memory_of result ≡ first_memory s options.now }
        ensures numbered { (made : ℕ → CoreFuncDef) (s : Spaces) → IsCoreOf made self.now s
            → IsFirstNumbered (memory_names_of self.now) result }
    {
        for option in options {
            let memory = self.option_memory(*option);
            if memory.is_some() {
                return memory;
            }
        }
        None
    }

    /// The first memory of the component, after an item with these options.
    fn memory_after(&self, options: &[CanonOption]) -> Option<GuestMemory<'a>>
        ensures memory { (made : ℕ → CoreFuncDef) (s : Spaces) → IsCoreOf made self.now s
            → option_map memory_of result ≡ option_or s.memory (first_memory s options.now) }
        ensures numbered { (made : ℕ → CoreFuncDef) (s : Spaces) → IsCoreOf made self.now s
            → IsFirstNumbered (memory_names_of self.now) result }
    {
        match self.memory {
            Some(memory) => Some(memory),
            None => self.first_memory(options),
        }
    }

    /// Adds a core function that a canonical definition makes, of the next number.
    fn make(&mut self) -> Result<(), AllocError>
        ensures made { OnOk result ((made : ℕ → CoreFuncDef) (s : Spaces) → IsCoreOf made self.old s
            → IsCoreOf made self.new
            (record s { core_funcs = s.core_funcs ++ made self.old.made ∷ [] })) }
        ensures counted { OnOk result (made_count self.new ≡ made_count self.old + 1) }
        ensures names { self.new.memory_names ≡ self.old.memory_names }
        ensures kept { OnErr result (Stays self.old self.new) }
        ensures uncounted { OnErr result (made_count self.new ≡ made_count self.old) }
    {
        let next = self.made.checked_add(1).ok_or(AllocError)?;
        self.funcs.push(CoreFunc::Made(self.made))?;
        self.made = next;
        Ok(())
    }

    /// Adds a lift with these options, which violates no rule: they may name the first memory.
    pub fn add_lift(&mut self, options: &[CanonOption])
        ensures added { (made : ℕ → CoreFuncDef) (s : Spaces) (f ty : ℕ) → IsCoreOf made self.old s
            → IsCoreOf made self.new (after_item s (canon_item (lift f options.now ty))) }
        ensures counted { made_count self.new ≡ made_count self.old }
    {
        self.memory = self.memory_after(options);
    }

    /// Adds a lower with these options, which violates no rule: it makes the core function of the
    /// next number, and they may name the first memory. `AllocError` comes where there is no
    /// memory; nothing is changed then.
    pub fn add_lower(&mut self, options: &[CanonOption]) -> Result<(), AllocError>
        ensures added { OnOk result ((made : ℕ → CoreFuncDef) (s : Spaces) (f : ℕ)
            → canon_core_func s (lower f options.now) ≡ Some (made (made_count self.old))
            → IsCoreOf made self.old s
            → IsCoreOf made self.new (after_item s (canon_item (lower f options.now)))) }
        ensures counted { OnOk result (made_count self.new ≡ made_count self.old + 1) }
        ensures kept { OnErr result (Stays self.old self.new) }
        ensures uncounted { OnErr result (made_count self.new ≡ made_count self.old) }
    {
        let memory = self.memory_after(options);
        self.make()?;
        self.memory = memory;
        Ok(())
    }

    /// Adds a canonical definition that violates no rule: a lower, or what makes, drops or reads
    /// handles, makes the core function of the next number, and options may name the first memory.
    /// `AllocError` comes where there is no memory for it; nothing is changed then.
    pub fn add_canon(&mut self, canon: &Canon) -> Result<(), AllocError>
        ensures added { OnOk result ((made : ℕ → CoreFuncDef) (s : Spaces)
            → IsCoreOf made self.old s
            → canon_core_func s (canon_tree canon.now)
            ≡ option_map made (number_made self.old (canon_tree canon.now))
            → IsCoreOf made self.new (after_item s (canon_item (canon_tree canon.now)))) }
        ensures counted { OnOk result (made_count self.new
            ≡ made_count self.old + count_made (canon_tree canon.now)) }
        ensures kept { OnErr result (Stays self.old self.new) }
        ensures uncounted { OnErr result (made_count self.new ≡ made_count self.old) }
    {
        match canon {
            Canon::Lift { options, .. } => {
                self.add_lift(options);
                Ok(())
            }
            Canon::Lower { options, .. } => self.add_lower(options),
            Canon::ResourceNew { .. } | Canon::ResourceDrop { .. } | Canon::ResourceRep { .. } => {
                self.make()
            }
        }
    }
}
