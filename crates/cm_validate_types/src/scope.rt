//! The types that a definition may name.

ghost use Rattle.std.specs.Prelude.{◌≡◌, length, true};
ghost use Rattle.cm_types_arena.specs.Places.{funcs_of, types_of};
ghost use Rattle.cm_validate_types.specs.Entries.{in_arena};

use crate::entries::TypeEntry;
use crate::level::Level;
use cm_types_arena::Types;
use cm_validate_model::TypeSort;
use std::alloc::{AllocError, Global};

/// The types of a component, or of the type of an instance and of the component around it, by their
/// indices from 0, over one arena.
#[derive(Drop)]
pub struct TypeScope {
    pub(crate) types: Types,
    pub(crate) own: Level,
    pub(crate) around: Level,
    ghost own_placed: { in_arena (types_of types) (funcs_of types) own.entries.items ≡ true },
    ghost around_placed: { in_arena (types_of types) (funcs_of types) around.entries.items ≡ true },
}

impl TypeScope {
    ghost use Rattle.std.specs.Prelude.{◌++◌, ◌∷◌, [], ℕ, IfOk, IfSome, OnOk, OnErr, slice_get};
    ghost use Rattle.std.specs.Option.{option_map};
    ghost use Rattle.cm_types_arena.specs.TypeDefs.{primitive_types};
    ghost use Rattle.cm_validate_model.specs.Definitions.{sorts_of};
    ghost use Rattle.cm_validate_types.specs.Entries.{def_of, is_entry_there};
    ghost use Rattle.cm_validate_types.specs.Settled.{IsEntrySettled};
    ghost use Rattle.cm_validate_types.specs.SettledScopes.{AreMovedCounted, AreSettled};
    ghost use Rattle.cm_validate_types.specs.SettledScopes.{IsMovedCounted};
    ghost use Rattle.cm_validate_types.specs.TypeScopes.{arena_funcs, arena_types, entries_around};
    ghost use Rattle.cm_validate_types.specs.TypeScopes.{entries_of, own_types, types_around};

    /// No types, with none around. `AllocError` comes where there is no memory for the arena.
    pub fn new(alloc: Global) -> Result<TypeScope, AllocError>
        ensures own { IfOk result (λ s. own_types s ≡ []) }
        ensures entries { IfOk result (λ s. entries_of s ≡ []) }
        ensures around { IfOk result (λ s. types_around s ≡ []) }
        ensures types { IfOk result (λ s. arena_types s ≡ primitive_types) }
        ensures funcs { IfOk result (λ s. arena_funcs s ≡ []) }
    {
        Ok(TypeScope {
            types: Types::new(alloc)?,
            own: Level::new(alloc),
            around: Level::new(alloc),
        })
    }

    /// The scope of the type of an instance, with no types of its own yet, inside this one.
    pub fn enter(self, alloc: Global) -> TypeScope
        ensures own { own_types result ≡ [] }
        ensures entries { entries_of result ≡ [] }
        ensures around { types_around result ≡ own_types self }
        ensures around_entries { entries_around result ≡ entries_of self }
        ensures types { arena_types result ≡ arena_types self }
        ensures funcs { arena_funcs result ≡ arena_funcs self }
    {
        let TypeScope { types, own, .. } = self;
        TypeScope {
            types,
            own: Level::new(alloc),
            around: own,
        }
    }

    /// The scope around, with no scope around it: the types of its own are dropped.
    pub fn leave(self, alloc: Global) -> TypeScope
        ensures own { own_types result ≡ types_around self }
        ensures entries { entries_of result ≡ entries_around self }
        ensures around { types_around result ≡ [] }
        ensures types { arena_types result ≡ arena_types self }
        ensures funcs { arena_funcs result ≡ arena_funcs self }
    {
        let TypeScope { types, around, .. } = self;
        TypeScope {
            types,
            own: around,
            around: Level::new(alloc),
        }
    }

    /// The arena in which the types stood; what their indices stood for is dropped.
    pub fn into_types(self) -> Types
        ensures types { types_of result ≡ arena_types self }
        ensures funcs { funcs_of result ≡ arena_funcs self }
    {
        let TypeScope { types, .. } = self;
        types
    }

    /// The arena in which the types stand.
    pub fn types(&self) -> &Types
        ensures types { types_of result.now ≡ arena_types self.now }
        ensures funcs { funcs_of result.now ≡ arena_funcs self.now }
    {
        &self.types
    }

    /// What the indices of its own stand for, in order.
    pub fn entries(&self) -> &[TypeEntry]
        ensures entries { result.now ≡ entries_of self.now }
        ensures placed { in_arena (arena_types self.now) (arena_funcs self.now) result.now ≡ true }
    {
        &self.own.entries
    }

    /// The sorts of its own types.
    pub fn sorts(&self) -> &[TypeSort]
        ensures { result.now ≡ sorts_of (own_types self.now) }
    {
        &self.own.sorts
    }

    /// How many types of its own it has.
    pub fn len(&self) -> usize
        ensures { result ≡ length (own_types self.now) }
    {
        self.own.entries.len()
    }

    /// What an index of its own stands for, if for anything.
    pub fn get(&self, index: u32) -> Option<&TypeEntry>
        ensures there { option_map (λ e. def_of (arena_types self.now) (arena_funcs self.now) e.now)
            result ≡ slice_get (own_types self.now) index }
        ensures placed { IfSome result (λ e.
            is_entry_there (length (arena_types self.now)) (length (arena_funcs self.now)) e.now
            ≡ true) }
        ensures settled { IfSome result (λ e. AreSettled self.now
            → IsEntrySettled (arena_types self.now) (arena_funcs self.now) e.now) }
        ensures moved { IfSome result (λ e. (n : ℕ) → AreMovedCounted n self.now
            → IsMovedCounted (arena_types self.now) (arena_funcs self.now) n e.now) }
    {
        self.own.entries.get(index as usize)
    }

    /// What an index of the types around stands for, if for anything.
    pub fn get_around(&self, index: u32) -> Option<&TypeEntry>
        ensures there { option_map (λ e. def_of (arena_types self.now) (arena_funcs self.now) e.now)
            result ≡ slice_get (types_around self.now) index }
        ensures placed { IfSome result (λ e.
            is_entry_there (length (arena_types self.now)) (length (arena_funcs self.now)) e.now
            ≡ true) }
    {
        self.around.entries.get(index as usize)
    }

    /// Adds a type that stands in the arena. `AllocError` comes where there is no memory for it;
    /// the types then stay as they are.
    pub fn add(&mut self, entry: TypeEntry) -> Result<(), AllocError>
        requires there { is_entry_there (length (arena_types self.old))
            (length (arena_funcs self.old)) entry ≡ true }
        ensures added { OnOk result (own_types self.new ≡ own_types self.old
            ++ def_of (arena_types self.old) (arena_funcs self.old) entry ∷ []) }
        ensures kept { OnErr result (own_types self.new ≡ own_types self.old) }
        ensures entries { OnOk result (entries_of self.new ≡ entries_of self.old ++ entry ∷ []) }
        ensures entries_kept { OnErr result (entries_of self.new ≡ entries_of self.old) }
        ensures settled { IsEntrySettled (arena_types self.old) (arena_funcs self.old) entry
            → AreSettled self.old → AreSettled self.new }
        ensures moved { (n : ℕ) → IsMovedCounted (arena_types self.old) (arena_funcs self.old) n
            entry → AreMovedCounted n self.old → AreMovedCounted n self.new }
        ensures around { types_around self.new ≡ types_around self.old }
        ensures around_entries { entries_around self.new ≡ entries_around self.old }
        ensures types { arena_types self.new ≡ arena_types self.old }
        ensures funcs { arena_funcs self.new ≡ arena_funcs self.old }
    {
        self.own.push(entry)
    }
}
