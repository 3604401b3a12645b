//! The arena of types.

ghost use Rattle.cm_types_arena.specs.Arena.{AreFuncs, IsArena, types_in};

use crate::building::build;
use crate::entries::{TypeEntry, primitive_entry};
use crate::funcs::FuncEntry;
use crate::primitives::{PRIMITIVES, Primitive};
use crate::summaries::Summary;
use crate::type_defs::TypeDef;
use cm_types::{TypeNode, TypeTree};
use std::alloc::{AllocError, Global};
use thiserror::Error;

/// Why a definition is refused, the most basic reason first.
#[derive(Clone, Copy, Debug, PartialEq, Eq, Error)]
pub enum DefFault {
    /// The type would have more than 10,000 nodes or be more than 64 deep.
    #[error("the type is too large")]
    TooLarge = 1,
    /// No file can spell the type.
    #[error("the type has no fields, no cases, no labels or too many, or no elements")]
    NotSpellable = 2,
    /// There was no memory for the type.
    #[error("no memory for the type")]
    Memory = 3,
}

/// Types by place, the primitive ones first: each stands once, and names its parts by earlier
/// places. Beside them types of functions, by places of their own, each of which names the types in
/// it by their places.
#[derive(Drop)]
pub struct Types {
    pub(crate) entries: Vec<TypeEntry>,
    pub(crate) funcs: Vec<FuncEntry>,
    ghost arena: { ∥ IsArena entries.items ∥₁ },
    ghost functions: { ∥ AreFuncs (types_in entries.items) funcs.items ∥₁ },
}

impl Types {
    ghost use Rattle.std.specs.Prelude.{◌≡◌, ◌<◌, ◌≤◌, ◌++◌, ◌∷◌, [], IfOk, OnOk, OnErr, IsErrOf};
    ghost use Rattle.std.specs.Prelude.{length, map, true, false};
    ghost use Rattle.std.specs.List.{AllByRecursion};
    ghost use Rattle.std.specs.Option.{SomeIff};
    ghost use Rattle.cm_types.specs.declared.limits.TheConstants.{MAX_NODES};
    ghost use Rattle.cm_types.specs.Funcs.{tree_type};
    ghost use Rattle.cm_types.specs.Limits.{IsWithinLimits};
    ghost use Rattle.cm_types.specs.Spellable.{is_spellable};
    ghost use Rattle.cm_types.specs.TypeTrees.{type_of};
    ghost use Rattle.cm_types_arena.specs.Arena.{IsEntry, parts_in};
    ghost use Rattle.cm_types_arena.specs.Places.{HasParts, funcs_of, types_of};
    ghost use Rattle.cm_types_arena.specs.Summaries.{summary_of, summary_of_all};
    ghost use Rattle.cm_types_arena.specs.TypeDefs.{def_parts, def_type, primitive_type, type_at};
    ghost use Rattle.cm_types_arena.specs.TypeDefs.{primitive_types};
    ghost use Rattle.cm_types_arena.specs.declared.types.DefFault.TheVariants as def_fault;

    /// The primitive types, and no type of a function. `AllocError` comes where there is no memory
    /// for them.
    pub fn new(alloc: Global) -> Result<Types, AllocError>
        ensures types { IfOk result (λ types. types_of types ≡ primitive_types) }
        ensures funcs { IfOk result (λ types. funcs_of types ≡ []) }
    {
        let mut entries = Vec::new(alloc);
        for primitive in PRIMITIVES {
            entries.push(primitive_entry(alloc, primitive))?;
        }
        let funcs = Vec::new(alloc);
        Ok(Types { entries, funcs })
    }

    /// The place of a primitive type.
    pub fn primitive(&self, primitive: Primitive) -> usize
        ensures there { result < length (types_of self.now) }
        ensures ty { type_at (types_of self.now) result ≡ primitive_type primitive }
    {
        let _types = self;
        primitive.place()
    }

    /// How many types there are.
    pub fn len(&self) -> usize
        ensures { result ≡ length (types_of self.now) }
    {
        self.entries.len()
    }

    /// What is known of the type at a place.
    pub fn summary(&self, place: usize) -> Summary
        requires { place < length (types_of self.now) }
        ensures { result ≡ summary_of (type_at (types_of self.now) place) }
    {
        self.entries[place].summary
    }

    /// The node of the type at a place.
    pub fn node(&self, place: usize) -> &TypeNode
        requires { place < length (types_of self.now) }
        ensures { type_of result.now ≡ type_at (types_of self.now) place }
    {
        &self.entries[place].node
    }

    /// The places of the types that the type at a place holds, in the order in which they stand:
    /// the element of a list, the fields of a record or a tuple, the payloads of what has cases.
    pub fn parts(&self, place: usize) -> &[usize]
        requires { place < length (types_of self.now) }
        ensures earlier { AllByRecursion (λ p. p < place) result.now }
        ensures parts { parts_in (type_at (types_of self.now) place)
            ≡ map (type_at (types_of self.now)) result.now }
    {
        &self.entries[place].parts
    }

    /// The type at a place, shared. `AllocError` comes where it is shared too often to be counted.
    pub fn tree(&self, place: usize) -> Result<TypeTree, AllocError>
        requires { place < length (types_of self.now) }
        ensures { IfOk result (λ tree. tree_type tree ≡ type_at (types_of self.now) place) }
    {
        let root = self.entries[place].node.share()?;
        Ok(TypeTree { root })
    }

    /// Adds a type, and answers its place.
    ///
    /// `TooLarge` comes where it would not be within the limits, else `NotSpellable` where no file
    /// can spell it, and `Memory` where there is no memory for it; the types then stay as they are.
    /// Its parts are looked at by what is known of them, and nothing below them is walked.
    pub fn push(&mut self, alloc: Global, def: TypeDef) -> Result<usize, DefFault>
        requires parts { HasParts (length (types_of self.old)) def }
        ensures place { IfOk result (λ place. place ≡ length (types_of self.old)) }
        ensures pushed { OnOk result
            (types_of self.new ≡ types_of self.old ++ def_type (types_of self.old) def ∷ []) }
        ensures kept { OnErr result (types_of self.new ≡ types_of self.old) }
        ensures funcs { funcs_of self.new ≡ funcs_of self.old }
        ensures within { OnOk result (IsWithinLimits (def_type (types_of self.old) def)) }
        ensures spellable { OnOk result (is_spellable (def_type (types_of self.old) def) ≡ true) }
        ensures too_large { IsErrOf result def_fault.TooLarge
            → ¬ (IsWithinLimits (def_type (types_of self.old) def)) }
        ensures not_spellable { IsErrOf result def_fault.NotSpellable
            → IsWithinLimits (def_type (types_of self.old) def)
            × (is_spellable (def_type (types_of self.old) def) ≡ false) }
    {
        let entry = self.entry(alloc, def)?;
        let place = self.entries.len();
        match self.entries.push(entry) {
            Ok(()) => Ok(place),
            Err(_) => Err(DefFault::Memory),
        }
    }

    /// The entry that stands for a definition where it is put last.
    fn entry(&self, alloc: Global, def: TypeDef) -> Result<TypeEntry, DefFault>
        requires parts { HasParts (length (types_of self.now)) def }
        ensures entry { IfOk result (λ e.
            IsEntry (types_of self.now) (length (types_of self.now)) e) }
        ensures ty { IfOk result (λ e. type_of e.node ≡ def_type (types_of self.now) def) }
        ensures too_large { IsErrOf result def_fault.TooLarge
            → ¬ (IsWithinLimits (def_type (types_of self.now) def)) }
        ensures not_spellable { IsErrOf result def_fault.NotSpellable
            → IsWithinLimits (def_type (types_of self.now) def)
            × (is_spellable (def_type (types_of self.now) def) ≡ false) }
    {
        let parts = match def.parts(alloc) {
            Ok(parts) => parts,
            Err(AllocError) => return Err(DefFault::Memory),
        };
        let summary = match self.def_summary(&def, &parts) {
            Some(summary) => summary,
            None => return Err(DefFault::TooLarge),
        };
        if !def.is_spellable() {
            return Err(DefFault::NotSpellable);
        }
        match build(alloc, &self.entries, def) {
            Ok(node) => Ok(TypeEntry {
                node,
                parts,
                summary,
            }),
            Err(AllocError) => Err(DefFault::Memory),
        }
    }

    /// What is known of a definition with these parts, if it is within the limits.
    fn def_summary(&self, def: &TypeDef, parts: &[usize]) -> Option<Summary>
        requires parts { parts.now ≡ def_parts def.now }
        ensures { SomeIff result (IsWithinLimits (def_type (types_of self.now) def.now))
            (summary_of (def_type (types_of self.now) def.now)) }
    {
        let together = self.summary_together(parts)?;
        def.summary(together)
    }

    /// What is known of the types at these places together, if it is within the limit on nodes.
    pub(crate) fn summary_together(&self, places: &[usize]) -> Option<Summary>
        ensures { SomeIff result
            ((summary_of_all (map (type_at (types_of self.now)) places.now)).nodes ≤ MAX_NODES)
            (summary_of_all (map (type_at (types_of self.now)) places.now)) }
    {
        let mut together = Summary::none();
        for place in places {
            together = together.beside(self.summary_at(*place))?;
        }
        Some(together)
    }

    fn summary_at(&self, place: usize) -> Summary
        ensures { result ≡ summary_of (type_at (types_of self.now) place) }
    {
        match self.entries.get(place) {
            Some(entry) => entry.summary,
            None => Summary::leaf(),
        }
    }
}
