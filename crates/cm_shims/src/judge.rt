//! Whether functions and types are as a shim says.

ghost use Rattle.std.specs.Prelude.{◌≡◌, ◌↔◌, IfOk, IsTrue, List, None, Some, slice_get};
ghost use Rattle.std.specs.Prelude.{if◌then◌else◌};
ghost use Rattle.std.specs.Option.{option_map};
ghost use Rattle.cm_types.specs.Types.{FuncTy, Ty};
ghost use Rattle.cm_types_arena.specs.Placed.{placed_func, placed_type};
ghost use Rattle.cm_types_arena.specs.Places.{funcs_of, types_of};
ghost use Rattle.cm_types_numbers.specs.Numbering.{Extends, number, number_func, numbering};
ghost use Rattle.cm_validate_model.specs.Definitions.{func_type, func_type_of, resource, value};
ghost use Rattle.cm_validate_model.specs.Spaces.{Spaces};
ghost use Rattle.cm_validate_types.specs.Entries.{def_of};
ghost use Rattle.cm_validate_entries.specs.Entries.{func_def};
ghost use Rattle.cm_validate_spaces.specs.IndexSpaces.{IsAt, funcs_in};
ghost use Rattle.cm_shims_plain.specs.declared.wants.Want.TheVariants as wants;
ghost use Rattle.cm_shims.specs.Fitting.{Holds};
ghost use Rattle.cm_shims.specs.Judging.{AreOne, IsArenaOf, Judges};
ghost use Rattle.cm_shims.specs.Reasons.{reason_of};

use crate::fault::FitReason;
use cm_shims_plain::Want;
use cm_types::ResourceId;
use cm_types_arena::placed_laws::unmoved;
use cm_types_arena::{Placed, Replacement, Types};
use cm_types_numbers::laws::numbers_stay;
use cm_types_numbers::{Brought, KnownPlaced, Numbers};
use cm_validate_spaces::{FuncEntry, IndexSpaces, TypeEntry};
use std::alloc::{AllocError, Global};

/// Each resource stands for itself.
#[derive(Clone, Copy)]
struct Itself;

impl Replacement for Itself {
    ghost replacement = { λ itself r. r };

    fn replace(&self, id: ResourceId) -> ResourceId {
        id
    }
}

/// The numbers of the types of an arena, two of which are equal exactly where the types are; and
/// which are known already, so that each type is numbered once.
#[derive(Drop)]
pub(crate) struct Tables {
    pub(crate) numbers: Numbers,
    pub(crate) known: KnownPlaced,
}

/// The type of a function.
fn func_type_of(func: FuncEntry<'_>) -> Placed
    ensures { (funcs : List FuncTy)
        → placed_func funcs result ≡ func_type_of (func_def funcs func.entry) }
{
    match func {
        FuncEntry::Lifted { ty, .. } => ty,
        FuncEntry::Imported { ty, .. } => ty,
    }
}

/// The type of the function of an index, if there is one.
fn func_type_at(spaces: &IndexSpaces<'_>, func: u32) -> Option<Placed>
    ensures { (s : Spaces) → IsAt spaces.now s → option_map (placed_func (funcs_in spaces.now))
        result ≡ option_map func_type_of (slice_get s.funcs func) }
{
    match spaces.func(func) {
        Some(func) => Some(func_type_of(func)),
        None => None,
    }
}

/// A reason, unless what is wanted holds.
fn unless(holds: bool, reason: FitReason) -> Option<FitReason>
    ensures { result ≡ if holds then None else Some reason }
{
    if holds { None } else { Some(reason) }
}

/// Whether a type is a resource.
fn is_resource(spaces: &IndexSpaces<'_>, ty: u32) -> bool
    ensures { (s : Spaces) → IsAt spaces.now s → IsTrue result ↔ Holds s (wants.Resource ty) }
{
    match spaces.type_entry(ty) {
        Some(TypeEntry::Resource(_)) => true,
        Some(TypeEntry::Value(_) | TypeEntry::Func(_) | TypeEntry::Instance(_)) | None => false,
    }
}

impl Tables {
    ghost use Rattle.std.specs.Prelude.{OnOk};
    ghost use Rattle.cm_types_arena.specs.declared.types.Types.{Types as Arena};
    ghost use Rattle.cm_shims.specs.Judging.{IsKnown};

    /// Nothing is known yet.
    pub(crate) fn new(alloc: Global) -> Tables
        ensures { (arena : Arena) → IsKnown result arena }
    {
        Tables {
            numbers: Numbers::new(alloc),
            known: KnownPlaced::new(alloc),
        }
    }

    /// The number of a value type.
    fn number_type(&mut self, alloc: Global, arena: &Types, ty: Placed) -> Result<usize, AllocError>
        requires { IsKnown self.old arena.now }
        ensures number { IfOk result (λ n. number (numbering self.new.numbers)
            (placed_type (types_of arena.now) ty) ≡ Some n) }
        ensures known { IsKnown self.new arena.now }
        ensures kept { Extends (numbering self.old.numbers) (numbering self.new.numbers) }
    {
        unmoved();
        let brought = Brought { ty, by: None };
        self.known
            .number_type(alloc, &mut self.numbers, &Itself, arena, brought)
    }

    /// The number of the type of a function.
    fn number_func(&mut self, alloc: Global, arena: &Types, ty: Placed) -> Result<usize, AllocError>
        requires { IsKnown self.old arena.now }
        ensures number { IfOk result (λ n. number_func (numbering self.new.numbers)
            (placed_func (funcs_of arena.now) ty) ≡ Some n) }
        ensures known { IsKnown self.new arena.now }
        ensures kept { Extends (numbering self.old.numbers) (numbering self.new.numbers) }
    {
        unmoved();
        let brought = Brought { ty, by: None };
        self.known
            .number_func_type(alloc, &mut self.numbers, &Itself, arena, brought)
    }

    /// Whether two value types are the same.
    fn same_types(
        &mut self,
        alloc: Global,
        arena: &Types,
        a: Placed,
        b: Placed,
    ) -> Result<bool, AllocError>
        requires { IsKnown self.old arena.now }
        ensures same { IfOk result (λ same. IsTrue same
            ↔ (placed_type (types_of arena.now) a ≡ placed_type (types_of arena.now) b)) }
        ensures known { IsKnown self.new arena.now }
    {
        numbers_stay();
        let left = self.number_type(alloc, arena, a)?;
        let right = self.number_type(alloc, arena, b)?;
        self.numbers.tell_apart();
        Ok(left == right)
    }

    /// Whether the types of two functions are the same.
    fn same_funcs(
        &mut self,
        alloc: Global,
        arena: &Types,
        a: Placed,
        b: Placed,
    ) -> Result<bool, AllocError>
        requires { IsKnown self.old arena.now }
        ensures same { IfOk result (λ same. IsTrue same
            ↔ (placed_func (funcs_of arena.now) a ≡ placed_func (funcs_of arena.now) b)) }
        ensures known { IsKnown self.new arena.now }
    {
        numbers_stay();
        let left = self.number_func(alloc, arena, a)?;
        let right = self.number_func(alloc, arena, b)?;
        self.numbers.tell_apart();
        Ok(left == right)
    }

    /// Whether a type is this value type.
    fn is_value(
        &mut self,
        alloc: Global,
        arena: &Types,
        a: Placed,
        b: &TypeEntry,
    ) -> Result<bool, AllocError>
        requires { IsKnown self.old arena.now }
        ensures same { IfOk result (λ same. IsTrue same
            ↔ AreOne (value (placed_type (types_of arena.now) a))
            (def_of (types_of arena.now) (funcs_of arena.now) b.now)) }
        ensures known { IsKnown self.new arena.now }
    {
        match b {
            TypeEntry::Value(b) => self.same_types(alloc, arena, a, *b),
            TypeEntry::Func(_) | TypeEntry::Resource(_) | TypeEntry::Instance(_) => Ok(false),
        }
    }

    /// Whether a type is this type of a function.
    fn is_func(
        &mut self,
        alloc: Global,
        arena: &Types,
        a: Placed,
        b: &TypeEntry,
    ) -> Result<bool, AllocError>
        requires { IsKnown self.old arena.now }
        ensures same { IfOk result (λ same. IsTrue same
            ↔ AreOne (func_type (placed_func (funcs_of arena.now) a))
            (def_of (types_of arena.now) (funcs_of arena.now) b.now)) }
        ensures known { IsKnown self.new arena.now }
    {
        match b {
            TypeEntry::Func(b) => self.same_funcs(alloc, arena, a, *b),
            TypeEntry::Value(_) | TypeEntry::Resource(_) | TypeEntry::Instance(_) => Ok(false),
        }
    }

    /// Whether two types are one.
    fn are_one(
        &mut self,
        alloc: Global,
        arena: &Types,
        a: &TypeEntry,
        b: &TypeEntry,
    ) -> Result<bool, AllocError>
        requires { IsKnown self.old arena.now }
        ensures same { IfOk result (λ same. IsTrue same
            ↔ AreOne (def_of (types_of arena.now) (funcs_of arena.now) a.now)
            (def_of (types_of arena.now) (funcs_of arena.now) b.now)) }
        ensures known { IsKnown self.new arena.now }
    {
        match a {
            TypeEntry::Value(a) => self.is_value(alloc, arena, *a, b),
            TypeEntry::Func(a) => self.is_func(alloc, arena, *a, b),
            TypeEntry::Resource(a) => Ok(is_same_resource(*a, b)),
            TypeEntry::Instance(_) => Ok(false),
        }
    }

    /// Whether a function has a type.
    fn has_type(
        &mut self,
        alloc: Global,
        arena: &Types,
        spaces: &IndexSpaces<'_>,
        func: u32,
        ty: u32,
    ) -> Result<bool, AllocError>
        requires known { IsKnown self.old arena.now }
        requires arena { IsArenaOf arena.now spaces.now }
        ensures holds { IfOk result (λ holds. (s : Spaces) → IsAt spaces.now s
            → IsTrue holds ↔ Holds s (wants.Func func ty)) }
        ensures known { IsKnown self.new arena.now }
    {
        let Some(func) = func_type_at(spaces, func) else {
            return Ok(false);
        };
        match spaces.type_entry(ty) {
            Some(entry) => self.is_func(alloc, arena, func, entry),
            None => Ok(false),
        }
    }

    /// Whether the types of two indices are one.
    fn are_equal(
        &mut self,
        alloc: Global,
        arena: &Types,
        spaces: &IndexSpaces<'_>,
        ty: u32,
        equal: u32,
    ) -> Result<bool, AllocError>
        requires known { IsKnown self.old arena.now }
        requires arena { IsArenaOf arena.now spaces.now }
        ensures holds { IfOk result (λ holds. (s : Spaces) → IsAt spaces.now s
            → IsTrue holds ↔ Holds s (wants.Type ty equal)) }
        ensures known { IsKnown self.new arena.now }
    {
        let Some(a) = spaces.type_entry(ty) else {
            return Ok(false);
        };
        match spaces.type_entry(equal) {
            Some(b) => self.are_one(alloc, arena, a, b),
            None => Ok(false),
        }
    }

    /// Whether what a shim wants holds.
    fn holds(
        &mut self,
        alloc: Global,
        arena: &Types,
        spaces: &IndexSpaces<'_>,
        want: Want,
    ) -> Result<bool, AllocError>
        requires known { IsKnown self.old arena.now }
        requires arena { IsArenaOf arena.now spaces.now }
        ensures holds { IfOk result (λ holds. (s : Spaces) → IsAt spaces.now s
            → IsTrue holds ↔ Holds s want) }
        ensures known { IsKnown self.new arena.now }
    {
        match want {
            Want::Func(func, ty) => self.has_type(alloc, arena, spaces, func, ty),
            Want::Type(ty, equal) => self.are_equal(alloc, arena, spaces, ty, equal),
            Want::Resource(ty) => Ok(is_resource(spaces, ty)),
        }
    }

    /// Why what a shim wants does not hold, if it does not.
    pub(crate) fn fault(
        &mut self,
        alloc: Global,
        arena: &Types,
        spaces: &IndexSpaces<'_>,
        want: Want,
    ) -> Result<Option<FitReason>, AllocError>
        requires known { IsKnown self.old arena.now }
        requires arena { IsArenaOf arena.now spaces.now }
        ensures fault { IfOk result (λ fault. (s : Spaces) → IsAt spaces.now s
            → Judges (Holds s want) (reason_of want) fault) }
        ensures known { IsKnown self.new arena.now }
    {
        let holds = self.holds(alloc, arena, spaces, want)?;
        Ok(unless(holds, reason_of(want)))
    }
}

/// Whether a type is this resource.
fn is_same_resource(a: u64, b: &TypeEntry) -> bool
    ensures { (types : List Ty) (funcs : List FuncTy)
        → IsTrue result ↔ AreOne (resource a) (def_of types funcs b.now) }
{
    match b {
        TypeEntry::Resource(b) => a == *b,
        TypeEntry::Value(_) | TypeEntry::Func(_) | TypeEntry::Instance(_) => false,
    }
}

/// Why a want is refused that does not hold.
fn reason_of(want: Want) -> FitReason
    ensures { result ≡ reason_of want }
{
    match want {
        Want::Func(..) => FitReason::OtherFunc,
        Want::Type(..) => FitReason::OtherType,
        Want::Resource(_) => FitReason::NoResource,
    }
}
