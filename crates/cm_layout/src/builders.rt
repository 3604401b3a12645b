//! The layout of a record, a tuple, a variant, an option or a result, from those of its parts, one
//! after another: nothing below the parts is walked.

ghost use Rattle.std.specs.Prelude.{◌≡◌, ◌≤◌, IfOk, List, OnErr, OnOk, Option, codes, ℕ};
ghost use Rattle.std.specs.Option.{option_map};
ghost use Rattle.cm_types.specs.Limits.{nodes_of_cases, nodes_of_fields};
ghost use Rattle.cm_types.specs.Types.{Cases, CasesKind, Fields, FieldsKind, Ty, cases, field};
ghost use Rattle.cm_types.specs.Types.{fields, no_cases, no_fields};
ghost use Rattle.cm_types.specs.TypeTrees.{case_before};
ghost use Rattle.cm_layout.specs.Heads.{AreGreatestOf};
ghost use Rattle.cm_layout.specs.Shapes.{layout_at};

use crate::cases::CasesSoFar;
use crate::fields::FieldsSoFar;
use crate::heads::discriminant_size;
use crate::layouts::{Form, Layout, Part, Payload};
use cm_types::MAX_NODES;
use std::alloc::{AllocError, Global};
use std::sync::Arc;

/// Lays out the fields of a record or a tuple, in order.
#[derive(Drop)]
pub struct FieldsBuilder {
    pub(crate) so_far: FieldsSoFar,
    pub(crate) parts: Vec<Part>,
}

impl FieldsBuilder {
    ghost use Rattle.cm_layout.specs.Layouts.{IsLayingFields, layout_of};

    /// A builder of fields that have at most 10,000 nodes together, with room for `capacity`
    /// fields. `AllocError` comes where there is no memory for them.
    pub fn with_capacity(alloc: Global, capacity: usize) -> Result<FieldsBuilder, AllocError>
        ensures { IfOk result (λ b.
            (all : Fields) → nodes_of_fields all ≤ MAX_NODES → IsLayingFields all all b) }
    {
        Ok(FieldsBuilder {
            so_far: FieldsSoFar::none(),
            parts: Vec::with_capacity(alloc, capacity)?,
        })
    }

    /// Lays out the next field. `AllocError` comes where there is no memory for it, and no field is
    /// laid out then.
    pub fn push(&mut self, layout: Layout) -> Result<(), AllocError>
        requires { (all : Fields) × (rest : Fields) × (label : List ℕ) × (t : Ty)
            × IsLayingFields all (field label t rest) self.old × (layout_of layout ≡ layout_at t) }
        ensures ok { OnOk result ((all rest : Fields) (label : List ℕ) (t : Ty)
            → IsLayingFields all (field label t rest) self.old → layout_of layout ≡ layout_at t
            → IsLayingFields all rest self.new) }
        ensures err { OnErr result ((all rest : Fields)
            → IsLayingFields all rest self.old → IsLayingFields all rest self.new) }
    {
        let mut so_far = self.so_far;
        let offset = so_far.push(layout.head);
        self.parts.push(Part { offset, layout })?;
        self.so_far = so_far;
        Ok(())
    }

    /// The record or tuple of the fields, once all are laid out. `AllocError` comes where there is
    /// no memory for it.
    pub fn finish(self, alloc: Global) -> Result<Layout, AllocError>
        requires { (all : Fields) × IsLayingFields all no_fields self }
        ensures { IfOk result (λ l. (k : FieldsKind) (all : Fields)
            → IsLayingFields all no_fields self → layout_of l ≡ layout_at (fields k all)) }
    {
        Ok(Layout {
            head: self.so_far.whole(),
            form: Form::Fields(Arc::new(alloc, self.parts)?),
        })
    }
}

/// Lays out the cases of a variant, an option or a result, in order.
#[derive(Drop)]
pub struct CasesBuilder {
    pub(crate) so_far: CasesSoFar,
    pub(crate) payloads: Vec<Payload>,
}

impl CasesBuilder {
    ghost use Rattle.cm_layout.specs.Layouts.{IsLayingCases, layout_of, payload_of};

    /// A builder of cases whose payloads have at most 10,000 nodes together, with room for
    /// `capacity` cases. `AllocError` comes where there is no memory for them.
    pub fn with_capacity(alloc: Global, capacity: usize) -> Result<CasesBuilder, AllocError>
        ensures { IfOk result (λ b.
            (all : Cases) → nodes_of_cases all ≤ MAX_NODES → IsLayingCases all all b) }
    {
        Ok(CasesBuilder {
            so_far: CasesSoFar::none(),
            payloads: Vec::with_capacity(alloc, capacity)?,
        })
    }

    /// Lays out the next case. `AllocError` comes where there is no memory for it, and no case is
    /// laid out then.
    pub fn push(&mut self, payload: Payload) -> Result<(), AllocError>
        ensures ok { OnOk result ((all rest : Cases) (label : List ℕ) (t : Option Ty)
            → IsLayingCases all (case_before label t rest) self.old
            → payload_of payload ≡ option_map layout_at t → IsLayingCases all rest self.new) }
        ensures err { OnErr result ((all rest : Cases)
            → IsLayingCases all rest self.old → IsLayingCases all rest self.new) }
    {
        let so_far = self.so_far.beside(payload.so_far());
        self.payloads.push(payload)?;
        self.so_far = so_far;
        Ok(())
    }

    /// The variant, option or result of the cases, once all are laid out. `AllocError` comes where
    /// there is no memory for it.
    pub fn finish(self, alloc: Global) -> Result<Layout, AllocError>
        requires { (all : Cases) × IsLayingCases all no_cases self }
        ensures { IfOk result (λ l. (k : CasesKind) (all : Cases)
            → IsLayingCases all no_cases self → layout_of l ≡ layout_at (cases k all)) }
    {
        let discriminant = discriminant_size(self.payloads.len());
        Ok(Layout {
            head: self.so_far.whole(discriminant),
            form: Form::Cases {
                discriminant,
                offset: self.so_far.offset(discriminant),
                payloads: Arc::new(alloc, self.payloads)?,
            },
        })
    }
}

impl Payload {
    ghost use Rattle.cm_layout.specs.Layouts.{payload_of};

    /// What the payload takes, as that of one case.
    fn so_far(&self) -> CasesSoFar
        ensures { (t : Option Ty) → payload_of self.now ≡ option_map layout_at t
            → AreGreatestOf (case_before (codes "") t no_cases) result }
    {
        match self {
            Payload::Nothing => CasesSoFar::none(),
            Payload::Carried(layout) => CasesSoFar::none().with(layout.head),
        }
    }
}
