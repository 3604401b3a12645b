//! The sketch of a definition, by those of the types that it names.

ghost use Rattle.std.specs.Prelude.{◌≡◌};
ghost use Rattle.cm_validate_instances.specs.Definitions.{handle_sketch, parts_sketch};
ghost use Rattle.cm_validate_instances.specs.declared.sketches.ValueSketch.TheVariants as kind;

use crate::level::SketchLevel;
use crate::sketches::{FuncSketch, Sketch, ValueSketch};
use cm_types::{CaseType, DefValType, FuncType, LabeledValType, ResourceId, ValType};

/// The sketch of a type that is no handle, from whether each type in it is one, and whether one of
/// them holds a borrow.
fn parts_sketch(there: bool, borrow: bool) -> Sketch
    ensures { result ≡ parts_sketch there borrow }
{
    match (there, borrow) {
        (false, _) => Sketch::Faulty,
        (true, true) => Sketch::Value(ValueSketch::HoldsBorrow),
        (true, false) => Sketch::Value(ValueSketch::Plain),
    }
}

fn own_sketch(named: Option<Sketch>) -> Sketch
    ensures { result ≡ handle_sketch kind.Own named }
{
    match named {
        Some(Sketch::Resource(resource)) => Sketch::Value(ValueSketch::Own(resource)),
        _ => Sketch::Faulty,
    }
}

fn borrow_sketch(named: Option<Sketch>) -> Sketch
    ensures { result ≡ handle_sketch kind.Borrow named }
{
    match named {
        Some(Sketch::Resource(resource)) => Sketch::Value(ValueSketch::Borrow(resource)),
        _ => Sketch::Faulty,
    }
}

impl SketchLevel {
    ghost use Rattle.std.specs.List.{list_all, list_any};
    ghost use Rattle.cm_types.specs.DefTypes.{def_val_type_tree, func_type_tree};
    ghost use Rattle.cm_validate_instances.specs.Definitions.{are_used, func_def_sketch};
    ghost use Rattle.cm_validate_instances.specs.Definitions.{holds_used, is_used, payload_holds};
    ghost use Rattle.cm_validate_instances.specs.Definitions.{is_payload_used, result_owned};
    ghost use Rattle.cm_validate_instances.specs.Definitions.{self_param, used, value_def_sketch};
    ghost use Rattle.cm_validate_instances.specs.Levels.{sketches_of};

    /// The sketch of a value type where it is used, if it names one.
    fn used(&self, ty: ValType) -> Option<ValueSketch>
        ensures { result ≡ used (sketches_of self.now) ty }
    {
        match ty {
            ValType::Primitive(_) => Some(ValueSketch::Plain),
            ValType::Index(index) => match self.get(index) {
                Some(Sketch::Value(value)) => Some(value),
                _ => None,
            },
        }
    }

    fn is_used(&self, ty: ValType) -> bool
        ensures { result ≡ is_used (sketches_of self.now) ty }
    {
        self.used(ty).is_some()
    }

    fn holds_used(&self, ty: ValType) -> bool
        ensures { result ≡ holds_used (sketches_of self.now) ty }
    {
        match self.used(ty) {
            Some(value) => value.holds_borrow(),
            None => false,
        }
    }

    fn is_payload_used(&self, payload: Option<ValType>) -> bool
        ensures { result ≡ is_payload_used (sketches_of self.now) payload }
    {
        match payload {
            Some(ty) => self.is_used(ty),
            None => true,
        }
    }

    pub(crate) fn payload_holds(&self, payload: Option<ValType>) -> bool
        ensures { result ≡ payload_holds (sketches_of self.now) payload }
    {
        match payload {
            Some(ty) => self.holds_used(ty),
            None => false,
        }
    }

    fn fields_used(&self, fields: &[LabeledValType]) -> bool
        ensures { result ≡ list_all (λ f. is_used (sketches_of self.now) f.ty) fields.now }
    {
        fields.iter().all(|field| self.is_used(field.ty))
    }

    fn fields_hold(&self, fields: &[LabeledValType]) -> bool
        ensures { result ≡ list_any (λ f. holds_used (sketches_of self.now) f.ty) fields.now }
    {
        fields.iter().any(|field| self.holds_used(field.ty))
    }

    fn cases_used(&self, cases: &[CaseType]) -> bool
        ensures { result
            ≡ list_all (λ c. is_payload_used (sketches_of self.now) c.payload) cases.now }
    {
        cases.iter().all(|case| self.is_payload_used(case.payload))
    }

    fn cases_hold(&self, cases: &[CaseType]) -> bool
        ensures { result
            ≡ list_any (λ c. payload_holds (sketches_of self.now) c.payload) cases.now }
    {
        cases.iter().any(|case| self.payload_holds(case.payload))
    }

    fn types_used(&self, types: &[ValType]) -> bool
        ensures { result ≡ list_all (is_used (sketches_of self.now)) types.now }
    {
        types.iter().all(|ty| self.is_used(*ty))
    }

    fn types_hold(&self, types: &[ValType]) -> bool
        ensures { result ≡ list_any (holds_used (sketches_of self.now)) types.now }
    {
        types.iter().any(|ty| self.holds_used(*ty))
    }

    /// The sketch of a value type as a definition says it: `Faulty` where the definition names what
    /// is not there, or is of another sort. It costs the definition's own length.
    pub fn value_def(&self, def: &DefValType) -> Sketch
        ensures { result
            ≡ value_def_sketch (sketches_of self.now) (def_val_type_tree def.now) }
    {
        match def {
            DefValType::Primitive(_) | DefValType::Flags(_) | DefValType::Enum(_) => {
                Sketch::Value(ValueSketch::Plain)
            }
            DefValType::Record(fields) => {
                parts_sketch(self.fields_used(fields), self.fields_hold(fields))
            }
            DefValType::Variant(cases) => {
                parts_sketch(self.cases_used(cases), self.cases_hold(cases))
            }
            DefValType::Tuple(types) => {
                parts_sketch(self.types_used(types), self.types_hold(types))
            }
            DefValType::List(ty) | DefValType::Option(ty) => {
                parts_sketch(self.is_used(*ty), self.holds_used(*ty))
            }
            DefValType::FixedList { element, .. } => {
                parts_sketch(self.is_used(*element), self.holds_used(*element))
            }
            DefValType::Result { ok, error } => parts_sketch(
                self.is_payload_used(*ok) && self.is_payload_used(*error),
                self.payload_holds(*ok) || self.payload_holds(*error),
            ),
            DefValType::Own(index) => own_sketch(self.get(*index)),
            DefValType::Borrow(index) => borrow_sketch(self.get(*index)),
        }
    }

    /// Whether each type that a function uses is a value type.
    pub(crate) fn are_used(&self, func: &FuncType) -> bool
        ensures { result ≡ are_used (sketches_of self.now) (func_type_tree func.now) }
    {
        self.fields_used(&func.params) && self.is_payload_used(func.result)
    }

    /// The resource that the first of some parameters borrows as `self`, if it does.
    fn self_param(&self, params: &[LabeledValType]) -> Option<ResourceId>
        ensures { result ≡ self_param (sketches_of self.now) params.now }
    {
        match params {
            [] => None,
            [first, ..] => {
                if first.label.as_bytes() == b"self".as_slice() {
                    self.used(first.ty)?.borrowed()
                } else {
                    None
                }
            }
        }
    }

    /// The resource of which an answer is an owned handle, if it is.
    fn result_owned(&self, answer: Option<ValType>) -> Option<ResourceId>
        ensures { result ≡ result_owned (sketches_of self.now) answer }
    {
        self.used(answer?)?.owned()
    }

    /// The sketch of the type of a function as a definition says it: `Faulty` where the definition
    /// names what is not there, or is of another sort. It costs the definition's own length.
    pub fn func_def(&self, func: &FuncType) -> Sketch
        ensures { result ≡ func_def_sketch (sketches_of self.now) (func_type_tree func.now) }
    {
        if !self.are_used(func) {
            return Sketch::Faulty;
        }
        Sketch::Func(FuncSketch {
            self_borrow: self.self_param(&func.params),
            own_result: self.result_owned(func.result),
        })
    }
}
