//! The numbers of what a type holds: fields and cases as chains, from their end.

ghost use Rattle.std.specs.Prelude.{◌≡◌, List, IfOk, Option, Some, length};
ghost use Rattle.cm_types.specs.TypeTrees.{case_before, cases_of, fields_of, parts_from};
ghost use Rattle.cm_types.specs.TypeTrees.{shared_payload};
ghost use Rattle.cm_types.specs.Types.{Cases, Ty, no_cases};
ghost use Rattle.cm_types_arena.specs.Arena.{field_types, payload_types};
ghost use Rattle.cm_types_arena.specs.Replaced.{Standing, replaced_cases, replaced_fields};
ghost use Rattle.cm_types_numbers.specs.Numbering.{AreNumbers, Extends, HasNumber, number_cases};
ghost use Rattle.cm_types_numbers.specs.Numbering.{number_fields, number_labels, numbering};
ghost use Rattle.cm_types_numbers.specs.Numbering.{result_cases};

use crate::key::{Key, Leaf};
use crate::numbers::Numbers;
use cm_types::{Case, Field, Label, TypeNode};
use std::alloc::AllocError;
use std::rc::Rc;

impl Numbers {
    /// The number of fields, from the numbers of their types.
    pub(crate) fn fields(&mut self, parts: &[usize], fields: &[Field]) -> Result<usize, AllocError>
        requires { length parts.now ≡ length fields.now }
        ensures number { IfOk result (λ n. (s : Standing)
            → AreNumbers (numbering self.old) s (field_types (fields_of fields.now)) parts.now
            → number_fields (numbering self.new) (replaced_fields s (fields_of fields.now))
            ≡ Some n) }
        ensures kept { Extends (numbering self.old) (numbering self.new) }
    {
        let mut others = self.node(Key::Leaf(Leaf::NoFields))?;
        for i in (0..fields.len()).rev() {
            let field = &fields[i];
            let label = self.label(field.label.as_str())?;
            let ty = parts[i];
            others = self.node(Key::Field { label, ty, others })?;
        }
        Ok(others)
    }

    /// The number of fields without labels, from the numbers of their types.
    pub(crate) fn parts(&mut self, parts: &[usize]) -> Result<usize, AllocError>
        ensures number { IfOk result (λ n. (s : Standing) (ts : List Ty)
            → AreNumbers (numbering self.old) s ts parts.now
            → number_fields (numbering self.new) (replaced_fields s (parts_from ts)) ≡ Some n) }
        ensures kept { Extends (numbering self.old) (numbering self.new) }
    {
        let mut others = self.node(Key::Leaf(Leaf::NoFields))?;
        for i in (0..parts.len()).rev() {
            let label = self.label("")?;
            let ty = parts[i];
            others = self.node(Key::Field { label, ty, others })?;
        }
        Ok(others)
    }

    /// The number of cases without payloads.
    pub(crate) fn labels(&mut self, labels: &[Label]) -> Result<usize, AllocError>
        ensures number { IfOk result (λ n.
            number_labels (numbering self.new) labels.now ≡ Some n) }
        ensures kept { Extends (numbering self.old) (numbering self.new) }
    {
        let mut others = self.node(Key::Leaf(Leaf::NoCases))?;
        for i in (0..labels.len()).rev() {
            let label = self.label(labels[i].as_str())?;
            others = self.node(Key::Plain { label, others })?;
        }
        Ok(others)
    }

    /// The number of a case before others, from the number of its payload.
    fn case(
        &mut self,
        text: &str,
        payload: Option<usize>,
        others: usize,
    ) -> Result<usize, AllocError>
        ensures number { IfOk result (λ n. (x : Option Ty) (cs : Cases)
            → HasNumber (numbering self.old) x payload
            → number_cases (numbering self.old) cs ≡ Some others
            → number_cases (numbering self.new) (case_before text.now x cs) ≡ Some n) }
        ensures kept { Extends (numbering self.old) (numbering self.new) }
    {
        let label = self.label(text)?;
        match payload {
            None => self.node(Key::Plain { label, others }),
            Some(ty) => self.node(Key::Carrying { label, ty, others }),
        }
    }

    /// The number of cases, from the numbers of the payloads that they carry.
    pub(crate) fn cases(&mut self, payloads: &[usize], cases: &[Case]) -> Result<usize, AllocError>
        requires { length payloads.now ≡ length (payload_types (cases_of cases.now)) }
        ensures number { IfOk result (λ n. (s : Standing)
            → AreNumbers (numbering self.old) s (payload_types (cases_of cases.now)) payloads.now
            → number_cases (numbering self.new) (replaced_cases s (cases_of cases.now))
            ≡ Some n) }
        ensures kept { Extends (numbering self.old) (numbering self.new) }
    {
        let mut others = self.node(Key::Leaf(Leaf::NoCases))?;
        // How many of the payloads belong to cases before the one that is next.
        let mut left = payloads.len();
        for i in (0..cases.len()).rev() {
            let case = &cases[i];
            let text = case.label.as_str();
            match case.payload {
                None => others = self.case(text, None, others)?,
                Some(_) => {
                    left -= 1;
                    others = self.case(text, Some(payloads[left]), others)?;
                }
            }
        }
        Ok(others)
    }

    /// The number of two cases, from the numbers of their payloads.
    pub(crate) fn two_cases(
        &mut self,
        first: &str,
        first_payload: Option<usize>,
        second: &str,
        second_payload: Option<usize>,
    ) -> Result<usize, AllocError>
        ensures number { IfOk result (λ n. (x y : Option Ty)
            → HasNumber (numbering self.old) x first_payload
            → HasNumber (numbering self.old) y second_payload
            → number_cases (numbering self.new)
            (case_before first.now x (case_before second.now y no_cases)) ≡ Some n) }
        ensures kept { Extends (numbering self.old) (numbering self.new) }
    {
        let none = self.node(Key::Leaf(Leaf::NoCases))?;
        let others = self.case(second, second_payload, none)?;
        self.case(first, first_payload, others)
    }

    /// The number of the cases of a result, from the numbers of the payloads that they carry.
    pub(crate) fn result_cases(
        &mut self,
        payloads: &[usize],
        ok: &Option<Rc<TypeNode>>,
        error: &Option<Rc<TypeNode>>,
    ) -> Result<usize, AllocError>
        requires { length payloads.now ≡ length (payload_types
            (result_cases (shared_payload ok.now) (shared_payload error.now))) }
        ensures number { IfOk result (λ n. (s : Standing)
            → AreNumbers (numbering self.old) s (payload_types
            (result_cases (shared_payload ok.now) (shared_payload error.now))) payloads.now
            → number_cases (numbering self.new) (replaced_cases s
            (result_cases (shared_payload ok.now) (shared_payload error.now))) ≡ Some n) }
        ensures kept { Extends (numbering self.old) (numbering self.new) }
    {
        match (ok, error) {
            (None, None) => self.two_cases("ok", None, "error", None),
            (Some(_), None) => self.two_cases("ok", Some(payloads[0]), "error", None),
            (None, Some(_)) => self.two_cases("ok", None, "error", Some(payloads[0])),
            (Some(_), Some(_)) => {
                self.two_cases("ok", Some(payloads[0]), "error", Some(payloads[1]))
            }
        }
    }
}
