//! Names that lead nowhere.

ghost use Rattle.std.specs.Prelude.{◌≡◌, ◌↔◌, ℕ, IfOk, IsTrue, map};
ghost use Rattle.cm_wit_graph.specs.Graphs.{IsMarked};
ghost use Rattle.cm_wit_names.specs.MentionViews.{mention_view, reference_view};
ghost use Rattle.cm_wit_names.specs.Known.{IsAt, IsResource, known_at};
ghost use Rattle.cm_wit_names.specs.Rules.{IsLeast, IsUnknown};

use crate::Reference;
use crate::graphs::is_marked;
use crate::names::Names;
use std::alloc::{AllocError, Global};

impl<'a> Names<'a> {
    #[tactic(auto, using(crate::proofs::UnknownLaws::own_laws))]
    /// Marks the mentions that may be resources by themselves.
    fn own_resources(&self, alloc: Global) -> Result<Vec<bool>, AllocError>
        ensures { IfOk result (λ marks. marks.items
            ≡ map (λ m. m.may_be_resource) (map mention_view self.now.mentions.items)) }
    {
        let mut marks = Vec::with_capacity(alloc, self.mentions.len())?;
        for mention in &self.mentions {
            marks.push(mention.may_be_resource)?;
        }
        Ok(marks)
    }

    /// Marks the mentions that are resources.
    fn resources(&self, alloc: Global) -> Result<Vec<bool>, AllocError>
        ensures { IfOk result (λ marks. (k : ℕ) → IsMarked marks.items k
            ↔ IsResource (map mention_view self.now.mentions.items) k) }
    {
        let marks = self.own_resources(alloc)?;
        self.using_graph(alloc)?.leading_to(alloc, marks)
    }

    #[tactic(auto, using(crate::proofs::UnknownLaws::reference_laws))]
    /// Whether nothing that a reference can mean is declared.
    fn is_unknown(&self, refers: Reference<'a>, resources: &[bool]) -> bool
        requires { (k : ℕ) → IsMarked resources.now k
            ↔ IsResource (map mention_view self.now.mentions.items) k }
        ensures { IsTrue result ↔ IsUnknown (map mention_view self.now.mentions.items)
            (reference_view refers.entry) }
    {
        match refers {
            Reference::Nothing => false,
            Reference::Interface(name) => self.known_at(0, name.as_str()).is_none(),
            Reference::Used { interface, name } => match self.known_at(0, interface.as_str()) {
                Some(number) => self.known_at(number, name.as_str()).is_none(),
                None => false,
            },
            Reference::Type { scope, name } => self.known_at(scope, name.as_str()).is_none(),
            Reference::Resource { scope, name } => match self.known_at(scope, name.as_str()) {
                Some(number) => !is_marked(resources, number),
                None => true,
            },
        }
    }

    #[tactic(auto, using(crate::proofs::UnknownLaws::unknown_laws))]
    /// The first name that refers to what is not declared. Refused only where there is no memory.
    pub fn first_unknown(&self, alloc: Global) -> Result<Option<usize>, AllocError>
        ensures { IfOk result (IsLeast (λ n. IsAt (map mention_view self.now.mentions.items) n
            (λ m. IsUnknown (map mention_view self.now.mentions.items) m.refers))) }
    {
        let resources = self.resources(alloc)?;
        for (index, mention) in self.mentions.iter().enumerate() {
            if self.is_unknown(mention.refers, &resources) {
                return Ok(Some(index));
            }
        }
        Ok(None)
    }
}
