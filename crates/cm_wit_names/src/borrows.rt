//! Borrows in results, by names that lead to them.

ghost use Rattle.std.specs.Prelude.{◌≡◌, ◌<◌, ◌↔◌, ◌⊎◌, ℕ, Some, IfOk, IsTrue, length, map};
ghost use Rattle.std.specs.Prelude.{vec_len};
ghost use Rattle.cm_wit_graph.specs.Graphs.{IsMarked};
ghost use Rattle.cm_wit_names.specs.MentionViews.{mention_view, reference_view};
ghost use Rattle.cm_wit_names.specs.Known.{HasBorrow, HoldsBorrow, IsAt, borrow_owner, edges};
ghost use Rattle.cm_wit_names.specs.Rules.{IsLeast, LeadsOn, LeadsToBorrow};

use crate::graphs::is_marked;
use crate::names::Names;
use crate::{Mention, Reference};
use cm_wit_graph::Graph;
use std::alloc::{AllocError, Global};

/// The declaration in whose text a mention is a borrow.
fn borrow_owner(mention: &Mention<'_>) -> Option<usize>
    ensures { result ≡ borrow_owner (mention_view mention.now) }
{
    match mention.refers {
        Reference::Resource { .. } => mention.owner,
        _ => None,
    }
}

/// Marks a node.
#[tactic(auto, using(crate::proofs::BorrowLaws::set_laws))]
fn mark(marks: &mut Vec<bool>, node: Option<usize>)
    ensures len { vec_len marks.new ≡ vec_len marks.old }
    ensures kept { (k : ℕ) → IsMarked marks.old.items k → IsMarked marks.new.items k }
    ensures marked { (k : ℕ) → node ≡ Some k → k < vec_len marks.old → IsMarked marks.new.items k }
    ensures only { (k : ℕ) → IsMarked marks.new.items k →
        IsMarked marks.old.items k ⊎ (node ≡ Some k) }
{
    if let Some(node) = node {
        if node < marks.len() {
            marks[node] = true;
        }
    }
}

/// A list of so many marks, none of them set.
fn no_marks(alloc: Global, count: usize) -> Result<Vec<bool>, AllocError>
    ensures len { IfOk result (λ marks. vec_len marks ≡ count) }
    ensures none { IfOk result (λ marks. (k : ℕ) → IsMarked marks.items k → ⊥) }
{
    let marks = Vec::from_elem(alloc, false, count)?;
    Ok(marks)
}

impl Names<'_> {
    /// Marks the declarations in whose texts a borrow stands.
    #[tactic(auto, using(crate::proofs::BorrowLaws::borrow_laws))]
    fn borrowing(&self, alloc: Global) -> Result<Vec<bool>, AllocError>
        ensures len { IfOk result (λ marks. vec_len marks ≡ length self.now.mentions.items) }
        ensures sound { IfOk result (λ marks. (k : ℕ) → IsMarked marks.items k →
            HasBorrow (map mention_view self.now.mentions.items) k) }
        ensures all { IfOk result (λ marks. (k : ℕ) → k < length self.now.mentions.items →
            HasBorrow (map mention_view self.now.mentions.items) k → IsMarked marks.items k) }
    {
        let mut marks = no_marks(alloc, self.mentions.len())?;
        for mention in &self.mentions {
            mark(&mut marks, borrow_owner(mention));
        }
        Ok(marks)
    }

    /// Marks the declarations that lead to a borrow.
    fn holding(&self, alloc: Global, graph: &Graph) -> Result<Vec<bool>, AllocError>
        requires nodes { graph.now.nodes ≡ length self.now.mentions.items }
        requires edges { graph.now.edges ≡ edges (map mention_view self.now.mentions.items) }
        ensures { IfOk result (λ marks. (k : ℕ) → k < length self.now.mentions.items →
            (IsMarked marks.items k
            ↔ HoldsBorrow (map mention_view self.now.mentions.items) k)) }
    {
        let marks = self.borrowing(alloc)?;
        let all = graph.leading_to(alloc, marks)?;
        Ok(all)
    }

    /// Whether a reference is to a declaration that leads to a borrow.
    #[tactic(auto, using(crate::proofs::GraphLaws::leads_laws))]
    fn leads_on(&self, refers: Reference<'_>, holding: &[bool]) -> bool
        requires { (k : ℕ) → k < length self.now.mentions.items → (IsMarked holding.now k
            ↔ HoldsBorrow (map mention_view self.now.mentions.items) k) }
        ensures { IsTrue result ↔ LeadsOn (map mention_view self.now.mentions.items)
            (reference_view refers.entry) }
    {
        match self.target(refers) {
            Some(number) => is_marked(holding, number),
            None => false,
        }
    }

    /// Whether a name in a result leads to a borrow.
    fn leads_to_borrow(&self, mention: &Mention<'_>, holding: &[bool]) -> bool
        requires { (k : ℕ) → k < length self.now.mentions.items → (IsMarked holding.now k
            ↔ HoldsBorrow (map mention_view self.now.mentions.items) k) }
        ensures { IsTrue result ↔ LeadsToBorrow (map mention_view self.now.mentions.items)
            (mention_view mention.now) }
    {
        if mention.in_result {
            self.leads_on(mention.refers, holding)
        } else {
            false
        }
    }

    #[tactic(auto, using(crate::proofs::UnknownLaws::borrow_laws))]
    /// The first name in a result that leads to a borrow. Refused only where there is no memory.
    pub fn first_borrow(&self, alloc: Global, graph: &Graph) -> Result<Option<usize>, AllocError>
        requires nodes { graph.now.nodes ≡ length self.now.mentions.items }
        requires edges { graph.now.edges ≡ edges (map mention_view self.now.mentions.items) }
        ensures { IfOk result (IsLeast (λ n. IsAt (map mention_view self.now.mentions.items) n
            (LeadsToBorrow (map mention_view self.now.mentions.items)))) }
    {
        let holding = self.holding(alloc, graph)?;
        for (index, mention) in self.mentions.iter().enumerate() {
            if self.leads_to_borrow(mention, &holding) {
                return Ok(Some(index));
            }
        }
        Ok(None)
    }
}
