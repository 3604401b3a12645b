//! What the declarations of a file lead to.

ghost use Rattle.std.specs.Prelude.{◌≡◌, IfOk, length, map};
ghost use Rattle.cm_wit_names.specs.MentionViews.{mention_view};
ghost use Rattle.cm_wit_names.specs.Known.{edge, edges, leading_edge, using_edge, using_edges};

use crate::names::Names;
use crate::{Mention, Reference};
use std::alloc::{AllocError, Global};

/// An edge, where both ends are there.
fn edge(size: usize, owner: Option<usize>, target: Option<usize>) -> Option<(usize, usize)>
    ensures { result ≡ edge size owner target }
{
    match (owner, target) {
        (Some(owner), Some(target)) if owner < size => Some((owner, target)),
        _ => None,
    }
}

impl<'a> Names<'a> {
    fn leading_edge(&self, mention: &Mention<'a>) -> Option<(usize, usize)>
        ensures { result ≡ leading_edge (map mention_view self.now.mentions.items)
            (mention_view mention.now) }
    {
        if let Reference::Resource { .. } = mention.refers {
            return None;
        }
        edge(
            self.mentions.len(),
            mention.owner,
            self.target(mention.refers),
        )
    }

    fn using_edge(&self, mention: &Mention<'a>) -> Option<(usize, usize)>
        ensures { result ≡ using_edge (map mention_view self.now.mentions.items)
            (mention_view mention.now) }
    {
        let Reference::Used { .. } = mention.refers else {
            return None;
        };
        edge(
            self.mentions.len(),
            mention.owner,
            self.target(mention.refers),
        )
    }

    /// What declarations lead to by the names in their texts, but for borrows.
    #[tactic(auto, using(crate::proofs::EdgeLaws::edge_laws))]
    pub fn edges(&self, alloc: Global) -> Result<Vec<(usize, usize)>, AllocError>
        ensures { IfOk result (λ v. v.items ≡ edges (map mention_view self.now.mentions.items)) }
    {
        let mut edges = Vec::new(alloc);
        for mention in &self.mentions {
            if let Some(edge) = self.leading_edge(mention) {
                edges.push(edge)?;
            }
        }
        Ok(edges)
    }

    /// What used names lead to.
    #[tactic(auto, using(crate::proofs::EdgeLaws::edge_laws))]
    pub fn using_edges(&self, alloc: Global) -> Result<Vec<(usize, usize)>, AllocError>
        ensures { IfOk result
            (λ v. v.items ≡ using_edges (map mention_view self.now.mentions.items)) }
    {
        let mut edges = Vec::new(alloc);
        for mention in &self.mentions {
            if let Some(edge) = self.using_edge(mention) {
                edges.push(edge)?;
            }
        }
        Ok(edges)
    }
}
