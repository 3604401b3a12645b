//! A linked set of components.

ghost use Rattle.std.specs.Prelude.{◌≡◌, ◌≤◌, length};
ghost use Rattle.cm_match_model.specs.declared.plan.TheConstants.{MAX_COMPONENTS};
ghost use Rattle.cm_match_model.specs.Links.{CanBeLinked, plan_of};
ghost use Rattle.cm_match_serving.specs.Candidates.{AreCandidates};
ghost use Rattle.cm_match_serving.specs.Sets.{set_by};

use cm_match_model::{Candidate, Choices, PlanLine};
use cm_match_serving::Checked;

/// A set of components whose imports are all served by components before.
#[derive(Drop)]
pub struct Linked<'a> {
    pub(crate) components: Vec<Checked<'a>>,
    /// What is chosen for the imports of the components.
    pub(crate) choices: Choices,
    /// Which exports may serve each import of each component: one each.
    pub(crate) candidates: Vec<Vec<Candidate>>,
    pub(crate) plan: Vec<PlanLine>,
    ghost can_be_linked: { ∥ CanBeLinked (set_by components.items choices) ∥₁ },
    ghost found: { AreCandidates (set_by components.items choices) candidates.items },
    ghost planned: { plan.items ≡ plan_of (set_by components.items choices) },
    ghost few: { length components.items ≤ MAX_COMPONENTS },
}
