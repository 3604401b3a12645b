//! What a linked set tells.

use crate::following::target_within;
use crate::linked::Linked;
use crate::target::Target;
use cm_match_model::PlanLine;
use cm_match_serving::{Checked, Linking};
use cm_types::ResourceId;

impl<'a> Linked<'a> {
    ghost use Rattle.std.specs.Prelude.{◌≡◌, IfSome, None, length, true};
    ghost use Rattle.std.specs.Option.{option_map};
    ghost use Rattle.cm_types_arena.specs.Placed.{is_there};
    ghost use Rattle.cm_match_model.specs.Origins.{origin_of, resource_of};
    ghost use Rattle.cm_match_model.specs.Imports.{links_of};
    ghost use Rattle.cm_match_model.specs.Links.{CanBeLinked, plan_of};
    ghost use Rattle.cm_match_model.specs.Targets.{targets_of};
    ghost use Rattle.cm_match_serving.specs.Linkings as linking;
    ghost use Rattle.cm_match_serving.specs.Sets.{funcs_at};
    ghost use Rattle.cm_match.specs.Linked.{components_in, set_in};
    ghost use Rattle.cm_match.specs.Targets.{target_def};

    /// Which export of which component each import is linked to: a line an import, the components
    /// in order and the imports of each in order.
    pub fn plan(&self) -> &[PlanLine]
        ensures { result.now ≡ plan_of (set_in self.now) }
    {
        &self.plan
    }

    /// The components, in the order in which they were linked: 1 to 16.
    pub fn components(&self) -> &[Checked<'a>]
        ensures components { result.now ≡ components_in self.now }
        ensures linked { ∥ CanBeLinked (set_in self.now) ∥₁ }
    {
        &self.components
    }

    /// The components with what is chosen for their imports, and the candidates of those.
    fn linking(&self) -> Linking<'_, 'a>
        ensures components { linking.components_in result ≡ components_in self.now }
        ensures set { linking.set_in result ≡ set_in self.now }
    {
        Linking::new(&self.components, &self.choices, &self.candidates)
    }

    /// The lifted function that an imported function comes to, through every component that exports
    /// it again. `component` is the place of the importing component in the set and `import` the
    /// number of the import; `item` is the number of an item of an imported instance, and None for
    /// a function that is an import of its own, all from 0. None is the answer where there is no
    /// such function. The type of the lift is the one at its place: no import moved its resources.
    /// At most 15 links are followed, and no memory is taken.
    pub fn target(&self, component: u32, import: usize, item: Option<usize>) -> Option<Target<'a>>
        ensures target { option_map (target_def (components_in self.now)) result
            ≡ targets_of (set_in self.now).spaces (links_of (set_in self.now))
            component import item }
        ensures there { IfSome result (λ t.
            is_there (length (funcs_at (components_in self.now) t.component)) t.ty ≡ true) }
        ensures unmoved { IfSome result (λ t. t.ty.by ≡ None) }
    {
        let count = component as usize + 1;
        target_within(&self.linking(), count, component, import, item)
    }

    /// What the resource of a number of a component is in the end, re-exports followed: the
    /// component that defines it, and its number there; None where there is no such resource. At
    /// most 15 links are followed, and no memory is taken.
    pub fn resource(&self, component: u32, number: u64) -> Option<ResourceId>
        ensures { result ≡ origin_of (set_in self.now).spaces (links_of (set_in self.now))
            (resource_of component number) }
    {
        self.linking().origin(ResourceId { component, number })
    }
}
