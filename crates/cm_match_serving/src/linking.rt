//! Components with the candidates of each of their imports.

ghost use Rattle.std.specs.Prelude.{◌≡◌, ◌≤◌, length};
ghost use Rattle.cm_match_model.specs.declared.plan.TheConstants.{MAX_COMPONENTS};
ghost use Rattle.cm_match_serving.specs.Candidates.{AreCandidates};
ghost use Rattle.cm_match_serving.specs.Sets.{set_by};

use cm_match_model::laws::links_lead_earlier;
use cm_match_model::{Candidate, Choices, Link};
use cm_types_arena::{Extern, ExternDesc};
use cm_validate_spaces::{Checked, ExportEntry, ExportedEntry, MemberEntry};

/// The components of a set, at most `MAX_COMPONENTS`, with what is chosen for their imports, and
/// the candidates of each import.
#[derive(Clone, Copy)]
pub struct Linking<'s, 'a> {
    components: &'s [Checked<'a>],
    choices: &'s Choices,
    candidates: &'s [Vec<Candidate>],
    ghost found: { AreCandidates (set_by components.now choices.now) candidates.now },
    ghost few: { length components.now ≤ MAX_COMPONENTS },
}

impl<'s, 'a> Linking<'s, 'a> {
    ghost use Rattle.std.specs.Option.{option_and_then, option_map};
    ghost use Rattle.std.specs.Prelude.{slice_get};
    ghost use Rattle.cm_match_model.specs.Fitting.{only};
    ghost use Rattle.cm_types_arena.specs.Externs.{extern_of};
    ghost use Rattle.cm_validate_model.specs.Spaces.{member_named};
    ghost use Rattle.cm_validate_spaces.specs.cm_validate_entries.ComponentSpaces.{export_def};
    ghost use Rattle.cm_validate_spaces.specs.cm_validate_entries.Entries.{member_def};
    ghost use Rattle.cm_match_model.specs.Imports.{candidates, export_in, import_in, links_of};
    ghost use Rattle.cm_match_model.specs.Origins.{item_name, members_of};
    ghost use Rattle.cm_match_serving.specs.Linkings.{components_in, set_in};
    ghost use Rattle.cm_match_serving.specs.Sets.{funcs_at, types_at};

    /// These components, with what is chosen for their imports, and the candidates of those.
    pub fn new(
        components: &'s [Checked<'a>],
        choices: &'s Choices,
        candidates: &'s [Vec<Candidate>],
    ) -> Linking<'s, 'a>
        requires found { AreCandidates (set_by components.now choices.now) candidates.now }
        requires few { length components.now ≤ MAX_COMPONENTS }
        ensures components { components_in result ≡ components.now }
        ensures set { set_in result ≡ set_by components.now choices.now }
    {
        Linking {
            components,
            choices,
            candidates,
        }
    }

    /// The components, in order.
    pub fn components(&self) -> &'s [Checked<'a>]
        ensures components { result.now ≡ components_in self.now }
        ensures few { length result.now ≤ MAX_COMPONENTS }
    {
        self.components
    }

    /// The candidates of the import of a number of a component, if there is one.
    pub fn candidate(&self, component: usize, import: usize) -> Option<Candidate>
        ensures { result
            ≡ option_map (λ x. only (candidates (set_in self.now) component import x))
            (import_in (set_in self.now).spaces component import) }
    {
        self.candidates.get(component)?.get(import).copied()
    }

    /// The export that an import is linked to by its name: its only candidate.
    pub fn link(&self, component: u32, import: usize) -> Option<Link>
        ensures { result ≡ links_of (set_in self.now) component import }
    {
        links_lead_earlier();
        match self.candidate(component as usize, import)? {
            Candidate::One { component, export } => Some(Link {
                component: component as u32,
                export,
            }),
            Candidate::None => None,
            Candidate::Several => None,
        }
    }

    /// The import of a number of a component, if there is one.
    pub fn import(&self, component: usize, import: usize) -> Option<&'s Extern>
        ensures { option_map (λ i. extern_of (types_at (components_in self.now) component)
            (funcs_at (components_in self.now) component) i.now) result
            ≡ import_in (set_in self.now).spaces component import }
    {
        self.components.get(component)?.imports().get(import)
    }

    /// The export of a number of a component, if there is one.
    pub fn export(&self, component: usize, export: usize) -> Option<&'s ExportEntry<'a>>
        ensures { option_map (λ e. (export_def (types_at (components_in self.now) component)
            (funcs_at (components_in self.now) component) e.now).def) result
            ≡ export_in (set_in self.now).spaces component export }
    {
        self.components.get(component)?.exports().get(export)
    }

    /// The name of an item of an import, if the import is an instance and has that item.
    pub fn item_name(&self, component: usize, import: usize, item: usize) -> Option<&'s str>
        ensures { option_map (λ n. n.now) result ≡ option_and_then (λ s. item_name s import item)
            (slice_get (set_in self.now).spaces component) }
    {
        match &self.import(component, import)?.desc {
            ExternDesc::Func(_) => None,
            ExternDesc::Instance { ty, .. } => Some(ty.items.get(item)?.name.as_str()),
        }
    }

    /// What an export has under a name, if it is an instance and has that name.
    pub fn member(&self, component: usize, export: usize, name: &str) -> Option<MemberEntry<'a>>
        ensures { option_map (member_def (types_at (components_in self.now) component)
            (funcs_at (components_in self.now) component)) result
            ≡ option_and_then (λ e. member_named (members_of e) name.now)
            (export_in (set_in self.now).spaces component export) }
    {
        match &self.export(component, export)?.def {
            ExportedEntry::Func(_) => None,
            ExportedEntry::Instance(instance) => instance.member(name),
        }
    }
}
