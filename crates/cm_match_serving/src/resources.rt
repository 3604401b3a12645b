//! What resources are in the end.

ghost use Rattle.std.specs.Prelude.{◌≡◌, List};
ghost use Rattle.cm_types.specs.Types.{FuncTy, Ty};
ghost use Rattle.cm_match_model.specs.Origins.{resource_member};
ghost use Rattle.cm_validate_spaces.specs.cm_validate_entries.Entries.{member_def};

use crate::components::{Components, Source};
use crate::linking::Linking;
use crate::origins::origin;
use cm_match_model::Link;
use cm_match_model::laws::links_lead_earlier;
use cm_match_model::origin_laws::origins_are_unique;
use cm_types::ResourceId;
use cm_validate_spaces::{MemberEntry, Resource};

/// The number of the resource that a member is, if it is one.
fn resource_member(member: MemberEntry<'_>) -> Option<u64>
    ensures { (types : List Ty) (funcs : List FuncTy)
        → result ≡ resource_member (member_def types funcs member.entry) }
{
    match member {
        MemberEntry::Resource(number) => Some(number),
        MemberEntry::Func(_) => None,
        MemberEntry::Value(_) => None,
    }
}

impl<'s, 'a> Components for Linking<'s, 'a> {
    ghost use Rattle.cm_match_serving.specs.Linkings.{told_of};

    ghost told = { told_of };

    fn source(&self, resource: ResourceId) -> Option<Source<'_>> {
        let component = resource.component as usize;
        match self.components().get(component)?.resource(resource.number)? {
            Resource::Defined { .. } => Some(Source::Defined),
            Resource::Brought { import, item } => match self.item_name(component, import, item) {
                Some(name) => Some(Source::Brought { import, name }),
                None => Some(Source::Defined),
            },
        }
    }

    fn link(&self, component: u32, import: usize) -> Option<Link> {
        self.link(component, import)
    }

    fn member(&self, export: Link, name: &str) -> Option<u64> {
        resource_member(self.member(export.component as usize, export.export, name)?)
    }
}

impl<'s, 'a> Linking<'s, 'a> {
    ghost use Rattle.cm_match_model.specs.Origins.{origin_of};
    ghost use Rattle.cm_match_model.specs.Imports.{links_of};
    ghost use Rattle.cm_match_serving.specs.Linkings.{set_in};

    /// What a resource of the set is in the end: itself where its component defines it, or where an
    /// import brings it that is linked to nothing; else what the resource is that the linked export
    /// has under its name; None where there is no such resource. At most 15 links are followed, and
    /// no memory is taken.
    pub fn origin(&self, resource: ResourceId) -> Option<ResourceId>
        ensures { result ≡ origin_of (set_in self.now).spaces (links_of (set_in self.now))
            resource }
    {
        links_lead_earlier();
        origins_are_unique();
        origin(self, resource)
    }
}
