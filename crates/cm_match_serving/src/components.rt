//! What is asked of the components of a linked set.

ghost use Rattle.std.specs.Prelude.{◌≡◌, is_some};
ghost use Rattle.cm_match_serving.specs.ToldSets.{served_at};

use cm_match_model::Link;
use cm_types::ResourceId;

/// Where a resource of a component comes from.
#[derive(Clone, Copy)]
pub enum Source<'a> {
    /// The component defines it.
    Defined,
    /// An import, by its number from 0, brings it under this name.
    Brought { import: usize, name: &'a str },
}

/// The components of a set, as far as their resources go: where each comes from, what imports are
/// linked to, and which resources exports have. They are asked, so that nothing is written out that
/// an import or an export has by its type.
pub trait Components {
    ghost use Rattle.std.specs.Prelude.{◌≡◌};
    ghost use Rattle.std.specs.Option.{option_map};
    ghost use Rattle.cm_match_serving.specs.Components.{Told, source_view};

    ghost told: { Self → Told };

    /// Where a resource comes from, if there is one.
    fn source(&self, resource: ResourceId) -> Option<Source<'_>>
        ensures { option_map source_view result ≡ (told self.now).source resource };

    /// What an import of a component is linked to, by its number.
    fn link(&self, component: u32, import: usize) -> Option<Link>
        ensures { result ≡ (told self.now).link component import };

    /// The number of the resource that an export has under a name, in the export's component.
    fn member(&self, export: Link, name: &str) -> Option<u64>
        ensures { result ≡ (told self.now).member export name.now };
}

/// Whether there is such a resource.
pub(crate) fn exists<C: Components>(components: &C, resource: ResourceId) -> bool
    ensures { result ≡ is_some ((C.told components.now).source resource) }
{
    components.source(resource).is_some()
}

/// The resource that serves another, if an import brings that one and is linked to an export that
/// has a resource under its name.
pub(crate) fn served<C: Components>(components: &C, resource: ResourceId) -> Option<ResourceId>
    ensures { result ≡ served_at (C.told components.now) resource }
{
    let Source::Brought { import, name } = components.source(resource)? else {
        return None;
    };
    let link = components.link(resource.component, import)?;
    let number = components.member(link, name)?;
    Some(ResourceId {
        component: link.component,
        number,
    })
}
