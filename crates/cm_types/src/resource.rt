//! The identity of a resource type.

ghost use Rattle.std.specs.Prelude.{◌≡◌, ◌↔◌, IsTrue};
ghost use Rattle.cm_types.specs.Resources.{resolve, same_resource};

/// A resource type: the one with this number of this component of a set.
///
/// `component` is the place of the defining component in the set, from 0; in a component on its own
/// it is 0. `number` counts the component's resources from 0.
#[derive(Clone, Copy, Debug, PartialEq, Eq)]
pub struct ResourceId {
    pub component: u32,
    pub number: u64,
}

/// Whether two are the same resource.
pub fn same_resource(a: ResourceId, b: ResourceId) -> bool
    ensures test { result ≡ same_resource a b }
    ensures same { IsTrue result ↔ (a ≡ b) }
{
    a.component == b.component && a.number == b.number
}

/// What stands for a resource: the member of the list at its number, or itself where the list ends
/// before.
pub fn resolve(resources: &[ResourceId], id: ResourceId) -> ResourceId
    ensures { result ≡ resolve resources.now id }
{
    match resources.get(id.number as usize) {
        Some(found) => *found,
        None => id,
    }
}
