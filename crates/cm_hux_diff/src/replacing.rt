//! What a new signature in place of an old one breaks.

ghost use Rattle.std.specs.Prelude.{◌≡◌, IfOk, map};
ghost use Rattle.cm_types_arena.specs.Signatures.{exports_in, imports_in, signature_of};
ghost use Rattle.cm_hux_diff.specs.Breaking.{AreBreaks, IsBroken, breaks, marked};
ghost use Rattle.cm_hux_diff.specs.Breaking.{offered_to_users, wanted_by_users, wanted_of_hosts};
ghost use Rattle.cm_hux_diff.specs.Held.{host_entries, used_face, user_entries};
ghost use Rattle.cm_hux_diff.specs.Facing.{names};
ghost use Rattle.cm_hux_diff.specs.Views.{IsAtHost};

use crate::bound::{Bound, Side};
use crate::breaking::Break;
use crate::facing::Face;
use crate::held::Entry;
use crate::judging::breaks_of;
use crate::links::{Links, host_faces};
use crate::walk::entries_of;
use cm_types_arena::Signature;
use std::alloc::{AllocError, Global};

/// What a new signature in place of an old one breaks, for whom, and what faces what.
#[derive(Drop)]
pub struct Broken {
    /// What of a host's exports, the imports of the old one, faces each import of the new one.
    pub imports: Vec<Face>,
    /// What of the exports of the new one faces each export of the old one.
    pub exports: Vec<Face>,
    /// What hosts of the old one do not serve, in the order of the imports of the new one.
    pub hosts: Vec<Break>,
    /// What users of the old one do not find served, in the order of its exports.
    pub users: Vec<Break>,
    /// The places of the imports of the old one that the new one exports and the old one does not:
    /// who imports them from a host of both finds two.
    pub hosted: Vec<usize>,
    /// Which exports of the new one fit the name of one of the old one's, of several the greatest,
    /// or the reverse: others may clash with components that export them.
    pub met: Vec<bool>,
}

impl Broken {
    /// Whether something breaks for users or for hosts.
    pub fn breaks(&self) -> bool
        ensures { result ≡ breaks self.now }
    {
        !self.hosts.is_empty() || !self.users.is_empty() || !self.hosted.is_empty()
    }
}

/// What a signature imports, held against the imports of the old one, which a host serves.
#[derive(Drop)]
struct AtHost {
    faces: Vec<Face>,
    entries: Vec<Entry>,
    bound: Bound,
}

fn at_host(alloc: Global, served: &Signature, of: &Signature) -> Result<AtHost, AllocError>
    ensures { IfOk result (IsAtHost (imports_in served.now) (imports_in of.now) of.now.types
        served.now.types) }
{
    let offered = served.imports();
    let wanted = of.imports();
    let faces = host_faces(alloc, served, of)?;
    let entries = entries_of(alloc, wanted, offered, &faces)?;
    let none = Bound::new(alloc);
    let host = Side {
        types: served.types(),
        bound: &none,
        mark: 0,
    };
    let mut bound = Bound::new(alloc);
    bound.note_all(&host, &entries)?;
    Ok(AtHost {
        faces,
        entries,
        bound,
    })
}

/// What hosts of the old one do not serve.
fn hosts_broken(
    alloc: Global,
    old: &Signature,
    new: &Signature,
    hosts: &AtHost,
) -> Result<Vec<Break>, AllocError>
    requires { IsAtHost (imports_in old.now) (imports_in new.now) new.now.types old.now.types
        hosts.now }
    ensures { IfOk result (λ breaks. AreBreaks
        (wanted_of_hosts (signature_of old.now) (signature_of new.now)) (marked 0)
        (host_entries (imports_in old.now) (imports_in new.now)) breaks.items) }
{
    let none = Bound::new(alloc);
    let wanted = Side {
        types: new.types(),
        bound: &hosts.bound,
        mark: 2,
    };
    let offered = Side {
        types: old.types(),
        bound: &none,
        mark: 0,
    };
    breaks_of(alloc, &wanted, &offered, &hosts.entries)
}

/// What users of the old one do not find served, given what stands for the imported resources of
/// both, and what faces the exports.
fn users_broken(
    alloc: Global,
    old: &Signature,
    new: &Signature,
    hosts: &AtHost,
    given: AtHost,
    faces: &[Face],
) -> Result<Vec<Break>, AllocError>
    requires hosts { IsAtHost (imports_in old.now) (imports_in new.now) new.now.types
        old.now.types hosts.now }
    requires given { IsAtHost (imports_in old.now) (imports_in old.now) old.now.types
        old.now.types given }
    requires faces { faces.now ≡ map (used_face (signature_of old.now) (signature_of new.now))
        (names (exports_in old.now)) }
    ensures { IfOk result (λ breaks. AreBreaks
        (wanted_by_users (signature_of old.now) (signature_of new.now))
        (offered_to_users (signature_of old.now) (signature_of new.now))
        (user_entries (signature_of old.now) (signature_of new.now)) breaks.items) }
{
    let wants = old.exports();
    let offers = new.exports();
    let entries = entries_of(alloc, wants, offers, faces)?;
    let offered = Side {
        types: new.types(),
        bound: &hosts.bound,
        mark: 1,
    };
    let mut bound = given.bound;
    bound.note_all(&offered, &entries)?;
    let wanted = Side {
        types: old.types(),
        bound: &bound,
        mark: 2,
    };
    breaks_of(alloc, &wanted, &offered, &entries)
}

/// What a new signature in place of an old one breaks (how components are linked is this project's
/// own choice): for users, who import what the old one exports, and may import from its host too,
/// and for hosts, which export what the old one imports. All that does not serve, each at the place
/// of what is wanted, in order.
///
/// Items are found by their names; more may be offered. Types are equal once what stands for each
/// resource is put in its place: for a resource that is wanted what the first item that is it is
/// offered, and two may be offered one.
///
/// `AllocError` comes where there is no memory. It costs time linear in the items of both, with a
/// search for each name and resource, and in the types of both, each once for each way in which
/// imports and exports move its resources.
pub fn replaces(alloc: Global, old: &Signature, new: &Signature) -> Result<Broken, AllocError>
    ensures { IfOk result (IsBroken (signature_of old.now) (signature_of new.now)) }
{
    let links = Links::new(alloc, old, new)?;
    let exports = links.user_faces(alloc)?;
    let hosted = links.hosted(alloc)?;
    let met = links.met(alloc)?;
    let at_new = at_host(alloc, old, new)?;
    let at_old = at_host(alloc, old, old)?;
    let hosts = hosts_broken(alloc, old, new, &at_new)?;
    let users = users_broken(alloc, old, new, &at_new, at_old, &exports)?;
    Ok(Broken {
        imports: at_new.faces,
        exports,
        hosts,
        users,
        hosted,
        met,
    })
}
