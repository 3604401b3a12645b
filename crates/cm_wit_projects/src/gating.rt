//! Which gates may stand, and what they let through.

ghost use Rattle.std.specs.Prelude.{◌≡◌, ◌&&◌, IfOk, Some, map};
ghost use Rattle.std.specs.List.{list_any};
ghost use Rattle.std.specs.Str.{bytes_eq};
ghost use Rattle.std.specs.Result.{result_ok};
ghost use Rattle.semver.specs.Identifiers.{parts_of};
ghost use Rattle.semver.specs.Parse.{version_parts};
ghost use Rattle.cm_wit_projects_reading.specs.Views.{gate_tree, placed_gate_tree};
ghost use Rattle.cm_wit_projects.specs.Faults.{first};
ghost use Rattle.cm_wit_projects.specs.Gates.{bad_gates, is_deprecated, is_from, is_open};
ghost use Rattle.cm_wit_projects.specs.Gates.{is_origin, is_reached, is_there};
ghost use Rattle.cm_wit_projects.specs.GateViews.{and_gate, features_of, lets_stand, version_view};

use cm_wit_projects_reading::{Gate, PlacedGate};
use semver::Version;
use std::alloc::{AllocError, Global};
use std::cmp::Ordering;

/// Whether a feature is wanted.
#[tactic(auto, using(crate::proofs::SeekLaws::seek_laws))]
fn is_wanted(features: &[&str], name: &str) -> bool
    ensures { result ≡ list_any (bytes_eq name.now) (features_of features.now) }
{
    for feature in features {
        if name == *feature {
            return true;
        }
    }
    false
}

/// Whether a gate lets through what stands behind it, where these features are wanted.
fn is_open(gate: &Gate, features: &[&str]) -> bool
    ensures { result ≡ is_open (features_of features.now) (gate_tree gate.now) }
{
    match gate {
        Gate::Unstable(feature) => is_wanted(features, feature.as_str()),
        Gate::Since(_) | Gate::Deprecated(_) => true,
    }
}

/// Whether what stands behind gates is there, where these features are wanted.
#[tactic(auto, using(crate::proofs::SeekLaws::hold_laws))]
pub fn is_there(gates: &[PlacedGate], features: &[&str]) -> bool
    ensures { result ≡ is_there (features_of features.now) (map placed_gate_tree gates.now) }
{
    for placed in gates {
        if !is_open(&placed.gate, features) {
            return false;
        }
    }
    true
}

fn is_deprecated(gate: &Gate) -> bool
    ensures { result ≡ is_deprecated (gate_tree gate.now) }
{
    match gate {
        Gate::Since(_) | Gate::Unstable(_) => false,
        Gate::Deprecated(_) => true,
    }
}

/// Reads a text that is a version. `AllocError` comes where there is no memory for it.
fn read_version(alloc: Global, text: &str) -> Result<Version, AllocError>
    ensures { IfOk result (λ v. result_ok (version_parts text.now) ≡ Some (parts_of v)) }
{
    Version::parse(alloc, text).map_err(|_| AllocError)
}

/// Whether a version is there, and not below the text of another. Refused only where there is no
/// memory.
fn is_from(alloc: Global, version: &Option<Version>, text: &str) -> Result<bool, AllocError>
    ensures { IfOk result (λ b. b ≡ is_from (version_view version.now) text.now) }
{
    match version {
        Some(version) => {
            let least = read_version(alloc, text)?;
            Ok(version.cmp_precedence(&least) != Ordering::Less)
        }
        None => Ok(false),
    }
}

/// Whether the version of a package reaches that of `@since`. Refused only where there is no
/// memory.
fn is_reached(alloc: Global, version: &Option<Version>, gate: &Gate) -> Result<bool, AllocError>
    ensures { IfOk result (λ b. b ≡ is_reached (version_view version.now) (gate_tree gate.now)) }
{
    match gate {
        Gate::Since(since) => is_from(alloc, version, since.as_str()),
        Gate::Unstable(_) | Gate::Deprecated(_) => Ok(true),
    }
}

/// Which kinds of gates stand before one, and whether one of all the thing's gates is an origin.
#[derive(Clone, Copy)]
pub struct Before {
    pub has_origin: bool,
    pub origin: bool,
    pub deprecated: bool,
}

impl Before {
    /// Whether a gate of this kind may stand behind these.
    fn lets_stand(self, gate: &Gate) -> bool
        ensures { result ≡ lets_stand self (gate_tree gate.now) }
    {
        if is_deprecated(gate) {
            !self.deprecated && self.has_origin
        } else {
            !self.origin
        }
    }

    /// The kinds with that of one more gate.
    fn and(self, gate: &Gate) -> Before
        ensures { result ≡ and_gate self (gate_tree gate.now) }
    {
        let deprecated = is_deprecated(gate);
        Before {
            has_origin: self.has_origin,
            origin: self.origin || !deprecated,
            deprecated: self.deprecated || deprecated,
        }
    }
}

/// Whether a gate may stand behind these, in a package that has this version, if it has one.
/// Refused only where there is no memory.
fn may_stand(
    alloc: Global,
    version: &Option<Version>,
    before: Before,
    gate: &Gate,
) -> Result<bool, AllocError>
    ensures { IfOk result (λ b. b ≡ (lets_stand before (gate_tree gate.now)
        && is_reached (version_view version.now) (gate_tree gate.now))) }
{
    if before.lets_stand(gate) {
        is_reached(alloc, version, gate)
    } else {
        Ok(false)
    }
}

/// Whether a gate says how a thing came to be there.
fn is_origin(gate: &Gate) -> bool
    ensures { result ≡ is_origin (gate_tree gate.now) }
{
    !is_deprecated(gate)
}

/// Whether one of a thing's gates is an origin.
#[tactic(auto, using(crate::proofs::SeekLaws::seek_laws))]
fn has_origin(gates: &[PlacedGate]) -> bool
    ensures { result ≡ list_any (λ g. is_origin g.1) (map placed_gate_tree gates.now) }
{
    for placed in gates {
        if is_origin(&placed.gate) {
            return true;
        }
    }
    false
}

/// The first gate of a thing that may not stand there, by how many bytes of the text are left from
/// it on, in a package that has this version, if it has one. Refused only where there is no memory.
#[tactic(auto, using(crate::proofs::GatingLaws::bad_laws))]
pub fn first_bad_gate(
    alloc: Global,
    version: &Option<Version>,
    gates: &[PlacedGate],
) -> Result<Option<usize>, AllocError>
    ensures { IfOk result (λ left. left
        ≡ first (bad_gates (version_view version.now) (map placed_gate_tree gates.now))) }
{
    let mut before = Before {
        has_origin: has_origin(gates),
        origin: false,
        deprecated: false,
    };
    for placed in gates {
        if !may_stand(alloc, version, before, &placed.gate)? {
            return Ok(Some(placed.left));
        }
        before = before.and(&placed.gate);
    }
    Ok(None)
}
