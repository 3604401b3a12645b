//! The numbers of fronts.

ghost use Rattle.std.specs.Prelude.{◌≡◌, IfOk, map};
ghost use Rattle.cm_names.specs.Keys.{key_view};
ghost use Rattle.cm_names.specs.Listed.{listed};
ghost use Rattle.cm_wit_conforms.specs.PartViews.{front_view};

use crate::parts::FrontParts;
use cm_names::Keys;
use std::alloc::{AllocError, Global};

/// Tables in which the number of a front is found, text by text.
#[derive(Drop)]
pub(crate) struct Fronts<'a> {
    firsts: Keys<'a>,
    seconds: Keys<'a>,
    versions: Keys<'a>,
}

ghost use Rattle.cm_wit_conforms.specs.Numbers.{first_number, first_of, second_number, second_of};
ghost use Rattle.cm_wit_conforms.specs.Numbers.{version_of};

/// The number of the form and the first text of a front.
fn first_number(firsts: &Keys<'_>, front: FrontParts<'_>) -> Option<usize>
    ensures { result ≡ first_number (listed firsts.now) (front_view front.entry) }
{
    firsts.find(front.form, front.first)
}

/// The number of these and of the second text.
fn second_number(firsts: &Keys<'_>, seconds: &Keys<'_>, front: FrontParts<'_>) -> Option<usize>
    ensures { result
        ≡ second_number (listed firsts.now) (listed seconds.now) (front_view front.entry) }
{
    match first_number(firsts, front) {
        Some(number) => seconds.find(number, front.second),
        None => None,
    }
}

/// What the first texts of fronts are found by.
#[tactic(auto, using(crate::proofs::MapLaws::map_laws))]
fn first_keys<'a>(
    alloc: Global,
    fronts: &[FrontParts<'a>],
) -> Result<Vec<(usize, &'a str)>, AllocError>
    ensures { IfOk result (λ v.
        map key_view v.items ≡ map (λ f. first_of (front_view f)) fronts.now) }
{
    let mut keys = Vec::with_capacity(alloc, fronts.len())?;
    for front in fronts {
        keys.push((front.form, front.first))?;
    }
    Ok(keys)
}

/// What the second text of a front is found by.
fn second_key<'a>(firsts: &Keys<'_>, front: FrontParts<'a>) -> (usize, &'a str)
    ensures { key_view result ≡ second_of (listed firsts.now) (front_view front.entry) }
{
    (first_number(firsts, front).unwrap_or(0), front.second)
}

/// What the second texts of fronts are found by.
#[tactic(auto, using(crate::proofs::MapLaws::map_laws))]
fn second_keys<'a>(
    alloc: Global,
    firsts: &Keys<'_>,
    fronts: &[FrontParts<'a>],
) -> Result<Vec<(usize, &'a str)>, AllocError>
    ensures { IfOk result (λ v. map key_view v.items
        ≡ map (λ f. second_of (listed firsts.now) (front_view f)) fronts.now) }
{
    let mut keys = Vec::with_capacity(alloc, fronts.len())?;
    for front in fronts {
        keys.push(second_key(firsts, *front))?;
    }
    Ok(keys)
}

/// What the version of a front is found by.
fn version_key<'a>(firsts: &Keys<'_>, seconds: &Keys<'_>, front: FrontParts<'a>) -> (usize, &'a str)
    ensures { key_view result
        ≡ version_of (listed firsts.now) (listed seconds.now) (front_view front.entry) }
{
    (
        second_number(firsts, seconds, front).unwrap_or(0),
        front.version,
    )
}

/// What the versions of fronts are found by.
#[tactic(auto, using(crate::proofs::MapLaws::map_laws))]
fn version_keys<'a>(
    alloc: Global,
    firsts: &Keys<'_>,
    seconds: &Keys<'_>,
    fronts: &[FrontParts<'a>],
) -> Result<Vec<(usize, &'a str)>, AllocError>
    ensures { IfOk result (λ v. map key_view v.items
        ≡ map (λ f. version_of (listed firsts.now) (listed seconds.now) (front_view f))
        fronts.now) }
{
    let mut keys = Vec::with_capacity(alloc, fronts.len())?;
    for front in fronts {
        keys.push(version_key(firsts, seconds, *front))?;
    }
    Ok(keys)
}

impl<'a> Fronts<'a> {
    ghost use Rattle.cm_wit_conforms.specs.Numbers.{HasFronts, front_number};

    /// Tables of these fronts. Refused only where there is no memory.
    pub(crate) fn new(alloc: Global, fronts: &[FrontParts<'a>]) -> Result<Fronts<'a>, AllocError>
        ensures { IfOk result (HasFronts fronts.now) }
    {
        let firsts = Keys::new(alloc, first_keys(alloc, fronts)?)?;
        let seconds = Keys::new(alloc, second_keys(alloc, &firsts, fronts)?)?;
        let versions = Keys::new(alloc, version_keys(alloc, &firsts, &seconds, fronts)?)?;
        Ok(Fronts {
            firsts,
            seconds,
            versions,
        })
    }

    /// The number of a front, if it is one of those of the tables.
    pub(crate) fn number(&self, front: FrontParts<'_>) -> Option<usize>
        ensures { result ≡ front_number self.now (front_view front.entry) }
    {
        match second_number(&self.firsts, &self.seconds, front) {
            Some(number) => self.versions.find(number, front.version),
            None => None,
        }
    }
}
