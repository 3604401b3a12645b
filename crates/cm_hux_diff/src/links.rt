//! Which imports and exports of two signatures face each other.

ghost use Rattle.std.specs.Prelude.{◌≡◌, ◌++◌, ◌||◌, IfOk, None, OnOk, map, slice_index_or, ℕ};
ghost use Rattle.std.specs.BTreeSet.{contains};
ghost use Rattle.std.specs.Ordering.{nat_cmp};
ghost use Rattle.cm_types_arena.specs.Signatures.{imports_in, signature_of};
ghost use Rattle.cm_wit_conforms.specs.Places.{place_in};
ghost use Rattle.cm_hux_diff.specs.Facing.{host_face, hosted_at, hosted_from, is_at, is_hosted};
ghost use Rattle.cm_hux_diff.specs.Facing.{is_left_out, is_met, met_from, names};
ghost use Rattle.cm_hux_diff.specs.Views.{IsFaced, LinksOf, faces_in};

use crate::facing::Face;
use crate::names::names_of;
use crate::offers::{Offers, face_of};
use cm_match_model::Candidate;
use cm_types::ExternName;
use cm_types_arena::Signature;
use cm_wit_conforms::extern_places;
use std::alloc::{AllocError, Global};
use std::collections::BTreeSet;

/// The place that was found for the name at a place.
fn place_at(places: &[Option<usize>], place: usize) -> Option<usize>
    ensures { result ≡ slice_index_or places.now place None }
{
    match places.get(place) {
        Some(found) => *found,
        None => None,
    }
}

/// What faces each of these imports, at the place of the one that has its name, if one has.
#[tactic(auto, using(cm_wit_conforms::proofs::MapLaws::plain_laws))]
fn faces_of(
    alloc: Global,
    offers: &Offers,
    wanted: &[ExternName],
    places: &[Option<usize>],
) -> Result<Vec<Face>, AllocError>
    requires { places.now ≡ map (place_in offers.now.names.items) wanted.now }
    ensures { IfOk result (λ v. v.items ≡ map (host_face offers.now.names.items) wanted.now) }
{
    let mut faces = Vec::with_capacity(alloc, wanted.len())?;
    for (place, name) in wanted.iter().enumerate() {
        faces.push(offers.host_face(alloc, name, place_at(places, place))?)?;
    }
    Ok(faces)
}

/// What of a host's exports, which are the imports of the old one, faces each import. Refused only
/// where there is no memory.
pub(crate) fn host_faces(
    alloc: Global,
    old: &Signature,
    of: &Signature,
) -> Result<Vec<Face>, AllocError>
    ensures { IfOk result (λ v. v.items
        ≡ map (host_face (names (imports_in old.now))) (names (imports_in of.now))) }
{
    let served = old.imports();
    let imports = of.imports();
    let offers = Offers::new(alloc, served)?;
    let wanted = names_of(alloc, imports)?;
    let places = extern_places(alloc, imports, served)?;
    faces_of(alloc, &offers, &wanted, &places)
}

/// Adds the place of what faces something, if it is one.
fn add_faced(places: &mut BTreeSet<usize>, face: Face) -> Result<(), AllocError>
    ensures { OnOk result ((n : ℕ) → contains nat_cmp places.new n
        ≡ (is_at n face || contains nat_cmp places.old n)) }
{
    match face {
        Face::One(place) => {
            places.insert(place)?;
            Ok(())
        }
        Face::LeftOut => Ok(()),
        Face::Nothing => Ok(()),
        Face::Several => Ok(()),
    }
}

/// What users look for the exports of the old one in.
#[derive(Drop)]
pub(crate) struct Links {
    imports: Offers,
    exports: Offers,
    offers: Offers,
}

impl Links {
    /// Refused only where there is no memory.
    pub(crate) fn new(alloc: Global, old: &Signature, new: &Signature) -> Result<Links, AllocError>
        ensures { IfOk result (LinksOf (signature_of old.now) (signature_of new.now)) }
    {
        let imports = Offers::new(alloc, old.imports())?;
        let exports = Offers::new(alloc, old.exports())?;
        let offers = Offers::new(alloc, new.exports())?;
        Ok(Links {
            imports,
            exports,
            offers,
        })
    }

    /// Whether nobody can import an export of the old one by its name.
    fn is_left_out(&self, alloc: Global, name: &ExternName) -> Result<bool, AllocError>
        ensures { IfOk result (λ b. b ≡ is_left_out self.now.imports.names.items
            self.now.exports.names.items name.now) }
    {
        match self.exports.found(alloc, name)? {
            Candidate::Several => return Ok(true),
            Candidate::None => {}
            Candidate::One { .. } => {}
        }
        match self.imports.found(alloc, name)? {
            Candidate::None => Ok(false),
            Candidate::One { .. } => Ok(true),
            Candidate::Several => Ok(true),
        }
    }

    /// What faces an export of the old one.
    fn user_face(&self, alloc: Global, name: &ExternName) -> Result<Face, AllocError>
        ensures { IfOk result (λ f. f ≡ faces_in self.now name.now) }
    {
        if self.is_left_out(alloc, name)? {
            return Ok(Face::LeftOut);
        }
        Ok(face_of(self.offers.found(alloc, name)?))
    }

    /// What faces each export of the old one. Refused only where there is no memory.
    #[tactic(auto, using(cm_wit_conforms::proofs::MapLaws::plain_laws))]
    pub(crate) fn user_faces(&self, alloc: Global) -> Result<Vec<Face>, AllocError>
        ensures { IfOk result (λ v. v.items
            ≡ map (faces_in self.now) self.now.exports.names.items) }
    {
        let mut faces = Vec::with_capacity(alloc, self.exports.names.len())?;
        for name in &self.exports.names {
            faces.push(self.user_face(alloc, name)?)?;
        }
        Ok(faces)
    }

    /// Whether an import of the old one is exported by the new one, and not by the old one.
    fn is_hosted(&self, alloc: Global, name: &ExternName) -> Result<bool, AllocError>
        ensures { IfOk result (λ b. b ≡ is_hosted self.now.exports.names.items
            self.now.offers.names.items name.now) }
    {
        match self.offers.found(alloc, name)? {
            Candidate::None => return Ok(false),
            Candidate::One { .. } => {}
            Candidate::Several => {}
        }
        match self.exports.found(alloc, name)? {
            Candidate::None => Ok(true),
            Candidate::One { .. } => Ok(false),
            Candidate::Several => Ok(false),
        }
    }

    /// Adds the place of an import of the old one, if it is exported by the new one alone.
    fn add_hosted(
        &self,
        alloc: Global,
        places: &mut Vec<usize>,
        place: usize,
        name: &ExternName,
    ) -> Result<(), AllocError>
        ensures { OnOk result (places.new.items ≡ places.old.items
            ++ hosted_at self.now.exports.names.items self.now.offers.names.items place
            name.now) }
    {
        if !self.is_hosted(alloc, name)? {
            return Ok(());
        }
        places.push(place)?;
        Ok(())
    }

    /// The places of the imports of the old one that the new one exports, and the old one does not.
    /// Refused only where there is no memory.
    #[tactic(auto, using(crate::proofs::Faces::hosted_laws))]
    pub(crate) fn hosted(&self, alloc: Global) -> Result<Vec<usize>, AllocError>
        ensures { IfOk result (λ v. v.items ≡ hosted_from self.now.exports.names.items
            self.now.offers.names.items 0 self.now.imports.names.items) }
    {
        let mut places = Vec::new(alloc);
        for (place, name) in self.imports.names.iter().enumerate() {
            self.add_hosted(alloc, &mut places, place, name)?;
        }
        Ok(places)
    }

    /// The places of the exports of the new one that fit the name of one of the old one's, of
    /// several the greatest.
    fn faced(&self, alloc: Global) -> Result<BTreeSet<usize>, AllocError>
        ensures { IfOk result (IsFaced self.now) }
    {
        let mut places = BTreeSet::new(alloc);
        for name in &self.exports.names {
            add_faced(&mut places, self.offers.best_face(alloc, name)?)?;
        }
        Ok(places)
    }

    /// Whether an export of the new one meets one of the old one's, where these are faced.
    fn is_met(
        &self,
        alloc: Global,
        faced: &BTreeSet<usize>,
        place: usize,
        name: &ExternName,
    ) -> Result<bool, AllocError>
        requires { IsFaced self.now faced.now }
        ensures { IfOk result (λ b. b ≡ is_met self.now.exports.names.items
            self.now.offers.names.items place name.now) }
    {
        match self.exports.found(alloc, name)? {
            Candidate::None => Ok(faced.contains(&place)),
            Candidate::One { .. } => Ok(true),
            Candidate::Several => Ok(true),
        }
    }

    /// Which exports of the new one fit the name of one of the old one's, of several the greatest,
    /// or the reverse. Refused only where there is no memory.
    #[tactic(auto, using(crate::proofs::Faces::met_laws))]
    pub(crate) fn met(&self, alloc: Global) -> Result<Vec<bool>, AllocError>
        ensures { IfOk result (λ v. v.items ≡ met_from self.now.exports.names.items
            self.now.offers.names.items 0 self.now.offers.names.items) }
    {
        let faced = self.faced(alloc)?;
        let mut met = Vec::with_capacity(alloc, self.offers.names.len())?;
        for (place, name) in self.offers.names.iter().enumerate() {
            met.push(self.is_met(alloc, &faced, place, name)?)?;
        }
        Ok(met)
    }
}
