//! What imports see, as laws: each function here does nothing, and its contract is the law.

ghost use Rattle.std.specs.Prelude.{◌≡◌, ℕ, List, [], Some};
ghost use Rattle.cm_types.specs.Signatures.{NamedExtern};
ghost use Rattle.cm_validate_model.specs.Spaces.{Spaces};
ghost use Rattle.cm_match_model.specs.declared.component.Link.{Link};
ghost use Rattle.cm_match_model.specs.declared.sight.Place.{Place};
ghost use Rattle.cm_match_model.specs.Fitting.{NamedExport};
ghost use Rattle.cm_match_model.specs.Fitting as fitting;
ghost use Rattle.cm_match_model.specs.Imports.{Sees, candidates, exports_before, links_of};
ghost use Rattle.cm_match_model.specs.Imports.{seen_by, sees_all};
ghost use Rattle.cm_match_model.specs.Sights.{Chosen, chosen_export, group_of, nothing_chosen};
ghost use Rattle.cm_match_model.specs.Sights.{seen_before, sees_by};

/// With no groups and no chosen links each import sees all exports before it, so that its
/// candidates are those that fit it by name.
pub fn without_choices_all_is_seen()
    ensures sees { (c n : ℕ) (e : NamedExport) → sees_by [] nothing_chosen c n e ≡ sees_all c n e }
    ensures candidates { (set : List Spaces) (c n : ℕ) (x : NamedExtern)
        → candidates (seen_by (sees_by [] nothing_chosen) set) c n x
        ≡ fitting.candidates (exports_before set c) x.name }
{}

/// Where nothing is chosen for an import, its candidates are those that fit it of the exports that
/// are seen before its component's group.
pub fn groups_see_what_stands_before()
    ensures { (set : List Spaces) (places : List Place) (c n : ℕ) (x : NamedExtern)
        → candidates (seen_by (sees_by places nothing_chosen) set) c n x
        ≡ fitting.candidates (seen_before set places (group_of places c)) x.name }
{}

/// An import for which a link is chosen has the export of that link as its only candidate, where
/// that is of a component before and fits.
pub fn a_chosen_link_is_the_only_candidate()
    ensures { (set : List Spaces) (places : List Place) (chosen : Chosen) (c n : ℕ)
        (x : NamedExtern) (l : Link) → chosen c n ≡ Some l
        → candidates (seen_by (sees_by places chosen) set) c n x
        ≡ fitting.candidates (chosen_export set c l) x.name }
{}

/// What an import is linked to is told by what it sees itself: a choice for another import does
/// not change it.
pub fn each_import_for_itself()
    ensures same { (set : List Spaces) (s t : Sees) (c n : ℕ)
        → ((e : NamedExport) → s c n e ≡ t c n e)
        → links_of (seen_by s set) c n ≡ links_of (seen_by t set) c n }
    ensures others { (set : List Spaces) (places : List Place) (chosen more : Chosen)
        (c n : ℕ) → chosen c n ≡ more c n
        → links_of (seen_by (sees_by places chosen) set) c n
        ≡ links_of (seen_by (sees_by places more) set) c n }
{}
