//! What fits what, as laws: each function here does nothing, and its contract is the law.

ghost use Rattle.std.specs.Prelude.{◌≡◌, ◌&&◌, ◌==◌, List, ℕ, [], ◌∷◌, IsTrue, None, Ok, Some};
ghost use Rattle.std.specs.Prelude.{codes, false, length, not, true};
ghost use Rattle.std.specs.Str.{bytes_eq};
ghost use Rattle.semver.specs.Parse.{Parts, version_parts};
ghost use Rattle.cm_types.specs.ExternNames.{NameTree, form_of, is_version, version_of};
ghost use Rattle.cm_match_model.specs.declared.candidates.Candidate.TheVariants as candidate;
ghost use Rattle.cm_match_model.specs.Fitting.{candidates, fits, is_compatible, only};
ghost use Rattle.cm_match_model.specs.Ranges.{comes_before, exports_named, is_later_prerelease};
ghost use Rattle.cm_match_model.specs.Ranges.{next_incompatible, numbers};

/// Which versions meet the requirement `^` and a version, as Cargo reads it. A release meets it
/// from that version on, up to the next one that has another first number that is not 0; a
/// pre-release where the version is a pre-release of the same release and does not come after it.
/// Build metadata does not count. Each version meets its own.
pub fn compatible_versions()
    ensures release { (v w : List ℕ) (p q : Parts)
        → version_parts v ≡ Ok p → version_parts w ≡ Ok q → q.3 ≡ []
        → is_compatible v w
        ≡ (not (comes_before q (numbers p)) && comes_before q (next_incompatible p)) }
    ensures prerelease { (v w : List ℕ) (p q : Parts)
        → version_parts v ≡ Ok p → version_parts w ≡ Ok q → (length q.3 == 0) ≡ false
        → is_compatible v w ≡ is_later_prerelease p q }
    ensures itself { (v : List ℕ) → IsTrue (is_version v) → is_compatible v v ≡ true }
{}

/// Which names fit: each name itself; a name without a version fits no other, and no other fits it.
pub fn names_fit()
    ensures itself { (name : List ℕ) → fits name name ≡ true }
    ensures wanted { (a b : List ℕ) (t : NameTree) → form_of a ≡ Some t → version_of t ≡ None
        → fits a b ≡ bytes_eq a b }
    ensures exported { (a b : List ℕ) (t : NameTree) → form_of b ≡ Some t → version_of t ≡ None
        → fits a b ≡ bytes_eq a b }
{}

/// Which of some exports an import finds, in cases that were worked by hand from Cargo's rules.
pub fn worked_candidates()
    ensures later { only (candidates (exports_named 0 (codes "a:b/c@1.4.1" ∷ []))
        (codes "a:b/c@1.2.0")) ≡ candidate.One 0 0 }
    ensures major { only (candidates (exports_named 0 (codes "a:b/c@2.0.0" ∷ []))
        (codes "a:b/c@1.2.0")) ≡ candidate.None }
    ensures two { only (candidates
        (exports_named 0 (codes "a:b/c@1.2.0" ∷ codes "a:b/c@1.3.0" ∷ []))
        (codes "a:b/c@1.2.0")) ≡ candidate.Several }
{}

/// Which names fit, in cases that were worked by hand from Cargo's rules.
pub fn worked_fits()
    ensures earlier { fits (codes "a:b/c@0.2.3") (codes "a:b/c@0.2.1") ≡ false }
    ensures minor { fits (codes "a:b/c@0.2.3") (codes "a:b/c@0.3.0") ≡ false }
    ensures patch { fits (codes "a:b/c@0.0.3") (codes "a:b/c@0.0.4") ≡ false }
    ensures candidate_release { fits (codes "a:b/c@1.0.0") (codes "a:b/c@1.1.0-rc.1") ≡ false }
    ensures candidates_in_order { fits (codes "a:b/c@1.0.0-rc.2") (codes "a:b/c@1.0.0-rc.10")
        ≡ true }
    ensures after_candidate { fits (codes "a:b/c@1.0.0-rc.2") (codes "a:b/c@1.0.0") ≡ true }
    ensures build { fits (codes "a:b/c@1.0.0+x") (codes "a:b/c@1.0.0+y") ≡ true }
    ensures namespace { fits (codes "a:b/c@1.0.0") (codes "x:b/c@1.0.0") ≡ false }
    ensures package_name { fits (codes "a:b/c@1.0.0") (codes "a:x/c@1.0.0") ≡ false }
    ensures interface { fits (codes "a:b/c@1.0.0") (codes "a:b/x@1.0.0") ≡ false }
    ensures unversioned { fits (codes "a:b/c") (codes "a:b/c@1.0.0") ≡ false }
    ensures versioned { fits (codes "a:b/c@1.0.0") (codes "a:b/c") ≡ false }
    ensures label { fits (codes "c") (codes "C") ≡ false }
{}
