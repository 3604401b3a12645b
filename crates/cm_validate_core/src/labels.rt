//! Labels of one type or of one parameter list.

ghost use Rattle.std.specs.Prelude.{◌≡◌, ℕ, List, IfOk, OnOk, OnErr, cond, map, not, true};
ghost use Rattle.std.specs.BTreeSet.{contains_text};
ghost use Rattle.std.specs.Char.{to_ascii_lowercase};
ghost use Rattle.std.specs.Str.{bytes_eq};
ghost use Rattle.std.specs.String.{string_bytes};
ghost use Rattle.cm_validate_model.specs.TypeRules.{are_distinct_names};

use cm_types::{CaseType, Label, LabeledValType};
use std::alloc::{AllocError, Global};
use std::collections::BTreeSet;

/// The text without ASCII case.
fn fold_case(alloc: Global, text: &str) -> Result<String, AllocError>
    ensures { IfOk result (λ t. string_bytes t ≡ map to_ascii_lowercase text.now) }
{
    let mut text = String::from_str(alloc, text)?;
    text.make_ascii_lowercase();
    Ok(text)
}

/// Adds a name, without ASCII case, to those that were seen, and says whether it was new.
fn add_name(alloc: Global, seen: &mut BTreeSet<String>, name: &str) -> Result<bool, AllocError>
    ensures answer { IfOk result (λ new.
        new ≡ not (contains_text seen.old (map to_ascii_lowercase name.now))) }
    ensures adds { OnOk result
        ((q : List ℕ)
        → contains_text seen.new q
        ≡ cond (bytes_eq (map to_ascii_lowercase name.now) q) true (contains_text seen.old q)) }
{
    let key = fold_case(alloc, name)?;
    Ok(seen.insert(key)?)
}

/// Adds a label, without ASCII case, to the names that were seen, and says whether it was new.
fn add_label(alloc: Global, seen: &mut BTreeSet<String>, label: &Label) -> Result<bool, AllocError>
    ensures answer { IfOk result (λ new.
        new ≡ not (contains_text seen.old (map to_ascii_lowercase label.now))) }
    ensures adds { OnOk result
        ((q : List ℕ)
        → contains_text seen.new q
        ≡ cond (bytes_eq (map to_ascii_lowercase label.now) q) true (contains_text seen.old q)) }
{
    add_name(alloc, seen, label.as_str())
}

/// Whether no two names are the same without ASCII case. Each is folded and looked up once.
/// `AllocError` comes where there is no memory for it.
pub fn names_are_distinct(alloc: Global, names: &[&str]) -> Result<bool, AllocError>
    ensures { IfOk result (λ b. b ≡ are_distinct_names (map (λ n. n.now) names.now)) }
{
    let mut seen = BTreeSet::new(alloc);
    for name in names {
        if !add_name(alloc, &mut seen, *name)? {
            return Ok(false);
        }
    }
    Ok(true)
}

/// Whether no two labels are the same without ASCII case.
pub(crate) fn are_distinct(alloc: Global, labels: &[Label]) -> Result<bool, AllocError>
    ensures { IfOk result (λ b. b ≡ are_distinct_names labels.now) }
{
    let mut seen = BTreeSet::new(alloc);
    for label in labels {
        if !add_label(alloc, &mut seen, label)? {
            return Ok(false);
        }
    }
    Ok(true)
}

/// Whether no two labels of fields, or of parameters, are the same without ASCII case.
pub(crate) fn fields_are_distinct(
    alloc: Global,
    fields: &[LabeledValType],
) -> Result<bool, AllocError>
    ensures { IfOk result (λ b. b ≡ are_distinct_names (map (λ f. f.label) fields.now)) }
{
    let mut seen = BTreeSet::new(alloc);
    for field in fields {
        if !add_label(alloc, &mut seen, &field.label)? {
            return Ok(false);
        }
    }
    Ok(true)
}

/// Whether no two labels of cases are the same without ASCII case.
pub(crate) fn cases_are_distinct(alloc: Global, cases: &[CaseType]) -> Result<bool, AllocError>
    ensures { IfOk result (λ b. b ≡ are_distinct_names (map (λ c. c.label) cases.now)) }
{
    let mut seen = BTreeSet::new(alloc);
    for case in cases {
        if !add_label(alloc, &mut seen, &case.label)? {
            return Ok(false);
        }
    }
    Ok(true)
}
