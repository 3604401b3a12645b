//! What an item has that violates a rule.

use crate::index_help::{Place, index_help};
use crate::names_help::{annotated_help, names_help};
use cm_binary_model::{Canon, CanonOption, Component, Section};
use cm_validate_model::{ValidFault, ValidReason};
use std::alloc::{AllocError, Global};

/// What is wrong with the item of a component that is not valid: the index that nothing has, with
/// its sort and how many there are, the name or the option that stands twice, or the names of which
/// one has an annotation that does not fit.
pub fn valid_help(
    alloc: Global,
    component: &Component,
    fault: ValidFault,
) -> Result<String, AllocError> {
    let place = Place {
        sections: component.sections(),
        section: fault.section,
        item: fault.item,
    };
    match (fault.reason, place.sections.get(fault.section)) {
        (ValidReason::NoSuchIndex, _) => index_help(alloc, place),
        (ValidReason::DuplicateName, Some(section)) => names_help(alloc, section, fault.item),
        (ValidReason::BadAnnotatedName, Some(section)) => {
            annotated_help(alloc, section, fault.item)
        }
        (ValidReason::OptionTwice, Some(section)) => {
            String::from_str(alloc, option_words(section, fault.item))
        }
        _ => Ok(String::new(alloc)),
    }
}

fn option_words(section: &Section, item: usize) -> &'static str {
    let Section::Canons(items) = section else {
        return "";
    };
    match items.get(item) {
        Some(Canon::Lift { options, .. } | Canon::Lower { options, .. }) => twice_words(options),
        _ => "",
    }
}

/// Which kind of option stands twice.
fn twice_words(options: &[CanonOption]) -> &'static str {
    if are_twice(options, |o| matches!(o, CanonOption::Memory(_))) {
        ": memory stands twice"
    } else if are_twice(options, |o| matches!(o, CanonOption::Realloc(_))) {
        ": realloc stands twice"
    } else if are_twice(options, |o| matches!(o, CanonOption::PostReturn(_))) {
        ": post-return stands twice"
    } else {
        ": two encodings of strings are given"
    }
}

fn are_twice<P: Fn(CanonOption) -> bool>(options: &[CanonOption], is_of_kind: P) -> bool
    requires { P.IsAlwaysCallable is_of_kind }
{
    let mut seen = false;
    for option in options {
        if is_of_kind(*option) {
            if seen {
                return true;
            }
            seen = true;
        }
    }
    false
}
