//! The checks of a type, listed from those of what it holds.

ghost use Rattle.std.specs.Prelude.{◌≡◌, IfOk, OnOk, false, length, map};
ghost use Rattle.cm_layout.specs.Layouts.{layout_of};
ghost use Rattle.cm_abi_programs.specs.Checks.{are_unchecked, both_checks, cases_checks};
ghost use Rattle.cm_abi_programs.specs.Checks.{checks_of, flat_checks_of, is_unchecked};
ghost use Rattle.cm_abi_programs.specs.Checks.{leaf_checks, list_check, moved_checks, one_check};
ghost use Rattle.cm_abi_programs.specs.Checks.{placed_checks, row_checks};
ghost use Rattle.cm_abi_programs.specs.Coded.{case_of, cases_from, check_lists, check_of};
ghost use Rattle.cm_abi_programs.specs.Coded.{checks_in};
ghost use Rattle.cm_abi_programs.specs.Held.{is_list, shapes_in};
ghost use Rattle.cm_abi_programs.specs.PlacedFields.{checks_placed};

use crate::checks::{CaseChecks, Check};
use crate::holding::{byte_offsets, case_lists, member_counts, only_list, slot_offsets};
use crate::limits::FEW;
use cm_layout::{Form, Head, Layout, Leaf};
use std::alloc::{AllocError, Global};
use std::sync::Arc;

/// Adds checks behind others, each so far behind where it stands.
fn push_moved(checks: &[Check], by: u32, all: &mut Vec<Check>) -> Result<(), AllocError>
    ensures { OnOk result (checks_in all.new.items
        ≡ both_checks (checks_in all.old.items) (moved_checks by (checks_in checks.now))) }
{
    for check in checks {
        let moved = check.moved(by)?;
        all.push(moved)?;
    }
    Ok(())
}

/// Adds the checks of a field that begins so far behind: where they are few they are written out,
/// else the list is shared. Nothing below them is walked.
#[tactic(auto, using(crate::proofs::MakingLemmas::listed))]
fn push_placed(checks: &Arc<Vec<Check>>, at: u32, all: &mut Vec<Check>) -> Result<(), AllocError>
    ensures { OnOk result (checks_in all.new.items
        ≡ both_checks (checks_in all.old.items)
        (placed_checks at (checks_in checks.now.value.items))) }
{
    if checks.len() > FEW {
        let checks = checks.clone()?;
        all.push(Check::Part { at, checks })?;
        Ok(())
    } else {
        push_moved(checks, at, all)
    }
}

/// The checks of fields that begin at these places, from those of each.
fn placed_checks(
    alloc: Global,
    offsets: &[u32],
    lists: &[Arc<Vec<Check>>],
) -> Result<Vec<Check>, AllocError>
    requires { length offsets.now ≡ length lists.now }
    ensures { IfOk result (λ cs.
        checks_in cs.items ≡ checks_placed offsets.now (check_lists lists.now)) }
{
    let mut all = Vec::with_capacity(alloc, member_counts(lists)?)?;
    for (index, offset) in offsets.iter().enumerate() {
        push_placed(&lists[index], *offset, &mut all)?;
    }
    Ok(all)
}

/// A list of one check.
fn one_check(alloc: Global, check: Check) -> Result<Vec<Check>, AllocError>
    ensures { IfOk result (λ cs. checks_in cs.items ≡ one_check (check_of check)) }
{
    Ok(vec![in alloc; check]?)
}

/// The checks of a leaf: only a char can be at fault.
fn leaf_checks(alloc: Global, leaf: Leaf) -> Result<Vec<Check>, AllocError>
    ensures { IfOk result (λ cs. checks_in cs.items ≡ leaf_checks leaf) }
{
    match leaf {
        Leaf::Char => one_check(alloc, Check::Char { at: 0 }),
        Leaf::Bool | Leaf::Signed(_) | Leaf::Unsigned(_) | Leaf::Flags { .. } => {
            Ok(Vec::new(alloc))
        }
    }
}

/// The check of a list, whose elements take this and have these checks.
fn list_checks(
    alloc: Global,
    element: Head,
    checks: Arc<Vec<Check>>,
) -> Result<Vec<Check>, AllocError>
    ensures { IfOk result (λ cs.
        checks_in cs.items ≡ one_check (list_check 0 element (checks_in checks.value.items))) }
{
    one_check(
        alloc,
        Check::List {
            at: 0,
            element,
            checks,
        },
    )
}

/// The checks of so many values in a row, so far one behind the other, from those of one.
fn row_checks(
    alloc: Global,
    distance: u32,
    count: u32,
    checks: Arc<Vec<Check>>,
) -> Result<Vec<Check>, AllocError>
    ensures { IfOk result (λ cs.
        checks_in cs.items ≡ row_checks distance count (checks_in checks.value.items)) }
{
    if is_unchecked(&checks) {
        return Ok(Vec::new(alloc));
    }
    one_check(
        alloc,
        Check::Each {
            at: 0,
            distance,
            count,
            checks,
        },
    )
}

/// Whether there is nothing to look at.
#[tactic(auto, using(crate::proofs::MakingLemmas::emptiness))]
fn is_unchecked(checks: &[Check]) -> bool
    ensures { result ≡ is_unchecked (checks_in checks.now) }
{
    checks.is_empty()
}

/// Whether there is nothing to look at in what any case carries.
fn are_unchecked(cases: &[Arc<Vec<Check>>]) -> bool
    ensures { result ≡ are_unchecked (cases_from (check_lists cases.now)) }
{
    for checks in cases {
        if !is_unchecked(checks) {
            return false;
        }
    }
    true
}

/// The checks of what each case carries, in order; each list is shared. `AllocError` comes where
/// there is no memory for that.
fn case_checks(alloc: Global, cases: &[Arc<Vec<Check>>]) -> Result<Vec<CaseChecks>, AllocError>
    ensures { IfOk result (λ cs. map case_of cs.items ≡ check_lists cases.now) }
{
    let mut all = Vec::with_capacity(alloc, cases.len())?;
    for case in cases {
        let checks = case.clone()?;
        all.push(CaseChecks { checks })?;
    }
    Ok(all)
}

/// The checks of cases, with the number of a case in so many bytes and what it carries so far
/// behind that, from those of what each case carries.
fn cases_checks(
    alloc: Global,
    bytes: u32,
    offset: u32,
    cases: Vec<Arc<Vec<Check>>>,
) -> Result<Vec<Check>, AllocError>
    ensures { IfOk result (λ cs.
        checks_in cs.items ≡ cases_checks bytes offset (cases_from (check_lists cases.items))) }
{
    if are_unchecked(&cases) {
        let count = cases.len();
        return one_check(
            alloc,
            Check::Below {
                at: 0,
                bytes,
                count,
            },
        );
    }
    let cases = Arc::new(alloc, case_checks(alloc, &cases)?)?;
    one_check(
        alloc,
        Check::Cases {
            at: 0,
            bytes,
            offset,
            cases,
        },
    )
}

/// What has to be looked at in a value in memory, by the layout of its type, from what has to be in
/// the values that it holds, in order: each list is shared, and nothing below is walked.
/// `AllocError` comes where there is no memory for it, or where a place in a value would take more
/// than 32 bits, which none of a layout does.
pub fn stored_checks(
    alloc: Global,
    layout: &Layout,
    held: &[Arc<Vec<Check>>],
) -> Result<Vec<Check>, AllocError>
    requires { check_lists held.now ≡ map checks_of (shapes_in (layout_of layout.now).shape) }
    ensures { IfOk result (λ cs. checks_in cs.items ≡ checks_of (layout_of layout.now).shape) }
{
    match &layout.form {
        Form::Leaf(leaf) => leaf_checks(alloc, *leaf),
        Form::String => one_check(alloc, Check::Text { at: 0 }),
        Form::List(element) => list_checks(alloc, element.head, only_list(held)?),
        Form::FixedList { element, length } => {
            row_checks(alloc, element.head.size, *length, only_list(held)?)
        }
        Form::Fields(parts) => placed_checks(alloc, &byte_offsets(alloc, parts)?, held),
        Form::Cases {
            discriminant,
            offset,
            payloads,
        } => {
            let cases = case_lists(alloc, payloads, held)?;
            cases_checks(alloc, *discriminant, *offset, cases)
        }
        Form::Enum {
            discriminant,
            count,
        } => one_check(
            alloc,
            Check::Below {
                at: 0,
                bytes: *discriminant,
                count: *count,
            },
        ),
        Form::Handle(wanted) => one_check(
            alloc,
            Check::Handle {
                at: 0,
                wanted: *wanted,
            },
        ),
    }
}

/// What has to be looked at in a value that core values pass, by the layout of its type, from what
/// has to be in the values that it holds, in order, in memory and in core values; of a list it does
/// not matter what its elements would be as core values. It costs and fails as [`stored_checks`].
pub fn flat_checks(
    alloc: Global,
    layout: &Layout,
    stored: &[Arc<Vec<Check>>],
    held: &[Arc<Vec<Check>>],
) -> Result<Vec<Check>, AllocError>
    requires stored { check_lists stored.now
        ≡ map checks_of (shapes_in (layout_of layout.now).shape) }
    requires held { is_list (layout_of layout.now).shape ≡ false
        → check_lists held.now ≡ map flat_checks_of (shapes_in (layout_of layout.now).shape) }
    ensures { IfOk result (λ cs. checks_in cs.items ≡ flat_checks_of (layout_of layout.now).shape) }
{
    match &layout.form {
        Form::Leaf(leaf) => leaf_checks(alloc, *leaf),
        Form::String => one_check(alloc, Check::Text { at: 0 }),
        Form::List(element) => list_checks(alloc, element.head, only_list(stored)?),
        Form::FixedList { element, length } => {
            row_checks(alloc, element.head.width, *length, only_list(held)?)
        }
        Form::Fields(parts) => placed_checks(alloc, &slot_offsets(alloc, parts)?, held),
        Form::Cases { payloads, .. } => {
            let cases = case_lists(alloc, payloads, held)?;
            cases_checks(alloc, 4, 1, cases)
        }
        Form::Enum { count, .. } => one_check(
            alloc,
            Check::Below {
                at: 0,
                bytes: 4,
                count: *count,
            },
        ),
        Form::Handle(wanted) => one_check(
            alloc,
            Check::Handle {
                at: 0,
                wanted: *wanted,
            },
        ),
    }
}
