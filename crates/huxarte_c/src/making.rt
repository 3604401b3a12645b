//! A set of the components of files.

ghost use Rattle.std.specs.Prelude.{IfErr, IfOk, List, map, ℕ};
ghost use Rattle.cm_match.specs.Linked.{set_in};
ghost use Rattle.cm_match_serving.specs.Sets.{spaces_of_all};
ghost use Rattle.cm_shims.specs.Files.{AreRead, reading_of};
ghost use Rattle.huxarte_c_calls.specs.Spans.{AreWithin, parts_of};
ghost use Rattle.huxarte_c.specs.Making.{IsMade, IsNewVerdict, IsSetLinked, IsSetOf, IsUnmade};
ghost use Rattle.huxarte_c.specs.Making.{IsUnmadeBy, IsUnmadeOf, IsUnmadeParts};
ghost use Rattle.huxarte_c.specs.PlayedSets.{IsNewPlayed};

use crate::hux_set::HuxSet;
use crate::kept_set::KeptSet;
use crate::refusal::{SetRefusal, verdict};
use cm_match::{Checked, Linked};
use cm_shims::{Shimmed, check_files, read_files};
use huxarte_c_calls::{HuxSpan, HuxVerdict};
use huxarte_c_components::{HuxChoice, HuxPlace, LinkRefusal, files_of, link_by_numbers};
use std::alloc::Global;

/// A set of what is linked.
fn make_set(alloc: Global, linked: &Linked<'_>, pages: &[u32]) -> Result<Box<KeptSet>, SetRefusal>
    ensures made { IfOk result (λ b. IsNewPlayed (set_in linked.now) pages.now b.value) }
    ensures refused { IfErr result (IsUnmadeBy (set_in linked.now) pages.now) }
{
    let set = match KeptSet::new(alloc, linked, pages) {
        Ok(set) => set,
        Err(misuse) => return Err(SetRefusal::Misuse(misuse)),
    };
    match Box::new(alloc, set) {
        Ok(set) => Ok(set),
        Err(_) => Err(SetRefusal::Memory),
    }
}

/// Links these components, and makes a set of them.
fn make_linked(
    alloc: Global,
    components: Vec<Checked<'_>>,
    places: &[HuxPlace],
    choices: &[HuxChoice],
    pages: &[u32],
) -> Result<Box<KeptSet>, SetRefusal>
    ensures made { IfOk result (λ b.
        IsSetLinked places.now choices.now (spaces_of_all components.entry.items) pages.now
        b.value) }
    ensures refused { IfErr result
        (IsUnmade places.now choices.now (spaces_of_all components.entry.items) pages.now) }
{
    match link_by_numbers(alloc, components, places, choices) {
        Ok(linked) => make_set(alloc, &linked, pages),
        Err(refusal) => Err(SetRefusal::Link(refusal)),
    }
}

/// Links what files are read as, and makes a set of it.
fn make_read(
    alloc: Global,
    files: &[Shimmed],
    places: &[HuxPlace],
    choices: &[HuxChoice],
    pages: &[u32],
) -> Result<Box<KeptSet>, SetRefusal>
    ensures made { (bytes : List (List ℕ)) → AreRead bytes (map reading_of files.now)
        → IfOk result (λ b. IsSetOf places.now choices.now bytes pages.now b.value) }
    ensures refused { (bytes : List (List ℕ)) → AreRead bytes (map reading_of files.now)
        → IfErr result (IsUnmadeOf places.now choices.now bytes pages.now) }
{
    match check_files(alloc, files) {
        Ok(checked) => make_linked(alloc, checked, places, choices, pages),
        Err(fault) => Err(SetRefusal::Link(LinkRefusal::Files(fault))),
    }
}

/// Links the components of files, and makes a set of them.
fn make_files(
    alloc: Global,
    files: &[&[u8]],
    places: &[HuxPlace],
    choices: &[HuxChoice],
    pages: &[u32],
) -> Result<Box<KeptSet>, SetRefusal>
    ensures made { IfOk result (λ b.
        IsSetOf places.now choices.now (map (λ f. f.now) files.now) pages.now b.value) }
    ensures refused { IfErr result
        (IsUnmadeOf places.now choices.now (map (λ f. f.now) files.now) pages.now) }
{
    match read_files(alloc, files) {
        Ok(components) => make_read(alloc, &components, places, choices, pages),
        Err(fault) => Err(SetRefusal::Link(LinkRefusal::Files(fault))),
    }
}

/// Links the components of files that are parts of some bytes, and makes a set of them.
fn make_parts(
    alloc: Global,
    bytes: &[u8],
    spans: &[HuxSpan],
    places: &[HuxPlace],
    choices: &[HuxChoice],
    pages: &[u32],
) -> Result<Box<KeptSet>, SetRefusal>
    ensures made { IfOk result (λ b. AreWithin bytes.now spans.now
        × IsSetOf places.now choices.now (parts_of bytes.now spans.now) pages.now b.value) }
    ensures refused { IfErr result
        (IsUnmadeParts places.now choices.now bytes.now spans.now pages.now) }
{
    match files_of(alloc, bytes, spans) {
        Ok(files) => make_files(alloc, &files, places, choices, pages),
        Err(refusal) => Err(SetRefusal::Link(refusal)),
    }
}

/// Has the handle keep a set of the components of files, where it keeps none.
fn make_kept(
    alloc: Global,
    bytes: &[u8],
    spans: &[HuxSpan],
    places: &[HuxPlace],
    choices: &[HuxChoice],
    pages: &[u32],
    set: &mut HuxSet,
) -> Result<(), SetRefusal>
    ensures { IsMade places.now choices.now bytes.now spans.now pages.now
        set.old.kept set.new.kept result }
{
    if set.is_full(alloc) {
        return Err(SetRefusal::Full);
    }
    match make_parts(alloc, bytes, spans, places, choices, pages) {
        Ok(made) => {
            set.put(alloc, made);
            Ok(())
        }
        Err(refusal) => Err(refusal),
    }
}

/// Links the components of files, each a part of the bytes, as `link_files` does by these places
/// and choices, and has the handle keep a set of them that runs: each instance has so many pages of
/// zeros, one number for each file.
///
/// `Full` comes first, then what `link_files` says, then `Misuse`: 5 where there is not one number
/// for each file or one is too large, 6 where there is no memory for the set.
pub fn make(
    alloc: Global,
    bytes: &[u8],
    files: &[HuxSpan],
    places: &[HuxPlace],
    choices: &[HuxChoice],
    pages: &[u32],
    set: &mut HuxSet,
) -> HuxVerdict
    ensures { IsNewVerdict places.now choices.now bytes.now files.now pages.now
        set.old.kept set.new.kept result }
{
    verdict(make_kept(alloc, bytes, files, places, choices, pages, set))
}
