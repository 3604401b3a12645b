//! Whether the components of files link.

ghost use Rattle.std.specs.Prelude.{◌≡◌, IfErr, IfOk, List, OnOk, map, ℕ};
ghost use Rattle.cm_match_serving.specs.Sets.{spaces_of_all};
ghost use Rattle.cm_shims.specs.Files.{AreRead, reading_of};
ghost use Rattle.huxarte_c_components.specs.Linking.{AreLinked, CanLinkBy, IsLinkRefusal};
ghost use Rattle.huxarte_c_components.specs.Linking.{IsLinkVerdict, IsPartsRefusal, IsSpansFault};
ghost use Rattle.huxarte_c_components.specs.Linking.{IsUnlinkedBy, of_link};
ghost use Rattle.huxarte_c_components.specs.declared.linking.LinkRefusal.TheVariants as refusal;
ghost use Rattle.huxarte_c_calls.specs.Spans.{AreWithin, parts_of};
ghost use Rattle.huxarte_c_calls.specs.Texts.{IsText};

use crate::checking::files_verdict;
use crate::choosing::{HuxChoice, HuxPlace, link_by_numbers};
use cm_match::{Checked, LinkFault, Linked};
use cm_shims::{FilesFault, Shimmed, check_files, read_files};
use cm_tool_lines::write_plan;
use huxarte_c_calls::{HuxKind, HuxSpan, HuxVerdict, PartsFault, parts, write_shown, write_text};
use std::alloc::Global;
use std::fmt;

/// Why the components of files do not link.
#[derive(Clone, Copy)]
pub enum LinkRefusal {
    /// A part of the bytes passes their end.
    Outside,
    /// A file stands for no valid component, or not for what its shims say.
    Files(FilesFault),
    /// The choice at this place is of an import that is not there, or that has a choice before.
    Choice(usize),
    /// The components can't be linked.
    Link(LinkFault),
    /// There was no memory.
    Memory,
}

impl LinkRefusal {
    /// The refusal in numbers.
    pub fn verdict(self) -> HuxVerdict
        ensures { result ≡ of_link self }
    {
        match self {
            LinkRefusal::Outside => HuxVerdict::of_kind(HuxKind::Outside),
            LinkRefusal::Files(fault) => files_verdict(fault),
            LinkRefusal::Choice(at) => HuxVerdict::at_item(HuxKind::Choice, 0, 0, at, 0),
            LinkRefusal::Link(fault) => {
                let number = fault.reason.number();
                HuxVerdict::at_item(HuxKind::Link, number, fault.component, 0, fault.import)
            }
            LinkRefusal::Memory => HuxVerdict::of_kind(HuxKind::Memory),
        }
    }
}

impl fmt::Display for LinkRefusal {
    fn fmt<W: fmt::Write>(&self, f: &mut fmt::Formatter<W>) -> fmt::Result {
        match self {
            LinkRefusal::Outside => f.write_str("a part passes the end of the bytes"),
            LinkRefusal::Files(fault) => write!(f, "{fault}"),
            LinkRefusal::Choice(at) => write!(
                f,
                "choice {at} is of an import that is not there, or that has a choice before"
            ),
            LinkRefusal::Link(fault) => write!(f, "{fault}"),
            LinkRefusal::Memory => f.write_str("no memory"),
        }
    }
}

/// The lines of the plan of linked components.
fn lines(alloc: Global, linked: &Linked<'_>) -> Result<Vec<u8>, LinkRefusal>
    ensures { IfErr result (λ r. r ≡ refusal.Memory) }
{
    let mut lines = Vec::new(alloc);
    match write_plan(&mut lines, linked) {
        Ok(()) => Ok(lines),
        Err(_) => Err(LinkRefusal::Memory),
    }
}

/// The lines of the plan by which these components link.
fn plan_of(
    alloc: Global,
    components: Vec<Checked<'_>>,
    places: &[HuxPlace],
    choices: &[HuxChoice],
) -> Result<Vec<u8>, LinkRefusal>
    ensures linked { OnOk result
        (CanLinkBy places.now choices.now (spaces_of_all components.entry.items)) }
    ensures refused { IfErr result
        (IsUnlinkedBy places.now choices.now (spaces_of_all components.entry.items)) }
{
    match link_by_numbers(alloc, components, places, choices) {
        Ok(linked) => lines(alloc, &linked),
        Err(refusal) => Err(refusal),
    }
}

/// The lines of the plan by which the components link that files are read as.
fn plan_of_read(
    alloc: Global,
    files: &[Shimmed],
    places: &[HuxPlace],
    choices: &[HuxChoice],
) -> Result<Vec<u8>, LinkRefusal>
    ensures linked { (bytes : List (List ℕ)) → AreRead bytes (map reading_of files.now)
        → OnOk result (AreLinked places.now choices.now bytes) }
    ensures refused { (bytes : List (List ℕ)) → AreRead bytes (map reading_of files.now)
        → IfErr result (IsLinkRefusal places.now choices.now bytes) }
{
    match check_files(alloc, files) {
        Ok(checked) => plan_of(alloc, checked, places, choices),
        Err(fault) => Err(LinkRefusal::Files(fault)),
    }
}

/// The lines of the plan by which the components of files link.
fn plan(
    alloc: Global,
    files: &[&[u8]],
    places: &[HuxPlace],
    choices: &[HuxChoice],
) -> Result<Vec<u8>, LinkRefusal>
    ensures linked { OnOk result
        (AreLinked places.now choices.now (map (λ f. f.now) files.now)) }
    ensures refused { IfErr result
        (IsLinkRefusal places.now choices.now (map (λ f. f.now) files.now)) }
{
    match read_files(alloc, files) {
        Ok(components) => plan_of_read(alloc, &components, places, choices),
        Err(fault) => Err(LinkRefusal::Files(fault)),
    }
}

/// The files that are parts of some bytes.
pub fn files_of<'a>(
    alloc: Global,
    bytes: &'a [u8],
    spans: &[HuxSpan],
) -> Result<Vec<&'a [u8]>, LinkRefusal>
    ensures parts { IfOk result (λ ps.
        map (λ p. p.now) ps.items ≡ parts_of bytes.now spans.now) }
    ensures within { OnOk result (AreWithin bytes.now spans.now) }
    ensures refused { IfErr result (IsSpansFault bytes.now spans.now) }
{
    match parts(alloc, bytes, spans) {
        Ok(files) => Ok(files),
        Err(PartsFault::Outside) => Err(LinkRefusal::Outside),
        Err(PartsFault::Memory) => Err(LinkRefusal::Memory),
    }
}

/// The lines of the plan by which the components of files link that are parts of some bytes.
fn plan_of_parts(
    alloc: Global,
    bytes: &[u8],
    spans: &[HuxSpan],
    places: &[HuxPlace],
    choices: &[HuxChoice],
) -> Result<Vec<u8>, LinkRefusal>
    ensures within { OnOk result (AreWithin bytes.now spans.now) }
    ensures linked { OnOk result
        (AreLinked places.now choices.now (parts_of bytes.now spans.now)) }
    ensures refused { IfErr result
        (IsPartsRefusal places.now choices.now bytes.now spans.now) }
{
    match files_of(alloc, bytes, spans) {
        Ok(files) => plan(alloc, &files, places, choices),
        Err(refusal) => Err(refusal),
    }
}

/// Links the components of files, each a part of the bytes: each import to the only export of a
/// file before that serves it, of those that it sees by these places and choices; by none, of all.
///
/// The answer is `Fine`, and `text` has a line for each import, which says what serves it: the
/// number of the import's file, its name, ` <- `, the number of the export's file, and its name.
/// Else the answer is the first fault, of a part, of a file, of a choice, or of a link, which
/// `text` shows. As many bytes of the text as there is room for are written, and `wanted` says how
/// many it has.
pub fn link_files(
    alloc: Global,
    bytes: &[u8],
    files: &[HuxSpan],
    places: &[HuxPlace],
    choices: &[HuxChoice],
    text: &mut [u8],
    wanted: &mut usize,
) -> HuxVerdict
    ensures verdict { IsLinkVerdict places.now choices.now bytes.now files.now result }
    ensures text { IsText text.old wanted.new text.new }
{
    match plan_of_parts(alloc, bytes, files, places, choices) {
        Ok(lines) => {
            *wanted = write_text(text, &lines);
            HuxVerdict::fine()
        }
        Err(refusal) => {
            *wanted = write_shown(alloc, text, &refusal);
            refusal.verdict()
        }
    }
}
