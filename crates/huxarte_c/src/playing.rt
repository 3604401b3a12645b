//! Plays in process.

ghost use Rattle.std.specs.Prelude.{◌≡◌, [], IfErr, List, OnOk, map, ℕ};
ghost use Rattle.cm_match_serving.specs.Sets.{spaces_of_all};
ghost use Rattle.cm_shims.specs.Files.{AreRead, reading_of};
ghost use Rattle.huxarte_c.specs.Playing.{IsDriveRefusal, IsPlayOutcome, IsPlayVerdict, IsUnplayed};
ghost use Rattle.huxarte_c.specs.Playing.{IsSpansRefusal, IsUnplayedOf, of_play};
ghost use Rattle.huxarte_c_components.specs.Linking.{AreLinked, CanLinkBy};
ghost use Rattle.huxarte_c_calls.specs.Spans.{AreWithin, parts_of};
ghost use Rattle.huxarte_c_calls.specs.Texts.{IsText};
ghost use Rattle.huxarte_c_calls.specs.Verdicts.{verdict_by};

use cm_match::{Checked, Linked};
use cm_shims::{Shimmed, check_files, read_files};
use cm_tool::{FileFault, Files, Outcome, play_linked, report};
use huxarte_c_calls::{HuxKind, HuxSpan, HuxVerdict, Printed, part};
use huxarte_c_components::{LinkRefusal, files_of, link_by_numbers};
use std::alloc::Global;
use std::fmt;
use std::io::Write;

/// How many bytes there are to be written of each text.
#[repr(C)]
#[derive(Clone, Copy)]
pub struct HuxWanted {
    pub out: usize,
    pub err: usize,
}

/// The only file of a play: its script.
#[derive(Drop)]
struct ScriptFile<'a>(&'a [u8]);

impl Files for ScriptFile<'_> {
    fn read(&mut self, alloc: Global, _name: &str) -> Result<Vec<u8>, FileFault> {
        Vec::from_slice(alloc, self.0).map_err(|_| FileFault::Memory)
    }
}

/// Why a play is not done.
#[derive(Clone, Copy)]
pub(crate) enum PlayRefusal {
    /// The components of the files do not link.
    Link(LinkRefusal),
    /// The script is refused, or the machine makes no set of the components.
    Unplayed,
    /// A drive trapped.
    Trapped,
    /// A drive could not begin, or reached its limit.
    Stopped,
}

impl PlayRefusal {
    /// The refusal in numbers.
    fn verdict(self) -> HuxVerdict
        ensures { result ≡ of_play self }
    {
        match self {
            PlayRefusal::Link(refusal) => refusal.verdict(),
            PlayRefusal::Unplayed => HuxVerdict::of_kind(HuxKind::Unplayed),
            PlayRefusal::Trapped => HuxVerdict::of_kind(HuxKind::Trapped),
            PlayRefusal::Stopped => HuxVerdict::of_kind(HuxKind::Stopped),
        }
    }
}

impl fmt::Display for PlayRefusal {
    fn fmt<W: fmt::Write>(&self, f: &mut fmt::Formatter<W>) -> fmt::Result {
        match self {
            PlayRefusal::Link(refusal) => write!(f, "{refusal}"),
            PlayRefusal::Unplayed => f.write_str("the script or the set is refused"),
            PlayRefusal::Trapped => f.write_str("a drive trapped"),
            PlayRefusal::Stopped => f.write_str("a drive could not begin, or reached its limit"),
        }
    }
}

/// Plays a script on linked components. What is wrong with the script, or with the set, has a line.
fn play_on(
    alloc: Global,
    linked: &Linked<'_>,
    script: &[u8],
    printed: &mut Printed,
) -> Result<(), PlayRefusal>
    ensures { IfErr result IsDriveRefusal }
{
    let mut files = ScriptFile(script);
    let Printed { out, err } = printed;
    match play_linked(alloc, "script", linked, &mut files, out, err) {
        Ok(Outcome::Done) => Ok(()),
        Ok(Outcome::Refused) => Err(PlayRefusal::Stopped),
        Ok(Outcome::Trapped) => Err(PlayRefusal::Trapped),
        Err(fault) => {
            report(err, &fault);
            Err(PlayRefusal::Unplayed)
        }
    }
}

/// Links these components, and plays a script on them.
fn play_set(
    alloc: Global,
    components: Vec<Checked<'_>>,
    script: &[u8],
    printed: &mut Printed,
) -> Result<(), PlayRefusal>
    ensures linked { OnOk result (CanLinkBy [] [] (spaces_of_all components.entry.items)) }
    ensures refused { IfErr result (IsUnplayed (spaces_of_all components.entry.items)) }
{
    match link_by_numbers(alloc, components, &[], &[]) {
        Ok(linked) => play_on(alloc, &linked, script, printed),
        Err(refusal) => Err(PlayRefusal::Link(refusal)),
    }
}

/// Links what files are read as, and plays a script on it.
fn play_read(
    alloc: Global,
    files: &[Shimmed],
    script: &[u8],
    printed: &mut Printed,
) -> Result<(), PlayRefusal>
    ensures linked { (bytes : List (List ℕ)) → AreRead bytes (map reading_of files.now)
        → OnOk result (AreLinked [] [] bytes) }
    ensures refused { (bytes : List (List ℕ)) → AreRead bytes (map reading_of files.now)
        → IfErr result (IsUnplayedOf bytes) }
{
    match check_files(alloc, files) {
        Ok(checked) => play_set(alloc, checked, script, printed),
        Err(fault) => Err(PlayRefusal::Link(LinkRefusal::Files(fault))),
    }
}

/// Links the components of files, and plays a script on them.
fn play_files(
    alloc: Global,
    files: &[&[u8]],
    script: &[u8],
    printed: &mut Printed,
) -> Result<(), PlayRefusal>
    ensures linked { OnOk result (AreLinked [] [] (map (λ f. f.now) files.now)) }
    ensures refused { IfErr result (IsUnplayedOf (map (λ f. f.now) files.now)) }
{
    match read_files(alloc, files) {
        Ok(components) => play_read(alloc, &components, script, printed),
        Err(fault) => Err(PlayRefusal::Link(LinkRefusal::Files(fault))),
    }
}

/// Links the components of files that are parts of some bytes, and plays a script on them.
fn play_spans(
    alloc: Global,
    bytes: &[u8],
    spans: &[HuxSpan],
    script: &[u8],
    printed: &mut Printed,
) -> Result<(), PlayRefusal>
    ensures within { OnOk result (AreWithin bytes.now spans.now) }
    ensures linked { OnOk result (AreLinked [] [] (parts_of bytes.now spans.now)) }
    ensures refused { IfErr result (IsSpansRefusal bytes.now spans.now) }
{
    match files_of(alloc, bytes, spans) {
        Ok(files) => play_files(alloc, &files, script, printed),
        Err(refusal) => Err(PlayRefusal::Link(refusal)),
    }
}

/// Plays a script that is a part of the bytes, as its files are.
fn play_parts(
    alloc: Global,
    bytes: &[u8],
    spans: &[HuxSpan],
    script: &HuxSpan,
    printed: &mut Printed,
) -> Result<(), PlayRefusal>
    ensures { IsPlayOutcome bytes.now spans.now script.now result }
{
    match part(bytes, script) {
        Some(script) => play_spans(alloc, bytes, spans, script, printed),
        None => Err(PlayRefusal::Link(LinkRefusal::Outside)),
    }
}

/// Writes why a play is not done, where no line says so yet.
fn say(ran: Result<(), PlayRefusal>, printed: &mut Printed) {
    if let Err(refusal) = ran
        && printed.err.is_empty()
    {
        let _ = writeln!(printed.err, "{refusal}");
    }
}

/// What a play comes to, in numbers.
fn verdict(ran: Result<(), PlayRefusal>) -> HuxVerdict
    ensures { result ≡ verdict_by of_play ran }
{
    match ran {
        Ok(()) => HuxVerdict::fine(),
        Err(refusal) => refusal.verdict(),
    }
}

/// Links the components of files, each a part of the bytes, and plays a script on them, another
/// part (docs/COMMAND.md, "Scripts").
///
/// The answer is `Fine` where each drive ended, `Trapped` where one trapped, and else `Stopped`
/// where one could not begin or reached its 1,000,000 moves; `out` has a line for each event. Where
/// nothing is played, the answer is the first fault: of a part, a file or a link, or `Unplayed`,
/// where the script is refused or the machine makes no set. `err` has a line of what went wrong. As
/// many bytes as there is room for are written, and `wanted` says how many there are of each.
#[unsafe(no_mangle)]
pub extern "C" fn hux_run(
    alloc: Global,
    bytes: &[u8],
    files: &[HuxSpan],
    script: &HuxSpan,
    out: &mut [u8],
    err: &mut [u8],
    wanted: &mut HuxWanted,
) -> HuxVerdict
    ensures verdict { IsPlayVerdict bytes.now files.now script.now result }
    ensures out { IsText out.old wanted.new.out out.new }
    ensures err { IsText err.old wanted.new.err err.new }
{
    let mut printed = Printed::new(alloc);
    let ran = play_parts(alloc, bytes, files, script, &mut printed);
    say(ran, &mut printed);
    *wanted = HuxWanted {
        out: printed.write_out(out),
        err: printed.write_err(err),
    };
    verdict(ran)
}
