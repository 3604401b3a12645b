//! Components by the bytes of their files.

ghost use Rattle.std.specs.Prelude.{[]};
ghost use Rattle.huxarte_c_components.specs.Fitting.{IsFitVerdict};
ghost use Rattle.huxarte_c_components.specs.Linking.{IsLinkVerdict};
ghost use Rattle.huxarte_c_components.specs.Showing.{IsShownVerdict};
ghost use Rattle.huxarte_c_components.specs.Laying.{IsLayoutVerdict};
ghost use Rattle.huxarte_c_components.specs.Plans.{IsPlanVerdict};
ghost use Rattle.huxarte_c_components.specs.Sound.{IsFileVerdict};
ghost use Rattle.huxarte_c_components.specs.Unbundling.{IsUnbundleVerdict};
ghost use Rattle.huxarte_c_calls.specs.Texts.{IsText};

use huxarte_c_calls::{HuxNode, HuxSpan, HuxVerdict};
use huxarte_c_components::{
    HuxBundle, HuxChoice, HuxPlace, HuxPlan, HuxPlanPart, check, conform, lay, link_files, plan,
    show, unbundle,
};
use std::alloc::Global;

/// Checks the bytes of a component file, which may have shims: whether they are a valid component
/// (Binary.md; Explainer.md, "Component Definitions"), of which all holds that its shims say.
///
/// The answer is `Fine`; else the first fault, which `text` shows: as many of its bytes as there is
/// room for are written, and `wanted` says how many it has.
#[unsafe(no_mangle)]
pub extern "C" fn hux_check(
    alloc: Global,
    bytes: &[u8],
    text: &mut [u8],
    wanted: &mut usize,
) -> HuxVerdict
    ensures verdict { IsFileVerdict bytes.now result }
    ensures text { IsText text.old wanted.new text.new }
{
    check(alloc, bytes, text, wanted)
}

/// Shows what the component of a file imports and exports, a line for each, in the order of its
/// file: the text that `component_tool show` prints of a file without shims.
///
/// The answer is `Fine`, and `text` has that text; else the first fault, which `text` shows. As
/// many bytes of the text as there is room for are written, and `wanted` says how many it has.
#[unsafe(no_mangle)]
pub extern "C" fn hux_show(
    alloc: Global,
    bytes: &[u8],
    text: &mut [u8],
    wanted: &mut usize,
) -> HuxVerdict
    ensures { IsShownVerdict bytes.now result text.old wanted.new text.new }
{
    show(alloc, bytes, text, wanted)
}

/// Whether the component of a file fits the world of a full name, as `a:b/w`, of a WIT text.
///
/// The answer is `Fine`; else the first fault, of the file, of the texts (`NoText`), of the WIT
/// text, of its world, or of the component against that. `text` shows it: as many of its bytes as
/// there is room for are written, and `wanted` says how many it has.
#[unsafe(no_mangle)]
pub extern "C" fn hux_conform(
    alloc: Global,
    bytes: &[u8],
    wit: &[u8],
    world: &[u8],
    text: &mut [u8],
    wanted: &mut usize,
) -> HuxVerdict
    ensures verdict { IsFitVerdict bytes.now wit.now world.now result }
    ensures text { IsText text.old wanted.new text.new }
{
    conform(alloc, bytes, wit, world, text, wanted)
}

/// Links the components of files, each a part of the bytes: each import to the only export of a
/// file before that serves it.
///
/// The answer is `Fine`, and `text` has a line for each import, which says what serves it: the
/// number of the import's file, its name, ` <- `, the number of the export's file, and its name.
/// Else the answer is the first fault, of a part, of a file, or of a link, which `text` shows. As
/// many bytes of the text as there is room for are written, and `wanted` says how many it has.
#[unsafe(no_mangle)]
pub extern "C" fn hux_link(
    alloc: Global,
    bytes: &[u8],
    files: &[HuxSpan],
    text: &mut [u8],
    wanted: &mut usize,
) -> HuxVerdict
    ensures verdict { IsLinkVerdict [] [] bytes.now files.now result }
    ensures text { IsText text.old wanted.new text.new }
{
    link_files(alloc, bytes, files, &[], &[], text, wanted)
}

/// Links the components of files as `hux_link` does, where it is chosen which exports their imports
/// see: by a choice that one alone; else those that are seen of the groups before. With no place
/// and no choice it is `hux_link`.
///
/// `places` are those of the first files, in order; behind them each file is a group of its own,
/// and seen. A choice only narrows: its export has to be of a file before, and to fit by name and
/// by type, else the import is not served. `Choice` comes behind the faults of files, and before
/// those of a link, at the place of the first choice of an import that is not there, or that has
/// one.
#[unsafe(no_mangle)]
pub extern "C" fn hux_link_by(
    alloc: Global,
    bytes: &[u8],
    files: &[HuxSpan],
    places: &[HuxPlace],
    choices: &[HuxChoice],
    text: &mut [u8],
    wanted: &mut usize,
) -> HuxVerdict
    ensures verdict { IsLinkVerdict places.now choices.now bytes.now files.now result }
    ensures text { IsText text.old wanted.new text.new }
{
    link_files(alloc, bytes, files, places, choices, text, wanted)
}

/// Takes a bundle apart, the one file of a linked set: into its files, and how they are linked.
/// With these, `hux_set_new_by` makes the set that the bundle is of, with no places.
///
/// `bytes` are those of the bundle. Where the answer is `Fine`, `texts` has its files, one behind
/// the other, `files` says which part of `texts` each is, and `choices` has the link of each
/// import, by file and import: of each as much as there is room for, and `seen` says how much there
/// is. Else the answer is the first fault, of the bundle (`Bundle`), of a file, as of `hux_link`,
/// or of what the files are given (`BundleLinks`), or `Memory`, and nothing is written. What an
/// open bundle imports is given by no file.
#[unsafe(no_mangle)]
pub extern "C" fn hux_unbundle(
    alloc: Global,
    bytes: &[u8],
    seen: &mut HuxBundle,
    files: &mut [HuxSpan],
    texts: &mut [u8],
    choices: &mut [HuxChoice],
) -> HuxVerdict
    ensures { IsUnbundleVerdict bytes.now result seen.old seen.new files.old files.new
        texts.old texts.new choices.old choices.new }
{
    unbundle(alloc, bytes, seen, files, texts, choices)
}

/// Tells how a type lies in memory, and in core values (CanonicalABI.md, "Alignment", "Element
/// Size" and "Flattening").
///
/// `component` are the bytes of a component file, `func` the index of a function of it, from 0, and
/// `way` 0 for the tuple of its parameters or 1 for its result. `path` leads from there to the
/// type: a number of a part, from 0, one of a part of that, and so on; empty it leads to the whole.
///
/// Where the answer is `Fine`, `node` has the type; else `node` stays. `NoPart` comes where the
/// function has no result, and where the path leads to no type.
#[unsafe(no_mangle)]
pub extern "C" fn hux_layout(
    alloc: Global,
    component: &[u8],
    func: u32,
    way: u32,
    path: &[u32],
    node: &mut HuxNode,
) -> HuxVerdict
    ensures { IsLayoutVerdict component.now func way path.now result node.old node.new }
{
    lay(alloc, component, func, way, path, node)
}

/// Tells what an engine needs to instantiate the core modules of a component: its definitions, in
/// order, each a part, and behind an instance what it is given (Binary.md, "Core Instance
/// Definitions", "Alias Definitions" and "Canonical Definitions").
///
/// `component` are the bytes of a component file. Where the answer is `Fine`, `parts` and `texts`
/// have as much as there is room for, and `seen` says how much there is: the texts are the bytes of
/// core modules and names, those of each part behind those of the parts before. Else the answer is
/// the first fault of the file, as of `hux_check`, or `Memory`, and nothing is written.
#[unsafe(no_mangle)]
pub extern "C" fn hux_plan(
    alloc: Global,
    component: &[u8],
    seen: &mut HuxPlan,
    parts: &mut [HuxPlanPart],
    texts: &mut [u8],
) -> HuxVerdict
    ensures { IsPlanVerdict component.now result seen.old seen.new parts.old parts.new
        texts.old texts.new }
{
    plan(alloc, component, seen, parts, texts)
}
