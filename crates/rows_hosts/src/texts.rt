//! Rows on WIT texts: whether one is read, has a world, and is fitted, or the fault in words.

use cm_rows::{Line, NamedFiles, read_text, word, words_from};
use huxarte::components::{Signature, ValidReason, signature};
use huxarte::faults::Shown;
use huxarte::files::DecodeReason;
use huxarte::wit::{
    ConformReason, Package, WitReason, WorldFault, conforms, parse, world_signature,
};
use huxarte::{Component, decode, validate};
use std::alloc::{AllocError, Global};

/// The name of each text.
const NAME: &str = "w.wit";

/// Writes `package` where the text of these words is one, or else the fault in words.
pub fn answer_text(alloc: Global, words: &[&str], line: &mut Line) {
    let text = read_text(alloc, words, line);
    if package_of(alloc, text.as_str(), line).is_some() {
        line.put("package");
    }
}

/// Writes `world` where the text behind its full name has the world, or else the fault in words.
pub fn answer_world(alloc: Global, words: &[&str], line: &mut Line) {
    if world_of(alloc, words, line).is_some() {
        line.put("world");
    }
}

/// Writes `fits` where the component of a source fits the world of the text behind it, or else the
/// fault in words.
pub fn answer_fits(alloc: Global, files: &NamedFiles, words: &[&str], line: &mut Line) {
    let source = word(words, 0);
    let have = signature_of(alloc, files, source, line);
    let world = world_of(alloc, words_from(words, 1), line);
    let (Some(have), Some(world)) = (have, world) else {
        return;
    };
    match conforms(alloc, &have, &world) {
        Ok(()) => line.put("fits"),
        Err(fault) => {
            line.fail_if_memory(fault.reason == ConformReason::Memory);
            let name = source.strip_prefix('@').unwrap_or(source);
            show(Shown::of_signature(alloc, name, &have, &world, fault), line);
        }
    }
}

/// The package of a text; its fault is written.
fn package_of(alloc: Global, text: &str, line: &mut Line) -> Option<Package> {
    match parse(alloc, text) {
        Ok(package) => Some(package),
        Err(fault) => {
            line.fail_if_memory(fault.reason == WitReason::Memory);
            show(Shown::of_text(alloc, NAME, text, fault), line);
            None
        }
    }
}

/// The signature of the world of a full name in the text behind it; its fault is written.
pub fn world_of(alloc: Global, words: &[&str], line: &mut Line) -> Option<Signature> {
    let name = word(words, 0);
    let text = read_text(alloc, words_from(words, 1), line);
    let package = package_of(alloc, text.as_str(), line)?;
    let packages = line.kept(Vec::from_array(alloc, [package]))?;
    match world_signature(alloc, &packages, name) {
        Ok(signature) => Some(signature),
        Err(fault) => {
            line.fail_if_memory(fault == WorldFault::Memory);
            show(
                Shown::of_world(alloc, NAME, text.as_str(), name, fault),
                line,
            );
            None
        }
    }
}

/// The signature of the component of a source, which is to have a valid one.
pub fn signature_of(
    alloc: Global,
    files: &NamedFiles,
    source: &str,
    line: &mut Line,
) -> Option<Signature> {
    let bytes = files.read(alloc, source, line);
    match decode(alloc, &bytes) {
        Ok(component) => signature_in(alloc, &component, line),
        Err(fault) => {
            line.refuse_for(fault.reason == DecodeReason::Memory);
            None
        }
    }
}

/// The signature of a component, which is to be valid.
fn signature_in(alloc: Global, component: &Component, line: &mut Line) -> Option<Signature> {
    match validate(alloc, component) {
        Ok(checked) => line.kept(signature(alloc, checked)),
        Err(fault) => {
            line.refuse_for(fault.reason == ValidReason::Memory);
            None
        }
    }
}

fn show(shown: Result<Shown, AllocError>, line: &mut Line) {
    if let Some(shown) = line.kept(shown) {
        line.show(shown);
    }
}
