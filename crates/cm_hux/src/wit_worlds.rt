//! The worlds of texts and projects.

use crate::wit_faults::{at_fault, no_signature, unfit};
use crate::wit_files::{WitFile, WitFiles};
use cm_hux_play::files::{Asked, Fault, UnfitReason, of_file, text_of, world_of};
use cm_types_arena::Signature;
use cm_wit_projects_signature::{
    SignatureFault, Source, WitFault, project_signature, project_worlds, resolve,
};
use std::alloc::{AllocError, Global};

/// The texts of the files of a folder. The fault is that of the first that is no text.
fn sources_of(alloc: Global, files: &[WitFile]) -> Result<Vec<Source<'_>>, Fault> {
    let mut sources = Vec::with_capacity(alloc, files.len())?;
    for file in files {
        let name = file.name.as_str();
        match text_of(name, &file.bytes) {
            Ok(text) => sources.push(Source { name, text })?,
            Err(bad) => return Err(of_file(alloc, bad)),
        }
    }
    Ok(sources)
}

/// The texts of folders.
fn all_sources(alloc: Global, folders: &[Vec<WitFile>]) -> Result<Vec<Vec<Source<'_>>>, Fault> {
    let mut all = Vec::with_capacity(alloc, folders.len())?;
    for files in folders {
        all.push(sources_of(alloc, files)?)?;
    }
    Ok(all)
}

/// The same, lent.
fn lent<'s, 'a>(
    alloc: Global,
    all: &'s [Vec<Source<'a>>],
) -> Result<Vec<&'s [Source<'a>]>, AllocError> {
    let mut groups = Vec::with_capacity(alloc, all.len())?;
    for sources in all {
        groups.push(sources.as_slice())?;
    }
    Ok(groups)
}

/// The features that are named with commas between them.
fn features_in<'f>(alloc: Global, words: Option<&'f str>) -> Result<Vec<&'f str>, AllocError> {
    let mut features = Vec::new(alloc);
    for feature in words.unwrap_or("").split(',') {
        features.push(feature)?;
    }
    Ok(features)
}

/// The signature of a world of a project.
fn signed(
    alloc: Global,
    groups: &[&[Source<'_>]],
    features: &[&str],
    world: &str,
) -> Result<Signature, SignatureFault> {
    match resolve(alloc, groups, features) {
        Ok(project) => project_signature(alloc, &project, world),
        Err(fault) => Err(SignatureFault::At(fault)),
    }
}

/// Whether the fault of a text as a project stands behind this one of the text alone: then it is
/// the one that is told, since what stands before it is read.
fn is_behind(fault: SignatureFault, alone: WitFault) -> bool {
    match fault {
        SignatureFault::At(found) => found.fault.at > alone.at,
        SignatureFault::Memory => false,
        _ => true,
    }
}

/// The signature of a world of the only text of a project, which is none of a text alone, for this
/// reason.
fn signed_alone(
    alloc: Global,
    groups: &[&[Source<'_>]],
    features: &[&str],
    asked: Asked<'_>,
    reason: UnfitReason,
) -> Result<Signature, Fault> {
    let text = text_in(groups);
    match (signed(alloc, groups, features, asked.world), reason) {
        (Ok(signature), _) => Ok(signature),
        (Err(fault), UnfitReason::Wit(alone)) if is_behind(fault, alone) => {
            Err(no_signature(alloc, groups, asked, fault))
        }
        _ => Err(unfit(alloc, text, asked, reason)),
    }
}

/// The first text.
fn text_in<'a>(groups: &[&[Source<'a>]]) -> &'a str {
    match groups.first() {
        Some(sources) => match sources.first() {
            Some(source) => source.text,
            None => "",
        },
        None => "",
    }
}

impl WitFiles {
    /// The signature of the world that is asked for, where these features are wanted, with commas
    /// between them. A text that is a package by itself is read as `component_tool` reads it, and
    /// another one as a project of one file.
    ///
    /// The fault is that of the first file that is no text, else the first of the texts or of the
    /// world.
    pub(crate) fn signature(
        &self,
        alloc: Global,
        asked: Asked<'_>,
        features: Option<&str>,
    ) -> Result<Signature, Fault> {
        let all = all_sources(alloc, &self.folders)?;
        let groups = lent(alloc, &all)?;
        let features = features_in(alloc, features)?;
        self.signature_in(alloc, &groups, &features, asked)
    }

    /// The names of the worlds of the project's own package, where these features are wanted. The
    /// fault is that of the first file that is no text, else the first of the texts.
    pub(crate) fn worlds(
        &self,
        alloc: Global,
        wit: &str,
        features: Option<&str>,
    ) -> Result<Vec<String>, Fault> {
        let all = all_sources(alloc, &self.folders)?;
        let groups = lent(alloc, &all)?;
        let features = features_in(alloc, features)?;
        match resolve(alloc, &groups, &features) {
            Ok(project) => Ok(project_worlds(alloc, &project)?),
            Err(fault) => {
                let (world, file) = ("", wit);
                Err(at_fault(alloc, &groups, Asked { wit, world, file }, fault))
            }
        }
    }

    fn signature_in(
        &self,
        alloc: Global,
        groups: &[&[Source<'_>]],
        features: &[&str],
        asked: Asked<'_>,
    ) -> Result<Signature, Fault> {
        if self.is_project {
            return match signed(alloc, groups, features, asked.world) {
                Ok(signature) => Ok(signature),
                Err(fault) => Err(no_signature(alloc, groups, asked, fault)),
            };
        }
        match world_of(alloc, text_in(groups), asked.world) {
            Ok(signature) => Ok(signature),
            Err(reason) => signed_alone(alloc, groups, features, asked, reason),
        }
    }
}
