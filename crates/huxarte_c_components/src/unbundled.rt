//! What is handed out of a bundle.

ghost use Rattle.std.specs.Prelude.{◌≡◌, ◌++◌, ◌∷◌, [], IfOk, List, OnErr, OnOk, length, map, ℕ};
ghost use Rattle.cm_match_serving.specs.Candidates.{each_from};
ghost use Rattle.huxarte_c_components.specs.Unbundling.{IsHandedOut, bytes_of, choice_of};
ghost use Rattle.huxarte_c_components.specs.Unbundling.{choices_from, spans_from};

use crate::choosing::HuxChoice;
use cm_bundle_links::{Link, Part};
use huxarte_c_calls::{HuxSpan, write_items};
use std::alloc::{AllocError, Global};

/// How much a bundle has.
#[repr(C)]
#[derive(Clone, Copy)]
pub struct HuxBundle {
    /// How many files it has.
    pub files: usize,
    /// How many bytes they have together.
    pub bytes: usize,
    /// How many imports they have, for each of which there is a choice.
    pub choices: usize,
}

/// Files one behind the other, and where each of them stands.
#[derive(Drop)]
struct Files {
    bytes: Vec<u8>,
    spans: Vec<HuxSpan>,
}

/// The files of parts.
fn files_of(alloc: Global, parts: &[Part<'_>]) -> Result<Files, AllocError>
    ensures bytes { IfOk result (λ out.
        out.bytes.items ≡ bytes_of (map (λ p. p.file.now) parts.now)) }
    ensures spans { IfOk result (λ out.
        out.spans.items ≡ spans_from 0 (map (λ p. p.file.now) parts.now)) }
{
    let mut bytes = Vec::new(alloc);
    let mut spans = Vec::new(alloc);
    for part in parts {
        spans.push(HuxSpan {
            at: bytes.len(),
            length: part.file.len(),
        })?;
        bytes.extend_from_slice(part.file)?;
    }
    Ok(Files { bytes, spans })
}

/// Adds the choices of the links of the imports of a file.
fn add_choices(
    choices: &mut Vec<HuxChoice>,
    importer: usize,
    row: &[Link],
) -> Result<(), AllocError>
    ensures { OnOk result (choices.new.items
        ≡ choices.old.items ++ each_from (choice_of importer) 0 row.now) }
{
    for (import_at, link) in row.iter().enumerate() {
        choices.push(HuxChoice {
            importer,
            import_at,
            provider: link.component,
            export_at: link.export,
        })?;
    }
    Ok(())
}

/// The choices of the links of files, by file and import.
fn choices_of(alloc: Global, rows: &[Vec<Link>]) -> Result<Vec<HuxChoice>, AllocError>
    ensures { IfOk result (λ choices.
        choices.items ≡ choices_from 0 (map (λ r. r.items) rows.now)) }
{
    let mut choices = Vec::new(alloc);
    for (importer, row) in rows.iter().enumerate() {
        add_choices(&mut choices, importer, row)?;
    }
    Ok(choices)
}

/// Writes the files of parts and their links into buffers, as much as there is room for.
pub(crate) fn hand_out(
    alloc: Global,
    parts: &[Part<'_>],
    rows: &[Vec<Link>],
    files: &mut [HuxSpan],
    texts: &mut [u8],
    choices: &mut [HuxChoice],
) -> Result<HuxBundle, AllocError>
    ensures out { IfOk result (λ seen. IsHandedOut (map (λ p. p.file.now) parts.now)
        (map (λ r. r.items) rows.now) seen files.old files.new texts.old texts.new
        choices.old choices.new) }
    ensures stays { OnErr result
        ((files.new ≡ files.old) × (texts.new ≡ texts.old) × (choices.new ≡ choices.old)) }
{
    let out = files_of(alloc, parts)?;
    let chosen = choices_of(alloc, rows)?;
    Ok(HuxBundle {
        files: write_items(files, &out.spans),
        bytes: write_items(texts, &out.bytes),
        choices: write_items(choices, &chosen),
    })
}
