//! Reading the files of a project.

ghost use Rattle.std.specs.Prelude.{map};
ghost use Rattle.cm_wit_projects_reading.specs.Views.{file_tree};
ghost use Rattle.cm_wit_projects.specs.Faults.{Answers};
ghost use Rattle.cm_wit_projects.specs.Files.{file_of, files_from, folders, folders_from, texts};

use crate::fault::ResolveFault;
use crate::source::Source;
use cm_wit_projects_reading::{WitFile, read_file};
use std::alloc::Global;

/// Reads the text of a file, which has this number in its folder.
fn file_of(alloc: Global, folder: usize, number: usize, text: &str) -> Result<WitFile, ResolveFault>
    ensures { Answers file_tree (file_of folder number text.now) result }
{
    match read_file(alloc, text) {
        Ok(file) => Ok(file),
        Err(fault) => Err(ResolveFault {
            folder,
            file: number,
            fault,
        }),
    }
}

/// Reads the files of a folder.
#[tactic(auto, using(crate::proofs::EachLaws::read_laws))]
fn files_of(
    alloc: Global,
    folder: usize,
    sources: &[Source<'_>],
) -> Result<Vec<WitFile>, ResolveFault>
    ensures { Answers (λ v. map file_tree v.items) (files_from folder 0 (texts sources.now))
        result }
{
    let mut files = Vec::new(alloc);
    for (number, source) in sources.iter().enumerate() {
        files.push(file_of(alloc, folder, number, source.text)?)?;
    }
    Ok(files)
}

/// Reads the files of folders, or gives the first fault of the first text that spells no file, in
/// the order in which they are handed over. It takes time linear in the texts.
#[tactic(auto, using(crate::proofs::EachLaws::read_laws))]
pub fn read_folders(
    alloc: Global,
    groups: &[&[Source<'_>]],
) -> Result<Vec<Vec<WitFile>>, ResolveFault>
    ensures { Answers (λ v. map (λ fs. map file_tree fs.items) v.items)
        (folders_from 0 (folders groups.now)) result }
{
    let mut all = Vec::new(alloc);
    for (folder, sources) in groups.iter().enumerate() {
        all.push(files_of(alloc, folder, *sources)?)?;
    }
    Ok(all)
}
