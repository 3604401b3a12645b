//! The packages of a project.

ghost use Rattle.std.specs.Prelude.{◌≡◌, ◌++◌, ◌||◌, [], IfOk, OnOk, map, option_to_list};
ghost use Rattle.std.specs.List.{filter_map};
ghost use Rattle.std.specs.Option.{option_map};
ghost use Rattle.std.specs.String.{string_bytes};
ghost use Rattle.cm_types.specs.ExternNames.{version_suffix};
ghost use Rattle.cm_wit_projects_reading.specs.Views.{file_item_tree, file_tree, gated_tree};
ghost use Rattle.cm_wit_projects_reading.specs.Views.{package_name_tree};
ghost use Rattle.cm_wit_projects.specs.Files.{folders, texts};
ghost use Rattle.cm_wit_projects.specs.Packages.{again_fault, again_from, braced_package};
ghost use Rattle.cm_wit_projects.specs.Packages.{folder_faults, folder_in, has_line};
ghost use Rattle.cm_wit_projects.specs.Packages.{is_same_package};
ghost use Rattle.cm_wit_projects.specs.Packages.{line_fault, line_faults, line_package};
ghost use Rattle.cm_wit_projects.specs.Packages.{package_faults, package_of, package_text};
ghost use Rattle.cm_wit_projects.specs.Packages.{packages_from, packages_in, packages_of};
ghost use Rattle.cm_wit_projects.specs.Packages.{text_in};
ghost use Rattle.cm_wit_projects.specs.Faults.{Answers, first, none_of};
ghost use Rattle.cm_wit_projects.specs.Views.{name_view, package_view, trees};

use crate::fault::ResolveFault;
use crate::source::Source;
use cm_names::TextTable;
use cm_types::Version;
use cm_wit_projects_reading::{FileItem, Gated, PackageName, WitFile, name_place};
use cm_wit_tokens::WitReason;
use std::alloc::{AllocError, Global};

/// A package, where it is declared: its file, and how many bytes of the text are left from where
/// its declaration begins.
#[derive(Clone, Copy)]
pub struct DeclaredPackage<'a> {
    pub folder: usize,
    pub file: usize,
    pub left: usize,
    pub name: &'a PackageName,
}

fn add_version(out: &mut String, version: &Option<Version>) -> Result<(), AllocError>
    ensures { OnOk result
        (string_bytes out.new ≡ string_bytes out.old ++ version_suffix version.now) }
{
    if let Some(version) = version {
        out.push_str("@")?;
        out.push_str(version.as_str())?;
    }
    Ok(())
}

/// The name of a package with its version. Refused only where there is no memory.
pub fn package_text(alloc: Global, name: &PackageName) -> Result<String, AllocError>
    ensures { IfOk result (λ text.
        string_bytes text ≡ package_text (package_name_tree name.now)) }
{
    let mut out = String::from_str(alloc, name.namespace.as_str())?;
    out.push_str(":")?;
    out.push_str(name.name.as_str())?;
    add_version(&mut out, &name.version)?;
    Ok(out)
}

fn is_same_package(alloc: Global, a: &PackageName, b: &PackageName) -> Result<bool, AllocError>
    ensures { IfOk result (λ s.
        s ≡ is_same_package (package_name_tree a.now) (package_name_tree b.now)) }
{
    let a = package_text(alloc, a)?;
    let b = package_text(alloc, b)?;
    Ok(a.as_str() == b.as_str())
}

/// The package of a folder: that of the first line in its files.
#[tactic(auto, using(crate::proofs::PackageLaws::line_laws))]
pub fn package_of(files: &[WitFile]) -> Option<&PackageName>
    ensures { name_view result ≡ package_of (map file_tree files.now) }
{
    for file in files {
        if let Some(name) = &file.package {
            return Some(name);
        }
    }
    None
}

/// What is wrong with the line of a file of a folder that has this package. Refused only where
/// there is no memory.
fn line_fault(
    alloc: Global,
    folder: usize,
    number: usize,
    wanted: Option<&PackageName>,
    text: &str,
    file: &WitFile,
) -> Result<Option<ResolveFault>, AllocError>
    ensures { IfOk result (λ f. f
        ≡ line_fault folder number (name_view wanted.entry) text.now (file_tree file.now)) }
{
    let Some(wanted) = wanted else {
        return Ok(Some(ResolveFault::at(folder, number, 0, WitReason::UnknownName)));
    };
    let Some(line) = &file.package else {
        return Ok(None);
    };
    if is_same_package(alloc, wanted, line)? {
        return Ok(None);
    }
    let at = name_place(alloc, text, text.len(), 0)?;
    Ok(Some(ResolveFault::at(folder, number, at, WitReason::Unexpected)))
}

/// The text of a file of a folder, or none where there is no such file.
fn text_in<'a>(sources: &[Source<'a>], number: usize) -> &'a str
    ensures { result.now ≡ text_in (texts sources.now) number }
{
    match sources.get(number) {
        Some(source) => source.text,
        None => "",
    }
}

/// The text of a file, or none where there is no such file.
fn text_at<'a>(groups: &[&[Source<'a>]], folder: usize, number: usize) -> &'a str
    ensures { result.now ≡ text_in (folder_in (folders groups.now) folder) number }
{
    match groups.get(folder) {
        Some(sources) => text_in(sources, number),
        None => "",
    }
}

/// Checks the lines of the files of a folder, where the texts of all folders are these.
#[tactic(auto, using(crate::proofs::EachLaws::check_laws))]
fn check_lines(
    alloc: Global,
    groups: &[&[Source<'_>]],
    folder: usize,
    files: &[WitFile],
) -> Result<(), ResolveFault>
    ensures { Answers (λ x. x) (none_of (line_faults (folder_in (folders groups.now) folder) folder
        (package_of (map file_tree files.now)) 0 (map file_tree files.now))) result }
{
    let wanted = package_of(files);
    for (number, file) in files.iter().enumerate() {
        let text = text_at(groups, folder, number);
        if let Some(fault) = line_fault(alloc, folder, number, wanted, text, file)? {
            return Err(fault);
        }
    }
    Ok(())
}

/// Checks the lines of the files of folders, whose texts are these.
#[tactic(auto, using(crate::proofs::EachLaws::check_laws))]
fn check_folders(
    alloc: Global,
    groups: &[&[Source<'_>]],
    all: &[Vec<WitFile>],
) -> Result<(), ResolveFault>
    ensures { Answers (λ x. x) (none_of (folder_faults (folders groups.now) 0 (trees all.now)))
        result }
{
    for (folder, files) in all.iter().enumerate() {
        check_lines(alloc, groups, folder, files)?;
    }
    Ok(())
}

/// Adds the package of a folder, where a file has its first line; `size` is that of the text.
fn add_line<'a>(
    out: &mut Vec<DeclaredPackage<'a>>,
    folder: usize,
    number: usize,
    had: bool,
    text: &str,
    file: &'a WitFile,
) -> Result<(), AllocError>
    ensures { OnOk result (map package_view out.new.items ≡ map package_view out.old.items
        ++ option_to_list (line_package folder number had text.now (file_tree file.now))) }
{
    match &file.package {
        Some(name) if !had => out.push(DeclaredPackage {
            folder,
            file: number,
            left: text.len(),
            name,
        })?,
        _ => {}
    }
    Ok(())
}

/// The package in braces that an item is.
fn braced_package<'a>(
    folder: usize,
    number: usize,
    gated: &'a Gated<FileItem>,
) -> Option<DeclaredPackage<'a>>
    ensures { option_map package_view result
        ≡ braced_package folder number (gated_tree file_item_tree gated.now) }
{
    match &gated.item {
        FileItem::Item(_) => None,
        FileItem::Package(package) => Some(DeclaredPackage {
            folder,
            file: number,
            left: gated.left,
            name: &package.name,
        }),
    }
}

/// Adds the packages in braces of a file.
#[tactic(auto, using(crate::proofs::PackageLaws::find_laws))]
fn add_braced<'a>(
    out: &mut Vec<DeclaredPackage<'a>>,
    folder: usize,
    number: usize,
    items: &'a [Gated<FileItem>],
) -> Result<(), AllocError>
    ensures { OnOk result (map package_view out.new.items ≡ map package_view out.old.items
        ++ filter_map (braced_package folder number) (map (gated_tree file_item_tree) items.now)) }
{
    for item in items {
        if let Some(package) = braced_package(folder, number, item) {
            out.push(package)?;
        }
    }
    Ok(())
}

/// Adds the packages of a file, behind files of its folder that had a line or none.
fn add_packages<'a>(
    out: &mut Vec<DeclaredPackage<'a>>,
    folder: usize,
    number: usize,
    had: bool,
    text: &str,
    file: &'a WitFile,
) -> Result<(), AllocError>
    ensures { OnOk result (map package_view out.new.items ≡ map package_view out.old.items
        ++ packages_in folder number had text.now (file_tree file.now)) }
{
    add_line(out, folder, number, had, text, file)?;
    add_braced(out, folder, number, &file.items)
}

/// Whether a file has a line of its package.
fn has_line(file: &WitFile) -> bool
    ensures { result ≡ has_line (file_tree file.now) }
{
    file.package.is_some()
}

fn either(a: bool, b: bool) -> bool
    ensures { result ≡ (a || b) }
{
    a || b
}

/// Adds the packages of the files of a folder, where the texts of all folders are these.
#[tactic(auto, using(crate::proofs::PackageLaws::list_laws))]
fn add_folder<'a>(
    out: &mut Vec<DeclaredPackage<'a>>,
    groups: &[&[Source<'_>]],
    folder: usize,
    files: &'a [WitFile],
) -> Result<(), AllocError>
    ensures { OnOk result (map package_view out.new.items ≡ map package_view out.old.items
        ++ packages_from (folder_in (folders groups.now) folder) (map file_tree files.now) folder 0
        (map file_tree files.now)) }
{
    let mut had = false;
    for (number, file) in files.iter().enumerate() {
        add_packages(
            out,
            folder,
            number,
            had,
            text_at(groups, folder, number),
            file,
        )?;
        had = either(had, has_line(file));
    }
    Ok(())
}

/// The packages of folders, whose texts are these. Refused only where there is no memory.
#[tactic(auto, using(crate::proofs::PackageLaws::list_laws))]
fn packages_of<'a>(
    alloc: Global,
    groups: &[&[Source<'_>]],
    all: &'a [Vec<WitFile>],
) -> Result<Vec<DeclaredPackage<'a>>, AllocError>
    ensures { IfOk result (λ v.
        map package_view v.items ≡ packages_of (folders groups.now) 0 (trees all.now)) }
{
    let mut out = Vec::new(alloc);
    for (folder, files) in all.iter().enumerate() {
        add_folder(&mut out, groups, folder, files)?;
    }
    Ok(out)
}

/// The first package that is declared again. Refused only where there is no memory.
#[tactic(auto, using(crate::proofs::PackageLaws::again_laws))]
fn first_again<'a>(
    alloc: Global,
    packages: &[DeclaredPackage<'a>],
) -> Result<Option<DeclaredPackage<'a>>, AllocError>
    ensures { IfOk result (λ d. option_map package_view d
        ≡ first (again_from [] (map package_view packages.now))) }
{
    let mut seen = TextTable::new(alloc);
    for package in packages {
        let text = package_text(alloc, package.name)?;
        if seen.number(text.as_str()).is_some() {
            return Ok(Some(*package));
        }
        seen.add(text)?;
    }
    Ok(None)
}

/// The fault of a package that is declared again. Refused only where there is no memory.
fn again_fault(
    alloc: Global,
    groups: &[&[Source<'_>]],
    again: DeclaredPackage<'_>,
) -> Result<ResolveFault, AllocError>
    ensures { IfOk result (λ f. f ≡ again_fault (folders groups.now) (package_view again.entry)) }
{
    let text = text_at(groups, again.folder, again.file);
    let at = name_place(alloc, text, again.left, 0)?;
    Ok(ResolveFault::at(again.folder, again.file, at, WitReason::Duplicate))
}

/// Checks the packages of folders, whose texts are these, or gives their first fault.
///
/// A folder in which no file has a line of its package is a fault at its first byte
/// (`UnknownName`), and a line that differs from an earlier one of its folder at its name
/// (`Unexpected`); and then a package that is declared in two places at the second name
/// (`Duplicate`). It takes time linear in the texts, with a look-up for each package.
pub fn check_packages(
    alloc: Global,
    groups: &[&[Source<'_>]],
    all: &[Vec<WitFile>],
) -> Result<(), ResolveFault>
    ensures { Answers (λ x. x) (none_of (package_faults (folders groups.now) (trees all.now)))
        result }
{
    check_folders(alloc, groups, all)?;
    let packages = packages_of(alloc, groups, all)?;
    match first_again(alloc, &packages)? {
        Some(package) => Err(again_fault(alloc, groups, package)?),
        None => Ok(()),
    }
}
