//! The mentions in worlds.

ghost use Rattle.std.specs.Prelude.{◌≡◌, OnOk, map};
ghost use Rattle.cm_wit_reading.specs.SignatureViews.{path_tree};
ghost use Rattle.cm_wit_reading.specs.Views.{extern_tree, file_tree, world_item_tree, world_tree};
ghost use Rattle.cm_wit_names.specs.FileMentions.{extern_marks, is_own_package, is_same_version};
ghost use Rattle.cm_wit_names.specs.FileMentions.{path_extern_marks, placed_at, world_item_marks};
ghost use Rattle.cm_wit_names.specs.FileMentions.{world_marks};
ghost use Rattle.cm_wit_names.specs.Marks.{each};
ghost use Rattle.cm_wit_names.specs.MentionViews.{Adds, full_name, mention_view};

use crate::adding::{add, bare, declaring};
use crate::func_mentions::add_func;
use crate::mention::{FullName, ListedName, Mention, Reference};
use crate::scope::Scope;
use cm_types::{Label, same_name};
use cm_wit_reading::{Path, WitFile, World, WorldExtern, WorldItem};
use cm_wit_tokens::Version;
use std::alloc::AllocError;

fn is_same_version(a: &Option<Version>, b: &Option<Version>) -> bool
    ensures { result ≡ is_same_version a.now b.now }
{
    match (a, b) {
        (None, None) => true,
        (Some(a), Some(b)) => same_name(a.as_str(), b.as_str()),
        (None, Some(_)) | (Some(_), None) => false,
    }
}

/// Whether a package of this name and version is the file's own.
fn is_own_package(
    file: &WitFile,
    namespace: &Label,
    name: &Label,
    version: &Option<Version>,
) -> bool
    ensures { result
        ≡ is_own_package (file_tree file.now) namespace.now name.now version.now }
{
    same_name(namespace.as_str(), file.namespace.as_str())
        && same_name(name.as_str(), file.package.as_str())
        && is_same_version(version, &file.version)
}

/// An interface in a list of distinct names, of the file's own package or not.
fn placed_at<'a>(in_list: usize, name: FullName<'a>, is_own: bool) -> Mention<'a>
    ensures { mention_view result ≡ placed_at in_list (full_name name.entry) is_own }
{
    let declares = Some(ListedName {
        in_list,
        name,
        is_own,
        after_self: false,
    });
    Mention { declares, ..bare() }
}

/// Adds the path of an interface that is imported or exported.
#[tactic(auto, using(crate::proofs::AddLaws::add_laws))]
fn add_path<'a>(
    out: &mut Vec<Mention<'a>>,
    file: &'a WitFile,
    in_list: usize,
    path: &'a Path,
) -> Result<(), AllocError>
    ensures { OnOk result
        (Adds (path_extern_marks (file_tree file.now) in_list (path_tree path.now))
        out.old out.new) }
{
    let full = FullName::Interface { file, path };
    match path {
        Path::Local(name) => {
            let mention = Mention {
                refers: Reference::Interface(name),
                ..placed_at(in_list, full, true)
            };
            add(out, mention)?;
            Ok(())
        }
        Path::Foreign {
            namespace,
            package,
            version,
            ..
        } => {
            let is_own = is_own_package(file, namespace, package, version);
            add(out, placed_at(in_list, full, is_own))?;
            add(out, bare())?;
            add(out, bare())?;
            Ok(())
        }
    }
}

/// Adds what is imported or exported.
#[tactic(auto, using(crate::proofs::AddLaws::add_laws))]
fn add_extern<'a>(
    out: &mut Vec<Mention<'a>>,
    file: &'a WitFile,
    in_list: usize,
    scope: Scope,
    what: &'a WorldExtern,
) -> Result<(), AllocError>
    ensures { OnOk result
        (Adds (extern_marks (file_tree file.now) in_list scope.number (extern_tree what.now))
        out.old out.new) }
{
    match what {
        WorldExtern::Interface(path) => add_path(out, file, in_list, path),
        WorldExtern::Func(name, func) => {
            add(out, declaring(in_list, FullName::Label(name)))?;
            add_func(out, false, scope.number, func)?;
            Ok(())
        }
    }
}

/// Adds the items of a world.
#[tactic(auto, using(crate::proofs::AddLaws::add_laws))]
fn add_items<'a>(
    out: &mut Vec<Mention<'a>>,
    file: &'a WitFile,
    scope: Scope,
    items: &'a [WorldItem],
) -> Result<(), AllocError>
    ensures { OnOk result (Adds
        (each (world_item_marks (file_tree file.now) scope.number) (map world_item_tree items.now))
        out.old out.new) }
{
    for item in items {
        match item {
            WorldItem::Import(what) => add_extern(out, file, scope.list(), scope, what)?,
            WorldItem::Export(what) => add_extern(out, file, scope.exports(), scope, what)?,
        }
    }
    Ok(())
}

/// Adds a world of a file.
#[tactic(auto, using(crate::proofs::AddLaws::add_laws))]
pub fn add_world<'a>(
    out: &mut Vec<Mention<'a>>,
    file: &'a WitFile,
    world: &'a World,
) -> Result<(), AllocError>
    ensures { OnOk result
        (Adds (world_marks (file_tree file.now) (world_tree world.now)) out.old out.new) }
{
    let scope = Scope::next(out);
    add(out, declaring(0, FullName::Label(&world.name)))?;
    add_items(out, file, scope, &world.items)?;
    Ok(())
}
