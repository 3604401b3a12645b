//! Rows on packages.

ghost use Rattle.std.specs.Prelude.{◌≡◌, map};
ghost use Rattle.std.specs.String.{string_bytes};
ghost use Rattle.cm_wit_package.specs.PackageViews.{package_tree};
ghost use Rattle.cm_wit_worlds.specs.Interfaces as spec;
ghost use Rattle.cm_wit_worlds.specs.Interfaces.{package_name};
ghost use Rattle.cm_wit_worlds.specs.InterfaceViews.{files_of, placed_interface, placed_world};

use crate::files::package_files;
use crate::reading::write_fault;
use crate::worlds::{write_externs, write_world_fault};
use crate::{declarations, world_signatures};
use cm_rows::{Line, RowFault};
use cm_wit_package::{Package, parse};
use cm_wit_worlds::{
    Directory, PlacedInterface, PlacedWorld, WorldFault, externs_of, interfaces, package_names,
    worlds,
};
use std::alloc::Global;

/// What a row asks of packages.
#[derive(Clone, Copy)]
pub enum Question<'a> {
    /// What the world of a full name imports and exports.
    WorldOfName(&'a str),
    /// What the world of a number, among those of all packages, imports and exports.
    WorldOfNumber(usize),
    /// What the declarations of instances stand for.
    Table(&'a str),
    /// The signature of the world of a full name.
    Signature(&'a str),
    /// Whether the signature of the first of two worlds fits the second.
    Fits(&'a str, &'a str),
}

/// Writes the answer to a question of the packages of texts, or the first fault.
pub fn answer(alloc: Global, texts: &[String], question: Question, line: &mut Line) {
    let mut packages = Vec::new(alloc);
    for text in texts {
        match parse(alloc, text.as_str()) {
            Ok(package) => line.push(&mut packages, package),
            Err(fault) => return write_fault(line, fault),
        }
    }
    match question {
        Question::Signature(name) => world_signatures::answer(alloc, &packages, name, line),
        Question::Fits(have, world) => {
            world_signatures::compare(alloc, &packages, have, world, line);
        }
        _ => answer_named(alloc, &packages, question, line),
    }
}

fn answer_named(alloc: Global, packages: &[Package], question: Question, line: &mut Line) {
    let Ok(files) = package_files(alloc, packages) else {
        return line.fail(RowFault::Memory);
    };
    match package_names(alloc, &files) {
        Ok(names) => answer_in(alloc, packages, &names, question, line),
        Err(_) => line.fail(RowFault::Memory),
    }
}

/// The same, where the names of the packages are these.
fn answer_in<'a>(
    alloc: Global,
    packages: &'a [Package],
    names: &'a [String],
    question: Question,
    line: &mut Line,
)
    requires { map string_bytes names.now ≡ map package_name (map package_tree packages.now) }
{
    let Ok(files) = package_files(alloc, packages) else {
        return line.fail(RowFault::Memory);
    };
    let Ok(interfaces) = interfaces(alloc, &files) else {
        return line.fail(RowFault::Memory);
    };
    let Ok(directory) = Directory::new(alloc, files, names, &interfaces) else {
        return line.fail(RowFault::Memory);
    };
    match question {
        Question::Table(instances) => {
            declarations::answer(alloc, &directory, &interfaces, instances, line);
        }
        _ => answer_worlds(alloc, &directory, &interfaces, question, line),
    }
}

/// Writes what the world that is asked for imports and exports, in order, or the first fault, of
/// packages in a directory, whose interfaces are these.
fn answer_worlds<'a>(
    alloc: Global,
    directory: &Directory<'a>,
    interfaces: &[PlacedInterface<'a>],
    question: Question,
    line: &mut Line,
)
    requires { map placed_interface interfaces.now
        ≡ spec.interfaces (files_of directory.now.files.items) }
{
    let Ok(worlds) = worlds(alloc, &directory.files) else {
        return line.fail(RowFault::Memory);
    };
    match find_world(alloc, directory, &worlds, question, line) {
        Some(world) => answer_world(alloc, directory, interfaces, &world, line),
        None => write_world_fault(line, WorldFault::NoSuchWorld),
    }
}

/// Answers a row on a world.
fn answer_world<'a>(
    alloc: Global,
    directory: &Directory<'a>,
    interfaces: &[PlacedInterface<'a>],
    world: &PlacedWorld<'a>,
    line: &mut Line,
)
    requires { map placed_interface interfaces.now
        ≡ spec.interfaces (files_of directory.now.files.items) }
{
    match externs_of(alloc, directory, interfaces, world) {
        Ok(externs) => write_externs(alloc, interfaces, world, &externs, line),
        Err(fault) => write_world_fault(line, fault),
    }
}

fn find_world<'a>(
    alloc: Global,
    directory: &Directory<'a>,
    worlds: &[PlacedWorld<'a>],
    question: Question,
    line: &mut Line,
) -> Option<PlacedWorld<'a>>
    requires { map placed_world worlds.now ≡ spec.worlds (files_of directory.now.files.items) }
{
    let number = match question {
        Question::WorldOfName(name) => {
            line.kept(directory.world_at(alloc, worlds, name)).flatten()
        }
        Question::WorldOfNumber(number) => Some(number),
        Question::Table(_) | Question::Signature(_) | Question::Fits(..) => None,
    };
    worlds.get(number?).copied()
}
