//! Rows on sets that are linked by choices: their plan, or why they can't be linked. Nothing is
//! kept between them.

use crate::components::read_components;
use crate::links::{checked_components, keep_if_memory, write_linked};
use cm_match::{Choices, Link, Place, link_by};
use cm_rows::{Line, NamedFiles, word, words_from};
use std::alloc::Global;

/// The answer to `by PLACES LINKS SOURCE..`: the plan of the set, or its fault.
///
/// PLACES are `-` for none, or a word for each component, with commas between: `b` where it begins
/// a group or `c` where it goes on with one, and `+` where it is seen or `-` where it is hidden.
/// LINKS are `-` for none, or words `COMPONENT.IMPORT=PROVIDER.EXPORT`, with commas between.
pub fn answer(alloc: Global, files: &NamedFiles, words: &[&str], line: &mut Line) {
    let choices = Choices {
        places: read_places(alloc, word(words, 1), line),
        links: read_links(alloc, word(words, 2), line),
    };
    let components = read_components(alloc, files, words_from(words, 3), line);
    let checked = checked_components(alloc, &components, line);
    let linked = link_by(alloc, checked, choices);
    keep_if_memory(line, &linked);
    write_linked(line, &linked);
}

fn place(begins: bool, is_seen: bool) -> Place {
    Place { begins, is_seen }
}

fn read_place(text: &str, line: &mut Line) -> Place {
    match text {
        "b+" => place(true, true),
        "b-" => place(true, false),
        "c+" => place(false, true),
        "c-" => place(false, false),
        _ => {
            line.refuse();
            place(true, true)
        }
    }
}

fn read_places(alloc: Global, text: &str, line: &mut Line) -> Vec<Place> {
    let mut places = Vec::new(alloc);
    if text == "-" {
        return places;
    }
    for text in text.split(',') {
        let place = read_place(text, line);
        line.push(&mut places, place);
    }
    places
}

fn read_links(alloc: Global, text: &str, line: &mut Line) -> Vec<Vec<Option<Link>>> {
    let mut links = Vec::new(alloc);
    if text == "-" {
        return links;
    }
    for text in text.split(',') {
        if read_link(alloc, text, &mut links, line).is_none() {
            line.refuse();
        }
    }
    links
}

/// Reads one link, and keeps it for its import, if it is one.
fn read_link(
    alloc: Global,
    text: &str,
    links: &mut Vec<Vec<Option<Link>>>,
    line: &mut Line,
) -> Option<()> {
    let (import, export) = text.split_once('=')?;
    let (importer, import) = import.split_once('.')?;
    let (provider, export) = export.split_once('.')?;
    let link = Link {
        component: line.number(provider),
        export: line.number(export),
    };
    let importer = line.number(importer);
    grow(alloc, links, importer, line);
    put_link(links.get_mut(importer)?, line.number(import), link, line);
    Some(())
}

/// Adds empty rows up to that of a component.
fn grow(alloc: Global, links: &mut Vec<Vec<Option<Link>>>, component: usize, line: &mut Line) {
    for _row in links.len()..component.saturating_add(1) {
        line.push(links, Vec::new(alloc));
    }
}

fn put_link(row: &mut Vec<Option<Link>>, import: usize, link: Link, line: &mut Line) {
    for _import in row.len()..import.saturating_add(1) {
        line.push(row, None);
    }
    if let Some(at) = row.get_mut(import) {
        *at = Some(link);
    }
}
