//! Signatures in rows: `TYPES | IMPORTS | EXPORTS`.
//!
//! TYPES are items as in rows on types by places. IMPORTS and EXPORTS are joined by `;`. One is
//! `NAME func PLACE`, with the place of a type of a function, `NAME instance MOVE ITEM , ITEM ..`,
//! or `NAME same MOVE`, which shares the type of the instance before it. An item is
//! `NAME func PLACE`, `NAME type PLACE`, `NAME equal NUMBER` or `NAME fresh NUMBER`, the last two
//! with the number of a resource. MOVE is `FIRST,COUNT,NEXT`, or `-` for none; behind a place it
//! may be left out. `N*` before the name of an import or an export stands for N of them, and `-`
//! for no types, imports, exports or items.

ghost use Rattle.std.specs.Prelude.{◌≡◌, length};
ghost use Rattle.cm_types_arena.specs.Instances.{are_items_there, is_desc_there};
ghost use Rattle.cm_types_arena.specs.Externs.{are_externs_in, is_extern_there};

use cm_rows::{Arena, Line, Places, read_move, read_name, split_repeat, word, words_from};
use cm_types_arena::{
    Extern, ExternDesc, Externs, InstanceType, Item, ItemDesc, Move, NumberedExterns, Placed,
    Signature, Types,
};
use std::alloc::Global;
use std::rc::Rc;

pub fn read_signature(alloc: Global, words: &[&str], line: &mut Line) -> Option<Signature> {
    let (types, externs) = line.split(words, "|");
    let (imports, exports) = line.split(externs, "|");
    let types = read_types(alloc, types, line)?;
    let places = Places::of(alloc, &types);
    let imports = read_externs(alloc, places, imports, line);
    let exports = read_externs(alloc, places, exports, line);
    if !are_there(&types, &imports) || !are_there(&types, &exports) {
        line.refuse();
        return None;
    }
    Some(Signature::new(
        types,
        Externs::OfComponent(NumberedExterns::unnumbered(alloc, imports)),
        Externs::OfComponent(NumberedExterns::unnumbered(alloc, exports)),
    ))
}

fn read_types(alloc: Global, words: &[&str], line: &mut Line) -> Option<Types> {
    if is_empty(words) {
        return line.kept(Types::new(alloc));
    }
    let Arena { types, .. } = Arena::read(alloc, words, line)?;
    Some(types)
}

fn is_empty(words: &[&str]) -> bool {
    words.len() == 1 && word(words, 0) == "-"
}

/// Whether all places are in the arena.
fn are_there(types: &Types, externs: &[Extern]) -> bool
    ensures { result ≡ are_externs_in types.now externs.now }
{
    let (types, funcs) = (types.len(), types.func_count());
    externs
        .iter()
        .all(|each| is_there(types, funcs, &each.desc))
}

fn is_there(types: usize, funcs: usize, desc: &ExternDesc) -> bool
    ensures { result ≡ is_extern_there types funcs desc.now }
{
    match desc {
        ExternDesc::Func(placed) => placed.is_there(funcs),
        ExternDesc::Instance { ty, .. } => are_items_there(types, funcs, &ty.items),
    }
}

fn are_items_there(types: usize, funcs: usize, items: &[Item]) -> bool
    ensures { result ≡ are_items_there types funcs items.now }
{
    items
        .iter()
        .all(|item| is_item_there(types, funcs, item.desc))
}

fn is_item_there(types: usize, funcs: usize, desc: ItemDesc) -> bool
    ensures { result ≡ is_desc_there types funcs desc }
{
    match desc {
        ItemDesc::Func(placed) => placed.is_there(funcs),
        ItemDesc::EqualType(placed) => placed.is_there(types),
        ItemDesc::EqualResource(_) | ItemDesc::FreshResource(_) => true,
    }
}

fn read_externs(alloc: Global, places: Places, words: &[&str], line: &mut Line) -> Vec<Extern> {
    let mut externs = Vec::new(alloc);
    if is_empty(words) {
        return externs;
    }
    let mut last = None;
    for words in words.split(|word| *word == ";") {
        let desc = words_from(words, 1);
        if word(desc, 0) == "instance" {
            let ty = read_instance(alloc, places, words_from(desc, 2), line);
            last = line.kept(Rc::new(alloc, ty));
        }
        push_externs(alloc, &mut externs, last.as_ref(), words, line);
    }
    externs
}

/// Adds an import or an export, as often as its name says; an instance is one of this type.
fn push_externs(
    alloc: Global,
    externs: &mut Vec<Extern>,
    ty: Option<&Rc<InstanceType>>,
    words: &[&str],
    line: &mut Line,
) {
    let (times, text) = split_repeat(word(words, 0));
    for _ in 0..times {
        let Some(name) = read_name(alloc, text, line) else {
            break;
        };
        if let Some(desc) = read_desc(ty, words_from(words, 1), line) {
            line.push(externs, Extern { name, desc });
        }
    }
}

/// What an import or an export is; of an instance, one of this type.
fn read_desc(ty: Option<&Rc<InstanceType>>, words: &[&str], line: &mut Line) -> Option<ExternDesc> {
    match word(words, 0) {
        "func" => Some(ExternDesc::Func(read_func(words, line))),
        "instance" | "same" => {
            let shared: Result<_, _> = line.wanted(ty)?.clone();
            Some(ExternDesc::Instance {
                ty: line.kept(shared)?,
                by: read_by(word(words, 1), line),
            })
        }
        _ => line.wanted(None),
    }
}

/// A move; `-` or nothing for none.
fn read_by(word: &str, line: &mut Line) -> Option<Move> {
    match word {
        "-" | "" => None,
        word => read_move(word, line),
    }
}

fn read_instance(alloc: Global, places: Places, words: &[&str], line: &mut Line) -> InstanceType {
    let mut items = Vec::new(alloc);
    if !is_empty(words) {
        for words in words.split(|word| *word == ",") {
            if let Some(name) = read_name(alloc, word(words, 0), line) {
                let desc = read_item(places, words_from(words, 1), line);
                line.push(&mut items, Item { name, desc });
            }
        }
    }
    InstanceType {
        items,
        first: 0,
        fresh: 0,
    }
}

fn read_item(places: Places, words: &[&str], line: &mut Line) -> ItemDesc {
    let number = word(words, 1);
    match word(words, 0) {
        "func" => ItemDesc::Func(read_func(words, line)),
        "type" => ItemDesc::EqualType(Placed {
            place: places.read(number, line),
            by: read_by(word(words, 2), line),
        }),
        "equal" => ItemDesc::EqualResource(line.number(number)),
        "fresh" => ItemDesc::FreshResource(line.number(number)),
        _ => {
            line.refuse();
            ItemDesc::FreshResource(0)
        }
    }
}

/// The type of a function, behind the word that says that it is one.
fn read_func(words: &[&str], line: &mut Line) -> Placed {
    Placed {
        place: line.number(word(words, 1)),
        by: read_by(word(words, 2), line),
    }
}
