//! Types as trees, as rows spell them.
//!
//! A type is words in prefix order: `list`, `option` and `fixed:LENGTH` stand before the type that
//! they hold, `twice` before the one that a tuple of two shares, `tuple:COUNT` and `record:LABELS`
//! before those of their fields, `variant:LABELS` before the payloads of its cases and `result`
//! before its two, where `-` is no payload. Leaves are named, `enum:LABELS`, `flags:LABELS`,
//! `own:COMPONENT.NUMBER` and `borrow:COMPONENT.NUMBER` among them. LABELS are joined by commas.
//! `N*` before a word or a label stands for N of them.

use crate::line::Line;
use crate::named_types::{named, primitive_named, read_labels, read_resource};
use crate::words::{split_repeat, word};
use cm_types::{Case, Field, Func, Label, TypeNode, TypeTree};
use cm_types_arena::Primitive;
use std::alloc::Global;
use std::rc::Rc;

/// The function whose parameters' types stand before `->` and whose result's type, or `-`, after
/// it. Each parameter is called `a`.
pub fn read_func(alloc: Global, words: &[&str], line: &mut Line) -> Option<Func> {
    let (params, answer) = line.split(words, "->");
    let answer = match word(answer, 0) {
        "-" => None,
        _ => read_tree(alloc, answer, line),
    };
    make_func(alloc, params, answer, line)
}

/// The function with parameters of the types that words spell, each called `a`, and this result.
pub fn make_func(
    alloc: Global,
    params: &[&str],
    answer: Option<TypeTree>,
    line: &mut Line,
) -> Option<Func> {
    let params = read_params(alloc, params, line);
    line.wanted(Func::new(params, answer).ok())
}

/// Parameters of the types that words spell, each of which is called `a`.
pub fn read_params(alloc: Global, words: &[&str], line: &mut Line) -> Vec<Field> {
    let types = read_types(alloc, words, line);
    let mut fields = Vec::new(alloc);
    for ty in types {
        if let Some(label) = named(Label::parse(alloc, "a"), line) {
            line.push(&mut fields, Field { label, ty });
        }
    }
    fields
}

/// The type that words spell, which is to be within the limits.
pub fn read_tree(alloc: Global, words: &[&str], line: &mut Line) -> Option<TypeTree> {
    let ty = read_type(alloc, words, line)?;
    line.wanted(TypeTree::new(ty).ok())
}

/// The type that words spell, if they spell one alone.
pub fn read_type(alloc: Global, words: &[&str], line: &mut Line) -> Option<TypeNode> {
    let mut types = read_types(alloc, words, line);
    if types.len() != 1 {
        line.refuse();
    }
    types.pop()
}

/// The types that words spell, one after another.
fn read_types(alloc: Global, words: &[&str], line: &mut Line) -> Vec<TypeNode> {
    let mut stack = TypeStack {
        payloads: Vec::new(alloc),
    };
    for word in words.iter().rev() {
        let (times, word) = split_repeat(word);
        for _ in 0..times {
            stack.push_word(alloc, word, line);
        }
    }
    let count = stack.payloads.len();
    stack.pop_several(alloc, count, line)
}

/// The types, or places of no type, that are read so far, from the last one of the row on.
#[derive(Drop)]
struct TypeStack {
    payloads: Vec<Option<TypeNode>>,
}

impl TypeStack {
    fn push_word(&mut self, alloc: Global, word: &str, line: &mut Line) {
        let payload = match word.split_once(':') {
            Some((name, operand)) => self.with_operand(alloc, name, operand, line),
            None if word == "-" => None,
            None => self.plain(alloc, word, line),
        };
        line.push(&mut self.payloads, payload);
    }

    fn plain(&mut self, alloc: Global, word: &str, line: &mut Line) -> Option<TypeNode> {
        match word {
            "list" => Some(TypeNode::List(self.pop_part(alloc, line)?)),
            "option" => Some(TypeNode::Option(self.pop_part(alloc, line)?)),
            "twice" => self.twice(alloc, line),
            "result" => Some(TypeNode::Result {
                ok: self.pop_shared(alloc, line),
                error: self.pop_shared(alloc, line),
            }),
            word => read_leaf(word, line),
        }
    }

    fn twice(&mut self, alloc: Global, line: &mut Line) -> Option<TypeNode> {
        let part = self.pop(line)?;
        let mut parts = Vec::new(alloc);
        if let Some(shared) = line.kept(part.share()) {
            line.push(&mut parts, shared);
        }
        line.push(&mut parts, part);
        Some(TypeNode::Tuple(line.kept(Rc::new(alloc, parts))?))
    }

    fn with_operand(
        &mut self,
        alloc: Global,
        name: &str,
        operand: &str,
        line: &mut Line,
    ) -> Option<TypeNode> {
        Some(match name {
            "fixed" => TypeNode::FixedList {
                element: self.pop_part(alloc, line)?,
                length: line.number(operand),
            },
            "tuple" => {
                let parts = self.pop_several(alloc, line.number(operand), line);
                TypeNode::Tuple(line.kept(Rc::new(alloc, parts))?)
            }
            "own" => TypeNode::Own(read_resource(operand, line)),
            "borrow" => TypeNode::Borrow(read_resource(operand, line)),
            name => return self.of_labels(alloc, name, read_labels(alloc, operand, line), line),
        })
    }

    /// A record, a variant, an enum or flags, of these labels.
    fn of_labels(
        &mut self,
        alloc: Global,
        name: &str,
        labels: Vec<Label>,
        line: &mut Line,
    ) -> Option<TypeNode> {
        Some(match name {
            "record" => {
                let fields = self.pop_fields(alloc, labels, line);
                TypeNode::Record(line.kept(Rc::new(alloc, fields))?)
            }
            "variant" => {
                let cases = self.pop_cases(alloc, labels, line);
                TypeNode::Variant(line.kept(Rc::new(alloc, cases))?)
            }
            "enum" => TypeNode::Enum(line.kept(Rc::new(alloc, labels))?),
            "flags" => TypeNode::Flags(line.kept(Rc::new(alloc, labels))?),
            _ => return line.wanted(None),
        })
    }

    /// The type that stands next, or that none does.
    fn pop_payload(&mut self, line: &mut Line) -> Option<TypeNode> {
        line.wanted(self.payloads.pop()).flatten()
    }

    /// The type that stands next.
    fn pop(&mut self, line: &mut Line) -> Option<TypeNode> {
        line.wanted(self.payloads.pop().flatten())
    }

    fn pop_part(&mut self, alloc: Global, line: &mut Line) -> Option<Rc<TypeNode>> {
        let part = self.pop(line)?;
        line.kept(Rc::new(alloc, part))
    }

    fn pop_shared(&mut self, alloc: Global, line: &mut Line) -> Option<Rc<TypeNode>> {
        let part = self.pop_payload(line)?;
        line.kept(Rc::new(alloc, part))
    }

    fn pop_several(&mut self, alloc: Global, count: usize, line: &mut Line) -> Vec<TypeNode> {
        let mut types = Vec::new(alloc);
        for _ in 0..count {
            let Some(ty) = self.pop(line) else {
                break;
            };
            line.push(&mut types, ty);
        }
        types
    }

    fn pop_fields(&mut self, alloc: Global, labels: Vec<Label>, line: &mut Line) -> Vec<Field> {
        let mut fields = Vec::new(alloc);
        for label in labels {
            if let Some(ty) = self.pop(line) {
                line.push(&mut fields, Field { label, ty });
            }
        }
        fields
    }

    fn pop_cases(&mut self, alloc: Global, labels: Vec<Label>, line: &mut Line) -> Vec<Case> {
        let mut cases = Vec::new(alloc);
        for label in labels {
            let payload = self.pop_payload(line);
            line.push(&mut cases, Case { label, payload });
        }
        cases
    }
}

fn read_leaf(word: &str, line: &mut Line) -> Option<TypeNode> {
    let primitive = line.wanted(primitive_named(word))?;
    Some(match primitive {
        Primitive::Bool => TypeNode::Bool,
        Primitive::S8 => TypeNode::S8,
        Primitive::U8 => TypeNode::U8,
        Primitive::S16 => TypeNode::S16,
        Primitive::U16 => TypeNode::U16,
        Primitive::S32 => TypeNode::S32,
        Primitive::U32 => TypeNode::U32,
        Primitive::S64 => TypeNode::S64,
        Primitive::U64 => TypeNode::U64,
        Primitive::Char => TypeNode::Char,
        Primitive::String => TypeNode::String,
    })
}
