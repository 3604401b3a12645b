//! Values as rows spell them.
//!
//! A value is words in prefix order: `list:COUNT` and `fields:COUNT` stand before their values, and
//! `case:INDEX` before its payload, where `-` is none. The others are one word: `bool:true`,
//! `signed:NUMBER`, `unsigned:NUMBER`, `char:CHAR`, `string:TEXT` and `flags:NUMBER`.

use cm_rows::Line;
use cm_types::Value;
use std::alloc::Global;

/// The value that words spell.
pub fn read_value(alloc: Global, words: &[&str], line: &mut Line) -> Option<Value> {
    let mut stack = ValueStack {
        payloads: Vec::new(alloc),
    };
    for word in words.iter().rev() {
        let payload = match word.split_once(':') {
            Some((name, operand)) => stack.read_word(alloc, name, operand, line),
            None => None,
        };
        line.push(&mut stack.payloads, payload);
    }
    if stack.payloads.len() != 1 {
        line.refuse();
    }
    stack.pop(line)
}

/// The values, or places of no value, that are read so far, from the last one of the row on.
#[derive(Drop)]
struct ValueStack {
    payloads: Vec<Option<Value>>,
}

impl ValueStack {
    fn read_word(
        &mut self,
        alloc: Global,
        name: &str,
        operand: &str,
        line: &mut Line,
    ) -> Option<Value> {
        Some(match name {
            "list" => Value::List(self.pop_several(alloc, line.number(operand), line)),
            "fields" => Value::Fields(self.pop_several(alloc, line.number(operand), line)),
            "case" => Value::Case {
                index: line.number(operand),
                payload: self.pop_boxed(alloc, line),
            },
            "string" => Value::String(line.kept(String::from_str(alloc, operand))?),
            name => read_number_value(name, operand, line),
        })
    }

    fn pop(&mut self, line: &mut Line) -> Option<Value> {
        line.wanted(self.payloads.pop().flatten())
    }

    fn pop_boxed(&mut self, alloc: Global, line: &mut Line) -> Option<Box<Value>> {
        let payload = line.wanted(self.payloads.pop()).flatten()?;
        line.kept(Box::new(alloc, payload))
    }

    fn pop_several(&mut self, alloc: Global, count: usize, line: &mut Line) -> Vec<Value> {
        let mut values = Vec::new(alloc);
        for _ in 0..count {
            let Some(value) = self.pop(line) else {
                break;
            };
            line.push(&mut values, value);
        }
        values
    }
}

fn read_number_value(name: &str, operand: &str, line: &mut Line) -> Value {
    match name {
        "bool" => Value::Bool(operand == "true"),
        "signed" => Value::Signed(line.number(operand)),
        "unsigned" => Value::Unsigned(line.number(operand)),
        "char" => Value::Char(line.wanted(operand.chars().next()).unwrap_or('?')),
        "flags" => Value::Flags(line.number(operand)),
        _ => {
            line.refuse();
            Value::Bool(false)
        }
    }
}
