//! A call as a word of the command line says it: `NAME(VALUES)`.

use crate::arguments::commas_before;
use cm_hux_drive::files::{Escaped, Fault, type_text};
use cm_types::{Func, TypeNode, TypeTree, Value};
use cm_values::{ValueFault, ValueReason, parse};
use std::alloc::{AllocError, Global};
use std::rc::Rc;

/// A call: the name of a function, and its arguments as a text in parentheses.
#[derive(Drop)]
pub(crate) struct CallText<'a> {
    /// The whole text.
    text: &'a str,
    /// `function`, or `interface#function` for one of an instance.
    pub(crate) name: String,
    /// Where the arguments begin, in bytes.
    at: usize,
}

impl<'a> CallText<'a> {
    /// The call that a text says. The name ends where the first parenthesis stands. In the name of
    /// a function of an instance its last `.` may stand for `#`.
    pub(crate) fn read(alloc: Global, text: &'a str) -> Result<CallText<'a>, Fault> {
        match text.split_once('(') {
            Some((name, rest)) if !name.is_empty() && rest.trim_end().ends_with(')') => {
                Ok(CallText {
                    text,
                    name: full_name(alloc, name)?,
                    at: name.len(),
                })
            }
            _ => Err(Fault::Usage(format!(in alloc;
                "error: {text}: no call, expected NAME(VALUES)"
            )?)),
        }
    }

    /// The arguments, of the types of the parameters of a function.
    pub(crate) fn args(&self, alloc: Global, func: &Func) -> Result<Vec<Value>, Fault> {
        let values = self.text.get(self.at..).unwrap_or("");
        if func.params.is_empty() {
            return self.no_args(alloc, values);
        }
        let Some(tuple) = tuple_of(alloc, func)? else {
            return Err(self.refuse(alloc, "parameters that are too many")?);
        };
        match parsed(alloc, values, &tuple) {
            Ok(args) => Ok(args),
            Err(fault) => {
                let text = fault_text(alloc, func, values, self.at, fault)?;
                Err(self.refuse(alloc, text.as_str())?)
            }
        }
    }

    /// No arguments, where the parentheses have none in them.
    fn no_args(&self, alloc: Global, values: &str) -> Result<Vec<Value>, Fault> {
        match values.trim().strip_prefix('(') {
            Some(rest) if rest.trim() == ")" => Ok(Vec::new(alloc)),
            _ => Err(self.refuse(alloc, "the function has no parameters")?),
        }
    }

    /// The fault of the call: a text on what is wrong.
    pub(crate) fn refuse(&self, alloc: Global, text: &str) -> Result<Fault, AllocError> {
        let call = Escaped(self.text);
        Ok(Fault::Refused(format!(in alloc; "{call}: {text}")?))
    }
}

/// The name of a function, with `#` behind that of its interface.
fn full_name(alloc: Global, name: &str) -> Result<String, AllocError> {
    if name.contains('#') || !name.contains('/') {
        return String::from_str(alloc, name);
    }
    match name.rsplit_once('.') {
        Some((interface, function)) => format!(in alloc; "{interface}#{function}"),
        None => String::from_str(alloc, name),
    }
}

/// The values that a text in parentheses has, of the types of a tuple.
fn parsed(alloc: Global, values: &str, tuple: &TypeTree) -> Result<Vec<Value>, ValueFault> {
    match parse(alloc, values.as_bytes(), tuple) {
        Ok(Value::Fields(args)) => Ok(args),
        Ok(_) => Err(ValueFault {
            at: 0,
            reason: ValueReason::Unexpected,
        }),
        Err(fault) => Err(fault),
    }
}

/// Why values that begin at a byte of a call are none of a function's parameters: where, why, and
/// which parameter stands there.
fn fault_text(
    alloc: Global,
    func: &Func,
    values: &str,
    begin: usize,
    fault: ValueFault,
) -> Result<String, AllocError> {
    if fault.reason == ValueReason::Memory {
        return Err(AllocError);
    }
    let parameter = parameter_text(alloc, func, commas_before(values, fault.at))?;
    let (at, reason) = (begin.saturating_add(fault.at), fault.reason);
    format!(in alloc; "at {at}: {reason}: {parameter}")
}

/// The parameter of a number, from 0, in words: its number from 1, its name and its type; or how
/// many there are, where it is none of them.
fn parameter_text(alloc: Global, func: &Func, number: usize) -> Result<String, AllocError> {
    let count = func.params.len();
    let Some(field) = func.params.get(number) else {
        return format!(in alloc; "the function has parameters up to {count}");
    };
    let ty = type_text(alloc, &field.ty)?;
    let (label, number) = (field.label.as_str(), number.saturating_add(1));
    format!(in alloc; "parameter {number} of {count} is {label}: {ty}")
}

/// The tuple of the parameters of a function; none where it is too large.
fn tuple_of(alloc: Global, func: &Func) -> Result<Option<TypeTree>, AllocError> {
    let mut parts = Vec::with_capacity(alloc, func.params.len())?;
    for field in &func.params {
        parts.push(field.ty.share()?)?;
    }
    match TypeTree::new(TypeNode::Tuple(Rc::new(alloc, parts)?)) {
        Ok(tree) => Ok(Some(tree)),
        Err(_) => Ok(None),
    }
}
