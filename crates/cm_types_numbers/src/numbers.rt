//! A table of numbers.

ghost use Rattle.std.specs.Prelude.{◌≡◌, IfOk, Some, List, ℕ};
ghost use Rattle.cm_types.specs.Types.{FuncTy, Ty};
ghost use Rattle.cm_types_arena.specs.Replaced.{Standing};
ghost use Rattle.cm_types_numbers.specs.Numbering.{Agree, AgreeFuncs, AreFuncNumbers, AreNumbers};
ghost use Rattle.cm_types_numbers.specs.Numbering.{Extends, IsBlank, TellsFuncs, TellsTypes};
ghost use Rattle.cm_types_numbers.specs.Numbering.{numbering};

use crate::key::Key;
use crate::nodes::NodeNumbers;
use cm_names::TextNumbers;
use std::alloc::{AllocError, Global};

/// A number for each type, each once: two types have one number exactly where they are equal.
#[derive(Drop)]
pub struct Numbers {
    texts: TextNumbers,
    nodes: NodeNumbers,
}

impl Numbers {
    /// No type has a number yet.
    pub fn new(alloc: Global) -> Numbers
        ensures { IsBlank (numbering result) }
    {
        Numbers {
            texts: TextNumbers::new(alloc),
            nodes: NodeNumbers::new(alloc),
        }
    }

    /// The number of a label.
    pub(crate) fn label(&mut self, text: &str) -> Result<usize, AllocError>
        ensures number { IfOk result (λ n. (numbering self.new).label text.now ≡ Some n) }
        ensures kept { Extends (numbering self.old) (numbering self.new) }
    {
        self.texts.number(text)
    }

    /// The number of a node.
    pub(crate) fn node(&mut self, key: Key) -> Result<usize, AllocError>
        ensures number { IfOk result (λ n. (numbering self.new).node key ≡ Some n) }
        ensures kept { Extends (numbering self.old) (numbering self.new) }
    {
        self.nodes.number(key)
    }

    /// A law: numbers of one table tell types apart, and types of functions.
    pub fn tell_apart(&self)
        // Two numbers are equal exactly where the types are.
        ensures types { TellsTypes (numbering self.now) }
        ensures funcs { TellsFuncs (numbering self.now) }
        // So are those of two lists of types, each with its resources replaced.
        ensures places { (left right : Standing) (xs ys : List Ty) (ms ns : List ℕ)
            → AreNumbers (numbering self.now) left xs ms
            → AreNumbers (numbering self.now) right ys ns → Agree left right xs ys ms ns }
        ensures func_places { (left right : Standing) (xs ys : List FuncTy) (ms ns : List ℕ)
            → AreFuncNumbers (numbering self.now) left xs ms
            → AreFuncNumbers (numbering self.now) right ys ns
            → AgreeFuncs left right xs ys ms ns }
    {}
}
