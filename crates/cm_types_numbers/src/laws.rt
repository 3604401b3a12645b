//! What holds of the numbers of types, as laws: each function here does nothing, and its contract
//! is the law.

ghost use Rattle.std.specs.Prelude.{◌≡◌, ℕ, List, Some};
ghost use Rattle.cm_types.specs.Types.{FuncTy, Ty};
ghost use Rattle.cm_types_arena.specs.Replaced.{Standing};
ghost use Rattle.cm_types_numbers.specs.Numbering.{AreFuncNumbers, AreNumbers, Extends, Numbering};

/// Numbers stay what they are while a table grows: those of types in their order, and those of
/// functions.
pub fn numbers_stay()
    ensures types { (old new : Numbering) (s : Standing) (ts : List Ty) (ns : List ℕ)
        → Extends old new → AreNumbers old s ts ns → AreNumbers new s ts ns }
    ensures funcs { (old new : Numbering) (s : Standing) (fs : List FuncTy) (ns : List ℕ)
        → Extends old new → AreFuncNumbers old s fs ns → AreFuncNumbers new s fs ns }
{}
