//! What the first faulty declaration tells, as laws: each function here does nothing, and its
//! contract is the law.

ghost use Rattle.std.specs.Prelude.{◌≡◌, List, [], Some, None};
ghost use Rattle.cm_types.specs.DefTypes.{DeclarationTree};
ghost use Rattle.cm_validate_model.specs.declared.fault.ValidReason.{ValidReason};
ghost use Rattle.cm_validate_model.specs.Declarations.{Scope, declarations_broken};
ghost use Rattle.cm_validate_instances.specs.FirstFaults.{first_reason};

/// Declarations violate no rule exactly where none is the first to violate one.
pub fn first_reasons()
    ensures none { (s : Scope) (ds : List DeclarationTree)
        → first_reason s ds ≡ None → declarations_broken s ds ≡ [] }
    ensures some { (s : Scope) (ds : List DeclarationTree) (r : ValidReason)
        → first_reason s ds ≡ Some r → declarations_broken s ds ≡ [] → ⊥ }
{}
