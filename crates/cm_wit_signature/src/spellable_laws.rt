//! What types and definitions of WIT stand for, as laws: each function here does nothing, and its
//! contract is the law.

ghost use Rattle.std.specs.Prelude.{◌≡◌, ℕ, true, List, Ok};
ghost use Rattle.std.specs.Option.{IfSome};
ghost use Rattle.cm_types.specs.declared.resource.ResourceId.{ResourceId};
ghost use Rattle.cm_types.specs.Spellable.{is_spellable};
ghost use Rattle.cm_wit_tokens.specs.Whole.{text_reads};
ghost use Rattle.cm_wit_reading.specs.Signatures.{Func};
ghost use Rattle.cm_wit_reading.specs.Types.{Ty};
ghost use Rattle.cm_wit_reading.specs.Files.{file};
ghost use Rattle.cm_wit_reading.specs.Trees.{File, ResourceFunc, TypeDef};
ghost use Rattle.cm_wit_meanings.specs.Faults.{is_func_spellable};
ghost use Rattle.cm_wit_meanings.specs.Meanings.{def_meaning, func_meaning, meaning};
ghost use Rattle.cm_wit_meanings.specs.Meanings.{resource_func_meaning};
ghost use Rattle.cm_wit_meanings.specs.Scopes.{Scope, as_type};
ghost use Rattle.cm_wit_signature.specs.Files.{IsWrittenFile, IsWrittenFunc};
ghost use Rattle.cm_wit_signature.specs.Files.{IsWrittenResourceFunc};
ghost use Rattle.cm_wit_signature.specs.Written.{IsWritten, IsWrittenDef, NamesSpellable};

/// Where each tuple has a type or more, each list of fixed length an element or more, each record,
/// variant and enum a field or case or more, and each flags type from 1 to 32 labels, a file can
/// spell what a type, a definition or a function stands for, if it can spell what each name in it
/// stands for (Binary.md, "Type Definitions").
pub fn what_it_stands_for()
    ensures types { (s : Scope) → NamesSpellable s → (t : Ty) → IsWritten t
        → IfSome (meaning s t) (λ x. is_spellable x ≡ true) }
    ensures definitions { (s : Scope) → NamesSpellable s → (r : ResourceId) (d : TypeDef)
        → IsWrittenDef d → IfSome (def_meaning s r d) (λ m. is_spellable (as_type m) ≡ true) }
    ensures functions { (s : Scope) → NamesSpellable s → (f : Func) → IsWrittenFunc f
        → IfSome (func_meaning s f) (λ t. is_func_spellable t ≡ true) }
    ensures resource_functions { (s : Scope) → NamesSpellable s → (r : ResourceId)
        (f : ResourceFunc) → IsWrittenResourceFunc f
        → IfSome (resource_func_meaning s r f) (λ t. is_func_spellable t ≡ true) }
{}

/// A text writes nothing else: in a file that is read no tuple, record, variant, enum or flags type
/// is empty, each list of fixed length has an element or more, and each flags type has 32 labels at
/// most (WIT.md, "Item: `ty`" and "Item: `type`").
pub fn what_texts_write()
    ensures { (text : List ℕ) (f : File) → text_reads file text ≡ Ok f → IsWrittenFile f }
{}
