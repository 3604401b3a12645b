//! What holds of the index spaces of functions and instances, as laws: each function here does
//! nothing, and its contract is the law.

ghost use Rattle.std.specs.Prelude.{◌≡◌, ◌++◌, ◌∷◌, [], ℕ, List, length, true};
ghost use Rattle.cm_types.specs.DefTypes.{DefValTypeTree, DeclarationTree, FuncTypeTree};
ghost use Rattle.cm_types.specs.DefTypes.{func_def, instance_def, value_def};
ghost use Rattle.cm_types.specs.Types.{FuncTy, Ty};
ghost use Rattle.cm_types.specs.declared.def_types.OuterType.{OuterType};
ghost use Rattle.cm_binary_model.specs.declared.canons.CanonOption.{CanonOption};
ghost use Rattle.cm_binary_model.specs.declared.instances.CoreSort.{CoreSort};
ghost use Rattle.cm_binary_model.specs.Trees.{CoreInstanceTree, core_instance_export, lower};
ghost use Rattle.cm_binary_model.specs.Trees.{outer_type, resource_drop, resource_new};
ghost use Rattle.cm_binary_model.specs.Trees.{resource_rep};
ghost use Rattle.cm_validate_model.specs.Items.{Item, alias_item, canon_item, core_instance_item};
ghost use Rattle.cm_validate_model.specs.Items.{core_module_item, type_item};
ghost use Rattle.cm_validate_model.specs.Spaces.{Spaces, after_item, new_types};
ghost use Rattle.cm_validate_types.specs.Entries.{def_of, is_entry_there};
ghost use Rattle.cm_validate_types.specs.Settled.{IsEntrySettled};
ghost use Rattle.cm_validate_types.specs.declared.entries.TypeEntry.{TypeEntry};
ghost use Rattle.cm_validate_entries.specs.ComponentSpaces.{AreTypesOf, IsComponentOf, StaysAfter};
ghost use Rattle.cm_validate_entries.specs.declared.spaces.ComponentSpaces.{ComponentSpaces};

/// These items add no function, instance, resource, import or export: what stands for the spaces
/// before one of them stands for those after it.
pub fn others_add_nothing()
    ensures core_modules { StaysAfter core_module_item }
    ensures core_instances { (i : CoreInstanceTree) → StaysAfter (core_instance_item i) }
    ensures core_aliases { (sort : CoreSort) (i : ℕ) (name : List ℕ)
        → StaysAfter (alias_item (core_instance_export sort i name)) }
    ensures outer_aliases { (o : OuterType) → StaysAfter (alias_item (outer_type o)) }
    ensures value_types { (v : DefValTypeTree) → StaysAfter (type_item (value_def v)) }
    ensures func_types { (f : FuncTypeTree) → StaysAfter (type_item (func_def f)) }
    ensures instance_types { (ds : List DeclarationTree)
        → StaysAfter (type_item (instance_def ds)) }
    ensures lowers { (f : ℕ) (os : List CanonOption) → StaysAfter (canon_item (lower f os)) }
    ensures making { (i : ℕ) → StaysAfter (canon_item (resource_new i)) }
    ensures dropping { (i : ℕ) → StaysAfter (canon_item (resource_drop i)) }
    ensures reading { (i : ℕ) → StaysAfter (canon_item (resource_rep i)) }
{}

/// Entries stand for what they stood for while the arena of types grows.
pub fn entries_stay()
    ensures component { (types more : List Ty) (funcs others : List FuncTy) (c : ComponentSpaces)
        (s : Spaces) → IsComponentOf types funcs c s
        → IsComponentOf (types ++ more) (funcs ++ others) c s }
    ensures types { (types more : List Ty) (funcs others : List FuncTy) (es : List TypeEntry)
        (s : Spaces) → AreTypesOf types funcs es s
        → AreTypesOf (types ++ more) (funcs ++ others) es s }
{}

/// The types after an item: those before it, and the one that it adds, if it adds one.
pub fn types_after()
    ensures none { (types : List Ty) (funcs : List FuncTy) (es : List TypeEntry) (s : Spaces)
        (x : Item) → new_types s x ≡ [] → AreTypesOf types funcs es s
        → AreTypesOf types funcs es (after_item s x) }
    ensures one { (types : List Ty) (funcs : List FuncTy) (es : List TypeEntry) (e : TypeEntry)
        (s : Spaces) (x : Item) → new_types s x ≡ def_of types funcs e ∷ []
        → is_entry_there (length types) (length funcs) e ≡ true → IsEntrySettled types funcs e
        → AreTypesOf types funcs es s → AreTypesOf types funcs (es ++ e ∷ []) (after_item s x) }
{}
