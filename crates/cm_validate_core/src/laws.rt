//! What holds of the core index spaces, as laws: each function here does nothing, and its contract
//! is the law.

ghost use Rattle.std.specs.Prelude.{ℕ, List};
ghost use Rattle.cm_types.specs.DefTypes.{DefTypeTree};
ghost use Rattle.cm_types.specs.declared.def_types.OuterType.{OuterType};
ghost use Rattle.cm_binary_model.specs.Trees.{instance_export, outer_type};
ghost use Rattle.cm_binary_model.specs.declared.externs.Export.{Export};
ghost use Rattle.cm_binary_model.specs.declared.externs.Import.{Import};
ghost use Rattle.cm_binary_model.specs.declared.instances.InlineExport.{InlineExport};
ghost use Rattle.cm_binary_model.specs.declared.instances.InstanceExportSort.{InstanceExportSort};
ghost use Rattle.cm_validate_model.specs.Items.{alias_item, export_item, import_item};
ghost use Rattle.cm_validate_model.specs.Items.{instance_item};
ghost use Rattle.cm_validate_model.specs.Items.{type_item};
ghost use Rattle.cm_validate_core.specs.CoreSpaces.{StaysAfter};

/// These items add no core definition: what stands for the core spaces before one of them stands
/// for those after it.
pub fn others_add_nothing()
    ensures instances { (es : List InlineExport) → StaysAfter (instance_item es) }
    ensures aliases { (sort : InstanceExportSort) (i : ℕ) (name : List ℕ)
        → StaysAfter (alias_item (instance_export sort i name)) }
    ensures outer_aliases { (o : OuterType) → StaysAfter (alias_item (outer_type o)) }
    ensures types { (d : DefTypeTree) → StaysAfter (type_item d) }
    ensures imports { (i : Import) → StaysAfter (import_item i) }
    ensures exports { (e : Export) → StaysAfter (export_item e) }
{}
