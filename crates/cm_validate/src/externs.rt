//! What a component exports, each by the places of its types.

ghost use Rattle.std.specs.Prelude.{IfOk, List, OnOk};
ghost use Rattle.cm_types.specs.Types.{FuncTy, Ty};
ghost use Rattle.cm_validate_model.specs.Spaces.{Spaces};
ghost use Rattle.cm_validate_items.specs.Shared.{AreShared};
ghost use Rattle.cm_validate.specs.Made.{AreExportsOf, AreExternsOf, AreMade};
ghost use Rattle.cm_validate.specs.Made.{InEachArena};
ghost use Rattle.cm_validate.specs.Made.{IsDescOf, IsExternOf};

use crate::items::func_place;
use crate::made::Made;
use cm_types_arena::placed_laws::unmoved;
use cm_types_arena::{Extern, ExternDesc};
use cm_validate_entries::{ExportEntry, ExportedEntry};
use cm_validate_items::Shared;
use std::alloc::{AllocError, Global};

/// What an export is, of the instance of this number, if it has one.
fn extern_desc(
    alloc: Global,
    made: &mut Made,
    number: Option<usize>,
    def: &ExportedEntry<'_>,
) -> Result<ExternDesc, AllocError>
    ensures is { IfOk result (λ d. InEachArena made.old number def.now
        (λ types funcs s. IsDescOf types funcs def.now d)) }
    ensures made { OnOk result (InEachArena made.old number def.now
        (λ types funcs s. AreMade types funcs s made.new)) }
{
    unmoved();
    match def {
        ExportedEntry::Func(func) => Ok(ExternDesc::Func(func_place(*func))),
        ExportedEntry::Instance(instance) => Ok(ExternDesc::Instance {
            ty: made.instance_type(alloc, number, instance)?,
            by: None,
        }),
    }
}

/// An export, of the instance of this number, if it has one.
fn exported_extern(
    alloc: Global,
    made: &mut Made,
    number: Option<usize>,
    export: &ExportEntry<'_>,
) -> Result<Extern, AllocError>
    ensures is { IfOk result (λ e. InEachArena made.old number export.now.def
        (λ types funcs s. IsExternOf types funcs export.now e)) }
    ensures made { OnOk result (InEachArena made.old number export.now.def
        (λ types funcs s. AreMade types funcs s made.new)) }
{
    let name = export.name.clone()?;
    let desc = extern_desc(alloc, made, number, &export.def)?;
    Ok(Extern { name, desc })
}

/// The exports, in order. Those that are one instance share its type.
pub(crate) fn exported_externs(
    alloc: Global,
    shared: &Shared,
    exports: &[ExportEntry<'_>],
) -> Result<Vec<Extern>, AllocError>
    ensures { IfOk result (λ es. (types : List Ty) (funcs : List FuncTy) (s : Spaces)
        → AreShared s shared.now → AreExportsOf types funcs s exports.now
        → AreExternsOf types funcs exports.now es.items) }
{
    let mut made = Made::new(alloc);
    let mut externs = Vec::with_capacity(alloc, exports.len())?;
    for (at, export) in exports.iter().enumerate() {
        let number = shared.exported_instance(at);
        externs.push(exported_extern(alloc, &mut made, number, export)?)?;
    }
    Ok(externs)
}
