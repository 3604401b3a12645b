//! What commands do, told as objects.

use cm_hux_play::files::{
    Asked, Bundle, Fault, Linked, Object, OpenImport, Value, fault_object, part_of, tell,
};
use std::alloc::{AllocError, Global};
use std::io::Write;

/// Of each file whether it is a valid component, and else what is wrong with it.
pub(crate) fn checked_object(
    alloc: Global,
    name: &str,
    checked: &Result<(), Fault>,
) -> Result<Object, AllocError> {
    let object = Object::new(alloc).with("file", name)?;
    match checked {
        Ok(()) => object.with("ok", true),
        Err(fault) => {
            let object = object.with("ok", false)?;
            object.with("fault", fault_object(alloc, fault)?)
        }
    }
}

/// Tells that a component fits a world.
pub(crate) fn tell_fit<O: Write>(
    alloc: Global,
    asked: Asked<'_>,
    out: &mut O,
) -> Result<(), Fault> {
    let object = Object::new(alloc).with("file", asked.file)?;
    let object = object.with("wit", asked.wit)?.with("world", asked.world)?;
    tell(object.with("ok", true)?, out)?;
    out.flush()?;
    Ok(())
}

/// Tells that a file was written, with so many bytes.
pub(crate) fn tell_written<O: Write>(
    alloc: Global,
    name: &str,
    bytes: usize,
    out: &mut O,
) -> Result<(), Fault> {
    let object = Object::new(alloc).with("written", name)?;
    tell(object.with("bytes", bytes)?, out)?;
    out.flush()?;
    Ok(())
}

/// An import of a component, and what serves it: an export of a component, or nothing.
fn import_object(
    alloc: Global,
    (component, import): (usize, &str),
    served: Option<(usize, &str)>,
) -> Result<Object, AllocError> {
    let object = Object::new(alloc).with("component", component)?;
    let object = object.with("import", import)?;
    match served {
        Some((provider, export)) => object.with("provider", provider)?.with("export", export),
        None => object
            .with("provider", Value::Null)?
            .with("export", Value::Null),
    }
}

/// The name of an import of a component, by their numbers.
fn import_name<'l>(linked: &'l Linked<'_>, component: usize, import: usize) -> Option<&'l str> {
    let checked = linked.components().get(component)?;
    let import = checked.imports().get(import)?;
    Some(import.name.as_str())
}

/// The name of an export of a component, by their numbers.
fn export_name<'l>(linked: &'l Linked<'_>, component: usize, export: usize) -> Option<&'l str> {
    let checked = linked.components().get(component)?;
    let export = checked.exports().get(export)?;
    Some(export.name.as_str())
}

/// A line of the plan of a linked set.
#[derive(Clone, Copy)]
pub(crate) struct ShownLine<'l> {
    pub(crate) importer: usize,
    pub(crate) import: &'l str,
    pub(crate) provider: usize,
    pub(crate) export: &'l str,
}

/// The line of the plan at a place, counted behind so many components that are not shown; nothing
/// where one of them serves the import.
pub(crate) fn shown_line<'l>(
    linked: &'l Linked<'_>,
    hidden: usize,
    at: usize,
) -> Option<ShownLine<'l>> {
    let line = linked.plan().get(at)?;
    Some(ShownLine {
        importer: line.importer.checked_sub(hidden)?,
        import: import_name(linked, line.importer, line.import)?,
        provider: line.provider.checked_sub(hidden)?,
        export: export_name(linked, line.provider, line.export)?,
    })
}

/// Tells which export serves each import of a linked set, behind so many components that are not
/// shown.
pub(crate) fn tell_plan<O: Write>(
    alloc: Global,
    linked: &Linked<'_>,
    hidden: usize,
    out: &mut O,
) -> Result<(), Fault> {
    for at in 0..linked.plan().len() {
        if let Some(line) = shown_line(linked, hidden, at) {
            let served = Some((line.provider, line.export));
            tell(
                import_object(alloc, (line.importer, line.import), served)?,
                out,
            )?;
        }
    }
    out.flush()?;
    Ok(())
}

/// Tells these imports of files that nothing serves.
pub(crate) fn tell_open<O: Write>(
    alloc: Global,
    imports: &[OpenImport<'_>],
    out: &mut O,
) -> Result<(), Fault> {
    for open in imports {
        tell(
            import_object(alloc, (open.component, open.name), None)?,
            out,
        )?;
    }
    out.flush()?;
    Ok(())
}

/// Tells what the imports of the parts of a bundle are given.
pub(crate) fn tell_arguments<O: Write>(
    alloc: Global,
    bundle: &Bundle<'_>,
    out: &mut O,
) -> Result<(), Fault> {
    for (number, part) in bundle.parts.iter().enumerate() {
        for argument in &part.arguments {
            let served = match part_of(bundle, argument.export) {
                Some(part) => Some((part, argument.export.name)),
                None => None,
            };
            tell(import_object(alloc, (number, argument.name), served)?, out)?;
        }
    }
    out.flush()?;
    Ok(())
}
