//! The calls that make stubs.

ghost use Rattle.std.specs.Prelude.{IfOk, OnOk};
ghost use Rattle.std.specs.List.{AllByRecursion};
ghost use Rattle.cm_validate_model.specs.Valid.{IsValid};
ghost use Rattle.cm_stubs.specs.Stubs.{IsCaller, IsProvider, LinksOver, LinksUnder};

use crate::checked::{checked_of, is_caller, is_provider, link_over, link_under};
use crate::fault::StubFault;
use cm_binary_model::Component;
use cm_match::{Checked, ExportEntry, LinkFault, LinkReason};
use cm_stubs_written::{Asked, caller_written, names_of, provider_written};
use cm_types::ExternName;
use cm_types_arena::Signature;
use cm_validate::{signature, validate};
use std::alloc::{AllocError, Global};

/// What these import, list by list, and the names of what they export.
#[derive(Drop)]
struct AllAsked<'a> {
    asked: Vec<Asked<'a>>,
    exported: Vec<Vec<ExternName>>,
}

/// The names of what a valid component exports, in order.
fn exported_names_of(
    alloc: Global,
    exports: &[ExportEntry<'_>],
) -> Result<Vec<ExternName>, AllocError> {
    let mut names = Vec::with_capacity(alloc, exports.len())?;
    for export in exports {
        names.push(export.name.clone()?)?;
    }
    Ok(names)
}

/// What signatures import and export.
fn asked_of_signatures<'a>(
    alloc: Global,
    signatures: &'a [Signature],
) -> Result<AllAsked<'a>, StubFault> {
    let mut asked = Vec::new(alloc);
    let mut exported = Vec::new(alloc);
    for each in signatures {
        asked.push(Asked::of_externs(alloc, each.types(), each.imports())?)?;
        exported.push(names_of(alloc, each.exports())?)?;
    }
    Ok(AllAsked { asked, exported })
}

/// What valid components import and export.
fn asked_of_components<'a>(
    alloc: Global,
    components: &'a [Checked<'_>],
) -> Result<AllAsked<'a>, StubFault> {
    let mut asked = Vec::new(alloc);
    let mut exported = Vec::new(alloc);
    for each in components {
        asked.push(Asked::of_imports(alloc, each.types(), each.imports())?)?;
        exported.push(exported_names_of(alloc, each.exports())?)?;
    }
    Ok(AllAsked { asked, exported })
}

/// The provider of what valid components import, which is not judged yet.
fn provider_of(alloc: Global, components: &[Checked<'_>]) -> Result<Component, StubFault> {
    let AllAsked { asked, exported } = asked_of_components(alloc, components)?;
    Ok(provider_written(alloc, &asked, &exported)?)
}

/// The caller of what a signature exports, which is not judged yet.
fn caller_of(alloc: Global, of: &Signature) -> Result<Component, StubFault> {
    let imports = Asked::of_externs(alloc, of.types(), of.imports())?;
    let exports = Asked::of_externs(alloc, of.types(), of.exports())?;
    Ok(caller_written(alloc, &imports, &exports)?)
}

/// The signature of the last of these components. They can't be linked where there is none.
fn last_signature(alloc: Global, components: &[Component]) -> Result<Signature, StubFault> {
    let Some(last) = components.last() else {
        return Err(StubFault::NotLinked(LinkFault {
            component: 0,
            import: 0,
            reason: LinkReason::Empty,
        }));
    };
    match validate(alloc, last) {
        Ok(checked) => Ok(signature(alloc, checked)?),
        Err(fault) => Err(StubFault::Component {
            component: components.len().saturating_sub(1),
            fault,
        }),
    }
}

/// A component that exports what these import, to be linked before them: a seat for a host.
///
/// The signatures are those of components in the order in which they are to be linked, or of
/// worlds: what an earlier one exports is left to it. Versions of an interface that are compatible
/// are one export, under the latest of them, with the items of all (Explainer.md, "Import and
/// Export Definitions"). A resource that several interfaces share is one.
///
/// The component has two core modules. `base` has a memory, under `memory`, an allocator, under
/// `cabi_realloc`, and a destructor for each resource, under `INTERFACE#[dtor]RESOURCE`. `host` has
/// the functions that are lifted, under `INTERFACE#FUNCTION` or the function's own name, with
/// post-return functions of the same names behind `cabi_post_`, and imports from
/// `[export]INTERFACE` what makes, drops and reads handles, as `[resource-new]RESOURCE`,
/// `[resource-drop]RESOURCE` and `[resource-rep]RESOURCE`. All texts are UTF-8. Each core function
/// stops: the moves of a guest stand in for them.
///
/// `TooMany` comes where the stub would have more types than a file may have, `TooLong` where it
/// would have more bytes, or what is asked has more, `NoResource` where a function passes handles
/// of a resource that none of its signature's imports has, `NotValid` where the stub is not valid,
/// and `Memory` where there is no memory. `Component` and `NotLinked` do not come.
///
/// A function is lifted for each instance that has it: N instances of one type of M functions make
/// N times M.
pub fn provider(alloc: Global, signatures: &[Signature]) -> Result<Component, StubFault>
    ensures { IfOk result IsProvider }
{
    let AllAsked { asked, exported } = asked_of_signatures(alloc, signatures)?;
    let stub = provider_written(alloc, &asked, &exported)?;
    is_provider(alloc, &stub)?;
    Ok(stub)
}

/// As `provider`, for components: that the stub and these components, in this order, can be linked
/// is seen to.
///
/// `Component` comes first, with the first of them that is not valid; `NotLinked` comes last, where
/// the stub is valid and can't be linked with them.
pub fn provider_for(alloc: Global, components: &[Component]) -> Result<Component, StubFault>
    ensures provider { IfOk result IsProvider }
    ensures valid { OnOk result (AllByRecursion IsValid components.now) }
    ensures links { IfOk result (λ c. LinksUnder c components.now) }
{
    let checked = checked_of(alloc, components)?;
    let stub = provider_of(alloc, &checked)?;
    link_under(alloc, &stub, checked)?;
    Ok(stub)
}

/// A component that imports what this one exports, to be linked behind it: a seat for a host that
/// calls. Where exports pass handles of resources that the component imports, the instances that
/// bring these are imported too, with their resources alone.
///
/// The component has two core modules. `base` has a memory, under `memory`, and an allocator, under
/// `cabi_realloc`. `host` imports from `INTERFACE`, or from `$root` where it is of none, each
/// function under its name, and what drops handles, as `[resource-drop]RESOURCE`. All texts are
/// UTF-8.
///
/// The faults are those of `provider`; `NoResource` comes where a function passes handles of a
/// resource that neither an instance before it has, nor one that is imported.
///
/// An instance type is written, and its functions are lowered, for each instance of it.
pub fn caller(alloc: Global, of: &Signature) -> Result<Component, StubFault>
    ensures { IfOk result IsCaller }
{
    let stub = caller_of(alloc, of)?;
    is_caller(alloc, &stub)?;
    Ok(stub)
}

/// As `caller`, for the last of these components: that all of them and the stub, in this order, can
/// be linked is seen to.
///
/// `Component` comes first, with the first of them that is not valid; `NotLinked` comes last, where
/// the stub is valid and can't be linked with them, and where there is no component.
pub fn caller_for(alloc: Global, components: &[Component]) -> Result<Component, StubFault>
    ensures caller { IfOk result IsCaller }
    ensures valid { OnOk result (AllByRecursion IsValid components.now) }
    ensures links { IfOk result (λ c. LinksOver c components.now) }
{
    let checked = checked_of(alloc, components)?;
    let stub = caller_of(alloc, &last_signature(alloc, components)?)?;
    link_over(alloc, checked, &stub)?;
    Ok(stub)
}
