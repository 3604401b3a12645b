//! Files of stubs, judged by what they are read as.

ghost use Rattle.std.specs.Prelude.{◌≡◌, ◌∷◌, [], IfOk, Ok, OnOk, length, map};
ghost use Rattle.cm_match_model.specs.Imports.{seen_by, sees_all};
ghost use Rattle.cm_match_model.specs.Links.{CanBeLinked};
ghost use Rattle.cm_match_serving.specs.Sets.{sections_of};
ghost use Rattle.cm_shims.specs.Files.{IsSound, reading_of};
ghost use Rattle.cm_shims_plain.specs.Reading.{IsReadAs, outcome};
ghost use Rattle.cm_stubs_files.specs.Called.{called};
ghost use Rattle.cm_stubs_files.specs.StubFiles.{IsCallerFile, IsProviderFile};
ghost use Rattle.cm_types_arena.specs.Signatures.{signature_of};
ghost use Rattle.cm_validate.specs.cm_validate_spaces.Checked.{sections_in};
ghost use Rattle.cm_validate_model.specs.Spaces.{spaces_of};
ghost use Rattle.cm_wit_conforms.specs.Conformance.{Conforms};

use crate::called::called_of;
use crate::fault::StubFileFault;
use cm_binary_model::Component;
use cm_match::{Checked, link};
use cm_shims::{Shimmed, fits, read};
use cm_stubs_shims::{caller_file_of, file_of};
use cm_types_arena::Signature;
use cm_validate::validate;
use cm_wit_conforms::conforms;
use std::alloc::Global;

/// The file of a provider: with instances as tool chains write them, where other readers take it
/// no other way (Explainer.md, "Type Checking"). It is read back, and judged by what it is read as:
/// a valid component, which has the types that the file says, and behind which these link.
///
/// `NotRead` comes where the file is not read so, or one of the components is not valid, and
/// `NotLinked` where they do not link behind what it is read as.
#[tactic(auto, using(crate::proofs::StubLaws::provider_is))]
pub fn provider_file(
    alloc: Global,
    stub: &Component,
    behind: &[Component],
) -> Result<Vec<u8>, StubFileFault>
    ensures { IfOk result (λ file. IsProviderFile file.items behind.now) }
{
    let file = file_of(alloc, stub)?;
    let shimmed = read_back(alloc, &file)?;
    let components = valid_all(alloc, behind)?;
    link_behind(alloc, &shimmed, components)?;
    Ok(file)
}

/// These as valid components, in order.
fn valid_all(alloc: Global, components: &[Component]) -> Result<Vec<Checked<'_>>, StubFileFault>
    ensures { IfOk result (λ cs. sections_of cs.items ≡ components.now) }
{
    let mut all = Vec::with_capacity(alloc, components.len())?;
    for at in 0..components.len() {
        all.push(validate(alloc, &components[at])?)?;
    }
    Ok(all)
}

/// The file of a caller of what this signature exports, in whose instance types equal named types
/// are one (Explainer.md, "Type Checking"). It is read back, and judged by what it is read as: a
/// valid component, which has the types that the file says, exports nothing, and imports what the
/// signature exports, behind what brings resources to that.
///
/// `NotRead` comes where the file is not read so, `NotAsked` where what it is read as exports
/// something, or has other imports.
#[tactic(auto, using(crate::proofs::StubLaws::caller_is))]
pub fn caller_file(
    alloc: Global,
    stub: &Component,
    of: &Signature,
) -> Result<Vec<u8>, StubFileFault>
    ensures { IfOk result (λ file. IsCallerFile file.items (signature_of of.now)) }
{
    let file = caller_file_of(alloc, stub)?;
    let shimmed = read_back(alloc, &file)?;
    call_all(alloc, &shimmed, of)?;
    Ok(file)
}

/// What a file is read as.
pub(crate) fn read_back(alloc: Global, file: &[u8]) -> Result<Shimmed, StubFileFault>
    ensures { IfOk result (λ s. IsReadAs file.now (outcome (Ok s))) }
{
    Ok(read(alloc, file)?)
}

/// What a file is read as, as a valid component that has the types that the file says.
pub(crate) fn sound(alloc: Global, shimmed: &Shimmed) -> Result<Checked<'_>, StubFileFault>
    ensures held { IfOk result (λ c. sections_in c ≡ shimmed.now.component) }
    ensures sound { OnOk result (IsSound (reading_of shimmed.now)) }
{
    let checked = validate(alloc, &shimmed.component)?;
    fits(alloc, &checked, &shimmed.wants)?;
    Ok(checked)
}

/// Sees to it that what a file is read as is valid, and that the components link behind it.
#[tactic(auto, using(crate::proofs::StubLaws::set_before))]
pub(crate) fn link_behind<'a>(
    alloc: Global,
    shimmed: &'a Shimmed,
    behind: Vec<Checked<'a>>,
) -> Result<(), StubFileFault>
    ensures sound { OnOk result (IsSound (reading_of shimmed.now)) }
    ensures linked { OnOk result (CanBeLinked (seen_by sees_all (map spaces_of
        (shimmed.now.component ∷ sections_of behind.entry.items)))) }
{
    let provider = sound(alloc, shimmed)?;
    let mut others = behind;
    let mut all = vec![in alloc; provider]?;
    all.append(&mut others)?;
    link(alloc, all)?;
    Ok(())
}

/// Sees to it that what a file is read as is valid, exports nothing, and calls what a signature
/// exports.
fn call_all(alloc: Global, shimmed: &Shimmed, of: &Signature) -> Result<(), StubFileFault>
    ensures sound { OnOk result (IsSound (reading_of shimmed.now)) }
    ensures exports { OnOk result ((spaces_of shimmed.now.component).exports ≡ []) }
    ensures calls { OnOk result (Conforms (called (length (signature_of of.now).exports)
        (spaces_of shimmed.now.component).imports) (signature_of of.now)) }
{
    let caller = sound(alloc, shimmed)?;
    if !caller.exports().is_empty() {
        return Err(StubFileFault::NotAsked);
    }
    let externs = caller.into_externs();
    let called = called_of(alloc, externs.types, externs.imports, of.exports().len())?;
    conforms(alloc, &called, of)?;
    Ok(())
}
