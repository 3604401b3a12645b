//! Files of providers of what a signature imports.

ghost use Rattle.std.specs.Prelude.{◌≤◌, ◌∷◌, [], IfOk, OnOk, length, map};
ghost use Rattle.cm_match_model.specs.Imports.{seen_by, sees_all};
ghost use Rattle.cm_match_model.specs.Links.{CanBeLinked};
ghost use Rattle.cm_shims.specs.Files.{IsSound, reading_of};
ghost use Rattle.cm_stubs_files.specs.Called.{called};
ghost use Rattle.cm_stubs_files.specs.StubFiles.{IsProviderFileOf};
ghost use Rattle.cm_types_arena.specs.Signatures.{signature_of};
ghost use Rattle.cm_validate_model.specs.Spaces.{spaces_of};
ghost use Rattle.cm_validate_model.specs.Valid.{IsValid};
ghost use Rattle.cm_wit_conforms.specs.Conformance.{Conforms};

use crate::called::called_of;
use crate::fault::StubFileFault;
use crate::read_back::{link_behind, read_back, sound};
use cm_binary_model::Component;
use cm_shims::Shimmed;
use cm_stubs_shims::file_of;
use cm_stubs_written::{Asked, DraftFault, caller_written, provider_written};
use cm_types_arena::Signature;
use cm_validate::validate;
use cm_wit_conforms::conforms;
use std::alloc::Global;

/// The file of a provider of what this signature imports, as of a world. It is read back, and
/// judged by what it is read as: a valid component, which has the types that the file says, has no
/// more exports than the signature has imports, and behind which a component links that imports
/// all of these, by name and by type.
///
/// `NotRead` comes where the file is not read so, `NotAsked` where the stub cannot be written or
/// has more exports, and `NotLinked` where what imports all does not link behind it.
#[tactic(auto, using(crate::proofs::StubLaws::provider_of_is))]
pub fn provider_file_of(alloc: Global, asked: &Signature) -> Result<Vec<u8>, StubFileFault>
    ensures { IfOk result (λ file. IsProviderFileOf file.items (signature_of asked.now)) }
{
    let stub = provider_of(alloc, asked)?;
    let file = file_of(alloc, &stub)?;
    let shimmed = read_back(alloc, &file)?;
    is_few(alloc, &shimmed, asked)?;
    let user = user_of(alloc, asked)?;
    ask_all(alloc, &user, asked)?;
    serve(alloc, &shimmed, &user)?;
    Ok(file)
}

/// Sees to it that what a file is read as has no more exports than a signature has imports.
fn is_few(alloc: Global, shimmed: &Shimmed, asked: &Signature) -> Result<(), StubFileFault>
    ensures { OnOk result (length (spaces_of shimmed.now.component).exports
        ≤ length (signature_of asked.now).imports) }
{
    let provider = sound(alloc, shimmed)?;
    if provider.exports().len() > asked.imports().len() {
        return Err(StubFileFault::NotAsked);
    }
    Ok(())
}

/// Sees to it that a valid component links behind what a file is read as.
fn serve<'a>(alloc: Global, shimmed: &'a Shimmed, user: &'a Component) -> Result<(), StubFileFault>
    ensures sound { OnOk result (IsSound (reading_of shimmed.now)) }
    ensures linked { OnOk result (CanBeLinked (seen_by sees_all (map spaces_of
        (shimmed.now.component ∷ user.now ∷ [])))) }
{
    let user = validate(alloc, user)?;
    let behind = vec![in alloc; user]?;
    link_behind(alloc, shimmed, behind)
}

/// A component that exports what a signature imports, which is not judged yet.
fn provider_of(alloc: Global, asked: &Signature) -> Result<Component, DraftFault> {
    let imports = Asked::of_externs(alloc, asked.types(), asked.imports())?;
    provider_written(alloc, &[imports], &[Vec::new(alloc)])
}

/// A component that imports what a signature imports, which is not judged yet.
fn user_of(alloc: Global, asked: &Signature) -> Result<Component, DraftFault> {
    let imports = Asked::of_externs(alloc, asked.types(), asked.imports())?;
    let nothing = Asked {
        types: asked.types(),
        externs: Vec::new(alloc),
    };
    caller_written(alloc, &nothing, &imports)
}

/// Sees to it that a component is valid, and imports all that a signature does.
fn ask_all(alloc: Global, user: &Component, asked: &Signature) -> Result<(), StubFileFault>
    ensures valid { OnOk result (IsValid user.now) }
    ensures asks { OnOk result (Conforms (signature_of asked.now)
        (called 0 (spaces_of user.now).imports)) }
{
    let externs = validate(alloc, user)?.into_externs();
    let imports = called_of(alloc, externs.types, externs.imports, 0)?;
    conforms(alloc, asked, &imports)?;
    Ok(())
}
