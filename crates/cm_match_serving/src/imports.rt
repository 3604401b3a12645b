//! Whether an import is served.

use crate::Linking;
use crate::sides::Pair;
use crate::tables::Tables;
use cm_match_model::laws::links_name_exports;
use cm_match_model::{Candidate, LinkReason};
use std::alloc::{AllocError, Global};

impl Tables {
    ghost use Rattle.std.specs.Prelude.{◌≡◌, ◌<◌, ℕ, IfOk, OnOk, Some};
    ghost use Rattle.cm_types.specs.Signatures.{NamedExtern};
    ghost use Rattle.cm_validate_model.specs.Definitions.{ExportDef};
    ghost use Rattle.cm_match_model.specs.Imports.{export_in, import_at, import_in};
    ghost use Rattle.cm_match_serving.specs.Linkings.{set_in};
    ghost use Rattle.cm_match_serving.specs.Answers.{JudgesExtern, JudgesImport};
    ghost use Rattle.cm_match_serving.specs.Tables.{AreKnown};

    /// Why an export of an earlier component does not serve an import, if it does not.
    fn export_fault(
        &mut self,
        alloc: Global,
        linking: &Linking<'_, '_>,
        importer: usize,
        import: usize,
        provider: usize,
        export: usize,
    ) -> Result<Option<LinkReason>, AllocError>
        requires { AreKnown linking.now self.old }
        ensures fault { IfOk result (λ r. (x : NamedExtern) (e : ExportDef)
            → import_in (set_in linking.now).spaces importer import ≡ Some x
            → export_in (set_in linking.now).spaces provider export ≡ Some e
            → JudgesExtern (set_in linking.now) importer x.desc provider e r) }
        ensures known { OnOk result (AreKnown linking.now self.new) }
    {
        let Some(wanted) = linking.import(importer, import) else {
            return Ok(None);
        };
        let Some(have) = linking.export(provider, export) else {
            return Ok(None);
        };
        let pair = Pair {
            linking: *linking,
            importer,
            provider,
        };
        self.extern_fault(alloc, &pair, &wanted.desc, &have.def)
    }

    /// Why the import of a number of a component is not served, if it is not: `NoProvider` where it
    /// has no candidate by its name, `TwoProviders` where it has several; else, by the only one,
    /// `MissingExport` where an item that is wanted of an instance is not there,
    /// `DifferentResource` where a resource is another one than the import says, and
    /// `DifferentType` where something is of another type or sort. `AllocError` comes where there
    /// is no memory.
    ///
    /// It costs a look-up for each item that is wanted; and each type once for each way in which
    /// its resources are moved, however many imports have it.
    pub fn import_fault(
        &mut self,
        alloc: Global,
        linking: &Linking<'_, '_>,
        component: usize,
        import: usize,
    ) -> Result<Option<LinkReason>, AllocError>
        requires { AreKnown linking.now self.old }
        ensures fault { IfOk result (λ r. (x : NamedExtern)
            → import_in (set_in linking.now).spaces component import ≡ Some x
            → JudgesImport (set_in linking.now) (import_at component import x) r) }
        ensures known { OnOk result (AreKnown linking.now self.new) }
    {
        links_name_exports();
        let Some(candidate) = linking.candidate(component, import) else {
            return Ok(None);
        };
        match candidate {
            Candidate::None => Ok(Some(LinkReason::NoProvider)),
            Candidate::Several => Ok(Some(LinkReason::TwoProviders)),
            Candidate::One {
                component: provider,
                export,
            } => self.export_fault(alloc, linking, component, import, provider, export),
        }
    }
}
