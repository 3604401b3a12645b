//! Imports that were judged already.

ghost use Rattle.std.specs.Prelude.{◌≡◌, IfOk, OnOk};
ghost use Rattle.cm_match.specs.Pairs.{AreTables, instance_of_export, type_of_import};

use cm_match_model::alike_laws::imports_are_served_alike;
use cm_match_model::{Link, LinkReason};
use cm_match_serving::{Checked, Linking, Tables};
use cm_validate_items::Shared;
use cm_validate_model::counted_laws::{moves_of_what_is_counted, resources_are_counted};
use std::alloc::{AllocError, Global};
use std::collections::BTreeSet;

/// A component and a type of an instance there; and a component and an instance there.
type Pair = ((usize, usize), (usize, usize));

/// What is known of a set: the numbers of its types; which imports are instances of one type, and
/// which exports are one instance; and the pairs of such that were compared and serve.
#[derive(Drop)]
pub struct Judged {
    tables: Tables,
    shared: Vec<Shared>,
    served: BTreeSet<Pair>,
}

/// Which imports of each component are instances of one type, and which exports one instance.
fn shared_in(alloc: Global, components: &[Checked<'_>]) -> Result<Vec<Shared>, AllocError>
    ensures { IfOk result (λ tables. AreTables components.now tables.items) }
{
    let mut tables = Vec::with_capacity(alloc, components.len())?;
    for checked in components {
        tables.push(Shared::new(alloc, checked.component())?)?;
    }
    Ok(tables)
}

/// The number of the type of an import of a component, where it is an instance.
fn type_of(tables: &[Shared], component: usize, import: usize) -> Option<usize>
    ensures { result ≡ type_of_import tables.now component import }
{
    tables.get(component)?.import_type(import)
}

/// The number of the instance that an export is, where it is one.
fn instance_of(tables: &[Shared], link: Link) -> Option<usize>
    ensures { result ≡ instance_of_export tables.now link }
{
    tables
        .get(link.component as usize)?
        .exported_instance(link.export)
}

impl Judged {
    ghost use Rattle.std.specs.Prelude.{IfSome, IsTrue, Some};
    ghost use Rattle.cm_types.specs.Signatures.{NamedExtern};
    ghost use Rattle.cm_match_model.specs.Imports.{import_at, import_in};
    ghost use Rattle.cm_match_serving.specs.Linkings.{set_in};
    ghost use Rattle.cm_match.specs.Pairs.{AreJudged, IsNoted, IsPairOf};
    ghost use Rattle.cm_match_serving.specs.Answers.{JudgesImport};

    /// No import of this set is judged yet. `AllocError` comes where there is no memory.
    pub fn new(alloc: Global, linking: &Linking<'_, '_>) -> Result<Judged, AllocError>
        ensures { IfOk result (AreJudged linking.now) }
    {
        let components = linking.components();
        Ok(Judged {
            tables: Tables::new(alloc, components.len())?,
            shared: shared_in(alloc, components)?,
            served: BTreeSet::new(alloc),
        })
    }

    /// The pair of an import and the export that it is linked to, where both are instances.
    fn pair(&self, linking: &Linking<'_, '_>, component: usize, import: usize) -> Option<Pair>
        ensures { IfSome result
            (IsPairOf (set_in linking.now) self.now.shared.items component import) }
    {
        let ty = type_of(&self.shared, component, import)?;
        let link = linking.link(u32::try_from(component).ok()?, import)?;
        let instance = instance_of(&self.shared, link)?;
        Some(((component, ty), (link.component as usize, instance)))
    }

    /// Whether an import of this pair was compared, and is served.
    fn is_served(&self, pair: Option<Pair>) -> bool
        ensures { IsTrue result → IsNoted self.now pair }
    {
        match pair {
            Some(pair) => self.served.contains(&pair),
            None => false,
        }
    }

    /// Why the import of a number of a component is not served, if it is not, by
    /// [`Tables::import_fault`]. `AllocError` comes where there is no memory.
    ///
    /// An instance is compared, item by item, once for each pair of its type and the instance that
    /// is exported, however many imports and exports have them.
    pub fn import_fault(
        &mut self,
        alloc: Global,
        linking: &Linking<'_, '_>,
        component: usize,
        import: usize,
    ) -> Result<Option<LinkReason>, AllocError>
        requires { AreJudged linking.now self.old }
        ensures fault { IfOk result (λ r. (x : NamedExtern)
            → import_in (set_in linking.now).spaces component import ≡ Some x
            → JudgesImport (set_in linking.now) (import_at component import x) r) }
        ensures known { OnOk result (AreJudged linking.now self.new) }
    {
        resources_are_counted();
        moves_of_what_is_counted();
        imports_are_served_alike();
        let pair = self.pair(linking, component, import);
        if self.is_served(pair) {
            return Ok(None);
        }
        let fault = self.tables.import_fault(alloc, linking, component, import)?;
        if fault.is_none()
            && let Some(pair) = pair
        {
            self.served.insert(pair)?;
        }
        Ok(fault)
    }
}
