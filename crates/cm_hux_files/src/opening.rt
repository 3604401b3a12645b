//! Files that leave imports open, and what stands in front of them.

use crate::fault::Fault;
use crate::fronts::{Front, stub_of, valid_stub};
use crate::groups::{OWN_PLACE, add_places};
use crate::loaded_files::LoadedFiles;
use crate::loading::not_made;
use crate::providers::Provider;
use crate::served::Served;
use crate::signing::imports_alone;
use crate::taking::{Arguments, read_bundle};
use cm_binary_model::Component;
use cm_bundle::Bundle;
use cm_match::link_by;
use cm_match_model::{Candidate, Choices};
use cm_tool_commands::{Checked, LinkFault, Linked, MAX_COMPONENTS};
use cm_types_arena::Signature;
use std::alloc::{AllocError, Global};

impl<'a> LoadedFiles<'a> {
    /// The open bundle whose parts the components are, and its name; nothing where they are none's.
    pub(crate) fn open_bundle(
        &self,
        alloc: Global,
    ) -> Result<Option<(&'a str, Bundle<'_>)>, Fault> {
        let Some((name, bytes)) = self.bundle() else {
            return Ok(None);
        };
        let bundle = read_bundle(alloc, name, bytes)?;
        if bundle.front.is_empty() {
            return Ok(None);
        }
        Ok(Some((name, bundle)))
    }

    /// A component that exports what the open bundle imports whose parts the components are;
    /// nothing where they are none's.
    pub fn open_provider(&self, alloc: Global) -> Result<Option<Component>, Fault> {
        match self.open_bundle(alloc)? {
            Some((name, bundle)) => Ok(Some(stub_of(alloc, name, &bundle.front)?)),
            None => Ok(None),
        }
    }

    /// Whether words or bundles say which exports serve the imports of the components.
    pub fn are_chosen(&self) -> bool {
        let serve = self.serve_words();
        serve.nearest || !serve.words.is_empty() || !self.groups().is_empty()
    }

    /// A component that exports what nothing serves of what the components import: behind it they
    /// link, as words and bundles say.
    pub fn stub(&self, alloc: Global) -> Result<Component, Fault> {
        let components = self.check(alloc, None)?;
        let served = self.served(alloc, &components)?;
        let front = match self.front(alloc, &served)? {
            Some(front) => front,
            None => Front::of(alloc, &[])?,
        };
        not_made(self.link_behind(alloc, &front, components, &served))?;
        let Front { stub, .. } = front;
        Ok(stub)
    }

    /// What imports what nothing serves of what the components import; nothing where all is served.
    /// It counts as a component: `Refused` comes where there is none left for it.
    pub fn front(&self, alloc: Global, served: &Served) -> Result<Option<Front>, Fault> {
        let signatures = self.open_signatures(alloc, served)?;
        let count = self.files().len();
        if signatures.is_empty() || count > MAX_COMPONENTS {
            return Ok(None);
        }
        if count == MAX_COMPONENTS {
            return Err(too_many(alloc));
        }
        Ok(Some(Front::of(alloc, &signatures)?))
    }

    /// Of each component that has imports that nothing serves these, in order.
    fn open_signatures(&self, alloc: Global, served: &Served) -> Result<Vec<Signature>, Fault> {
        let mut signatures = Vec::new(alloc);
        for (file, row) in self.files().iter().zip(&served.rows) {
            if row.contains(&Candidate::None) {
                signatures.push(imports_alone(alloc, file.check(alloc)?, row)?)?;
            }
        }
        Ok(signatures)
    }

    /// The linked set of the components behind what serves their open imports, which is component 0
    /// of it. Faults count the components without that.
    pub fn link_behind<'b>(
        &self,
        alloc: Global,
        front: &'b Front,
        components: Vec<Checked<'b>>,
        served: &Served,
    ) -> Result<Linked<'b>, Fault> {
        let stub = valid_stub(alloc, &front.stub)?;
        let exports = Provider::new(alloc, 0, stub.exports())?;
        let served = served.behind(alloc, &exports, &components)?;
        self.link_over(alloc, stub, components, &served)
    }

    /// Sees to it that the components of a bundle link as its arguments say, behind what exports
    /// what it imports.
    pub(crate) fn link_inside<'b>(
        &self,
        alloc: Global,
        stub: &'b Component,
        components: Vec<Checked<'b>>,
        arguments: &Arguments,
    ) -> Result<(), Fault> {
        let stub = valid_stub(alloc, stub)?;
        let exports = Provider::new(alloc, 0, stub.exports())?;
        let served = arguments.served_behind(alloc, &exports)?;
        self.link_over(alloc, stub, components, &served)?;
        Ok(())
    }

    /// The linked set of a stub and the components, whose imports these exports serve.
    fn link_over<'b>(
        &self,
        alloc: Global,
        stub: Checked<'b>,
        components: Vec<Checked<'b>>,
        served: &Served,
    ) -> Result<Linked<'b>, Fault> {
        let components = behind(alloc, stub, components)?;
        match link_by(alloc, components, self.choices_over(alloc, served)?) {
            Ok(linked) => Ok(linked),
            Err(fault) => Err(self.not_linked(alloc, without_stub(fault))),
        }
    }

    fn choices_over(&self, alloc: Global, served: &Served) -> Result<Choices, AllocError> {
        let mut choices = Choices::none(alloc);
        choices.links = served.links(alloc)?;
        if !self.groups().is_empty() {
            choices.places.push(OWN_PLACE)?;
        }
        add_places(&mut choices, self.groups(), self.files().len())?;
        Ok(choices)
    }
}

/// A stub and these components behind it.
fn behind<'b>(
    alloc: Global,
    stub: Checked<'b>,
    components: Vec<Checked<'b>>,
) -> Result<Vec<Checked<'b>>, AllocError> {
    let mut all = Vec::with_capacity(alloc, components.len())?;
    all.push(stub)?;
    for component in components {
        all.push(component)?;
    }
    Ok(all)
}

/// A fault without the stub in front.
fn without_stub(fault: LinkFault) -> LinkFault {
    LinkFault {
        component: fault.component.saturating_sub(1),
        ..fault
    }
}

/// The fault of as many components as a set may have, of which some imports are open.
fn too_many(alloc: Global) -> Fault {
    let text = "TooMany: what nothing serves counts as a component: expected 1 to 15 others, \
                found 16";
    match String::from_str(alloc, text) {
        Ok(text) => Fault::Refused(text),
        Err(_) => Fault::Memory,
    }
}
