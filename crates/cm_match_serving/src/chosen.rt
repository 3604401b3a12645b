//! The links that are chosen for imports.

ghost use Rattle.std.specs.Prelude.{◌≡◌, IfOk, option_to_list};
ghost use Rattle.std.specs.Option.{option_map};
ghost use Rattle.cm_match_model.specs.Fitting.{candidates, named_export, only};
ghost use Rattle.cm_match_model.specs.Sights.{chosen_export, link_in};
ghost use Rattle.cm_match_serving.specs.Sets.{spaces_of_all};

use crate::exports::Exports;
use cm_match_model::{Candidate, Choices, Link};
use cm_types::ExternName;
use cm_validate_spaces::{Checked, ExportEntry};
use std::alloc::{AllocError, Global};

/// The link that is chosen for an import of a component, if one is.
pub(crate) fn chosen_link(choices: &Choices, component: usize, import: usize) -> Option<Link>
    ensures { result ≡ link_in choices.now.links.items component import }
{
    let row = choices.links.get(component)?;
    *row.get(import)?
}

/// The export of a link, where it is of a component before this one.
fn chosen_export<'s, 'a>(
    components: &'s [Checked<'a>],
    importer: usize,
    link: Link,
) -> Option<&'s ExportEntry<'a>>
    ensures { chosen_export (spaces_of_all components.now) importer link ≡ option_to_list
        (option_map (λ e. named_export link.component link.export e.now.name.now) result) }
{
    let provider = link.component as usize;
    if provider >= importer {
        return None;
    }
    components.get(provider)?.exports().get(link.export)
}

/// The candidate of an import by the link that is chosen for it: its export, where that is of a
/// component before and fits by name. `AllocError` comes where there is no memory.
pub(crate) fn chosen_candidate(
    alloc: Global,
    components: &[Checked<'_>],
    importer: usize,
    link: Link,
    wanted: &ExternName,
) -> Result<Candidate, AllocError>
    ensures { IfOk result (λ c. c ≡ only
        (candidates (chosen_export (spaces_of_all components.now) importer link) wanted.now)) }
{
    let Some(entry) = chosen_export(components, importer, link) else {
        return Ok(Candidate::None);
    };
    let mut exports = Exports::new(alloc);
    exports.add(entry.name, link.component as usize, link.export)?;
    exports.candidate(alloc, wanted)
}
