//! Pieces on a page, one at a time.

ghost use Rattle.std.specs.Prelude.{◌∷◌, []};
ghost use Rattle.std.specs.Fmt.{decimal};
ghost use Rattle.cm_tool_show.specs.Pieces.{chars, number_of};
ghost use Rattle.cm_tool_show.specs.Written.{Shows};

use crate::{Page, ShowFault};
use cm_types::ResourceId;

/// Adds characters.
pub fn put(page: &mut Page, part: &str) -> Result<(), ShowFault>
    ensures { Shows (chars part.now ∷ []) page.old page.new result }
{
    page.put(part)
}

/// Adds a number.
pub fn put_number(page: &mut Page, number: usize) -> Result<(), ShowFault>
    ensures { Shows (chars (decimal number) ∷ []) page.old page.new result }
{
    page.put_number(number)
}

/// Adds the number of a resource.
pub fn put_resource(page: &mut Page, id: ResourceId) -> Result<(), ShowFault>
    ensures { Shows (number_of id ∷ []) page.old page.new result }
{
    page.put_resource(id)
}
