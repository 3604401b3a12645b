//! Lines of the text of a signature, one by one.

use crate::counted::{Counted, count_before};
use crate::spots::{Spot, list_of};
use cm_tool_show::{Page, ShowFault, show_extern_line, show_item};
use cm_types_arena::{Desc, Signature};
use std::alloc::Global;

/// The line that stands for an import, an export or an item in the text of its signature; empty
/// where there is no such thing. Its resources have the numbers that they have in that text.
pub(crate) fn line_at(
    alloc: Global,
    signature: &Signature,
    spot: Spot,
) -> Result<String, ShowFault> {
    let mut counted = Counted::new(alloc);
    count_before(&mut counted, signature, spot)?;
    let mut page = counted.page;
    show_at(&mut page, signature, spot)?;
    page.finish()
}

/// Adds that line.
fn show_at(page: &mut Page, signature: &Signature, spot: Spot) -> Result<(), ShowFault> {
    let types = signature.types();
    let Some(each) = list_of(signature, spot.side).at(spot.place) else {
        return Ok(());
    };
    match (spot.item, each.desc) {
        (None, _) => show_extern_line(page, types, spot.side.front(), each),
        (Some(_), Desc::Func(_)) => Ok(()),
        (Some(number), Desc::Instance(items)) => match items.at(number) {
            None => Ok(()),
            Some(item) => show_item(page, types, item, items.by()),
        },
    }
}
