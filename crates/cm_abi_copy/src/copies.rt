//! A value, copied from one memory to another.

ghost use Rattle.std.specs.Prelude.{◌≡◌, ◌+◌, ◌≤◌, length};
ghost use Rattle.cm_abi_model.specs.Parts.{handle_count, part_count};
ghost use Rattle.cm_abi_model.specs.Stores.{poke};
ghost use Rattle.cm_abi_running.specs.Copying.{copying_of};
ghost use Rattle.cm_abi_running.specs.Known.{CanBeCopied};
ghost use Rattle.cm_layout.specs.Layouts.{layout_of};
ghost use Rattle.cm_layout.specs.Shapes.{layout_at};
ghost use Rattle.cm_abi_store.specs.Storing.{given_of, stored_by};
ghost use Rattle.cm_types.specs.Types.{Ty};
ghost use Rattle.cm_types.specs.Values.{Val};

use crate::laws::{handles_are_stored_as_numbers, what_is_read_is_copied};
use crate::place::Place;
use cm_abi_load::laws::numbers_are_sized;
use cm_abi_running::Copier;
use cm_abi_store::{Next, store_value};
use cm_layout::Layout;
use cm_layout::laws::layouts;

/// Copies the value that stands at an address of the source to an address of the memory, by the
/// layout of its type, with no tree made of it; both are in bytes from 0, and all bytes of the
/// layout lie in their memory (CanonicalABI.md, "Loading" and "Storing").
///
/// The value is one that was read there, whichever handles its table has now; each of its strings
/// and lists has a place and each of its handles a number, and its records tell how many bytes its
/// strings take. Exactly the bytes that store the value are written, each at its address: parts
/// stand at their places, and handles are their numbers. Then the next part and the next handle are
/// those behind the value's. It takes no memory.
pub fn copy_value(
    from: &Copier<'_>,
    memory: &mut [u8],
    layout: &Layout,
    source: usize,
    at: usize,
    next: &mut Next,
)
    requires layout { (t : Ty) × (layout_of layout.now ≡ layout_at t) }
    requires within { source + (layout_of layout.now).head.size ≤ length from.now.memory.now }
    requires inside { at + (layout_of layout.now).head.size ≤ length memory.old }
    requires copied { (v : Val) × CanBeCopied (length memory.old) (copying_of from.now)
        (layout_of layout.now).shape source v next.old.part next.old.handle }
    ensures stored { (v : Val)
        → CanBeCopied (length memory.old) (copying_of from.now) (layout_of layout.now).shape
        source v next.old.part next.old.handle
        → memory.new
        ≡ poke (stored_by (given_of from.now.target) (layout_of layout.now).shape v at
        next.old.part next.old.handle) memory.old }
    ensures stays { length memory.new ≡ length memory.old }
    ensures part { (v : Val)
        → CanBeCopied (length memory.old) (copying_of from.now) (layout_of layout.now).shape
        source v next.old.part next.old.handle
        → next.new.part ≡ next.old.part + part_count v }
    ensures handle { (v : Val)
        → CanBeCopied (length memory.old) (copying_of from.now) (layout_of layout.now).shape
        source v next.old.part next.old.handle
        → next.new.handle ≡ next.old.handle + handle_count v }
{
    layouts();
    numbers_are_sized();
    what_is_read_is_copied();
    handles_are_stored_as_numbers();
    let place = Place { from, at: source };
    store_value(&from.target, memory, layout, place, at, next);
}
