//! Worlds.

ghost use Rattle.std.specs.Prelude.{OnOk};
ghost use Rattle.cm_wit_reading.specs.Views.{extern_tree, world_tree};
ghost use Rattle.cm_wit_package.specs.Appends.{Appends};
ghost use Rattle.cm_wit_package.specs.Printed.{extern_text, world_lines};

use crate::names::{Printed, print_each, print_name};
use crate::signatures::{print_func, print_path};
use cm_wit_reading::{World, WorldExtern, WorldItem};
use std::alloc::AllocError;

/// Adds what is imported or exported.
#[tactic(auto, using(crate::proofs::PrintLaws::view_laws))]
fn print_extern(out: &mut String, what: &WorldExtern) -> Result<(), AllocError>
    ensures { OnOk result (Appends (extern_text (extern_tree what.now)) out.old out.new) }
{
    match what {
        WorldExtern::Interface(path) => print_path(out, path),
        WorldExtern::Func(name, func) => {
            print_name(out, name)?;
            out.push_str(": ")?;
            print_func(out, func)
        }
    }
}

impl Printed for WorldItem {
    ghost use Rattle.cm_wit_reading.specs.Views.{world_item_tree};
    ghost use Rattle.cm_wit_package.specs.Printed.{world_item_line};

    ghost text = { λ x. world_item_line (world_item_tree x) };

    #[tactic(auto, using(crate::proofs::PrintLaws::view_laws))]
    fn print(&self, out: &mut String) -> Result<(), AllocError> {
        match self {
            WorldItem::Import(what) => {
                out.push_str("  import ")?;
                print_extern(out, what)?;
            }
            WorldItem::Export(what) => {
                out.push_str("  export ")?;
                print_extern(out, what)?;
            }
        }
        out.push_str(";\n")
    }
}

/// Adds the lines of a world.
#[tactic(auto, using(crate::proofs::PrintLaws::view_laws))]
pub fn print_world(out: &mut String, world: &World) -> Result<(), AllocError>
    ensures { OnOk result (Appends (world_lines (world_tree world.now)) out.old out.new) }
{
    out.push_str("world ")?;
    print_name(out, &world.name)?;
    out.push_str(" {\n")?;
    print_each(out, &world.items)?;
    out.push_str("}\n")
}
