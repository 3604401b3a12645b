//! Files.

ghost use Rattle.std.specs.Prelude.{◌≡◌, IfOk};
ghost use Rattle.std.specs.String.{string_bytes};
ghost use Rattle.cm_wit_reading.specs.Views.{file_tree};
ghost use Rattle.cm_wit_package.specs.Printed.{file_text};

use crate::interfaces::print_interface;
use crate::names::{Printed, print_each, print_name, print_version};
use crate::worlds::print_world;
use cm_wit_reading::{FileItem, WitFile};
use std::alloc::{AllocError, Global};

impl Printed for FileItem {
    ghost use Rattle.cm_wit_reading.specs.Views.{file_item_tree};
    ghost use Rattle.cm_wit_package.specs.Printed.{file_item_lines};

    ghost text = { λ x. file_item_lines (file_item_tree x) };

    #[tactic(auto, using(crate::proofs::PrintLaws::view_laws))]
    fn print(&self, out: &mut String) -> Result<(), AllocError> {
        match self {
            FileItem::Interface(interface) => print_interface(out, interface),
            FileItem::World(world) => print_world(out, world),
        }
    }
}

/// The text that prints a file: a declaration a line, two blanks a level, no comments, and `%`
/// before a name that is a keyword. Refused only where there is no memory.
#[tactic(auto, using(crate::proofs::PrintLaws::view_laws))]
pub fn print_file(alloc: Global, file: &WitFile) -> Result<String, AllocError>
    ensures { IfOk result (λ text. string_bytes text ≡ file_text (file_tree file.now)) }
{
    let mut out = String::new(alloc);
    out.push_str("package ")?;
    print_name(&mut out, &file.namespace)?;
    out.push_str(":")?;
    print_name(&mut out, &file.package)?;
    print_version(&mut out, &file.version)?;
    out.push_str(";\n")?;
    print_each(&mut out, &file.items)?;
    Ok(out)
}
