//! Interfaces.

ghost use Rattle.std.specs.Prelude.{OnOk, map};
ghost use Rattle.std.specs.Prelude.{◌++◌, codes};
ghost use Rattle.std.specs.List.{flat_map};
ghost use Rattle.cm_wit_reading.specs.Views.{interface_tree, resource_func_tree, type_def_tree};
ghost use Rattle.cm_wit_package.specs.Appends.{Appends};
ghost use Rattle.cm_wit_package.specs.Printed.{braced, interface_lines, resource_func_line};
ghost use Rattle.cm_wit_package.specs.Printed.{resource_rest};
ghost use Rattle.cm_wit_package.specs.Printed.{type_def_lines};

use crate::names::{Printed, print_each, print_name, print_with_commas};
use crate::signatures::{print_func, print_params, print_path};
use crate::types::print_type;
use cm_types::Label;
use cm_wit_reading::{Case, Interface, InterfaceItem, ResourceFunc, TypeDef, UsedName};
use std::alloc::AllocError;

impl Printed for UsedName {
    ghost use Rattle.cm_wit_reading.specs.Views.{used_name_tree};
    ghost use Rattle.cm_wit_package.specs.Printed.{used_text};

    ghost text = { λ u. used_text (used_name_tree u) };

    #[tactic(auto, using(crate::proofs::PrintLaws::view_laws))]
    fn print(&self, out: &mut String) -> Result<(), AllocError> {
        print_name(out, &self.name)?;
        if let Some(new_name) = &self.new_name {
            out.push_str(" as ")?;
            print_name(out, new_name)?;
        }
        Ok(())
    }
}

impl Printed for Case {
    ghost use Rattle.cm_wit_reading.specs.Views.{case_tree};
    ghost use Rattle.cm_wit_package.specs.Printed.{case_text};

    ghost text = { λ c. case_text (case_tree c) };

    #[tactic(auto, using(crate::proofs::PrintLaws::view_laws))]
    fn print(&self, out: &mut String) -> Result<(), AllocError> {
        print_name(out, &self.name)?;
        if let Some(ty) = &self.ty {
            out.push_str("(")?;
            print_type(out, ty)?;
            out.push_str(")")?;
        }
        Ok(())
    }
}

impl Printed for ResourceFunc {
    ghost use Rattle.cm_wit_reading.specs.Views.{resource_func_tree};
    ghost use Rattle.cm_wit_package.specs.Printed.{resource_func_line};

    ghost text = { λ f. resource_func_line (resource_func_tree f) };

    #[tactic(auto, using(crate::proofs::PrintLaws::view_laws))]
    fn print(&self, out: &mut String) -> Result<(), AllocError> {
        out.push_str("    ")?;
        match self {
            ResourceFunc::Method(name, func) => {
                print_name(out, name)?;
                out.push_str(": ")?;
                print_func(out, func)?;
            }
            ResourceFunc::Static(name, func) => {
                print_name(out, name)?;
                out.push_str(": static ")?;
                print_func(out, func)?;
            }
            ResourceFunc::Constructor(params) => {
                out.push_str("constructor")?;
                print_params(out, params)?;
            }
        }
        out.push_str(";\n")
    }
}

/// Adds a type of parts between braces.
#[tactic(auto, using(crate::proofs::PrintLaws::view_laws))]
fn print_braced<T: Printed>(
    out: &mut String,
    head: &str,
    name: &Label,
    parts: &[T],
) -> Result<(), AllocError>
    ensures { OnOk result (Appends (braced head.now name.now T.text parts.now) out.old out.new) }
{
    out.push_str(head)?;
    print_name(out, name)?;
    out.push_str(" { ")?;
    print_with_commas(out, parts)?;
    out.push_str(" }\n")
}

/// Adds the lines of a resource's functions, in braces.
#[tactic(auto, using(crate::proofs::PrintLaws::view_laws))]
fn print_resource_funcs(out: &mut String, funcs: &[ResourceFunc]) -> Result<(), AllocError>
    ensures { OnOk result (Appends (codes " {\n" ++ (flat_map resource_func_line
        (map resource_func_tree funcs.now) ++ codes "  }\n")) out.old out.new) }
{
    out.push_str(" {\n")?;
    print_each(out, funcs)?;
    out.push_str("  }\n")
}

/// Adds what stands behind the name of a resource.
fn print_resource_rest(out: &mut String, funcs: &[ResourceFunc]) -> Result<(), AllocError>
    ensures { OnOk result
        (Appends (resource_rest (map resource_func_tree funcs.now)) out.old out.new) }
{
    if funcs.is_empty() {
        return out.push_str(";\n");
    }
    print_resource_funcs(out, funcs)
}

/// Adds the lines of a type.
#[tactic(auto, using(crate::proofs::PrintLaws::view_laws))]
fn print_type_def(out: &mut String, name: &Label, def: &TypeDef) -> Result<(), AllocError>
    ensures { OnOk result
        (Appends (type_def_lines name.now (type_def_tree def.now)) out.old out.new) }
{
    match def {
        TypeDef::Alias(ty) => {
            out.push_str("  type ")?;
            print_name(out, name)?;
            out.push_str(" = ")?;
            print_type(out, ty)?;
            out.push_str(";\n")
        }
        TypeDef::Record(fields) => print_braced(out, "  record ", name, fields),
        TypeDef::Variant(cases) => print_braced(out, "  variant ", name, cases),
        TypeDef::Enum(names) => print_braced(out, "  enum ", name, names),
        TypeDef::Flags(names) => print_braced(out, "  flags ", name, names),
        TypeDef::Resource(funcs) => {
            out.push_str("  resource ")?;
            print_name(out, name)?;
            print_resource_rest(out, funcs)
        }
    }
}

impl Printed for InterfaceItem {
    ghost use Rattle.cm_wit_reading.specs.Views.{interface_item_tree};
    ghost use Rattle.cm_wit_package.specs.Printed.{interface_item_lines};

    ghost text = { λ x. interface_item_lines (interface_item_tree x) };

    #[tactic(auto, using(crate::proofs::PrintLaws::view_laws))]
    fn print(&self, out: &mut String) -> Result<(), AllocError> {
        match self {
            InterfaceItem::Use(used) => {
                out.push_str("  use ")?;
                print_path(out, &used.path)?;
                out.push_str(".{")?;
                print_with_commas(out, &used.names)?;
                out.push_str("};\n")
            }
            InterfaceItem::Type(name, def) => print_type_def(out, name, def),
            InterfaceItem::Func(name, func) => {
                out.push_str("  ")?;
                print_name(out, name)?;
                out.push_str(": ")?;
                print_func(out, func)?;
                out.push_str(";\n")
            }
        }
    }
}

/// Adds the lines of an interface.
#[tactic(auto, using(crate::proofs::PrintLaws::view_laws))]
pub fn print_interface(out: &mut String, interface: &Interface) -> Result<(), AllocError>
    ensures { OnOk result
        (Appends (interface_lines (interface_tree interface.now)) out.old out.new) }
{
    out.push_str("interface ")?;
    print_name(out, &interface.name)?;
    out.push_str(" {\n")?;
    print_each(out, &interface.items)?;
    out.push_str("}\n")
}
