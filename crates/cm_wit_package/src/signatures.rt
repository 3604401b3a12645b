//! Functions and paths.

ghost use Rattle.std.specs.Prelude.{OnOk, map};
ghost use Rattle.cm_wit_reading.specs.SignatureViews.{func_tree, path_tree, typed_tree};
ghost use Rattle.cm_wit_package.specs.Appends.{Appends};
ghost use Rattle.cm_wit_package.specs.Printed.{func_text, params_text, path_text};

use crate::names::{Printed, print_name, print_version, print_with_commas};
use crate::types::print_type;
use cm_wit_reading::{Func, Path, Typed};
use std::alloc::AllocError;

impl Printed for Typed {
    ghost use Rattle.cm_wit_reading.specs.SignatureViews.{typed_tree};
    ghost use Rattle.cm_wit_package.specs.Printed.{typed_text};

    ghost text = { λ x. typed_text (typed_tree x) };

    #[tactic(auto, using(crate::proofs::PrintLaws::view_laws))]
    fn print(&self, out: &mut String) -> Result<(), AllocError> {
        print_name(out, &self.name)?;
        out.push_str(": ")?;
        print_type(out, &self.ty)
    }
}

/// Adds parameters in parentheses.
#[tactic(auto, using(crate::proofs::PrintLaws::view_laws))]
pub fn print_params(out: &mut String, params: &[Typed]) -> Result<(), AllocError>
    ensures { OnOk result (Appends (params_text (map typed_tree params.now)) out.old out.new) }
{
    out.push_str("(")?;
    print_with_commas(out, params)?;
    out.push_str(")")
}

/// Adds the type of a function.
#[tactic(auto, using(crate::proofs::PrintLaws::view_laws))]
pub fn print_func(out: &mut String, func: &Func) -> Result<(), AllocError>
    ensures { OnOk result (Appends (func_text (func_tree func.now)) out.old out.new) }
{
    out.push_str("func")?;
    print_params(out, &func.params)?;
    if let Some(result) = &func.result {
        out.push_str(" -> ")?;
        print_type(out, result)?;
    }
    Ok(())
}

/// Adds the path of an interface.
#[tactic(auto, using(crate::proofs::PrintLaws::view_laws))]
pub fn print_path(out: &mut String, path: &Path) -> Result<(), AllocError>
    ensures { OnOk result (Appends (path_text (path_tree path.now)) out.old out.new) }
{
    match path {
        Path::Local(name) => print_name(out, name),
        Path::Foreign {
            namespace,
            package,
            interface,
            version,
        } => {
            print_name(out, namespace)?;
            out.push_str(":")?;
            print_name(out, package)?;
            out.push_str("/")?;
            print_name(out, interface)?;
            print_version(out, version)
        }
    }
}
