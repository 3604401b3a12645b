//! Names, and lists.

ghost use Rattle.std.specs.Prelude.{List, ℕ, OnOk};
ghost use Rattle.std.specs.List.{flat_map};
ghost use Rattle.cm_wit_package.specs.Appends.{Appends};
ghost use Rattle.cm_wit_package.specs.Printed.{behind_commas, name_text, version_text, with_commas};

use cm_types::Label;
use cm_wit_tokens::{Keyword, Version};
use std::alloc::AllocError;

/// What is printed.
pub trait Printed {
    ghost use Rattle.std.specs.Prelude.{List, ℕ, OnOk};
    ghost use Rattle.cm_wit_package.specs.Appends.{Appends};

    // The text of a value.
    ghost text: { Self → List ℕ };

    /// Adds the text. Refused only where there is no memory.
    fn print(&self, out: &mut String) -> Result<(), AllocError>
        ensures { OnOk result (Appends (text self.now) out.old out.new) };
}

impl Printed for Label {
    ghost use Rattle.cm_wit_package.specs.Printed.{name_text};

    ghost text = { name_text };

    #[tactic(auto, using(crate::proofs::PrintLaws::print_laws))]
    fn print(&self, out: &mut String) -> Result<(), AllocError> {
        print_name(out, self)
    }
}

/// Adds a name.
#[tactic(auto, using(crate::proofs::PrintLaws::print_laws))]
pub fn print_name(out: &mut String, name: &Label) -> Result<(), AllocError>
    ensures { OnOk result (Appends (name_text name.now) out.old out.new) }
{
    if Keyword::of_word(name.as_str().as_bytes()).is_some() {
        out.push_str("%")?;
    }
    out.push_str(name.as_str())
}

/// Adds the version of a package, if it has one.
#[tactic(auto, using(crate::proofs::PrintLaws::print_laws))]
pub fn print_version(out: &mut String, version: &Option<Version>) -> Result<(), AllocError>
    ensures { OnOk result (Appends (version_text version.now) out.old out.new) }
{
    let Some(version) = version else {
        return Ok(());
    };
    out.push_str("@")?;
    out.push_str(version.as_str())
}

#[tactic(auto, using(crate::proofs::PrintLaws::each_laws))]
fn print_behind_commas<T: Printed>(out: &mut String, items: &[T]) -> Result<(), AllocError>
    ensures { OnOk result (Appends (behind_commas T.text items.now) out.old out.new) }
{
    for item in items {
        out.push_str(", ")?;
        item.print(out)?;
    }
    Ok(())
}

/// Adds things with commas between them.
#[tactic(auto, using(crate::proofs::PrintLaws::print_laws))]
pub fn print_with_commas<T: Printed>(out: &mut String, items: &[T]) -> Result<(), AllocError>
    ensures { OnOk result (Appends (with_commas T.text items.now) out.old out.new) }
{
    let Some((first, rest)) = items.split_first() else {
        return Ok(());
    };
    first.print(out)?;
    print_behind_commas(out, rest)
}

/// Adds things one behind the other.
#[tactic(auto, using(crate::proofs::PrintLaws::each_laws))]
pub fn print_each<T: Printed>(out: &mut String, items: &[T]) -> Result<(), AllocError>
    ensures { OnOk result (Appends (flat_map T.text items.now) out.old out.new) }
{
    for item in items {
        item.print(out)?;
    }
    Ok(())
}
