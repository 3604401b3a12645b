//! What is written of values, one or several of them.

ghost use Rattle.std.specs.Prelude.{◌≡◌, ◌++◌, map, OnOk};
ghost use Rattle.cm_binary_grammar.specs.Spelling.{vec_spelling};

use cm_binary_model::Part;
use cm_leb::formats::write_count;
use std::alloc::AllocError;

/// A part of a file that is written.
pub(crate) trait Written: Part {
    /// Appends the shortest spelling. Where memory is refused the list may hold a part of it.
    fn write(&self, out: &mut Vec<u8>) -> Result<(), AllocError>
        ensures { OnOk result
            (out.new.items ≡ out.old.items ++ Self.spelling (Self.tree self.now)) };
}

/// Appends the number of values, and the spelling of each. Where memory is refused the list may
/// hold a part of them.
pub(crate) fn write_vec<T: Written>(out: &mut Vec<u8>, values: &[T]) -> Result<(), AllocError>
    ensures { OnOk result
        (out.new.items ≡ out.old.items ++ vec_spelling T.spelling (map T.tree values.now)) }
{
    write_count(out, values.len())?;
    for value in values {
        value.write(out)?;
    }
    Ok(())
}
