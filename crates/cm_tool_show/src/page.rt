//! What is written so far.

ghost use Rattle.std.specs.Prelude.{◌≡◌, ◌≤◌, ◌++◌, ◌∷◌, [], IfErr, IfOk, OnOk, IsErrOf, length};
ghost use Rattle.std.specs.Fmt.{decimal};
ghost use Rattle.std.specs.String.{string_bytes};
ghost use Rattle.cm_tool_show.specs.Pages.{IsOver, seen_on, text_on};
ghost use Rattle.cm_tool_show.specs.Pieces.{appeared, chars, number_of, seen_behind, text_behind};
ghost use Rattle.cm_tool_show.specs.declared.fault.ShowFault.TheVariants as fault;

use crate::fault::ShowFault;
use cm_types::ResourceId;
use indexmap::IndexSet;
use std::alloc::{AllocError, Global};
use std::fmt::Write;

/// The most bytes that are shown, four times as many as a component file may have (this project's
/// own choice).
pub const MAX_SHOWN: usize = 67_108_864;

/// The text so far, and the resources in it in the order of their first appearance, which are
/// numbered by their places.
#[derive(Drop)]
pub struct Page {
    text: String,
    seen: IndexSet<(u32, u64)>,
}

impl Page {
    /// An empty page.
    pub fn new(alloc: Global) -> Page
        ensures text { text_on result ≡ [] }
        ensures seen { seen_on result ≡ [] }
    {
        Page {
            text: String::new(alloc),
            seen: IndexSet::new(alloc),
        }
    }

    /// Adds characters. `TooLong` comes where the text would be too long with them.
    pub fn put(&mut self, part: &str) -> Result<(), ShowFault>
        ensures text { OnOk result
            (text_on self.new ≡ text_on self.old ++ part.now) }
        ensures seen { OnOk result (seen_on self.new ≡ seen_on self.old) }
        ensures over { IsErrOf result fault.TooLong → IsOver self.old (chars part.now ∷ []) }
    {
        if part.len() > MAX_SHOWN || self.text.len() > MAX_SHOWN - part.len() {
            return Err(ShowFault::TooLong);
        }
        self.text.push_str(part)?;
        Ok(())
    }

    /// Adds a number. `TooLong` comes where the text is too long with it.
    pub fn put_number(&mut self, number: usize) -> Result<(), ShowFault>
        ensures text { OnOk result
            (text_on self.new ≡ text_on self.old ++ decimal number) }
        ensures seen { OnOk result (seen_on self.new ≡ seen_on self.old) }
        ensures over { IsErrOf result fault.TooLong
            → IsOver self.old (chars (decimal number) ∷ []) }
    {
        write!(self.text, "{number}")?;
        if self.text.len() > MAX_SHOWN {
            return Err(ShowFault::TooLong);
        }
        Ok(())
    }

    /// Counts a resource among those that appeared, and adds nothing. Only memory is refused.
    pub fn count_resource(&mut self, id: ResourceId) -> Result<(), ShowFault>
        ensures text { text_on self.new ≡ text_on self.old }
        ensures seen { OnOk result (seen_on self.new ≡ appeared (seen_on self.old) id) }
        ensures fault { IfErr result (λ f. f ≡ fault.Memory) }
    {
        self.seen.insert((id.component, id.number))?;
        Ok(())
    }

    /// Adds the number of a resource.
    #[tactic(auto, using(crate::proofs::KeyLaws::seen_laws))]
    pub fn put_resource(&mut self, id: ResourceId) -> Result<(), ShowFault>
        ensures text { OnOk result (text_on self.new
            ≡ text_on self.old ++ text_behind (seen_on self.old) (number_of id ∷ [])) }
        ensures seen { OnOk result
            (seen_on self.new ≡ seen_behind (seen_on self.old) (number_of id ∷ [])) }
        ensures over { IsErrOf result fault.TooLong → IsOver self.old (number_of id ∷ []) }
    {
        let (number, _) = self.seen.insert_full((id.component, id.number))?;
        self.put_number(number)
    }

    /// The text, where it is not too long.
    pub fn finish(self) -> Result<String, ShowFault>
        ensures text { IfOk result (λ text. string_bytes text ≡ text_on self) }
        ensures short { IfOk result (λ text. length (string_bytes text) ≤ MAX_SHOWN) }
        ensures over { IsErrOf result fault.TooLong → IsOver self [] }
    {
        if self.text.len() > MAX_SHOWN {
            return Err(ShowFault::TooLong);
        }
        Ok(self.text)
    }
}
