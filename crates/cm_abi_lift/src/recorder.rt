//! Records of the parts of values, of which nothing else is made.

ghost use Rattle.std.specs.Prelude.{◌≡◌, ◌++◌, ⊤};
ghost use Rattle.cm_abi_model.specs.Texts.{units_of};
ghost use Rattle.cm_abi_lift.specs.Records.{is_tagged};
ghost use Rattle.std.proofs.Common.{rules};
ghost use Rattle.std.proofs.lemmas.Grind.{common_steps};

use cm_abi_load::laws::handles_stay_met;
use cm_abi_load::{Giver, Maker, Progress, Stop, measure_text};
use cm_abi_model::{PartKind, PartRecord, StringEncoding, UTF16_TAG, text_align};
use cm_types::Value;
use std::alloc::Global;

/// Keeps a record of each part of a value, and makes nothing of it.
#[derive(Clone, Copy)]
pub struct Recorder {
    /// How strings are encoded where the values go.
    pub target: StringEncoding,
}

/// Whether a length says UTF-16 by its tag.
fn is_tagged(encoding: StringEncoding, tagged: u32) -> bool
    ensures { result ≡ is_tagged encoding tagged }
{
    match encoding {
        StringEncoding::Utf8 | StringEncoding::Utf16 => false,
        StringEncoding::Latin1OrUtf16 => tagged >= UTF16_TAG,
    }
}

/// How many units a tagged length counts.
fn text_units(encoding: StringEncoding, tagged: u32) -> u32
    ensures { result ≡ units_of encoding tagged }
{
    match encoding {
        StringEncoding::Utf8 | StringEncoding::Utf16 => tagged,
        StringEncoding::Latin1OrUtf16 if tagged < UTF16_TAG => tagged,
        StringEncoding::Latin1OrUtf16 => tagged - UTF16_TAG,
    }
}

impl Maker for Recorder {
    type Made = ();

    type Row = ();

    type Kept = Vec<PartRecord>;

    ghost target = { λ maker. maker.target };

    ghost stands = { λ made v. ⊤ };

    ghost stand = { λ row vs. ⊤ };

    ghost keeps = { λ old records new. new.items ≡ old.items ++ records };

    ghost allocates = { ⊥ };

    ghost keeps_nothing = { Prim.search rules };

    ghost keeps_both = { Prim.search (rules, common_steps) };

    fn make(_value: Value) {}

    fn unread() -> Option<()> {
        Some(())
    }

    fn unread_row() -> Option<()> {
        Some(())
    }

    fn text(
        self,
        giver: &Giver<'_>,
        at: u32,
        tagged: u32,
        progress: &mut Progress,
        kept: &mut Vec<PartRecord>,
    ) -> Result<(), Stop> {
        handles_stay_met();
        let size = measure_text(giver, self.target, at, tagged, progress)?;
        kept.push(PartRecord {
            at,
            count: text_units(giver.encoding, tagged),
            size: size as u64,
            align: text_align(self.target),
            kind: PartKind::Text {
                is_tagged: is_tagged(giver.encoding, tagged),
            },
        })?;
        Ok(())
    }

    fn keep(kept: &mut Vec<PartRecord>, list: PartRecord) -> Result<(), Stop> {
        kept.push(list)?;
        Ok(())
    }

    fn row(_alloc: Global) {}

    fn push(_row: &mut (), _made: ()) -> Result<(), Stop> {
        Ok(())
    }

    fn list(_row: ()) {}

    fn fields(_row: ()) {}

    fn case(_alloc: Global, _index: u32, _payload: ()) -> Result<(), Stop> {
        Ok(())
    }
}
