//! Handing over the handles that a reader met, and taking them back.

ghost use Rattle.std.specs.Prelude.{◌≡◌, ◌+◌, ◌<◌, ◌^◌, ◌⊎◌, Err, IfErr, IfOk, Ok, OnErr, OnOk};
ghost use Rattle.std.specs.Prelude.{[], IsOk, length};
ghost use Rattle.std.specs.Option.{ForSome};
ghost use Rattle.cm_handles.specs.Handles.{Handles, IsSoundHandles, handle_at, if_not_lent};
ghost use Rattle.cm_handles.specs.Handles.{if_owned};
ghost use Rattle.cm_handles.specs.Handles.{look_up};
ghost use Rattle.cm_abi_model.specs.Lifts.{Hands, LendsBelow};
ghost use Rattle.cm_abi_lift.specs.HandingOver.{hand_fault, hand_one, hand_over};
ghost use Rattle.cm_abi_lift.specs.HandingOver.{hands_of, lent_out, taken_out, untouched};

use cm_abi_load::MetHandle;
use cm_abi_model::AbiFault;
use cm_handles::{Handle, HandleFault, Table};
use cm_layout::HandleType;
use cm_types::ResourceId;
use std::alloc::Global;

/// A resource, whichever.
const NO_RESOURCE: ResourceId = ResourceId {
    component: 0,
    number: 0,
};

/// The handles that were handed over.
#[derive(Drop)]
pub struct Handed {
    /// The handles that were taken out of the table, in order.
    pub owns: Vec<Handle>,
    /// The indices of the handles that were lent, in order.
    pub lends: Vec<u32>,
}

/// Why a handle is not handed over.
fn hand_fault(fault: HandleFault) -> AbiFault
    ensures { result ≡ hand_fault fault }
{
    match fault {
        HandleFault::NoHandle => AbiFault::NoHandle,
        HandleFault::WrongResource => AbiFault::WrongResource,
        HandleFault::StillLent => AbiFault::StillLent,
        HandleFault::NotOwned => AbiFault::NotOwned,
        HandleFault::Full => AbiFault::TableFull,
        HandleFault::Memory => AbiFault::EngineMemory,
    }
}

impl Handed {
    /// Nothing handed over. It takes no memory.
    pub fn new(alloc: Global) -> Handed
        ensures owns { result.owns.items ≡ [] }
        ensures lends { result.lends.items ≡ [] }
    {
        Handed {
            owns: Vec::new(alloc),
            lends: Vec::new(alloc),
        }
    }

    /// Empties the lists, which keep their room.
    pub fn clear(&mut self)
        ensures owns { self.new.owns.items ≡ [] }
        ensures lends { self.new.lends.items ≡ [] }
    {
        self.owns.clear();
        self.lends.clear();
    }

    /// Takes the own handle at an index out of the table.
    fn take(&mut self, table: &mut Table, index: u32, resource: ResourceId) -> Result<(), AbiFault>
        ensures ok { OnOk result (taken_out (hands_of table.old.handles self.old) index
            (if_owned (if_not_lent (look_up table.old.handles index resource)))
            ≡ Ok (hands_of table.new.handles self.new)) }
        ensures room { OnOk result (table.new.room + length self.old.owns.items
            ≡ table.old.room + length self.new.owns.items) }
        ensures err { IfErr result (λ e. (e ≡ AbiFault.EngineMemory)
            ⊎ (taken_out (hands_of table.old.handles self.old) index
            (if_owned (if_not_lent (look_up table.old.handles index resource))) ≡ Err e)) }
        ensures unchanged { OnErr result (table.new ≡ table.old) }
        ensures kept { OnErr result (hands_of table.old.handles self.new
            ≡ hands_of table.old.handles self.old) }
    {
        let Ok(()) = self.owns.reserve(1) else {
            return Err(AbiFault::EngineMemory);
        };
        match table.take_own(index, resource) {
            Ok(handle) => {
                self.owns.push_reserved(handle);
                Ok(())
            }
            Err(fault) => Err(hand_fault(fault)),
        }
    }

    /// Lends the handle at an index once more.
    fn lend(&mut self, table: &mut Table, index: u32, resource: ResourceId) -> Result<(), AbiFault>
        requires few { ForSome (handle_at table.old.handles index) (λ h. h.lends < 2 ^ 101) }
        ensures ok { OnOk result (lent_out (hands_of table.old.handles self.old) index
            (look_up table.old.handles index resource)
            ≡ Ok (hands_of table.new.handles self.new)) }
        ensures room { OnOk result (table.new.room + length self.old.owns.items
            ≡ table.old.room + length self.new.owns.items) }
        ensures err { IfErr result (λ e. (e ≡ AbiFault.EngineMemory)
            ⊎ (lent_out (hands_of table.old.handles self.old) index
            (look_up table.old.handles index resource) ≡ Err e)) }
        ensures unchanged { OnErr result (table.new ≡ table.old) }
        ensures kept { OnErr result (hands_of table.old.handles self.new
            ≡ hands_of table.old.handles self.old) }
    {
        let Ok(()) = self.lends.reserve(1) else {
            return Err(AbiFault::EngineMemory);
        };
        match table.lend(index, resource) {
            Ok(_) => {
                self.lends.push_reserved(index);
                Ok(())
            }
            Err(fault) => Err(hand_fault(fault)),
        }
    }

    /// Hands over a handle that was met.
    #[tactic(auto, unfolding(crate::specs::HandingOver::hand_one))]
    fn add(&mut self, table: &mut Table, met: MetHandle) -> Result<(), AbiFault>
        requires few { ForSome (handle_at table.old.handles met.index) (λ h. h.lends < 2 ^ 101) }
        ensures ok { OnOk result (hand_one (hands_of table.old.handles self.old)
            met.wanted met.index ≡ Ok (hands_of table.new.handles self.new)) }
        ensures room { OnOk result (table.new.room + length self.old.owns.items
            ≡ table.old.room + length self.new.owns.items) }
        ensures err { IfErr result (λ e. (e ≡ AbiFault.EngineMemory)
            ⊎ (hand_one (hands_of table.old.handles self.old) met.wanted met.index ≡ Err e)) }
        ensures unchanged { OnErr result (table.new ≡ table.old) }
        ensures kept { OnErr result (hands_of table.old.handles self.new
            ≡ hands_of table.old.handles self.old) }
    {
        match met.wanted {
            HandleType::Own(resource) => self.take(table, met.index, resource),
            HandleType::Borrow(resource) => self.lend(table, met.index, resource),
        }
    }

    /// Takes back the handle that was handed over last.
    fn undo(&mut self, table: &mut Table, met: MetHandle)
        requires last { (before : Hands) × (hand_one before met.wanted met.index
            ≡ Ok (hands_of table.old.handles self.old)) }
        ensures undone { (before : Hands) → hand_one before met.wanted met.index
            ≡ Ok (hands_of table.old.handles self.old)
            → hands_of table.new.handles self.new ≡ before }
        ensures room { table.new.room + length self.old.owns.items
            ≡ table.old.room + length self.new.owns.items }
    {
        match met.wanted {
            HandleType::Own(_) => {
                if let Some(handle) = self.owns.pop() {
                    table.restore(met.index, handle);
                }
            }
            HandleType::Borrow(_) => {
                self.lends.pop();
                table.unlend(met.index);
            }
        }
    }

    /// Takes back all that was handed over, the last first.
    pub fn take_back(&mut self, table: &mut Table, met: &[MetHandle])
        requires all { (before : Handles) × (hand_over (untouched before) met.now
            ≡ Ok (hands_of table.old.handles self.old)) }
        ensures undone { (before : Handles) → hand_over (untouched before) met.now
            ≡ Ok (hands_of table.old.handles self.old) → table.new.handles ≡ before }
        ensures room { table.new.room + length self.old.owns.items ≡ table.old.room }
    {
        let mut left = met.len();
        while left > 0 {
            left -= 1;
            self.undo(table, met[left]);
        }
    }
}

/// The handles of any table are sound.
pub fn is_sound(table: &Table)
    ensures { IsSoundHandles table.now.handles }
{
    let _handle = table.get(0, NO_RESOURCE);
}

/// Hands over the handles that were met, one after another: an own handle is taken out of the
/// table, and one to be borrowed is lent once more.
///
/// What was handed over is listed in `handed`, in the place of what stood there; the lists keep
/// their room.
///
/// Refused at the first that cannot be handed over, with the table as it was: with `NoHandle`, else
/// `WrongResource`, else for one to be owned `StillLent`, else `NotOwned`. `EngineMemory` comes
/// where there is no memory for what is handed over; where nothing is, none is taken.
#[inline(always)]
pub fn hand_over(table: &mut Table, met: &[MetHandle], handed: &mut Handed) -> Result<(), AbiFault>
    requires lends { LendsBelow (2 ^ 100) table.old.handles }
    ensures ok { OnOk result (hand_over (untouched table.old.handles) met.now
        ≡ Ok (hands_of table.new.handles handed.new)) }
    ensures room { OnOk result (table.new.room
        ≡ table.old.room + length handed.new.owns.items) }
    ensures err { IfErr result (λ e. (e ≡ AbiFault.EngineMemory)
        ⊎ (hand_over (untouched table.old.handles) met.now ≡ Err e)) }
    ensures nothing { met.now ≡ [] → IsOk result }
    ensures unchanged { OnErr result (table.new ≡ table.old) }
{
    handed.clear();
    if met.is_empty() {
        return Ok(());
    }
    for i in 0..met.len() {
        if let Err(fault) = handed.add(table, met[i]) {
            handed.take_back(table, &met[..i]);
            return Err(fault);
        }
    }
    Ok(())
}
