//! What plays the instances of a set beside a host.

ghost use Rattle.cm_host.specs.Calls.{PlaysSeat};

use crate::caller::Caller;
use crate::served::Served;
use crate::service::Service;
use cm_machine::{Event, Move, SeeingGuest};

/// What plays an instance: a host on its seats, or a guest of another kind on those of other
/// components.
#[derive(Drop)]
pub enum Played<S, G = Caller> {
    /// A seat whose functions are those of a service.
    Host(Served<S>),
    /// A seat that makes a call.
    Caller(Caller),
    /// An instance of any other component.
    Guest(G),
}

impl<S: Service, G: SeeingGuest> SeeingGuest for Played<S, G> {
    ghost plays = { λ p told.
        PlaysSeat ⟦<Served<S> as SeeingGuest>⟧.plays ⟦<Caller as SeeingGuest>⟧.plays G.plays p
        told };

    fn next(&mut self, seen: &Event, memory: &[u8]) -> Move {
        match self {
            Played::Host(served) => served.next(seen, memory),
            Played::Caller(caller) => caller.next(seen, memory),
            Played::Guest(guest) => guest.next(seen, memory),
        }
    }
}
