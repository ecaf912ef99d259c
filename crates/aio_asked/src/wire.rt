//! A hub is a wire.
use crate::hub::Hub;
use aio_base::Memory;
use aio_hub::{Launcher, Poller};
use aio_inbox::{Inbox, InboxName, Poster};
use aio_wire::{Call, Reply, Wire};
use std::alloc::Global;
use std::sync::Wait;

impl<N: InboxName, R: Wait, P: Poller, L: Launcher<Inbox<N>, Poster<N>>> Wire for Hub<N, R, P, L> {
    ghost use Rattle.aio_asked.specs.Wired.{wire_of};

    ghost outside = { record {
      seen = λ hub. wire_of (P.seen hub.poller) hub.state.hub;
      fails = λ _. ⊥;
      keeps = λ _ _. Unit {0};
      quiet = λ _ _. Unit {0};
      end_agrees = λ _. tt;
      keeps_same = λ _. tt;
      keeps_on = λ _ _ _ _ _. tt;
      quiet_same = λ _. tt;
      quiet_on = λ _ _ _ _ _. tt;
    } };

    fn ask(&mut self, alloc: Global, call: &Call) -> Result<Reply, Memory> {
        self.ask_any(alloc, call)
    }
}
