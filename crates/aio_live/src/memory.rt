//! Want of memory.
ghost use Rattle.std.specs.Prelude.{◌≡◌};
ghost use Rattle.aio_live.specs.Starved.{starved};

use crate::state::State;
use aio_inbox::InboxName;

impl<N: InboxName, Run> State<N, Run> {
    /// Whether memory was refused.
    pub fn is_starved(&self) -> bool
        ensures { result ≡ self.now.hub.starved }
    {
        self.starved
    }

    /// Memory was refused: nothing is answered any more.
    pub fn starve(&mut self)
        ensures { self.new ≡ starved self.old }
    {
        self.starved = true;
    }
}
