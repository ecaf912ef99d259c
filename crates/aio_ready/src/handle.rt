//! One handle.
ghost use Rattle.std.specs.Prelude.{◌≡◌};
ghost use Rattle.aio_ready.specs.Names.{is_same, marked};

use aio_base::Action;

/// What a handle can be cancelled by.
#[derive(Clone, Copy)]
pub enum HandleName {
    /// Nothing: no number was left.
    Nameless,
    /// The number that `Ready::soon` gave.
    Given(u64),
    /// The number of the timer that it waited in.
    Timer(u64),
}

/// What `Ready::soon` answers.
#[derive(Clone, Copy)]
pub struct HandleId {
    pub name: HandleName,
}

/// A handle that waits to run: what it runs, and whether it was cancelled.
#[derive(Drop)]
pub struct Handle {
    pub name: HandleName,
    pub action: Action,
    pub dead: bool,
}

impl HandleName {
    /// Whether both name one handle. `Nameless` names none.
    pub fn is_same(self, other: HandleName) -> bool
        ensures { result ≡ is_same self other }
    {
        match (self, other) {
            (HandleName::Given(own), HandleName::Given(others)) => own == others,
            (HandleName::Timer(own), HandleName::Timer(others)) => own == others,
            _ => false,
        }
    }
}

impl Handle {
    /// The handle, dead where it has this name.
    pub fn marked(self, name: HandleName) -> Handle
        ensures { result ≡ marked name self }
    {
        let dead = self.dead | name.is_same(self.name);
        Handle {
            name: self.name,
            action: self.action,
            dead,
        }
    }
}
