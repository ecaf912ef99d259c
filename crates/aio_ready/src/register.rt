//! Which handles wait, by name.
ghost use Rattle.std.specs.Prelude.{◌≡◌, [], None, Some, true, false, OnOk, OnErr};
ghost use Rattle.std.specs.Option.{option_map, is_some};
ghost use Rattle.aio_ready.specs.Entries.{is_dead};
ghost use Rattle.aio_ready.specs.Registered.{state, IsEntered, IsStruck, IsLeft};

use crate::handle::HandleName;
use crate::index::{Index, Leaf};

/// The names of handles that wait, each with whether its handle is dead.
#[derive(Drop)]
pub struct Register {
    pub given: Index,
    pub timers: Index,
}

impl Register {
    /// No names; takes no memory.
    pub fn new() -> Register
        ensures { result ≡ record { given = []; timers = [] } }
    {
        Register {
            given: Index::new(),
            timers: Index::new(),
        }
    }

    /// A name that isn't there is entered, in memory of its ticket. The memory comes back where the
    /// name is there already or names nothing.
    pub fn enter(&mut self, name: HandleName, leaf: Leaf) -> Result<(), Leaf>
        ensures free { OnOk result (state self.old name ≡ None) }
        ensures there { OnOk result (state self.new name ≡ Some false) }
        ensures after { OnOk result (IsEntered name self.old self.new) }
        ensures err { OnErr result (self.new ≡ self.old) }
    {
        match name {
            HandleName::Nameless => Err(leaf),
            HandleName::Given(number) => self.given.put(number, leaf),
            HandleName::Timer(number) => self.timers.put(number, leaf),
        }
    }

    /// The handle of a name that is there is dead.
    pub fn strike(&mut self, name: HandleName)
        ensures { IsStruck name self.old self.new }
    {
        match name {
            HandleName::Nameless => {}
            HandleName::Given(number) => self.given.mark(number),
            HandleName::Timer(number) => self.timers.mark(number),
        }
    }

    /// A name that is there leaves, and its memory comes back. The answer begins with whether its
    /// handle is dead.
    pub fn leave(&mut self, name: HandleName) -> (bool, Leaf)
        requires { is_some (state self.old name) ≡ true }
        ensures dead { result.0 ≡ is_dead (state self.old name) }
        ensures after { IsLeft name self.old self.new }
    {
        match self.take(name) {
            Some(left) => left,
            None => unreachable!(),
        }
    }

    fn take(&mut self, name: HandleName) -> Option<(bool, Leaf)>
        ensures dead { option_map (λ left. left.0) result ≡ state self.old name }
        ensures after { IsLeft name self.old self.new }
    {
        match name {
            HandleName::Nameless => None,
            HandleName::Given(number) => self.given.take(number),
            HandleName::Timer(number) => self.timers.take(number),
        }
    }
}
