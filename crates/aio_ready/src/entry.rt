//! A handle that waits in a chain.
ghost use Rattle.std.specs.Prelude.{◌≡◌, map};
ghost use Rattle.aio_ready.specs.Entries.{loosely_marked};

use crate::handle::{Handle, HandleName};
use crate::index::Leaf;
use aio_base::Action;
use aio_chain::Chain;

/// A handle that waits.
#[derive(Drop)]
pub enum Entry {
    /// It says by itself whether it is dead, and keeps its ticket's place in the register.
    Loose(Handle, Leaf),
    /// The register says under its name whether it is dead.
    Registered(HandleName, Action),
}

impl Entry {
    // The handle, dead where it has this name and says so by itself.
    fn marked(self, name: HandleName) -> Entry
        ensures { result ≡ loosely_marked name self }
    {
        match self {
            Entry::Loose(handle, leaf) => Entry::Loose(handle.marked(name), leaf),
            Entry::Registered(own, action) => Entry::Registered(own, action),
        }
    }
}

/// Those with this name that say so by themselves are dead.
pub fn mark_loose(handles: &mut Chain<Entry>, name: HandleName)
    ensures { handles.new ≡ map (loosely_marked name) handles.old }
{
    let mut marked = Chain::new();
    while let Some((entry, spare)) = handles.pop() {
        marked.push(spare, entry.marked(name));
    }
    handles.append(&mut marked);
}
