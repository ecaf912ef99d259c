//! What a request notes of the futures that stand for several.
ghost use Rattle.std.specs.Prelude.{◌≡◌, ℕ, Bool, Some, OnOk, OnErr};
ghost use Rattle.algorithm_parts.specs.Quiet.{OnlyAdds};
ghost use Rattle.aio_cancel.specs.Noted.{noted, HasNoNotes};

use aio_base::Memory;
use aio_future::FutureId;
use indexmap::IndexMap;
use std::alloc::Global;
use std::marker::Model;

/// In which request a future was gone through, and what it would answer again in that request.
#[derive(Drop)]
pub struct Note {
    pub request: u64,
    pub again: bool,
}

/// A note for each future that was announced. Those of earlier requests say nothing.
#[derive(Drop)]
pub struct Notes {
    held: IndexMap<FutureId, Note>,
    request: u64,
    // no number was left for the request, so nothing is noted any more
    known: bool,
}

impl Model for Notes {
    ghost use Rattle.aio_cancel.specs.Noted.{Noted, AreEarlier};

    ghost Value = { Noted };

    ghost view = { λ a. record { entries = a.held.entries; request = a.request; known = a.known } };

    ghost invariant = { λ a. AreEarlier a.held.entries a.request };
}

impl Notes {
    /// No notes; takes no memory.
    pub fn new(alloc: Global) -> Notes
        ensures { HasNoNotes result }
    {
        Notes {
            held: IndexMap::new(alloc),
            request: 1,
            known: true,
        }
    }

    /// Room for a note of one future more.
    pub fn announce(&mut self, id: FutureId) -> Result<(), Memory>
        ensures after { OnOk result ((other : ℕ) (again : Bool)
            → noted self.new other ≡ Some again → noted self.old other ≡ Some again) }
        ensures err { OnErr result (self.new ≡ self.old) }
    {
        let (request, again) = (0, false);
        self.held.insert(id, Note { request, again })?;
        Ok(())
    }

    /// A future that is released needs no note.
    pub fn forget(&mut self, id: FutureId)
        ensures { (other : ℕ) (again : Bool) → noted self.new other ≡ Some again
            → noted self.old other ≡ Some again }
    {
        let _note = self.held.swap_remove(&id);
    }

    /// What a future would answer again, if that is noted.
    pub fn of(&self, id: FutureId) -> Option<bool>
        ensures { result ≡ noted self.now id }
    {
        match self.held.get(&id) {
            Some(note) => {
                if self.known && note.request == self.request {
                    Some(note.again)
                } else {
                    None
                }
            }
            None => None,
        }
    }

    /// Notes what a future would answer again, if it was announced.
    pub fn put(&mut self, id: FutureId, again: bool)
        ensures { OnlyAdds (noted self.old) id again (noted self.new) }
    {
        let request = self.request;
        let Some(note) = self.held.get_mut(&id) else {
            return;
        };
        *note = Note { request, again };
    }

    /// Nothing is noted.
    pub fn clear(&mut self)
        ensures { HasNoNotes self.new }
    {
        match self.request.checked_add(1) {
            Some(request) => self.request = request,
            None => self.known = false,
        }
    }
}
