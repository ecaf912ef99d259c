//! What waits for an answer in a request.
ghost use Rattle.std.specs.Prelude.{◌≡◌, ◌+◌, ◌-◌, ◌<◌, ◌^◌, [], ◌∷◌, ◌++◌, OnOk, OnErr, MatchOption, length};
ghost use Rattle.aio_cancel.specs.Members.{TakesMember};

use aio_base::Memory;
use aio_future::FutureId;
use algorithm_parts::{Go, WalkFrame};
use std::alloc::Global;
use std::marker::Model;

/// Frames, with room for so many. Contracts see the room and the frames, the next one last.
#[derive(Drop)]
pub struct WalkStack {
    frames: Vec<WalkFrame>,
    room: usize,
}

impl Model for WalkStack {
    ghost use Rattle.std.specs.Prelude.{◌≤◌};
    ghost use Rattle.std.specs.Vec.{vec_capacity};
    ghost use Rattle.aio_cancel.specs.Seen.{Stacked};

    ghost Value = { Stacked };

    ghost view = { λ a. record { room = a.room; frames = a.frames.items } };

    ghost invariant = { λ a. a.room ≤ vec_capacity a.frames };
}

impl WalkStack {
    /// An empty stack without room; takes no memory.
    pub fn new(alloc: Global) -> WalkStack
        ensures { result ≡ record { room = 0; frames = [] } }
    {
        let frames = Vec::new(alloc);
        WalkStack { frames, room: 0 }
    }

    /// Room for one frame more.
    pub fn announce(&mut self) -> Result<(), Memory>
        requires { self.old.frames ≡ [] }
        ensures after { OnOk result (self.new ≡ record self.old { room = self.old.room + 1 }) }
        ensures err { OnErr result (self.new ≡ self.old) }
    {
        let Some(room) = self.room.checked_add(1) else {
            return Err(Memory);
        };
        self.frames.reserve(room)?;
        self.room = room;
        Ok(())
    }

    /// Room for one frame less is wanted. The memory stays, and what is announced next takes it.
    pub fn retire(&mut self)
        ensures { self.new ≡ record self.old { room = self.old.room - 1 } }
    {
        self.room = self.room.saturating_sub(1);
    }

    /// Puts a frame on top, into room that was made before.
    pub fn push(&mut self, frame: WalkFrame)
        requires { length self.old.frames < self.old.room }
        ensures { self.new ≡ record self.old { frames = self.old.frames ++ frame ∷ [] } }
    {
        let pushed = self.frames.push(frame);
        prove!(pushed.is_ok());
    }

    /// The next member of a future that stands for several, at a place: where it was made before
    /// that it comes next, and those after it wait. Another one is passed over.
    pub(crate) fn take_member(
        &mut self,
        id: FutureId,
        place: usize,
        any: bool,
        member: FutureId,
    ) -> Go
        requires place { place + 1 < 2 ^ 64 }
        requires room { member < id → length self.old.frames < self.old.room }
        ensures { TakesMember id place member any self.old result self.new }
    {
        if member < id {
            self.push(WalkFrame::Members {
                id,
                place: place + 1,
                any,
            });
            Go::Visit(member)
        } else {
            Go::Next {
                id,
                place: place + 1,
                any,
            }
        }
    }

    /// Takes the top frame; None exactly where there is none. The room stays.
    pub fn pop(&mut self) -> Option<WalkFrame>
        ensures room { self.new.room ≡ self.old.room }
        ensures frames { MatchOption result
            ((self.old.frames ≡ []) × (self.new.frames ≡ []))
            (λ frame. self.old.frames ≡ self.new.frames ++ frame ∷ []) }
    {
        self.frames.pop()
    }

    /// No frame waits.
    pub fn clear(&mut self)
        ensures { self.new ≡ record self.old { frames = [] } }
    {
        self.frames.clear();
    }
}
