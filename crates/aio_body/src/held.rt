//! The slot of a task as it is kept: in few bytes, and in fewest where the task is done.
ghost use Rattle.std.specs.Prelude.{◌≡◌, None, Some, OnOk};
ghost use Rattle.aio_body.specs.Near.{standing_of};
ghost use Rattle.aio_body.specs.Held.{slot_in, standing_in};
ghost use Rattle.aio_body.specs.declared.resume_point.ResumePoint.TheVariants.{Asked};

use crate::resume_point::{Near, ResumePoint, Slot};
use aio_base::Memory;
use aio_gen::Gen;
use model_wire::Handed;
use std::alloc::Global;
use std::marker::Model;
use std::mem;

// What a task stands at that takes no memory of its own. Each kind but the first has a number.
#[derive(Clone, Copy)]
enum Kind {
    Asked,
    Leaving,
    YieldingConn,
    YieldingChild,
}

#[derive(Clone, Copy)]
struct Brief {
    kind: Kind,
    number: u32,
}

// Where the coroutine is. A standing that is more than a number has memory of its own, as long as
// the task stands there. The kind stands beside its number here, which takes the fewest bytes.
#[derive(Drop)]
enum Room {
    Empty {
        kind: Kind,
        number: u32,
    },
    Runs {
        kind: Kind,
        number: u32,
        coroutine: Gen,
    },
    Far(Box<Slot>),
}

/// The slot of a task. Contracts see the slot.
#[derive(Drop)]
pub struct HeldSlot {
    room: Room,
}

impl Model for HeldSlot {
    ghost use Rattle.aio_body.specs.contracts.resume_point.Slot.{the_row};
    ghost use Rattle.aio_body.specs.declared.resume_point.Slot.{Slot};

    ghost Value = { Slot };

    ghost coded = { the_row.coded };

    ghost use Rattle.aio_body.specs.Held.{slot_in};

    ghost view = { λ a. slot_in a.room };
}

fn brief_of(near: Near) -> Brief
    ensures { standing_in result.kind result.number ≡ standing_of near }
{
    match near {
        Near::Leaving(number) => Brief {
            kind: Kind::Leaving,
            number,
        },
        Near::Yielding(Handed::Conn(number)) => Brief {
            kind: Kind::YieldingConn,
            number,
        },
        Near::Yielding(Handed::Child(number)) => Brief {
            kind: Kind::YieldingChild,
            number,
        },
    }
}

fn resume_point_at(kind: Kind, number: u32) -> ResumePoint
    ensures { result ≡ standing_in kind number }
{
    match kind {
        Kind::Asked => ResumePoint::Asked,
        Kind::Leaving => ResumePoint::Leaving(number),
        Kind::YieldingConn => ResumePoint::Yielding(Handed::Conn(number)),
        Kind::YieldingChild => ResumePoint::Yielding(Handed::Child(number)),
    }
}

// Nothing runs there.
fn vacant() -> Room
    ensures { slot_in result ≡ record { coroutine = None; resume_point = Asked } }
{
    Room::Empty {
        kind: Kind::Asked,
        number: 0,
    }
}

impl HeldSlot {
    /// A coroutine that waits for its first input.
    pub fn starting(coroutine: Gen) -> HeldSlot
        ensures { result ≡ record { coroutine = Some coroutine; resume_point = Asked } }
    {
        HeldSlot {
            room: Room::Runs {
                kind: Kind::Asked,
                number: 0,
                coroutine,
            },
        }
    }

    /// What is in it is taken out, and nothing is left.
    pub fn take(&mut self) -> Slot
        ensures taken { result ≡ self.old }
        ensures left { self.new ≡ record { coroutine = None; resume_point = Asked } }
    {
        match mem::replace(&mut self.room, vacant()) {
            Room::Empty { kind, number } => Slot {
                coroutine: None,
                resume_point: resume_point_at(kind, number),
            },
            Room::Runs {
                kind,
                number,
                coroutine,
            } => Slot {
                coroutine: Some(coroutine),
                resume_point: resume_point_at(kind, number),
            },
            Room::Far(slot) => Box::into_inner(slot),
        }
    }

    /// A coroutine is put back.
    pub fn put_back(&mut self, coroutine: Gen)
        ensures { self.new ≡ record self.old { coroutine = Some coroutine } }
    {
        let room = mem::replace(&mut self.room, vacant());
        self.room = with_coroutine(room, coroutine);
    }

    /// The request at which the task stands, in the memory that there is.
    pub fn stand(&mut self, near: Near)
        ensures { self.new ≡ record self.old { resume_point = standing_of near } }
    {
        let room = mem::replace(&mut self.room, vacant());
        self.room = with_standing(room, brief_of(near));
    }

    /// The request at which the task stands, in memory of its own.
    pub fn stand_far(&mut self, alloc: Global, resume_point: ResumePoint) -> Result<(), Memory>
        ensures { OnOk result (self.new ≡ record self.old { resume_point = resume_point }) }
    {
        let room = mem::replace(&mut self.room, vacant());
        let coroutine = coroutine_in(room);
        let slot = Box::new(
            alloc,
            Slot {
                coroutine,
                resume_point,
            },
        )?;
        self.room = Room::Far(slot);
        Ok(())
    }
}

fn with_coroutine(room: Room, coroutine: Gen) -> Room
    ensures { slot_in result ≡ record (slot_in room) { coroutine = Some coroutine } }
{
    match room {
        Room::Empty { kind, number } => Room::Runs {
            kind,
            number,
            coroutine,
        },
        Room::Runs {
            kind,
            number,
            coroutine: _before,
        } => Room::Runs {
            kind,
            number,
            coroutine,
        },
        Room::Far(slot) => Room::Far(with_its_coroutine(slot, coroutine)),
    }
}

fn with_its_coroutine(slot: Box<Slot>, coroutine: Gen) -> Box<Slot>
    ensures { result.value ≡ record slot.value { coroutine = Some coroutine } }
{
    let mut slot = slot;
    slot.coroutine = Some(coroutine);
    slot
}

fn with_standing(room: Room, brief: Brief) -> Room
    ensures { slot_in result
        ≡ record (slot_in room) { resume_point = standing_in brief.kind brief.number } }
{
    let Brief { kind, number } = brief;
    match room {
        Room::Empty { kind: _, number: _ } => Room::Empty { kind, number },
        Room::Runs {
            kind: _,
            number: _,
            coroutine,
        } => Room::Runs {
            kind,
            number,
            coroutine,
        },
        Room::Far(slot) => Room::Far(with_its_standing(slot, resume_point_at(kind, number))),
    }
}

fn with_its_standing(slot: Box<Slot>, resume_point: ResumePoint) -> Box<Slot>
    ensures { result.value ≡ record slot.value { resume_point = resume_point } }
{
    let mut slot = slot;
    slot.resume_point = resume_point;
    slot
}

fn coroutine_in(room: Room) -> Option<Gen>
    ensures { result ≡ (slot_in room).coroutine }
{
    match room {
        Room::Empty { kind: _, number: _ } => None,
        Room::Runs {
            kind: _,
            number: _,
            coroutine,
        } => Some(coroutine),
        Room::Far(slot) => coroutine_of(Box::into_inner(slot)),
    }
}

// The coroutine of a slot, whose standing is let go.
fn coroutine_of(slot: Slot) -> Option<Gen>
    ensures { result ≡ slot.coroutine }
{
    let Slot {
        coroutine,
        resume_point: _standing,
    } = slot;
    coroutine
}
