//! What tasks run and stand at.
ghost use Rattle.std.specs.Prelude.{◌≡◌, ◌<◌, None, Some, IfOk, OnOk, length, slice_get, slice_set};
ghost use Rattle.model_loop.specs.Owning.{owner_at};
ghost use Rattle.aio_body.specs.GivingUp.{IsNoTasks, given_up_in, release_done};
ghost use Rattle.aio_body.specs.Near.{standing_of};
ghost use Rattle.aio_body.specs.Slots.{HoldsMore, no_slot, put_back, resume_point_at};

use crate::held::HeldSlot;
use crate::resume_point::{Near, ResumePoint, Slot};
use crate::run_state::RunState;
use aio_base::{Memory, Value, ValueList};
use aio_gen::Gen;
use aio_task::FutureId;
use std::alloc::Global;

impl<X> RunState<X> {
    /// The coroutine of the task that is made next.
    pub fn hold(
        &mut self,
        alloc: Global,
        coroutine: u32,
        arguments: &ValueList,
    ) -> Result<(), Memory>
        ensures { OnOk result (HoldsMore coroutine arguments.now self.old self.new) }
    {
        let arguments = copies(alloc, arguments.items())?;
        let coroutine = Gen::start(alloc, &self.code, coroutine, arguments)?;
        self.slots.push(HeldSlot::starting(coroutine))?;
        Ok(())
    }

    /// What a task runs is taken out.
    pub fn take(&mut self, task: u32) -> Slot
        requires { task < length self.old.slots.items }
        ensures slot { slice_get self.old.slots.items task ≡ Some result }
        ensures frame { self.new ≡ record self.old { slots = self.new.slots } }
        ensures slots { self.new.slots.items ≡ slice_set self.old.slots.items task no_slot }
    {
        let slot = &mut self.slots[task as usize];
        slot.take()
    }

    /// The coroutine of a task is put back.
    pub fn put_back(&mut self, task: u32, coroutine: Gen)
        requires { task < length self.old.slots.items }
        ensures frame { self.new ≡ record self.old { slots = self.new.slots } }
        ensures slots { self.new.slots.items ≡ put_back task coroutine self.old.slots.items }
    {
        let slot = &mut self.slots[task as usize];
        slot.put_back(coroutine);
    }

    /// The request at which a task stands, where that takes no memory of its own.
    pub fn stand(&mut self, task: u32, near: Near)
        requires { task < length self.old.slots.items }
        ensures frame { self.new ≡ record self.old { slots = self.new.slots } }
        ensures slots { self.new.slots.items
            ≡ resume_point_at task (standing_of near) self.old.slots.items }
    {
        let slot = &mut self.slots[task as usize];
        slot.stand(near);
    }

    /// The request at which a task stands, in memory of its own until the task is resumed.
    pub fn stand_far(&mut self, task: u32, resume_point: ResumePoint) -> Result<(), Memory>
        requires { task < length self.old.slots.items }
        ensures frame { self.new ≡ record self.old { slots = self.new.slots } }
        ensures slots { OnOk result
            (self.new.slots.items ≡ resume_point_at task resume_point self.old.slots.items) }
    {
        let alloc = *self.slots.allocator();
        let slot = &mut self.slots[task as usize];
        slot.stand_far(alloc, resume_point)
    }

    /// The timer of a sleep is given up as its task is resumed, and the future of a sleep or of a
    /// connect is let go.
    pub fn give_up(&mut self, resume_point: &ResumePoint)
        requires idle { self.old.parts.called ≡ None }
        requires no_task { IsNoTasks resume_point.now self.old.parts }
        ensures { self.new
            ≡ record self.old { parts = given_up_in resume_point.now self.old.parts } }
    {
        match resume_point {
            ResumePoint::Asked => {}
            ResumePoint::Sleeping { timer, future } => {
                self.parts.cancel_timer(*timer);
                self.release(*future);
            }
            ResumePoint::Leaving(_) => {}
            ResumePoint::Serving(_) => {}
            ResumePoint::Connecting { conn: _, future } => self.release(*future),
            ResumePoint::Yielding(_) => {}
            ResumePoint::Reading {
                from: _,
                op: _,
                on: _,
            } => {}
            ResumePoint::ReadingAll {
                from: _,
                taken: _,
                on: _,
            } => {}
        }
    }

    // A future that nobody else asks for, if it is done.
    fn release(&mut self, future: FutureId)
        requires idle { self.old.parts.called ≡ None }
        requires no_task { owner_at (slice_get self.old.parts.futures future) ≡ None }
        ensures { self.new ≡ record self.old { parts = release_done future self.old.parts } }
    {
        if self.parts.outcome(future).is_some() {
            self.parts.release(future);
        }
    }
}

fn copies(alloc: Global, values: &[Value]) -> Result<Vec<Value>, Memory>
    ensures { IfOk result (λ copies. copies.items ≡ values.now) }
{
    let mut copies = Vec::new(alloc);
    for value in values {
        copies.push(value.clone()?)?;
    }
    Ok(copies)
}
