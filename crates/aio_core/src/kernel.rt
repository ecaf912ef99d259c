//! The kernel.
ghost use Rattle.aio_core.specs.Turning.{AliveUnless};

use crate::begin::begin;
use crate::ending::{end, keep};
use crate::turns::{is_stalled, turn};
use crate::went::Went;
use aio_base::Memory;
use aio_body::RunState;
use aio_extra::Extra;
use aio_program::Program;
use aio_wire::{Events, Wire};
use std::alloc::Global;

/// A run of a program, between two turns, over what is added to the loop's own requests. After any
/// answer of a turn but `Went` the run has ended.
#[derive(Drop)]
pub struct Kernel<X: Extra> {
    body: RunState<X>,
    // how the run ended
    ended: Option<Went>,
    // once main is done, the task that was seen last to live
    seen: u32,
    ghost alive: { ∥ AliveUnless X.added ended body ∥₁ },
}

impl<X: Extra + Drop> Kernel<X> {
    ghost use Rattle.std.specs.Prelude.{◌≡◌, ◌^◌, ◌<◌, List, [], ◌++◌, IfOk};
    ghost use Rattle.model_wire.specs.Event.{Event};
    ghost use Rattle.model_wire.specs.Journal.{Entry};
    ghost use Rattle.model_loop.specs.Tasks.{next_task};
    ghost use Rattle.model_machine.specs.State.{State};
    ghost use Rattle.model_machine.specs.Turn.{is_stalled};
    ghost use Rattle.aio_extra.specs.Added.{KeepsNothing};
    ghost use Rattle.aio_core.specs.Turned.{KernelStandsFor, Begins, KernelTurned, ended, held_tasks, untaken};

    /// A run begins at time 0, with main's task, whose first step is pending. What is added keeps
    /// nothing so far.
    pub fn new(alloc: Global, program: &Program, extra: X) -> Result<Kernel<X>, Memory>
        requires fresh { ∥ ((kept : X.added.Kept) × KeepsNothing X.added extra kept) ∥₁ }
        ensures { IfOk result (λ kernel. (kept : X.added.Kept) → KeepsNothing X.added extra kept
            → Begins X.added kept program.now kernel) }
    {
        let body = begin(alloc, program, extra)?;
        Ok(Kernel {
            body,
            ended: None,
            seen: 0,
        })
    }

    /// A turn. After any answer but `Went` it answers that again, or that memory was refused, and
    /// asks nothing.
    pub fn turn<W: Wire>(&mut self, alloc: Global, wire: &mut W) -> Went
        ensures { KernelTurned X.added W.outside wire.old wire.new self.old self.new result }
    {
        if let Some(ended) = self.ended.take() {
            return end(alloc, &mut self.ended, ended);
        }
        match turn(&mut self.body, alloc, wire, &mut self.seen) {
            Ok(went) => keep(alloc, &mut self.ended, went),
            Err(stop) => keep(alloc, &mut self.ended, Went::Stopped(stop)),
        }
    }

    /// Takes the events out that came since the last call.
    pub fn events(&mut self) -> Events
        ensures taken { result.events ≡ untaken self.old }
        ensures left { untaken self.new ≡ [] }
        ensures ended { ended self.new ≡ ended self.old }
        ensures tasks { held_tasks self.new ≡ held_tasks self.old }
        ensures stands { (past : List Event) (answers : List Entry) (s : State X.added.Kept)
            → KernelStandsFor X.added past answers self.old s
            → KernelStandsFor X.added (past ++ untaken self.old) answers self.new s }
    {
        self.body.events.take()
    }

    /// Whether nothing is pending and nothing can come, so that the next turn is stalled.
    pub fn is_stalled(&self) -> bool
        ensures { (past : List Event) (answers : List Entry) (s : State X.added.Kept)
            → KernelStandsFor X.added past answers self.now s
            → result ≡ is_stalled X.added.meaning s }
    {
        is_stalled(&self.body)
    }

    /// How many tasks were made so far. After a turn with which a run finished, it is all of them.
    pub fn tasks(&self) -> u32
        ensures made { (past : List Event) (answers : List Entry) (s : State X.added.Kept)
            → KernelStandsFor X.added past answers self.now s → result ≡ next_task s.loop.parts }
        ensures held { held_tasks self.now < 2 ^ 32 → result ≡ held_tasks self.now }
    {
        u32::try_from(self.body.slots.len()).unwrap_or(u32::MAX)
    }
}
