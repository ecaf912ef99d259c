//! One task group.
ghost use Rattle.std.specs.Prelude.{◌≡◌, ◌+◌, ◌||◌, ◌<◌, ◌==◌, ◌++◌, ◌∷◌, [], ℕ, true, false, not, Some, None, OnOk, OnErr, filter, if◌then◌else◌};
ghost use Rattle.std.specs.List.{AllByRecursion as Each};
ghost use Rattle.std.specs.Option.{option_copied, unwrap_or};
ghost use Rattle.model_loop.specs.Cancel.{has_seen};
ghost use Rattle.model_loop.specs.Groups as plain;
ghost use Rattle.aio_group.specs.Held.{new_held, shown, failing};
ghost use Rattle.aio_group.specs.Answers.{answer_of, gone_on, created_of, ended_with};
ghost use Rattle.aio_group.specs.declared.created.Created.TheVariants as created;

use crate::created::Created;
use crate::exit::{ExitStep, GroupExit};
use crate::failures::is_cancelled;
use aio_base::{Exc, Memory};
use aio_task::FutureId;
use std::alloc::Global;
use std::collections::BTreeSet;
use std::marker::Model;

/// A task group. Contracts see it as `Held`. The place of a child's number among those that failed
/// is made with the child.
#[derive(Drop)]
pub struct Group {
    parent: u32,
    entered: bool,
    exiting: bool,
    ended: bool,
    aborting: bool,
    requested: bool,
    // task numbers rise, so this is the order of creation
    children: BTreeSet<u32>,
    failed: Vec<u32>,
    body: Option<Exc>,
    kept: Option<Exc>,
    exit_future: Option<FutureId>,
}

impl Model for Group {
    ghost use Rattle.std.specs.Prelude.{◌+◌, ◌≤◌, length, vec_capacity};
    ghost use Rattle.std.specs.List.Sorted.{IsStrictlySortedBy};
    ghost use Rattle.std.specs.Ordering.{nat_cmp};
    ghost use Rattle.aio_group.specs.Held.{Held};
    ghost use Rattle.aio_group.specs.Code.{coded_held};

    ghost Value = { Held };

    ghost coded = { coded_held };

    ghost view = { λ a. record {
      parent = a.parent;
      entered = a.entered;
      exiting = a.exiting;
      ended = a.ended;
      aborting = a.aborting;
      requested = a.requested;
      children = a.children.keys;
      failed = a.failed.items;
      body = a.body;
      kept = a.kept;
      exit_future = a.exit_future;
    } };

    ghost invariant = { λ a.
        (length a.children.keys + length a.failed.items ≤ vec_capacity a.failed)
        × IsStrictlySortedBy nat_cmp a.children.keys };
}

impl Group {
    /// A group that isn't entered.
    pub fn new(alloc: Global, parent: u32) -> Group
        ensures { result ≡ new_held parent }
    {
        Group {
            parent,
            entered: false,
            exiting: false,
            ended: false,
            aborting: false,
            requested: false,
            children: BTreeSet::new(alloc),
            failed: Vec::new(alloc),
            body: None,
            kept: None,
            exit_future: None,
        }
    }

    /// The task whose block it is.
    pub fn parent(&self) -> u32
        ensures { result ≡ self.now.parent }
    {
        self.parent
    }

    /// Whether it aborts.
    pub fn aborts(&self) -> bool
        ensures { result ≡ self.now.aborting }
    {
        self.aborting
    }

    /// Whether a failure changes nothing more: it aborts, or its parent's cancel was asked for.
    pub fn is_blamed(&self) -> bool
        ensures { result ≡ (self.now.aborting || self.now.requested) }
    {
        self.aborting || self.requested
    }

    /// Whether its parent's cancel was asked for.
    pub fn has_requested(&self) -> bool
        ensures { result ≡ self.now.requested }
    {
        self.requested
    }

    /// The tasks that it wasn't told to be done, in order of creation.
    pub fn children(&self) -> &BTreeSet<u32>
        ensures { result.now.keys ≡ self.now.children }
    {
        &self.children
    }

    /// Whether it has no such task left.
    pub fn is_empty(&self) -> bool
        ensures { result ≡ plain.is_empty self.now.children }
    {
        self.children.is_empty()
    }

    /// The tasks that failed, in the order in which it was told.
    pub fn failed(&self) -> &[u32]
        ensures { result.now ≡ self.now.failed }
    {
        self.failed.as_slice()
    }

    /// The failure of its body, if there was one.
    pub fn body(&self) -> Option<&Exc>
        ensures { option_copied result ≡ self.now.body }
    {
        self.body.as_ref()
    }

    /// What its exit waits for, if it waits.
    pub fn exit_future(&self) -> Option<FutureId>
        ensures { result ≡ self.now.exit_future }
    {
        self.exit_future
    }

    /// The block is entered (`TaskGroup.__aenter__`).
    pub fn enter(&mut self)
        ensures { self.new ≡ record self.old { entered = true } }
    {
        self.entered = true;
    }

    /// Why no task is made in it, if none is.
    pub fn refuses(&self) -> Option<Created>
        ensures { (task : ℕ) → created_of (plain.refusal (shown self.now)) task
            ≡ (unwrap_or result (created.Task task)) }
    {
        if !self.entered {
            return Some(Created::NotEntered);
        }
        if self.exiting && self.children.is_empty() {
            return Some(Created::Finished);
        }
        if self.aborting {
            Some(Created::ShuttingDown)
        } else {
            None
        }
    }

    /// A child whose number is greater than all others, and the place of its failure.
    pub fn add(&mut self, task: u32) -> Result<(), Memory>
        requires { Each (λ child. child < task) self.old.children }
        ensures after { OnOk result
            (self.new ≡ record self.old { children = self.old.children ++ task ∷ [] }) }
        ensures err { OnErr result (self.new ≡ self.old) }
    {
        let wanted = self.children.len().saturating_add(1);
        self.failed.reserve(wanted)?;
        self.children.insert(task)?;
        Ok(())
    }

    /// A child is let go.
    pub fn remove(&mut self, task: u32)
        ensures { self.new
            ≡ record self.old {
              children = filter
                  (λ child. not (child == task)) self.old.children;
            } }
    {
        let _was_there = self.children.remove(&task);
    }

    /// A child is let go, and where it failed its number is kept.
    pub fn hear_of(&mut self, task: u32, failed: bool)
        requires { has_seen self.old.children task ≡ true }
        ensures { self.new ≡ record self.old {
          children = filter (λ child. not (child == task)) self.old.children;
          failed = self.old.failed ++ (if failed then task ∷ [] else []);
        } }
    {
        let _was_there = self.children.remove(&task);
        if failed {
            let pushed = self.failed.push(task);
            prove!(pushed.is_ok());
        }
    }

    /// From now on it aborts (`TaskGroup._abort`).
    pub fn set_aborting(&mut self)
        ensures { self.new ≡ record self.old { aborting = true } }
    {
        self.aborting = true;
    }

    /// Its parent's cancel is asked for.
    pub fn set_requested(&mut self)
        ensures { self.new ≡ record self.old { requested = true } }
    {
        self.requested = true;
    }

    /// The block has ended, by this exception if by one: a CancelledError is kept.
    pub fn set_exiting(&mut self, raised: Option<Exc>)
        ensures { self.new ≡ record self.old {
          exiting = true;
          body = failing raised;
          kept = plain.only_cancelled raised;
        } }
    {
        self.exiting = true;
        self.body = None;
        self.kept = None;
        if let Some(fault) = raised {
            if is_cancelled(&fault) {
                self.kept = Some(fault);
            } else {
                self.body = Some(fault);
            }
        }
    }

    /// Keeps the CancelledError that the exit may raise.
    pub fn keep(&mut self, fault: Exc)
        ensures { self.new ≡ record self.old { kept = Some fault } }
    {
        self.kept = Some(fault);
    }

    /// Keeps no CancelledError any more.
    pub fn drop_kept(&mut self)
        ensures { self.new ≡ record self.old { kept = None } }
    {
        self.kept = None;
    }

    /// The exit waits no more.
    pub fn wake(&mut self)
        ensures { self.new ≡ record self.old { exit_future = None } }
    {
        self.exit_future = None;
    }

    /// The exit waits, or ends.
    pub fn go_on(&mut self, next: ExitStep) -> GroupExit
        ensures answer { result ≡ answer_of next self.old }
        ensures after { self.new ≡ gone_on next self.old }
    {
        match next {
            ExitStep::Waits(future) => {
                self.exit_future = Some(future);
                GroupExit::Waits(future)
            }
            ExitStep::Ends(fault) => {
                self.ended = true;
                self.body = None;
                let kept = self.kept.take();
                self.end(kept, fault)
            }
        }
    }

    // A kept CancelledError is raised where no child failed.
    fn end(&self, kept: Option<Exc>, fault: Option<Exc>) -> GroupExit
        ensures { result ≡ ended_with kept self.now.failed fault }
    {
        match kept {
            Some(cancelled) if self.failed.is_empty() => GroupExit::Raises(cancelled),
            _ => match fault {
                Some(fault) => GroupExit::Raises(fault),
                None => GroupExit::Passes,
            },
        }
    }
}
