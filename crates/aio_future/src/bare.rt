//! Futures that are over and take no room of their own.
ghost use Rattle.std.specs.Prelude.{◌≡◌, true, IfSome, Some};
ghost use Rattle.model_value.specs.Value.{Nothing};
ghost use Rattle.model_loop.specs.Parts as plain;
ghost use Rattle.aio_future.specs.Kinds.{kind_of};
ghost use Rattle.aio_future.specs.Bare.{future_of, over_as};

use crate::ends::Ends;
use crate::future::FutureKind;
use aio_base::{Outcome, Value, ValueCase};

/// A future without callbacks that stands for itself alone, and was cancelled or ended with None.
#[derive(Clone, Copy)]
pub enum Bare {
    Returned,
    Cancelled,
    /// A task's own.
    TaskReturned(u32),
    /// A task's own.
    TaskCancelled(u32),
}

impl Bare {
    /// A future of a kind that ended so, if it is one of these.
    pub fn of(kind: &FutureKind, ended: &Outcome) -> Option<Bare>
        ensures { IfSome result (λ bare. future_of bare ≡ over_as (kind_of kind.now) ended.now) }
    {
        match kind {
            FutureKind::Plain => of_plain(ended),
            FutureKind::OfTask(task) => of_task(*task, ended),
            FutureKind::Many {
                members: _,
                asked: _,
            } => None,
        }
    }

    /// How it ended.
    pub fn ended<'a>(self, ends: &'a Ends) -> &'a Outcome
        ensures { Some result.now ≡ (future_of self).outcome }
    {
        match self {
            Bare::Returned => ends.returned(),
            Bare::Cancelled => ends.cancelled(),
            Bare::TaskReturned(_) => ends.returned(),
            Bare::TaskCancelled(_) => ends.cancelled(),
        }
    }
}

fn of_plain(ended: &Outcome) -> Option<Bare>
    ensures { IfSome result (λ bare. future_of bare ≡ over_as plain.Plain ended.now) }
{
    match ended {
        Outcome::Value(value) => {
            if is_nothing(value) {
                Some(Bare::Returned)
            } else {
                None
            }
        }
        Outcome::Failed(_) => None,
        Outcome::Cancelled => Some(Bare::Cancelled),
    }
}

fn of_task(task: u32, ended: &Outcome) -> Option<Bare>
    ensures { IfSome result (λ bare. future_of bare ≡ over_as (plain.OfTask task) ended.now) }
{
    match ended {
        Outcome::Value(value) => {
            if is_nothing(value) {
                Some(Bare::TaskReturned(task))
            } else {
                None
            }
        }
        Outcome::Failed(_) => None,
        Outcome::Cancelled => Some(Bare::TaskCancelled(task)),
    }
}

fn is_nothing(value: &Value) -> bool
    ensures { result ≡ true → value.now ≡ Nothing }
{
    matches!(value.case(), ValueCase::Nothing)
}
