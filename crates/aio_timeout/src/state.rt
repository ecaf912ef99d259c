//! The states of a timeout, and what its calls answer.
ghost use Rattle.std.specs.Prelude.{◌≡◌, IfOk};
ghost use Rattle.model_loop.specs.Timeouts.{is_active, has_expired, state_name, reschedule_exception, timeout_exception};
ghost use Rattle.aio_timeout.specs.States.{state_of, is_expiring, has_timed_out};

use aio_base::{Exc, Kind, Memory, exception};
use std::alloc::Global;

/// How far a timeout has come.
#[derive(Clone, Copy, PartialEq, Eq)]
pub enum TimeoutState {
    /// Its block wasn't entered. No timeout that has a number stands so, since it is made as its
    /// block is entered.
    Created,
    /// Its block was entered.
    Active,
    /// Its time is over and its task's cancel was asked for, but its block wasn't left.
    Expiring,
    /// Its block was left after its time was over.
    Expired,
    /// Its block was left before.
    Finished,
}

/// What becomes of a new deadline.
#[derive(Clone, Copy, PartialEq, Eq)]
pub enum Rescheduled {
    Set,
    /// The timeout isn't active. `TimeoutState::fault` is what is raised.
    BadState(TimeoutState),
}

/// What becomes of the way in which a block was left.
#[derive(Clone, Copy, PartialEq, Eq)]
pub enum TimeoutExit {
    /// It goes on as it was.
    Passes,
    /// `timeout_exception` is raised in place of its CancelledError.
    TimedOut,
}

/// What becomes of the way in which a block was left, where its time was over or not.
pub fn exit_of(timed_out: bool) -> TimeoutExit
    ensures { has_timed_out result ≡ timed_out }
{
    if timed_out {
        TimeoutExit::TimedOut
    } else {
        TimeoutExit::Passes
    }
}

impl TimeoutState {
    /// Whether its deadline can be changed.
    pub fn is_active(self) -> bool
        ensures { result ≡ is_active (state_of self) }
    {
        matches!(self, TimeoutState::Active)
    }

    /// Whether its task's cancel was asked for, and not taken back.
    pub fn is_expiring(self) -> bool
        ensures { result ≡ is_expiring (state_of self) }
    {
        matches!(self, TimeoutState::Expiring)
    }

    /// Whether its time was over before its block was left.
    pub fn has_expired(self) -> bool
        ensures { result ≡ has_expired (state_of self) }
    {
        matches!(self, TimeoutState::Expiring | TimeoutState::Expired)
    }

    fn name(self) -> &'static str
        ensures { result.now ≡ state_name (state_of self) }
    {
        match self {
            TimeoutState::Created => "created",
            TimeoutState::Active => "active",
            TimeoutState::Expiring => "expiring",
            TimeoutState::Expired => "expired",
            TimeoutState::Finished => "finished",
        }
    }

    /// What is raised where a new deadline is refused in this state.
    pub fn fault(self, alloc: Global) -> Result<Exc, Memory>
        ensures { IfOk result (λ fault. fault ≡ reschedule_exception (state_of self)) }
    {
        let name = self.name();
        let text = format!(in alloc; "Cannot change state of {name} Timeout")?;
        exception(alloc, Kind::RuntimeError, text.as_str())
    }
}

/// What is raised where a block's time was over. It takes no memory.
pub fn timeout_exception() -> Exc
    ensures { result ≡ timeout_exception }
{
    Exc::bare(Kind::TimeoutError)
}
