//! What is asked of a child's record.
ghost use Rattle.std.specs.Prelude.{◌≡◌};
ghost use Rattle.model_hub.specs.Children.{runs, is_owed, is_unasked, was_given, waiting, is_stdin_over, is_over, flow_of, with_flow};

use model_hub::{Child, Closing, Flow, Stay};
use model_pump::Stream;

/// It was launched, and not taken in.
pub fn runs(stay: Stay) -> bool
    ensures { result ≡ runs stay }
{
    match stay {
        Stay::Running => true,
        Stay::Holding | Stay::Gone => false,
    }
}

pub(crate) fn is_owed(closing: Closing) -> bool
    ensures { result ≡ is_owed closing }
{
    match closing {
        Closing::Owed => true,
        Closing::Open | Closing::Closed | Closing::Unclosable => false,
    }
}

pub(crate) fn is_unasked(closing: Closing) -> bool
    ensures { result ≡ is_unasked closing }
{
    match closing {
        Closing::Open => true,
        Closing::Owed | Closing::Closed | Closing::Unclosable => false,
    }
}

fn was_given(closing: Closing) -> bool
    ensures { result ≡ was_given closing }
{
    match closing {
        Closing::Closed => true,
        Closing::Open | Closing::Owed | Closing::Unclosable => false,
    }
}

/// How many Writes to it have no Room post taken.
pub(crate) fn waiting(child: &Child) -> u64
    ensures { result ≡ waiting child.now }
{
    child.writes.saturating_sub(child.rooms)
}

fn is_stdin_over(child: &Child) -> bool
    ensures { result ≡ is_stdin_over child.now }
{
    child.broken || was_given(child.closing) && child.writes <= child.rooms
}

/// Its pipes are over: both streams ended, its exit was taken, and nothing more is to be written to it.
pub fn is_over(child: &Child) -> bool
    ensures { result ≡ is_over child.now }
{
    child.out.ended && child.errs.ended && child.exited && is_stdin_over(child)
}

pub(crate) fn flow_of(stream: Stream, child: &Child) -> Flow
    ensures { result ≡ flow_of stream child.now }
{
    match stream {
        Stream::Out => child.out,
        Stream::Errs => child.errs,
    }
}

pub(crate) fn with_flow(stream: Stream, flow: Flow, child: Child) -> Child
    ensures { result ≡ with_flow stream flow child }
{
    let mut new = child;
    match stream {
        Stream::Out => new.out = flow,
        Stream::Errs => new.errs = flow,
    }
    new
}
