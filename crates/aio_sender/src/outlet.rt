//! What a connection and a child's standard input don't share: the calls that send and close, the callback of the loss, and
//! the exception of a loss by failure.
ghost use Rattle.std.specs.Prelude.{◌≡◌, false, IfOk};
ghost use Rattle.model_stream.specs.Senders.{loss_of, outcome_of};
ghost use Rattle.aio_task.specs.View.{is_step};
ghost use Rattle.law_stream.specs.SoundSenders.{outlet_of};

use aio_base::{Action, Blob, Exc, Kind, Memory, Outcome, Value, exception};
use aio_wire::Call;
use model_wire::Handed;
use std::alloc::Global;

/// The text of a loss by failure, and of a drain after a loss.
pub const LOST_TEXT: &str = "Connection lost";

/// The call that offers bytes.
pub fn sends(whom: Handed, bytes: Blob) -> Call
    ensures { result ≡ (outlet_of whom).sends bytes }
{
    match whom {
        Handed::Conn(conn) => Call::Send { conn, bytes },
        Handed::Child(child) => Call::Feed { child, bytes },
    }
}

/// The call that closes.
pub fn closes(whom: Handed) -> Call
    ensures { result ≡ (outlet_of whom).closes }
{
    match whom {
        Handed::Conn(conn) => Call::Close(conn),
        Handed::Child(child) => Call::End(child),
    }
}

/// The callback of a loss.
pub fn loses(whom: Handed, broken: bool) -> Action
    ensures is { result ≡ (outlet_of whom).loses broken }
    ensures no_step { is_step result ≡ false }
{
    match whom {
        Handed::Conn(conn) => Action::Lost { conn, broken },
        Handed::Child(child) => Action::LostChild { child, broken },
    }
}

/// The exception of a loss by failure.
pub fn fault(alloc: Global, whom: Handed) -> Result<Exc, Memory>
    ensures { IfOk result (λ exc. exc ≡ (outlet_of whom).exception) }
{
    match whom {
        Handed::Conn(_) => exception(alloc, Kind::ConnectionResetError, LOST_TEXT),
        Handed::Child(_) => exception(alloc, Kind::BrokenPipeError, LOST_TEXT),
    }
}

/// How the futures of those who wait end at a loss.
pub fn loss_outcome(alloc: Global, whom: Handed, broken: bool) -> Result<Outcome, Memory>
    ensures { IfOk result (λ outcome. outcome ≡ outcome_of (loss_of (outlet_of whom) broken)) }
{
    if broken {
        Ok(Outcome::Failed(fault(alloc, whom)?))
    } else {
        Ok(Outcome::Value(Value::nothing()))
    }
}
