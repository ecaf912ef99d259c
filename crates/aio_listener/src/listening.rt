//! Listeners are opened and closed.
ghost use Rattle.std.specs.Prelude.{◌≡◌, ◌^◌, ◌<◌, OnOk, length};
ghost use Rattle.model_stream.specs.Answers as answers;
ghost use Rattle.model_stream.specs.Streams as plain;
ghost use Rattle.aio_exchange.specs.Follows.{reach};
ghost use Rattle.aio_task.specs.View.{View};
ghost use Rattle.aio_stream.specs.Owned.{OwnsStreams};
ghost use Rattle.aio_stream.specs.Standing.{Answers, Comes};

use crate::answers::forget_answer;
use aio_exchange::ask;
use aio_stream::Streams;
use aio_wire::{Answer, Call, Port, Stop, Wire};
use std::alloc::Global;

/// `listen` on a port: the listener's number, or none where it is refused. Its connections are
/// handled by the coroutine `handler`.
pub fn listen<W: Wire>(
    streams: &mut Streams,
    alloc: Global,
    number: u16,
    handler: u32,
    port: &mut Port<W>,
) -> Result<Option<u32>, Stop>
    requires room { length streams.old.servers < 2 ^ 32 }
    ensures wire_name { port.new.wire.ghost_name ≡ port.old.wire.ghost_name }
    ensures events_name { port.new.events.ghost_name ≡ port.old.events.ghost_name }
    ensures comes { (v : View) → Answers W.outside (plain.listen number handler)
        streams.old streams.new
        (reach v port.old.wire.now port.old.events.now)
        (reach v port.new.wire.now port.new.events.now)
        result }
    ensures own { OnOk result
        ((v : View) → OwnsStreams v streams.old → OwnsStreams v streams.new) }
{
    let came = ask(port, alloc, Call::Listen(number))?;
    let opens = is_done(&came);
    forget_answer(came);
    if !opens {
        return Ok(None);
    }
    let id = streams.add_server(handler)?;
    Ok(Some(id))
}

/// `close` of a listener, which is closed once.
pub fn close_server<W: Wire>(
    streams: &mut Streams,
    alloc: Global,
    id: u32,
    port: &mut Port<W>,
) -> Result<(), Stop>
    ensures wire_name { port.new.wire.ghost_name ≡ port.old.wire.ghost_name }
    ensures events_name { port.new.events.ghost_name ≡ port.old.events.ghost_name }
    ensures comes { (v : View) → Comes W.outside (plain.close_server id)
        streams.old streams.new
        (reach v port.old.wire.now port.old.events.now)
        (reach v port.new.wire.now port.new.events.now)
        result }
    ensures own { OnOk result
        ((v : View) → OwnsStreams v streams.old → OwnsStreams v streams.new) }
{
    let Some(_handler) = streams.listening(id) else {
        return Ok(());
    };
    forget_answer(ask(port, alloc, Call::CloseServer(id))?);
    streams.close_listener(id);
    Ok(())
}

// Whether a listener is open.
fn is_done(answer: &Answer) -> bool
    ensures { result ≡ answers.is_done answer.now }
{
    match answer {
        Answer::Done => true,
        Answer::Refused => false,
        Answer::Turn { now: _, items: _ } => false,
        Answer::Conn => false,
        Answer::Again => false,
        Answer::Broken => false,
        Answer::Data(_) => false,
        Answer::Eof => false,
        Answer::Took(_) => false,
        Answer::Child => false,
        Answer::Extra(_) => false,
    }
}
