//! Laws of requests that do a tree of streams. Each function has no body: its clauses are the laws.
//! `tree` takes the number of the future that is made next; `next` is what the machine does with
//! the tree's answer.
ghost use Rattle.std.specs.Prelude.{◌≡◌, ℕ, length, Err, Ok};
ghost use Rattle.model_value.specs.Request.{Request as AnyRequest};
ghost use Rattle.model_value.specs.Value.{Value as AnyValue};
ghost use Rattle.model_loop.specs.Futures.{next_future};
ghost use Rattle.model_stream.specs.Doing.{Doing};
ghost use Rattle.model_stream.specs.Streams.{Streams};
ghost use Rattle.model_machine.specs.Replies as plain;
ghost use Rattle.model_machine.specs.Replies.{reply, streams_do};
ghost use Rattle.model_machine.specs.Sound.{AreStreamsFutures};
ghost use Rattle.model_machine.specs.State.{State};
ghost use Rattle.aio_wire.specs.Port.{ported};
ghost use Rattle.aio_wire.specs.declared.stop.Stop.{Stop as AnyStop};
ghost use Rattle.aio_exchange.specs.Follows.{reach};
ghost use Rattle.law_reach.specs.Reaches.{left_by};
ghost use Rattle.law_cases.specs.TreeEnd.{owned_in as plain_in};
ghost use Rattle.law_cases.specs.Trees.{AnswersStreams, Keeping, WaitsNever};
ghost use Rattle.aio_transports.specs.Standing.{Answers as AnswersTree};
ghost use Rattle.aio_body.specs.Asked.{IsAskingFor};
ghost use Rattle.aio_body.specs.Asking.{Comes, serving};
ghost use Rattle.aio_body.specs.Stands.{Context};
ghost use Rattle.aio_body.specs.declared.run_state.RunState.{RunState};
ghost use Rattle.aio_body.specs.declared.reply.RequestReply.TheVariants as said;
ghost use Rattle.refine_streams.specs.Alike.{AddsEvents, ForgetsWritten};
ghost use Rattle.refine_streams.specs.Streams.{HasStreams};

use aio_extra::Extra;
use aio_wire::Wire;

/// A request that the machine serves by a tree is served by a call that does it. Where the call
/// stopped the machine ends the run, or asks first what was asked before memory was refused; where
/// it went well the request comes to what the machine's does.
pub fn requests_go_by_their_calls<X: Extra, W: Wire, R>()
    ensures stops { (task : ℕ) (request : AnyRequest) (old new : RunState X) (wire after : W)
        (tree : ℕ → Streams → Doing (Streams × R))
        (next : R → State X.added.Kept → plain.RequestReply X.added.Kept) (why : AnyStop)
        → ((c : Context X.added) (s : State X.added.Kept) → IsAskingFor task request c old s
        → reply X.added.meaning task request s
        ≡ streams_do (tree (next_future s.loop.parts) s.streams) next s)
        → HasStreams old.transports
        → ((it : R) → AddsEvents left_by (next it))
        → ForgetsWritten (tree (length old.parts.futures))
        → AnswersTree W.outside (tree (length old.parts.futures))
        old.transports new.transports (reach old.parts wire old.events)
        (reach new.parts after new.events) (Err why)
        → Comes W.outside (serving X.added task request old new)
        (ported wire old.events) (ported after new.events) (Err why) }
    ensures answers { (task : ℕ) (request : AnyRequest) (old new : RunState X) (wire after : W)
        (tree : ℕ → Streams → Doing (Streams × R))
        (next : R → State X.added.Kept → plain.RequestReply X.added.Kept) (it : R)
        (value : AnyValue)
        → ((c : Context X.added) (s : State X.added.Kept) → IsAskingFor task request c old s
        → reply X.added.meaning task request s
        ≡ streams_do (tree (next_future s.loop.parts) s.streams) next s)
        → HasStreams old.transports
        → AnswersTree W.outside (tree (length old.parts.futures))
        old.transports new.transports (reach old.parts wire old.events)
        (reach new.parts after new.events) (Ok it)
        → ((s : State X.added.Kept) → AreStreamsFutures s
        → Keeping
        (AnswersStreams {R = R} WaitsNever (plain_in s) (next_future s.loop.parts)
        s.streams)
        (plain_in s) (next_future s.loop.parts)
        (tree (next_future s.loop.parts) s.streams))
        → new ≡ record old {
          parts = new.parts;
          events = new.events;
          transports = new.transports;
        }
        → ((t : State X.added.Kept) → next it t ≡ plain.Answers value t)
        → Comes W.outside (serving X.added task request old new)
        (ported wire old.events) (ported after new.events) (Ok (said.Answers value)) }
{}
