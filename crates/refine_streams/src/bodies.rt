//! Laws of what is stood for along the way of a tree of streams. Each function has no body: its
//! clauses are the laws.
ghost use Rattle.std.specs.Prelude.{◌≡◌, ℕ, ◌≤◌, List, Option};
ghost use Rattle.model_loop.specs.Futures.{next_future};
ghost use Rattle.model_loop.specs.Owning.{OwnsFutures};
ghost use Rattle.model_stream.specs.Requests.{StreamReader, give_up_read};
ghost use Rattle.model_stream.specs.Streams.{Streams};
ghost use Rattle.model_machine.specs.Replies.{waits, waits_no_more};
ghost use Rattle.model_machine.specs.State.{State, with_streams};
ghost use Rattle.aio_exchange.specs.Exchanged.{noted_by};
ghost use Rattle.aio_exchange.specs.Ways.{Move, changed_on, had_on};
ghost use Rattle.law_cases.specs.TreeEnd.{IsStreamsEnd};
ghost use Rattle.refine_streams.specs.Along.{along};
ghost use Rattle.aio_change.specs.Seen.{seen_changed};
ghost use Rattle.aio_task.specs.View.{View};
ghost use Rattle.aio_transports.specs.Standing.{Becomes, TransportsStandFor as AreTransports};
ghost use Rattle.aio_body.specs.Asking.{before};
ghost use Rattle.aio_body.specs.Stands.{Context, Stands};
ghost use Rattle.aio_body.specs.declared.run_state.RunState.{RunState};
ghost use Rattle.refine_streams.specs.Went.{MayCall, CallsSuspend};

use aio_extra::Extra;

/// Where a call changed the parts, the events and the transports alone, along the way of a tree,
/// the body stands for the state after it, and so it does where a task then waits for a future that
/// was made on the way.
pub fn bodies_stand_along_ways<X: Extra>()
    ensures passed { (out : Option ℕ) (c : Context X.added) (old new : RunState X)
        (s : State X.added.Kept) (way : List Move) (after : Streams)
        → Stands out (before (had_on way) c) old s → OwnsFutures s.loop.parts
        → IsStreamsEnd s (along way c.answers s) after → AreTransports new.transports after
        → new.parts ≡ changed_on seen_changed way old.parts
        → new.events ≡ noted_by (had_on way) old.events
        → new ≡ record old {
          parts = new.parts;
          events = new.events;
          transports = new.transports;
        }
        → Stands out c new (with_streams after (along way c.answers s)) }
    ensures waiting { (out : Option ℕ) (c : Context X.added) (old new : RunState X)
        (s : State X.added.Kept) (way : List Move) (after : Streams)
        → Stands out (before (had_on way) c) old s → OwnsFutures s.loop.parts
        → IsStreamsEnd s (along way c.answers s) after → AreTransports new.transports after
        → new.parts ≡ changed_on seen_changed way old.parts
        → new.events ≡ noted_by (had_on way) old.events
        → new ≡ record old {
          parts = new.parts;
          events = new.events;
          transports = new.transports;
        }
        → (task on : ℕ) (v : View) → next_future s.loop.parts ≤ on
        → CallsSuspend task on new.parts v
        → Stands out c (record new { parts = v })
        (waits task on (with_streams after (along way c.answers s))) }
{}

/// A read that is resumed waits no more.
pub fn a_read_is_given_up<X: Extra>()
    ensures { (out : Option ℕ) (c : Context X.added) (old new : RunState X) (s : State X.added.Kept)
        (on : ℕ) (from : StreamReader) → MayCall out c old s
        → Becomes (give_up_read on from) old.transports new.transports
        → new ≡ record old { transports = new.transports }
        → MayCall out c new (waits_no_more on from s) }
{}
