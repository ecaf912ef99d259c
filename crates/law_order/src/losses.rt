//! Laws of runs, whatever is open and whatever the outside answers. Each function has no body: its
//! clauses are the laws. `S` is the state of what is added to the loop's own requests, whatever that
//! is.
ghost use Rattle.std.specs.Prelude.{◌≡◌, ◌≤◌, ℕ, true, false, List, Some};
ghost use Rattle.model_tree.specs.Syntax.{Program};
ghost use Rattle.model_wire.specs.declared.event.Handed.{Handed};
ghost use Rattle.model_wire.specs.declared.event.Handed.TheVariants as to;
ghost use Rattle.model_wire.specs.Journal.{Entry};
ghost use Rattle.model_stream.specs.History.{handed, written_to};
ghost use Rattle.model_stream.specs.Requests.{sender_of};
ghost use Rattle.model_stream.specs.Senders.{Sender, is_lost};
ghost use Rattle.model_machine.specs.Extra.{Extra};
ghost use Rattle.model_machine.specs.State.{State, start};
ghost use Rattle.model_machine.specs.Turn.{run_below};
ghost use Rattle.law_stream.specs.Ways.{one_if};
ghost use Rattle.law_order.specs.Sides.{standing_of};
ghost use Rattle.law_walk.specs.Walks.{In, IsRunIn, WentLeaves};
ghost use Rattle.law_order.specs.Order.{IsOver, closes_asked};
ghost use Rattle.law_order.specs.Losses.{IsWhole, ends_well, given_up, good_pending};

/// Each state of each run of every program is whole, over whatever the outside answers: between two
/// turns, between any two callbacks of a turn, and where the run ends, but where a call has no
/// answer that fits.
pub fn every_state_is_whole<S>()
    ensures of_a_run { (limit : ℕ) (added : Extra S) (most : ℕ) (state : S) (program : Program)
        (answers : List Entry) (turns : ℕ)
        → IsRunIn IsWhole limit added turns (start most state program answers) }
    ensures from_any { (limit : ℕ) (added : Extra S) (turns : ℕ) (s : State S) → In IsWhole s
        → IsRunIn IsWhole limit added turns s }
    ensures callbacks { (limit : ℕ) (added : Extra S) (bar count : ℕ) (s : State S)
        → In IsWhole s → WentLeaves IsWhole (run_below limit added bar count s) }
{}

/// So where a loss of one has no exception, all that was written to it was handed on: where such a
/// loss is to come (`scheduled`), and from then on, also where it came with the last send
/// (`connection`, `child`). A connection that was given up before it stood is left out.
pub fn a_loss_in_good_order_drops_nothing<S>()
    ensures scheduled { (s : State S) → In IsWhole s → (whom : Handed)
        → 1 ≤ good_pending whom s.loop.parts
        → handed whom s.events ≡ written_to whom s.streams.written }
    ensures connection { (s : State S) → In IsWhole s → (whom : Handed) (sender : Sender)
        → sender_of whom s.streams ≡ Some sender → ends_well sender ≡ true
        → given_up whom s.events ≡ false
        → handed whom s.events ≡ written_to whom s.streams.written }
    ensures child { (s : State S) → In IsWhole s → (id : ℕ) (sender : Sender)
        → sender_of (to.Child id) s.streams ≡ Some sender → ends_well sender ≡ true
        → handed (to.Child id) s.events ≡ written_to (to.Child id) s.streams.written }
{}

/// The outside is asked to close one once, as its loss is done, and else never; a connection that
/// was given up before it stood is left out. Whichever it was asked to close, that one takes nothing
/// from then on and is handed nothing.
pub fn the_outside_is_asked_to_close_once<S>()
    ensures connection { (s : State S) → In IsWhole s → (whom : Handed)
        → given_up whom s.events ≡ false
        → closes_asked whom s.events ≡ one_if (is_lost (standing_of whom s.streams)) }
    ensures child { (s : State S) → In IsWhole s → (id : ℕ)
        → closes_asked (to.Child id) s.events
        ≡ one_if (is_lost (standing_of (to.Child id) s.streams)) }
    ensures over { (s : State S) → In IsWhole s → (whom : Handed)
        → 1 ≤ closes_asked whom s.events → (standing_of whom s.streams).writer.ended ≡ true }
    ensures nothing_after { (limit : ℕ) (added : Extra S) (turns : ℕ) (s : State S) (whom : Handed)
        → In IsWhole s → 1 ≤ closes_asked whom s.events
        → IsRunIn (IsOver whom (handed whom s.events)) limit added turns s }
{}
