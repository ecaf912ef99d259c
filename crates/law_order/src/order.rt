//! Laws of turns and runs, whatever is open and whatever the outside answers. Each function has no
//! body: its clauses are the laws. `S` is the state of what is added to the loop's own requests,
//! whatever that is.
ghost use Rattle.std.specs.Prelude.{◌≡◌, ◌+◌, ◌≤◌, ℕ, true, false, List, [], Some};
ghost use Rattle.std.specs.Prelude.{drop, length, take};
ghost use Rattle.model_tree.specs.Syntax.{Program};
ghost use Rattle.model_wire.specs.declared.event.Handed.{Handed};
ghost use Rattle.model_wire.specs.Journal.{Entry};
ghost use Rattle.model_stream.specs.History.{handed, written_to};
ghost use Rattle.model_stream.specs.Requests.{sender_of};
ghost use Rattle.model_stream.specs.Senders.{Sender};
ghost use Rattle.model_machine.specs.Extra.{Extra};
ghost use Rattle.model_machine.specs.Mids.{mids};
ghost use Rattle.model_machine.specs.State.{State, start};
ghost use Rattle.model_machine.specs.Turn.{run_below, turn};
ghost use Rattle.law_order.specs.Sides.{standing_of};
ghost use Rattle.law_walk.specs.Walks.{AreAllIn, In, IsRunIn, WentLeaves};
ghost use Rattle.law_order.specs.Order.{AreInOrder, IsInOrder, IsLostOnce, IsOver, IsRunInOrder};
ghost use Rattle.law_order.specs.Order.{losses_ran};
ghost use Rattle.law_order.specs.Quiet.{losses_pending};

/// Each state of each run of every program, over whatever the outside answers, is in order: between
/// two turns, between any two callbacks of a turn, and where the run ends, but where a call has no
/// answer that fits.
pub fn every_state_is_in_order<S>()
    ensures of_a_run { (limit : ℕ) (added : Extra S) (most : ℕ) (state : S) (program : Program)
        (answers : List Entry) (turns : ℕ)
        → IsRunInOrder limit added turns (start most state program answers) }
    ensures from_any { (limit : ℕ) (added : Extra S) (turns : ℕ) (s : State S) → IsInOrder s
        → IsRunInOrder limit added turns s }
    ensures turn { (limit : ℕ) (added : Extra S) (s : State S) → IsInOrder s
        → WentLeaves AreInOrder (turn limit added s) }
    ensures between { (limit : ℕ) (added : Extra S) (s : State S) → IsInOrder s
        → AreAllIn AreInOrder (mids limit added s) }
    ensures callbacks { (limit : ℕ) (added : Extra S) (bar count : ℕ) (s : State S) → IsInOrder s
        → WentLeaves AreInOrder (run_below limit added bar count s) }
{}

/// So what the events say that a connection or a child's standard input was handed is a front of
/// what was written to it; and what is unsent is the rest, until a loss is scheduled, from which on
/// nothing is unsent.
pub fn what_is_handed_is_a_front<S>()
    ensures handed { (s : State S) → IsInOrder s → (whom : Handed)
        → handed whom s.events
        ≡ take (length (handed whom s.events)) (written_to whom s.streams.written) }
    ensures unsent { (s : State S) → IsInOrder s → (whom : Handed) (sender : Sender)
        → sender_of whom s.streams ≡ Some sender → sender.writer.ended ≡ false
        → sender.writer.unsent
        ≡ drop (length (handed whom s.events)) (written_to whom s.streams.written) }
    ensures dropped { (s : State S) → IsInOrder s → (whom : Handed) (sender : Sender)
        → sender_of whom s.streams ≡ Some sender → sender.writer.ended ≡ true
        → sender.writer.unsent ≡ [] }
{}

/// Once a loss of it is scheduled, that stays so, and it is handed nothing more: in every state of
/// the run from there on, and after the callbacks of the turn that are left. So all that it was
/// handed it was handed before.
pub fn nothing_is_handed_after_a_loss<S>()
    ensures run { (limit : ℕ) (added : Extra S) (turns : ℕ) (s : State S) (whom : Handed)
        → IsInOrder s → (standing_of whom s.streams).writer.ended ≡ true
        → IsRunIn (IsOver whom (handed whom s.events)) limit added turns s }
    ensures callbacks { (limit : ℕ) (added : Extra S) (bar count : ℕ) (s : State S) (whom : Handed)
        → IsInOrder s → (standing_of whom s.streams).writer.ended ≡ true
        → WentLeaves (IsOver whom (handed whom s.events)) (run_below limit added bar count s) }
{}

/// The loss of one is scheduled once, and its callback runs once: in every state of every run at
/// most one is to come or ran, and none before it is scheduled. After it nothing more is handed.
pub fn a_loss_runs_once<S>()
    ensures of_a_run { (limit : ℕ) (added : Extra S) (most : ℕ) (state : S) (program : Program)
        (answers : List Entry) (turns : ℕ)
        → IsRunIn IsLostOnce limit added turns (start most state program answers) }
    ensures from_any { (limit : ℕ) (added : Extra S) (turns : ℕ) (s : State S) → In IsLostOnce s
        → IsRunIn IsLostOnce limit added turns s }
    ensures callbacks { (limit : ℕ) (added : Extra S) (bar count : ℕ) (s : State S)
        → In IsLostOnce s → WentLeaves IsLostOnce (run_below limit added bar count s) }
    ensures once { (s : State S) → In IsLostOnce s → (whom : Handed)
        → losses_ran whom s.events + losses_pending whom s.loop.parts ≤ 1 }
    ensures none_before { (s : State S) → In IsLostOnce s → (whom : Handed)
        → (standing_of whom s.streams).writer.ended ≡ false
        → losses_ran whom s.events + losses_pending whom s.loop.parts ≡ 0 }
{}
