//! Laws of turns and runs. Each function has no body: its clauses are the laws. `S` is the state of
//! what is added to the loop's own requests.
ghost use Rattle.std.specs.Prelude.{◌≡◌, ℕ, Bool, List, ◌∷◌};
ghost use Rattle.model_tree.specs.Syntax.{Program};
ghost use Rattle.model_says.specs.Says.{step_limit};
ghost use Rattle.model_wire.specs.declared.event.Event.TheVariants.{Called, Got};
ghost use Rattle.model_wire.specs.Call.{Answer, Call};
ghost use Rattle.model_wire.specs.Journal.{Entry};
ghost use Rattle.model_loop.specs.Parts.{Handle};
ghost use Rattle.model_machine.specs.Extra.{Extra, NamesNothing, no_extra};
ghost use Rattle.model_machine.specs.Mids.{mids};
ghost use Rattle.model_machine.specs.Sound.{IsStateSound};
ghost use Rattle.model_machine.specs.State.{State, noted, start, unbooked_in};
ghost use Rattle.model_machine.specs.Turn.{run_first, run_pending, turn, turn_over, woken_by};
ghost use Rattle.law_replies.specs.Added.{KeepsSound};
ghost use Rattle.law_replies.specs.InStep.{AreStatesSound, IsRunSound, LeavesStateSound};

/// Where nothing is added to the loop's own requests, nothing of that makes a state unsound.
pub fn nothing_added_keeps_it_sound()
    ensures { KeepsSound no_extra }
{}

/// Each state of each run of every program, over whatever the outside answers, is sound: between
/// two turns, and between any two callbacks of a turn, however many listeners, connections and
/// children can be numbered. So it is of each run that goes on from a sound state.
pub fn every_state_of_a_run_is_sound<S>()
    ensures nothing_added { (most : ℕ) (program : Program) (answers : List Entry) (turns : ℕ)
        → IsRunSound no_extra turns (start most tt program answers) }
    ensures added { (added : Extra S) → KeepsSound added
        → (most : ℕ) (state : S) (program : Program) (answers : List Entry) (turns : ℕ)
        → NamesNothing (added.keeps state)
        → IsRunSound added turns (start most state program answers) }
    ensures from_any { (added : Extra S) → KeepsSound added
        → (s : State S) → IsStateSound added s → (turns : ℕ) → IsRunSound added turns s }
{}

/// A turn from a sound state leaves one, and all states between its callbacks are sound.
pub fn a_turn_keeps_it_sound<S>()
    ensures after { (added : Extra S) → KeepsSound added
        → (s : State S) → IsStateSound added s → LeavesStateSound added (turn step_limit added s) }
    ensures between { (added : Extra S) → KeepsSound added
        → (s : State S) → IsStateSound added s → AreStatesSound added (mids step_limit added s) }
{}

/// Piece by piece: the call and its answer are noted, the time goes on and timers fall due, a
/// callback runs, all before the bar run, and the turn ends.
pub fn the_pieces_of_a_turn_keep_it_sound<S>()
    ensures noted { (added : Extra S) (s : State S) (left : List Entry) (call : Call)
        (answer : Answer)
        → IsStateSound added s
        → IsStateSound added
        (noted (Got answer) (record (noted (Called call) s) { answers = left })) }
    ensures woken { (added : Extra S) (s : State S) (answer : Answer) → IsStateSound added s
        → IsStateSound added (unbooked_in (woken_by answer) s) }
    ensures callback { (added : Extra S) → KeepsSound added
        → (s : State S) (handle : Handle) (rest : List Handle)
        → s.loop.parts.pending ≡ handle ∷ rest → IsStateSound added s
        → LeavesStateSound added (run_first step_limit added handle rest s) }
    ensures pending { (added : Extra S) → KeepsSound added
        → (s : State S) → IsStateSound added s
        → LeavesStateSound added (run_pending step_limit added s) }
    ensures over { (added : Extra S) (done_before : Bool) (s : State S) → IsStateSound added s
        → LeavesStateSound added (turn_over done_before s) }
{}
