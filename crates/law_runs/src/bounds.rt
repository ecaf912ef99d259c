//! Laws of steps, turns and runs, whatever is open. `S` is the state of what is added to the loop's
//! own requests, whatever that is.
ghost use Rattle.std.specs.Prelude.{◌≡◌, ℕ, suc, ◌+◌, ◌<◌, ◌≤◌, false, List, length};
ghost use Rattle.model_value.specs.Input.{Input};
ghost use Rattle.model_tree.specs.Syntax.{Program};
ghost use Rattle.model_wire.specs.Journal.{Entry};
ghost use Rattle.model_machine.specs.Extra.{AsksNothing, Extra, NamesNothing, WakesFall, no_extra};
ghost use Rattle.model_machine.specs.Replies.{woken_within};
ghost use Rattle.model_machine.specs.Sound.{IsClosed, IsStateSound};
ghost use Rattle.model_machine.specs.State.{State, generator_of, start};
ghost use Rattle.model_machine.specs.Step.{most_answers, serve};
ghost use Rattle.model_machine.specs.Turn.{is_stalled, turn};
ghost use Rattle.model_machine.specs.Run.{run_on};
ghost use Rattle.model_machine.specs.Went.{answers_in, state_of};
ghost use Rattle.law_reach.specs.Asked.{WentAsks, asks_in};
ghost use Rattle.law_runs.specs.Growth.{EventsGrow, turns_in};

/// What happened stays: a turn and a run only add events.
pub fn what_happened_stays<S>()
    ensures turn { (limit : ℕ) (added : Extra S) (s : State S)
        → EventsGrow s.events (state_of (turn limit added s)).events }
    ensures run { (limit : ℕ) (added : Extra S) (allowed left : ℕ) (s : State S)
        → EventsGrow s.events (run_on limit added allowed left s).events }
{}

/// A turn selects once, unless nothing can come. Where nothing is open, and what is added asks
/// nothing, it has one answer at most (`asks_are_bounded` holds whatever is open and whatever asks); nothing is asked
/// where nothing is added. A run begins at most one turn more than the outside answers: the one
/// that finds no answer.
pub fn turns_are_bounded<S>()
    ensures one { (limit : ℕ) (added : Extra S) (s : State S) → is_stalled added s ≡ false
        → turns_in (state_of (turn limit added s)).events ≡ turns_in s.events + 1 }
    ensures answers { (limit : ℕ) (added : Extra S) (s : State S) → IsClosed s → AsksNothing added
        → answers_in (state_of (turn limit added s)).events ≤ answers_in s.events + 1 }
    ensures most { (limit : ℕ) (added : Extra S) (allowed left : ℕ) (s : State S)
        → turns_in (run_on limit added allowed left s).events
        ≤ turns_in s.events + length s.answers + 1 }
    ensures nothing { AsksNothing no_extra }
{}

/// A turn asks finitely often: each call takes one of the answers that the outside has left, but a
/// last one, at which the run ends. So a run asks at most once more than the outside has answers,
/// and those that it had are those that are left no more.
pub fn asks_are_bounded<S>()
    ensures turn { (limit : ℕ) (added : Extra S) (s : State S) → WentAsks s (turn limit added s) }
    ensures had { (limit : ℕ) (added : Extra S) (s : State S) →
        let after = state_of (turn limit added s) in
        answers_in after.events + length after.answers
        ≡ answers_in s.events + length s.answers }
    ensures run { (limit : ℕ) (added : Extra S) (allowed left : ℕ) (s : State S)
        → asks_in (run_on limit added allowed left s).events
        ≤ asks_in s.events + length s.answers + 1 }
{}

/// A step ends before its bound: if a coroutine might be answered more often, nothing would change.
pub fn a_step_ends_by_itself<S>()
    ensures { (limit : ℕ) (added : Extra S) (task more : ℕ) (s : State S) →
        task < length s.generators →
        let most = most_answers limit (generator_of task s).tape in
        serve limit added (most + more) task s ≡ serve limit added most task s }
{}

/// What is added is woken no more often in a step than it says, whether by what is done or by what
/// the outside answers, where that number falls each time that a request is woken again at once; it
/// does where nothing is added.
pub fn wakes_end_by_themselves<S>()
    ensures within { (added : Extra S) (task more key : ℕ) (input : Input) (s : State S) →
        WakesFall added →
        let most = suc (added.wakes_left key s.extra) in
        woken_within added (most + more) task key input s
        ≡ woken_within added most task key input s }
    ensures nothing { WakesFall no_extra }
{}

/// A run begins in a sound state, however many listeners, connections and children can be numbered,
/// where what is added begins with nothing that names tasks, futures or values.
pub fn a_run_begins_sound<S>()
    ensures { (added : Extra S) (most : ℕ) (state : S) (program : Program) (answers : List Entry)
        → NamesNothing (added.keeps state)
        → IsStateSound added (start most state program answers) }
{}
