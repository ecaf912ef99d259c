//! Laws of the ends of turns and runs. Each function has no body: its clauses are the laws. `S` is
//! the state of what is added to the loop's own requests.
ghost use Rattle.std.specs.Prelude.{ℕ, List};
ghost use Rattle.model_tree.specs.Syntax.{Program};
ghost use Rattle.model_says.specs.Says.{step_limit};
ghost use Rattle.model_wire.specs.Journal.{Entry};
ghost use Rattle.model_loop.specs.Parts.{Handle};
ghost use Rattle.model_machine.specs.Extra.{Extra, NamesNothing, no_extra};
ghost use Rattle.model_machine.specs.Sound.{IsStateSound};
ghost use Rattle.model_machine.specs.State.{State, start};
ghost use Rattle.model_machine.specs.Turn.{run_first, run_pending, turn};
ghost use Rattle.law_replies.specs.Added.{KeepsSound};
ghost use Rattle.law_reach.specs.Reaches.{StopsIn};
ghost use Rattle.law_runs.specs.Ends.{IsLeftSound, EndsSound};

/// A callback ends a run in two ways: it steps a task that runs away, or, where something is open
/// or what is added asks, it asks the outside, which has no answer that fits. So do all callbacks
/// of a turn.
pub fn callbacks_end_a_run_so<S>()
    ensures callback { (limit : ℕ) (added : Extra S) (handle : Handle) (rest : List Handle)
        (s : State S)
        → StopsIn added s (run_first limit added handle rest s) }
    ensures pending { (limit : ℕ) (added : Extra S) (s : State S)
        → StopsIn added s (run_pending limit added s) }
{}

/// A turn from a sound state leaves a sound state, unless a callback ended the run so: where the
/// run goes on, where it finishes, where it is stalled, and where its select has no answer that
/// fits.
pub fn a_turn_leaves_a_sound_state<S>()
    ensures { (added : Extra S) → KeepsSound added
        → (s : State S) → IsStateSound added s → IsLeftSound added s (turn step_limit added s) }
{}

/// So the state in which a run ends is sound, for every program and whatever the outside answers,
/// unless a callback ended it; and so from every sound state on. Where nothing can be opened, and
/// what is added asks nothing, that callback steps a task that runs away.
pub fn every_run_ends_sound<S>()
    ensures nothing_added { (most : ℕ) (program : Program) (answers : List Entry) (turns : ℕ)
        → let begun = start most tt program answers in EndsSound no_extra begun turns begun }
    ensures added { (added : Extra S) → KeepsSound added
        → (most : ℕ) (state : S) (program : Program) (answers : List Entry) (turns : ℕ)
        → NamesNothing (added.keeps state)
        → let begun = start most state program answers in EndsSound added begun turns begun }
    ensures from_any { (added : Extra S) → KeepsSound added
        → (s : State S) → IsStateSound added s → (turns : ℕ) → EndsSound added s turns s }
{}
