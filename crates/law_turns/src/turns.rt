//! Laws of turns. Each function has no body: its clauses are the laws. `S` is the state of what is
//! added to the loop's own requests, whatever that is.
ghost use Rattle.std.specs.Prelude.{◌≡◌, ℕ, Bool, true, false, List, ◌∷◌};
ghost use Rattle.model_value.specs.declared.action.Action.TheVariants.{SleepDone, GroupDone, Fires, MainDone};
ghost use Rattle.model_tree.specs.Syntax.{Program};
ghost use Rattle.model_wire.specs.Call.{Answer};
ghost use Rattle.model_wire.specs.Journal.{Entry};
ghost use Rattle.model_loop.specs.Parts.{Handle};
ghost use Rattle.model_machine.specs.Extra.{Extra};
ghost use Rattle.model_machine.specs.State.{State, start, unbooked_in};
ghost use Rattle.model_machine.specs.Mids.{mids_from};
ghost use Rattle.model_machine.specs.Turn.{woken_by, turn_over, run_first, run_pending};
ghost use Rattle.law_turns.specs.FitsTurn.{AreSound, FitsPending};
ghost use Rattle.law_turns.specs.SoundState.{HasSoundLoop, LeavesSoundLoop};

/// A run of every program begins in a state whose loop is sound.
pub fn a_run_begins_sound<S>()
    ensures { (most : ℕ) (extra : S) (program : Program) (answers : List Entry)
        → HasSoundLoop (start most extra program answers) }
{}

/// A turn up to its bar keeps it: the time goes on, and timers fall due.
pub fn a_turn_begins_sound<S>()
    ensures { (answer : Answer) (s : State S) → HasSoundLoop s
        → HasSoundLoop (unbooked_in (woken_by answer) s) }
{}

/// So does each callback that steps no task: a handle that is dead, one that notes that main is
/// done, the end of a sleep, a timeout's firing, and what tells a group of its task, which the
/// events then say.
pub fn callbacks_keep_it_sound<S>()
    ensures dead { (limit : ℕ) (added : Extra S) (s : State S) (handle : Handle)
        (rest : List Handle)
        → s.loop.parts.pending ≡ handle ∷ rest → HasSoundLoop s → handle.dead ≡ true
        → LeavesSoundLoop (run_first limit added handle rest s) }
    ensures main_done { (limit : ℕ) (added : Extra S) (s : State S) (handle : Handle)
        (rest : List Handle)
        → s.loop.parts.pending ≡ handle ∷ rest → HasSoundLoop s → handle.dead ≡ false
        → handle.action ≡ MainDone
        → LeavesSoundLoop (run_first limit added handle rest s) }
    ensures sleep { (limit : ℕ) (added : Extra S) (s : State S) (handle : Handle)
        (rest : List Handle)
        → s.loop.parts.pending ≡ handle ∷ rest → HasSoundLoop s → (task future : ℕ)
        → handle.dead ≡ false
        → handle.action ≡ SleepDone task future
        → LeavesSoundLoop (run_first limit added handle rest s) }
    ensures timeout { (limit : ℕ) (added : Extra S) (s : State S) (handle : Handle)
        (rest : List Handle)
        → s.loop.parts.pending ≡ handle ∷ rest → HasSoundLoop s → (id : ℕ) → handle.dead ≡ false
        → handle.action ≡ Fires id → LeavesSoundLoop (run_first limit added handle rest s) }
    ensures group { (limit : ℕ) (added : Extra S) (s : State S) (handle : Handle)
        (rest : List Handle)
        → s.loop.parts.pending ≡ handle ∷ rest → HasSoundLoop s → (id task : ℕ)
        → handle.dead ≡ false
        → handle.action ≡ GroupDone id task
        → LeavesSoundLoop (run_first limit added handle rest s) }
{}

/// So does the end of a turn, with the cancels of all tasks after main's callback ran.
pub fn a_turn_ends_sound<S>()
    ensures { (done_before : Bool) (s : State S) → HasSoundLoop s
        → LeavesSoundLoop (turn_over done_before s) }
{}

/// All callbacks of a turn keep it, where each step among them is fit; so each state between two of
/// them is sound.
pub fn states_between_callbacks_are_sound<S>()
    ensures after { (limit : ℕ) (added : Extra S) (s : State S) → HasSoundLoop s
        → FitsPending limit added s
        → LeavesSoundLoop (run_pending limit added s) }
    ensures between { (limit : ℕ) (added : Extra S) (s : State S) → HasSoundLoop s
        → FitsPending limit added s
        → AreSound (mids_from limit added s) }
{}
