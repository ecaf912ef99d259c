//! What trees of streams and children do keeps the loop sound. Each function has no body: its
//! clauses are the laws. `S` is the state of what is added to the loop's own requests.
ghost use Rattle.std.specs.Prelude.{ℕ};
ghost use Rattle.model_stream.specs.Doing.{Doing};
ghost use Rattle.model_machine.specs.Does.{does};
ghost use Rattle.model_machine.specs.Replies.{RequestReply, Halts};
ghost use Rattle.model_machine.specs.State.{State};
ghost use Rattle.model_machine.specs.Went.{Went, Stops};
ghost use Rattle.law_turns.specs.Replied.{RepliesSound, RunsSound};
ghost use Rattle.law_turns.specs.SoundState.{HasSoundLoop, LeavesSoundLoop};
ghost use Rattle.law_turns.specs.Trees.{FitsTree};

/// A tree keeps it that appends handles which step no task, tell no group and wait for no time, and
/// settles plain futures, whatever the outside answers, where the rest keeps it: in a callback, and
/// in a request of a task.
pub fn trees_keep_it_sound<S, A>()
    ensures callback { (tree : Doing A) (next : A → State S → Went S) (s : State S)
        → ((it : A) (t : State S) → HasSoundLoop t → LeavesSoundLoop (next it t))
        → FitsTree tree s.loop → HasSoundLoop s
        → LeavesSoundLoop (does Stops tree next s) }
    ensures request { (task : ℕ) (tree : Doing A) (next : A → State S → RequestReply S)
        (s : State S)
        → ((it : A) (t : State S) → RunsSound task t → RepliesSound task (next it t))
        → FitsTree tree s.loop → RunsSound task s
        → RepliesSound task (does Halts tree next s) }
{}
