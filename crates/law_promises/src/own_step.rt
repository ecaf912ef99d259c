//! Laws of must_cancel within a step of its own task, whatever is open and whatever is added. Each
//! function has no body: its clauses are the laws, of every state. `S` is the state of what is
//! added to the loop's own requests.
ghost use Rattle.std.specs.Prelude.{◌≡◌, ℕ, false};
ghost use Rattle.model_value.specs.Input.{Input};
ghost use Rattle.model_value.specs.Request.{Request};
ghost use Rattle.model_loop.specs.Parts.{Parts};
ghost use Rattle.model_loop.specs.Tasks.{begin_step, must_cancel_of};
ghost use Rattle.model_machine.specs.Extra.{Extra};
ghost use Rattle.model_machine.specs.Replies.{decides, reply};
ghost use Rattle.model_machine.specs.State.{ResumePoint, State};
ghost use Rattle.model_machine.specs.Step.{serve};
ghost use Rattle.law_promises.specs.MustCancelIn.{IsMustCancel};
ghost use Rattle.law_promises.specs.OwnStep.{ReplyFalls, WentFalls};

/// A step of a task begins without its must_cancel, which its input has used up. What asks for its
/// cancel within the step sets it. From then on it falls, in both profiles, only where the step
/// ends with a wait for a future whose cancel answers true, or with the task's return, by which it
/// ends cancelled; and in profile 2 where all requests were taken back. So it is of what the task
/// stood at, of each of its requests, and of the whole rest of its step.
pub fn must_cancel_falls_at_the_end_of_its_step<S>()
    ensures begins { (task : ℕ) (input : Input) (p : Parts)
        → must_cancel_of (begin_step task input p).parts task ≡ false }
    ensures resumed { (added : Extra S) (resume_point : ResumePoint) (task : ℕ) (input : Input)
        (s : State S)
        → IsMustCancel task s → ReplyFalls task s (decides added resume_point task input s) }
    ensures asks { (added : Extra S) (task : ℕ) (asked : Request) (s : State S)
        → IsMustCancel task s → ReplyFalls task s (reply added task asked s) }
    ensures rest { (limit : ℕ) (added : Extra S) (answers task : ℕ) (s : State S)
        → IsMustCancel task s → WentFalls task s (serve limit added answers task s) }
{}
