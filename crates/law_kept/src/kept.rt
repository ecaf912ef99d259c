//! Laws of what leaves all that is added as it is. Each function has no body: its clauses are the
//! laws. `S` is the state of what is added to the loop's own requests, whatever that is.
ghost use Rattle.std.specs.Prelude.{◌≡◌, ℕ, true, false};
ghost use Rattle.model_value.specs.Input.{Input};
ghost use Rattle.model_value.specs.Request.{Request};
ghost use Rattle.model_machine.specs.Extra.{Extra};
ghost use Rattle.model_machine.specs.Replies.{decides, reply};
ghost use Rattle.model_machine.specs.State.{ResumePoint, State};
ghost use Rattle.law_reach.specs.Reaches.{left_by};
ghost use Rattle.law_kept.specs.Walks.{Beside, is_extra_request, serves_none};

/// A request of the loop's own, and what a task stands at that is none of what is added, leave what
/// is kept as it is: no handle of what is added is made, nothing is asked or taken back in its
/// name, and no task comes to stand at a request of it.
pub fn requests_of_the_loop_leave_it_alone<S>()
    ensures request { (added : Extra S) (task : ℕ) (asked : Request) (s : State S)
        → is_extra_request asked ≡ false → Beside s (left_by (reply added task asked s)) }
    ensures resumed { (added : Extra S) (task : ℕ) (resume_point : ResumePoint) (input : Input)
        (s : State S)
        → serves_none resume_point ≡ true
        → Beside s (left_by (decides added resume_point task input s)) }
{}
