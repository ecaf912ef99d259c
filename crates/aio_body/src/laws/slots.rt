//! Laws of what tasks run and stand at. Each function has no body: its clauses are the laws.
ghost use Rattle.std.specs.Prelude.{◌≡◌, ℕ, ◌<◌, ◌++◌, [], ◌∷◌, Bool, Some, None, false};
ghost use Rattle.model_value.specs.Input.{Input};
ghost use Rattle.model_loop.specs.Tasks.{lives, next_task};
ghost use Rattle.model_machine.specs.State as plain;
ghost use Rattle.model_machine.specs.State.{State, generator_of, resumed, stands};
ghost use Rattle.aio_gen.specs.Gens.{GenStandsFor};
ghost use Rattle.aio_gen.specs.declared.generator.Gen.{Gen};
ghost use Rattle.aio_extra.specs.Added.{named_in};
ghost use Rattle.aio_body.specs.Slots.{put_back, resume_point_at};
ghost use Rattle.aio_body.specs.Stands.{Context, Stands, StandsAt, holding};
ghost use Rattle.aio_body.specs.declared.run_state.RunState.{RunState};
ghost use Rattle.aio_body.specs.declared.resume_point.ResumePoint.{ResumePoint};

use aio_extra::Extra;

/// What a task stands at changes in code as in the machine, while its coroutine is taken out.
pub fn a_task_stands_at_another_request<X: Extra>()
    ensures { (c : Context X.added) (old new : RunState X) (s : State X.added.Kept) (task : ℕ)
        (code : ResumePoint) (resume_point : plain.ResumePoint)
        → (h : Stands (Some task) c old s)
        → StandsAt h.name_map s.loop.parts (named_in X.added s) task code resume_point
        → new ≡ record old { slots = new.slots }
        → new.slots.items ≡ resume_point_at task code old.slots.items
        → task < next_task s.loop.parts → Stands (Some task) c new (stands resume_point task s) }
{}

/// The coroutine that is taken out is resumed, and put back; that of a task that is done is let go.
pub fn a_coroutine_goes_on<X: Extra>()
    ensures resumed { (c : Context X.added) (body : RunState X) (s : State X.added.Kept) (task : ℕ)
        (fresh : Bool) (input : Input) (before now : Gen)
        → Stands (Some task) (holding before c) body s → task < next_task s.loop.parts
        → (GenStandsFor s.program body.code (generator_of task s).coroutine
        (generator_of task s).arguments (generator_of task s).tape before
        → GenStandsFor s.program body.code (generator_of task s).coroutine
        (generator_of task s).arguments
        ((generator_of task s).tape ++ record { input = input; fresh = fresh } ∷ []) now)
        → Stands (Some task) (holding now c) body (resumed fresh task input s) }
    ensures back { (c : Context X.added) (old new : RunState X) (s : State X.added.Kept) (task : ℕ)
        (coroutine : Gen)
        → Stands (Some task) (holding coroutine c) old s → new ≡ record old { slots = new.slots }
        → new.slots.items ≡ put_back task coroutine old.slots.items → Stands None c new s }
    ensures over { (c : Context X.added) (body : RunState X) (s : State X.added.Kept) (task : ℕ)
        (coroutine : Gen)
        → Stands (Some task) (holding coroutine c) body s → lives s.loop.parts task ≡ false
        → Stands None c body s }
{}
