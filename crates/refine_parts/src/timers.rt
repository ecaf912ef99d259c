//! Laws of the time and of timers. Each function has no body: its clauses are the laws.
ghost use Rattle.std.specs.Prelude.{◌≡◌, ◌+◌, ℕ, Bool, [], ◌∷◌, List, None, Some, if◌then◌else◌};
ghost use Rattle.model_value.specs.Action.{Action};
ghost use Rattle.model_wire.specs.declared.watch.Watch.{Watch};
ghost use Rattle.model_loop.specs.Parts.{Parts, Timer};
ghost use Rattle.model_loop.specs.Handles.{later, revoke, due};
ghost use Rattle.model_machine.specs.Turn.{least, wait_of, nothing_comes};
ghost use Rattle.aio_ready.specs.declared.handle.HandleName.TheVariants as name;
ghost use Rattle.aio_ready.specs.Queue.{cancelled, is_empty};
ghost use Rattle.aio_timer.specs.declared.live.TimerId.{TimerId};
ghost use Rattle.aio_timer.specs.Schedule.{timer, placed_after, without, lives, later_than, due_at, fallen, first_when};
ghost use Rattle.aio_cancel.specs.Awaitables.{waiting};
ghost use Rattle.aio_task.specs.View.{View};
ghost use Rattle.aio_task.specs.Keeps.{NameMap, Keeps, Kept, Knows, ByTimer};
ghost use Rattle.refine_parts.specs.Waiting.{wait_by, stalls_by};

/// The time is set.
pub fn the_time_is_kept()
    ensures { (t : NameMap) (v : View) (p : Parts) (now : ℕ) → Keeps t v p
        → Keeps t (record v { time = now }) (record p { time = now }) }
{}

/// A timer is made: the machine's tag is known by the id that the call answers.
pub fn a_new_timer_is_kept()
    ensures { (t : NameMap) (v : View) (p : Parts) (when : ℕ) (action : Action) → Keeps t v p →
        let id : TimerId = record { number = v.schedule.next; when = when } in
        (kept : Kept t p
        (record v {
          schedule = record {
            live = placed_after (timer id action) v.schedule.live;
            next = v.schedule.next + 1;
          };
        })
        (later when action p))
        × Knows kept.name_map (later when action p) p.next_tag (ByTimer id) }
{}

/// A timer that is cancelled by its id, whether it waits, has fallen due or ran.
pub fn a_cancelled_timer_is_kept()
    ensures { (t : NameMap) (v : View) (p : Parts) (tag : ℕ) (id : TimerId) → Keeps t v p
        → Knows t p tag (ByTimer id)
        → Keeps t
        (record v {
          schedule = record v.schedule { live = without id v.schedule.live };
          queue = (if lives id v.schedule.live then v.queue
              else cancelled (name.Timer id.number) v.queue);
        })
        (revoke tag p) }
{}

/// Timers fall due: by deadline, and equal ones in order of scheduling.
pub fn due_timers_are_kept()
    ensures { (t : NameMap) (v : View) (p : Parts) (now : ℕ) → Keeps t v p → now ≡ v.time
        → Keeps t
        (record v {
          schedule = record v.schedule { live = later_than now v.schedule.live };
          queue = fallen (due_at now v.schedule.live) v.queue;
        })
        (due p) }
{}

/// The earliest deadline. By it a turn knows how long it waits, and whether anything can come.
pub fn the_earliest_deadline_is_kept()
    ensures none { (t : NameMap) (v : View) (p : Parts) → Keeps t v p
        → first_when v.schedule.live ≡ None → p.timers ≡ [] }
    ensures some { (t : NameMap) (v : View) (p : Parts) (when : ℕ) → Keeps t v p
        → first_when v.schedule.live ≡ Some when
        → (first : Timer) × (others : List Timer) × (p.timers ≡ first ∷ others)
        × (when ≡ least first.when others) }
    ensures wait { (t : NameMap) (v : View) (p : Parts) → Keeps t v p
        → wait_of p ≡ wait_by (is_empty (waiting v.queue)) (first_when v.schedule.live) v.time }
    ensures stall { (t : NameMap) (v : View) (p : Parts) (watched : List Watch) → Keeps t v p
        → nothing_comes p.pending p.timers watched
        ≡ stalls_by (is_empty (waiting v.queue)) (first_when v.schedule.live) watched }
{}
