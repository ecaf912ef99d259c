//! Laws of what timeouts in code stand for. Each function has no body: its clauses are the laws.
ghost use Rattle.std.specs.Prelude.{◌≡◌, ◌<◌, ◌≤◌, ℕ, List, length};
ghost use Rattle.model_loop.specs.Parts.{Parts};
ghost use Rattle.model_loop.specs.Loop as loop;
ghost use Rattle.model_loop.specs.Loop.{Loop};
ghost use Rattle.model_loop.specs.Timeouts.{timeout_of};
ghost use Rattle.model_loop.specs.Deadlines.{HasTag};
ghost use Rattle.aio_task.specs.View.{View};
ghost use Rattle.aio_task.specs.Keeps.{NameMap};
ghost use Rattle.aio_timeout.specs.declared.timeout.Timeout.{Timeout};
ghost use Rattle.aio_timeout.specs.Kept.{AreTimeouts, KeepsTimeouts, StepsNone, handler_at};

/// Timeouts are numbered as the machine's are, and stay the machine's while tags that were given
/// are known as before.
pub fn timeouts_go_on()
    ensures count { (t : NameMap) (p : Parts) (timeouts : List Timeout) (them : List loop.Timeout)
        → AreTimeouts t p timeouts them → length timeouts ≡ length them }
    ensures on { (t u : NameMap) (p q : Parts) (timeouts : List Timeout) (them : List loop.Timeout)
        → ((tag : ℕ) → tag < p.next_tag → u.known tag ≡ t.known tag) → p.next_tag ≤ q.next_tag
        → AreTimeouts t p timeouts them → AreTimeouts u q timeouts them }
{}

/// Where each timeout of the machine has its tag to itself, the handles that are kept in code are
/// no steps of tasks.
pub fn handlers_step_no_task()
    ensures { (t : NameMap) (v : View) (l : Loop) (timeouts : List Timeout)
        → KeepsTimeouts t timeouts v l
        → ((id : ℕ) → HasTag l.parts id (timeout_of l id))
        → (id : ℕ) → StepsNone v.queue (handler_at id timeouts) }
{}
