//! Laws of handles. Each function has no body: its clauses are the laws.
ghost use Rattle.std.specs.Prelude.{◌≡◌, ◌<◌, ℕ, true, false, List, [], ◌∷◌, Option, Some, None, length, map, nat_lt};
ghost use Rattle.std.specs.List.{count_by};
ghost use Rattle.model_value.specs.Action.{Action};
ghost use Rattle.model_loop.specs.Parts.{Handle, Parts};
ghost use Rattle.model_loop.specs.Handles.{soon, soon_all, revoke};
ghost use Rattle.aio_ready.specs.declared.handle.HandleId.{HandleId};
ghost use Rattle.aio_ready.specs.Names.{is_same};
ghost use Rattle.aio_ready.specs.Queue as queue;
ghost use Rattle.aio_ready.specs.Queue.{Queue};
ghost use Rattle.aio_cancel.specs.Awaitables.{waiting};
ghost use Rattle.aio_task.specs.View.{View};
ghost use Rattle.aio_task.specs.Keeps.{NameMap, Keeps, Kept, Knows, ByHandle, handle_as};
ghost use Rattle.refine_parts.specs.Runs.{skipped, IsPastBar, Skips};

/// Handles that are appended. The machine's tag is known by the id that the call answers.
pub fn appended_handles_are_kept()
    ensures soon { (t : NameMap) (v : View) (p : Parts) (action : Action) → Keeps t v p
        → (kept : Kept t p (record v { queue = queue.soon action v.queue }) (soon action p))
        × Knows kept.name_map (soon action p) p.next_tag
        (ByHandle (record { name = queue.next_name v.queue })) }
    ensures soon_all { (t : NameMap) (v : View) (p : Parts) (actions : List Action) → Keeps t v p
        → Kept t p (record v { queue = queue.soon_all actions v.queue }) (soon_all actions p) }
{}

/// The id that the call answers names a handle where a number is left.
pub fn an_id_names_a_handle()
    ensures { (q : Queue) → q.given < queue.most_given
        → is_same (queue.next_name q) (queue.next_name q) ≡ true }
{}

/// A handle that is cancelled by its id, which names one.
pub fn cancelled_handles_are_kept()
    ensures { (t : NameMap) (v : View) (p : Parts) (tag : ℕ) (id : HandleId) → Keeps t v p
        → Knows t p tag (ByHandle id) → is_same id.name id.name ≡ true
        → Keeps t (record v { queue = queue.cancelled id.name v.queue }) (revoke tag p) }
{}

/// What waits, and whether nothing does.
pub fn waiting_handles_are_kept()
    ensures all { (t : NameMap) (v : View) (p : Parts) → Keeps t v p
        → waiting v.queue ≡ map (handle_as t.known) p.pending }
    ensures none { (t : NameMap) (v : View) (p : Parts) → Keeps t v p
        → queue.is_empty (waiting v.queue) ≡ true → p.pending ≡ [] }
    ensures some { (t : NameMap) (v : View) (p : Parts) → Keeps t v p
        → queue.is_empty (waiting v.queue) ≡ false
        → (first : Handle) × (others : List Handle) × (p.pending ≡ first ∷ others) }
{}

/// The bar stands where the next stamp is. Those that stand before it have stamps below it.
pub fn the_bar_is_kept()
    ensures set { (t : NameMap) (v : View) (p : Parts) → Keeps t v p
        → Keeps (record t { bar = p.next_stamp }) (record v { queue = queue.barred v.queue }) p }
    ensures count { (t : NameMap) (v : View) (p : Parts) → Keeps t v p
        → length v.queue.below
        ≡ count_by (λ (handle : Handle). nat_lt handle.stamp t.bar) p.pending }
{}

/// What runs next before the bar. The machine takes each dead handle out by a step of its own.
pub fn the_next_handle_is_kept()
    ensures dead { (t : NameMap) (v : View) (p : Parts) (first : Handle) (others : List Handle)
        → Keeps t v p → p.pending ≡ first ∷ others → first.stamp < t.bar → first.dead ≡ true
        → Keeps t (record v { queue = skipped v.queue }) (record p { pending = others })
        × (queue.next_action (skipped v.queue) ≡ queue.next_action v.queue)
        × (queue.taken (skipped v.queue) ≡ queue.taken v.queue) }
    ensures live { (t : NameMap) (v : View) (p : Parts) (first : Handle) (others : List Handle)
        (called : Option ℕ) → Keeps t v p → p.pending ≡ first ∷ others → first.stamp < t.bar
        → first.dead ≡ false
        → Keeps t (record v { queue = queue.taken v.queue; called = called })
        (record p { pending = others })
        × (queue.next_action v.queue ≡ Some first.action) }
    ensures none { (t : NameMap) (v : View) (p : Parts) → Keeps t v p → IsPastBar t.bar p.pending
        → (queue.next_action v.queue ≡ None) × (queue.taken v.queue ≡ v.queue) }
    ensures skips { (t : NameMap) (v : View) (p : Parts) (called : Option ℕ) → Keeps t v p
        → Skips t (record v { queue = queue.taken v.queue; called = called }) p
        (queue.next_action v.queue) }
{}
