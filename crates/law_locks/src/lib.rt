//! What users of locks, events and queues rely on, over every run. Each function has no body: its
//! clauses are the law. `A`, `C` and `D` are what the other parts of what is added keep, whatever
//! these are.
#![tactic(auto)]

ghost use Rattle.std.specs.Prelude.{◌≡◌, ℕ, ℤ, pos, false, List, Some, length, slice_get};
ghost use Rattle.model_value.specs.Input.{Input};
ghost use Rattle.model_value.specs.Value.{Value};
ghost use Rattle.model_tree.specs.Syntax.{Program};
ghost use Rattle.model_wire.specs.Journal.{Entry};
ghost use Rattle.model_loop.specs.Parts.{Parts};
ghost use Rattle.model_machine.specs.Extra.{Extra};
ghost use Rattle.model_machine.specs.State.{State, start};
ghost use Rattle.model_reach.specs.Reach.{OfSync, Parted, part_of_code, part_of_key, reach};
ghost use Rattle.model_sync.specs.Events.{no_event};
ghost use Rattle.model_sync.specs.Locks.{no_lock, not_acquired};
ghost use Rattle.model_sync.specs.Queues.{no_queue};
ghost use Rattle.model_sync.specs.Serving.{Acquire, Clear, Get, IsLocked, IsSet, Put, Release, Set, Size, Wait, served, sync_means};
ghost use Rattle.model_sync.specs.Synced.{Lock, Synced, none_synced};
ghost use Rattle.law_calls.specs.Tells.{IsRunIn};
ghost use Rattle.law_locks.specs.Locks.{IsHeeded, LocksKeep};
ghost use Rattle.law_locks.specs.Queues.{QueuesKeep};
ghost use Rattle.law_locks.specs.Refused.{IsRefused, WasNeverMade};
ghost use Rattle.law_locks.specs.Requests.{RequestsKeep};
ghost use Rattle.law_locks.specs.Runs.{ComesByTries, served_in};
ghost use Rattle.law_locks.specs.Tries.{Asks, GoesOn, Try, kept_after, replies, said_of};

/// Each request is served as its definition says (`said_of`), whatever else is added and keeps: as a
/// task asks it, and as it goes on after a wait. What the other parts keep stays.
pub fn requests_answer_by_their_definition<A, C, D>()
    ensures asked { (gather : Extra A) (exec : Extra C) (dgram : Extra D) (task : ℕ) (code : ℤ)
        (arguments : List Value) (s : State (Parted A Synced C D)) → part_of_code code ≡ Some OfSync
        → (reach gather sync_means exec dgram).ask task code arguments s
        ≡ served_in (said_of (Asks code arguments s.loop) s.extra.sync) s.extra }
    ensures goes_on { (gather : Extra A) (exec : Extra C) (dgram : Extra D) (key : ℕ) (input : Input)
        (s : State (Parted A Synced C D)) → part_of_key key ≡ OfSync
        → (reach gather sync_means exec dgram).wake key input s
        ≡ served_in (said_of (GoesOn key input s.loop) s.extra.sync) s.extra }
{}

/// Requests are numbered in order of asking, and one that goes on after a wait is one that was
/// asked, under its number, and wants what it wanted.
pub fn requests_are_numbered_as_they_are_asked<A, C, D>()
    ensures tries { (all : List Try) → RequestsKeep (replies all none_synced) }
    ensures runs { (limit : ℕ) (gather : Extra A) (exec : Extra C) (dgram : Extra D)
        (first : Parted A Synced C D) → first.sync ≡ none_synced → (most : ℕ) (program : Program)
        (answers : List Entry) (turns : ℕ)
        → IsRunIn
        (ComesByTries limit gather exec dgram first (λ told kept. RequestsKeep told)) limit
        (reach gather sync_means exec dgram) turns (start most first program answers) }
{}

/// The values got from a queue, followed by those in it, are the values put, in order, each once;
/// and a queue with a size never holds more. So it is whatever is asked, and whatever the tries find
/// of the loop (`tries`); and in each state of each run, of the tries that are its calls (`runs`).
pub fn queues_keep_their_promise<A, C, D>()
    ensures tries { (all : List Try)
        → QueuesKeep (replies all none_synced) (kept_after all none_synced) }
    ensures runs { (limit : ℕ) (gather : Extra A) (exec : Extra C) (dgram : Extra D)
        (first : Parted A Synced C D) → first.sync ≡ none_synced → (most : ℕ) (program : Program)
        (answers : List Entry) (turns : ℕ)
        → IsRunIn (ComesByTries limit gather exec dgram first QueuesKeep) limit
        (reach gather sync_means exec dgram) turns (start most first program answers) }
{}

/// Between two acquires of one lock that answered True stands a release of it that answered None;
/// acquires answer True in order of asking; and where a lock is unlocked and somebody waits, the
/// first who does was woken. So it is of all tries through which the loop heeds those who wait: it
/// leaves their futures but for cancels, and a task that goes on hears that its future has a value,
/// or of a cancel.
pub fn locks_keep_their_promise()
    ensures heeded { (tries : List Try) (p q : Parts) → IsHeeded p none_synced tries q
        → LocksKeep (replies tries none_synced) q (kept_after tries none_synced) }
{}

/// A number that was never made raises a ValueError that tells what there isn't, and a release of
/// what isn't locked a RuntimeError; nothing changes.
pub fn what_cannot_be_served_changes_nothing()
    ensures acquire { (id : ℤ) (p : Parts) (kept : Synced) → WasNeverMade (length kept.locks) id
        → IsRefused no_lock kept (served (Acquire id) p kept) }
    ensures release { (id : ℤ) (p : Parts) (kept : Synced) → WasNeverMade (length kept.locks) id
        → IsRefused no_lock kept (served (Release id) p kept) }
    ensures locked { (id : ℤ) (p : Parts) (kept : Synced) → WasNeverMade (length kept.locks) id
        → IsRefused no_lock kept (served (IsLocked id) p kept) }
    ensures set { (id : ℤ) (p : Parts) (kept : Synced) → WasNeverMade (length kept.events) id
        → IsRefused no_event kept (served (Set id) p kept) }
    ensures clear { (id : ℤ) (p : Parts) (kept : Synced) → WasNeverMade (length kept.events) id
        → IsRefused no_event kept (served (Clear id) p kept) }
    ensures is_set { (id : ℤ) (p : Parts) (kept : Synced) → WasNeverMade (length kept.events) id
        → IsRefused no_event kept (served (IsSet id) p kept) }
    ensures wait { (id : ℤ) (p : Parts) (kept : Synced) → WasNeverMade (length kept.events) id
        → IsRefused no_event kept (served (Wait id) p kept) }
    ensures put { (id : ℤ) (value : Value) (p : Parts) (kept : Synced)
        → WasNeverMade (length kept.queues) id
        → IsRefused no_queue kept (served (Put id value) p kept) }
    ensures get { (id : ℤ) (p : Parts) (kept : Synced) → WasNeverMade (length kept.queues) id
        → IsRefused no_queue kept (served (Get id) p kept) }
    ensures size { (id : ℤ) (p : Parts) (kept : Synced) → WasNeverMade (length kept.queues) id
        → IsRefused no_queue kept (served (Size id) p kept) }
    ensures unlocked { (id : ℕ) (lock : Lock) (p : Parts) (kept : Synced)
        → slice_get kept.locks id ≡ Some lock → lock.locked ≡ false
        → IsRefused not_acquired kept (served (Release (pos id)) p kept) }
{}
