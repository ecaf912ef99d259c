//! The search for a cycle of waits, with what is left to look at on a stack.
ghost use Rattle.std.specs.Prelude.{◌≡◌, ◌<◌, ◌≤◌, ℕ, Bool, List, [], ◌∷◌, ◌++◌, Option, length, slice_get};
ghost use Rattle.model_loop.specs.Parts.{Parts};
ghost use Rattle.model_loop.specs.Cycles.{leads as leads_of};
ghost use Rattle.model_loop.specs.Sound.{HasNoCycle};
ghost use Rattle.algorithm_parts.specs.declared.walk.WalkFrame.{WalkFrame as PlainFrame};
ghost use Rattle.algorithm_parts.specs.declared.walk.Go.TheVariants as go;
ghost use Rattle.algorithm_parts.specs.declared.walk.FutureState.TheVariants as stands;
ghost use Rattle.algorithm_parts.specs.Shape.{stands_at};
ghost use Rattle.algorithm_parts.specs.Weight.{weight};
ghost use Rattle.algorithm_parts.specs.Open.{CanWalk};
ghost use Rattle.algorithm_parts.specs.Seek.{CanSeek};
ghost use Rattle.aio_cancel.specs.Awaitables.{parts};
ghost use Rattle.aio_cancel.specs.Noted.{noted, HasNoNotes};
ghost use Rattle.aio_cancel.specs.Room.{HasRoom};

use crate::awaitables::Awaitables;
use crate::marks::Marks;
use crate::notes::Notes;
use crate::stack::WalkStack;
use aio_future::FutureId;
use algorithm_parts::{FutureState, Go, WalkFrame};

// What is looked at after a future that is not the one that is looked for.
fn expand(id: FutureId, body: &Awaitables, seen: &mut Marks, notes: &mut Notes) -> Go
    requires { length body.now.tasks ≤ seen.old.tasks }
    ensures seeks { (from to : ℕ) (frames : List PlainFrame)
        → CanSeek (parts body.now) from to seen.old.visited (noted notes.old) (go.Visit id) frames
        → (id ≡ to → ⊥)
        → CanSeek (parts body.now) from to seen.new.visited (noted notes.new) result frames }
    ensures walks { (room marks : ℕ) (frames : List PlainFrame)
        → CanWalk room marks (go.Visit id) frames [] (parts body.now)
        → CanWalk room marks result frames [] (parts body.now) }
    ensures falls { (frames : List PlainFrame)
        → weight result frames seen.new.visited (parts body.now) < weight
        (go.Visit id) frames seen.old.visited (parts body.now) }
    ensures marks { seen.new.tasks ≡ seen.old.tasks }
{
    match body.stands(id) {
        FutureState::Done => Go::Answer(false),
        FutureState::Plain => Go::Answer(false),
        FutureState::OfTask(task) => expand_task(id, task, body, seen),
        FutureState::Many => expand_many(id, notes),
    }
}

fn expand_task(id: FutureId, task: u32, body: &Awaitables, seen: &mut Marks) -> Go
    requires marked { length body.now.tasks ≤ seen.old.tasks }
    requires task { stands.OfTask task ≡ stands_at (slice_get body.now.futures id) }
    ensures seeks { (from to : ℕ) (frames : List PlainFrame) (said : ℕ → Option Bool)
        → CanSeek (parts body.now) from to seen.old.visited said (go.Visit id) frames
        → (id ≡ to → ⊥)
        → CanSeek (parts body.now) from to seen.new.visited said result frames }
    ensures walks { (room marks : ℕ) (frames : List PlainFrame)
        → CanWalk room marks (go.Visit id) frames [] (parts body.now)
        → CanWalk room marks result frames [] (parts body.now) }
    ensures falls { (frames : List PlainFrame)
        → weight result frames seen.new.visited (parts body.now) < weight
        (go.Visit id) frames seen.old.visited (parts body.now) }
    ensures marks { seen.new.tasks ≡ seen.old.tasks }
{
    if seen.has(task) {
        return Go::Answer(false);
    }
    let Some(found) = body.task(task) else {
        return Go::Answer(false);
    };
    let waiter = found.waiter();
    match waiter {
        Some(waiter) => {
            seen.add(task);
            Go::Visit(waiter)
        }
        None => Go::Answer(false),
    }
}

fn expand_many(id: FutureId, notes: &mut Notes) -> Go
    ensures seeks { (p : Parts) (from to : ℕ) (seen : List ℕ) (frames : List PlainFrame)
        → stands.Many ≡ stands_at (slice_get p.futures id)
        → CanSeek p from to seen (noted notes.old) (go.Visit id) frames → (id ≡ to → ⊥)
        → CanSeek p from to seen (noted notes.new) result frames }
    ensures walks { (p : Parts) (room marks : ℕ) (frames : List PlainFrame) → stands.Many
        ≡ stands_at (slice_get p.futures id)
        → CanWalk room marks (go.Visit id) frames [] p → CanWalk room marks result frames [] p }
    ensures falls { (p : Parts) (seen : List ℕ) (frames : List PlainFrame)
        → weight result frames seen p < weight (go.Visit id) frames seen p }
{
    match notes.of(id) {
        Some(_) => Go::Answer(false),
        None => {
            notes.put(id, false);
            Go::Next {
                id,
                place: 0,
                any: false,
            }
        }
    }
}

fn seek_next(
    id: FutureId,
    place: usize,
    any: bool,
    body: &Awaitables,
    seen: &Marks,
    stack: &mut WalkStack,
) -> Go
    requires { CanWalk stack.old.room seen.now.tasks
        (go.Next id place any) stack.old.frames [] (parts body.now) }
    ensures seeks { (from to : ℕ) (said : ℕ → Option Bool)
        → CanSeek (parts body.now) from to seen.now.visited said
        (go.Next id place any) stack.old.frames
        → CanSeek (parts body.now) from to seen.now.visited said result stack.new.frames }
    ensures walks { CanWalk stack.new.room seen.now.tasks
        result stack.new.frames [] (parts body.now) }
    ensures falls { weight result stack.new.frames seen.now.visited (parts body.now)
        < weight (go.Next id place any) stack.old.frames seen.now.visited (parts body.now) }
    ensures room { stack.new.room ≡ stack.old.room }
{
    match body.member(id, place) {
        Some(member) => stack.take_member(id, place, any, member),
        None => Go::Answer(false),
    }
}

// What is looked at after all that stood above a frame.
fn after(frame: WalkFrame) -> Go
    ensures seeks { (p : Parts) (from to : ℕ) (answer : Bool) (seen : List ℕ)
        (said : ℕ → Option Bool) (frames : List PlainFrame)
        → CanSeek p from to seen said (go.Answer answer) (frames ++ frame ∷ [])
        → CanSeek p from to seen said result frames }
    ensures walks { (p : Parts) (room marks : ℕ) (answer : Bool) (frames : List PlainFrame)
        → CanWalk room marks (go.Answer answer) (frames ++ frame ∷ []) [] p
        → CanWalk room marks result frames [] p }
    ensures falls { (p : Parts) (answer : Bool) (seen : List ℕ) (frames : List PlainFrame)
        → weight result frames seen p < weight (go.Answer answer) (frames ++ frame ∷ []) seen p }
{
    match frame {
        WalkFrame::Waits { id: _, task: _ } => Go::Answer(false),
        WalkFrame::Members { id, place, any } => Go::Next { id, place, any },
    }
}

fn search(
    from: FutureId,
    to: FutureId,
    body: &Awaitables,
    seen: &mut Marks,
    notes: &mut Notes,
    stack: &mut WalkStack,
) -> bool
    requires differ { from ≡ to → ⊥ }
    requires no_cycle { HasNoCycle (parts body.now) }
    requires room { HasRoom body.now stack.old seen.old notes.old }
    ensures answer { result ≡ leads_of (parts body.now) from to }
    ensures room { stack.new.room ≡ stack.old.room }
    ensures marks { seen.new.tasks ≡ seen.old.tasks }
{
    let mut go = Go::Visit(from);
    loop {
        go = match go {
            Go::Visit(id) => {
                if id == to {
                    return true;
                }
                expand(id, body, seen, notes)
            }
            Go::Next { id, place, any } => seek_next(id, place, any, body, seen, stack),
            Go::Answer(_) => match stack.pop() {
                Some(frame) => after(frame),
                None => return false,
            },
        };
    }
}

/// Whether one future leads to another one by one pass or more.
pub fn leads(
    from: FutureId,
    to: FutureId,
    body: &Awaitables,
    seen: &mut Marks,
    notes: &mut Notes,
    stack: &mut WalkStack,
) -> bool
    requires differ { from ≡ to → ⊥ }
    requires no_cycle { HasNoCycle (parts body.now) }
    requires room { HasRoom body.now stack.old seen.old notes.old }
    ensures answer { result ≡ leads_of (parts body.now) from to }
    ensures stack { stack.new ≡ stack.old }
    ensures seen { seen.new ≡ seen.old }
    ensures unnoted { HasNoNotes notes.new }
{
    let found = search(from, to, body, seen, notes, stack);
    stack.clear();
    seen.clear();
    notes.clear();
    found
}
