//! A cancel request, with what is left to do on a stack.
ghost use Rattle.std.specs.Prelude.{◌≡◌, ◌<◌, ℕ, List, [], ◌∷◌, ◌++◌};
ghost use Rattle.model_loop.specs.Cancel.{cancel as cancel_of};
ghost use Rattle.model_loop.specs.Sound.{HasNoCycle};
ghost use Rattle.algorithm_parts.specs.declared.walk.WalkFrame.{WalkFrame as PlainFrame};
ghost use Rattle.algorithm_parts.specs.declared.walk.Go.TheVariants as go;
ghost use Rattle.algorithm_parts.specs.Walk.{run, run_task};
ghost use Rattle.algorithm_parts.specs.Weight.{weight};
ghost use Rattle.algorithm_parts.specs.Open.{CanWalk};
ghost use Rattle.algorithm_parts.specs.Shape.{stands_at};
ghost use Rattle.algorithm_parts.specs.declared.walk.FutureState.TheVariants as stands;
ghost use Rattle.std.specs.Prelude.{slice_get};
ghost use Rattle.algorithm_parts.specs.Quiet.{Sound, Later};
ghost use Rattle.aio_cancel.specs.Awaitables.{parts, Appended};
ghost use Rattle.aio_cancel.specs.Noted.{noted, HasNoNotes};
ghost use Rattle.aio_cancel.specs.Room.{HasRoom};

use crate::awaitables::Awaitables;
use crate::marks::Marks;
use crate::notes::Notes;
use crate::quiet::note;
use crate::stack::WalkStack;
use aio_base::Outcome;
use aio_future::FutureId;
use algorithm_parts::{FutureState, Go, WalkFrame};

fn visit(
    id: FutureId,
    body: &mut Awaitables,
    seen: &mut Marks,
    notes: &Notes,
    stack: &mut WalkStack,
) -> Go
    requires sound { Sound seen.old.visited (parts body.old) (noted notes.now) }
    requires can { CanWalk stack.old.room seen.old.tasks
        (go.Visit id) stack.old.frames seen.old.visited (parts body.old) }
    ensures sound { Sound seen.new.visited (parts body.new) (noted notes.now) }
    ensures walks { CanWalk stack.new.room seen.new.tasks result stack.new.frames seen.new.visited
        (parts body.new) }
    ensures same { run result stack.new.frames seen.new.visited (parts body.new)
        ≡ run (go.Visit id) stack.old.frames seen.old.visited (parts body.old) }
    ensures falls { weight result stack.new.frames seen.new.visited (parts body.new)
        < weight (go.Visit id) stack.old.frames seen.old.visited (parts body.old) }
    ensures queue { Appended body.old.queue body.new.queue }
    ensures room { stack.new.room ≡ stack.old.room }
    ensures marks { seen.new.tasks ≡ seen.old.tasks }
{
    match body.stands(id) {
        FutureState::Done => Go::Answer(false),
        FutureState::Plain => {
            body.settle(id, Outcome::Cancelled);
            Go::Answer(true)
        }
        FutureState::OfTask(task) => visit_task(id, task, body, seen, stack),
        FutureState::Many => match notes.of(id) {
            Some(again) => Go::Answer(again),
            None => Go::Next {
                id,
                place: 0,
                any: false,
            },
        },
    }
}

fn visit_task(
    id: FutureId,
    task: u32,
    body: &mut Awaitables,
    seen: &mut Marks,
    stack: &mut WalkStack,
) -> Go
    requires can { CanWalk stack.old.room seen.old.tasks
        (go.Visit id) stack.old.frames seen.old.visited (parts body.old) }
    requires task { stands.OfTask task ≡ stands_at (slice_get body.old.futures id) }
    ensures later { Later seen.old.visited (parts body.old) seen.new.visited (parts body.new) }
    ensures walks { CanWalk stack.new.room seen.new.tasks result stack.new.frames seen.new.visited
        (parts body.new) }
    ensures same { run result stack.new.frames seen.new.visited (parts body.new)
        ≡ run_task task stack.old.frames seen.old.visited (parts body.old) }
    ensures falls { weight result stack.new.frames seen.new.visited (parts body.new)
        < weight (go.Visit id) stack.old.frames seen.old.visited (parts body.old) }
    ensures queue { Appended body.old.queue body.new.queue }
    ensures room { stack.new.room ≡ stack.old.room }
    ensures marks { seen.new.tasks ≡ seen.old.tasks }
{
    if seen.has(task) {
        return Go::Answer(true);
    }
    let Some(found) = body.task(task) else {
        return Go::Answer(true);
    };
    let waiter = found.waiter();
    seen.add(task);
    body.raise(task);
    match waiter {
        Some(waiter) => {
            stack.push(WalkFrame::Waits { id, task });
            Go::Visit(waiter)
        }
        None => {
            body.set_must_cancel(task);
            Go::Answer(true)
        }
    }
}

fn next(
    id: FutureId,
    place: usize,
    any: bool,
    body: &mut Awaitables,
    seen: &Marks,
    notes: &mut Notes,
    stack: &mut WalkStack,
) -> Go
    requires sound { Sound seen.now.visited (parts body.old) (noted notes.old) }
    requires can { CanWalk stack.old.room seen.now.tasks
        (go.Next id place any) stack.old.frames seen.now.visited (parts body.old) }
    ensures sound { Sound seen.now.visited (parts body.new) (noted notes.new) }
    ensures walks { CanWalk stack.new.room seen.now.tasks result stack.new.frames seen.now.visited
        (parts body.new) }
    ensures same { run result stack.new.frames seen.now.visited (parts body.new)
        ≡ run (go.Next id place any) stack.old.frames seen.now.visited (parts body.old) }
    ensures falls { weight result stack.new.frames seen.now.visited (parts body.new)
        < weight (go.Next id place any) stack.old.frames seen.now.visited (parts body.old) }
    ensures queue { body.new.queue ≡ body.old.queue }
    ensures room { stack.new.room ≡ stack.old.room }
{
    match body.member(id, place) {
        Some(member) => stack.take_member(id, place, any, member),
        None => {
            body.ask_where(any, id);
            note(id, body, seen, notes);
            Go::Answer(any)
        }
    }
}

fn back(answer: bool, frame: WalkFrame, body: &mut Awaitables) -> Go
    ensures later { (seen : List ℕ) → Later seen (parts body.old) seen (parts body.new) }
    ensures walks { (room marks : ℕ) (seen : List ℕ) (stack : List PlainFrame)
        → CanWalk room marks (go.Answer answer) (stack ++ frame ∷ []) seen (parts body.old)
        → CanWalk room marks result stack seen (parts body.new) }
    ensures falls { (seen : List ℕ) (stack : List PlainFrame)
        → weight result stack seen (parts body.new) < weight (go.Answer answer)
        (stack ++ frame ∷ []) seen (parts body.old) }
    ensures same { (seen : List ℕ) (stack : List PlainFrame)
        → run result stack seen (parts body.new)
        ≡ run (go.Answer answer) (stack ++ frame ∷ []) seen (parts body.old) }
    ensures queue { body.new.queue ≡ body.old.queue }
{
    match frame {
        WalkFrame::Waits { id: _, task } => {
            if !answer {
                body.set_must_cancel(task);
            }
            Go::Answer(true)
        }
        WalkFrame::Members { id, place, any } => Go::Next {
            id,
            place,
            any: any | answer,
        },
    }
}

/// A request to cancel a future. The answer is false exactly where it can't reach anything.
pub fn cancel(
    target: FutureId,
    body: &mut Awaitables,
    seen: &mut Marks,
    notes: &mut Notes,
    stack: &mut WalkStack,
) -> bool
    requires no_cycle { HasNoCycle (parts body.old) }
    requires room { HasRoom body.old stack.old seen.old notes.old }
    ensures after { parts body.new ≡ (cancel_of target (parts body.old)).parts }
    ensures answer { result ≡ (cancel_of target (parts body.old)).answer }
    ensures queue { Appended body.old.queue body.new.queue }
    ensures stack { stack.new ≡ stack.old }
    ensures seen { seen.new ≡ seen.old }
    ensures unnoted { HasNoNotes notes.new }
{
    let mut go = Go::Visit(target);
    loop {
        go = match go {
            Go::Visit(id) => visit(id, body, seen, notes, stack),
            Go::Next { id, place, any } => next(id, place, any, body, seen, notes, stack),
            Go::Answer(answer) => match stack.pop() {
                Some(frame) => back(answer, frame, body),
                None => {
                    seen.clear();
                    notes.clear();
                    return answer;
                }
            },
        };
    }
}
