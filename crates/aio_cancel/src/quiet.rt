//! Which futures a request is done with.
ghost use Rattle.std.specs.Prelude.{IfSome, slice_get};
ghost use Rattle.model_loop.specs.Futures.{made_before};
ghost use Rattle.algorithm_parts.specs.Shape.{members_at};
ghost use Rattle.algorithm_parts.specs.Quiet.{Quiet, QuietAll, Sound};
ghost use Rattle.aio_cancel.specs.Awaitables.{parts};
ghost use Rattle.aio_cancel.specs.Noted.{noted};

use crate::awaitables::Awaitables;
use crate::marks::Marks;
use crate::notes::Notes;
use aio_future::FutureId;
use algorithm_parts::FutureState;

// What a future would answer again, where the request is known to be done with it.
fn look(id: FutureId, body: &Awaitables, seen: &Marks, notes: &Notes) -> Option<bool>
    requires { Sound seen.now.visited (parts body.now) (noted notes.now) }
    ensures { IfSome result (λ again. Quiet seen.now.visited (parts body.now) id again) }
{
    match body.stands(id) {
        FutureState::Done => Some(false),
        FutureState::Plain => None,
        FutureState::OfTask(task) => { if seen.has(task) { Some(true) } else { None } }
        FutureState::Many => notes.of(id),
    }
}

// What all its members would answer.
fn look_all(id: FutureId, body: &Awaitables, seen: &Marks, notes: &Notes) -> Option<bool>
    requires { Sound seen.now.visited (parts body.now) (noted notes.now) }
    ensures { IfSome result (λ again. QuietAll seen.now.visited (parts body.now)
        (made_before id (members_at (slice_get body.now.futures id))) again) }
{
    let mut again = false;
    let mut place = 0;
    while let Some(member) = body.member(id, place) {
        place += 1;
        if id <= member {
            continue;
        }
        let of_member = look(member, body, seen, notes)?;
        again = again | of_member;
    }
    Some(again)
}

/// Notes of a future that stands for several what it would answer again.
pub fn note(id: FutureId, body: &Awaitables, seen: &Marks, notes: &mut Notes)
    requires { Sound seen.now.visited (parts body.now) (noted notes.old) }
    ensures { Sound seen.now.visited (parts body.now) (noted notes.new) }
{
    let Some(asked) = body.asked(id) else {
        return;
    };
    match look_all(id, body, seen, notes) {
        Some(again) if asked || !again => notes.put(id, again),
        _ => {}
    }
}
