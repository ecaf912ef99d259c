//! How a run begins.
ghost use Rattle.std.specs.Prelude.{◌≡◌, List, [], None, IfOk, OnOk};
ghost use Rattle.model_text.specs.SecondPass.{main_text};
ghost use Rattle.model_wire.specs.Journal.{Entry};
ghost use Rattle.model_says.specs.Requests.{place_among, place_of};
ghost use Rattle.model_machine.specs.Replies.{most_ids};
ghost use Rattle.model_machine.specs.State.{start};
ghost use Rattle.aio_extra.specs.Added.{KeepsNothing};
ghost use Rattle.aio_body.specs.Stands.{profile_of as plain_profile_of};
ghost use Rattle.aio_core.specs.Empty.{IsEmpty};
ghost use Rattle.aio_core.specs.Turning.{IsAtRest};

use aio_base::{Action, Memory, ValueList};
use aio_body::RunState;
use aio_extra::Extra;
use aio_flat::flatten;
use aio_group::Groups;
use aio_program::{Coroutine, Program};
use aio_task::Parts;
use aio_timeout::Timeouts;
use aio_step::Transports;
use aio_wire::Events;
use std::alloc::Global;

/// How many listeners can be numbered, and how many connections and children, each kind alone.
const MOST_IDS: u32 = 4_294_967_295;

/// A run begins at time 0, with main's task, whose first step is pending, and what is called when
/// it is done.
pub fn begin<X: Extra + Drop>(
    alloc: Global,
    program: &Program,
    extra: X,
) -> Result<RunState<X>, Memory>
    ensures { IfOk result (λ body. (kept : X.added.Kept) → KeepsNothing X.added extra kept
        → (answers : List Entry)
        → IsAtRest X.added [] answers body (start most_ids kept program.now answers)) }
{
    let mut body = empty(alloc, program, extra)?;
    make_main(alloc, program, &mut body)?;
    Ok(body)
}

// Main's task is made.
fn make_main<X: Extra>(
    alloc: Global,
    program: &Program,
    body: &mut RunState<X>,
) -> Result<(), Memory>
    requires idle { body.old.parts.called ≡ None }
    ensures { OnOk result ((extra : X) (kept : X.added.Kept) → KeepsNothing X.added extra kept
        → IsEmpty program.now extra body.old → (answers : List Entry)
        → IsAtRest X.added [] answers body.new (start most_ids kept program.now answers)) }
{
    let main = main_of(program)?;
    body.hold(alloc, main, &ValueList::of(Vec::new(alloc)))?;
    let ticket = body.parts.ticket(alloc)?;
    let task = body.parts.spawn(alloc)?;
    let own = body.parts.future_of(task);
    body.parts.on_done(own, ticket, Action::MainDone);
    Ok(())
}

// Nothing has happened, and there are no tasks.
fn empty<X: Drop>(alloc: Global, program: &Program, extra: X) -> Result<RunState<X>, Memory>
    ensures { IfOk result (IsEmpty program.now extra) }
{
    let timeouts = Timeouts::new(alloc)?;
    let groups = Groups::new(alloc)?;
    let code = flatten(alloc, program)?;
    let parts = Parts::new(alloc, profile_of(program))?;
    Ok(RunState {
        code,
        parts,
        slots: Vec::new(alloc),
        timeouts,
        groups,
        transports: Transports::new(alloc, MOST_IDS),
        futures: Vec::new(alloc),
        main_done: false,
        events: Events::new(alloc),
        extra,
    })
}

// The profile that the program runs by.
fn profile_of(program: &Program) -> u8
    ensures { result ≡ plain_profile_of program.now }
{
    u8::try_from(program.profile()).unwrap_or(u8::MAX)
}

// Main's place in the program: behind all coroutines where none is called so.
fn main_of(program: &Program) -> Result<u32, Memory>
    ensures { IfOk result (λ place. place ≡ place_of program.now main_text) }
{
    match u32::try_from(place_of_main(program.coroutines())) {
        Ok(place) => Ok(place),
        Err(_) => Err(Memory),
    }
}

fn place_of_main(coroutines: &[Coroutine]) -> usize
    ensures { result ≡ place_among coroutines.now main_text }
{
    for at in 0..coroutines.len() {
        if coroutines[at].name().as_str() == "main" {
            return at;
        }
    }
    coroutines.len()
}
