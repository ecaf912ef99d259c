//! The step that is going on.
ghost use Rattle.std.specs.Prelude.{◌≡◌};
ghost use Rattle.aio_task.specs.View.{stepped};

use aio_base::Action;
use aio_ready::Ticket;

/// A task whose step has begun and hasn't ended, with the memory of its next step or wakeup.
#[derive(Drop)]
pub struct Running {
    pub task: u32,
    pub ticket: Ticket,
}

/// The task that an action steps.
pub fn stepped(action: &Action) -> Option<u32>
    ensures { result ≡ stepped action.now }
{
    match action {
        Action::Step(task) => Some(*task),
        Action::StepInCycle { task, cycle: _ } => Some(*task),
        Action::Wakeup(task) => Some(*task),
        _ => None,
    }
}
