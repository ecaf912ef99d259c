//! One change.
ghost use Rattle.std.specs.Prelude.{◌≡◌, false, None, IfOk, OnOk, OnErr, length, slice_get};
ghost use Rattle.model_loop.specs.Owning.{owner_at};
ghost use Rattle.model_stream.specs.Doing as doing;
ghost use Rattle.aio_task.specs.View.{is_step};
ghost use Rattle.aio_change.specs.Seen.{seen_changed};

use aio_base::{Action, Memory};
use aio_task::{FutureId, Parts};
use std::alloc::Global;

/// `call_soon` of what is no step and no wakeup, with memory of its own.
pub fn call_soon(alloc: Global, action: Action, parts: &mut Parts) -> Result<(), Memory>
    requires idle { parts.old.called ≡ None }
    requires no_step { is_step action ≡ false }
    ensures after { OnOk result (parts.new ≡ seen_changed (doing.CallSoon action) parts.old) }
    ensures err { OnErr result (parts.new ≡ parts.old) }
    ensures idle { parts.new.called ≡ None }
{
    match parts.ticket(alloc) {
        Ok(ticket) => {
            let _handle = parts.soon(ticket, action);
            Ok(())
        }
        Err(refused) => {
            forget_action(action);
            Err(refused)
        }
    }
}

/// A future is made, and its number.
pub fn make_future(alloc: Global, parts: &mut Parts) -> Result<FutureId, Memory>
    requires idle { parts.old.called ≡ None }
    ensures number { IfOk result (λ future. future ≡ length parts.old.futures) }
    ensures after { OnOk result (parts.new ≡ seen_changed doing.MakeFuture parts.old) }
    ensures err { OnErr result (parts.new ≡ parts.old) }
    ensures idle { parts.new.called ≡ None }
{
    parts.new_plain(alloc)
}

fn forget_action(_action: Action) {}
