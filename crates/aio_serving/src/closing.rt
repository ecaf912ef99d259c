//! The Close of a child's standard input.
ghost use Rattle.std.specs.Prelude.{◌≡◌, true};
ghost use Rattle.model_hub.specs.Children.{runs};
ghost use Rattle.aio_serving.specs.Fed.{Ends};

use crate::heads::{Command, Heads};
use crate::record::{is_unasked, runs};
use crate::serving::after_close;
use model_hub::{Child, Pump};
use std::sync::Wait;

/// Closes the standard input of a child, where that wasn't asked for before. It waits for no pump.
pub fn end_child<R: Wait, H: Heads>(rt: &R, heads: &mut H, child: Child) -> Child
    requires { runs child.stay ≡ true → (H.seen heads.old).has child.number ≡ true }
    ensures { Ends child result (H.seen heads.old) (H.seen heads.new) }
{
    if !(runs(child.stay) && is_unasked(child.closing)) {
        return child;
    }
    let giving = heads.give(rt, child.number, Pump::Stdin, Command::Close);
    let mut new = child;
    new.closing = after_close(giving);
    new
}
