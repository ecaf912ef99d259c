//! The Writes to a child.
ghost use Rattle.std.specs.Prelude.{◌≡◌, ◌+◌, ◌<◌, ◌^◌, true};
ghost use Rattle.model_hub.specs.Children.{runs};
ghost use Rattle.model_hub.specs.Calls.{offers_write, after_write};
ghost use Rattle.aio_serving.specs.Fed.{Feeds};
ghost use Rattle.aio_serving.specs.Served.{IsModest};

use crate::heads::{Command, Heads};
use crate::record::{is_owed, runs, waiting};
use aio_base::Blob;
use aio_wire::Answer;
use model_hub::{Child, Giving, Pump};
use std::sync::Wait;

/// How many Writes without a Room post a child has before it is no longer fed.
const MOST_WAITING: u64 = 7;

/// A child that was fed, and what that is answered.
#[derive(Drop)]
pub struct Fed {
    pub child: Child,
    pub answer: Answer,
}

fn offers_write(bytes: &Blob, child: &Child) -> bool
    ensures { result ≡ offers_write bytes.now child.now }
{
    runs(child.stay)
        && !child.broken
        && !is_owed(child.closing)
        && waiting(child) < MOST_WAITING
        && !bytes.items().is_empty()
}

/// Gives a child all of these bytes in one Write, or none of them. It waits for no pump.
pub fn feed_child<R: Wait, H: Heads>(rt: &R, heads: &mut H, child: Child, bytes: Blob) -> Fed
    requires has { runs child.stay ≡ true → (H.seen heads.old).has child.number ≡ true }
    requires modest { IsModest child }
    requires short { child.rooms < 2 ^ 63 }
    ensures { Feeds bytes child result.child result.answer (H.seen heads.old) (H.seen heads.new) }
{
    if !offers_write(&bytes, &child) {
        let answer = if child.broken {
            Answer::Broken
        } else {
            Answer::Again
        };
        return Fed { child, answer };
    }
    let count = bytes.items().len() as u64;
    match heads.give(rt, child.number, Pump::Stdin, Command::Write(bytes)) {
        Giving::Given => {
            let mut new = child;
            new.writes += 1;
            Fed {
                child: new,
                answer: Answer::Took(count),
            }
        }
        Giving::Full | Giving::Spent => Fed {
            child,
            answer: Answer::Again,
        },
    }
}
