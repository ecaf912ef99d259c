//! What is made for a child before it is launched.
ghost use Rattle.std.specs.Prelude.{◌≡◌, ◌<◌, true, length, IfOk, OnOk};
ghost use Rattle.aio_lanes.specs.Given.{HaveSameLanes};
ghost use Rattle.aio_live.specs.Launching.{AreNew, AreTails};

use crate::pumped::Pumped;
use aio_base::Memory;
use aio_inbox::{Inbox, InboxName};
use aio_lane::{Head, Tail, lane};
use aio_lanes::Lanes;
use std::alloc::Global;
use std::sync::Arc;

/// The heads of the lanes of a child that isn't launched yet.
#[derive(Drop)]
pub(crate) struct Heads {
    pub(crate) stdin: Head,
    pub(crate) out: Head,
    pub(crate) errs: Head,
}

/// Three new lanes by their ends.
#[derive(Drop)]
pub(crate) struct Ends {
    pub(crate) heads: Heads,
    pub(crate) stdin: Tail,
    pub(crate) out: Tail,
    pub(crate) errs: Tail,
}

// Lets the ends of a lane go.
fn forget_ends(_head: Head, _tail: Tail) {}

// Lets an inbox go, which others have.
fn forget_inbox<N: InboxName>(_inbox: Arc<Inbox<N>, Global>) {}

// The lanes of a child.
fn three_lanes(alloc: Global) -> Result<Ends, Memory>
    ensures begin { IfOk result (λ ends. AreNew ends.heads) }
    ensures tails { IfOk result AreTails }
{
    let (stdin, to_stdin) = lane(alloc)?;
    let Ok((out, to_out)) = lane(alloc) else {
        forget_ends(stdin, to_stdin);
        return Err(Memory);
    };
    let Ok((errs, to_errs)) = lane(alloc) else {
        forget_ends(stdin, to_stdin);
        forget_ends(out, to_out);
        return Err(Memory);
    };
    Ok(Ends {
        heads: Heads { stdin, out, errs },
        stdin: to_stdin,
        out: to_out,
        errs: to_errs,
    })
}

/// Makes room for the child with this number, and its lanes.
pub(crate) fn open<N: InboxName, Run: Drop>(
    alloc: Global,
    pumped: &mut Pumped<N>,
    lanes: &mut Lanes<Run>,
    number: u32,
) -> Result<(Arc<Inbox<N>, Global>, Ends), Memory>
    ensures room { OnOk result (pumped.new.roster.room ≡ true) }
    ensures children { pumped.new.roster.children ≡ pumped.old.roster.children }
    ensures postbox { pumped.new.postbox ≡ pumped.old.postbox }
    ensures placed { OnOk result (number < length lanes.new) }
    ensures same { HaveSameLanes lanes.old lanes.new }
    ensures begin { IfOk result (λ opened. AreNew opened.1.heads) }
    ensures tails { IfOk result (λ opened. AreTails opened.1) }
{
    pumped.roster.reserve()?;
    lanes.place(number)?;
    let inbox = pumped.postbox.inbox()?;
    match three_lanes(alloc) {
        Ok(ends) => Ok((inbox, ends)),
        Err(Memory) => {
            forget_inbox(inbox);
            Err(Memory)
        }
    }
}
