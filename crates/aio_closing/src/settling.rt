//! The posters that no child has are given back for good.
ghost use Rattle.std.specs.Prelude.{◌*◌, length};
ghost use Rattle.aio_closing.specs.Ends.{SettlesMore};

use aio_inbox::InboxName;
use aio_postbox::{Four, Postbox};
use std::collections::VecDeque;

// Gives four posters back for good.
fn settle<N: InboxName, R>(rt: &R, postbox: &mut Postbox<N>, four: Four<N>)
    ensures { SettlesMore 4 postbox.old postbox.new }
{
    let Four {
        stdin,
        out,
        errs,
        exit,
    } = four;
    postbox.settle(rt, stdin);
    postbox.settle(rt, out);
    postbox.settle(rt, errs);
    postbox.settle(rt, exit);
}

/// Gives these posters back for good.
pub(crate) fn settle_all<N: InboxName, R>(
    rt: &R,
    postbox: &mut Postbox<N>,
    fours: VecDeque<Four<N>>,
)
    ensures { SettlesMore (4 * length fours.items) postbox.old postbox.new }
{
    let mut left = fours;
    while let Some(four) = left.pop_front() {
        settle(rt, postbox, four);
    }
}
