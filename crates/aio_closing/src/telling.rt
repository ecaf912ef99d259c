//! What the pumps of a child did, as the end of a hub tells it.
ghost use Rattle.std.specs.Prelude.{◌∷◌, []};
ghost use Rattle.aio_closing.specs.Ends.{end_of, ends_of, Adds, SettlesMore};

use aio_hub::{PumpEnd, PumpReports};
use aio_inbox::{InboxName, Poster};
use aio_lane::Tail;
use aio_postbox::Postbox;
use aio_pump::PumpReport;

/// The ends that were told so far, and whether memory was refused to the list of them.
#[derive(Drop)]
pub(crate) struct Telling {
    pub(crate) ends: Vec<PumpEnd>,
    pub(crate) short: bool,
}

fn forget_tail(_tail: Option<Tail>) {}

// Adds an end, unless memory was refused before.
fn add(telling: &mut Telling, end: PumpEnd)
    ensures { Adds (end ∷ []) telling.old telling.new }
{
    if telling.short {
        return;
    }
    telling.short = telling.ends.push(end).is_err();
}

// Tells how a pump of this child ended, and gives its poster back for good.
fn tell<N: InboxName, R>(
    rt: &R,
    postbox: &mut Postbox<N>,
    telling: &mut Telling,
    child: u32,
    report: PumpReport<Poster<N>>,
)
    ensures adds { Adds (end_of child report ∷ []) telling.old telling.new }
    ensures settled { SettlesMore 1 postbox.old postbox.new }
{
    let PumpReport {
        poster,
        tail,
        moved,
        ending,
    } = report;
    forget_tail(tail);
    postbox.settle(rt, poster);
    add(
        telling,
        PumpEnd {
            child,
            moved,
            ending,
        },
    );
}

/// Tells how the four pumps of this child ended, and gives their posters back for good.
pub(crate) fn tell_all<N: InboxName, R>(
    rt: &R,
    postbox: &mut Postbox<N>,
    telling: &mut Telling,
    child: u32,
    reports: PumpReports<Poster<N>>,
)
    ensures adds { Adds (ends_of child reports) telling.old telling.new }
    ensures settled { SettlesMore 4 postbox.old postbox.new }
{
    let PumpReports {
        stdin,
        out,
        errs,
        exit,
    } = reports;
    tell(rt, postbox, telling, child, stdin);
    tell(rt, postbox, telling, child, out);
    tell(rt, postbox, telling, child, errs);
    tell(rt, postbox, telling, child, exit);
}
