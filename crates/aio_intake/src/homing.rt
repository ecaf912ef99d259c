//! The posters of a child that is over come home, or not.
ghost use Rattle.std.specs.Prelude.{◌≡◌, Some, None, if◌then◌else◌};
ghost use Rattle.aio_intake.specs.Homes.{four_of, are_all_home, KeepsPosts};

use aio_hub::PumpReports;
use aio_inbox::{InboxName, Poster};
use aio_lane::Tail;
use aio_postbox::{Four, Postbox};
use aio_pump::PumpReport;
use model_hub::Seats;

fn forget_tail(_tail: Option<Tail>) {}

// The poster that a pump gives back.
fn poster_of<N: InboxName>(report: PumpReport<Poster<N>>) -> Poster<N>
    ensures { result ≡ report.poster }
{
    let PumpReport {
        poster,
        tail,
        moved: _,
        ending: _,
    } = report;
    forget_tail(tail);
    poster
}

/// The posters that the pumps of a child give back.
pub(crate) fn four_of<N: InboxName>(reports: PumpReports<Poster<N>>) -> Four<N>
    ensures { result ≡ four_of reports }
{
    let PumpReports {
        stdin,
        out,
        errs,
        exit,
    } = reports;
    Four {
        stdin: poster_of(stdin),
        out: poster_of(out),
        errs: poster_of(errs),
        exit: poster_of(exit),
    }
}

// Whether each of them is home on the seat of its pump.
fn are_home<N: InboxName>(postbox: &Postbox<N>, four: &Four<N>, seats: &Seats) -> bool
    ensures { result ≡ are_all_home postbox.now four.now seats.now }
{
    postbox.is_home(&four.stdin, seats.stdin)
        && postbox.is_home(&four.out, seats.out)
        && postbox.is_home(&four.errs, seats.errs)
        && postbox.is_home(&four.exit, seats.exit)
}

// Gives posters back for good.
fn settle<N: InboxName, R>(rt: &R, postbox: &mut Postbox<N>, four: Four<N>)
    ensures { KeepsPosts postbox.old postbox.new }
{
    let Four {
        stdin,
        out,
        errs,
        exit,
    } = four;
    postbox.settle(rt, stdin);
    postbox.settle(rt, out);
    postbox.settle(rt, errs);
    postbox.settle(rt, exit);
}

/// The posters of a child where each is home on the seat of its pump. Else they are given back for
/// good.
pub(crate) fn come_home<N: InboxName, R>(
    rt: &R,
    postbox: &mut Postbox<N>,
    seats: &Seats,
    four: Four<N>,
) -> Option<Four<N>>
    ensures home { result ≡ (if are_all_home postbox.old four seats.now then Some four else None) }
    ensures keeps { KeepsPosts postbox.old postbox.new }
{
    if are_home(postbox, &four, seats) {
        return Some(four);
    }
    settle(rt, postbox, four);
    None
}
