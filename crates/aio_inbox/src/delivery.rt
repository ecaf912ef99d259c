//! The rule of an inbox's queue, and its steps.
use crate::post::Post;
use crate::view::InboxView;
use atomic_table::{Join, Split};
use crossbeam_queue::protocol::{Lesson, Outcome, Protocol};
use crossbeam_queue::{Pass, RuledArrayQueue};

/// The rule: of each seat, what was taken and then what is held is what was posted.
pub struct Delivery;

impl Protocol<Post, InboxView> for Delivery {
    ghost use Rattle.aio_inbox.specs.Delivers.{Delivers};
    ghost use Rattle.aio_inbox.specs.Views.{first_view};

    ghost holds = { Delivers };

    ghost first = { first_view };
}

/// A post joins what its poster posted.
pub(crate) struct PostStep;

impl Outcome<Post, InboxView> for PostStep {
    ghost use Rattle.aio_inbox.specs.Steps.{Adds};

    ghost then = { Adds };
}

/// What a full queue tells the poster.
impl Lesson<Post, InboxView> for PostStep {
    ghost use Rattle.aio_inbox.specs.Steps.{HasRest};

    ghost fact = { HasRest };
}

/// A post joins what was taken.
pub(crate) struct TakeStep;

impl Outcome<Post, InboxView> for TakeStep {
    ghost use Rattle.aio_inbox.specs.Steps.{Gets};

    ghost then = { Gets };
}

/// What the queue tells the taker of the settled seats.
impl Lesson<Post, InboxView> for TakeStep {
    ghost use Rattle.aio_inbox.specs.Steps.{Awaits};

    ghost fact = { Awaits };
}

/// The taker makes a seat.
pub(crate) struct SeatStep;

impl Split<InboxView> for SeatStep {
    ghost use Rattle.aio_inbox.specs.Steps.{after_seat, seat_made};

    ghost left = { after_seat };

    ghost right = { seat_made };
}

/// The taker counts a take that found nothing.
pub(crate) struct NoneStep;

impl Split<InboxView> for NoneStep {
    ghost use Rattle.aio_inbox.specs.declared.view.InboxView.TheVariants.{Nobody};
    ghost use Rattle.aio_inbox.specs.Steps.{after_none};

    ghost left = { after_none };

    ghost right = { λ v. Nobody };
}

/// The taker takes in what a poster posted.
pub(crate) struct SettleStep;

impl Join<InboxView> for SettleStep {
    ghost use Rattle.aio_inbox.specs.declared.view.InboxView.TheVariants.{Nobody};
    ghost use Rattle.aio_inbox.specs.Steps.{after_settling};

    ghost both = { after_settling };

    ghost spent = { Nobody };
}

/// The queue of an inbox.
pub type InboxQueue = RuledArrayQueue<Post, InboxView, Delivery>;

/// A pass on it.
pub type InboxPass = Pass<Post, InboxView>;
