//! Who posts on one seat of an inbox.
ghost use Rattle.std.specs.Prelude.{◌≡◌, length};
ghost use Rattle.crossbeam_queue.specs.Passes.{view};
ghost use Rattle.aio_inbox.specs.declared.view.InboxView.TheVariants.{Posts};
ghost use Rattle.aio_inbox.specs.Names.{IsPassAt};

use crate::delivery::InboxPass;
use crate::name::InboxName;
use std::marker::{Model, PhantomData};

/// Posts on one seat of the inbox that `N` names. Contracts see its seat and what it posted: what
/// its pass knows.
#[derive(Drop)]
pub struct Poster<N: InboxName> {
    pub(crate) pass: InboxPass,
    pub(crate) seat: u32,
    pub(crate) count: u64,
    pub(crate) of: PhantomData<N>,
}

impl<N: InboxName> Model for Poster<N> {
    ghost use Rattle.aio_inbox.specs.declared.view.PosterView.{PosterView};
    ghost use Rattle.aio_inbox.specs.Names.{IsPassAt};
    ghost use Rattle.aio_inbox.specs.Views.{known_of, poster_of};
    ghost use Rattle.aio_inbox.specs.Ends.{IsPoster};

    ghost Value = { PosterView };

    ghost view = { λ p. poster_of (known_of p.pass) };

    ghost invariant = { λ p. IsPassAt N.table p.pass × IsPoster p.seat p.count (known_of p.pass) };
}

impl<N: InboxName> Poster<N> {
    /// Its pass on the queue.
    pub fn pass(&self) -> &InboxPass
        ensures known { view result.now ≡ Posts self.now }
        ensures named { IsPassAt N.table result.now }
    {
        &self.pass
    }

    /// The number of its seat, counted from 0.
    pub fn seat(&self) -> u32
        ensures { result ≡ self.now.seat }
    {
        self.seat
    }

    /// How many posts it made.
    pub fn count(&self) -> u64
        ensures { result ≡ length self.now.posted }
    {
        self.count
    }
}
