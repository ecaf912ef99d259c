//! The taking end of an inbox.
ghost use Rattle.std.specs.Prelude.{◌≡◌, ◌≤◌, ◌^◌, length, IfOk, IfSome, IfNone};
ghost use Rattle.aio_inbox.specs.Naming.{table_of};
ghost use Rattle.aio_inbox.specs.Views.{new_taker, with_taken, with_none, with_settled};
ghost use Rattle.aio_postbox.specs.Counts.{is_home};
ghost use Rattle.aio_postbox.specs.Fours.{AllPosters};

use aio_base::Memory;
use aio_inbox::{Inbox, InboxName, Post, Poster, Taker, UnnamedInbox};
use std::alloc::Global;
use std::marker::Model;
use std::sync::{Arc, Wait};

/// How many seats an inbox has.
const SEATS: u32 = 1_024;

/// The taking end of an inbox, with how many posts of each of its 1,024 seats were taken. Contracts see
/// the taker.
#[derive(Drop)]
pub struct Postbox<N: InboxName> {
    inbox: Arc<Inbox<N>, Global>,
    taker: Taker<N>,
    counts: Vec<u64>,
}

impl<N: InboxName> Model for Postbox<N> {
    ghost use Rattle.aio_inbox.specs.declared.view.TakerView.{TakerView};
    ghost use Rattle.aio_postbox.specs.Counts.{Counts};

    ghost Value = { TakerView };

    ghost view = { λ box. box.taker };

    ghost invariant = { λ box. Counts box.counts.items box.taker };
}

impl<N: InboxName> Postbox<N> {
    /// Makes this the inbox that `N` names, of which nothing was taken, with a poster for each of its
    /// seats.
    pub fn make(
        alloc: Global,
        unnamed: UnnamedInbox,
    ) -> Result<(Postbox<N>, Vec<Poster<N>>), Memory>
        requires { table_of unnamed ≡ N.table }
        ensures taker { IfOk result (λ made. made.0 ≡ new_taker 1024) }
        ensures posters { IfOk result (λ made. AllPosters made.1.items) }
    {
        let (inbox, taker, posters) = Inbox::make(alloc, unnamed, SEATS)?;
        let counts = vec![in alloc; 0; SEATS as usize]?;
        let Ok(inbox) = Arc::new(alloc, inbox) else {
            return Err(Memory);
        };
        Ok((
            Postbox {
                inbox,
                taker,
                counts,
            },
            posters,
        ))
    }

    /// The inbox, for the pumps of a child.
    pub fn inbox(&self) -> Result<Arc<Inbox<N>, Global>, Memory> {
        let Ok(shared) = Arc::try_clone(&self.inbox) else {
            return Err(Memory);
        };
        Ok(shared)
    }

    /// Takes the oldest post, and counts it. It may wait, but for no post.
    pub fn take<R: Wait>(&mut self, rt: &R) -> Option<Post>
        ensures none { IfNone result (self.new ≡ with_none self.old) }
        ensures post { IfSome result (λ post. self.new ≡ with_taken self.old post) }
        ensures few { length self.new.taken ≤ 2 ^ 61 }
    {
        match self.inbox.take(rt, &mut self.taker) {
            Some(post) => {
                self.counts[post.seat as usize] = post.number + 1;
                Some(post)
            }
            None => None,
        }
    }

    /// Whether this is a seat of the inbox, this poster is on it, and all that it posted was taken.
    pub fn is_home(&self, poster: &Poster<N>, seat: u32) -> bool
        ensures { result ≡ is_home self.now poster.now seat }
    {
        match self.counts.get(seat as usize) {
            Some(count) => poster.seat() == seat && *count == poster.count(),
            None => false,
        }
    }

    /// Gives a poster back for good.
    pub fn settle<R>(&mut self, rt: &R, poster: Poster<N>)
        ensures { self.new ≡ with_settled self.old poster }
    {
        self.inbox.settle(rt, &mut self.taker, poster);
    }
}
