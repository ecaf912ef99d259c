//! The inbox, and what posters and the taker do with it.
ghost use Rattle.std.specs.Prelude.{◌≡◌, ◌≤◌, ◌<◌, ◌^◌, [], length, All, IfOk, IfSome, IfNone};
ghost use mathlib.Core.List.{IsPrefix};
ghost use Rattle.crossbeam_queue.specs.Fifo.{Held};
ghost use Rattle.crossbeam_queue.specs.Passes.{ruled_capacity};
ghost use Rattle.model_pump.specs.Posts.{posts_of};
ghost use Rattle.aio_inbox.specs.Numbers.{IsNumbered};
ghost use Rattle.aio_inbox.specs.Views.{new_taker, new_posters};
ghost use Rattle.aio_inbox.specs.Views.{with_taken, with_none, with_settled};
ghost use Rattle.aio_inbox.specs.Accounts.{Begins, IsWhole, Ends};
ghost use Rattle.aio_inbox.specs.Steps.{IsLeftFor};
ghost use Rattle.aio_inbox.specs.Answers.{PostAnswers};
ghost use Rattle.aio_inbox.specs.Naming.{table_of};

use crate::delivery::{InboxQueue, NoneStep, PostStep, SeatStep, SettleStep, TakeStep};
use crate::name::InboxName;
use crate::post::{Post, PostKind, Posting};
use crate::poster::Poster;
use crate::room::Room;
use crate::taker::Taker;
use crate::unnamed::UnnamedInbox;
use aio_base::Memory;
use std::alloc::Global;
use std::marker::PhantomData;
use std::sync::Wait;

/// How many posts a poster makes. So the 1,024 seats of an inbox stay below the 2^62 pushes that its
/// queue takes.
const MOST: u64 = 1 << 51;

/// The inbox that `N` names. Threads share it.
#[derive(Drop)]
pub struct Inbox<N: InboxName> {
    queue: InboxQueue,
    room: Room,
    of: PhantomData<N>,
    pub ghost sized: { ruled_capacity queue ≡ 1024 },
    pub ghost named: { queue.table.shared.table_id ≡ N.table },
}

impl<N: InboxName> Inbox<N> {
    /// Makes it the inbox that `N` names, with its taker and a poster for each seat, from seat 0 on.
    /// `Memory` where memory was refused.
    pub fn make(
        alloc: Global,
        unnamed: UnnamedInbox,
        seats: u32,
    ) -> Result<(Inbox<N>, Taker<N>, Vec<Poster<N>>), Memory>
        requires seats { (1 ≤ seats) × (seats ≤ 1024) }
        requires named { table_of unnamed ≡ N.table }
        ensures taker { IfOk result (λ made. made.1 ≡ new_taker seats) }
        ensures posters { IfOk result (λ made. made.2.items ≡ new_posters seats) }
    {
        let UnnamedInbox { queue, mut pass } = unnamed;
        let mut posters = Vec::new(alloc);
        for seat in 0..seats {
            let own = queue.another::<SeatStep>(&mut pass);
            posters.push(Poster {
                pass: own,
                seat,
                count: 0,
                of: PhantomData,
            })?;
        }
        let inbox = Inbox {
            queue,
            room: Room::new(),
            of: PhantomData,
        };
        let taker = Taker {
            pass,
            of: PhantomData,
        };
        Ok((inbox, taker, posters))
    }

    /// The queue, under its rule. Only its own steps change what passes on it know.
    pub fn queue(&self) -> &InboxQueue
        ensures sized { ruled_capacity result.now ≡ 1024 }
        ensures named { result.now.table.shared.table_id ≡ N.table }
    {
        &self.queue
    }

    /// Posts once. Where the inbox is full, or the poster made 2^51 posts, the kind comes back. It
    /// takes no memory and waits for no take; the queue tries again where another thread's step came
    /// between.
    pub fn post<R: Wait>(&self, rt: &R, poster: &mut Poster<N>, kind: PostKind) -> Posting
        ensures answers { PostAnswers result kind poster.old poster.new }
    {
        if poster.count >= MOST {
            return Posting::Spent(kind);
        }
        let post = Post {
            seat: poster.seat,
            number: poster.count,
            kind,
        };
        match self
            .queue
            .push_as::<PostStep, R>(rt, &mut poster.pass, post)
        {
            Ok(()) => {
                poster.count += 1;
                Posting::Posted
            }
            Err(back) => Posting::Full(back.kind),
        }
    }

    /// How many posts were taken so far. Whoever may find no room asks it before it posts.
    pub fn takes(&self) -> u64 {
        self.room.takes()
    }

    /// Waits until more posts were taken than so many: then there may be room.
    pub fn wait_for_room<R: Wait>(&self, rt: &R, takes: u64) {
        self.room.wait(rt, takes);
    }

    /// Takes the oldest post. `None` only where the inbox was empty at a step of the call. It takes no
    /// memory and waits for no post; the queue tries again where another thread's step came between. Who waits for room is
    /// woken.
    pub fn take<R: Wait>(&self, rt: &R, taker: &mut Taker<N>) -> Option<Post>
        ensures none { IfNone result (taker.new ≡ with_none taker.old) }
        ensures empty { IfNone result (Held 0 (IsLeftFor taker.old)) }
        ensures whole { IfNone result (All (IsWhole taker.new) taker.new.settled) }
        ensures post { IfSome result (λ x. taker.new ≡ with_taken taker.old x) }
        ensures number { IfSome result (λ x. x.number ≡ length (posts_of x.seat taker.old.taken)) }
        ensures short { IfSome result (λ x. x.number < 2 ^ 51) }
        ensures seat { IfSome result (λ x. x.seat < taker.old.seats) }
        ensures together { length taker.new.taken ≤ 2 ^ 61 }
        ensures begins { All (Begins taker.new) taker.new.settled }
        ensures ends { All (Ends taker.new) taker.new.settled }
    {
        match self.queue.pop_as::<TakeStep, R>(rt, &mut taker.pass) {
            Some(post) => {
                self.room.make(rt);
                Some(post)
            }
            None => {
                self.queue.another::<NoneStep>(&mut taker.pass);
                None
            }
        }
    }

    /// Gives a poster back to the taker, which knows from then on what was posted on its seat. It takes
    /// no memory and waits for nothing, so that any `_rt` will do.
    pub fn settle<R>(&self, _rt: &R, taker: &mut Taker<N>, poster: Poster<N>)
        ensures settles { taker.new ≡ with_settled taker.old poster }
        ensures begins { All (Begins taker.new) taker.new.settled }
        ensures ends { All (Ends taker.new) taker.new.settled }
        ensures prefix { IsPrefix (posts_of poster.seat taker.new.taken) poster.posted }
        ensures numbered { IsNumbered poster.seat poster.posted }
    {
        self.queue
            .absorb::<SettleStep>(&mut taker.pass, poster.pass);
        self.queue.learn_as::<TakeStep>(&mut taker.pass);
    }
}
