//! Many posters beside a taker, each on a thread of its own.
ghost use Rattle.std.specs.Prelude.{◌≡◌, ◌≤◌, [], length, All, IfOk};
ghost use Rattle.aio_inbox.specs.Naming.{table_of};
ghost use Rattle.aio_inbox.specs.Accounts.{IsWhole};

use crate::log::Log;
use crate::posting::post_all;
use crate::putting::take;
use aio_base::Memory;
use aio_inbox::{Inbox, InboxName, Poster, Taker, UnnamedInbox};
use std::alloc::Global;
use std::sync::Wait;
use std::thread;
use std::thread::Threads;

/// How often each of how many posters posts. There is one at least, and there are 1,024 at most.
#[derive(Clone, Copy)]
pub struct Load {
    pub posts: u32,
    pub posters: u32,
}

impl Load {
    fn seats(self) -> u32
        ensures { (1 ≤ result) × (result ≤ 1024) }
    {
        self.posters.max(1).min(1024)
    }
}

/// Each poster posts so often while the taker takes. Then all posters are settled, and what was taken
/// of each seat is what was posted on it.
pub fn exchange<N: InboxName + Send + Sync, R: Threads + Wait + Sync>(
    rt: &R,
    alloc: Global,
    unnamed: UnnamedInbox,
    load: Load,
) -> bool
    requires { table_of unnamed ≡ N.table }
{
    match make_new::<N>(alloc, unnamed, load.seats()) {
        Ok((inbox, taker, posters)) => is_exchanged(rt, alloc, &inbox, taker, posters, load),
        Err(_) => false,
    }
}

/// Makes the inbox with its posters, which have posted nothing.
#[tactic(auto, using(crate::proofs::New::all_new))]
fn make_new<N: InboxName>(
    alloc: Global,
    unnamed: UnnamedInbox,
    seats: u32,
) -> Result<(Inbox<N>, Taker<N>, Vec<Poster<N>>), Memory>
    requires named { table_of unnamed ≡ N.table }
    requires seats { (1 ≤ seats) × (seats ≤ 1024) }
    ensures { IfOk result (λ made. All (λ p. p.posted ≡ []) made.2.items) }
{
    Inbox::<N>::make(alloc, unnamed, seats)
}

fn is_exchanged<N: InboxName + Send + Sync, R: Threads + Wait + Sync>(
    rt: &R,
    alloc: Global,
    inbox: &Inbox<N>,
    taker: Taker<N>,
    posters: Vec<Poster<N>>,
    load: Load,
) -> bool
    requires { All (λ p. p.posted ≡ []) posters.items }
{
    let mut own = taker;
    let mut log = Log::new(alloc, load.seats());
    let all = u64::from(load.posts) * u64::from(load.seats());
    let (_, back) = thread::join(
        rt,
        || take_some(rt, inbox, &mut own, &mut log, all),
        move || -> Result<Vec<Poster<N>>, Memory>
            requires { All (λ p. p.posted ≡ []) posters.items }
        { post_side(rt, inbox, posters, load.posts) },
    );
    match back {
        Ok(back) => {
            settle_all(rt, inbox, &mut own, back);
            take_rest(rt, inbox, &mut own, &mut log);
            log.is_right(load.posts)
        }
        Err(_) => false,
    }
}

/// Takes so many posts, as they come.
fn take_some<N: InboxName, R: Wait>(
    rt: &R,
    inbox: &Inbox<N>,
    taker: &mut Taker<N>,
    log: &mut Log,
    posts: u64,
) {
    for _ in rt.forever() {
        if log.came() >= posts {
            break;
        }
        match take(rt, inbox, taker) {
            Some(taken) => log.note(taken),
            None => thread::yield_now(),
        }
    }
}

/// Posts on all seats at once.
fn post_side<N: InboxName + Send + Sync, R: Threads + Wait + Sync>(
    rt: &R,
    inbox: &Inbox<N>,
    posters: Vec<Poster<N>>,
    posts: u32,
) -> Result<Vec<Poster<N>>, Memory>
    requires { All (λ p. p.posted ≡ []) posters.items }
    ensures { IfOk result (λ v. All (λ p. length p.posted ≡ posts) v.items) }
{
    Ok(thread::map_vec(rt, posters, &|poster| post_all(rt, inbox, poster, posts))?)
}

/// Gives all posters back.
fn settle_all<N: InboxName, R>(
    rt: &R,
    inbox: &Inbox<N>,
    taker: &mut Taker<N>,
    posters: Vec<Poster<N>>,
) {
    for poster in posters {
        inbox.settle(rt, taker, poster);
    }
}

/// Takes until there is nothing.
fn take_rest<N: InboxName, R: Wait>(rt: &R, inbox: &Inbox<N>, taker: &mut Taker<N>, log: &mut Log)
    ensures { All (IsWhole taker.new) taker.new.settled }
{
    for _ in rt.forever() {
        match take(rt, inbox, taker) {
            Some(taken) => log.note(taken),
            None => return,
        }
    }
    unreachable!()
}
