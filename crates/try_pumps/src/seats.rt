//! An inbox of two seats.
ghost use Rattle.std.specs.Prelude.{◌≡◌};
ghost use Rattle.aio_inbox.specs.Naming.{table_of};

use crate::carry::carry;
use crate::cases::Case;
use crate::full::waits_for_room;
use crate::meeting::meet;
use crate::posting::code_at;
use crate::putting::{Outcome, put, take};
use aio_base::Memory;
use aio_inbox::{Inbox, InboxName, Poster, Taker, UnnamedInbox};
use std::alloc::Global;
use std::sync::{Arc, Wait};
use std::thread;
use std::thread::Threads;
use std::time::Clock;

/// The inbox, its taker, and the posters that nobody else owns.
#[derive(Drop)]
pub struct Seats<N: InboxName> {
    inbox: Arc<Inbox<N>, Global>,
    taker: Taker<N>,
    posters: Vec<Poster<N>>,
}

fn forget<N: InboxName>(_taker: Taker<N>, _posters: Vec<Poster<N>>) {}

impl<N: InboxName> Seats<N> {
    /// Nothing was posted.
    pub fn make(alloc: Global, unnamed: UnnamedInbox) -> Result<Seats<N>, Memory>
        requires { table_of unnamed ≡ N.table }
    {
        let (inbox, taker, posters) = Inbox::<N>::make(alloc, unnamed, 2)?;
        match Arc::new(alloc, inbox) {
            Ok(inbox) => Ok(Seats {
                inbox,
                taker,
                posters,
            }),
            Err(_) => {
                forget(taker, posters);
                Err(Memory)
            }
        }
    }

    /// 1,024 posts of seat 0 are posted, and the next, of seat 1, finds the inbox full and comes back. After one take, of seat
    /// 0's number 0, it is posted as seat 1's number 0, and comes last; then nothing is there.
    fn go_round<R: Wait>(&mut self, rt: &R) -> bool {
        for _ in 0..1024 {
            if !matches!(self.puts(rt, 0, None), Outcome::Posted) {
                return false;
            }
        }
        let full = matches!(self.puts(rt, 1, Some(7)), Outcome::Full);
        let oldest = self.takes(rt, 0, 0, None);
        let posted = matches!(self.puts(rt, 1, Some(7)), Outcome::Posted);
        for number in 1..1024 {
            if !self.takes(rt, 0, number, None) {
                return false;
            }
        }
        let last = self.takes(rt, 1, 0, Some(7));
        let empty = take(rt, &self.inbox, &mut self.taker).is_none();
        full && oldest && posted && last && empty && self.posted(0, 1024) && self.posted(1, 1)
    }

    // A post of a seat, with this code.
    fn puts<R: Wait>(&mut self, rt: &R, seat: usize, code: Option<i32>) -> Outcome {
        match self.posters.get_mut(seat) {
            Some(poster) => put(rt, &self.inbox, poster, code),
            None => Outcome::Lost,
        }
    }

    // Whether the next post is this one.
    fn takes<R: Wait>(&mut self, rt: &R, seat: u32, number: u64, code: Option<i32>) -> bool {
        match take(rt, &self.inbox, &mut self.taker) {
            Some(taken) => taken.seat == seat && taken.number == number && taken.code == code,
            None => false,
        }
    }

    // Whether a seat's poster tells so many posts.
    fn posted(&self, seat: u32, count: u64) -> bool {
        match self.posters.get(seat as usize) {
            Some(poster) => poster.seat() == seat && poster.count() == count,
            None => false,
        }
    }
}

impl<N: InboxName + Send + Sync + 'static> Seats<N> {
    /// Whether a case comes out as it must.
    pub fn run<R: Threads + Wait + Clock + Copy + Send + Sync + 'static>(
        self,
        rt: &R,
        alloc: Global,
        case: Case,
    ) -> bool {
        let mut own = self;
        let right = own.run_on(rt, alloc, case);
        drop(own);
        right
    }

    // A pump has seat 1, and where there are two, or another posts, the other has seat 0.
    fn run_on<R: Threads + Wait + Clock + Copy + Send + Sync + 'static>(
        &mut self,
        rt: &R,
        alloc: Global,
        case: Case,
    ) -> bool {
        match case {
            Case::GoRound => self.go_round(rt),
            Case::Lend => self.lend(*rt),
            Case::Exchange(_) => false,
            Case::Pumps(row) => match self.posters.pop() {
                Some(poster) => row.is_right(rt, alloc, &self.inbox, &mut self.taker, poster),
                None => false,
            },
            Case::Carry(pieces) => match self.posters.pop() {
                Some(poster) => { carry(rt, alloc, &self.inbox, &mut self.taker, poster, pieces) }
                None => false,
            },
            Case::FullInbox | Case::TwoThatNeedEachOther => self.run_two(rt, alloc, case),
        }
    }

    fn run_two<R: Threads + Wait + Sync>(&mut self, rt: &R, alloc: Global, case: Case) -> bool {
        let Some(second) = self.posters.pop() else {
            return false;
        };
        let Some(first) = self.posters.pop() else {
            drop(second);
            return false;
        };
        if matches!(case, Case::FullInbox) {
            waits_for_room(rt, alloc, &self.inbox, &mut self.taker, first, second)
        } else {
            meet(rt, alloc, &self.inbox, &mut self.taker, first, second)
        }
    }

    /// A thread fills the inbox, a second one finds it full, and both posters come back. As many posts are taken as the inbox
    /// holds, all of the first thread. Of what a thread gives back only the type is known, and that is enough.
    fn lend<R: Threads + Wait + Copy + Send + 'static>(&mut self, rt: R) -> bool {
        for _ in 0..2 {
            if !self.lend_one(rt) {
                return false;
            }
        }
        for number in 0..1024 {
            if !self.takes(&rt, 1, u64::from(number), Some(code_at(number))) {
                return false;
            }
        }
        take(&rt, &self.inbox, &mut self.taker).is_none()
    }

    // Has a thread of its own fill the inbox with the last poster, and settles it.
    fn lend_one<R: Threads + Wait + Copy + Send + 'static>(&mut self, rt: R) -> bool {
        let Some(poster) = self.posters.pop() else {
            return false;
        };
        match Arc::try_clone(&self.inbox) {
            Ok(theirs) => self.lend_to(rt, theirs, poster),
            Err(_) => {
                drop(poster);
                false
            }
        }
    }

    fn lend_to<R: Threads + Wait + Copy + Send + 'static>(
        &mut self,
        rt: R,
        theirs: Arc<Inbox<N>, Global>,
        poster: Poster<N>,
    ) -> bool {
        match thread::spawn(&rt, move || fill(&rt, &theirs, poster)) {
            Ok(child) => {
                self.inbox.settle(&rt, &mut self.taker, child.join(&rt));
                true
            }
            Err(_) => false,
        }
    }
}

/// Posts until the inbox is full, and gives the poster back.
fn fill<N: InboxName, R: Wait>(rt: &R, inbox: &Inbox<N>, poster: Poster<N>) -> Poster<N> {
    let mut own = poster;
    for number in 0..2000 {
        if !matches!(
            put(rt, inbox, &mut own, Some(code_at(number))),
            Outcome::Posted
        ) {
            break;
        }
    }
    own
}
