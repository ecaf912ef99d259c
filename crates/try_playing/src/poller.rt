//! A poller by whose polls the pumps of children post.
use crate::stage::Stage;
use aio_base::Memory;
use aio_hub::{Polled, Poller};
use aio_inbox::InboxName;
use aio_wire::{Answer, Call, Reply, WatchList};
use std::alloc::Global;
use std::sync::{Arc, Wait};

/// Answers as the poller in it does. Before each poll the pumps post what the items of the next turn tell, and nothing past
/// the list.
#[derive(Drop)]
pub struct PlayPoller<N: InboxName, R, P> {
    pub rt: R,
    pub stage: Arc<Stage<N>, Global>,
    pub posts: Vec<Answer>,
    pub polled: usize,
    pub inner: P,
}

impl<N: InboxName, R: Wait, P: Poller> Poller for PlayPoller<N, R, P> {
    ghost seen = { λ poller. P.seen poller.inner };

    fn poll(
        &mut self,
        alloc: Global,
        wait: Option<u64>,
        watch: &WatchList,
    ) -> Result<Polled, Memory> {
        if let Some(Answer::Turn { now: _, items }) = self.posts.get(self.polled) {
            self.stage.post_all(&self.rt, alloc, items.items());
        }
        self.polled = self.polled.saturating_add(1);
        self.inner.poll(alloc, wait, watch)
    }

    fn net(&mut self, alloc: Global, call: &Call) -> Result<Reply, Memory> {
        self.inner.net(alloc, call)
    }
}
