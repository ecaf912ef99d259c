//! What is known of children.
ghost use Rattle.std.specs.Prelude.{◌≡◌, ◌∷◌, [], MatchOption, slice_get};
ghost use Rattle.std.specs.Option.{option_and_then, option_map};
ghost use Rattle.model_stream.specs.Children.{Child as PlainChild};
ghost use Rattle.model_stream.specs.Watching.{watched_child};
ghost use Rattle.law_over.specs.Gone.{holds_at, is_over_child};

use super::Children;
use aio_task::FutureId;
use aio_wire::Watch;

impl Children {
    /// The future that `wait_closed` of a child's standard input awaits.
    pub fn closed(&self, id: u32) -> Option<FutureId>
        ensures { result ≡ option_map (λ (p : PlainChild). p.stdin.closed_future)
            (slice_get self.now.children id) }
    {
        let child = self.children.get(id as usize)?;
        Some(child.closed())
    }

    /// The exit code of a child, -N where signal N ended it; none before the exit.
    pub fn code(&self, id: u32) -> Option<i64>
        ensures { result ≡ option_and_then (λ (p : PlainChild). p.code)
            (slice_get self.now.children id) }
    {
        let child = self.children.get(id as usize)?;
        child.code()
    }

    /// Whether a child is over: then a select waits for nothing of it, now and later.
    pub fn is_over(&self, id: u32) -> bool
        ensures { result ≡ holds_at is_over_child (slice_get self.now.children id) }
    {
        match self.children.get(id as usize) {
            Some(child) => child.is_over(),
            None => false,
        }
    }

    /// What a select waits for of a child, if anything.
    pub fn watch(&self, id: u32) -> Option<Watch>
        ensures { MatchOption result
            (watched_child id (slice_get self.now.children id) ≡ [])
            (λ entry. watched_child id (slice_get self.now.children id) ≡ entry ∷ []) }
    {
        let child = self.children.get(id as usize)?;
        child.watch(id)
    }
}
