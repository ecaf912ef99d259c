//! What a select watches.
ghost use Rattle.std.specs.Prelude.{◌≡◌, ◌++◌, ◌∷◌, ◌==◌, [], OnOk, length, not};
ghost use Rattle.std.specs.List.{flat_map};
ghost use Rattle.model_stream.specs.Streams.{Streams as PlainStreams};
ghost use Rattle.model_stream.specs.Watching.{watch_list};
ghost use Rattle.aio_stream.specs.Kept.{all_opened, opened_as};
ghost use Rattle.aio_stream.specs.Watched.{entries};
ghost use Rattle.aio_transports.specs.Kept.{all_seen, since};
ghost use Rattle.aio_transports.specs.Standing.{TransportsStandFor};
ghost use Rattle.aio_transports.specs.Watched.{watched_of, without_gone};

use super::Transports;
use aio_base::Memory;
use aio_stream::Opened;
use aio_wire::Watch;

impl Transports {
    /// What a select watches, in order of opening, behind what stands in the list. It stands for the
    /// same streams as before. It goes over what may still be watched alone, and leaves out of that
    /// for good what is gone. After want of memory nothing is promised, of either.
    pub fn watch(&mut self, into: &mut Vec<Watch>) -> Result<(), Memory>
        ensures { OnOk result ((s : PlainStreams) → TransportsStandFor self.old s
            → TransportsStandFor self.new s × (into.new.items ≡ into.old.items ++ watch_list s)) }
    {
        self.see()?;
        self.drop_gone();
        self.watch_remaining(into)
    }

    /// Whether a select watches anything.
    pub fn is_watched(&self) -> bool
        ensures { (s : PlainStreams) → TransportsStandFor self.now s
            → result ≡ not (length (watch_list s) == 0) }
    {
        self.watches_remaining() || self.watches_since()
    }

    // All that was opened is seen.
    fn see(&mut self) -> Result<(), Memory>
        ensures { OnOk result (self.new ≡ record self.old {
          remaining = all_seen self.old.streams.opened self.old.remaining;
        }) }
    {
        self.remaining.see(self.streams.opened_in_order())
    }

    // What is gone is left out.
    fn drop_gone(&mut self)
        ensures { self.new ≡ record self.old {
          remaining = without_gone self.old.streams self.old.children self.old.remaining;
        } }
    {
        self.remaining.drop_gone(&self.streams, &self.children);
    }

    // What is watched of what remains.
    fn watch_remaining(&self, into: &mut Vec<Watch>) -> Result<(), Memory>
        ensures { OnOk result (into.new.items
            ≡ into.old.items ++ flat_map (watched_of self.now) self.now.remaining.those) }
    {
        self.watch_all(self.remaining.those(), into)
    }

    // Whether any of what remains is watched.
    fn watches_remaining(&self) -> bool
        ensures { result
            ≡ not (length (flat_map (watched_of self.now) self.now.remaining.those) == 0) }
    {
        self.any_watched(self.remaining.those())
    }

    // Whether any of what was opened since is watched.
    fn watches_since(&self) -> bool
        ensures { result ≡ not (length (flat_map (watched_of self.now)
            (since self.now.streams.opened self.now.remaining)) == 0) }
    {
        self.any_watched(self.remaining.since(self.streams.opened_in_order()))
    }

    // What is watched of all of these.
    fn watch_all(&self, those: &[Opened], into: &mut Vec<Watch>) -> Result<(), Memory>
        ensures { OnOk result (into.new.items
            ≡ into.old.items ++ flat_map (watched_of self.now) (all_opened those.now)) }
    {
        for one in those {
            if let Some(entry) = self.watched(*one) {
                put_last(into, entry)?;
            }
        }
        Ok(())
    }

    // Whether any of these is watched.
    fn any_watched(&self, those: &[Opened]) -> bool
        ensures { result
            ≡ not (length (flat_map (watched_of self.now) (all_opened those.now)) == 0) }
    {
        for one in those {
            if self.watched(*one).is_some() {
                return true;
            }
        }
        false
    }

    // What is watched of one that was opened.
    fn watched(&self, one: Opened) -> Option<Watch>
        ensures { entries result ≡ watched_of self.now (opened_as one) }
    {
        match one {
            Opened::Server(id) => self.streams.watched_server(id),
            Opened::Conn(id) => self.streams.watched_connection(id),
            Opened::Child(id) => self.children.watch(id),
        }
    }
}

// One entry more, behind those that there are.
fn put_last(into: &mut Vec<Watch>, entry: Watch) -> Result<(), Memory>
    ensures { OnOk result (into.new.items ≡ into.old.items ++ entry ∷ []) }
{
    into.push(entry)?;
    Ok(())
}
