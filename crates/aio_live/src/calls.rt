//! The calls that change no more than the lanes and what the children's records keep of them.
ghost use Rattle.std.specs.Prelude.{◌≡◌, ℕ, ℤ, false, List, []};
ghost use Rattle.model_wire.specs.declared.answer.Answer.TheVariants as answer;
ghost use Rattle.model_wire.specs.declared.call.Call.TheVariants as call;
ghost use Rattle.model_hub.specs.Others.{Got};
ghost use Rattle.model_hub.specs.Told.{is_datagram};
ghost use Rattle.aio_live.specs.States.{Plainly, Feeding, Ending};
ghost use Rattle.aio_live.specs.Alone.{AsksAlone};

use crate::state::State;
use aio_base::Blob;
use aio_commands::{end, feed, serve};
use aio_inbox::InboxName;
use aio_wire::{Answer, Watch};
use std::sync::Wait;

impl<N: InboxName, Run> State<N, Run> {
    /// What goes before each call: Gos of streams that are newly wanted, and what found its lane full.
    pub fn serve<R: Wait>(&mut self, rt: &R, watch: &[Watch])
        ensures { Plainly watch.now self.old self.new }
    {
        serve(rt, &mut self.lanes, &mut self.pumped.roster, watch);
    }

    /// An added request that isn't the poller's: none is served.
    pub fn extra<R: Wait>(&mut self, rt: &R) -> Answer
        ensures answer { result ≡ answer.Refused }
        ensures posts { self.new.hub.taken ≡ self.old.hub.taken }
        ensures asks { (code : ℤ) (bytes : List ℕ) → is_datagram code ≡ false
            → AsksAlone (call.Extra code bytes) (Got answer.Refused) self.old self.new }
    {
        self.serve(rt, &[]);
        Answer::Refused
    }

    // A feed, with what goes before it.
    fn feed_one<R: Wait>(&mut self, rt: &R, number: u32, bytes: Blob) -> Answer
        ensures { Feeding number bytes result self.old self.new }
    {
        feed(rt, &mut self.lanes, &mut self.pumped.roster, number, bytes)
    }

    // The closing of a standard input, with what goes before it.
    fn end_one<R: Wait>(&mut self, rt: &R, number: u32)
        ensures { Ending number self.old self.new }
    {
        end(rt, &mut self.lanes, &mut self.pumped.roster, number);
    }

    /// A feed: all of the bytes in one Write, or none.
    pub fn feed<R: Wait>(&mut self, rt: &R, number: u32, bytes: Blob) -> Answer
        ensures feeds { Feeding number bytes result self.old self.new }
        ensures posts { self.new.hub.taken ≡ self.old.hub.taken }
        ensures asks { AsksAlone (call.Feed number bytes) (Got result) self.old self.new }
    {
        self.feed_one(rt, number, bytes)
    }

    /// The closing of a standard input.
    pub fn end<R: Wait>(&mut self, rt: &R, number: u32) -> Answer
        ensures ends { Ending number self.old self.new }
        ensures posts { self.new.hub.taken ≡ self.old.hub.taken }
        ensures answer { result ≡ answer.Done }
        ensures asks { AsksAlone (call.End number) (Got answer.Done) self.old self.new }
    {
        self.end_one(rt, number);
        Answer::Done
    }
}
