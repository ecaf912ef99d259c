//! A journal on a shelf, as a wire that keeps nothing of what it was asked.
ghost use Rattle.std.specs.Prelude.{◌≡◌, ◌≤◌, true, false, Some, None, IfOk, OnOk, OnErr, IsErr};
ghost use Rattle.aio_wire.specs.Replied.{Replied, Unreplied, UnlessFailed};
ghost use Rattle.aio_wire.specs.declared.wire.Reply.TheVariants.{Failed};
ghost use Rattle.aio_memwire.specs.JournalWire.{seen_of_answers};
ghost use Rattle.aio_memwire.specs.Unread.{unread, is_whole, HoldsFew};

use crate::buffers::Answers;
use crate::journal::Journal;
use crate::journal_wire::JournalWire;
use aio_base::Memory;
use aio_wire::{Call, Reply, Shelf, Wire};
use std::alloc::Global;

impl<'a, F: Shelf> JournalWire<'a, F, Answers> {
    /// The wire of the shelf's file of this name, which keeps neither the calls that it is asked nor
    /// the bytes that it hands on: so what it holds doesn't grow. Nothing is read yet.
    pub fn answering(alloc: Global, shelf: &'a mut F, name: &'a str) -> JournalWire<'a, F, Answers>
        ensures shelf { result.shelf.ghost_name ≡ shelf.entry.ghost_name }
        ensures kept { result.shelf.now ≡ shelf.old }
        ensures name { result.name.now ≡ name.now }
        ensures unread { result.own.journal ≡ unread }
        ensures unspent { result.own.is_spent ≡ false }
    {
        JournalWire {
            shelf,
            name,
            own: Answers {
                journal: Journal::new(alloc),
                is_spent: false,
            },
        }
    }
}

impl<'a, F: Shelf> Wire for JournalWire<'a, F, Answers> {
    ghost use Rattle.std.specs.Prelude.{◌≡◌, false, None, Some, refl};
    ghost use Rattle.std.proofs.Common.{◌∙◌};
    ghost use Rattle.aio_memwire.specs.JournalWire.{ends_as_left, seen_of_answers};
    ghost use Rattle.aio_memwire.specs.Unread.{is_whole};

    ghost outside = { record {
      seen = λ wire. seen_of_answers (F.seen wire.shelf.now) wire.name.now wire.own;
      fails = λ wire. (is_whole wire.own.journal ≡ false)
          × ((F.seen wire.shelf.now).file wire.name.now ≡ Some None);
      keeps = λ old new. (new.shelf.ghost_name ≡ old.shelf.ghost_name)
          × (new.name.now ≡ old.name.now)
          × ((F.seen new.shelf.now).file ≡ (F.seen old.shelf.now).file);
      quiet = λ old new. F.seen new.shelf.now ≡ F.seen old.shelf.now;
      end_agrees = λ wire.
          ends_as_left ((F.seen wire.shelf.now).file wire.name.now) wire.own.journal;
      keeps_same = λ wire. (refl, refl, refl);
      keeps_on = λ before between after first second.
          (second.0 ∙ first.0, second.1 ∙ first.1, second.2 ∙ first.2);
      quiet_same = λ wire. refl;
      quiet_on = λ before between after first second. second ∙ first;
    } };

    fn ask(&mut self, alloc: Global, call: &Call) -> Result<Reply, Memory>
        ensures replied { IfOk result (Replied call.now
            (seen_of_answers (F.seen self.old.shelf.now) self.old.name.now self.old.own)
            (seen_of_answers (F.seen self.new.shelf.now) self.new.name.now self.new.own)) }
        ensures unreplied { OnErr result (Unreplied call.now
            (seen_of_answers (F.seen self.old.shelf.now) self.old.name.now self.old.own)
            (seen_of_answers (F.seen self.new.shelf.now) self.new.name.now self.new.own)) }
        ensures monotone { (F.seen self.old.shelf.now).faults self.old.name.now
            ≤ (F.seen self.new.shelf.now).faults self.old.name.now }
        ensures missing { is_whole self.old.own.journal ≡ false
            → (F.seen self.old.shelf.now).file self.old.name.now ≡ Some None
            → IfOk result (λ reply. reply ≡ Failed) }
        ensures shelf { self.new.shelf.ghost_name ≡ self.old.shelf.ghost_name }
        ensures name { self.new.name.now ≡ self.old.name.now }
        ensures files { (F.seen self.new.shelf.now).file ≡ (F.seen self.old.shelf.now).file }
        ensures quiet { IfOk result
            (UnlessFailed (F.seen self.new.shelf.now ≡ F.seen self.old.shelf.now)) }
        ensures err { OnErr result (F.seen self.new.shelf.now ≡ F.seen self.old.shelf.now) }
        ensures few { OnOk result (HoldsFew self.old.own.journal self.new.own.journal) }
        ensures spends { OnErr result (self.new.own.is_spent ≡ true) }
        ensures spent { self.old.own.is_spent ≡ true → IsErr result }
    {
        if self.own.is_spent {
            return Err(Memory);
        }
        self.own.is_spent = true;
        let reply = self.own.journal.next(alloc, self.shelf, self.name)?;
        self.own.is_spent = false;
        Ok(reply)
    }
}
