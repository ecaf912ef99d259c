//! A journal on a shelf, line by line.
ghost use Rattle.std.specs.Prelude.{◌≡◌, ◌≤◌, ◌<◌, ◌+◌, ◌^◌, ◌∷◌, ◌++◌, true, false, None, Some, drop, length, take, IfOk, IfSome, IsNone, OnOk, OnErr};
ghost use Rattle.aio_wire.specs.Replied.{ReplyLeaves, EndsAs, FailedIfRose, Kept, UnlessFailed};
ghost use Rattle.aio_wire.specs.declared.wire.Reply.TheVariants.{Failed};
ghost use Rattle.aio_memwire.specs.Unread.{unread, left_of, end_of, is_whole, IsNextLine, GivesLine, IsSure, HoldsFew};
ghost use Rattle.law_entries.specs.Begins.{has_newline};
ghost use Rattle.aio_memwire.specs.Fetched.{FailedFetch, UnlessFailedFetch};

use aio_base::Memory;
use aio_journal::{EntryFault, read_entry};
use aio_wire::{JournalFault, Reply, Shelf, SourceGot};
use bytes::BytesMut;
use memchr::memchr;
use std::alloc::Global;
use std::marker::Model;

/// How many bytes one read asks for.
const CHUNK: usize = 65_536;

/// The most bytes of a line.
const MOST_LINE: usize = 2_097_152;

/// The line is too long.
const TOO_LONG: u8 = 3;

/// A journal as far as it was read: the bytes that were read and not given yet, from which place on
/// the file wasn't read, the number of the next line, and whether the file's end was read.
#[derive(Drop)]
pub struct Journal {
    held: BytesMut,
    from: u64,
    line: u64,
    ended: bool,
}

impl Model for Journal {
    ghost use Rattle.aio_memwire.specs.Unread.{Unread};

    ghost Value = { Unread };

    ghost view = { λ journal. record {
      held = journal.held.items;
      from = journal.from;
      line = journal.line;
      ended = journal.ended;
    } };
}

/// What is held of the next line.
#[derive(Clone, Copy, PartialEq, Eq)]
pub enum NextLine {
    /// It ends before this place, where its newline stands.
    Ended(usize),
    /// More bytes than a line may have.
    TooLong,
    /// All that is left of the file, perhaps nothing.
    Last,
    /// A part, and the shelf failed.
    Failed,
}

impl Journal {
    /// A journal of which nothing was read; takes no memory.
    pub fn new(alloc: Global) -> Journal
        ensures { result ≡ unread }
    {
        Journal {
            held: BytesMut::new(alloc),
            from: 0,
            line: 1,
            ended: false,
        }
    }

    /// Replies with the next entry: an answer is taken, a refused line stays. The file is read on only
    /// where the next line isn't held whole: so no more is held than a line and a piece.
    pub fn next<F: Shelf>(
        &mut self,
        alloc: Global,
        shelf: &mut F,
        name: &str,
    ) -> Result<Reply, Memory>
        ensures left { IfOk result (ReplyLeaves (left_of ((F.seen shelf.old).file name.now) self.old)
            (left_of ((F.seen shelf.new).file name.now) self.new)) }
        ensures ends { IfOk result (EndsAs (end_of self.new)) }
        ensures failed { IfOk result (FailedIfRose ((F.seen shelf.old).faults name.now)
            ((F.seen shelf.new).faults name.now)) }
        ensures monotone { (F.seen shelf.old).faults name.now ≤ (F.seen shelf.new).faults name.now }
        ensures missing { is_whole self.old ≡ false → (F.seen shelf.old).file name.now ≡ Some None
            → IfOk result (λ reply. reply ≡ Failed) }
        ensures files { (F.seen shelf.new).file ≡ (F.seen shelf.old).file }
        ensures quiet { IfOk result (UnlessFailed (F.seen shelf.new ≡ F.seen shelf.old)) }
        ensures err { OnErr result (F.seen shelf.new ≡ F.seen shelf.old) }
        ensures few { OnOk result (HoldsFew self.old self.new) }
    {
        match self.fetch(alloc, shelf, name)? {
            NextLine::Ended(at) => self.give(alloc, at, at + 1),
            NextLine::TooLong => Ok(self.refuse()),
            NextLine::Last => self.give_last(alloc),
            NextLine::Failed => Ok(Reply::Failed),
        }
    }

    /// Reads the file on until the next line is held whole, or more of it than a line may have.
    fn fetch<F: Shelf>(
        &mut self,
        alloc: Global,
        shelf: &mut F,
        name: &str,
    ) -> Result<NextLine, Memory>
        ensures line { IfOk result (IsNextLine self.new) }
        ensures kept { OnOk result (Kept (left_of ((F.seen shelf.old).file name.now) self.old)
            (left_of ((F.seen shelf.old).file name.now) self.new)) }
        ensures failed { IfOk result (FailedFetch ((F.seen shelf.old).faults name.now)
            ((F.seen shelf.new).faults name.now)) }
        ensures monotone { (F.seen shelf.old).faults name.now ≤ (F.seen shelf.new).faults name.now }
        ensures missing { is_whole self.old ≡ false → (F.seen shelf.old).file name.now ≡ Some None
            → IfOk result (λ next. next ≡ NextLine.Failed) }
        ensures files { (F.seen shelf.new).file ≡ (F.seen shelf.old).file }
        ensures quiet { IfOk result (UnlessFailedFetch (F.seen shelf.new ≡ F.seen shelf.old)) }
        ensures err { OnErr result (F.seen shelf.new ≡ F.seen shelf.old) }
        ensures few { OnOk result (HoldsFew self.old self.new) }
    {
        let mut searched = 0;
        loop {
            if let Some(at) = newline_from(self.held.as_slice(), searched) {
                return Ok(NextLine::Ended(at));
            }
            searched = self.held.len();
            if searched > MOST_LINE {
                return Ok(NextLine::TooLong);
            }
            if self.ended {
                return Ok(NextLine::Last);
            }
            match shelf.read(alloc, name, self.from, CHUNK)? {
                SourceGot::Bytes(bytes) => self.add(bytes.items())?,
                SourceGot::End => self.ended = true,
                SourceGot::Failed => return Ok(NextLine::Failed),
            }
        }
    }

    /// Puts bytes of the file behind those that are held.
    fn add(&mut self, bytes: &[u8]) -> Result<(), Memory>
        ensures { OnOk result (self.new ≡ record self.old {
          held = self.old.held ++ bytes.now;
          from = self.old.from + length bytes.now;
        }) }
    {
        let Some(from) = self.from.checked_add(bytes.len() as u64) else {
            return Err(Memory);
        };
        self.held.extend_from_slice(bytes)?;
        self.from = from;
        Ok(())
    }

    /// Replies with the first line, of so many bytes; with its answer so many bytes are gone.
    fn give(&mut self, alloc: Global, size: usize, gone: usize) -> Result<Reply, Memory>
        requires fits { size ≤ length self.old.held }
        requires all { gone ≤ length self.old.held }
        ensures { IfOk result (GivesLine size gone self.old self.new) }
    {
        match read_entry(alloc, &self.held.as_slice()[..size], self.line) {
            Ok(answer) => {
                let Some(line) = self.line.checked_add(1) else {
                    return Err(Memory);
                };
                self.line = line;
                self.held.advance(gone);
                Ok(Reply::Got(answer))
            }
            Err(EntryFault::Refused(fault)) => Ok(Reply::Bad(fault)),
            Err(EntryFault::Memory) => Err(Memory),
        }
    }

    /// Replies with the last line, which has no newline, or that none is left.
    fn give_last(&mut self, alloc: Global) -> Result<Reply, Memory>
        requires { (self.old.ended ≡ true) × (has_newline self.old.held ≡ false) }
        ensures left { IfOk result
            (ReplyLeaves (left_of None self.old) (left_of None self.new)) }
        ensures ends { IfOk result (EndsAs (end_of self.new)) }
        ensures ended { OnOk result (self.new.ended ≡ true) }
        ensures sure { IfOk result IsSure }
        ensures few { OnOk result (length self.new.held ≤ length self.old.held) }
    {
        let size = self.held.len();
        if size == 0 {
            return Ok(Reply::Over);
        }
        self.give(alloc, size, size)
    }

    /// The line has more bytes than a line may have.
    fn refuse(&self) -> Reply
        ensures { result ≡ Reply.Bad (record { line = self.now.line; cause = TOO_LONG }) }
    {
        Reply::Bad(JournalFault {
            line: self.line,
            cause: TOO_LONG,
        })
    }
}

/// Where the first newline stands, where none stands before `from`.
fn newline_from(text: &[u8], from: usize) -> Option<usize>
    requires within { from ≤ length text.now }
    requires before { has_newline (take from text.now) ≡ false }
    ensures none { IsNone result → has_newline text.now ≡ false }
    ensures small { IfSome result (λ at. at + 1 < 2 ^ 64) }
    ensures at { IfSome result (λ at. (at < length text.now) × (has_newline (take at text.now) ≡ false)
        × (text.now ≡ take at text.now ++ 10 ∷ drop (at + 1) text.now)) }
{
    match memchr(b'\n', &text[from..]) {
        Some(at) => Some(from + at),
        None => None,
    }
}
