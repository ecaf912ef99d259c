//! The bytes that connections and children were handed.
ghost use Rattle.std.specs.Prelude.{◌≡◌, ℕ, true, [], ◌++◌, Some, OnOk, OnErr, nat_eq, if◌then◌else◌};
ghost use Rattle.model_wire.specs.declared.event.Handed.{Handed as AnyHanded};
ghost use Rattle.model_wire.specs.Event.{taken_of, handed_by};
ghost use Rattle.aio_wire.specs.Replied.{handed_after};
ghost use Rattle.aio_memwire.specs.Held.{IsGot, bytes_at, held, subject_of, offered, count_of};

use aio_base::Memory;
use aio_wire::{Answer, Call, Reply};
use indexmap::IndexMap;
use model_wire::Handed;
use std::alloc::Global;

/// The bytes that each connection and each child was handed, by number.
#[derive(Drop)]
pub struct HandedBytes {
    conns: IndexMap<u32, Vec<u8>>,
    children: IndexMap<u32, Vec<u8>>,
}

impl HandedBytes {
    /// No bytes.
    pub fn new(alloc: Global) -> HandedBytes
        ensures { held result ≡ λ _. [] }
    {
        HandedBytes {
            conns: IndexMap::new(alloc),
            children: IndexMap::new(alloc),
        }
    }

    /// The bytes that this one was handed, none where there is no such one.
    pub fn of(&self, of: Handed) -> &[u8]
        ensures { result.now ≡ held self.now of }
    {
        match of {
            Handed::Conn(conn) => bytes_at(&self.conns, conn),
            Handed::Child(child) => bytes_at(&self.children, child),
        }
    }

    /// Adds what a reply to a call hands on. Want of memory changes nothing.
    pub fn hand(&mut self, alloc: Global, call: &Call, reply: &Reply) -> Result<(), Memory>
        ensures ok { OnOk result (Some (held self.new)
            ≡ handed_after (Some (held self.old)) call.now reply.now) }
        ensures err { OnErr result (held self.new ≡ held self.old) }
        ensures got { OnErr result (IsGot reply.now) }
    {
        match reply {
            Reply::Got(answer) => self.take(alloc, call, answer),
            Reply::Over => Ok(()),
            Reply::Bad(_) => Ok(()),
            Reply::Failed => Ok(()),
        }
    }

    /// Adds the bytes of a call that an answer takes.
    fn take(&mut self, alloc: Global, call: &Call, answer: &Answer) -> Result<(), Memory>
        ensures ok { OnOk result ((of : AnyHanded)
            → held self.new of ≡ held self.old of ++ handed_by of call.now answer.now) }
        ensures err { OnErr result (held self.new ≡ held self.old) }
    {
        let Some(count) = count_of(answer) else {
            return Ok(());
        };
        let piece = front_of(offered(call), count);
        match subject_of(call) {
            None => Ok(()),
            Some(Handed::Conn(conn)) => add(&mut self.conns, alloc, conn, piece),
            Some(Handed::Child(child)) => add(&mut self.children, alloc, child, piece),
        }
    }
}

fn bytes_at(table: &IndexMap<u32, Vec<u8>>, number: u32) -> &[u8]
    ensures { result.now ≡ bytes_at table.now.entries number }
{
    match table.get(&number) {
        Some(bytes) => bytes.as_slice(),
        None => &[],
    }
}

/// Puts a piece after the bytes that a table has at a number.
fn add(
    table: &mut IndexMap<u32, Vec<u8>>,
    alloc: Global,
    number: u32,
    piece: &[u8],
) -> Result<(), Memory>
    ensures ok { OnOk result ((other : ℕ) → bytes_at table.new.entries other
        ≡ bytes_at table.old.entries other ++ (if nat_eq number other then piece.now else [])) }
    ensures err { OnErr result ((other : ℕ)
        → bytes_at table.new.entries other ≡ bytes_at table.old.entries other) }
{
    match table.get_mut(&number) {
        Some(bytes) => bytes.extend_from_slice(piece)?,
        None => {
            let bytes = Vec::from_slice(alloc, piece)?;
            table.insert(number, bytes)?;
        }
    }
    Ok(())
}

fn subject_of(call: &Call) -> Option<Handed>
    ensures { result ≡ subject_of call.now }
{
    match call {
        Call::Send { conn, .. } => Some(Handed::Conn(*conn)),
        Call::Feed { child, .. } => Some(Handed::Child(*child)),
        _ => None,
    }
}

fn offered(call: &Call) -> &[u8]
    ensures { result.now ≡ offered call.now }
{
    match call {
        Call::Send { bytes, .. } | Call::Feed { bytes, .. } => bytes.items(),
        _ => &[],
    }
}

fn count_of(answer: &Answer) -> Option<u64>
    ensures { result ≡ count_of answer.now }
{
    match answer {
        Answer::Took(count) => Some(*count),
        _ => None,
    }
}

/// The bytes that were taken of those that were offered: none where they can't be so many.
fn front_of(offered: &[u8], count: u64) -> &[u8]
    ensures { result.now ≡ taken_of true offered.now count }
{
    if count == 0 || count > offered.len() as u64 {
        return &[];
    }
    &offered[..count as usize]
}
