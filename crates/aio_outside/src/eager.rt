//! When a select doesn't wait.
ghost use Rattle.std.specs.Prelude.{◌≡◌, Some, if◌then◌else◌};
ghost use Rattle.model_hub.specs.Gathering.{is_full};
ghost use Rattle.aio_outside.specs.Room.{room_beside};

use aio_wire::{Answer, Item, Reply, bytes_in};

/// The greatest number of bytes that one turn has.
const MOST_BYTES: u64 = 262_144;

/// The greatest number of bytes in one piece of a child's output.
const MOST_PIECE: u64 = 65_536;

/// The greatest number of items in one turn.
const MOST_ITEMS: usize = 4_096;

/// How many bytes more one turn may have beside these items.
fn room_beside(items: &[Item]) -> u64
    ensures { result ≡ room_beside items.now }
{
    let mut room = MOST_BYTES;
    for item in items {
        room = room.saturating_sub(bytes_in(item));
    }
    room
}

/// A hub takes no more posts beside these items, though there may be more.
pub fn is_full(items: &[Item]) -> bool
    ensures { result ≡ is_full items.now }
{
    items.len() >= MOST_ITEMS || room_beside(items) < MOST_PIECE
}

/// Whether a select was answered by a turn that is full.
pub(crate) fn is_full_turn(reply: &Reply) -> bool {
    match reply {
        Reply::Got(Answer::Turn { items, .. }) => is_full(items.items()),
        _ => false,
    }
}

/// How long a select waits: not at all where the turn before it was full.
pub(crate) fn wait_after(full: bool, wait: Option<u64>) -> Option<u64>
    ensures { result ≡ (if full then Some 0 else wait) }
{
    if full { Some(0) } else { wait }
}
