//! The memory of one node.
use crate::nodes::Node;
use std::alloc::{AllocError, Global};
use std_alloc::room::Vacant;

/// Memory for one value in a chain: whoever has it appends one without asking for more.
pub struct Spare<T> {
    room: Vacant<Node<T, Global>, Global>,
}

impl<T> Drop for Spare<T> {
    fn drop(self) {
        let Spare { room } = self;
        let _handle = room.free();
    }
}

impl<T> Spare<T> {
    /// Asks for the memory.
    pub fn make(alloc: Global) -> Result<Spare<T>, AllocError> {
        match Vacant::take(alloc) {
            Ok(room) => Ok(Spare { room }),
            Err(_) => Err(AllocError),
        }
    }

    pub(crate) fn of_room(room: Vacant<Node<T, Global>, Global>) -> Spare<T> {
        Spare { room }
    }

    pub(crate) fn into_room(self) -> Vacant<Node<T, Global>, Global> {
        let Spare { room } = self;
        room
    }
}
