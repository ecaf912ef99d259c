//! The memory of one handle.
use crate::entry::Entry;
use crate::index::Leaf;
use aio_base::Memory;
use aio_chain::Spare;
use std::alloc::Global;

/// All the memory of one handle: whoever has it appends a handle without asking for more.
#[derive(Drop)]
pub struct Ticket {
    pub(crate) spare: Spare<Entry>,
    pub(crate) leaf: Leaf,
}

fn forget_leaf(_leaf: Leaf) {}

impl Ticket {
    pub(crate) fn new(alloc: Global) -> Result<Ticket, Memory> {
        let leaf = Leaf::new(alloc)?;
        match Spare::make(alloc) {
            Ok(spare) => Ok(Ticket { spare, leaf }),
            Err(_) => {
                forget_leaf(leaf);
                Err(Memory)
            }
        }
    }
}
