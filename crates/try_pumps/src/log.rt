//! What a taker saw come.
use crate::posting::code_at;
use crate::putting::Taken;
use std::alloc::Global;

/// The number that comes next on each seat, how many posts came, and whether each was the one that
/// was due.
#[derive(Drop)]
pub struct Log {
    next: Vec<u32>,
    came: u64,
    right: bool,
}

impl Log {
    /// A log of posts on so many seats, empty. Where memory is refused it is never right.
    pub fn new(alloc: Global, seats: u32) -> Log {
        let (next, right) = match vec![in alloc; 0u32; seats as usize] {
            Ok(next) => (next, true),
            Err(_) => (Vec::new(alloc), false),
        };
        Log {
            next,
            came: 0,
            right,
        }
    }

    /// How many posts came.
    pub fn came(&self) -> u64 {
        self.came
    }

    /// A post came.
    pub fn note(&mut self, taken: Taken) {
        let Taken { seat, number, code } = taken;
        self.came = self.came.saturating_add(1);
        let due = self.count(seat);
        self.right = self.right && code == Some(code_at(due)) && number == u64::from(due);
        if let Some(next) = self.next.get_mut(seat as usize) {
            *next = due.saturating_add(1);
        }
    }

    /// How many posts came of a seat.
    fn count(&self, seat: u32) -> u32 {
        self.next.get(seat as usize).copied().unwrap_or(0)
    }

    /// Whether all that came was due, and so many posts came of each seat.
    pub fn is_right(&self, posts: u32) -> bool {
        self.right && self.next.iter().all(|count| *count == posts)
    }
}
