//! The tasks that a request visited.
ghost use Rattle.std.specs.Prelude.{◌≡◌, ◌+◌, ◌<◌, false, [], ◌∷◌, ◌++◌, OnOk, OnErr};
ghost use Rattle.model_loop.specs.Cancel.{has_seen};

use aio_base::Memory;
use std::alloc::Global;
use std::marker::Model;

/// A mark for each task that was announced, with room for a visit of each. Contracts see for how
/// many there are marks, and those that were visited, in order.
#[derive(Drop)]
pub struct Marks {
    marks: Vec<bool>,
    visited: Vec<u32>,
}

impl Model for Marks {
    ghost use Rattle.aio_cancel.specs.Seen.{Marked};

    ghost Value = { Marked };

    ghost use Rattle.std.specs.Prelude.{length};
    ghost use Rattle.std.specs.Vec.{vec_capacity};
    ghost use Rattle.aio_cancel.specs.Seen.{HasRoomToMark};

    ghost view = { λ a. record { tasks = length a.marks.items; visited = a.visited.items } };

    ghost invariant = { λ a. HasRoomToMark a.marks.items a.visited.items (vec_capacity a.visited) };
}

impl Marks {
    /// Marks for no task; takes no memory.
    pub fn new(alloc: Global) -> Marks
        ensures { result ≡ record { tasks = 0; visited = [] } }
    {
        Marks {
            marks: Vec::new(alloc),
            visited: Vec::new(alloc),
        }
    }

    /// A mark for one task more.
    pub fn announce(&mut self) -> Result<(), Memory>
        ensures after { OnOk result (self.new ≡ record self.old { tasks = self.old.tasks + 1 }) }
        ensures err { OnErr result (self.new ≡ self.old) }
    {
        let more = self.marks.len() - self.visited.len();
        self.visited.reserve(more + 1)?;
        self.marks.push(false)?;
        Ok(())
    }

    /// Whether a task was visited.
    pub fn has(&self, task: u32) -> bool
        ensures { result ≡ has_seen self.now.visited task }
    {
        let task = task as usize;
        if task < self.marks.len() {
            self.marks[task]
        } else {
            false
        }
    }

    /// A task is visited.
    pub fn add(&mut self, task: u32)
        requires there { task < self.old.tasks }
        requires unseen { has_seen self.old.visited task ≡ false }
        ensures { self.new ≡ record self.old { visited = self.old.visited ++ task ∷ [] } }
    {
        let pushed = self.visited.push(task);
        prove!(pushed.is_ok());
        self.marks[task as usize] = true;
    }

    /// No task was visited. Only the marks of those that were are cleared.
    pub fn clear(&mut self)
        ensures { self.new ≡ record self.old { visited = [] } }
    {
        while let Some(task) = self.visited.pop() {
            if let Some(mark) = self.marks.get_mut(task as usize) {
                *mark = false;
            }
        }
    }
}
