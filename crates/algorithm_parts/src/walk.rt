//! What a walk over futures works on.

/// How a future stands.
#[derive(Clone, Copy)]
pub enum FutureState {
    Done,
    Plain,
    /// A task's own.
    OfTask(u32),
    /// It stands for several.
    Many,
}

/// What waits for an answer.
#[derive(Clone, Copy)]
pub enum WalkFrame {
    /// A task, which is marked where the answer is false, and its own future.
    Waits { id: u64, task: u32 },
    /// A future that stands for several, whose members from a place on are left.
    Members { id: u64, place: usize, any: bool },
}

/// What is done next.
#[derive(Clone, Copy)]
pub enum Go {
    Visit(u64),
    Next { id: u64, place: usize, any: bool },
    Answer(bool),
}
