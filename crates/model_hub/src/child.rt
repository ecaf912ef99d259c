/// The seats of the inbox on which the four pumps of a child post.
#[derive(Clone, Copy)]
pub struct Seats {
    pub stdin: u32,
    pub out: u32,
    pub errs: u32,
    pub exit: u32,
}

/// What is kept of one of the two streams that a child writes.
#[derive(Clone, Copy)]
pub struct Flow {
    /// How many Gos were given for it.
    pub gos: u64,
    /// How many pieces were taken of it.
    pub pieces: u64,
    /// Its End was taken.
    pub ended: bool,
    /// A Go for it found the lane full, and is to be given again.
    pub owes: bool,
}

/// What became of the Close of a child's standard input.
#[derive(Clone, Copy, PartialEq, Eq)]
pub enum Closing {
    /// It was not asked for.
    Open,
    /// It found the lane full, and is to be given again.
    Owed,
    /// It was given.
    Closed,
    /// It is never to be given, since the lane is spent.
    Unclosable,
}

/// How far a child has come.
#[derive(Clone, Copy, PartialEq, Eq)]
pub enum Stay {
    /// It was launched, and not taken in.
    Running,
    /// It was taken in, but one of its seats can't be lent again.
    Holding,
    /// It was taken in, and its seats may be lent again.
    Gone,
}

/// What a hub keeps of a child.
#[derive(Clone, Copy)]
pub struct Child {
    pub number: u32,
    pub seats: Seats,
    pub stay: Stay,
    pub out: Flow,
    pub errs: Flow,
    /// How many Writes were given to it.
    pub writes: u64,
    /// How many Room posts of it were taken: so many Writes were written whole.
    pub rooms: u64,
    /// A Broken post of it was taken.
    pub broken: bool,
    pub closing: Closing,
    /// Its exit was taken.
    pub exited: bool,
}
