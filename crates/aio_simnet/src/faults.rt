//! What may go wrong.

/// A kind of what may go wrong in a run, or otherwise than it mostly does.
#[derive(Clone, Copy, PartialEq, Eq)]
pub enum Fault {
    /// What is sent, ends or is launched takes a while.
    Latency,
    /// What comes does so when a wait of the loop is over, or right before or after it.
    Aim,
    /// A read gives fewer bytes than there are.
    Cut,
    /// What is sent at once comes in two pieces.
    Segment,
    /// A write takes fewer bytes than it was given.
    Short,
    /// A call finds that it would wait, though it need not.
    Again,
    /// Connections and pipes hold few bytes.
    Small,
    /// A wait is over later than it was to be.
    Late,
    /// Time passes in a turn that doesn't wait.
    Tick,
    /// Something that is ready is told in a later turn.
    Hold,
    /// What is ready is told in another order.
    Shuffle,
    /// A wait is over before anything came.
    Spurious,
    /// A connection is reset.
    Reset,
    /// A connect or a listen is refused.
    Refuse,
    /// What is sent takes many seconds.
    Stall,
    /// A program can't be started.
    Launch,
}

/// The fault of a name, if it is one.
pub fn fault_named(name: &str) -> Option<Fault> {
    match name {
        "latency" => Some(Fault::Latency),
        "aim" => Some(Fault::Aim),
        "cut" => Some(Fault::Cut),
        "segment" => Some(Fault::Segment),
        "short" => Some(Fault::Short),
        "again" => Some(Fault::Again),
        "small" => Some(Fault::Small),
        "late" => Some(Fault::Late),
        "tick" => Some(Fault::Tick),
        "hold" => Some(Fault::Hold),
        "shuffle" => Some(Fault::Shuffle),
        "spurious" => Some(Fault::Spurious),
        "reset" => Some(Fault::Reset),
        "refuse" => Some(Fault::Refuse),
        "stall" => Some(Fault::Stall),
        "launch" => Some(Fault::Launch),
        _ => None,
    }
}
