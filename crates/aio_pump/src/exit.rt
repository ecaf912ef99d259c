//! What a child's exit is known by.
ghost use Rattle.aio_pump.specs.Exits.{ExitSeen, ExitAnswers};

/// What waiting for an exit gave.
#[derive(Clone, Copy, PartialEq, Eq)]
pub enum Exited {
    /// The child ended with this code.
    Code(i32),
    /// It could not be waited for: the count of faults rose, or stands at its last value.
    Failed,
}

/// A child's exit. Source: the library reference, `subprocess.Popen.wait`.
pub trait ExitSource {
    /// The code of the exit, where that is told, and how often a wait failed.
    ghost seen: { Self → ExitSeen };

    /// Waits for the exit. One that waits for others keeps the runtime in a field. The count of faults never falls.
    fn wait(&mut self) -> Exited
        ensures { ExitAnswers (seen self.old) result (seen self.new) };
}
