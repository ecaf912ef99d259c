//! What a lane carries, and what a give answers.

use aio_base::Blob;

/// A command to a pump, over the bytes of the code.
pub type Command = model_pump::Command<Blob>;

/// What `Head::give` answers.
#[derive(Drop)]
pub enum Giving {
    /// The command stands last in the lane.
    Given,
    /// Eight commands stood in the lane at a step of the call. The command comes back.
    Full(Command),
    /// The head gave 2^61 commands, and gives no more. The command comes back.
    Spent(Command),
}
