/// What a lane carries to a pump. `B` is the type of bytes: a list in definitions, and a type of its
/// own in code.
#[derive(Drop)]
pub enum Command<B> {
    /// Read once, and post what came.
    Go,
    /// Write these bytes whole.
    Write(B),
    /// Write no more: the pipe is closed, and the pump ends.
    Close,
    /// End.
    Stop,
}
