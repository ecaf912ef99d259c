//! A reader that holds nothing, in few bytes.

/// A reader with a limit of 65,536 bytes that holds none and did not fail: whether the end came, and
/// whether no more is received for now. It stands for the definitions' `Reading` (`reading_of`).
#[derive(Drop)]
pub struct BareReader {
    pub eof: bool,
    pub paused: bool,
}
