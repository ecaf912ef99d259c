/// One of the two pipes that a child writes: its standard output or its standard error.
#[derive(Clone, Copy, PartialEq, Eq)]
pub enum Stream {
    Out,
    Errs,
}
