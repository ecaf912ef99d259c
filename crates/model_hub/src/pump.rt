/// The four pumps of a child.
#[derive(Clone, Copy, PartialEq, Eq)]
pub enum Pump {
    /// Writes its standard input.
    Stdin,
    /// Reads its standard output.
    Out,
    /// Reads its standard error.
    Errs,
    /// Waits for its end.
    Exit,
}
