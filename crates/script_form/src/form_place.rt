//! Where the form of a line may stand.

/// Where a form may stand, as long as nothing is said of nesting.
#[derive(Clone, Copy)]
pub enum FormPlace {
    /// Before all other lines.
    First,
    /// Outside blocks.
    Outside,
    /// In a block.
    Inside,
    /// In a block, and in no `finally`.
    OutsideFinally,
    Anywhere,
}
