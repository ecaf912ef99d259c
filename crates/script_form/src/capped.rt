//! What was read of a line, unless it is too high.
ghost use Rattle.std.specs.Prelude.{◌≡◌};
ghost use Rattle.script_form.specs.Capped.{plain_capped};

/// What was read, where it is kept only if its height is at most the greatest.
#[derive(Drop)]
pub enum Capped<T> {
    Fits(T),
    TooHigh,
}

impl<T> Capped<T> {
    /// What was read, if it isn't too high.
    pub fn fits(self) -> Option<T>
        ensures { result ≡ plain_capped self }
    {
        match self {
            Capped::Fits(it) => Some(it),
            Capped::TooHigh => None,
        }
    }
}
