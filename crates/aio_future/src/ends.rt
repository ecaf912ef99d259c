//! The outcomes that most futures have.
ghost use Rattle.std.specs.Prelude.{◌≡◌};
ghost use Rattle.model_value.specs.Value.{Nothing};
ghost use Rattle.model_value.specs.declared.outcome.Outcome.TheVariants as ending;

use aio_base::{Outcome, Value};

/// None, and that the future was cancelled. Whoever asks for an outcome is lent one of these where
/// the future has no room of its own.
#[derive(Drop)]
pub struct Ends {
    returned: Outcome,
    cancelled: Outcome,
    ghost right: { (returned ≡ ending.Value Nothing) × (cancelled ≡ ending.Cancelled) },
}

impl Ends {
    /// Both; takes no memory.
    pub fn new() -> Ends {
        Ends {
            returned: Outcome::Value(Value::nothing()),
            cancelled: Outcome::Cancelled,
        }
    }

    /// None.
    pub fn returned(&self) -> &Outcome
        ensures { result.now ≡ ending.Value Nothing }
    {
        &self.returned
    }

    /// It was cancelled.
    pub fn cancelled(&self) -> &Outcome
        ensures { result.now ≡ ending.Cancelled }
    {
        &self.cancelled
    }
}
