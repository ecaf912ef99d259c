//! How long a block may last, as a script says it.
ghost use Rattle.std.specs.Prelude.{◌≡◌};
ghost use Rattle.std.specs.Option.{option_map};
ghost use Rattle.model_machine.specs.Arguments.{as_delay as delay_of};
ghost use Rattle.aio_body.specs.Delay.{number_of};

use aio_base::{Value, ValueCase};

/// How long a timeout gives, or till when, in milliseconds; or that it never ends, as None says in
/// `asyncio.timeout`.
#[derive(Clone, Copy)]
pub enum Delay {
    Of(i64),
    Never,
}

impl Delay {
    /// The number, where there is one.
    pub fn number(self) -> Option<i64>
        ensures { result ≡ number_of self }
    {
        match self {
            Delay::Of(number) => Some(number),
            Delay::Never => None,
        }
    }
}

/// An Int, or None.
pub fn as_delay(value: &Value) -> Option<Delay>
    ensures { option_map number_of result ≡ delay_of value.now }
{
    match value.case() {
        ValueCase::Int(number) => Some(Delay::Of(number)),
        ValueCase::Nothing => Some(Delay::Never),
        _ => None,
    }
}
