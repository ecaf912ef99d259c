//! The writer of a connection that is over, in few bytes.
ghost use Rattle.std.specs.Prelude.{◌≡◌};
ghost use Rattle.model_stream.specs.Sending as sending;
ghost use Rattle.aio_flow.specs.Spent.{writer_of};

use crate::marks::marks_of;
use model_stream::Limited;

/// A connection's writer after loss, to which nothing is written any more: its marks, in bytes, and
/// how it was left. It stands for the definitions' `Writer` (`writer_of`).
#[derive(Drop)]
pub struct SpentFlow {
    pub high: u32,
    pub low: u32,
    pub paused: bool,
    pub eof: bool,
}

impl SpentFlow {
    /// Sets the marks, unless they are refused; then those that stood remain.
    #[tactic(auto, using(crate::proofs::Fronts::still_paused))]
    pub fn limits(&mut self, high: Option<i64>, low: Option<i64>) -> Limited
        ensures answer { result ≡ sending.limits_answer high low }
        ensures after { writer_of self.new ≡ sending.limits high low (writer_of self.old) }
    {
        match marks_of(high, low) {
            None => Limited::BadLimits,
            Some((high, low)) => {
                self.high = high as u32;
                self.low = low as u32;
                Limited::Set
            }
        }
    }
}
