//! What an answer says to one who opens something.
ghost use Rattle.std.specs.Prelude.{◌≡◌};
ghost use Rattle.model_stream.specs.Answers as plain;

use aio_wire::Answer;

/// Whether there is a connection.
pub fn is_conn(answer: &Answer) -> bool
    ensures { result ≡ plain.is_conn answer.now }
{
    match answer {
        Answer::Conn => true,
        Answer::Again => false,
        Answer::Broken => false,
        Answer::Refused => false,
        Answer::Turn { now: _, items: _ } => false,
        Answer::Done => false,
        Answer::Data(_) => false,
        Answer::Eof => false,
        Answer::Took(_) => false,
        Answer::Child => false,
        Answer::Extra(_) => false,
    }
}

/// An answer is let go.
pub fn forget_answer(_answer: Answer) {}
