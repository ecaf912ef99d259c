//! What a reader of an expression knows behind some lexemes: what is pending, in
//! each bracket that is open.
ghost use Rattle.std.specs.Prelude.{◌≡◌};
ghost use Rattle.algorithm_reading.specs.Reader.{reading};
ghost use Rattle.algorithm_reading.specs.Feeding.{opening};
ghost use Rattle.script_term_reader.specs.Next.{Arrives};
ghost use Rattle.script_term_reader.specs.Reader.{plain_bracket, plain_progress};

use crate::pending::{Loose, Tight, forget_loose, forget_operand, forget_tight};
use script_term::Operand;
use std::marker::Model;
use std::rc::RcStr;

/// An open bracket, and what was read in it up to the last comma.
#[derive(Drop)]
pub enum Bracket {
    /// `(`
    Group,
    /// `x[`, with x
    Item(Operand),
    /// `[`
    Items(Vec<Operand>),
    /// `NAME(`, with a bare name, if one was read
    Arguments(RcStr, Option<RcStr>, Vec<Operand>),
}

/// An open bracket with what is pending before it.
pub struct Open {
    pub bracket: Bracket,
    pub loose: Loose,
    pub tight: Tight,
}

impl Model for Open {
    ghost use Rattle.algorithm_reading.specs.Reader as plain;
    ghost use Rattle.script_term_reader.specs.ReaderCode.{coded_open};

    ghost Value = { plain.Open };

    ghost coded = { coded_open };

    ghost use Rattle.script_term_reader.specs.Reader.{plain_bracket};

    ghost view = { λ a. record { bracket = plain_bracket a.bracket; loose = a.loose; tight = a.tight } };
}

/// How far the expression has come that is read in the innermost bracket.
pub struct TermProgress {
    pub place: Position,
}

#[derive(Drop)]
pub enum Position {
    /// Nothing stands behind the bracket.
    Start,
    /// Behind a comma, `or`, `and` or `not`: an operand or `not` may stand.
    AtNot(Loose),
    /// Behind another operator: an operand may stand.
    AtOperand(Loose, Tight),
    /// Behind a name: it may be called.
    BehindName(Loose, Tight, RcStr),
    /// Behind any other operand.
    BehindOperand(Loose, Tight, Operand),
    /// Behind `error(`: a bare name may stand.
    AtKind,
    BehindKind(RcStr),
}

impl Model for TermProgress {
    ghost use Rattle.algorithm_reading.specs.Reader as plain;
    ghost use Rattle.script_term_reader.specs.ReaderCode.{coded_progress};

    ghost Value = { plain.TermProgress };

    ghost coded = { coded_progress };

    ghost use Rattle.script_term_reader.specs.Reader.{plain_progress};

    ghost view = { λ a. plain_progress a.place };
}

/// What one lexeme makes of the innermost expression, whatever brackets are open around it.
#[derive(Drop)]
pub enum AfterLexeme {
    /// It goes on in its bracket.
    Goes(TermProgress),
    /// A bracket opens.
    Opens(Open, TermProgress),
    /// It is no expression.
    Fails,
}

/// How far an expression has come.
pub fn at(place: Position) -> TermProgress
    ensures { result ≡ plain_progress place }
{
    TermProgress { place }
}

/// The expression goes on.
pub fn goes(place: Position) -> AfterLexeme
    ensures { Arrives (reading (plain_progress place)) result }
{
    AfterLexeme::Goes(at(place))
}

/// A bracket opens before what is pending.
pub fn opens(bracket: Bracket, loose: Loose, tight: Tight, progress: TermProgress) -> AfterLexeme
    ensures { Arrives (opening (plain_bracket bracket) loose tight progress) result }
{
    AfterLexeme::Opens(before(bracket, loose, tight), progress)
}

/// A bracket with what is pending before it.
pub fn before(bracket: Bracket, loose: Loose, tight: Tight) -> Open
    ensures { result ≡ record { bracket = plain_bracket bracket; loose = loose; tight = tight } }
{
    Open {
        bracket,
        loose,
        tight,
    }
}

// ---- What is let go is taken apart first, so that each part is let go by itself.

impl Drop for Open {
    fn drop(self) {
        let Open {
            bracket,
            loose,
            tight,
        } = self;
        forget_bracket(bracket);
        forget(loose, tight);
    }
}

impl Drop for TermProgress {
    fn drop(self) {
        let TermProgress { place } = self;
        match place {
            Position::Start => {}
            Position::AtNot(loose) => forget_loose(loose),
            Position::AtOperand(loose, tight) => forget(loose, tight),
            Position::BehindName(loose, tight, _name) => forget(loose, tight),
            Position::BehindOperand(loose, tight, operand) => {
                forget_operand(operand);
                forget(loose, tight);
            }
            Position::AtKind => {}
            Position::BehindKind(_kind) => {}
        }
    }
}

impl Open {
    /// The bracket, and what is pending outside of it.
    pub fn parts(self) -> (Bracket, Loose, Tight)
        ensures { self
            ≡ record { bracket = plain_bracket result.0; loose = result.1; tight = result.2 } }
    {
        let Open {
            bracket,
            loose,
            tight,
        } = self;
        (bracket, loose, tight)
    }
}

impl TermProgress {
    /// Where the reading stands.
    pub fn place(self) -> Position
        ensures { self ≡ plain_progress result }
    {
        let TermProgress { place } = self;
        place
    }
}

/// Lets go what is pending.
pub fn forget(loose: Loose, tight: Tight) {
    forget_loose(loose);
    forget_tight(tight);
}

fn forget_bracket(_bracket: Bracket) {}
