//! What a reader knows behind one lexeme more.
ghost use Rattle.std.specs.Prelude.{◌≡◌, [], None, suc, option_map, option_and_then, reverse};
ghost use Rattle.std.specs.Rc.{rc_str_bytes};
ghost use Rattle.model_text.specs.Levels.{atom, constant_of_word};
ghost use Rattle.model_text.specs.Words.{Reserved, Sign};
ghost use Rattle.algorithm_reading.specs.Operands.{Fits};
ghost use Rattle.algorithm_reading.specs.Pending.{behind_and, behind_or};
ghost use Rattle.algorithm_reading.specs.Reader.{Arguments, AtNot, AtOperand, BehindName, BehindOperand, reading};
ghost use Rattle.algorithm_reading.specs.Feeding.{opening, at_operand, at_not, infix_of, behind_infix, at_symbol, behind_operand, first_argument, behind_name, at_kind, fed_within, fed};
ghost use Rattle.script_term.specs.Lexeme.{plain_lexeme};
ghost use Rattle.script_term.specs.Operand.{plain_operand};
ghost use Rattle.script_term_reader.specs.Infix.{plain_infix};
ghost use Rattle.script_term_reader.specs.Made.{Makes};
ghost use Rattle.script_term_reader.specs.Next.{applied, Arrives, Sends, Lands};

use crate::ends::{at_closing, at_comma, named};
use crate::pending::{
    Gained, Loose, Tight, behind_and, behind_compared, behind_minus, behind_not, behind_or,
    behind_product, behind_sum, forget_loose, forget_operand, no_loose, no_tight,
};
use crate::reader::{AfterLexeme, Bracket, Open, Position, TermProgress, at, forget, goes, opens};
use script_term::{Comparison, Constant, Lexeme, Operand, Operator, ReservedWord, Symbol, Term};
use std::alloc::Global;
use std::rc::RcStr;

// ---- where an operand may stand

fn constant_of_word(word: ReservedWord) -> Option<Term>
    ensures { result ≡ constant_of_word word }
{
    match word {
        ReservedWord::TrueValue => Some(Term::constantly(Constant::Bool(true))),
        ReservedWord::FalseValue => Some(Term::constantly(Constant::Bool(false))),
        ReservedWord::NoneValue => Some(Term::constantly(Constant::Nothing)),
        _ => None,
    }
}

/// The expression that one lexeme is.
fn atom(lexeme: &Lexeme) -> Gained<Option<Term>>
    ensures { Makes (λ a. a) (atom (plain_lexeme lexeme.now)) result }
{
    Ok(match lexeme {
        Lexeme::Reserved(word) => constant_of_word(*word),
        Lexeme::Named(name) => Some(Term::variable(name.clone()?)),
        Lexeme::Number(number) => Some(Term::constantly(Constant::Int(*number))),
        Lexeme::Texts(text) => Some(Term::constantly(Constant::Text(text.clone()?))),
        Lexeme::Octets(bytes) => Some(Term::constantly(Constant::Bytes(bytes.clone()?))),
        Lexeme::Sign(_) => None,
    })
}

fn at_operand(alloc: Global, loose: Loose, tight: Tight, lexeme: &Lexeme) -> Gained<AfterLexeme>
    ensures { Sends (λ opened. at_operand loose tight opened (plain_lexeme lexeme.now)) result }
{
    match lexeme {
        Lexeme::Reserved(_) | Lexeme::Number(_) | Lexeme::Texts(_) | Lexeme::Octets(_) =>
            behind_atom(loose, tight, lexeme),
        Lexeme::Named(name) => behind_new_name(loose, tight, name),
        Lexeme::Sign(symbol) => at_operand_sign(alloc, loose, tight, *symbol),
    }
}

fn behind_new_name(loose: Loose, tight: Tight, name: &RcStr) -> Gained<AfterLexeme>
    ensures { Sends (reading (BehindName loose tight (rc_str_bytes name.now))) result }
{
    match name.clone() {
        Ok(name) => Ok(goes(Position::BehindName(loose, tight, name))),
        Err(refused) => {
            forget(loose, tight);
            Err(refused)
        }
    }
}

fn behind_atom(loose: Loose, tight: Tight, lexeme: &Lexeme) -> Gained<AfterLexeme>
    ensures { Sends (λ opened. option_and_then (λ term. reading
        (BehindOperand loose tight (Fits term)) opened) (atom (plain_lexeme lexeme.now))) result }
{
    match atom(lexeme) {
        Ok(Some(term)) => Ok(goes(Position::BehindOperand(loose, tight, Operand::Fits(term)))),
        Ok(None) => {
            forget(loose, tight);
            Ok(AfterLexeme::Fails)
        }
        Err(refused) => {
            forget(loose, tight);
            Err(refused)
        }
    }
}

fn at_operand_sign(alloc: Global, loose: Loose, tight: Tight, symbol: Symbol) -> Gained<AfterLexeme>
    ensures { Sends (λ opened. at_operand loose tight opened (Sign symbol)) result }
{
    match symbol {
        Symbol::Minus => minus(loose, tight),
        Symbol::LeftParenthesis => Ok(opens(Bracket::Group, loose, tight, at(Position::Start))),
        Symbol::LeftBracket => Ok(opens(
            Bracket::Items(Vec::new(alloc)),
            loose,
            tight,
            at(Position::Start),
        )),
        _ => {
            forget(loose, tight);
            Ok(AfterLexeme::Fails)
        }
    }
}

fn minus(loose: Loose, tight: Tight) -> Gained<AfterLexeme>
    ensures { Sends (reading (AtOperand loose (record tight { minuses = suc tight.minuses })))
        result }
{
    match behind_minus(tight) {
        Ok(tight) => Ok(goes(Position::AtOperand(loose, tight))),
        Err(refused) => {
            forget_loose(loose);
            Err(refused)
        }
    }
}

/// Where `not` may stand too.
fn at_not(alloc: Global, loose: Loose, lexeme: &Lexeme) -> Gained<AfterLexeme>
    ensures { Sends (λ opened. at_not loose opened (plain_lexeme lexeme.now)) result }
{
    match lexeme {
        Lexeme::Reserved(ReservedWord::Not) => denial(loose),
        _ => at_operand(alloc, loose, no_tight(), lexeme),
    }
}

fn denial(loose: Loose) -> Gained<AfterLexeme>
    ensures { Sends (reading (AtNot (record loose { nots = suc loose.nots }))) result }
{
    let loose = behind_not(loose)?;
    Ok(goes(Position::AtNot(loose)))
}

// ---- behind an operand

/// It is no expression: what is pending is let go.
fn fails(loose: Loose, tight: Tight, operand: Operand) -> AfterLexeme
    ensures { Arrives (λ opened. None) result }
{
    forget(loose, tight);
    forget_operand(operand);
    AfterLexeme::Fails
}

/// An operator between operands, by its level.
#[derive(Clone, Copy)]
pub enum Infix {
    Compares(Comparison),
    Adds(Operator),
    Multiplies(Operator),
}

fn infix_of(symbol: Symbol) -> Option<Infix>
    ensures { option_map plain_infix result ≡ infix_of symbol }
{
    match symbol {
        Symbol::Equals => Some(Infix::Compares(Comparison::Equal)),
        Symbol::NotEquals => Some(Infix::Compares(Comparison::NotEqual)),
        Symbol::LessThan => Some(Infix::Compares(Comparison::Less)),
        Symbol::LessOrEqual => Some(Infix::Compares(Comparison::LessOrEqual)),
        Symbol::GreaterThan => Some(Infix::Compares(Comparison::Greater)),
        Symbol::GreaterOrEqual => Some(Infix::Compares(Comparison::GreaterOrEqual)),
        Symbol::Plus => Some(Infix::Adds(Operator::Add)),
        Symbol::Minus => Some(Infix::Adds(Operator::Subtract)),
        Symbol::Star => Some(Infix::Multiplies(Operator::Multiply)),
        Symbol::DoubleSlash => Some(Infix::Multiplies(Operator::FloorDivide)),
        Symbol::Percent => Some(Infix::Multiplies(Operator::Remainder)),
        _ => None,
    }
}

fn behind_infix(
    alloc: Global,
    tight: Tight,
    operand: Operand,
    operator: Infix,
) -> Gained<Option<Tight>>
    ensures { Makes (λ a. a) (behind_infix tight (plain_operand operand) (plain_infix operator))
        result }
{
    match operator {
        Infix::Compares(comparison) => behind_compared(alloc, tight, comparison, operand),
        Infix::Adds(operator) => Ok(Some(behind_sum(alloc, tight, operator, operand)?)),
        Infix::Multiplies(operator) => Ok(Some(behind_product(alloc, tight, operator, operand)?)),
    }
}

fn infixed(
    alloc: Global,
    loose: Loose,
    tight: Tight,
    operand: Operand,
    operator: Infix,
) -> Gained<AfterLexeme>
    ensures { Sends (λ opened. option_and_then (λ pending. reading (AtOperand loose pending) opened)
        (behind_infix tight (plain_operand operand) (plain_infix operator))) result }
{
    match behind_infix(alloc, tight, operand, operator) {
        Ok(Some(pending)) => Ok(goes(Position::AtOperand(loose, pending))),
        Ok(None) => {
            forget_loose(loose);
            Ok(AfterLexeme::Fails)
        }
        Err(refused) => {
            forget_loose(loose);
            Err(refused)
        }
    }
}

fn infixed_by(
    alloc: Global,
    loose: Loose,
    tight: Tight,
    operand: Operand,
    symbol: Symbol,
) -> Gained<AfterLexeme>
    ensures { Sends (λ opened. option_and_then (λ pending. reading (AtOperand loose pending) opened)
        (option_and_then (behind_infix tight (plain_operand operand)) (infix_of symbol))) result }
{
    match infix_of(symbol) {
        None => Ok(fails(loose, tight, operand)),
        Some(operator) => infixed(alloc, loose, tight, operand, operator),
    }
}

fn at_symbol(
    alloc: Global,
    loose: Loose,
    tight: Tight,
    operand: Operand,
    symbol: Symbol,
) -> Gained<AfterLexeme>
    ensures { Sends (λ opened. at_symbol loose tight (plain_operand operand) opened symbol) result }
{
    match symbol {
        Symbol::LeftBracket => Ok(opens(Bracket::Item(operand), loose, tight, at(Position::Start))),
        _ => infixed_by(alloc, loose, tight, operand, symbol),
    }
}

fn behind_operand(
    alloc: Global,
    loose: Loose,
    tight: Tight,
    operand: Operand,
    lexeme: &Lexeme,
) -> Gained<AfterLexeme>
    ensures { Sends (λ opened. behind_operand loose tight (plain_operand operand) opened
        (plain_lexeme lexeme.now)) result }
{
    match lexeme {
        Lexeme::Reserved(word) => at_word(alloc, loose, tight, operand, *word),
        Lexeme::Sign(symbol) => at_symbol(alloc, loose, tight, operand, *symbol),
        Lexeme::Named(_) | Lexeme::Number(_) | Lexeme::Texts(_) | Lexeme::Octets(_) => Ok(fails(
            loose, tight, operand,
        )),
    }
}

fn at_word(
    alloc: Global,
    loose: Loose,
    tight: Tight,
    operand: Operand,
    word: ReservedWord,
) -> Gained<AfterLexeme>
    ensures { Sends (λ opened. behind_operand loose tight (plain_operand operand) opened
        (Reserved word)) result }
{
    match word {
        ReservedWord::Or => disjunction(alloc, loose, tight, operand),
        ReservedWord::And => conjunction(alloc, loose, tight, operand),
        _ => Ok(fails(loose, tight, operand)),
    }
}

fn disjunction(alloc: Global, loose: Loose, tight: Tight, operand: Operand) -> Gained<AfterLexeme>
    ensures { Sends (reading (AtNot (behind_or loose tight (plain_operand operand)))) result }
{
    let loose = behind_or(alloc, loose, tight, operand)?;
    Ok(goes(Position::AtNot(loose)))
}

fn conjunction(alloc: Global, loose: Loose, tight: Tight, operand: Operand) -> Gained<AfterLexeme>
    ensures { Sends (reading (AtNot (behind_and loose tight (plain_operand operand)))) result }
{
    let loose = behind_and(alloc, loose, tight, operand)?;
    Ok(goes(Position::AtNot(loose)))
}

/// What may stand as the first argument of a call: a bare name in `error(KIND, t)`.
fn first_argument(name: &str) -> TermProgress
    ensures { result ≡ first_argument name.now }
{
    if name == "error" {
        at(Position::AtKind)
    } else {
        at(Position::Start)
    }
}

fn behind_name(
    alloc: Global,
    loose: Loose,
    tight: Tight,
    name: RcStr,
    lexeme: &Lexeme,
) -> Gained<AfterLexeme>
    ensures { Sends (λ opened. behind_name loose tight (rc_str_bytes name) opened
        (plain_lexeme lexeme.now)) result }
{
    match lexeme {
        Lexeme::Sign(Symbol::LeftParenthesis) => Ok(called(alloc, loose, tight, name)),
        _ => behind_operand(alloc, loose, tight, named(name), lexeme),
    }
}

fn called(alloc: Global, loose: Loose, tight: Tight, name: RcStr) -> AfterLexeme
    ensures { Arrives (opening (Arguments (rc_str_bytes name) None []) loose tight
        (first_argument (rc_str_bytes name))) result }
{
    let progress = first_argument(name.as_str());
    opens(
        Bracket::Arguments(name, None, Vec::new(alloc)),
        loose,
        tight,
        progress,
    )
}

fn at_kind(lexeme: &Lexeme) -> Gained<AfterLexeme>
    ensures { Sends (λ opened. at_kind opened (plain_lexeme lexeme.now)) result }
{
    match lexeme {
        Lexeme::Named(kind) => {
            let kind = kind.clone()?;
            Ok(goes(Position::BehindKind(kind)))
        }
        _ => Ok(AfterLexeme::Fails),
    }
}

// ---- one lexeme more

fn fed_within(alloc: Global, progress: TermProgress, lexeme: &Lexeme) -> Gained<AfterLexeme>
    ensures { Sends (λ opened. fed_within progress opened (plain_lexeme lexeme.now)) result }
{
    match progress.place() {
        Position::Start => at_not(alloc, no_loose(), lexeme),
        Position::AtNot(loose) => at_not(alloc, loose, lexeme),
        Position::AtOperand(loose, tight) => at_operand(alloc, loose, tight, lexeme),
        Position::BehindName(loose, tight, name) => behind_name(alloc, loose, tight, name, lexeme),
        Position::BehindOperand(loose, tight, operand) => behind_operand(
            alloc, loose, tight, operand, lexeme,
        ),
        Position::AtKind => at_kind(lexeme),
        Position::BehindKind(_kind) => Ok(AfterLexeme::Fails),
    }
}

/// The brackets that are open are changed in place.
fn apply(next: AfterLexeme, opened: &mut Vec<Open>) -> Gained<Option<TermProgress>>
    ensures { Lands opened.new.items (applied next (reverse opened.old.items)) result }
{
    match next {
        AfterLexeme::Goes(progress) => Ok(Some(progress)),
        AfterLexeme::Opens(innermost, progress) => {
            opened.push(innermost)?;
            Ok(Some(progress))
        }
        AfterLexeme::Fails => Ok(None),
    }
}

fn within(
    alloc: Global,
    progress: TermProgress,
    opened: &mut Vec<Open>,
    lexeme: &Lexeme,
) -> Gained<Option<TermProgress>>
    ensures { Lands opened.new.items (fed_within progress (reverse opened.old.items)
        (plain_lexeme lexeme.now)) result }
{
    let next = fed_within(alloc, progress, lexeme)?;
    apply(next, opened)
}

/// How far the expression has come behind the lexeme, if it still is one; the brackets that are
/// open are changed in place.
pub fn fed(
    alloc: Global,
    progress: TermProgress,
    opened: &mut Vec<Open>,
    lexeme: &Lexeme,
) -> Gained<Option<TermProgress>>
    ensures { Lands opened.new.items
        (fed (record { progress = progress; opened = reverse opened.old.items })
        (plain_lexeme lexeme.now)) result }
{
    match lexeme {
        Lexeme::Sign(Symbol::Comma) => at_comma(alloc, progress, opened),
        Lexeme::Sign(Symbol::RightParenthesis) => at_closing(
            alloc,
            Symbol::RightParenthesis,
            progress,
            opened,
        ),
        Lexeme::Sign(Symbol::RightBracket) => at_closing(
            alloc,
            Symbol::RightBracket,
            progress,
            opened,
        ),
        _ => within(alloc, progress, opened, lexeme),
    }
}
