//! Where an expression ends, at a comma, a bracket or the end, and what its bracket makes of it.
ghost use Rattle.std.specs.Prelude.{◌≡◌, None, Some, map, option_map, [], ◌∷◌, ◌++◌, reverse};
ghost use Rattle.std.specs.Rc.{rc_str_bytes};
ghost use Rattle.model_text.specs.Words.{Sign};
ghost use Rattle.model_text.specs.Terms.{Variable};
ghost use Rattle.algorithm_reading.specs.Operands.{Fits, list_of, call, call_of};
ghost use Rattle.algorithm_reading.specs.Pending.{disjunction_of};
ghost use Rattle.algorithm_reading.specs.Reader.{Items, Arguments, BehindOperand};
ghost use Rattle.algorithm_reading.specs.Ends.{ended, parted, at_comma, filled, empty, with_kind, whole, closing, at_closing};
ghost use Rattle.script_term.specs.Operand.{plain_operand};
ghost use Rattle.script_term_reader.specs.Closed.{parted_open, closed};
ghost use Rattle.script_term_reader.specs.Made.{Makes};
ghost use Rattle.script_term_reader.specs.Next.{Lands};
ghost use Rattle.script_term_reader.specs.Reader.{plain_bracket};

use crate::pending::{Gained, Loose, Tight, disjunction_of, forget_loose, no_loose};
use crate::reader::{Bracket, Open, Position, TermProgress, at, before, forget};
use script_term::{Join, Operand, Symbol, Term, TermList, all_that_fit, capped, joined};
use std::alloc::Global;
use std::rc::RcStr;

/// The expression that ends here.
pub fn ended(alloc: Global, progress: TermProgress) -> Gained<Option<Operand>>
    ensures { Makes (option_map plain_operand) (ended progress) result }
{
    match progress.place() {
        Position::Start => Ok(None),
        Position::AtNot(loose) => {
            forget_loose(loose);
            Ok(None)
        }
        Position::AtOperand(loose, tight) => {
            forget(loose, tight);
            Ok(None)
        }
        Position::BehindName(loose, tight, name) => ended_by(alloc, loose, tight, named(name)),
        Position::BehindOperand(loose, tight, operand) => ended_by(alloc, loose, tight, operand),
        Position::AtKind => Ok(None),
        Position::BehindKind(_kind) => Ok(None),
    }
}

/// The operand that is a variable.
pub fn named(name: RcStr) -> Operand
    ensures { plain_operand result ≡ Fits (Variable (rc_str_bytes name)) }
{
    Operand::Fits(Term::variable(name))
}

fn ended_by(alloc: Global, loose: Loose, tight: Tight, operand: Operand) -> Gained<Option<Operand>>
    ensures { Makes (option_map plain_operand) (Some
        (disjunction_of loose tight (plain_operand operand))) result }
{
    let made = disjunction_of(alloc, loose, tight, operand)?;
    Ok(Some(made))
}

// ---- commas

/// Behind a comma: what was read in the bracket.
fn parted(alloc: Global, bracket: Bracket, progress: TermProgress) -> Gained<Option<Bracket>>
    ensures { Makes (option_map plain_bracket) (parted (plain_bracket bracket) progress) result }
{
    match bracket {
        Bracket::Group => Ok(None),
        Bracket::Item(_sequence) => Ok(None),
        Bracket::Items(items) => parted_items(alloc, items, progress),
        Bracket::Arguments(name, bare, arguments) => parted_arguments(
            alloc, name, bare, arguments, progress,
        ),
    }
}

fn parted_items(
    alloc: Global,
    items: Vec<Operand>,
    progress: TermProgress,
) -> Gained<Option<Bracket>>
    ensures { Makes (option_map plain_bracket) (parted (Items (map plain_operand items.items))
        progress) result }
{
    let item = ended(alloc, progress)?;
    match item {
        Some(item) => with_last_item(items, item),
        None => Ok(None),
    }
}

fn with_last_item(items: Vec<Operand>, item: Operand) -> Gained<Option<Bracket>>
    ensures { Makes (option_map plain_bracket) (Some
        (Items (map plain_operand items.items ++ plain_operand item ∷ []))) result }
{
    let items = with_last(items, item)?;
    Ok(Some(Bracket::Items(items)))
}

fn parted_arguments(
    alloc: Global,
    name: RcStr,
    bare: Option<RcStr>,
    arguments: Vec<Operand>,
    progress: TermProgress,
) -> Gained<Option<Bracket>>
    ensures { Makes (option_map plain_bracket) (parted
        (Arguments (rc_str_bytes name) (option_map rc_str_bytes bare)
        (map plain_operand arguments.items)) progress) result }
{
    match progress.place() {
        Position::Start => Ok(None),
        Position::AtNot(loose) => {
            forget_loose(loose);
            Ok(None)
        }
        Position::AtOperand(loose, tight) => {
            forget(loose, tight);
            Ok(None)
        }
        Position::BehindName(loose, tight, argument) => {
            let argument = named(argument);
            with_argument(alloc, name, bare, arguments, loose, tight, argument)
        }
        Position::BehindOperand(loose, tight, argument) => with_argument(
            alloc, name, bare, arguments, loose, tight, argument,
        ),
        Position::AtKind => Ok(None),
        Position::BehindKind(kind) => Ok(Some(Bracket::Arguments(
            name,
            Some(kind),
            Vec::new(alloc),
        ))),
    }
}

fn with_argument(
    alloc: Global,
    name: RcStr,
    bare: Option<RcStr>,
    arguments: Vec<Operand>,
    loose: Loose,
    tight: Tight,
    argument: Operand,
) -> Gained<Option<Bracket>>
    ensures { Makes (option_map plain_bracket) (Some
        (Arguments (rc_str_bytes name) (option_map rc_str_bytes bare)
        (map plain_operand arguments.items ++ disjunction_of loose tight (plain_operand argument)
        ∷ []))) result }
{
    let argument = disjunction_of(alloc, loose, tight, argument)?;
    let arguments = with_last(arguments, argument)?;
    Ok(Some(Bracket::Arguments(name, bare, arguments)))
}

fn with_last(items: Vec<Operand>, last: Operand) -> Gained<Vec<Operand>>
    ensures { Makes (λ more. map plain_operand more.items)
        (map plain_operand items.items ++ plain_operand last ∷ []) result }
{
    let mut items = items;
    items.push(last)?;
    Ok(items)
}

/// How far the expression has come behind a comma, if one may stand.
pub fn at_comma(
    alloc: Global,
    progress: TermProgress,
    opened: &mut Vec<Open>,
) -> Gained<Option<TermProgress>>
    ensures { Lands opened.new.items (at_comma progress (reverse opened.old.items)) result }
{
    match opened.pop() {
        None => Ok(None),
        Some(innermost) => comma_within(alloc, innermost, progress, opened),
    }
}

fn comma_within(
    alloc: Global,
    innermost: Open,
    progress: TermProgress,
    opened: &mut Vec<Open>,
) -> Gained<Option<TermProgress>>
    ensures { Lands opened.new.items (at_comma progress (innermost ∷ reverse opened.old.items))
        result }
{
    match parted_open(alloc, innermost, progress)? {
        Some(innermost) => {
            opened.push(innermost)?;
            Ok(Some(at(Position::AtNot(no_loose()))))
        }
        None => Ok(None),
    }
}

fn parted_open(alloc: Global, innermost: Open, progress: TermProgress) -> Gained<Option<Open>>
    ensures { Makes (λ a. a) (parted_open innermost progress) result }
{
    let (bracket, loose, tight) = innermost.parts();
    match parted(alloc, bracket, progress) {
        Ok(Some(bracket)) => Ok(Some(before(bracket, loose, tight))),
        Ok(None) => {
            forget(loose, tight);
            Ok(None)
        }
        Err(refused) => {
            forget(loose, tight);
            Err(refused)
        }
    }
}

// ---- closing brackets

/// `[a, b]`.
fn list_of(alloc: Global, items: Vec<Operand>) -> Gained<Operand>
    ensures { Makes plain_operand (list_of (map plain_operand items.items)) result }
{
    match all_that_fit(alloc, items)? {
        Some(items) => Ok(capped(Term::list(TermList::of(items)))),
        None => Ok(Operand::TooHigh),
    }
}

/// `NAME(a, b)`.
fn call_of(
    alloc: Global,
    name: RcStr,
    bare: Option<RcStr>,
    arguments: Vec<Operand>,
) -> Gained<Operand>
    ensures { Makes plain_operand (call_of (rc_str_bytes name) (option_map rc_str_bytes bare)
        (map plain_operand arguments.items)) result }
{
    match all_that_fit(alloc, arguments)? {
        Some(arguments) => Ok(capped(call(alloc, name, bare, arguments))),
        None => Ok(Operand::TooHigh),
    }
}

fn call(alloc: Global, name: RcStr, bare: Option<RcStr>, arguments: Vec<Term>) -> Term
    ensures { result ≡ call (rc_str_bytes name) (option_map rc_str_bytes bare) arguments.items }
{
    let none = TermList::of(Vec::new(alloc));
    let arguments = TermList::of(arguments);
    match bare {
        None => Term::called(name, arguments, None, none),
        Some(bare) => Term::called(name, none, Some(bare), arguments),
    }
}

/// The operand that a bracket makes with the last expression in it.
fn filled(alloc: Global, bracket: Bracket, operand: Operand) -> Gained<Operand>
    ensures { Makes plain_operand (filled (plain_bracket bracket) (plain_operand operand)) result }
{
    match bracket {
        Bracket::Group => Ok(operand),
        Bracket::Item(sequence) => joined(alloc, Join::Index, sequence, operand),
        Bracket::Items(items) => list_with(alloc, items, operand),
        Bracket::Arguments(name, bare, arguments) => call_with(
            alloc, name, bare, arguments, operand,
        ),
    }
}

fn list_with(alloc: Global, items: Vec<Operand>, last: Operand) -> Gained<Operand>
    ensures { Makes plain_operand (list_of (map plain_operand items.items ++ plain_operand last
        ∷ [])) result }
{
    let items = with_last(items, last)?;
    let made = list_of(alloc, items)?;
    Ok(made)
}

fn call_with(
    alloc: Global,
    name: RcStr,
    bare: Option<RcStr>,
    arguments: Vec<Operand>,
    last: Operand,
) -> Gained<Operand>
    ensures { Makes plain_operand (call_of (rc_str_bytes name) (option_map rc_str_bytes bare)
        (map plain_operand arguments.items ++ plain_operand last ∷ [])) result }
{
    let arguments = with_last(arguments, last)?;
    let made = call_of(alloc, name, bare, arguments)?;
    Ok(made)
}

/// The operand that a bracket makes with nothing in it.
fn empty(alloc: Global, bracket: Bracket) -> Gained<Option<Operand>>
    ensures { Makes (option_map plain_operand) (empty (plain_bracket bracket)) result }
{
    match bracket {
        Bracket::Group => Ok(None),
        Bracket::Item(_sequence) => Ok(None),
        Bracket::Items(items) => closed_list(alloc, items),
        Bracket::Arguments(name, bare, arguments) => closed_call(alloc, name, bare, arguments),
    }
}

fn closed_list(alloc: Global, items: Vec<Operand>) -> Gained<Option<Operand>>
    ensures { Makes (option_map plain_operand) (Some (list_of (map plain_operand items.items)))
        result }
{
    let made = list_of(alloc, items)?;
    Ok(Some(made))
}

fn closed_call(
    alloc: Global,
    name: RcStr,
    bare: Option<RcStr>,
    arguments: Vec<Operand>,
) -> Gained<Option<Operand>>
    ensures { Makes (option_map plain_operand) (Some
        (call_of (rc_str_bytes name) (option_map rc_str_bytes bare)
        (map plain_operand arguments.items))) result }
{
    let made = call_of(alloc, name, bare, arguments)?;
    Ok(Some(made))
}

/// The operand that a call makes with a bare name alone, or with nothing in its place.
fn with_kind(alloc: Global, kind: Option<RcStr>, bracket: Bracket) -> Gained<Option<Operand>>
    ensures { Makes (option_map plain_operand) (with_kind (option_map rc_str_bytes kind)
        (plain_bracket bracket)) result }
{
    match bracket {
        Bracket::Group => Ok(None),
        Bracket::Item(_sequence) => Ok(None),
        Bracket::Items(_items) => Ok(None),
        Bracket::Arguments(name, _bare, _arguments) => closed_call(
            alloc,
            name,
            kind,
            Vec::new(alloc),
        ),
    }
}

/// The operand that a bracket makes if it closes here.
fn whole(alloc: Global, bracket: Bracket, progress: TermProgress) -> Gained<Option<Operand>>
    ensures { Makes (option_map plain_operand) (whole (plain_bracket bracket) progress) result }
{
    match progress.place() {
        Position::Start => empty(alloc, bracket),
        Position::AtNot(loose) => {
            forget_loose(loose);
            Ok(unfinished(bracket))
        }
        Position::AtOperand(loose, tight) => {
            forget(loose, tight);
            Ok(unfinished(bracket))
        }
        Position::BehindName(loose, tight, name) => {
            let operand = named(name);
            filled_by(alloc, bracket, loose, tight, operand)
        }
        Position::BehindOperand(loose, tight, operand) => filled_by(
            alloc, bracket, loose, tight, operand,
        ),
        Position::AtKind => with_kind(alloc, None, bracket),
        Position::BehindKind(kind) => with_kind(alloc, Some(kind), bracket),
    }
}

/// No bracket closes where an operand is still to come.
fn unfinished(_bracket: Bracket) -> Option<Operand>
    ensures { option_map plain_operand result ≡ None }
{
    None
}

fn filled_by(
    alloc: Global,
    bracket: Bracket,
    loose: Loose,
    tight: Tight,
    operand: Operand,
) -> Gained<Option<Operand>>
    ensures { Makes (option_map plain_operand) (Some
        (filled (plain_bracket bracket) (disjunction_of loose tight (plain_operand operand))))
        result }
{
    let operand = disjunction_of(alloc, loose, tight, operand)?;
    let made = filled(alloc, bracket, operand)?;
    Ok(Some(made))
}

fn closing(bracket: &Bracket) -> Symbol
    ensures { result ≡ closing (plain_bracket bracket.now) }
{
    match bracket {
        Bracket::Group | Bracket::Arguments(_, _, _) => Symbol::RightParenthesis,
        Bracket::Item(_) | Bracket::Items(_) => Symbol::RightBracket,
    }
}

/// How far the expression has come behind a closing bracket, if it may stand.
pub fn at_closing(
    alloc: Global,
    symbol: Symbol,
    progress: TermProgress,
    opened: &mut Vec<Open>,
) -> Gained<Option<TermProgress>>
    ensures { Lands opened.new.items (at_closing (Sign symbol) progress (reverse opened.old.items))
        result }
{
    match opened.pop() {
        None => Ok(None),
        Some(innermost) => closed(alloc, symbol, innermost, progress),
    }
}

fn closed(
    alloc: Global,
    symbol: Symbol,
    innermost: Open,
    progress: TermProgress,
) -> Gained<Option<TermProgress>>
    ensures { Makes (λ a. a) (closed (Sign symbol) progress innermost) result }
{
    if closing(&innermost.bracket) != symbol {
        return Ok(None);
    }
    closed_by(alloc, innermost, progress)
}

fn closed_by(alloc: Global, innermost: Open, progress: TermProgress) -> Gained<Option<TermProgress>>
    ensures { Makes (λ a. a) (option_map (λ operand. BehindOperand innermost.loose innermost.tight
        operand) (whole innermost.bracket progress)) result }
{
    let (bracket, loose, tight) = innermost.parts();
    match whole(alloc, bracket, progress) {
        Ok(Some(operand)) => Ok(Some(at(Position::BehindOperand(loose, tight, operand)))),
        Ok(None) => {
            forget(loose, tight);
            Ok(None)
        }
        Err(refused) => {
            forget(loose, tight);
            Err(refused)
        }
    }
}
