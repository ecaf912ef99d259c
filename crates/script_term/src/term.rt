//! Expressions before any name is looked up.
ghost use Rattle.std.specs.Prelude.{◌≡◌, min, max, suc, option_map};
ghost use Rattle.std.specs.Rc.{rc_str_bytes};
ghost use Rattle.model_text.specs.Terms.{Or, And, Not, Compare, Calculate, Negate, Index, Constantly, Variable, ListOf, Called, terms, height, height_of_all};
ghost use Rattle.aio_syntax.specs.Constant.{constant_of};
ghost use Rattle.script_term.specs.TermCase.{term_of_case};

use aio_syntax::Constant;
use model_tree::{Comparison, Operator};
use std::marker::Model;
use std::rc::RcStr;

/// An expression whose names are not looked up. Contracts see it as plain data. It knows its
/// height, up to 255.
#[cycle(term)]
#[derive(Drop)]
pub struct Term {
    known_height: u8,
    node: TermNode,
}

#[cycle(term)]
#[derive(Drop)]
enum TermNode {
    Or(Box<Term>, Box<Term>),
    And(Box<Term>, Box<Term>),
    Not(Box<Term>),
    Compare(Comparison, Box<Term>, Box<Term>),
    Calculate(Operator, Box<Term>, Box<Term>),
    Negate(Box<Term>),
    Index(Box<Term>, Box<Term>),
    Constantly(Constant),
    Variable(RcStr),
    List(TermList),
    Called(RcStr, TermList, Option<RcStr>, TermList),
}

/// Expressions in order. Contracts see them as a list.
#[cycle(term)]
#[derive(Drop)]
pub struct TermList {
    known_height: u8,
    items: Vec<Term>,
}

impl Model for Term {
    ghost use Rattle.std.specs.Prelude.{◌≡◌, min};
    ghost use Rattle.model_text.specs.Terms as plain;
    ghost use Rattle.model_text.specs.Terms.{height};
    ghost use Rattle.script_term.specs.TermCode.{coded_term};

    ghost Value = { plain.Term };

    ghost coded = { coded_term };

    ghost use Rattle.script_term.specs.TermSize.{term_size};
    ghost use Rattle.script_term.specs.Term.{plain_term};

    ghost view = { λ a. plain_term a.node };

    ghost invariant = { λ a. a.known_height ≡ min (height (plain_term a.node)) 255 };

    ghost size = { term_size };

    ghost use Rattle.script_term.specs.TermFalls.{node_falls};

    ghost size_decreases = { λ a h. node_falls a.node };
}

impl Model for TermList {
    ghost use Rattle.std.specs.Prelude.{◌≡◌, min, List};
    ghost use Rattle.std.specs.Coded.{coded_list};
    ghost use Rattle.model_text.specs.Terms as plain;
    ghost use Rattle.model_text.specs.Terms.{terms, height_of_all};
    ghost use Rattle.script_term.specs.TermCode.{coded_term};

    ghost Value = { List plain.Term };

    ghost coded = { coded_list coded_term };

    ghost use Rattle.script_term.specs.TermSize.{term_list_size};

    ghost view = { λ a. a.items.items };

    ghost invariant = { λ a. a.known_height ≡ min (height_of_all (terms a.items.items)) 255 };

    ghost size = { term_list_size };

    ghost use Rattle.script_term.specs.TermFalls.{items_fall};

    ghost size_decreases = { λ a h. items_fall a.items.items };
}

/// The cases of an expression, with its parts lent.
#[derive(Clone, Copy)]
pub enum TermCase<'a> {
    Or(&'a Term, &'a Term),
    And(&'a Term, &'a Term),
    Not(&'a Term),
    Compare(Comparison, &'a Term, &'a Term),
    Calculate(Operator, &'a Term, &'a Term),
    Negate(&'a Term),
    Index(&'a Term, &'a Term),
    Constantly(&'a Constant),
    Variable(&'a RcStr),
    List(&'a TermList),
    /// The name, the arguments before a bare name, that name, and the arguments after it.
    Called(&'a RcStr, &'a TermList, &'a Option<RcStr>, &'a TermList),
}

impl Term {
    /// `left or right`.
    pub fn or(left: Box<Term>, right: Box<Term>) -> Term
        ensures { result ≡ Or left.value right.value }
    {
        Term {
            known_height: above(left.height(), right.height()),
            node: TermNode::Or(left, right),
        }
    }

    /// `left and right`.
    pub fn and(left: Box<Term>, right: Box<Term>) -> Term
        ensures { result ≡ And left.value right.value }
    {
        Term {
            known_height: above(left.height(), right.height()),
            node: TermNode::And(left, right),
        }
    }

    /// `not operand`.
    pub fn not(operand: Box<Term>) -> Term
        ensures { result ≡ Not operand.value }
    {
        Term {
            known_height: above(operand.height(), 0),
            node: TermNode::Not(operand),
        }
    }

    /// `left` and `right`, compared.
    pub fn compare(comparison: Comparison, left: Box<Term>, right: Box<Term>) -> Term
        ensures { result ≡ Compare comparison left.value right.value }
    {
        Term {
            known_height: above(left.height(), right.height()),
            node: TermNode::Compare(comparison, left, right),
        }
    }

    /// `left` and `right` under an arithmetic operator.
    pub fn calculate(operator: Operator, left: Box<Term>, right: Box<Term>) -> Term
        ensures { result ≡ Calculate operator left.value right.value }
    {
        Term {
            known_height: above(left.height(), right.height()),
            node: TermNode::Calculate(operator, left, right),
        }
    }

    /// `-operand`.
    pub fn negate(operand: Box<Term>) -> Term
        ensures { result ≡ Negate operand.value }
    {
        Term {
            known_height: above(operand.height(), 0),
            node: TermNode::Negate(operand),
        }
    }

    /// `sequence[index]`.
    pub fn index(sequence: Box<Term>, index: Box<Term>) -> Term
        ensures { result ≡ Index sequence.value index.value }
    {
        Term {
            known_height: above(sequence.height(), index.height()),
            node: TermNode::Index(sequence, index),
        }
    }

    /// A literal, `True`, `False` or `None`.
    pub fn constantly(constant: Constant) -> Term
        ensures { result ≡ Constantly (constant_of constant) }
    {
        Term {
            known_height: 1,
            node: TermNode::Constantly(constant),
        }
    }

    /// A variable by its name.
    pub fn variable(name: RcStr) -> Term
        ensures { result ≡ Variable (rc_str_bytes name) }
    {
        Term {
            known_height: 1,
            node: TermNode::Variable(name),
        }
    }

    /// `[a, b]`.
    pub fn list(items: TermList) -> Term
        ensures { result ≡ ListOf (terms items) }
    {
        Term {
            known_height: above(items.height(), 0),
            node: TermNode::List(items),
        }
    }

    /// `NAME(a, BARE, b)`.
    pub fn called(name: RcStr, before: TermList, bare: Option<RcStr>, after: TermList) -> Term
        ensures { result
            ≡ Called (rc_str_bytes name) (terms before) (option_map rc_str_bytes bare)
            (terms after) }
    {
        Term {
            known_height: above(before.height(), after.height()),
            node: TermNode::Called(name, before, bare, after),
        }
    }

    /// The height, or 255 where it is greater.
    pub fn height(&self) -> u8
        ensures { result ≡ min (height self.now) 255 }
    {
        self.known_height
    }

    /// The expression's case, with its parts lent.
    pub fn case(&self) -> TermCase<'_>
        ensures { term_of_case result ≡ self.now }
    {
        match &self.node {
            TermNode::Or(left, right) => TermCase::Or(left, right),
            TermNode::And(left, right) => TermCase::And(left, right),
            TermNode::Not(operand) => TermCase::Not(operand),
            TermNode::Compare(comparison, left, right) => TermCase::Compare(
                *comparison,
                left,
                right,
            ),
            TermNode::Calculate(operator, left, right) => TermCase::Calculate(
                *operator, left, right,
            ),
            TermNode::Negate(operand) => TermCase::Negate(operand),
            TermNode::Index(sequence, index) => TermCase::Index(sequence, index),
            TermNode::Constantly(constant) => TermCase::Constantly(constant),
            TermNode::Variable(name) => TermCase::Variable(name),
            TermNode::List(items) => TermCase::List(items),
            TermNode::Called(name, before, bare, after) => TermCase::Called(
                name, before, bare, after,
            ),
        }
    }
}

/// The height above parts of these heights.
fn above(left: u8, right: u8) -> u8
    ensures { result ≡ min (suc (max left right)) 255 }
{
    left.max(right).saturating_add(1)
}

impl TermList {
    /// The terms of a vector; nothing is copied.
    pub fn of(items: Vec<Term>) -> TermList
        ensures { result ≡ items.items }
    {
        TermList {
            known_height: greatest(items.as_slice()),
            items,
        }
    }

    /// The greatest height of an item, or 255 where it is greater, and 0 where there are none.
    pub fn height(&self) -> u8
        ensures { result ≡ min (height_of_all (terms self.now)) 255 }
    {
        self.known_height
    }

    /// The terms in order.
    pub fn items(&self) -> &[Term]
        ensures { result.now ≡ self.now }
    {
        self.items.as_slice()
    }
}

/// The greatest height of an item.
fn greatest(items: &[Term]) -> u8
    ensures { result ≡ min (height_of_all (terms items.now)) 255 }
{
    let mut height = 0;
    for item in items {
        height = item.height().max(height);
    }
    height
}
