//! Expressions.
ghost use Rattle.std.specs.Prelude.{◌≡◌};
ghost use Rattle.model_tree.specs.Syntax.{Or, And, Not, Compare, Calculate, Negate, Index, Literal, Variable, ListOf, Apply, MakeError, exprs};
ghost use Rattle.aio_syntax.specs.Constant.{constant_of};
ghost use Rattle.aio_syntax.specs.ExprCase.{expr_of_case};

use crate::constant::Constant;
use crate::variable_name::VariableName;
use model_tree::{Comparison, Function, Operator};
use model_value::Kind;
use std::marker::Model;

/// An expression over what a variable is: its name in a script, its number in flat code. Contracts
/// see it as plain data over what they see of a variable.
#[cycle(expr)]
#[derive(Drop)]
pub struct ExprOver<V> {
    node: ExprNode<V>,
}

#[cycle(expr)]
#[derive(Drop)]
enum ExprNode<V> {
    Or(Box<ExprOver<V>>, Box<ExprOver<V>>),
    And(Box<ExprOver<V>>, Box<ExprOver<V>>),
    Not(Box<ExprOver<V>>),
    Compare(Comparison, Box<ExprOver<V>>, Box<ExprOver<V>>),
    Calculate(Operator, Box<ExprOver<V>>, Box<ExprOver<V>>),
    Negate(Box<ExprOver<V>>),
    Index(Box<ExprOver<V>>, Box<ExprOver<V>>),
    Literal(Constant),
    Variable(V),
    List(ExprListOver<V>),
    Apply(Function, Box<ExprOver<V>>),
    MakeError(Kind, Box<ExprOver<V>>),
}

/// An expression of a script.
pub type Expr = ExprOver<VariableName>;

/// Expressions in order. Contracts see them as a list.
#[cycle(expr)]
#[derive(Drop)]
pub struct ExprListOver<V> {
    items: Vec<ExprOver<V>>,
}

/// Expressions of a script, in order.
pub type ExprList = ExprListOver<VariableName>;

impl<V> Model for ExprOver<V> {
    ghost use Rattle.model_tree.specs.Syntax as plain;
    ghost use Rattle.aio_syntax.specs.ExprCode.{coded_expr};

    ghost Value = { plain.ExprOver V };

    ghost coded = { coded_expr V.code };

    ghost use Rattle.aio_syntax.specs.ExprSize.{expr_size};
    ghost use Rattle.aio_syntax.specs.Expr.{expr_of};

    ghost view = { λ a. expr_of a.node };

    ghost size = { expr_size };

    ghost use Rattle.aio_syntax.specs.ExprFalls.{node_falls};

    ghost size_decreases = { λ a h. node_falls a.node };
}

impl<V> Model for ExprListOver<V> {
    ghost use Rattle.std.specs.Prelude.{List};
    ghost use Rattle.std.specs.Coded.{coded_list};
    ghost use Rattle.model_tree.specs.Syntax as plain;
    ghost use Rattle.aio_syntax.specs.ExprCode.{coded_expr};

    ghost Value = { List (plain.ExprOver V) };

    ghost coded = { coded_list (coded_expr V.code) };

    ghost use Rattle.aio_syntax.specs.ExprSize.{expr_list_size};

    ghost view = { λ a. a.items.items };

    ghost size = { expr_list_size };

    ghost use Rattle.aio_syntax.specs.ExprFalls.{items_fall};

    ghost size_decreases = { λ a h. items_fall a.items.items };
}

/// The cases of an expression, with its parts lent.
#[derive_where(Clone, Copy)]
pub enum ExprCase<'a, V> {
    Or(&'a ExprOver<V>, &'a ExprOver<V>),
    And(&'a ExprOver<V>, &'a ExprOver<V>),
    Not(&'a ExprOver<V>),
    Compare(Comparison, &'a ExprOver<V>, &'a ExprOver<V>),
    Calculate(Operator, &'a ExprOver<V>, &'a ExprOver<V>),
    Negate(&'a ExprOver<V>),
    Index(&'a ExprOver<V>, &'a ExprOver<V>),
    Literal(&'a Constant),
    Variable(&'a V),
    List(&'a ExprListOver<V>),
    Apply(Function, &'a ExprOver<V>),
    MakeError(Kind, &'a ExprOver<V>),
}

impl<V> ExprOver<V> {
    /// `left or right`.
    pub fn or(left: Box<ExprOver<V>>, right: Box<ExprOver<V>>) -> ExprOver<V>
        ensures { result ≡ Or left.value right.value }
    {
        ExprOver {
            node: ExprNode::Or(left, right),
        }
    }

    /// `left and right`.
    pub fn and(left: Box<ExprOver<V>>, right: Box<ExprOver<V>>) -> ExprOver<V>
        ensures { result ≡ And left.value right.value }
    {
        ExprOver {
            node: ExprNode::And(left, right),
        }
    }

    /// `not operand`.
    pub fn not(operand: Box<ExprOver<V>>) -> ExprOver<V>
        ensures { result ≡ Not operand.value }
    {
        ExprOver {
            node: ExprNode::Not(operand),
        }
    }

    /// `left` and `right`, compared.
    pub fn compare(
        comparison: Comparison,
        left: Box<ExprOver<V>>,
        right: Box<ExprOver<V>>,
    ) -> ExprOver<V>
        ensures { result ≡ Compare comparison left.value right.value }
    {
        ExprOver {
            node: ExprNode::Compare(comparison, left, right),
        }
    }

    /// `left` and `right` under an arithmetic operator.
    pub fn calculate(
        operator: Operator,
        left: Box<ExprOver<V>>,
        right: Box<ExprOver<V>>,
    ) -> ExprOver<V>
        ensures { result ≡ Calculate operator left.value right.value }
    {
        ExprOver {
            node: ExprNode::Calculate(operator, left, right),
        }
    }

    /// `-operand`.
    pub fn negate(operand: Box<ExprOver<V>>) -> ExprOver<V>
        ensures { result ≡ Negate operand.value }
    {
        ExprOver {
            node: ExprNode::Negate(operand),
        }
    }

    /// `sequence[index]`.
    pub fn index(sequence: Box<ExprOver<V>>, index: Box<ExprOver<V>>) -> ExprOver<V>
        ensures { result ≡ Index sequence.value index.value }
    {
        ExprOver {
            node: ExprNode::Index(sequence, index),
        }
    }

    /// A literal, `True`, `False` or `None`.
    pub fn literal(constant: Constant) -> ExprOver<V>
        ensures { result ≡ Literal (constant_of constant) }
    {
        ExprOver {
            node: ExprNode::Literal(constant),
        }
    }

    /// A variable.
    pub fn variable(variable: V) -> ExprOver<V>
        ensures { result ≡ Variable variable }
    {
        ExprOver {
            node: ExprNode::Variable(variable),
        }
    }

    /// `[a, b]`.
    pub fn list(items: ExprListOver<V>) -> ExprOver<V>
        ensures { result ≡ ListOf (exprs items) }
    {
        ExprOver {
            node: ExprNode::List(items),
        }
    }

    /// A function of one argument, called.
    pub fn apply(function: Function, argument: Box<ExprOver<V>>) -> ExprOver<V>
        ensures { result ≡ Apply function argument.value }
    {
        ExprOver {
            node: ExprNode::Apply(function, argument),
        }
    }

    /// `error(KIND, t)`.
    pub fn make_error(kind: Kind, message: Box<ExprOver<V>>) -> ExprOver<V>
        ensures { result ≡ MakeError kind message.value }
    {
        ExprOver {
            node: ExprNode::MakeError(kind, message),
        }
    }

    /// The expression's case, with its parts lent.
    pub fn case(&self) -> ExprCase<'_, V>
        ensures { expr_of_case result ≡ self.now }
    {
        match &self.node {
            ExprNode::Or(left, right) => ExprCase::Or(left, right),
            ExprNode::And(left, right) => ExprCase::And(left, right),
            ExprNode::Not(operand) => ExprCase::Not(operand),
            ExprNode::Compare(comparison, left, right) => ExprCase::Compare(
                *comparison,
                left,
                right,
            ),
            ExprNode::Calculate(operator, left, right) => ExprCase::Calculate(
                *operator, left, right,
            ),
            ExprNode::Negate(operand) => ExprCase::Negate(operand),
            ExprNode::Index(sequence, index) => ExprCase::Index(sequence, index),
            ExprNode::Literal(constant) => ExprCase::Literal(constant),
            ExprNode::Variable(name) => ExprCase::Variable(name),
            ExprNode::List(items) => ExprCase::List(items),
            ExprNode::Apply(function, argument) => ExprCase::Apply(*function, argument),
            ExprNode::MakeError(kind, message) => ExprCase::MakeError(*kind, message),
        }
    }
}

impl<V> ExprListOver<V> {
    /// The expressions of a vector; nothing is copied.
    pub fn of(items: Vec<ExprOver<V>>) -> ExprListOver<V>
        ensures { result ≡ items.items }
    {
        ExprListOver { items }
    }

    /// The expressions in order.
    pub fn items(&self) -> &[ExprOver<V>]
        ensures { result.now ≡ self.now }
    {
        self.items.as_slice()
    }
}
