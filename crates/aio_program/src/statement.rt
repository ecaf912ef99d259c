//! Statements.
ghost use Rattle.std.specs.Prelude.{◌≡◌, List, option_copied};
ghost use Rattle.std.specs.Rc.{rc_str_bytes};
ghost use Rattle.model_tree.specs.Syntax.{Assign, Yield, YieldFrom, Print, Raise, Return, Pass, If, While, Try, With, exprs, statements, handlers};
ghost use Rattle.aio_program.specs.Target.{plain_target, plain_manager, plain_branch, plain_name};
ghost use Rattle.aio_program.specs.StatementCase.{statement_of_case};

use crate::target::{Manager, Target};
use aio_syntax::{Expr, ExprList};
use model_value::Kind;
use std::marker::Model;
use std::rc::RcStr;

/// A statement. Contracts see it as plain data.
#[cycle(statement)]
#[derive(Drop)]
pub struct Statement {
    node: StatementNode,
}

#[cycle(statement)]
#[derive(Drop)]
enum StatementNode {
    Assign(RcStr, Expr),
    Yield,
    YieldFrom(Option<RcStr>, Target),
    Print(ExprList),
    Raise(Expr),
    Return(Option<Expr>),
    Pass,
    If(Expr, StatementList, Branch),
    While(Expr, StatementList),
    Try(StatementList, Vec<Handler>, Branch),
    With(Manager, RcStr, StatementList),
}

/// The statements of a block, in order. Contracts see them as a list.
#[cycle(statement)]
#[derive(Drop)]
pub struct StatementList {
    items: Vec<Statement>,
}

/// The statements of an `else` or a `finally`, which may be left out.
pub type Branch = Option<StatementList>;

/// `except KIND`, or `except KIND as NAME`, with its statements. Contracts see it as plain data.
#[cycle(statement)]
#[derive(Drop)]
pub struct Handler {
    kind: Kind,
    name: Option<RcStr>,
    body: StatementList,
}

impl Model for Statement {
    ghost use Rattle.model_tree.specs.Syntax as plain;
    ghost use Rattle.aio_program.specs.StatementCode.{coded_statement};

    ghost Value = { plain.Statement };

    ghost coded = { coded_statement };

    ghost use Rattle.aio_program.specs.StatementSize.{statement_size};
    ghost use Rattle.aio_program.specs.Statement.{statement_of};

    ghost view = { λ a. statement_of a.node };

    ghost size = { statement_size };

    ghost use Rattle.aio_program.specs.StatementFalls.{node_falls};

    ghost size_decreases = { λ a h. node_falls a.node };
}

impl Model for StatementList {
    ghost use Rattle.std.specs.Prelude.{List};
    ghost use Rattle.std.specs.Coded.{coded_list};
    ghost use Rattle.model_tree.specs.Syntax as plain;
    ghost use Rattle.aio_program.specs.StatementCode.{coded_statement};

    ghost Value = { List plain.Statement };

    ghost coded = { coded_list coded_statement };

    ghost use Rattle.aio_program.specs.StatementSize.{statement_list_size};

    ghost view = { λ a. a.items.items };

    ghost size = { statement_list_size };

    ghost use Rattle.aio_program.specs.StatementFalls.{items_fall};

    ghost size_decreases = { λ a h. items_fall a.items.items };
}

impl Model for Handler {
    ghost use Rattle.model_tree.specs.Syntax as plain;
    ghost use Rattle.aio_program.specs.StatementCode.{coded_handler};

    ghost Value = { plain.Handler };

    ghost coded = { coded_handler };

    ghost use Rattle.aio_program.specs.StatementSize.{handler_size};
    ghost use Rattle.aio_program.specs.Target.{plain_name};

    ghost view = { λ a. record { kind = a.kind; name = plain_name a.name; body = plain.statements a.body } };

    ghost size = { handler_size };

    ghost use Rattle.aio_program.specs.StatementFalls.{body_falls};

    ghost size_decreases = { λ a h. body_falls a.kind a.name a.body };
}

/// The cases of a statement, with its parts lent.
#[derive(Clone, Copy)]
pub enum StatementCase<'a> {
    Assign(&'a RcStr, &'a Expr),
    Yield,
    YieldFrom(Option<&'a RcStr>, &'a Target),
    Print(&'a ExprList),
    Raise(&'a Expr),
    Return(Option<&'a Expr>),
    Pass,
    If(&'a Expr, &'a StatementList, Option<&'a StatementList>),
    While(&'a Expr, &'a StatementList),
    Try(&'a StatementList, &'a [Handler], Option<&'a StatementList>),
    With(&'a Manager, &'a RcStr, &'a StatementList),
}

impl Statement {
    /// `name = value`.
    pub fn assign(name: RcStr, value: Expr) -> Statement
        ensures { result ≡ Assign (rc_str_bytes name) value }
    {
        Statement {
            node: StatementNode::Assign(name, value),
        }
    }

    /// A bare `yield`.
    pub fn bare_yield() -> Statement
        ensures { result ≡ Yield }
    {
        Statement {
            node: StatementNode::Yield,
        }
    }

    /// `yield from TARGET`, or `NAME = yield from TARGET`.
    pub fn yield_from(into: Option<RcStr>, target: Target) -> Statement
        ensures { result ≡ YieldFrom (plain_name into) (plain_target target) }
    {
        Statement {
            node: StatementNode::YieldFrom(into, target),
        }
    }

    /// `print items`.
    pub fn print(items: ExprList) -> Statement
        ensures { result ≡ Print (exprs items) }
    {
        Statement {
            node: StatementNode::Print(items),
        }
    }

    /// `raise fault`.
    pub fn raise(fault: Expr) -> Statement
        ensures { result ≡ Raise fault }
    {
        Statement {
            node: StatementNode::Raise(fault),
        }
    }

    /// `return value`, or `return`.
    pub fn return_value(value: Option<Expr>) -> Statement
        ensures { result ≡ Return value }
    {
        Statement {
            node: StatementNode::Return(value),
        }
    }

    /// `pass`.
    pub fn pass() -> Statement
        ensures { result ≡ Pass }
    {
        Statement {
            node: StatementNode::Pass,
        }
    }

    /// `if`, with its `else` where there is one.
    pub fn if_else(test: Expr, body: StatementList, otherwise: Branch) -> Statement
        ensures { result ≡ If test (statements body) (plain_branch otherwise) }
    {
        Statement {
            node: StatementNode::If(test, body, otherwise),
        }
    }

    /// `while test`, with its body.
    pub fn while_loop(test: Expr, body: StatementList) -> Statement
        ensures { result ≡ While test (statements body) }
    {
        Statement {
            node: StatementNode::While(test, body),
        }
    }

    /// `try`, with its `except` clauses in order, and its `finally` where there is one.
    pub fn try_except(body: StatementList, clauses: Vec<Handler>, finally: Branch) -> Statement
        ensures { result ≡ Try (statements body) (handlers clauses.items) (plain_branch finally) }
    {
        Statement {
            node: StatementNode::Try(body, clauses, finally),
        }
    }

    /// `with MANAGER as NAME`.
    pub fn with(manager: Manager, name: RcStr, body: StatementList) -> Statement
        ensures { result ≡ With (plain_manager manager) (rc_str_bytes name) (statements body) }
    {
        Statement {
            node: StatementNode::With(manager, name, body),
        }
    }

    /// The statement's case, with its parts lent.
    pub fn case(&self) -> StatementCase<'_>
        ensures { statement_of_case result ≡ self.now }
    {
        match &self.node {
            StatementNode::Assign(name, value) => StatementCase::Assign(name, value),
            StatementNode::Yield => StatementCase::Yield,
            StatementNode::YieldFrom(into, target) => StatementCase::YieldFrom(
                into.as_ref(),
                target,
            ),
            StatementNode::Print(items) => StatementCase::Print(items),
            StatementNode::Raise(fault) => StatementCase::Raise(fault),
            StatementNode::Return(value) => StatementCase::Return(value.as_ref()),
            StatementNode::Pass => StatementCase::Pass,
            StatementNode::If(test, body, otherwise) => StatementCase::If(
                test,
                body,
                otherwise.as_ref(),
            ),
            StatementNode::While(test, body) => StatementCase::While(test, body),
            StatementNode::Try(body, clauses, finally) => {
                StatementCase::Try(body, clauses.as_slice(), finally.as_ref())
            }
            StatementNode::With(manager, name, body) => StatementCase::With(manager, name, body),
        }
    }
}

impl StatementList {
    /// The statements of a vector; nothing is copied.
    pub fn of(items: Vec<Statement>) -> StatementList
        ensures { result ≡ items.items }
    {
        StatementList { items }
    }

    /// The statements in order.
    pub fn items(&self) -> &[Statement]
        ensures { result.now ≡ self.now }
    {
        self.items.as_slice()
    }
}

impl Handler {
    /// `except kind`, or `except kind as name`, with its body.
    pub fn new(kind: Kind, name: Option<RcStr>, body: StatementList) -> Handler
        ensures { result ≡ record { kind = kind; name = plain_name name; body = statements body } }
    {
        Handler { kind, name, body }
    }

    /// The kind that it catches.
    pub fn kind(&self) -> Kind
        ensures { result ≡ self.now.kind }
    {
        self.kind
    }

    /// The variable that the exception is bound to.
    pub fn name(&self) -> Option<&RcStr>
        ensures { plain_name (option_copied result) ≡ self.now.name }
    {
        self.name.as_ref()
    }

    /// Its statements.
    pub fn body(&self) -> &StatementList
        ensures { statements result.now ≡ self.now.body }
    {
        &self.body
    }
}
