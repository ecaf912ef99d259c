//! Coroutines and programs.
ghost use Rattle.std.specs.Prelude.{◌≡◌, map};
ghost use Rattle.std.specs.Rc.{rc_str_bytes};
ghost use Rattle.model_tree.specs.Syntax.{statements};

use crate::statement::StatementList;
use std::marker::Model;
use std::rc::RcStr;

/// `def NAME(NAME, ..)`. Contracts see it as plain data.
#[derive(Drop)]
pub struct Coroutine {
    name: RcStr,
    parameters: Vec<RcStr>,
    body: StatementList,
}

impl Model for Coroutine {
    ghost use Rattle.std.specs.Prelude.{map};
    ghost use Rattle.std.specs.Rc.{rc_str_bytes};
    ghost use Rattle.model_tree.specs.Syntax as plain;
    ghost use Rattle.aio_program.specs.StatementCode.{coded_coroutine};

    ghost Value = { plain.Coroutine };

    ghost coded = { coded_coroutine };

    ghost view = { λ a. record { name = rc_str_bytes a.name; parameters = map rc_str_bytes a.parameters.items; body = plain.statements a.body } };
}

/// A script that was read. Contracts see it as plain data.
#[derive(Drop)]
pub struct Program {
    profile: u64,
    coroutines: Vec<Coroutine>,
}

impl Model for Program {
    ghost use Rattle.model_tree.specs.Syntax as plain;
    ghost use Rattle.aio_program.specs.StatementCode.{coded_program};

    ghost Value = { plain.Program };

    ghost coded = { coded_program };

    ghost view = { λ a. record { profile = a.profile; coroutines = a.coroutines.items } };
}

impl Coroutine {
    /// A coroutine of its parts.
    pub fn new(name: RcStr, parameters: Vec<RcStr>, body: StatementList) -> Coroutine
        ensures { result ≡ record {
          name = rc_str_bytes name;
          parameters = map rc_str_bytes parameters.items;
          body = statements body;
        } }
    {
        Coroutine {
            name,
            parameters,
            body,
        }
    }

    /// Its name.
    pub fn name(&self) -> &RcStr
        ensures { rc_str_bytes result.now ≡ self.now.name }
    {
        &self.name
    }

    /// The names of its parameters in order.
    pub fn parameters(&self) -> &[RcStr]
        ensures { map rc_str_bytes result.now ≡ self.now.parameters }
    {
        self.parameters.as_slice()
    }

    /// Its statements.
    pub fn body(&self) -> &StatementList
        ensures { statements result.now ≡ self.now.body }
    {
        &self.body
    }
}

impl Program {
    /// A program of its coroutines, in order.
    pub fn new(profile: u64, coroutines: Vec<Coroutine>) -> Program
        ensures { result ≡ record { profile = profile; coroutines = coroutines.items } }
    {
        Program {
            profile,
            coroutines,
        }
    }

    /// The number of the line `profile`, or 1 without one.
    pub fn profile(&self) -> u64
        ensures { result ≡ self.now.profile }
    {
        self.profile
    }

    /// The coroutines in order. Their places are counted from 0.
    pub fn coroutines(&self) -> &[Coroutine]
        ensures { result.now ≡ self.now.coroutines }
    {
        self.coroutines.as_slice()
    }
}
