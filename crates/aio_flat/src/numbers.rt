//! The variables of a coroutine by their names.
ghost use Rattle.std.specs.Prelude.{◌≡◌, IfOk, length};
ghost use Rattle.algorithm_locals.specs.Numbered.{number_of, numbered_name};
ghost use Rattle.aio_flat.specs.Numbers.{HasNumbers};

use crate::name::Name;
use aio_base::Memory;
use aio_expr::Local;
use std::alloc::{AllocError, Global};
use std::collections::BTreeMap;
use std::marker::Model;

/// The numbers of a coroutine's variables. Contracts see their names, in order.
#[derive(Drop)]
pub struct Numbers<'v> {
    names: &'v [Name],
    count: usize,
    /// The number of the first variable of each name.
    numbers: BTreeMap<&'v str, usize>,
}

impl<'v> Model for Numbers<'v> {
    ghost use Rattle.std.specs.Prelude.{◌≡◌, List, length};
    ghost use Rattle.std.specs.Coded.{coded_list, coded_ℕ};
    ghost use Rattle.model_tree.specs.Syntax as plain;

    ghost Value = { List plain.Name };

    ghost coded = { coded_list (coded_list coded_ℕ) };

    ghost use Rattle.aio_flat.specs.Numbers.{HasNumbers};

    ghost view = { λ a. a.names.now };

    ghost invariant = { λ a. HasNumbers a.numbers a.count 0 a.names.now
        × (a.count ≡ length a.names.now) };
}

impl<'v> Numbers<'v> {
    /// The numbers of these names, by their places.
    pub fn new(alloc: Global, names: &'v [Name]) -> Result<Numbers<'v>, Memory>
        ensures { IfOk result (λ numbers. numbers ≡ names.now) }
    {
        Ok(Numbers {
            names,
            count: names.len(),
            numbers: numbers_in(alloc, names)?,
        })
    }

    /// How many variables there are.
    pub fn count(&self) -> usize
        ensures { result ≡ length self.now }
    {
        self.count
    }

    /// The first variable of this name, or the number past the last where there is none.
    pub fn local_of(&self, name: &str) -> Local
        ensures { result ≡ numbered_name self.now name.now }
    {
        Local::of(self.number_of(name))
    }

    fn number_of(&self, name: &str) -> usize
        ensures { result ≡ number_of self.now name.now }
    {
        self.numbers.get(name).copied().unwrap_or(self.count)
    }
}

fn numbers_in<'v>(alloc: Global, names: &'v [Name]) -> Result<BTreeMap<&'v str, usize>, AllocError>
    ensures { IfOk result (λ numbers. HasNumbers numbers (length names.now) 0 names.now) }
{
    let mut numbers = BTreeMap::new(alloc);
    let mut at = names.len();
    while at > 0 {
        at -= 1;
        numbers.insert(names[at].as_str(), at)?;
    }
    Ok(numbers)
}
