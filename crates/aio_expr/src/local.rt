//! Variables by their numbers.
ghost use Rattle.std.specs.Prelude.{◌≡◌};
ghost use Rattle.algorithm_locals.specs.Numbered.{local};

use std::marker::Model;

/// A variable of a coroutine, by its number: its place among them, from 0. Contracts see a name,
/// which is that number alone.
#[derive(Clone, Copy)]
pub struct Local {
    number: usize,
}

impl Model for Local {
    ghost use Rattle.std.specs.Prelude.{slice_index_or};
    ghost use Rattle.std.specs.Coded.{coded_list, coded_ℕ};
    ghost use Rattle.model_tree.specs.Syntax as plain;
    ghost use Rattle.algorithm_locals.specs.Numbered.{local};

    ghost Value = { plain.Name };

    ghost coded = { coded_list coded_ℕ };

    ghost view = { λ a. local a.number };

    ghost inverse = { λ name. record { number = slice_index_or name 0 0 } };
}

impl Local {
    /// The variable of a number, counted from 0 in its coroutine.
    pub fn of(number: usize) -> Local
        ensures { result ≡ local number }
    {
        Local { number }
    }

    /// Its number.
    pub fn number(self) -> usize
        ensures { local result ≡ self }
    {
        self.number
    }
}
