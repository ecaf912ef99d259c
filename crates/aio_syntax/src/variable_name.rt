//! Variables by their names.
ghost use Rattle.std.specs.Prelude.{◌≡◌};
ghost use Rattle.std.specs.Rc.{rc_str_bytes};

use std::marker::Model;
use std::rc::RcStr;

/// A variable of a script. Contracts see its name.
#[derive(Drop)]
pub struct VariableName {
    text: RcStr,
}

impl Model for VariableName {
    ghost use Rattle.std.specs.Coded.{coded_list, coded_ℕ};
    ghost use Rattle.std.specs.Rc.{rc_str_bytes};
    ghost use Rattle.model_tree.specs.Syntax as plain;

    ghost Value = { plain.Name };

    ghost coded = { coded_list coded_ℕ };

    ghost view = { λ a. rc_str_bytes a.text };
}

impl VariableName {
    /// The variable of a name.
    pub fn of(text: RcStr) -> VariableName
        ensures { result ≡ rc_str_bytes text }
    {
        VariableName { text }
    }

    /// Its name.
    pub fn text(&self) -> &RcStr
        ensures { rc_str_bytes result.now ≡ self.now }
    {
        &self.text
    }
}
