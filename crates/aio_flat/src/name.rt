//! Names.
ghost use Rattle.std.specs.Prelude.{◌≡◌};
ghost use Rattle.std.specs.Rc.{rc_str_bytes};

use std::alloc::AllocError;
use std::marker::Model;
use std::rc::RcStr;

/// A name, whose copies share its text. Contracts see its bytes.
#[derive(Drop)]
pub struct Name {
    text: RcStr,
}

impl Model for Name {
    ghost use Rattle.std.specs.Rc.{rc_str_bytes};
    ghost use Rattle.std.specs.Coded.{coded_list, coded_ℕ};
    ghost use Rattle.model_tree.specs.Syntax as plain;

    ghost Value = { plain.Name };

    ghost coded = { coded_list coded_ℕ };

    ghost view = { λ a. rc_str_bytes a.text };
}

impl Name {
    /// The name of a text, which is shared.
    pub fn of(text: RcStr) -> Name
        ensures { result ≡ rc_str_bytes text }
    {
        Name { text }
    }

    /// Its text.
    pub fn as_str(&self) -> &str
        ensures { result.now ≡ self.now }
    {
        self.text.as_str()
    }
}

impl Clone for Name {
    ghost is_clone = { λ name copy. copy ≡ name };

    fn clone(&self) -> Result<Name, AllocError> {
        Ok(Name {
            text: self.text.clone()?,
        })
    }
}
