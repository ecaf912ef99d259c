//! Where a line may stand, by the lines before it.
ghost use Rattle.std.specs.Prelude.{◌≡◌, List, [], ◌∷◌, nat_eq, length, OnOk};
ghost use Rattle.std.specs.List.{list_any};
ghost use Rattle.model_text.specs.Forms.{Spelled as PlainSpelled};
ghost use Rattle.model_text.specs.Places.{Role as PlainRole, open_blocks, may_stand, fits, is_outside};
ghost use Rattle.script_form.specs.Blocks.{plain_role, plain_open, is_in_finally};
ghost use Rattle.script_form.specs.Placed.{IsBehind, standing_of};

use crate::block::{OpenBlock, Role};
use crate::form_place::FormPlace;
use std::alloc::{AllocError, Global};

/// The greatest number of open blocks.
const MOST_BLOCKS: usize = 32;

/// What the places of later lines depend on: whether a line stands before, and the blocks that are
/// open, the innermost last.
#[derive(Drop)]
pub struct Places {
    is_first: bool,
    blocks: Vec<OpenBlock>,
}

impl Places {
    /// Before all lines.
    pub fn new(alloc: Global) -> Places
        ensures { IsBehind result [] }
    {
        Places {
            is_first: true,
            blocks: Vec::new(alloc),
        }
    }

    /// Whether no block is open.
    pub fn is_outside(&self) -> bool
        ensures { (roles : List PlainRole) → IsBehind self.now roles
            → result ≡ is_outside (open_blocks roles) }
    {
        self.blocks.is_empty()
    }

    /// Whether a form that may stand there may stand here.
    pub fn may_stand(&self, standing: FormPlace) -> bool
        ensures { (roles : List PlainRole) (form : PlainSpelled)
            → IsBehind self.now roles → standing ≡ standing_of form
            → result ≡ may_stand (nat_eq (length roles) 0) (open_blocks roles) form }
    {
        match standing {
            FormPlace::First => self.is_first,
            FormPlace::Outside => self.is_outside(),
            FormPlace::Inside => !self.is_outside(),
            FormPlace::OutsideFinally => !self.is_outside() && !self.is_in_finally(),
            FormPlace::Anywhere => true,
        }
    }

    fn is_in_finally(&self) -> bool
        ensures { result
            ≡ list_any (λ open_block. is_in_finally (plain_open open_block)) self.now.blocks.items }
    {
        self.blocks.iter().any(|open_block| open_block.is_finally())
    }

    /// Whether a line fits the blocks that are open, and opens none too many.
    pub fn fits(&self, role: Role) -> bool
        ensures { (roles : List PlainRole)
            → IsBehind self.now roles → result ≡ fits (open_blocks roles) (plain_role role) }
    {
        match (role, self.blocks.last()) {
            (Role::Opens(_), _) => self.blocks.len() < MOST_BLOCKS,
            (Role::Stands, _) => true,
            (Role::Begins(section), Some(innermost)) => innermost.begins(section),
            (Role::Closes, Some(innermost)) => innermost.closes(),
            (_, None) => false,
        }
    }

    /// One more line stands before.
    pub fn add(&mut self, role: Role) -> Result<(), AllocError>
        ensures { OnOk result ((roles : List PlainRole)
            → IsBehind self.old roles → IsBehind self.new (plain_role role ∷ roles)) }
    {
        self.is_first = false;
        match role {
            Role::Opens(block) => self.blocks.push(OpenBlock {
                block,
                latest: None,
            })?,
            Role::Begins(section) => {
                if let Some(innermost) = self.blocks.last_mut() {
                    innermost.latest = Some(section);
                }
            }
            Role::Closes => {
                self.blocks.pop();
            }
            Role::Stands => {}
        }
        Ok(())
    }
}
