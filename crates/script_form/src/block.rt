//! Blocks of lines, and what a line is to the blocks around it.
ghost use Rattle.std.specs.Prelude.{◌≡◌, List};
ghost use Rattle.model_text.specs.Places.{Section as PlainSection, role_of, begins, closes};
ghost use Rattle.script_term.specs.Spelled.{plain_spelled};
ghost use Rattle.script_form.specs.Blocks.{plain_block, plain_section, plain_role, plain_open, latest_of, is_in_finally};

use script_term::Spelled;

#[derive(Clone, Copy)]
pub enum Block {
    Def,
    If,
    While,
    Try,
    With,
}

#[derive(Clone, Copy)]
pub enum Section {
    Else,
    Except,
    Finally,
}

/// What a line is to the blocks around it.
#[derive(Clone, Copy)]
pub enum Role {
    Opens(Block),
    Begins(Section),
    Closes,
    /// It opens, begins and closes nothing.
    Stands,
}

/// What a line does to the blocks that are open.
pub fn role_of(form: &Spelled) -> Role
    ensures { plain_role result ≡ role_of (plain_spelled form.now) }
{
    match form {
        Spelled::Def(..) => Role::Opens(Block::Def),
        Spelled::If(_) => Role::Opens(Block::If),
        Spelled::While(_) => Role::Opens(Block::While),
        Spelled::Try => Role::Opens(Block::Try),
        Spelled::WithGroup(_) | Spelled::WithTimeout(..) => Role::Opens(Block::With),
        Spelled::Else => Role::Begins(Section::Else),
        Spelled::Except(..) => Role::Begins(Section::Except),
        Spelled::Finally => Role::Begins(Section::Finally),
        Spelled::End => Role::Closes,
        _ => Role::Stands,
    }
}

/// An open block, with the section of it that has begun last.
#[derive(Clone, Copy)]
pub struct OpenBlock {
    pub block: Block,
    pub latest: Option<Section>,
}

impl OpenBlock {
    /// Whether its `finally` has begun.
    pub fn is_finally(&self) -> bool
        ensures { result ≡ is_in_finally (plain_open self.now) }
    {
        matches!(self.latest, Some(Section::Finally))
    }

    /// Whether a section may begin here: `else` once in an `if`; `except` and `finally` in a `try`,
    /// and nothing behind its `finally`.
    pub fn begins(&self, section: Section) -> bool
        ensures { (sections : List PlainSection)
            → (plain_open self.now).latest ≡ latest_of sections
            → result ≡ begins (plain_section section) (plain_block self.now.block) sections }
    {
        match (section, self.block) {
            (Section::Else, Block::If) => self.latest.is_none(),
            (Section::Except | Section::Finally, Block::Try) => !self.is_finally(),
            _ => false,
        }
    }

    /// Whether its `end` may stand here: a `try` has an `except` or a `finally`.
    pub fn closes(&self) -> bool
        ensures { (sections : List PlainSection)
            → (plain_open self.now).latest ≡ latest_of sections
            → result ≡ closes (plain_block self.now.block) sections }
    {
        match self.block {
            Block::Try => self.latest.is_some(),
            _ => true,
        }
    }
}
