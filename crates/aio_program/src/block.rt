//! Blocks that are read, and the statements that they make.
ghost use Rattle.std.specs.Prelude.{◌≡◌, IfOk, List, [], ◌∷◌, map};
ghost use Rattle.model_tree.specs.Syntax.{Try, statements};
ghost use Rattle.model_text.specs.Bodies.{SectionBody, block, branch_in, handlers_in, finally_in};
ghost use Rattle.aio_program.specs.Sorted.{plain_head, plain_begin};
ghost use Rattle.aio_program.specs.Target.{plain_branch};
ghost use Rattle.aio_program.specs.Block.{plain_section, over, over_at, latest, latest_at, sections, sections_at, with_block};
ghost use Rattle.aio_program.specs.Block.{first_list, try_with, try_with_handler};
ghost use Rattle.aio_program.specs.declared.sorted.Head.{Head};

use crate::sorted::{Begin, Head};
use crate::statement::{Branch, Handler, Statement, StatementList};
use crate::target::Manager;
use std::alloc::{AllocError, Global};

/// A block whose `end` was not read yet.
#[derive(Drop)]
pub struct UnendedBlock {
    /// The statements in front of it, in the section around it.
    outer: Vec<Statement>,
    head: Head,
    place: Reached,
}

/// How far a block was read.
#[derive(Drop)]
enum Reached {
    /// The statements right behind its head are read.
    First,
    /// Those are over, and these further sections, and one that begins so is read.
    Further(StatementList, Vec<FurtherSection>, Begin),
}

/// A further section of a block.
#[derive(Drop)]
struct FurtherSection {
    begin: Begin,
    body: StatementList,
}

/// A `try` with its body and the sections that were read so far.
#[derive(Drop)]
struct OpenTry {
    body: StatementList,
    handlers: Vec<Handler>,
    finally: Branch,
}

impl UnendedBlock {
    /// A block behind these statements.
    pub fn new(outer: Vec<Statement>, head: Head) -> UnendedBlock
        ensures outer { result.outer ≡ outer }
        ensures over { over result ≡ [] }
        ensures latest { latest result ≡ plain_head head }
    {
        UnendedBlock {
            outer,
            head,
            place: Reached::First,
        }
    }

    /// The block with a further section. These statements are those of the section before it.
    pub fn with_section(
        self,
        alloc: Global,
        begin: Begin,
        so_far: Vec<Statement>,
    ) -> Result<UnendedBlock, AllocError>
        ensures outer { IfOk result (λ next. next.outer ≡ self.outer) }
        ensures over { IfOk result (λ next. over next ≡ sections self so_far.items) }
        ensures latest { IfOk result (λ next. latest next ≡ plain_begin begin) }
    {
        let UnendedBlock { outer, head, place } = self;
        let place = place.with_section(alloc, begin, StatementList::of(so_far))?;
        Ok(UnendedBlock { outer, head, place })
    }

    /// The statements of the section around the block, which are the block and those in front of
    /// it. These statements are those of its last section.
    pub fn ended(self, alloc: Global, so_far: Vec<Statement>) -> Result<Vec<Statement>, AllocError>
        ensures { IfOk result (λ outer. outer.items
            ≡ with_block self.outer.items (sections self so_far.items)) }
    {
        let UnendedBlock {
            mut outer,
            head,
            place,
        } = self;
        let (body, sections) = place.ended(alloc, StatementList::of(so_far))?;
        if let Some(statement) = block_of(alloc, head, body, sections)? {
            outer.push(statement)?;
        }
        Ok(outer)
    }
}

impl Reached {
    /// How far a block was read behind the line of a further section. The list is
    /// the section before it.
    fn with_section(
        self,
        alloc: Global,
        begin: Begin,
        list: StatementList,
    ) -> Result<Reached, AllocError>
        ensures over { IfOk result (λ next. (head : Head) → over_at head next
            ≡ sections_at head self list) }
        ensures latest { IfOk result (λ next. (head : Head) → latest_at head next
            ≡ plain_begin begin) }
    {
        let (body, sections) = self.ended(alloc, list)?;
        Ok(Reached::Further(body, sections, begin))
    }

    /// The statements right behind the head, and the further sections, of which the
    /// list is the last.
    fn ended(
        self,
        alloc: Global,
        list: StatementList,
    ) -> Result<(StatementList, Vec<FurtherSection>), AllocError>
        ensures { IfOk result (λ made. (head : Head)
            → record { head = plain_head head; body = statements made.0 }
            ∷ map plain_section made.1.items
            ≡ sections_at head self list) }
    {
        match self {
            Reached::First => Ok((list, Vec::new(alloc))),
            Reached::Further(body, mut sections, begin) => {
                sections.push(FurtherSection { begin, body: list })?;
                Ok((body, sections))
            }
        }
    }
}

/// The block of a head, by its statements and its further sections.
fn block_of(
    alloc: Global,
    head: Head,
    body: StatementList,
    sections: Vec<FurtherSection>,
) -> Result<Option<Statement>, AllocError>
    ensures { IfOk result (λ made. made
        ≡ block (plain_head head) (statements body) (map plain_section sections.items)) }
{
    Ok(match head {
        Head::Def(_name, _parameters) => None,
        Head::If(test) => Some(Statement::if_else(test, body, first_of(sections))),
        Head::While(test) => Some(Statement::while_loop(test, body)),
        Head::Try => Some(try_of(alloc, body, sections)?),
        Head::WithGroup(name) => Some(Statement::with(Manager::Group, name, body)),
        Head::WithTimeout(delay, name) => {
            Some(Statement::with(Manager::Timeout(delay), name, body))
        }
    })
}

/// The statements of the first section.
fn first_of(sections: Vec<FurtherSection>) -> Branch
    ensures { plain_branch result ≡ branch_in (map plain_section sections.items) }
{
    let mut sections = sections.into_iter();
    match sections.next() {
        Some(FurtherSection { begin: _, body }) => Some(body),
        None => None,
    }
}

/// A `try` with its body and its further sections.
fn try_of(
    alloc: Global,
    body: StatementList,
    sections: Vec<FurtherSection>,
) -> Result<Statement, AllocError>
    ensures { let further = map plain_section sections.items in
        IfOk result (λ made. made
        ≡ Try (statements body) (handlers_in further) (finally_in further)) }
{
    let mut begun = OpenTry {
        body,
        handlers: Vec::new(alloc),
        finally: None,
    };
    for section in sections {
        begun = begun.with_section(section)?;
    }
    let OpenTry {
        body,
        handlers,
        finally,
    } = begun;
    Ok(Statement::try_except(body, handlers, finally))
}

impl OpenTry {
    /// The same with one section more. A second `finally` would be none.
    fn with_section(self, section: FurtherSection) -> Result<OpenTry, AllocError>
        ensures { IfOk result (λ next. (others : List SectionBody) → try_with next others
            ≡ try_with self (plain_section section ∷ others)) }
    {
        let FurtherSection { begin, body } = section;
        match begin {
            Begin::Else => Ok(self),
            Begin::Except(kind, name) => self.with_handler(Handler::new(kind, name, body)),
            Begin::Finally => Ok(self.with_finally(body)),
        }
    }

    fn with_handler(self, handler: Handler) -> Result<OpenTry, AllocError>
        ensures { IfOk result (λ next. (others : List SectionBody) → try_with next others
            ≡ try_with_handler self handler others) }
    {
        let OpenTry {
            body,
            mut handlers,
            finally,
        } = self;
        handlers.push(handler)?;
        Ok(OpenTry {
            body,
            handlers,
            finally,
        })
    }

    fn with_finally(self, list: StatementList) -> OpenTry
        ensures { result ≡ record self { finally = first_list self.finally list } }
    {
        let OpenTry {
            body,
            handlers,
            finally,
        } = self;
        OpenTry {
            body,
            handlers,
            finally: finally.or(Some(list)),
        }
    }
}
