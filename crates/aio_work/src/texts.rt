//! Both texts of a number.
ghost use Rattle.std.specs.Prelude.{◌≡◌, map, Ok, IfOk};
ghost use Rattle.model_text.specs.Canonical.{canonical};
ghost use Rattle.model_text.specs.Scripts.{script_of};
ghost use Rattle.model_wire.specs.Journal.{Answered};
ghost use Rattle.model_wire.specs.JournalText.{entries_of};
ghost use Rattle.model_work.specs.Work.{script, journal};
ghost use Rattle.law_journal.specs.Program.{program};
ghost use Rattle.law_journal.specs.WorkAnswers.{answers};

use crate::journal::push_journal;
use crate::script::push_script;
use aio_base::Memory;
use std::alloc::Global;

/// The script of a seed, and the journal that it runs over. The reader accepts the script, which is
/// the canonical text of its program, and each line of the journal is read as an answer.
pub fn work(alloc: Global, seed: u64) -> Result<(Vec<u8>, Vec<u8>), Memory>
    ensures script { IfOk result (λ texts. texts.0.items ≡ script seed) }
    ensures journal { IfOk result (λ texts. texts.1.items ≡ journal) }
    ensures accepted { IfOk result (λ texts. script_of texts.0.items ≡ Ok (program seed)) }
    ensures canonical { IfOk result (λ texts. canonical (program seed) ≡ texts.0.items) }
    ensures read { IfOk result (λ texts. entries_of texts.1.items ≡ map Answered answers) }
{
    let mut script = Vec::new(alloc);
    push_script(alloc, seed, &mut script)?;
    let mut journal = Vec::new(alloc);
    push_journal(alloc, &mut journal)?;
    Ok((script, journal))
}
