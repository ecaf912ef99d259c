ghost use Rattle.std.specs.Prelude.{◌≡◌, Ok, IfOk, IfErr};
ghost use Rattle.model_text.specs.Tokens.{tokens_of};
ghost use Rattle.aio_lex.specs.Faults.{IsFaultOf};

use crate::fault::LexFault;
use crate::front::{Front, read_front};
use crate::list::TokenList;
use std::alloc::Global;

/// The tokens of a line, or its first fault. The line has no newline; a carriage return before the
/// newline is dropped by who cuts a text into lines, and any other one is a bad byte.
pub fn tokens(alloc: Global, line: &[u8]) -> Result<TokenList, LexFault>
    ensures tokens { IfOk result (λ list. tokens_of line.now ≡ Ok list) }
    ensures fault { IfErr result (λ fault. IsFaultOf fault (tokens_of line.now)) }
{
    let mut items = Vec::new(alloc);
    let mut at = 0;
    while at < line.len() {
        let Front { token, len } = read_front(alloc, &line[at..], at + 1)?;
        if let Some(token) = token {
            items.push(token)?;
        }
        at += len;
    }
    Ok(TokenList::of(items))
}
