//! Literals of bytes.
ghost use Rattle.std.specs.Prelude.{◌≡◌, false, IfOk};
ghost use Rattle.model_text.specs.Literals.{inside_of};
ghost use Rattle.model_wire.specs.JournalText.{literal_token};

use crate::tokens::EntryToken;
use aio_base::{Blob, Memory};
use aio_lex::{LexFault, closing, literal_bytes};
use model_text::Literal;
use std::alloc::Global;

/// What a literal is of which these bytes follow the opening quote.
pub fn literal_token(alloc: Global, bytes: &[u8]) -> Result<EntryToken, Memory>
    ensures { IfOk result (λ token. token ≡ literal_token bytes.now (inside_of false bytes.now)) }
{
    let Some(place) = closing(bytes) else {
        return Ok(EntryToken::Other);
    };
    if place + 1 != bytes.len() {
        return Ok(EntryToken::Other);
    }
    match literal_bytes(alloc, Literal::OfBytes, &bytes[..place], 0) {
        Ok(said) => Ok(EntryToken::Bytes(Blob::of(said))),
        Err(LexFault::Memory) => Err(Memory),
        Err(LexFault::BadByte(_) | LexFault::BadNumber(_) | LexFault::OpenText(_)) => {
            Ok(EntryToken::Other)
        }
    }
}
