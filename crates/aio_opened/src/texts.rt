//! A program and its arguments, as a script says them.
ghost use Rattle.std.specs.Prelude.{◌≡◌, IfOk};
ghost use Rattle.std.specs.Option.{option_map};
ghost use Rattle.std.specs.Rc.{rc_str_bytes};
ghost use Rattle.model_machine.specs.Arguments.{as_words as words_of, texts_of as plain_texts_of};
ghost use Rattle.model_value.specs.Value.{Items, values};
ghost use Rattle.aio_opened.specs.Words.{text_in};

use aio_base::{Memory, Value, ValueCase};
use aio_wire::WordList;
use std::alloc::Global;
use std::rc::RcStr;

/// A program and its arguments: a list of texts that isn't empty. The texts are shared.
pub fn as_words(alloc: Global, value: &Value) -> Result<Option<WordList>, Memory>
    ensures { IfOk result (λ words. words ≡ words_of value.now) }
{
    match value.case() {
        ValueCase::List(words) => words_among(alloc, words.items()),
        _ => Ok(None),
    }
}

fn words_among(alloc: Global, items: &[Value]) -> Result<Option<WordList>, Memory>
    ensures { IfOk result (λ words. words ≡ words_of (Items (values items.now))) }
{
    if items.is_empty() {
        return Ok(None);
    }
    texts_of(alloc, items)
}

// The texts, where all are texts.
fn texts_of(alloc: Global, items: &[Value]) -> Result<Option<WordList>, Memory>
    ensures { IfOk result (λ words. words ≡ plain_texts_of (values items.now)) }
{
    let mut words = Vec::new(alloc);
    for item in items {
        match text_of(item) {
            Some(word) => words.push(word.clone()?)?,
            None => return Ok(None),
        }
    }
    Ok(Some(WordList::of(words)))
}

fn text_of(value: &Value) -> Option<&RcStr>
    ensures { option_map (λ text. rc_str_bytes text.now) result ≡ text_in value.now }
{
    match value.case() {
        ValueCase::Text(text) => Some(text),
        _ => None,
    }
}
