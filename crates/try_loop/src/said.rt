//! What a coroutine says, as a text.
use aio_base::{Exc, Memory, Request, Value, ValueList, show, show_exc};
use aio_gen::GenOut;
use std::alloc::Global;

/// `returns`, `raises` or a request's word, and the values that belong to it; `asks` for requests that no tape has.
pub fn text_of(alloc: Global, said: &GenOut) -> Result<Vec<u8>, Memory> {
    let mut text = Vec::new(alloc);
    match push_said(alloc, said, &mut text) {
        Ok(()) => Ok(text),
        Err(Memory) => {
            drop(text);
            Err(Memory)
        }
    }
}

fn push_said(alloc: Global, said: &GenOut, text: &mut Vec<u8>) -> Result<(), Memory> {
    match said {
        GenOut::Asks(request) => push_request(alloc, request, text),
        GenOut::Returns(value) => push_with(alloc, b"returns", value, text),
        GenOut::Raises(fault) => push_with_fault(alloc, b"raises", fault, text),
        GenOut::Runaway => push_word(b"runaway", text),
    }
}

// Each arm is one call: a `?` in each would be laid out as often.
fn push_request(alloc: Global, request: &Request, text: &mut Vec<u8>) -> Result<(), Memory> {
    match request {
        Request::Pause => push_word(b"pause", text),
        Request::Await(value) => push_with(alloc, b"await", value, text),
        Request::Sleep(delay) => push_with(alloc, b"sleep", delay, text),
        Request::Print(values) => push_all(alloc, b"print", values, text),
        Request::Spawn { arguments, .. } => push_all(alloc, b"spawn", arguments, text),
        Request::GroupEnter => push_word(b"enter", text),
        Request::GroupExit { group, fault } => push_exit(alloc, group, fault, text),
        Request::TimeoutEnter(delay) => push_with(alloc, b"enter", delay, text),
        Request::TimeoutExit { timeout, fault } => push_exit(alloc, timeout, fault, text),
        _ => push_word(b"asks", text),
    }
}

fn push_word(word: &[u8], text: &mut Vec<u8>) -> Result<(), Memory> {
    Ok(text.extend_from_slice(word)?)
}

/// A word, and each value after a space.
fn push_all(
    alloc: Global,
    word: &[u8],
    values: &ValueList,
    text: &mut Vec<u8>,
) -> Result<(), Memory> {
    push_word(word, text)?;
    push_values(alloc, values.items(), text)
}

fn push_values(alloc: Global, values: &[Value], text: &mut Vec<u8>) -> Result<(), Memory> {
    for value in values {
        push_with(alloc, b"", value, text)?;
    }
    Ok(())
}

fn push_exit(
    alloc: Global,
    block: &Value,
    fault: &Option<Exc>,
    text: &mut Vec<u8>,
) -> Result<(), Memory> {
    push_with(alloc, b"exit", block, text)?;
    match fault {
        Some(fault) => push_with_fault(alloc, b"", fault, text),
        None => Ok(()),
    }
}

/// A word, a space and a value.
fn push_with(alloc: Global, word: &[u8], value: &Value, text: &mut Vec<u8>) -> Result<(), Memory> {
    push_spaced(word, text)?;
    show(alloc, value, text)
}

/// A word, a space and an exception.
fn push_with_fault(
    alloc: Global,
    word: &[u8],
    fault: &Exc,
    text: &mut Vec<u8>,
) -> Result<(), Memory> {
    push_spaced(word, text)?;
    show_exc(alloc, fault, text)
}

fn push_spaced(word: &[u8], text: &mut Vec<u8>) -> Result<(), Memory> {
    push_word(word, text)?;
    Ok(text.push(b' ')?)
}
