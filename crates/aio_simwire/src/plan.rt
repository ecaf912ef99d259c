//! The table of programs.
use crate::program::{Reading, Step};
use aio_base::Memory;
use std::alloc::Global;
use std::rc::RcStr;

/// What the program of these words does; `None` where there is no such program.
pub(crate) fn plan_of(alloc: Global, words: &[RcStr]) -> Result<Option<Vec<Step>>, Memory> {
    let Some(first) = words.first() else {
        return Ok(None);
    };
    let name = first.as_str();
    if name == "sh" {
        return shell_of(alloc, words);
    }
    let mut command = Vec::new(alloc);
    for word in words {
        command.push(word.as_str())?;
    }
    let mut steps = Vec::new(alloc);
    if add(alloc, &mut steps, command.as_slice())? {
        Ok(Some(steps))
    } else {
        Ok(None)
    }
}

/// `sh -c TEXT`, where TEXT has commands of the table with `;` between them.
fn shell_of(alloc: Global, words: &[RcStr]) -> Result<Option<Vec<Step>>, Memory> {
    if words.len() != 3 || words[1].as_str() != "-c" {
        return Ok(None);
    }
    let mut steps = Vec::new(alloc);
    for text in words[2].as_str().split(';') {
        let mut command = Vec::new(alloc);
        for word in text.split_whitespace() {
            command.push(word)?;
        }
        if !command.is_empty() && !add(alloc, &mut steps, command.as_slice())? {
            return Ok(None);
        }
    }
    Ok(Some(steps))
}

/// Adds what a command does, and says whether it is in the table.
fn add(alloc: Global, steps: &mut Vec<Step>, command: &[&str]) -> Result<bool, Memory> {
    let Some((name, others)) = command.split_first() else {
        return Ok(false);
    };
    match *name {
        "exec" => add_plain(alloc, steps, others),
        _ => add_plain(alloc, steps, command),
    }
}

fn add_plain(alloc: Global, steps: &mut Vec<Step>, command: &[&str]) -> Result<bool, Memory> {
    let Some((name, others)) = command.split_first() else {
        return Ok(false);
    };
    match *name {
        "true" => Ok(true),
        "false" => add_step(steps, Step::End(1)),
        "cat" => add_step(steps, Step::Read(Reading::Copies)),
        "sort" => add_step(steps, Step::Read(Reading::Sorts)),
        "echo" => add_echo(alloc, steps, others),
        "sleep" => add_sleep(steps, others),
        "exit" => add_exit(steps, others),
        _ => Ok(false),
    }
}

fn add_step(steps: &mut Vec<Step>, step: Step) -> Result<bool, Memory> {
    steps.push(step)?;
    Ok(true)
}

/// `echo WORD..`, and with `>&2` behind the words on the standard error.
fn add_echo(alloc: Global, steps: &mut Vec<Step>, words: &[&str]) -> Result<bool, Memory> {
    match words.split_last() {
        Some((last, front)) if *last == ">&2" => {
            add_step(steps, Step::Complain(line_of(alloc, front)?))
        }
        _ => add_step(steps, Step::Say(line_of(alloc, words)?)),
    }
}

/// The words with a space between them, and a newline.
fn line_of(alloc: Global, words: &[&str]) -> Result<Vec<u8>, Memory> {
    let mut line = Vec::new(alloc);
    for word in words {
        if !line.is_empty() {
            line.push(b' ')?;
        }
        line.extend_from_slice(word.as_bytes())?;
    }
    line.push(b'\n')?;
    Ok(line)
}

/// `sleep SECONDS`, and with `&` behind it one that nobody waits for.
fn add_sleep(steps: &mut Vec<Step>, words: &[&str]) -> Result<bool, Memory> {
    let Some(first) = words.first() else {
        return Ok(false);
    };
    let Some(time) = milliseconds_of(first) else {
        return Ok(false);
    };
    if words.len() == 1 {
        return add_step(steps, Step::Sleep(time));
    }
    if words.len() == 2 && words[1] == "&" {
        return add_step(steps, Step::Leave(time));
    }
    Ok(false)
}

/// `exit CODE`, from 0 to 255.
fn add_exit(steps: &mut Vec<Step>, words: &[&str]) -> Result<bool, Memory> {
    if words.len() != 1 {
        return Ok(false);
    }
    match words[0].parse::<u8>() {
        Ok(code) => add_step(steps, Step::End(i64::from(code))),
        Err(_) => Ok(false),
    }
}

/// The milliseconds of a number of seconds, with a point or without one; digits after the third behind it don't count.
fn milliseconds_of(word: &str) -> Option<u32> {
    let (whole, part) = match word.split_once('.') {
        Some((whole, part)) => (whole, part),
        None => (word, ""),
    };
    let seconds = whole.parse::<u32>().ok()?;
    let mut time = seconds.saturating_mul(1000);
    let mut unit = 1000u32;
    for byte in part.as_bytes() {
        if !byte.is_ascii_digit() {
            return None;
        }
        unit /= 10;
        let digit = u32::from(*byte).saturating_sub(48);
        time = time.saturating_add(digit.saturating_mul(unit));
    }
    Some(time)
}
