//! The children: what each call on one comes to.
use crate::child::{Child, Exit, has_come};
use crate::plan::plan_of;
use crate::program::{Reading, Step};
use aio_base::Memory;
use aio_simnet::{Odds, later};
use aio_wire::{Answer, WordList};
use std::alloc::Global;

/// The most children.
const MOST_LAUNCHED: usize = 1_000_000;

/// A pipe holds at least so many bytes.
const LEAST_ROOM: u32 = 512;

/// The code of a child that was killed.
const KILLED: i64 = -9;

/// Children, numbered as the loop numbers them.
#[derive(Drop)]
pub(crate) struct Children {
    alloc: Global,
    /// How many bytes a child takes that nobody has heard.
    room: usize,
    list: Vec<Child>,
}

impl Children {
    /// None. Each takes so many bytes, or 512, that nobody has heard.
    pub fn new(alloc: Global, room: u32) -> Children {
        Children {
            alloc,
            room: room.max(LEAST_ROOM) as usize,
            list: Vec::new(alloc),
        }
    }

    pub fn get(&self, number: u32) -> Option<&Child> {
        self.list.get(number as usize)
    }

    pub fn get_mut(&mut self, number: u32) -> Option<&mut Child> {
        self.list.get_mut(number as usize)
    }

    /// Whether a child can be fed.
    pub fn is_fed(&self, number: u32, now: u64) -> bool {
        match self.list.get(number as usize) {
            Some(child) => child.has_ended(now) || child.unheard() < self.room,
            None => false,
        }
    }

    /// Launches a program of the table.
    pub fn launch(
        &mut self,
        odds: &mut Odds,
        now: u64,
        words: &WordList,
    ) -> Result<Answer, Memory> {
        let steps = match plan_of(self.alloc, words.items())? {
            Some(steps) => steps,
            None => return Ok(Answer::Refused),
        };
        if self.list.len() >= MOST_LAUNCHED || odds.chance.happens(odds.rates.launch) {
            return Ok(Answer::Refused);
        }
        let mut child = Child::new(self.alloc);
        let at = odds.arrival(now);
        begin(odds, &mut child, steps.as_slice(), at)?;
        self.list.push(child)?;
        Ok(Answer::Child)
    }

    /// Feeds bytes to a child.
    pub fn feed(
        &mut self,
        odds: &mut Odds,
        now: u64,
        number: u32,
        bytes: &[u8],
    ) -> Result<Answer, Memory> {
        let room = self.room;
        let Some(child) = self.list.get_mut(number as usize) else {
            return Ok(Answer::Again);
        };
        if child.is_broken(now) {
            return Ok(Answer::Broken);
        }
        if child.has_ended(now) {
            return Ok(Answer::Took(bytes.len() as u64));
        }
        let most = room.saturating_sub(child.unheard()).min(bytes.len());
        if most == 0 || odds.chance.happens(odds.rates.again) {
            return Ok(Answer::Again);
        }
        let count = odds.part(most, odds.rates.short);
        if count <= bytes.len() {
            read(odds, child, now, &bytes[..count])?;
        }
        Ok(Answer::Took(count as u64))
    }

    /// Closes a child's standard input.
    pub fn end(&mut self, odds: &mut Odds, now: u64, number: u32) -> Result<Answer, Memory> {
        let alloc = self.alloc;
        if let Some(child) = self.list.get_mut(number as usize) {
            if child.ends_at.is_none() && child.reading != Reading::Ignores {
                let at = odds.arrival(now);
                say_sorted(alloc, child, at)?;
                finish(odds, child, at, 0);
            }
        }
        Ok(Answer::Done)
    }

    /// Kills a child, unless it has ended before that arrives.
    pub fn kill(&mut self, odds: &mut Odds, now: u64, number: u32) -> Answer {
        let at = odds.arrival(now);
        if let Some(child) = self.list.get_mut(number as usize) {
            if !has_come(child.ends_at, at) {
                finish(odds, child, at, KILLED);
                cut(odds, child, at);
            }
        }
        Answer::Done
    }
}

/// A child does its steps, from a time on.
fn begin(odds: &mut Odds, child: &mut Child, steps: &[Step], from: u64) -> Result<(), Memory> {
    let mut at = from;
    for step in steps {
        match step {
            Step::Say(line) => child.out.send(line.as_slice(), at)?,
            Step::Complain(line) => child.errs.send(line.as_slice(), at)?,
            Step::Sleep(time) => at = later(at, *time),
            Step::Leave(time) => child.left = child.left.max(*time),
            Step::End(code) => {
                finish(odds, child, at, *code);
                return Ok(());
            }
            Step::Read(reading) => {
                child.reading = *reading;
                return Ok(());
            }
        }
    }
    finish(odds, child, at, 0);
    Ok(())
}

/// A child ends at a time. What is seen of that comes in any order: its exit, the ends of its pipes, and that its standard
/// input is broken. Where others hold its pipes these end later.
fn finish(odds: &mut Odds, child: &mut Child, at: u64, code: i64) {
    child.ends_at = Some(at);
    child.exit = Some(Exit {
        at: odds.arrival(at),
        code,
    });
    let held = later(at, child.left);
    let out = odds.arrival(held);
    child.out.send_end(out);
    let errs = odds.arrival(held);
    child.errs.send_end(errs);
    child.broken_at = Some(odds.arrival(held));
}

/// What a child hasn't said by a time is lost, and its pipes end then, or when nobody holds them.
fn cut(odds: &mut Odds, child: &mut Child, at: u64) {
    let held = later(at, child.left);
    let out = odds.arrival(held);
    child.out.cut(at, out);
    let errs = odds.arrival(held);
    child.errs.cut(at, errs);
}

/// A child reads bytes.
fn read(odds: &mut Odds, child: &mut Child, now: u64, bytes: &[u8]) -> Result<(), Memory> {
    match child.reading {
        Reading::Copies => {
            let at = odds.arrival(now);
            child.out.send(bytes, at)
        }
        Reading::Sorts | Reading::Ignores => {
            child.held.extend_from_slice(bytes)?;
            Ok(())
        }
    }
}

/// A child that sorts says the lines that it holds, in order.
fn say_sorted(alloc: Global, child: &mut Child, at: u64) -> Result<(), Memory> {
    if child.reading != Reading::Sorts || child.held.is_empty() {
        return Ok(());
    }
    let held = std::mem::replace(&mut child.held, Vec::new(alloc));
    let text = sorted_text(alloc, held.as_slice())?;
    child.out.send(text.as_slice(), at)
}

/// The lines of a text in order, each with a newline.
fn sorted_text(alloc: Global, text: &[u8]) -> Result<Vec<u8>, Memory> {
    let text = text.strip_suffix(b"\n").unwrap_or(text);
    let mut lines = Vec::new(alloc);
    for line in text.split(|byte| *byte == b'\n') {
        lines.push(line)?;
    }
    lines.sort_unstable();
    let mut sorted = Vec::new(alloc);
    for line in lines.iter() {
        sorted.extend_from_slice(line)?;
        sorted.push(b'\n')?;
    }
    Ok(sorted)
}
