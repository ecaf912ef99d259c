//! A script's `main`, as it is resumed.
use crate::line::GivenInput;
use crate::said::text_of;
use aio_base::{Exc, Input, Kind, Memory, Value, exception};
use aio_flat::{Code, flatten};
use aio_gen::Gen;
use aio_script::read;
use std::alloc::Global;
use try_row::RowsStopped;

#[derive(Drop)]
pub struct RunningGen {
    code: Code,
    stepper: Gen,
    /// How many inputs it had.
    pub inputs: u32,
}

impl RunningGen {
    /// The coroutine `main` of a script, before any input.
    pub fn new(alloc: Global, script: &[u8]) -> Result<RunningGen, RowsStopped> {
        let code = code_of(alloc, script)?;
        match start(alloc, &code) {
            Ok(stepper) => Ok(RunningGen {
                code,
                stepper,
                inputs: 0,
            }),
            Err(RowsStopped) => {
                drop(code);
                Err(RowsStopped)
            }
        }
    }

    /// Resumes it with an input, and tells what it says, as a text. The first input is the number 1 or `ValueError("1")`,
    /// and so on.
    pub fn resume(&mut self, alloc: Global, given: GivenInput) -> Result<Vec<u8>, Memory> {
        self.inputs = self.inputs.saturating_add(1);
        let input = input_of(alloc, self.inputs, given)?;
        let said = self.stepper.resume(alloc, &self.code, input, given.fresh)?;
        let text = text_of(alloc, &said);
        // Let go by a call, once: at a scope's end each request's values would be laid out there.
        drop(said);
        text
    }
}

fn code_of(alloc: Global, script: &[u8]) -> Result<Code, RowsStopped> {
    match read(alloc, script) {
        Ok(program) => {
            let code = flatten(alloc, &program);
            drop(program);
            Ok(code?)
        }
        Err(_) => Err(RowsStopped),
    }
}

fn start(alloc: Global, code: &Code) -> Result<Gen, RowsStopped> {
    let place = place_of_main(code)?;
    Ok(Gen::start(alloc, code, place, Vec::new(alloc))?)
}

fn place_of_main(code: &Code) -> Result<u32, RowsStopped> {
    for (place, body) in code.bodies.iter().enumerate() {
        if body.name.as_str() == "main" {
            return match u32::try_from(place) {
                Ok(place) => Ok(place),
                Err(_) => Err(RowsStopped),
            };
        }
    }
    Err(RowsStopped)
}

fn input_of(alloc: Global, number: u32, given: GivenInput) -> Result<Input, Memory> {
    if given.throws {
        Ok(Input::Throw(fault_of(alloc, number)?))
    } else {
        Ok(Input::Send(Value::int(i64::from(number))))
    }
}

fn fault_of(alloc: Global, number: u32) -> Result<Exc, Memory> {
    let text = format!(in alloc; "{number}")?;
    let fault = exception(alloc, Kind::ValueError, text.as_str());
    drop(text);
    fault
}
