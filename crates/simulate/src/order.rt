//! What the words ask for.
use aio_base::Memory;
use aio_simwire::{Fault, fault_named};
use std::alloc::Global;

/// What the words ask for: which script, the seeds from the first on, how many threads make the runs, how many turns each run
/// may have, what may go wrong, what a last line begins with that is as it must be, and where the journal of the first run is
/// kept that isn't.
#[derive(Drop)]
pub struct Order {
    pub script: String,
    pub seed: u64,
    pub runs: u64,
    pub jobs: u64,
    pub turns: u64,
    pub faults: Vec<Fault>,
    pub expect: String,
    pub record: Option<String>,
}

/// As many threads make the runs at most: more than machines have processors, and fewer than they allow threads.
const MOST_JOBS: u64 = 256;

/// What goes wrong where no word says: nothing that fails outright.
static MILD: [Fault; 12] = [
    Fault::Latency,
    Fault::Aim,
    Fault::Cut,
    Fault::Segment,
    Fault::Short,
    Fault::Again,
    Fault::Small,
    Fault::Late,
    Fault::Tick,
    Fault::Hold,
    Fault::Shuffle,
    Fault::Spurious,
];

/// What fails outright.
static HARSH: [Fault; 4] = [Fault::Reset, Fault::Refuse, Fault::Stall, Fault::Launch];

/// What these words ask for; `None` where they are refused.
pub fn order_of(alloc: Global, words: &[String]) -> Result<Option<Order>, Memory> {
    let Some((script, options)) = words.split_first() else {
        return Ok(None);
    };
    let mut faults = Vec::new(alloc);
    faults.extend_from_slice(&MILD)?;
    let mut order = Order {
        script: script.clone()?,
        seed: 0,
        runs: 1000,
        jobs: 1,
        turns: 20_000,
        faults,
        expect: String::from_str(alloc, "= returned")?,
        record: None,
    };
    if apply(alloc, &mut order, options)? {
        Ok(Some(order))
    } else {
        Ok(None)
    }
}

/// Applies options, and says whether each is one.
fn apply(alloc: Global, order: &mut Order, options: &[String]) -> Result<bool, Memory> {
    let mut name: Option<&str> = None;
    for word in options {
        let word = word.as_str();
        match name {
            None if word == "--calm" => order.faults.clear(),
            None => name = Some(word),
            Some(option) => {
                if !set(alloc, order, option, word)? {
                    return Ok(false);
                }
                name = None;
            }
        }
    }
    Ok(name.is_none())
}

/// Applies one option that has a value, and says whether it is one.
fn set(alloc: Global, order: &mut Order, option: &str, value: &str) -> Result<bool, Memory> {
    match option {
        "--seed" => Ok(set_number(&mut order.seed, value)),
        "--runs" => Ok(set_number(&mut order.runs, value)),
        "--jobs" => Ok(set_number(&mut order.jobs, value) && (1..=MOST_JOBS).contains(&order.jobs)),
        "--turns" => Ok(set_number(&mut order.turns, value)),
        "--faults" => set_faults(&mut order.faults, value),
        "--expect" => {
            order.expect = String::from_str(alloc, value)?;
            Ok(true)
        }
        "--record" => {
            order.record = Some(String::from_str(alloc, value)?);
            Ok(true)
        }
        _ => Ok(false),
    }
}

fn set_number(place: &mut u64, value: &str) -> bool {
    match value.parse::<u64>() {
        Ok(number) => {
            *place = number;
            true
        }
        Err(_) => false,
    }
}

/// The faults of a list with commas, in which `mild` stands for all that fail nothing outright and `all` for all.
fn set_faults(faults: &mut Vec<Fault>, list: &str) -> Result<bool, Memory> {
    faults.clear();
    for name in list.split(',') {
        match name {
            "mild" => faults.extend_from_slice(&MILD)?,
            "all" => {
                faults.extend_from_slice(&MILD)?;
                faults.extend_from_slice(&HARSH)?;
            }
            _ => match fault_named(name) {
                Some(fault) => faults.push(fault)?,
                None => return Ok(false),
            },
        }
    }
    Ok(true)
}
