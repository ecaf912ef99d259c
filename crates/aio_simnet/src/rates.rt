//! How often things go wrong.
ghost use Rattle.std.specs.Prelude.{◌≡◌, ◌≤◌};

use crate::chance::Chance;
use crate::faults::Fault;

/// In how many of a hundred cases each kind of fault happens, the longest latency in milliseconds, and how many bytes each way
/// of a connection and each pipe of a child holds.
#[derive(Clone, Copy)]
pub struct Rates {
    pub latency: u32,
    pub most_latency: u32,
    pub aim: u32,
    pub cut: u32,
    pub segment: u32,
    pub short: u32,
    pub again: u32,
    pub room: u32,
    pub late: u32,
    pub tick: u32,
    pub hold: u32,
    pub shuffle: u32,
    pub spurious: u32,
    pub reset: u32,
    pub refuse: u32,
    pub stall: u32,
    pub launch: u32,
}

/// What each way of a connection holds where nothing else is said.
const ROOM: u32 = 1_048_576;

const LATENCIES: [u32; 6] = [1, 3, 10, 50, 300, 2000];

const ROOMS: [u32; 5] = [65_536, 4_096, 100, 7, 1];

impl Rates {
    /// Nothing goes wrong, and nothing takes time.
    pub fn calm() -> Rates {
        Rates {
            latency: 0,
            most_latency: 0,
            aim: 0,
            cut: 0,
            segment: 0,
            short: 0,
            again: 0,
            room: ROOM,
            late: 0,
            tick: 0,
            hold: 0,
            shuffle: 0,
            spurious: 0,
            reset: 0,
            refuse: 0,
            stall: 0,
            launch: 0,
        }
    }

    /// Of the kinds that are allowed each happens in this run or doesn't, in one of two cases, and by a rate of its own.
    pub fn drawn(chance: &mut Chance, allowed: &[Fault]) -> Rates {
        let mut rates = Rates::calm();
        rates.latency = rate(chance, allowed, Fault::Latency, 60);
        rates.most_latency = one_of(chance, &LATENCIES);
        rates.aim = rate(chance, allowed, Fault::Aim, 60);
        rates.cut = rate(chance, allowed, Fault::Cut, 60);
        rates.segment = rate(chance, allowed, Fault::Segment, 60);
        rates.short = rate(chance, allowed, Fault::Short, 60);
        rates.again = rate(chance, allowed, Fault::Again, 60);
        if rate(chance, allowed, Fault::Small, 60) != 0 {
            rates.room = one_of(chance, &ROOMS);
        }
        rates.late = rate(chance, allowed, Fault::Late, 60);
        rates.tick = rate(chance, allowed, Fault::Tick, 60);
        rates.hold = rate(chance, allowed, Fault::Hold, 60);
        rates.shuffle = rate(chance, allowed, Fault::Shuffle, 60);
        rates.spurious = rate(chance, allowed, Fault::Spurious, 60);
        rates.reset = rate(chance, allowed, Fault::Reset, 12);
        rates.refuse = rate(chance, allowed, Fault::Refuse, 15);
        rates.stall = rate(chance, allowed, Fault::Stall, 8);
        rates.launch = rate(chance, allowed, Fault::Launch, 20);
        rates
    }
}

/// 0 where a kind isn't allowed and in one of two other cases, and else from 1 up to a bound.
fn rate(chance: &mut Chance, allowed: &[Fault], fault: Fault, most: u32) -> u32
    requires { 1 ≤ most }
    ensures { result ≤ most }
{
    if !is_allowed(allowed, fault) || chance.below(2) == 0 {
        return 0;
    }
    chance.below(most) + 1
}

fn is_allowed(allowed: &[Fault], fault: Fault) -> bool {
    allowed.iter().any(|other| *other == fault)
}

/// One of these; 0 where there is none.
fn one_of(chance: &mut Chance, from: &[u32]) -> u32 {
    if from.is_empty() || from.len() > 1000 {
        return 0;
    }
    let at = chance.below(from.len() as u32);
    from.get(at as usize).copied().unwrap_or(0)
}
