ghost use Rattle.std.specs.Prelude.{◌≡◌};

use super::*;
use aio_base::Blob;
use std::snapshot::Snapshot;
use std::sync::Wait;
use std::test::*;
use std::thread;
use std::thread::Promise;

// Gives, and tries again where the lane is full.
fn give_one<R: Wait>(rt: &R, head: &mut Head, command: Command)
    ensures { head.new.lane ≡ head.old.lane }
{
    let mut left = command;
    for _ in rt.forever() {
        match head.give(rt, left) {
            Giving::Full(back) => {
                left = back;
                thread::yield_now();
            }
            Giving::Given => return,
            Giving::Spent(_) => return,
        }
    }
    unreachable!()
}

fn give_all<R: Wait>(rt: &R, head: Head, count: u64) -> Head
    ensures { result.lane ≡ head.lane }
{
    let mut own = head;
    for _ in 0..count {
        give_one(rt, &mut own, Command::Go);
    }
    give_one(rt, &mut own, Command::Stop);
    own
}

// Receives until Stop, and counts the Gos.
fn take_all<R: Wait>(rt: &R, tail: Tail) -> (Tail, u64)
    ensures { result.0.lane ≡ tail.lane }
{
    let mut own = tail;
    let mut gos = 0u64;
    for _ in rt.forever() {
        match own.next(rt) {
            Command::Go => gos = gos.wrapping_add(1),
            Command::Stop => break,
            Command::Write(_) => {}
            Command::Close => {}
        }
    }
    (own, gos)
}

#[test]
fn across_threads(rt: HostRuntime) -> Result<(), Fail> {
    let (head, tail) = lane(rt.alloc())?;
    let (head, (tail, gos)) = thread::join(
        &rt,
        move || -> Head
            ensures { result.lane ≡ head.lane }
        { give_all(&rt, head, 1000) },
        move || -> (Tail, u64)
            ensures { result.0.lane ≡ tail.lane }
        { take_all(&rt, tail) },
    );
    assert_eq!(rt; gos, 1000);
    head.settle(&rt, tail);
    Ok(())
}

// A lane that is not full takes a command, and one that holds eight takes none until one is received.
#[test]
fn full_at_eight(rt: HostRuntime) -> Result<(), Fail> {
    let (mut head, mut tail) = lane(rt.alloc())?;
    for _ in 0..8 {
        assert!(rt; matches!(head.give(&rt, Command::Go), Giving::Given));
    }
    assert!(rt; matches!(head.give(&rt, Command::Close), Giving::Full(Command::Close)));
    assert!(rt; matches!(tail.next(&rt), Command::Go));
    assert!(rt; matches!(head.give(&rt, Command::Close), Giving::Given));
    for _ in 0..7 {
        assert!(rt; matches!(tail.next(&rt), Command::Go));
    }
    assert!(rt; matches!(tail.next(&rt), Command::Close));
    Ok(())
}

// Bytes come as they were given, and a lane is used past eight commands.
#[test]
fn first_given_first_received(rt: HostRuntime) -> Result<(), Fail> {
    let alloc = rt.alloc();
    let (mut head, mut tail) = lane(alloc)?;
    for byte in 0..20u8 {
        let bytes = Blob::of(Vec::from_slice(alloc, &[byte])?);
        assert!(rt; matches!(head.give(&rt, Command::Write(bytes)), Giving::Given));
        let Command::Write(back) = tail.next(&rt) else {
            return Err(Fail::from("a write"));
        };
        assert_eq!(rt; back.items(), [byte].as_slice());
    }
    Ok(())
}

// The tail that comes back is of the lane of the one that went.
#[derive(Drop)]
struct SameLane(Snapshot<Tail>);

impl Promise<(Tail, u64)> for SameLane {
    ghost kept_by = { λ promise back. back.0.lane ≡ promise.0.value.lane };
}

// A tail that waits before anything is given is woken, and comes back from its thread.
#[test]
fn tail_of_a_thread(rt: HostRuntime) -> Result<(), Fail> {
    let (head, tail) = lane(rt.alloc())?;
    let same = SameLane(Snapshot::of(&tail));
    let pump = thread::spawn_with(
        &rt,
        same,
        move || -> (Tail, u64)
            ensures { result.0.lane ≡ tail.lane }
        { take_all(&rt, tail) },
    )?;
    let head = give_all(&rt, head, 20);
    let (tail, gos) = pump.join(&rt);
    assert_eq!(rt; gos, 20);
    head.settle(&rt, tail);
    Ok(())
}

// A tail that waits for a while finds what stands in the lane, and then nothing.
#[test]
fn tail_that_waits_for_a_while(rt: HostRuntime) -> Result<(), Fail> {
    let (mut head, mut tail) = lane(rt.alloc())?;
    assert!(rt; tail.next_within(&rt, 1).is_none());
    assert!(rt; matches!(head.give(&rt, Command::Go), Giving::Given));
    assert!(rt; matches!(tail.next_within(&rt, 60_000), Some(Command::Go)));
    assert!(rt; tail.next_within(&rt, 1).is_none());
    Ok(())
}
