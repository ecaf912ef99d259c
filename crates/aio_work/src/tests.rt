//! Works of seeds, by the sizes of their texts, which were counted apart from it, by the rules.

use crate::work;
use std::test::Fail;

/// A seed, and how many bytes its script has.
struct Row {
    seed: u64,
    bytes: usize,
}

const ROWS: [Row; 4] = [
    // 171 tasks
    Row {
        seed: 0,
        bytes: 6679,
    },
    // 166 tasks, the greatest seed of the command
    Row {
        seed: 999999,
        bytes: 6489,
    },
    // 100 tasks, none of which sleeps
    Row {
        seed: 2147483646,
        bytes: 3804,
    },
    // 184 tasks
    Row {
        seed: u64::MAX,
        bytes: 7175,
    },
];

#[test]
fn works_are_made(rt: HostRuntime) -> Result<(), Fail> {
    for row in &ROWS {
        let (script, journal) = work(rt.alloc(), row.seed).map_err(|_| "memory")?;
        assert_eq!(rt; script.len(), row.bytes);
        assert_eq!(rt; journal.len(), 27641);
    }
    Ok(())
}
