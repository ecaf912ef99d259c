//! How runs ended, and how often.
use aio_base::Memory;
use indexmap::IndexMap;
use std::alloc::Global;

/// Runs that ended in one way: how many, the first one's seed, and of the longest its turns and its time in milliseconds.
#[derive(Clone, Copy)]
pub struct Row {
    pub runs: u64,
    pub seed: u64,
    pub turns: u64,
    pub time: u64,
}

/// How runs ended, in the order in which each ending came first; how many ended otherwise than expected, and the first one's
/// seed.
#[derive(Drop)]
pub struct Table {
    pub rows: IndexMap<String, Row>,
    pub others: u64,
    pub first: Option<u64>,
}

impl Table {
    pub fn new(alloc: Global) -> Table {
        Table {
            rows: IndexMap::new(alloc),
            others: 0,
            first: None,
        }
    }

    /// One run more that ended so.
    pub fn note(
        &mut self,
        alloc: Global,
        ending: &str,
        run: Row,
        is_expected: bool,
    ) -> Result<(), Memory> {
        if !is_expected {
            self.add_others(1, Some(run.seed));
        }
        self.add(alloc, ending, run)
    }

    /// The runs of another table, all of them later than its own: it becomes what it would be if each of them had been noted.
    pub fn append(&mut self, alloc: Global, later: &Table) -> Result<(), Memory> {
        self.add_others(later.others, later.first);
        for (ending, row) in later.rows.iter() {
            self.add(alloc, ending.as_str(), *row)?;
        }
        Ok(())
    }

    /// So many runs more, later than its own, that ended otherwise than expected, and the first one's seed.
    fn add_others(&mut self, others: u64, first: Option<u64>) {
        self.others = self.others.saturating_add(others);
        self.first = self.first.or(first);
    }

    /// Runs more that ended in one way, later than its own.
    fn add(&mut self, alloc: Global, ending: &str, runs: Row) -> Result<(), Memory> {
        match self.rows.get_mut(ending) {
            Some(row) => {
                row.runs = row.runs.saturating_add(runs.runs);
                row.turns = row.turns.max(runs.turns);
                row.time = row.time.max(runs.time);
            }
            None => {
                let key = String::from_str(alloc, ending)?;
                self.rows.insert(key, runs)?;
            }
        }
        Ok(())
    }
}
