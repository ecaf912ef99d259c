//! Rows of pumps.
use crate::cases::Case;
use crate::pump_row::Gives::{Close, Go, Stop, Write};
use crate::pump_row::{Pump, PumpRow};
use crate::shown::{Shown, Told};
use aio_pump::Ending;

/// Pumps of a child's output, of its input, and of its exit; then pumps beside posters and beside one another.
pub static PUMPS: [(&str, Case); 15] = [
    (
        "pump_of_a_short_source",
        Case::Pumps(&PumpRow {
            pump: Pump::Out {
                sevens: 0,
                bytes: b"abc",
                failing: &[],
            },
            gives: &[Go, Go],
            told: Told {
                moved: 3,
                ending: Ending::Ended,
                rings: 2,
            },
            posts: &[Shown::Piece(0, 3, b"abc"), Shown::End],
        }),
    ),
    (
        "source of two pieces",
        Case::Pumps(&PumpRow {
            pump: Pump::Out {
                sevens: 65_536,
                bytes: b"ab",
                failing: &[],
            },
            gives: &[Go, Go, Go],
            told: Told {
                moved: 65_538,
                ending: Ending::Ended,
                rings: 3,
            },
            posts: &[
                Shown::Piece(0, 65_536, &[7, 7]),
                Shown::Piece(65_536, 2, b"ab"),
                Shown::End,
            ],
        }),
    ),
    (
        "reader that is stopped",
        Case::Pumps(&PumpRow {
            pump: Pump::Out {
                sevens: 0,
                bytes: b"abc",
                failing: &[],
            },
            gives: &[Go, Stop],
            told: Told {
                moved: 3,
                ending: Ending::Stopped,
                rings: 1,
            },
            posts: &[Shown::Piece(0, 3, b"abc")],
        }),
    ),
    (
        "reader that is closed before a Go",
        Case::Pumps(&PumpRow {
            pump: Pump::Out {
                sevens: 0,
                bytes: b"abc",
                failing: &[],
            },
            gives: &[Close],
            told: Told {
                moved: 0,
                ending: Ending::Ended,
                rings: 0,
            },
            posts: &[],
        }),
    ),
    (
        "broken_pumps: source",
        Case::Pumps(&PumpRow {
            pump: Pump::Out {
                sevens: 0,
                bytes: b"ab",
                failing: &[2],
            },
            gives: &[Go, Go],
            told: Told {
                moved: 2,
                ending: Ending::Failed,
                rings: 2,
            },
            posts: &[Shown::Piece(0, 2, b"ab"), Shown::Fault],
        }),
    ),
    (
        "lane_and_sink",
        Case::Pumps(&PumpRow {
            pump: Pump::In {
                width: 1_000,
                failing: &[],
                taken: b"abc",
            },
            gives: &[Write(b"ab"), Write(b"c"), Close],
            told: Told {
                moved: 3,
                ending: Ending::Ended,
                rings: 2,
            },
            posts: &[Shown::Room, Shown::Room],
        }),
    ),
    (
        "sink that takes a byte a write",
        Case::Pumps(&PumpRow {
            pump: Pump::In {
                width: 1,
                failing: &[],
                taken: b"abc",
            },
            gives: &[Write(b"ab"), Write(b"c"), Stop],
            told: Told {
                moved: 3,
                ending: Ending::Stopped,
                rings: 2,
            },
            posts: &[Shown::Room, Shown::Room],
        }),
    ),
    (
        "broken_pumps: sink",
        Case::Pumps(&PumpRow {
            pump: Pump::In {
                width: 1,
                failing: &[2],
                taken: b"a",
            },
            gives: &[Write(b"ab"), Write(b"c"), Close],
            told: Told {
                moved: 1,
                ending: Ending::Failed,
                rings: 1,
            },
            posts: &[Shown::Broken],
        }),
    ),
    (
        "broken_pumps: sink under one write",
        Case::Pumps(&PumpRow {
            pump: Pump::In {
                width: 1,
                failing: &[2],
                taken: b"a",
            },
            gives: &[Write(b"ab")],
            told: Told {
                moved: 1,
                ending: Ending::Failed,
                rings: 1,
            },
            posts: &[Shown::Broken],
        }),
    ),
    (
        "sink that is broken before anything is written",
        Case::Pumps(&PumpRow {
            pump: Pump::In {
                width: 1_000,
                failing: &[1],
                taken: b"",
            },
            gives: &[],
            told: Told {
                moved: 0,
                ending: Ending::Failed,
                rings: 1,
            },
            posts: &[Shown::Broken],
        }),
    ),
    (
        "sink that breaks once all was written",
        Case::Pumps(&PumpRow {
            pump: Pump::In {
                width: 1_000,
                failing: &[4],
                taken: b"abc",
            },
            gives: &[Write(b"ab"), Write(b"c")],
            told: Told {
                moved: 3,
                ending: Ending::Failed,
                rings: 3,
            },
            posts: &[Shown::Room, Shown::Room, Shown::Broken],
        }),
    ),
    (
        "exit",
        Case::Pumps(&PumpRow {
            pump: Pump::Exit { failing: &[] },
            gives: &[],
            told: Told {
                moved: 0,
                ending: Ending::Ended,
                rings: 1,
            },
            posts: &[Shown::Exit(3)],
        }),
    ),
    (
        "broken_pumps: exit",
        Case::Pumps(&PumpRow {
            pump: Pump::Exit { failing: &[1] },
            gives: &[],
            told: Told {
                moved: 0,
                ending: Ending::Failed,
                rings: 1,
            },
            posts: &[Shown::Fault],
        }),
    ),
    ("pump that meets a full inbox", Case::FullInbox),
    ("two pumps that need each other", Case::TwoThatNeedEachOther),
];
