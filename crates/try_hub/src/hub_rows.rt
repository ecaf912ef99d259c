//! The rows.
use crate::asks::Ask::{Accept, End as EndStdin, Extra, Feed, Kill, Launch, Live, Select};
use crate::asks::Look::{All, Exits, Out, Stdin};
use crate::children::Says::{Broken, End, Exit, Fault, Long, Piece, Room, Starved};
use crate::children::{OVER, Posts};
use crate::play::HubRow;

/// Courses of calls on a hub.
pub static HUB: [HubRow; 15] = [
    HubRow {
        name: "a child that ends while pieces are left",
        children: &[(
            1,
            Posts {
                stdin: &[],
                out: &[Piece(b"ab"), Piece(b"cd"), End],
                errs: &[End],
                exit: &[Exit(3)],
            },
        )],
        times: &[5, 7, 9, 9],
        failed_polls: &[],
        failed_launches: &[],
        steps: &[
            (1, Launch, "child"),
            (
                1,
                Select(&[All(0)]),
                "turn 5; 0 out ab; 0 errs ends; 0 exits 3",
            ),
            (1, Select(&[All(0)]), "turn 7; 0 out cd"),
            (1, Select(&[All(0)]), "turn 9; 0 out ends"),
            (1, Select(&[All(0)]), "turn 9"),
        ],
        ends: Some(4),
    },
    HubRow {
        name: "an item that isn't watched, and what stands behind it",
        children: &[(
            1,
            Posts {
                stdin: &[],
                out: &[Piece(b"ab"), Piece(b"cd")],
                errs: &[],
                exit: &[Exit(0)],
            },
        )],
        times: &[],
        failed_polls: &[],
        failed_launches: &[],
        steps: &[
            (1, Launch, "child"),
            (1, Select(&[Exits(0)]), "turn 0; 0 exits 0"),
            (1, Select(&[Out(0)]), "turn 0; 0 out ab"),
            (1, Select(&[Out(0)]), "turn 0; 0 out cd"),
        ],
        ends: Some(4),
    },
    HubRow {
        name: "an answer that is full",
        children: &[
            (
                1,
                Posts {
                    stdin: &[],
                    out: &[Long(65_536), Long(65_536)],
                    errs: &[Long(65_536)],
                    exit: &[],
                },
            ),
            (
                1,
                Posts {
                    stdin: &[],
                    out: &[Long(65_536)],
                    errs: &[Long(65_536)],
                    exit: &[],
                },
            ),
            (
                1,
                Posts {
                    stdin: &[],
                    out: &[Long(65_536)],
                    errs: &[],
                    exit: &[],
                },
            ),
        ],
        times: &[],
        failed_polls: &[],
        failed_launches: &[],
        steps: &[
            (3, Launch, "child"),
            (
                1,
                Select(&[All(0), All(1), All(2)]),
                "turn 0; 0 out 65536 bytes; 0 errs 65536 bytes; 1 out 65536 bytes; 1 errs 65536 bytes",
            ),
            (
                1,
                Select(&[All(0), All(1), All(2)]),
                "turn 0; 0 out 65536 bytes; 2 out 65536 bytes",
            ),
            (1, Select(&[All(0), All(1), All(2)]), "turn 0"),
        ],
        ends: Some(12),
    },
    HubRow {
        name: "a fault among posts",
        children: &[(
            1,
            Posts {
                stdin: &[],
                out: &[Piece(b"ab")],
                errs: &[Fault],
                exit: &[Exit(0)],
            },
        )],
        times: &[],
        failed_polls: &[],
        failed_launches: &[],
        steps: &[
            (1, Launch, "child"),
            (1, Select(&[All(0)]), "failed"),
            (1, Select(&[All(0)]), "turn 0; 0 out ab; 0 exits 0"),
        ],
        ends: Some(4),
    },
    HubRow {
        name: "a poll that fails",
        children: &[(
            1,
            Posts {
                stdin: &[],
                out: &[Piece(b"ab")],
                errs: &[],
                exit: &[],
            },
        )],
        times: &[],
        failed_polls: &[1],
        failed_launches: &[],
        steps: &[
            (1, Launch, "child"),
            (1, Select(&[All(0)]), "failed"),
            (1, Select(&[All(0)]), "turn 0; 0 out ab"),
        ],
        ends: Some(4),
    },
    HubRow {
        name: "a pump without memory",
        children: &[(
            1,
            Posts {
                stdin: &[],
                out: &[Piece(b"ab")],
                errs: &[Starved],
                exit: &[],
            },
        )],
        times: &[],
        failed_polls: &[],
        failed_launches: &[],
        steps: &[
            (1, Launch, "child"),
            (1, Select(&[All(0)]), "no memory"),
            (1, Launch, "no memory"),
            (1, Kill(0), "no memory"),
        ],
        ends: Some(4),
    },
    HubRow {
        name: "a lane that is full",
        children: &[(
            1,
            Posts {
                stdin: &[Room, Room, Room, Room, Room, Room, Room, Room, Room],
                out: &[],
                errs: &[],
                exit: &[],
            },
        )],
        times: &[],
        failed_polls: &[],
        failed_launches: &[],
        steps: &[
            (1, Launch, "child"),
            (1, Select(&[]), "turn 0"),
            (8, Feed(0), "took 2"),
            (1, Feed(0), "again"),
            (1, EndStdin(0), "ok"),
        ],
        ends: None,
    },
    HubRow {
        name: "seven Writes without room",
        children: &[],
        times: &[],
        failed_polls: &[],
        failed_launches: &[],
        steps: &[
            (1, Launch, "child"),
            (1, Select(&[Stdin(0)]), "turn 0; 0 may be fed"),
            (7, Feed(0), "took 2"),
            (1, Feed(0), "again"),
            (1, Select(&[Stdin(0)]), "turn 0"),
        ],
        ends: Some(4),
    },
    HubRow {
        name: "a break before and after a feed",
        children: &[(
            1,
            Posts {
                stdin: &[Broken],
                out: &[],
                errs: &[],
                exit: &[],
            },
        )],
        times: &[],
        failed_polls: &[],
        failed_launches: &[],
        steps: &[
            (1, Launch, "child"),
            (1, Feed(0), "took 2"),
            (1, Select(&[Stdin(0)]), "turn 0; 0 may be fed; 0 broken"),
            (1, Feed(0), "broken"),
            (1, Select(&[Stdin(0)]), "turn 0; 0 may be fed; 0 broken"),
        ],
        ends: Some(4),
    },
    HubRow {
        name: "300 launches one after the other",
        children: &[(300, OVER)],
        times: &[],
        failed_polls: &[],
        failed_launches: &[],
        steps: &[(300, Live, "child")],
        ends: Some(0),
    },
    HubRow {
        name: "seats that come back",
        children: &[(1, OVER)],
        times: &[],
        failed_polls: &[],
        failed_launches: &[],
        steps: &[
            (1, Launch, "child"),
            (
                1,
                Select(&[All(0)]),
                "turn 0; 0 broken; 0 out ends; 0 errs ends; 0 exits 0",
            ),
            (256, Launch, "child"),
            (1, Launch, "refused"),
        ],
        ends: Some(1_024),
    },
    HubRow {
        name: "seats that don't come back",
        children: &[(
            1,
            Posts {
                stdin: &[Broken],
                out: &[End],
                errs: &[End],
                exit: &[Exit(0), Fault, Room],
            },
        )],
        times: &[],
        failed_polls: &[],
        failed_launches: &[],
        steps: &[
            (1, Launch, "child"),
            (1, Select(&[All(0)]), "failed"),
            (255, Launch, "child"),
            (1, Launch, "refused"),
            (
                1,
                Select(&[All(0)]),
                "turn 0; 0 out ends; 0 errs ends; 0 exits 0; 0 broken",
            ),
        ],
        ends: Some(1_020),
    },
    HubRow {
        name: "a launch that is refused",
        children: &[],
        times: &[],
        failed_polls: &[],
        failed_launches: &[1],
        steps: &[
            (1, Launch, "refused"),
            (1, Launch, "child"),
            (1, Kill(0), "ok"),
            (1, Accept(0), "again"),
            (1, Extra(7), "refused"),
        ],
        ends: Some(4),
    },
    HubRow {
        name: "added requests on datagrams, each asked of the poller once, and others",
        children: &[],
        times: &[],
        failed_polls: &[2, 4],
        failed_launches: &[],
        steps: &[
            (1, Extra(399), "refused"),
            (1, Extra(400), "refused"),
            (1, Extra(401), "failed"),
            (1, Extra(404), "refused"),
            (1, Extra(-401), "refused"),
            (1, Extra(402), "refused"),
            (1, Extra(403), "failed"),
            (1, Select(&[]), "turn 0"),
        ],
        ends: Some(0),
    },
    HubRow {
        name: "a child that wasn't launched",
        children: &[],
        times: &[],
        failed_polls: &[],
        failed_launches: &[],
        steps: &[
            (1, Feed(0), "again"),
            (1, EndStdin(0), "ok"),
            (1, Select(&[Stdin(0)]), "turn 0; 0 may be fed"),
        ],
        ends: Some(0),
    },
];
