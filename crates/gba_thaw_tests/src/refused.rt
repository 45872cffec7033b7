//! Frozen files of which a line isn't one that may stand there.

use crate::cases::Outcome::Refused;
use crate::cases::{ALONE, Case, PAIR};
use crate::playing::play_all;
use gba_frozen::ThawKind;
use std::test::Fail;

/// Of each kind a few, with the number of the first refused line.
static FILES: [Case; 11] = [
    Case {
        name: "another digest",
        head: "gbalink-frozen 1\njob 1111111111111111111111111111111111111111111111111111111111111112\n",
        outcome: Refused(2, ThawKind::Job),
        ..ALONE
    },
    Case {
        name: "a zero before a clock",
        changes: &[("clock ", "clock 00")],
        outcome: Refused(5, ThawKind::Spelling),
        ..ALONE
    },
    Case {
        name: "a clock above the latest one",
        changes: &[("clock ", "clock 1512")],
        outcome: Refused(5, ThawKind::Number),
        ..ALONE
    },
    Case {
        name: "a flash of an SRAM",
        changes: &[("was ", "flash 0 0 0 0\nwas 0")],
        outcome: Refused(69, ThawKind::Spelling),
        ..ALONE
    },
    Case {
        name: "bytes behind an SRAM",
        changes: &[(
            "was ",
            "mem backup 008000 0100000000000000000000000000000000000000000000000000000000000000\nwas 0",
        )],
        outcome: Refused(69, ThawKind::Number),
        ..ALONE
    },
    Case {
        name: "a sender that isn't there",
        behind: "signal 1 0000000000000000 0000000000000000\nend\n",
        outcome: Refused(72, ThawKind::Number),
        ..ALONE
    },
    Case {
        name: "a signal of 47 bits",
        behind: "signal 0 0000400000000000 0000000000000000\nend\n",
        outcome: Refused(72, ThawKind::Number),
        ..ALONE
    },
    Case {
        name: "a console too many",
        second: &[("console ", "console 1")],
        outcome: Refused(72, ThawKind::Spelling),
        ..ALONE
    },
    Case {
        name: "no last line",
        behind: "",
        outcome: Refused(72, ThawKind::Spelling),
        ..ALONE
    },
    Case {
        name: "a line behind the last one, and no right whole",
        changes: &[("was ", "was 1")],
        behind: "end\nend\n",
        outcome: Refused(73, ThawKind::Spelling),
        ..ALONE
    },
    Case {
        name: "a console too few",
        second: &[],
        outcome: Refused(72, ThawKind::Spelling),
        ..PAIR
    },
];

#[test]
fn lines_are_refused(rt: HostRuntime) -> Result<(), Fail> {
    play_all(&rt, rt.alloc(), &FILES)
}
