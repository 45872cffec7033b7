//! How numbers and words are spelled.

use crate::reading::{Cases, JOB, NUMBER, SPELLING, are_right};
use gba_frozen::{Row, Slot};

/// Lines by what they are about, each with why it is refused, if it is.
static WORDS: [Cases; 5] = [
    // one space, and nothing else
    (
        "blanks part words one by one",
        &[
            (Slot::Fixed(Row::Clock), b"clock 600", None),
            (Slot::Fixed(Row::Clock), b"clock  600", SPELLING),
            (Slot::Fixed(Row::Clock), b" clock 600", SPELLING),
            (Slot::Fixed(Row::Clock), b"clock 600 ", SPELLING),
            (Slot::Fixed(Row::Clock), b"clock\t600", SPELLING),
            (Slot::Fixed(Row::Clock), b"clock 600\r", SPELLING),
            (Slot::Fixed(Row::Clock), b"clock", SPELLING),
            (Slot::Fixed(Row::Clock), b"clock ", SPELLING),
            (Slot::Fixed(Row::Clock), b"clock 600 1", SPELLING),
            (Slot::Fixed(Row::Clock), b"Clock 600", SPELLING),
            (Slot::Fixed(Row::Clock), b"", SPELLING),
        ],
    ),
    // a number of 21 digits is no number, one of 20 is out of its range
    (
        "decimals have no zero in front",
        &[
            (Slot::Fixed(Row::Clock), b"clock 0", None),
            (Slot::Fixed(Row::Clock), b"clock 00", SPELLING),
            (Slot::Fixed(Row::Clock), b"clock 0600", SPELLING),
            (Slot::Fixed(Row::Clock), b"clock +1", SPELLING),
            (Slot::Fixed(Row::Clock), b"clock -1", SPELLING),
            (Slot::Fixed(Row::Clock), b"clock 6a", SPELLING),
            (
                Slot::Fixed(Row::Clock),
                b"clock 18446744073709551615",
                NUMBER,
            ),
            (
                Slot::Fixed(Row::Clock),
                b"clock 18446744073709551616",
                NUMBER,
            ),
            (
                Slot::Fixed(Row::Clock),
                b"clock 99999999999999999999",
                NUMBER,
            ),
            (
                Slot::Fixed(Row::Clock),
                b"clock 100000000000000000000",
                SPELLING,
            ),
            (
                Slot::Fixed(Row::Clock),
                b"clock 00000000000000000001",
                SPELLING,
            ),
        ],
    ),
    // hexadecimal digits
    (
        "words have eight lower case digits",
        &[
            (Slot::Fixed(Row::Register(0)), b"r0 00000000", None),
            (Slot::Fixed(Row::Register(0)), b"r0 ffffffff", None),
            (Slot::Fixed(Row::Register(0)), b"r0 FFFFFFFF", SPELLING),
            (Slot::Fixed(Row::Register(0)), b"r0 fffffff", SPELLING),
            (Slot::Fixed(Row::Register(0)), b"r0 fffffffff", SPELLING),
            (Slot::Fixed(Row::Register(0)), b"r0 0x000000", SPELLING),
            (Slot::Fixed(Row::Register(0)), b"r0 g0000000", SPELLING),
            (Slot::Fixed(Row::Register(0)), b"r1 00000000", SPELLING),
            (Slot::Fixed(Row::Register(36)), b"spsr_und 00000000", None),
        ],
    ),
    // another number, name or keyword, and a wrong word before a number out of its range
    (
        "another line is spelled wrong",
        &[
            (Slot::Fixed(Row::Timer(0)), b"timer 1 0 0 0 0", SPELLING),
            (Slot::Fixed(Row::Timer(0)), b"timer 00 0 0 0 0", SPELLING),
            (Slot::Fixed(Row::Timer(0)), b"timer 0 0 0 0", SPELLING),
            (Slot::Fixed(Row::Timer(0)), b"timer 0 65536 0 0 x", SPELLING),
            (Slot::Fixed(Row::Heading), b"gbalink-state 1", None),
            (Slot::Fixed(Row::Heading), b"gbalink-state 2", SPELLING),
            (Slot::Fixed(Row::Console(2)), b"console 2", None),
            (Slot::Fixed(Row::Console(2)), b"console 0", SPELLING),
            (Slot::Version, b"gbalink-frozen 1", None),
            (Slot::Version, b"gbalink-frozen 2", SPELLING),
            (Slot::End, b"end", None),
            (Slot::End, b"end ", SPELLING),
            (Slot::Past, b"end", SPELLING),
        ],
    ),
    // Spelling goes before Job
    (
        "the digest is the job s",
        &[
            (
                Slot::Digest,
                b"job 1111111111111111111111111111111111111111111111111111111111111111",
                None,
            ),
            (
                Slot::Digest,
                b"job 1211111111111111111111111111111111111111111111111111111111111111",
                JOB,
            ),
            (
                Slot::Digest,
                b"job AB11111111111111111111111111111111111111111111111111111111111111",
                SPELLING,
            ),
            (
                Slot::Digest,
                b"job 111111111111111111111111111111111111111111111111111111111111111",
                SPELLING,
            ),
            (
                Slot::Digest,
                b"job 1111111111111111111111111111111111111111111111111111111111111111 ",
                SPELLING,
            ),
        ],
    ),
];

#[test]
fn numbers_and_words_have_one_spelling(rt: HostRuntime) {
    for &(what, cases) in &WORDS {
        are_right(&rt, what, cases);
    }
}
