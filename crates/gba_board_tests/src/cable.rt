//! The serial unit on the board: its registers at every width, and what the cable does, by moves and what
//! they must show.

use crate::bench::{Bench, Seat};
use crate::shown::{NOTHING, Shown, flag, is, number, shows, two};
use Move::{
    Advance, Begins, Calm, Count, Ends, Forget, Kept, Known, Load, Reply, Silent, Start, Store,
    Tells, Word,
};
use gba_bus::Width;
use gba_bus::Width::{Byte, Half};
use gba_io::Room;
use gba_serial::Transfer;
use link_node::LinkMode::{self, Multi, Normal8, Normal32, Other};
use link_node::{Incoming, Signal};
use std::alloc::Global;
use std::process::Abort;
use std::test::Fail;

/// Something done to a board, or something that must hold of it.
#[derive(Clone, Copy)]
enum Move {
    /// Write at an offset of the I/O registers.
    Store(u32, Width, u32),
    /// A read at an offset of the I/O registers gives this.
    Load(u32, Width, u32),
    /// This is stored in a halfword.
    Kept(u32, u16),
    /// Move the devices by so many cycles.
    Advance(u32),
    /// Begin a step.
    Begins,
    /// Nothing asks for more than an instruction.
    Calm(bool),
    /// A player's signal with a start: its arrival, its sender, its clock, mode, speed and word.
    Start(u64, u32, u64, LinkMode, u8, u32),
    /// A player's signal with a reply.
    Reply(u64, u32, u64, LinkMode, u32),
    /// End what is due.
    Ends,
    /// The step tells the mode with a start's speed and word or without, and a reply's word or none; or it
    /// tells nothing.
    Tells(u64, LinkMode, Option<(u8, u32)>, Option<u32>),
    Silent,
    /// So many transfers ended, and so many are kept.
    Count(u64, usize),
    /// This transfer is kept at a place.
    Word(usize, Transfer),
    /// A player is known to be in this mode.
    Known(u32, LinkMode),
    /// Empty the list.
    Forget,
}

/// A board of a player. Room for a million cycles.
fn bench_of(alloc: Global, seat: Seat, words: bool) -> Result<Bench, Fail> {
    let room = Room {
        until: 1_000_000,
        frames: false,
        samples: false,
        words,
    };
    Bench::of(alloc, 0, seat, room)
}

/// Moves the devices cycle by cycle.
fn advance<R: Abort>(rt: &R, bench: &mut Bench, cycles: u32) {
    for _ in 0..cycles {
        bench.advance(rt, 1);
    }
}

/// A start with its speed and word, if there is one.
fn begun(start: Option<(u8, u32)>) -> Option<link_node::Start> {
    match start {
        Some((speed, word)) => Some(link_node::Start { speed, word }),
        None => None,
    }
}

fn start(clock: u64, mode: LinkMode, start: Option<(u8, u32)>, reply: Option<u32>) -> Signal {
    Signal {
        clock,
        mode,
        start: begun(start),
        reply,
    }
}

fn incoming(arrival: u64, sender: u32, signal: Signal) -> Incoming {
    Incoming {
        sender,
        arrival,
        signal,
    }
}

/// The step tells this signal, or nothing.
fn tells<R: Abort>(rt: &R, bench: &Bench, signal: Option<Signal>) -> Shown {
    is(rt, "told", bench.board.outgoing(), signal);
    NOTHING
}

/// This transfer is kept at a place.
fn word_is<R: Abort>(rt: &R, bench: &Bench, place: usize, transfer: Transfer) -> Shown {
    let word = bench.board.words().get(place).copied();
    is(rt, "kept", word, Some(transfer));
    NOTHING
}

fn mode_is<R: Abort>(rt: &R, bench: &Bench, player: u32, mode: LinkMode) -> Shown {
    is(rt, "known", bench.known(rt, player), mode);
    NOTHING
}

fn counts_are(bench: &Bench, count: u64, kept: usize) -> Shown {
    Shown {
        got: [
            bench.board.counts().words,
            bench.board.words().len() as u64,
            0,
        ],
        wanted: [count, kept as u64, 0],
    }
}

/// Does what shows nothing.
fn make<R: Abort>(rt: &R, bench: &mut Bench, one: Move) {
    match one {
        Start(arrival, sender, clock, mode, speed, word) => {
            let signal = start(clock, mode, Some((speed, word)), None);
            bench.take(rt, &incoming(arrival, sender, signal));
        }
        Reply(arrival, sender, clock, mode, word) => {
            let signal = start(clock, mode, None, Some(word));
            bench.take(rt, &incoming(arrival, sender, signal));
        }
        Advance(cycles) => advance(rt, bench, cycles),
        Begins => bench.board.core.begin(),
        Ends => bench.end_due(rt),
        Forget => bench.forget(rt),
        _ => {}
    }
}

fn look<R: Abort>(rt: &R, bench: &Bench, one: Move) -> Shown {
    match one {
        Kept(offset, half) => number(u64::from(bench.board.core.io_half(offset)), u64::from(half)),
        Calm(calm) => flag(bench.board.core.is_calm(), calm),
        Tells(clock, mode, begun, reply) => {
            tells(rt, bench, Some(start(clock, mode, begun, reply)))
        }
        Silent => tells(rt, bench, None),
        Count(count, kept) => counts_are(bench, count, kept),
        Word(place, transfer) => word_is(rt, bench, place, transfer),
        Known(player, mode) => mode_is(rt, bench, player, mode),
        _ => NOTHING,
    }
}

fn play<R: Abort>(rt: &R, bench: &mut Bench, one: Move) -> Shown {
    match one {
        Store(offset, width, value) => { two((bench.store_io(offset, width, value), 0), (1, 0)) }
        Load(offset, width, value) => two(bench.load_io(offset, width), (value, 1)),
        other => {
            make(rt, bench, other);
            look(rt, bench, other)
        }
    }
}

/// Makes moves, and looks at what they show.
fn play_all<R: Abort>(rt: &R, bench: &mut Bench, case: &str, moves: &[Move]) {
    for (place, one) in moves.iter().enumerate() {
        let shown = play(rt, bench, *one);
        shows(rt, case, place, shown);
    }
}

/// A board of a player, whether transfers are kept, and what is done to it.
struct Case {
    name: &'static str,
    seat: Seat,
    words: bool,
    moves: &'static [Move],
}

/// RCNT and the halfword behind it, the four words at each width, and what stands between them and KEYINPUT.
const WIDTHS: [Move; 30] = [
    Load(0x134, Width::Word, 0x0000_8000),
    Load(0x135, Byte, 0x80),
    Kept(0x134, 0x8000),
    Store(0x134, Width::Word, 0xFFFF_7FFF),
    Load(0x134, Width::Word, 0x0000_4000),
    Store(0x135, Byte, 0x00),
    Load(0x134, Half, 0x0000),
    Store(0x120, Width::Word, 0x89AB_CDEF),
    Load(0x120, Half, 0xCDEF),
    Load(0x122, Half, 0x89AB),
    Load(0x123, Byte, 0x89),
    Load(0x121, Half, 0xCDEF),
    Store(0x125, Byte, 0x77),
    Store(0x126, Half, 0x1234),
    Load(0x124, Width::Word, 0x1234_7700),
    Store(0x124, Byte, 0x66),
    Load(0x125, Half, 0x7766),
    Kept(0x124, 0x7766),
    Store(0x12A, Half, 0xABCD),
    Store(0x12B, Byte, 0x12),
    Load(0x12A, Half, 0x12CD),
    Load(0x128, Width::Word, 0x12CD_0000),
    Store(0x128, Width::Word, 0x5678_3003),
    Load(0x128, Width::Word, 0x5678_3003),
    Store(0x12C, Width::Word, 0xFFFF_FFFF),
    Load(0x12C, Width::Word, 0),
    Load(0x130, Width::Word, 0x0000_03FF),
    Store(0x132, Half, 0x4001),
    Load(0x130, Width::Word, 0x4001_03FF),
    Count(0, 0),
];

/// Bytes of SIOCNT keep the other one: the mode by its high byte, and a start by its low one. A word over SIOCNT and
/// the send word starts with the old send word.
const BYTES: [Move; 18] = [
    Store(0x134, Half, 0),
    Store(0x12A, Half, 0x1111),
    Store(0x128, Byte, 0x03),
    Store(0x129, Byte, 0x20),
    Load(0x128, Half, 0x2003),
    Tells(0, Multi, None, None),
    Calm(false),
    Begins,
    Calm(true),
    Silent,
    Advance(7),
    Store(0x128, Width::Word, 0x2222_2083),
    Tells(7, Multi, Some((3, 0x1111)), None),
    Load(0x120, Width::Word, 0xFFFF_1111),
    Load(0x12A, Half, 0x2222),
    Store(0x129, Byte, 0x70),
    Load(0x128, Half, 0x6083),
    Kept(0x128, 0x6083),
];

/// Player 0's transfer of two consoles at speed 3 ends 5,220 cycles after its start, with both words, and asks for its
/// interrupt. It is counted and kept. The unit is ready: the peer is in Multi.
const MULTI: [Move; 25] = [
    Store(0x134, Half, 0),
    Store(0x12A, Half, 0x1234),
    Store(0x128, Half, 0x6003),
    Begins,
    Advance(100),
    Store(0x128, Half, 0x6083),
    Tells(100, Multi, Some((3, 0x1234)), None),
    Begins,
    Silent,
    Reply(1212, 1, 700, Multi, 0xABCD),
    Load(0x122, Half, 0xABCD),
    Advance(5219),
    Ends,
    Count(0, 0),
    Load(0x202, Half, 0x0000),
    Load(0x128, Half, 0x608B),
    Advance(1),
    Ends,
    Load(0x202, Half, 0x0080),
    Load(0x128, Half, 0x600B),
    Load(0x120, Width::Word, 0xABCD_1234),
    Count(1, 1),
    Word(
        0,
        Transfer {
            end: 5320,
            mode: Multi,
            words: [0x1234, 0xABCD, 0xFFFF, 0xFFFF],
            sent: 0x1234,
            got: 0,
            error: false,
            interrupt: true,
        },
    ),
    Ends,
    Count(1, 1),
];

/// A transfer ends before a signal that arrives at its end, so that reply comes too late. Without bit 14 no interrupt
/// is requested. It is counted where it isn't kept.
const LATE: [Move; 12] = [
    Store(0x134, Half, 0),
    Store(0x12A, Half, 0x1234),
    Store(0x128, Half, 0x2083),
    Tells(0, Multi, Some((3, 0x1234)), None),
    Begins,
    Reply(5220, 1, 4708, Multi, 0xABCD),
    Count(1, 0),
    Load(0x202, Half, 0x0000),
    Load(0x120, Width::Word, 0xFFFF_1234),
    Load(0x128, Half, 0x204B),
    Kept(0x128, 0x2043),
    Silent,
];

/// A reply that arrives a cycle before the end counts.
const IN_TIME: [Move; 7] = [
    Store(0x134, Half, 0),
    Store(0x12A, Half, 0x1234),
    Store(0x128, Half, 0x2083),
    Reply(5219, 1, 4707, Multi, 0xABCD),
    Count(0, 0),
    Load(0x120, Width::Word, 0xABCD_1234),
    Load(0x128, Half, 0x208B),
];

/// Player 1 waits in Normal8 and answers. At the end its send word is the peer's, with a high byte of 0.
const ANSWERED: [Move; 16] = [
    Store(0x134, Half, 0),
    Store(0x12A, Half, 0x77A5),
    Store(0x128, Half, 0x4080),
    Tells(0, Normal8, None, None),
    Begins,
    Start(11, 0, 10, Normal8, 0, 0x5A),
    Tells(0, Normal8, None, Some(0xA5)),
    Begins,
    Advance(526),
    Ends,
    Load(0x128, Half, 0x4000),
    Load(0x12A, Half, 0x005A),
    Load(0x202, Half, 0x0080),
    Count(1, 1),
    Word(
        0,
        Transfer {
            end: 526,
            mode: Normal8,
            words: [0; 4],
            sent: 0xA5,
            got: 0x5A,
            error: false,
            interrupt: true,
        },
    ),
    Silent,
];

/// A word in Normal32 that nobody answers comes back as ones, in both halves.
const ALONE: [Move; 12] = [
    Store(0x134, Half, 0),
    Store(0x120, Width::Word, 0x0123_4567),
    Store(0x128, Half, 0x5081),
    Tells(0, Normal32, Some((0, 0x0123_4567)), None),
    Store(0x120, Width::Word, 0),
    Load(0x120, Width::Word, 0x0123_4567),
    Advance(2048),
    Ends,
    Load(0x120, Width::Word, 0xFFFF_FFFF),
    Load(0x202, Half, 0x0080),
    Count(1, 1),
    Word(
        0,
        Transfer {
            end: 2048,
            mode: Normal32,
            words: [0; 4],
            sent: 0x0123_4567,
            got: 0xFFFF_FFFF,
            error: false,
            interrupt: true,
        },
    ),
];

/// The mode is compared with that at the step's beginning, and a reset unit tells nothing.
const MODES: [Move; 8] = [
    Silent,
    Calm(true),
    Store(0x134, Half, 0),
    Store(0x134, Half, 0x8000),
    Silent,
    Store(0x134, Half, 0),
    Tells(0, Normal8, None, None),
    Calm(false),
];

/// The list is emptied, and what ends later is kept in it. All are counted.
const FORGOTTEN: [Move; 13] = [
    Store(0x134, Half, 0),
    Store(0x120, Width::Word, 0x0123_4567),
    Store(0x128, Half, 0x5081),
    Advance(2048),
    Ends,
    Known(1, Other),
    Count(1, 1),
    Forget,
    Count(1, 0),
    Store(0x128, Half, 0x5081),
    Advance(2048),
    Ends,
    Count(2, 1),
];

const FIRST_OF_TWO: Seat = Seat {
    player: 0,
    count: 2,
    delay: 512,
};

const SECOND_OF_TWO: Seat = Seat {
    player: 1,
    count: 2,
    delay: 1,
};

const ONLY_ONE: Seat = Seat {
    player: 0,
    count: 1,
    delay: 512,
};

static CASES: [Case; 9] = [
    Case {
        name: "widths",
        seat: FIRST_OF_TWO,
        words: true,
        moves: &WIDTHS,
    },
    Case {
        name: "bytes",
        seat: FIRST_OF_TWO,
        words: true,
        moves: &BYTES,
    },
    Case {
        name: "Multi",
        seat: FIRST_OF_TWO,
        words: true,
        moves: &MULTI,
    },
    Case {
        name: "late",
        seat: FIRST_OF_TWO,
        words: false,
        moves: &LATE,
    },
    Case {
        name: "in time",
        seat: FIRST_OF_TWO,
        words: true,
        moves: &IN_TIME,
    },
    Case {
        name: "answered",
        seat: SECOND_OF_TWO,
        words: true,
        moves: &ANSWERED,
    },
    Case {
        name: "alone",
        seat: FIRST_OF_TWO,
        words: true,
        moves: &ALONE,
    },
    Case {
        name: "modes",
        seat: ONLY_ONE,
        words: true,
        moves: &MODES,
    },
    Case {
        name: "forgotten",
        seat: FIRST_OF_TWO,
        words: true,
        moves: &FORGOTTEN,
    },
];

#[test]
fn boards_do_as_worked_out(rt: HostRuntime) -> Result<(), Fail> {
    for case in &CASES {
        let mut bench = bench_of(rt.alloc(), case.seat, case.words)?;
        play_all(&rt, &mut bench, case.name, case.moves);
    }
    Ok(())
}
