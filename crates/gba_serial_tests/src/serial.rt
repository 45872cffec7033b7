//! The serial unit: one unit by moves, and units that are joined by hand.

use gba_serial::{Running, Seat, Serial, SerialRegisters, Transfer, players_of_mask};
use link_node::LinkMode::{self, Multi, Normal8, Normal32, Other};
use link_node::{Incoming, Signal, Start};
use std::process::Abort;
use std::test::Fail;

/// Something done to a unit, or something that must hold of it. Clocks and arrivals come first.
#[derive(Clone, Copy)]
enum Move {
    /// Write a halfword.
    Write(u64, u32, u16),
    /// A halfword reads so.
    Reads(u32, u16),
    /// The state file has this of SIOCNT.
    Stored(u16),
    /// A player's signal without a start or a reply.
    Mode(u64, u32, LinkMode),
    /// A player's signal with a start: its arrival, its sender, its clock, mode, speed and word.
    Begin(u64, u32, u64, LinkMode, u8, u32),
    /// A player's signal with a reply, in which no transfer ends.
    Reply(u64, u32, LinkMode, u32),
    /// The same, and a transfer ends before it.
    Late(u64, u32, LinkMode, u32, Transfer),
    /// The step tells the mode alone, the mode and a start (speed and word), the mode and a reply, or nothing.
    TellsMode(u64, LinkMode),
    TellsStart(u64, LinkMode, u8, u32),
    TellsReply(u64, LinkMode, u32),
    Silent(u64),
    /// This transfer ends at its end and not a cycle before.
    Ends(Transfer),
    /// The numbers of the state file: started, end, got, sent and word of the transfer that runs.
    Runs(bool, u64, u64, u64, u64),
    /// No transfer runs.
    Idle,
}

use Move::{
    Begin, Ends, Idle, Late, Mode, Reads, Reply, Runs, Silent, Stored, TellsMode, TellsReply,
    TellsStart, Write,
};

const SIODATA0: u32 = 0x120;

const SIODATA1: u32 = 0x122;

const SIODATA2: u32 = 0x124;

const SIODATA3: u32 = 0x126;

const SIOCNT: u32 = 0x128;

const SEND: u32 = 0x12A;

const RCNT: u32 = 0x134;

/// A signal is taken at its arrival, which is after its clock, and this transfer ends before it.
fn hears<R: Abort>(rt: &R, unit: &mut Serial, due: Incoming, ended: Option<Transfer>) {
    assert!(rt; due.signal.clock < due.arrival && due.arrival < 1 << 40);
    let transfer = unit.take_signal(&due);
    assert!(rt; transfer == ended, "{transfer:?} ended before {due:?}");
}

/// A step that began at a clock tells this.
fn tells<R: Abort>(rt: &R, unit: &mut Serial, clock: u64, signal: Option<Signal>) {
    assert!(rt; clock < 1 << 40);
    let told = unit.outgoing(clock);
    assert!(rt; told == signal, "{told:?} told at {clock}");
}

/// A transfer ends at its end, and not a cycle before.
fn ends<R: Abort>(rt: &R, unit: &mut Serial, transfer: Transfer) {
    let end = transfer.end;
    assert!(rt; 0 < end && end < 1 << 40);
    let early = unit.end_due(end - 1).is_some();
    let ended = unit.end_due(end);
    assert!(rt; !early && ended == Some(transfer), "{ended:?} ended");
}

fn write<R: Abort>(rt: &R, unit: &mut Serial, clock: u64, offset: u32, value: u16) {
    assert!(rt; clock < 1 << 40);
    unit.write(clock, offset, value);
}

fn equal<R: Abort>(rt: &R, one: u64, other: u64) {
    assert_eq!(rt; one, other);
}

/// The numbers of the state file: whether a transfer runs that this console started, its end, got, sent and word.
fn runs<R: Abort>(rt: &R, unit: &Serial, started: bool, numbers: [u64; 4]) {
    equal(rt, u64::from(unit.started()), u64::from(started));
    equal(rt, unit.end(), numbers[0]);
    equal(rt, u64::from(unit.got()), numbers[1]);
    equal(rt, u64::from(unit.sent()), numbers[2]);
    equal(rt, u64::from(unit.word()), numbers[3]);
    equal(rt, u64::from(unit.running()), u64::from(numbers[0] != 0));
}

fn signal(clock: u64, mode: LinkMode) -> Signal {
    Signal {
        clock,
        mode,
        start: None,
        reply: None,
    }
}

fn start(clock: u64, mode: LinkMode, speed: u8, word: u32) -> Signal {
    Signal {
        clock,
        mode,
        start: Some(Start { speed, word }),
        reply: None,
    }
}

fn reply(clock: u64, mode: LinkMode, word: u32) -> Signal {
    Signal {
        clock,
        mode,
        start: None,
        reply: Some(word),
    }
}

fn incoming(sender: u32, arrival: u64, signal: Signal) -> Incoming {
    Incoming {
        sender,
        arrival,
        signal,
    }
}

/// What a unit takes.
fn take<R: Abort>(rt: &R, unit: &mut Serial, one: Move) {
    match one {
        Mode(arrival, sender, mode) => hears(
            rt,
            unit,
            incoming(sender, arrival, signal(0, mode)),
            None,
        ),
        Begin(arrival, sender, clock, mode, speed, word) => {
            hears(
                rt,
                unit,
                incoming(sender, arrival, start(clock, mode, speed, word)),
                None,
            );
        }
        Reply(arrival, sender, mode, word) => {
            hears(
                rt,
                unit,
                incoming(sender, arrival, reply(0, mode, word)),
                None,
            );
        }
        Late(arrival, sender, mode, word, transfer) => {
            hears(
                rt,
                unit,
                incoming(sender, arrival, reply(0, mode, word)),
                Some(transfer),
            );
        }
        _ => {}
    }
}

/// What a unit tells.
fn tell<R: Abort>(rt: &R, unit: &mut Serial, one: Move) {
    match one {
        TellsMode(clock, mode) => tells(rt, unit, clock, Some(signal(clock, mode))),
        TellsStart(clock, mode, speed, word) => {
            tells(rt, unit, clock, Some(start(clock, mode, speed, word)));
        }
        TellsReply(clock, mode, word) => tells(rt, unit, clock, Some(reply(clock, mode, word))),
        Silent(clock) => tells(rt, unit, clock, None),
        _ => {}
    }
}

/// What a unit shows.
fn show<R: Abort>(rt: &R, unit: &Serial, one: Move) {
    match one {
        Reads(offset, value) => equal(rt, u64::from(unit.read(offset)), u64::from(value)),
        Stored(value) => equal(rt, u64::from(unit.listed(SIOCNT)), u64::from(value)),
        Runs(started, end, got, sent, word) => runs(rt, unit, started, [end, got, sent, word]),
        Idle => runs(rt, unit, false, [0; 4]),
        _ => {}
    }
}

fn play<R: Abort>(rt: &R, unit: &mut Serial, moves: &[Move]) {
    for one in moves {
        match *one {
            Write(clock, offset, value) => write(rt, unit, clock, offset, value),
            Ends(transfer) => ends(rt, unit, transfer),
            other => {
                take(rt, unit, other);
                tell(rt, unit, other);
                show(rt, unit, other);
            }
        }
    }
}

/// A unit of a player of so many on a cable with a delay, and what is done to it.
struct Case {
    seat: (u32, u32, u64),
    moves: &'static [Move],
}

/// Player 0 starts in Multi with nobody there. In the transfer the words, RCNT and SIOCNT's bits 0, 1, 7, 12 and 13
/// stay, and the word that goes is the one at the start. The error is set at the end, and cleared by the next start.
const STARTED: [Move; 42] = [
    Write(0, RCNT, 0),
    Write(0, SEND, 0x1234),
    Write(0, SIOCNT, 0x6003),
    TellsMode(0, Multi),
    Write(1000, SIOCNT, 0x6083),
    Reads(SIODATA0, 0x1234),
    Reads(SIODATA1, 0xFFFF),
    Reads(SIODATA2, 0xFFFF),
    Reads(SIODATA3, 0xFFFF),
    Reads(SIOCNT, 0x6083),
    Write(1000, SIODATA0, 0xAAAA),
    Write(1000, SIODATA1, 0xAAAA),
    Write(1000, SIODATA2, 0xAAAA),
    Write(1000, SIODATA3, 0xAAAA),
    Write(1000, RCNT, 0x8000),
    Reads(SIODATA0, 0x1234),
    Reads(SIODATA1, 0xFFFF),
    Reads(SIODATA2, 0xFFFF),
    Reads(SIODATA3, 0xFFFF),
    Reads(RCNT, 0),
    Write(1000, SIOCNT, 0x1000),
    Reads(SIOCNT, 0x2083),
    Write(1000, SIOCNT, 0xFFFF),
    Reads(SIOCNT, 0x6083),
    Stored(0x608B),
    Write(1000, SEND, 0x5678),
    Reads(SEND, 0x5678),
    TellsStart(1000, Multi, 3, 0x1234),
    Silent(1003),
    Runs(true, 6220, 1, 0x1234, 0),
    Ends(Transfer {
        end: 6220,
        mode: Multi,
        words: [0x1234, 0xFFFF, 0xFFFF, 0xFFFF],
        sent: 0x1234,
        got: 0,
        error: true,
        interrupt: true,
    }),
    Idle,
    Reads(SIOCNT, 0x6043),
    Stored(0x604B),
    Write(7000, SIODATA1, 7),
    Reads(SIODATA1, 7),
    Write(7000, SIOCNT, 0x2083),
    Reads(SIOCNT, 0x2083),
    Reads(SIODATA1, 0xFFFF),
    TellsStart(7000, Multi, 3, 0x5678),
    Runs(true, 12_220, 1, 0x5678, 0),
    Silent(7003),
];

/// Player 1 answers player 0's start once, and its own bit 7 starts nothing.
const ANSWERED: [Move; 22] = [
    Write(0, RCNT, 0),
    Write(0, SEND, 0xABCD),
    Write(0, SIOCNT, 0x2003),
    TellsMode(0, Multi),
    Begin(1512, 0, 1000, Multi, 3, 0x1234),
    Reads(SIODATA0, 0x1234),
    Reads(SIODATA1, 0xABCD),
    Reads(SIODATA2, 0xFFFF),
    Reads(SIODATA3, 0xFFFF),
    Reads(SIOCNT, 0x209F),
    Stored(0x2097),
    Runs(false, 6220, 3, 0xABCD, 0),
    Begin(1600, 0, 1088, Multi, 0, 0x9999),
    Runs(false, 6220, 3, 0xABCD, 0),
    TellsReply(1520, Multi, 0xABCD),
    Silent(1523),
    Ends(Transfer {
        end: 6220,
        mode: Multi,
        words: [0x1234, 0xABCD, 0xFFFF, 0xFFFF],
        sent: 0xABCD,
        got: 0,
        error: false,
        interrupt: false,
    }),
    Reads(SIOCNT, 0x201F),
    Write(6300, SIOCNT, 0x2083),
    Silent(6300),
    Idle,
    Reads(SIOCNT, 0x201F),
];

/// Starts that a console in Multi ignores: of player 2, of itself, of nobody, with a speed of 4, of other modes, and
/// one whose transfer would end 511 cycles after the arrival. One of 512 cycles is answered.
const REFUSED_IN_MULTI: [Move; 19] = [
    Write(0, RCNT, 0),
    Write(0, SIOCNT, 0x2000),
    TellsMode(0, Multi),
    Begin(1512, 2, 1000, Multi, 3, 1),
    Idle,
    Begin(1512, 1, 1000, Multi, 3, 1),
    Idle,
    Begin(1512, 3, 1000, Multi, 3, 1),
    Idle,
    Begin(1512, 0, 1000, Multi, 4, 1),
    Idle,
    Begin(1512, 0, 1000, Normal8, 0, 1),
    Idle,
    Begin(1512, 0, 1000, Other, 0, 1),
    Idle,
    Begin(8319, 0, 1000, Multi, 3, 1),
    Idle,
    Begin(8318, 0, 1000, Multi, 3, 1),
    Runs(false, 8830, 3, 0, 0),
];

/// Starts that a console in Normal8 ignores: without bit 7, of a player that isn't wired, with a speed of 2, of other
/// modes, one that would end 511 cycles after its arrival, and with the inside clock. The last is answered, with the
/// low byte of its word, and no reply changes it.
const REFUSED_IN_NORMAL: [Move; 31] = [
    Write(0, RCNT, 0),
    Write(0, SEND, 0x12A5),
    TellsMode(0, Normal8),
    Begin(1512, 0, 1000, Normal8, 0, 1),
    Idle,
    Write(20, SIOCNT, 0x0080),
    Idle,
    Silent(20),
    Begin(1512, 2, 1000, Normal8, 0, 1),
    Idle,
    Begin(1512, 0, 1000, Normal8, 2, 1),
    Idle,
    Begin(1512, 0, 1000, Normal32, 0, 1),
    Idle,
    Begin(1512, 0, 1000, Multi, 3, 1),
    Idle,
    Begin(2027, 0, 1000, Normal8, 0, 1),
    Idle,
    Write(21, SIOCNT, 0x0081),
    Idle,
    Begin(2026, 0, 1000, Normal8, 0, 1),
    Idle,
    Write(22, SIOCNT, 0x0080),
    Begin(2026, 0, 1000, Normal8, 0, 0x15A),
    Runs(false, 2538, 1, 0xA5, 0x5A),
    Reply(2100, 0, Normal8, 0x77),
    Runs(false, 2538, 1, 0xA5, 0x5A),
    TellsReply(2030, Normal8, 0xA5),
    Ends(Transfer {
        end: 2538,
        mode: Normal8,
        words: [0; 4],
        sent: 0xA5,
        got: 0x5A,
        error: false,
        interrupt: false,
    }),
    Reads(SEND, 0x005A),
    Reads(SIOCNT, 0x0000),
];

/// Replies in Multi: the last of a player counts, with its low 16 bits; one of this console itself, of a player that
/// isn't there, or at the end comes to nothing.
const REPLIES: [Move; 18] = [
    Write(0, RCNT, 0),
    Write(0, SEND, 0x0100),
    Write(0, SIOCNT, 0x2001),
    TellsMode(0, Multi),
    Write(500, SIOCNT, 0x2081),
    TellsStart(500, Multi, 1, 0x0100),
    Reply(600, 1, Multi, 0x5_AAAA),
    Reads(SIODATA1, 0xAAAA),
    Reply(700, 1, Multi, 0xBBBB),
    Reads(SIODATA1, 0xBBBB),
    Reply(700, 0, Multi, 0x7777),
    Reads(SIODATA0, 0x0100),
    Reply(700, 3, Multi, 0x7777),
    Runs(true, 24_044, 3, 0x0100, 0),
    Late(
        24_044,
        2,
        Multi,
        0x2222,
        Transfer {
            end: 24_044,
            mode: Multi,
            words: [0x0100, 0xBBBB, 0xFFFF, 0xFFFF],
            sent: 0x0100,
            got: 0,
            error: true,
            interrupt: false,
        },
    ),
    Idle,
    Reads(SIODATA2, 0xFFFF),
    Reads(SIOCNT, 0x2049),
];

/// Replies in Normal32: only the wired peer's, the last of them.
const NORMAL_REPLIES: [Move; 20] = [
    Write(0, RCNT, 0),
    Write(0, SIODATA0, 0x5678),
    Write(0, SIODATA1, 0x1234),
    Write(0, SIOCNT, 0x1001),
    TellsMode(0, Normal32),
    Write(500, SIOCNT, 0x5083),
    TellsStart(500, Normal32, 1, 0x1234_5678),
    Runs(true, 1214, 0, 0x1234_5678, 0),
    Reply(700, 2, Normal32, 9),
    Runs(true, 1214, 0, 0x1234_5678, 0),
    Reply(700, 1, Normal32, 9),
    Runs(true, 1214, 2, 0x1234_5678, 9),
    Reply(710, 1, Normal32, 0xCAFE_0123),
    Runs(true, 1214, 2, 0x1234_5678, 0xCAFE_0123),
    Reads(SIOCNT, 0x5083),
    Ends(Transfer {
        end: 1214,
        mode: Normal32,
        words: [0; 4],
        sent: 0x1234_5678,
        got: 0xCAFE_0123,
        error: false,
        interrupt: true,
    }),
    Reads(SIODATA0, 0x0123),
    Reads(SIODATA1, 0xCAFE),
    Reads(SIOCNT, 0x5003),
    Silent(1214),
];

/// The high byte of the send word doesn't go in Normal8, and is 0 at the end; of the reply only the low byte counts.
const HIGH_BYTE: [Move; 9] = [
    Write(0, RCNT, 0),
    Write(0, SEND, 0x125A),
    TellsMode(0, Normal8),
    Write(500, SIOCNT, 0x0081),
    TellsStart(500, Normal8, 0, 0x5A),
    Reply(600, 1, Normal8, 0x3A5),
    Runs(true, 1016, 2, 0x5A, 0xA5),
    Ends(Transfer {
        end: 1016,
        mode: Normal8,
        words: [0; 4],
        sent: 0x5A,
        got: 0xA5,
        error: false,
        interrupt: false,
    }),
    Reads(SEND, 0x00A5),
];

/// Player 2 starts in Normal8: it tells nothing and hears nobody.
const UNHEARD: [Move; 10] = [
    Write(0, RCNT, 0),
    Write(0, SEND, 0x1277),
    TellsMode(0, Normal8),
    Write(10, SIOCNT, 0x0081),
    Silent(10),
    Runs(true, 526, 0, 0x77, 0),
    Reply(20, 0, Normal8, 5),
    Runs(true, 526, 0, 0x77, 0),
    Ends(Transfer {
        end: 526,
        mode: Normal8,
        words: [0; 4],
        sent: 0x77,
        got: 0xFF,
        error: false,
        interrupt: false,
    }),
    Reads(SEND, 0x00FF),
];

/// One console alone, in Multi and in Normal32: its transfers end with its own word, and with all ones.
const ALONE: [Move; 15] = [
    Write(0, RCNT, 0),
    Write(0, SEND, 7),
    Write(0, SIOCNT, 0x2000),
    TellsMode(0, Multi),
    Write(10, SIOCNT, 0x2080),
    Reads(SIOCNT, 0x2080),
    TellsStart(10, Multi, 0, 7),
    Ends(Transfer {
        end: 31_456,
        mode: Multi,
        words: [7, 0xFFFF, 0xFFFF, 0xFFFF],
        sent: 7,
        got: 0,
        error: false,
        interrupt: false,
    }),
    Write(40_000, SIOCNT, 0x1001),
    TellsMode(40_000, Normal32),
    Write(50_000, SIOCNT, 0x1081),
    TellsStart(50_000, Normal32, 0, 0xFFFF_0007),
    Ends(Transfer {
        end: 52_562,
        mode: Normal32,
        words: [0; 4],
        sent: 0xFFFF_0007,
        got: 0xFFFF_FFFF,
        error: false,
        interrupt: false,
    }),
    Reads(SIODATA0, 0xFFFF),
    Reads(SIODATA1, 0xFFFF),
];

/// In mode Other bit 7 isn't stored. A bit 7 from before starts nothing where the mode becomes Multi, and
/// reads 0 there.
const OTHER: [Move; 26] = [
    Reads(RCNT, 0x8000),
    Reads(SIOCNT, 0),
    Write(0, SIOCNT, 0xFFFF),
    Reads(SIOCNT, 0x700B),
    Write(0, RCNT, 0xFFFF),
    Reads(RCNT, 0xC000),
    Write(0, 0x130, 0xFFFF),
    Reads(0x130, 0),
    Write(0, RCNT, 0),
    Silent(0),
    Write(3, SIOCNT, 0x0080),
    TellsMode(3, Normal8),
    Write(6, RCNT, 0x8000),
    TellsMode(6, Other),
    Write(9, SIOCNT, 0x0000),
    Reads(SIOCNT, 0x0080),
    Write(9, RCNT, 0),
    TellsMode(9, Normal8),
    Write(12, SIOCNT, 0x2080),
    TellsMode(12, Multi),
    Idle,
    Reads(SIOCNT, 0x2000),
    Write(15, SIOCNT, 0x2000),
    Silent(15),
    Write(18, SIOCNT, 0x2080),
    TellsStart(18, Multi, 0, 0),
];

static CASES: [Case; 11] = [
    Case {
        seat: (0, 2, 512),
        moves: &STARTED,
    },
    Case {
        seat: (1, 2, 512),
        moves: &ANSWERED,
    },
    Case {
        seat: (1, 3, 512),
        moves: &REFUSED_IN_MULTI,
    },
    Case {
        seat: (1, 3, 512),
        moves: &REFUSED_IN_NORMAL,
    },
    Case {
        seat: (0, 3, 16),
        moves: &REPLIES,
    },
    Case {
        seat: (0, 4, 100),
        moves: &NORMAL_REPLIES,
    },
    Case {
        seat: (0, 2, 1),
        moves: &HIGH_BYTE,
    },
    Case {
        seat: (2, 4, 1),
        moves: &UNHEARD,
    },
    Case {
        seat: (0, 1, 1024),
        moves: &ALONE,
    },
    Case {
        seat: (0, 2, 1),
        moves: &OTHER,
    },
    Case {
        seat: (0, 4, 1024),
        moves: &OTHER,
    },
];

/// A unit at reset, on a cable with this way there and back.
fn unit_of<R: Abort>(rt: &R, player: u32, count: u32, round: u64) -> Serial {
    assert!(rt; player < count);
    assert!(rt; count <= 4);
    assert!(rt; 2 <= round);
    assert!(rt; round <= 2048);
    Serial::new(player, count, round)
}

/// A unit at reset, on a cable with one delay.
fn unit<R: Abort>(rt: &R, player: u32, count: u32, delay: u64) -> Serial {
    assert!(rt; delay <= 1024);
    unit_of(rt, player, count, 2 * delay)
}

#[test]
fn units_do_as_worked_out(rt: HostRuntime) -> Result<(), Fail> {
    for case in &CASES {
        let (player, count, delay) = case.seat;
        let mut unit = unit(&rt, player, count, delay);
        play(&rt, &mut unit, case.moves);
    }
    Ok(())
}

/// SIOCNT's bits that choose each mode, with RCNT 0.
static MODES: [(u16, LinkMode); 4] = [
    (0x0000, Normal8),
    (0x1000, Normal32),
    (0x2000, Multi),
    (0x3000, Other),
];

/// A unit of player 0 whose RCNT is 0.
fn open<R: Abort>(rt: &R, count: u32, control: u16) -> Serial {
    let mut unit = unit(rt, 0, count, 512);
    unit.write(0, RCNT, 0);
    unit.write(0, SIOCNT, control);
    unit
}

/// From each mode to each: it is told where it is another one, by SIOCNT and by RCNT.
#[test]
fn modes_are_told_once(rt: HostRuntime) -> Result<(), Fail> {
    for &(from, old) in &MODES {
        for &(to, new) in &MODES {
            let mut unit = open(&rt, 2, from);
            assert_eq!(rt; unit.mode(), old);
            let _first = unit.outgoing(0);
            tells(&rt, &mut unit, 1, None);
            unit.write(2, SIOCNT, to);
            assert_eq!(rt; unit.mode(), new);
            let told = if old == new {
                None
            } else {
                Some(signal(2, new))
            };
            tells(&rt, &mut unit, 2, told);
            unit.write(3, RCNT, 0x8000);
            assert_eq!(rt; unit.mode(), Other);
            let told = if new == Other {
                None
            } else {
                Some(signal(3, Other))
            };
            tells(&rt, &mut unit, 3, told);
        }
    }
    Ok(())
}

/// A mode that is left and taken again within a step isn't told.
#[test]
fn modes_are_compared_over_a_whole_step(rt: HostRuntime) -> Result<(), Fail> {
    let mut unit = open(&rt, 2, 0x2000);
    tells(&rt, &mut unit, 0, Some(signal(0, Multi)));
    unit.write(9, SIOCNT, 0x0000);
    unit.write(9, SIOCNT, 0x2000);
    tells(&rt, &mut unit, 9, None);
    Ok(())
}

/// What each player told last is known, and SIOCNT's bit 3 in Multi says that all peers are in Multi. What this console
/// itself or a player that isn't there tells is ignored.
#[test]
fn peers_are_known_by_what_they_told(rt: HostRuntime) -> Result<(), Fail> {
    let mut unit = open(&rt, 3, 0x2000);
    for player in 0..4 {
        assert_eq!(rt; unit.known(player), Other);
    }
    for &(_, mode) in &MODES {
        hears(&rt, &mut unit, incoming(1, 20, signal(4, mode)), None);
        assert_eq!(rt; unit.known(1), mode);
        assert_eq!(rt; unit.read(SIOCNT), 0x2000);
        hears(&rt, &mut unit, incoming(0, 20, signal(4, mode)), None);
        assert_eq!(rt; unit.known(0), Other);
        hears(&rt, &mut unit, incoming(3, 20, signal(4, mode)), None);
        assert_eq!(rt; unit.known(3), Other);
    }
    hears(&rt, &mut unit, incoming(1, 20, signal(4, Multi)), None);
    assert_eq!(rt; unit.read(SIOCNT), 0x2000);
    hears(&rt, &mut unit, incoming(2, 20, signal(4, Multi)), None);
    assert_eq!(rt; unit.read(SIOCNT), 0x2008);
    unit.write(30, SIOCNT, 0x0000);
    assert_eq!(rt; unit.read(SIOCNT), 0x0000);
    Ok(())
}

/// In a transfer each of SIOCNT's bits 0, 1, 7, 12 and 13 stays, and each of 3 and 14 is stored.
#[test]
fn bits_are_protected_in_a_transfer(rt: HostRuntime) -> Result<(), Fail> {
    let mut unit = open(&rt, 2, 0x2001);
    unit.write(1, SIOCNT, 0x2081);
    for &(bit, stays) in &[
        (0x0001, true),
        (0x0002, true),
        (0x0008, false),
        (0x0080, true),
        (0x1000, true),
        (0x2000, true),
        (0x4000, false),
    ] {
        let before = unit.kept(SIOCNT);
        unit.write(2, SIOCNT, before ^ bit);
        let after = if stays { before } else { before ^ bit };
        assert_eq!(rt; unit.kept(SIOCNT), after);
        assert_eq!(rt; unit.mode(), Multi);
        assert!(rt; unit.running());
    }
    Ok(())
}

/// Mode and speed, consoles, and how long the transfer lasts with a delay of 512.
static LENGTHS: [(u16, u32, u64); 10] = [
    (0x2000, 2, 62_892),
    (0x2001, 2, 15_696),
    (0x2002, 2, 10_476),
    (0x2003, 2, 5220),
    (0x2000, 4, 125_784),
    (0x2003, 3, 7830),
    (0x0001, 2, 1538),
    (0x0003, 2, 1538),
    (0x1001, 2, 2048),
    (0x1003, 2, 1538),
];

#[test]
fn transfers_last_by_mode_and_speed(rt: HostRuntime) -> Result<(), Fail> {
    for &(control, count, length) in &LENGTHS {
        let mut unit = open(&rt, count, control);
        unit.write(1000, SIOCNT, control | 0x0080);
        assert_eq!(rt; Some(unit.end()), length.checked_add(1000));
    }
    Ok(())
}

/// How long a byte at 2 MHz takes with ways there and back of so many cycles: 1 and 1, 1 and 1,024, and
/// 1,024 and 1,024.
static ROUNDS: [(u64, u64); 3] = [(2, 516), (1025, 1539), (2048, 2562)];

#[test]
fn a_normal_transfer_lasts_by_the_way_there_and_back(rt: HostRuntime) -> Result<(), Fail> {
    for &(round, length) in &ROUNDS {
        let mut unit = unit_of(&rt, 0, 2, round);
        unit.write(0, RCNT, 0);
        unit.write(0, SIOCNT, 0x0003);
        unit.write(1000, SIOCNT, 0x0083);
        assert_eq!(rt; Some(unit.end()), length.checked_add(1000));
    }
    Ok(())
}

/// The step of one unit that began at a clock: what it tells comes to the other one.
fn step<R: Abort>(rt: &R, from: &mut Serial, to: &mut Serial, sender: u32, clock: u64, delay: u64) {
    assert!(rt; clock < 1 << 39);
    assert!(rt; 0 < delay && delay <= 1024);
    if let Some(signal) = from.outgoing(clock) {
        hears(rt, to, incoming(sender, clock + delay, signal), None);
    }
}

/// Two units with a delay: what each has in RCNT, SIOCNT, the send word and SIODATA32, told to the other at clock 0.
fn pair<R: Abort>(rt: &R, delay: u64, first: (u16, u16), second: (u16, u16)) -> (Serial, Serial) {
    let mut one = unit(rt, 0, 2, delay);
    let mut other = unit(rt, 1, 2, delay);
    one.write(0, RCNT, 0);
    one.write(0, SEND, first.1);
    one.write(0, SIOCNT, first.0);
    other.write(0, RCNT, 0);
    other.write(0, SEND, second.1);
    other.write(0, SIOCNT, second.0);
    step(rt, &mut one, &mut other, 0, 0, delay);
    step(rt, &mut other, &mut one, 1, 0, delay);
    (one, other)
}

/// Two consoles in Multi with speed 3 send 1234h and ABCDh: both end 5,220 cycles after the start, with both words.
#[test]
fn two_consoles_exchange_words_in_multi(rt: HostRuntime) -> Result<(), Fail> {
    let (mut first, mut second) = pair(&rt, 512, (0x2003, 0x1234), (0x2003, 0xABCD));
    assert_eq!(rt; first.read(SIOCNT), 0x200B);
    assert_eq!(rt; second.read(SIOCNT), 0x201F);
    first.write(2000, SIOCNT, 0x2083);
    step(&rt, &mut first, &mut second, 0, 2000, 512);
    step(&rt, &mut second, &mut first, 1, 2520, 512);
    let mut transfer = Transfer {
        end: 7220,
        mode: Multi,
        words: [0x1234, 0xABCD, 0xFFFF, 0xFFFF],
        sent: 0x1234,
        got: 0,
        error: false,
        interrupt: false,
    };
    ends(&rt, &mut first, transfer);
    transfer.sent = 0xABCD;
    ends(&rt, &mut second, transfer);
    Ok(())
}

/// Player 1 is in Normal8 while player 0 starts in Multi: its word is FFFFh, and the error is set.
#[test]
fn a_peer_in_another_mode_sends_nothing(rt: HostRuntime) -> Result<(), Fail> {
    let (mut first, mut second) = pair(&rt, 512, (0x2003, 0x1234), (0x0080, 0xABCD));
    first.write(2000, SIODATA1, 0x4444);
    first.write(2000, SIOCNT, 0x2083);
    step(&rt, &mut first, &mut second, 0, 2000, 512);
    step(&rt, &mut second, &mut first, 1, 2520, 512);
    runs(&rt, &second, false, [0; 4]);
    ends(
        &rt,
        &mut first,
        Transfer {
            end: 7220,
            mode: Multi,
            words: [0x1234, 0xFFFF, 0xFFFF, 0xFFFF],
            sent: 0x1234,
            got: 0,
            error: true,
            interrupt: false,
        },
    );
    assert_eq!(rt; first.read(SIOCNT), 0x2043);
    Ok(())
}

/// Both start in Normal32 with the inside clock at one clock: neither replies, and both get FFFFFFFFh.
#[test]
fn two_starts_at_once_answer_neither(rt: HostRuntime) -> Result<(), Fail> {
    let (mut first, mut second) = pair(&rt, 512, (0x1001, 0), (0x1001, 0));
    first.write(2000, SIODATA1, 0x0304);
    first.write(2000, SIOCNT, 0x1081);
    second.write(2000, SIODATA1, 0x0506);
    second.write(2000, SIOCNT, 0x1081);
    step(&rt, &mut first, &mut second, 0, 2000, 512);
    step(&rt, &mut second, &mut first, 1, 2000, 512);
    tells(&rt, &mut first, 2520, None);
    tells(&rt, &mut second, 2520, None);
    let mut transfer = Transfer {
        end: 4048,
        mode: Normal32,
        words: [0; 4],
        sent: 0x0304_0000,
        got: 0xFFFF_FFFF,
        error: false,
        interrupt: false,
    };
    ends(&rt, &mut first, transfer);
    transfer.sent = 0x0506_0000;
    ends(&rt, &mut second, transfer);
    Ok(())
}

/// With a delay of 1, Normal8 at 256 KHz: player 0 sends 5Ah, player 1 waits with A5h. Both end 516 cycles after the
/// start, each with the other's byte.
#[test]
fn two_consoles_exchange_bytes(rt: HostRuntime) -> Result<(), Fail> {
    let (mut first, mut second) = pair(&rt, 1, (0x0001, 0x005A), (0x4080, 0x00A5));
    first.write(2000, SIOCNT, 0x0081);
    step(&rt, &mut first, &mut second, 0, 2000, 1);
    step(&rt, &mut second, &mut first, 1, 2003, 1);
    let mut transfer = Transfer {
        end: 2516,
        mode: Normal8,
        words: [0; 4],
        sent: 0x5A,
        got: 0xA5,
        error: false,
        interrupt: false,
    };
    ends(&rt, &mut first, transfer);
    transfer.sent = 0xA5;
    transfer.got = 0x5A;
    transfer.interrupt = true;
    ends(&rt, &mut second, transfer);
    assert_eq!(rt; first.read(SEND), 0x00A5);
    assert_eq!(rt; second.read(SEND), 0x005A);
    Ok(())
}

/// One of four units in Multi.
fn fourth<R: Abort>(rt: &R, player: u32, word: u16) -> Serial {
    let mut one = unit(rt, player, 4, 512);
    one.write(0, RCNT, 0);
    one.write(0, SEND, word);
    one.write(0, SIOCNT, 0x2000);
    let _told = one.outgoing(0);
    one
}

/// A signal of one player comes to all others.
fn spread<R: Abort>(rt: &R, units: &mut [Serial; 4], sender: u32, arrival: u64, signal: Signal) {
    for (unit, player) in units.iter_mut().zip(0u32..4) {
        if player != sender {
            hears(rt, unit, incoming(sender, arrival, signal), None);
        }
    }
}

/// Four consoles in Multi with speed 0: all end 125,784 cycles after the start, with four words.
#[test]
fn four_consoles_exchange_words(rt: HostRuntime) -> Result<(), Fail> {
    let mut units = [
        fourth(&rt, 0, 0x1000),
        fourth(&rt, 1, 0x2001),
        fourth(&rt, 2, 0x3002),
        fourth(&rt, 3, 0x4003),
    ];
    units[0].write(5000, SIOCNT, 0x2080);
    let start = units[0].outgoing(5000).ok_or("no start")?;
    spread(&rt, &mut units, 0, 5512, start);
    for player in 1u32..4 {
        let reply = units[player as usize].outgoing(5520).ok_or("no reply")?;
        spread(&rt, &mut units, player, 6032, reply);
    }
    let words = [0x1000, 0x2001, 0x3002, 0x4003];
    for (unit, sent) in units.iter_mut().zip(words) {
        ends(
            &rt,
            unit,
            Transfer {
                end: 130_784,
                mode: Multi,
                words,
                sent: u32::from(sent),
                got: 0,
                error: false,
                interrupt: false,
            },
        );
    }
    Ok(())
}

/// A unit's registers in Multi with the interrupt, at speed 3, in a transfer, after an error.
const IN_MULTI: SerialRegisters = SerialRegisters {
    control: 0x6083,
    error: true,
    select: 0,
    send: 0x5678,
    words: [0x1234, 0xFFFF, 0xFFFF, 0xFFFF],
};

/// A transfer that player 0 started, and for which it has its own word alone.
const OWN_WORD: Running = Running {
    starter: true,
    end: 6220,
    sent: 0x1234,
    word: 0,
    got: [true, false, false, false],
};

/// Registers in Normal with 32 bits and the outside clock.
const IN_NORMAL: SerialRegisters = SerialRegisters {
    control: 0x1088,
    error: false,
    select: 0x4000,
    send: 0xA5A5,
    words: [0x2211, 0x4433, 0x6655, 0x8877],
};

/// A transfer that player 0 started and player 1 answers. Its end needn't be one that its speed gives.
const ANSWERING: Running = Running {
    starter: false,
    end: 7,
    sent: 0x4433_2211,
    word: 0xDDCC_BBAA,
    got: [true, false, false, false],
};

/// A unit's seat, registers, known modes and transfer, and what holds of it.
type Made = (
    Seat,
    SerialRegisters,
    [LinkMode; 4],
    Option<Running>,
    &'static [Move],
);

static MADE: [Made; 4] = [
    (
        Seat {
            player: 0,
            count: 2,
            round: 1024,
        },
        IN_MULTI,
        [Other, Multi, Other, Other],
        Some(OWN_WORD),
        &[
            Reads(SIODATA0, 0x1234),
            Reads(SIODATA3, 0xFFFF),
            Reads(SIOCNT, 0x60CB),
            Stored(0x60C3),
            Reads(SEND, 0x5678),
            Runs(true, 6220, 1, 0x1234, 0),
            Silent(1003),
            Reply(2000, 1, Multi, 0xABCD),
            Runs(true, 6220, 3, 0x1234, 0),
            Ends(Transfer {
                end: 6220,
                mode: Multi,
                words: [0x1234, 0xABCD, 0xFFFF, 0xFFFF],
                sent: 0x1234,
                got: 0,
                error: false,
                interrupt: true,
            }),
            Reads(SIOCNT, 0x600B),
        ],
    ),
    (
        Seat {
            player: 1,
            count: 3,
            round: 2,
        },
        IN_NORMAL,
        [Normal32, Other, Multi, Other],
        Some(ANSWERING),
        &[
            Reads(SIODATA0, 0x2211),
            Reads(SIODATA1, 0x4433),
            Reads(RCNT, 0x4000),
            Reads(SIOCNT, 0x1088),
            Stored(0x1088),
            Runs(false, 7, 1, 0x4433_2211, 0xDDCC_BBAA),
            Silent(6),
            Ends(Transfer {
                end: 7,
                mode: Normal32,
                words: [0; 4],
                sent: 0x4433_2211,
                got: 0xDDCC_BBAA,
                error: false,
                interrupt: false,
            }),
            Reads(SIODATA0, 0xBBAA),
            Reads(SIODATA1, 0xDDCC),
            Idle,
        ],
    ),
    (
        Seat {
            player: 3,
            count: 4,
            round: 2048,
        },
        SerialRegisters {
            control: 0x2000,
            error: true,
            select: 0x8000,
            send: 0,
            words: [1, 2, 3, 4],
        },
        [Multi, Multi, Multi, Other],
        None,
        &[Idle, Silent(0), Stored(0x2040), Reads(RCNT, 0x8000)],
    ),
    (
        Seat {
            player: 2,
            count: 4,
            round: 2048,
        },
        SerialRegisters {
            control: 0x2000,
            error: false,
            select: 0,
            send: 0,
            words: [1, 2, 3, 4],
        },
        [Multi, Multi, Other, Multi],
        None,
        &[Idle, Silent(0), Reads(SIOCNT, 0x202C), Reads(SIODATA2, 3)],
    ),
];

fn made<R: Abort>(
    rt: &R,
    seat: Seat,
    registers: SerialRegisters,
    known: [LinkMode; 4],
    run: Option<Running>,
) -> Serial {
    assert!(rt; seat.player < seat.count && seat.count <= 4 && seat.round <= 2048);
    Serial::of(seat, registers, known, run)
}

#[test]
fn units_are_made_of_their_numbers(rt: HostRuntime) -> Result<(), Fail> {
    for &(seat, registers, known, run, moves) in &MADE {
        let mut unit = made(&rt, seat, registers, known, run);
        assert_eq!(rt; unit.seat(), seat);
        assert_eq!(rt; unit.player(), seat.player);
        for player in 0..4u32 {
            assert_eq!(rt; unit.known(player), known[player as usize]);
        }
        play(&rt, &mut unit, moves);
    }
    for mask in 0..16u32 {
        let got = players_of_mask(mask);
        let run = Running { got, ..OWN_WORD };
        let unit = made(&rt, MADE[0].0, IN_MULTI, MADE[0].2, Some(run));
        assert_eq!(rt; unit.got(), mask);
    }
    Ok(())
}
