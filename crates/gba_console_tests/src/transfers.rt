//! Transfers over whole consoles, whose programs start and await them.

use crate::cable::{Cable, console_of};
use crate::course::Look::{Clock, Half, Transfers, TransfersKept, Was};
use crate::course::{is, show_the_same, shows};
use crate::play::{ALONE, Play, Seat};
use gba_serial::Transfer;
use link_node::LinkMode::{self, Multi, Normal8, Normal32, Other};
use link_node::{Incoming, Signal};
use std::alloc::Global;
use std::process::Abort;
use std::test::Fail;

/// Player 0: waits until all are ready in Multi, and starts with 1234h at speed 3.
const STARTS_MULTI: &[u8] = b"
        mov r5, #0x04000000
        add r5, r5, #0x100
        mov r0, #0
        strh r0, [r5, #0x34]
        ldr r0, send
        strh r0, [r5, #0x2a]
        ldr r0, mode
        strh r0, [r5, #0x28]
wait:   ldrh r0, [r5, #0x28]
        tst r0, #8
        beq wait
        ldr r0, go
        strh r0, [r5, #0x28]
end:    b end
send:   .word 0x1234
mode:   .word 0x6003
go:     .word 0x6083
";

/// Player 1: in Multi with ABCDh.
const AWAITS_MULTI: &[u8] = b"
        mov r5, #0x04000000
        add r5, r5, #0x100
        mov r0, #0
        strh r0, [r5, #0x34]
        ldr r0, send
        strh r0, [r5, #0x2a]
        ldr r0, mode
        strh r0, [r5, #0x28]
end:    b end
send:   .word 0xabcd
mode:   .word 0x2003
";

/// Starts Multi with 1234h at speed 3 at once.
const STARTS_ALONE: &[u8] = b"
        mov r5, #0x04000000
        add r5, r5, #0x100
        mov r0, #0
        strh r0, [r5, #0x34]
        ldr r0, send
        strh r0, [r5, #0x2a]
        ldr r0, go
        strh r0, [r5, #0x28]
end:    b end
send:   .word 0x1234
go:     .word 0x2083
";

/// In Normal8 from the first steps on, and waiting with A5h and the outside clock.
const AWAITS_BYTE: &[u8] = b"
        mov r5, #0x04000000
        add r5, r5, #0x100
        mov r0, #0
        strh r0, [r5, #0x34]
        mov r0, #0xa5
        strh r0, [r5, #0x2a]
        mov r0, #0x80
        strh r0, [r5, #0x28]
end:    b end
";

/// Starts Normal8 with 5Ah at 256 KHz, after a hundred turns of a loop.
const STARTS_BYTE: &[u8] = b"
        mov r5, #0x04000000
        add r5, r5, #0x100
        mov r0, #0
        strh r0, [r5, #0x34]
        mov r1, #100
wait:   subs r1, r1, #1
        bne wait
        mov r0, #0x5a
        strh r0, [r5, #0x2a]
        mov r0, #0x81
        strh r0, [r5, #0x28]
end:    b end
";

/// Starts Normal32 with the inside clock and 01234567h.
pub(crate) const STARTS_WORD: &[u8] = b"
        mov r5, #0x04000000
        add r5, r5, #0x100
        mov r0, #0
        strh r0, [r5, #0x34]
        ldr r0, word
        str r0, [r5, #0x20]
        ldr r0, go
        strh r0, [r5, #0x28]
end:    b end
word:   .word 0x01234567
go:     .word 0x1081
";

/// In Normal8 by the step at 100, since each statement before it takes a cycle, and so do the zeros, which
/// aren't executed.
const TELLS_LATER: &[u8] = b"
        mov r5, #0x04000000
        add r5, r5, #0x100
        mov r0, #0
        .space 388
        strh r0, [r5, #0x34]
";

/// A transfer in Multi 5,220 cycles after the start.
const MULTI: Transfer = Transfer {
    end: 5220,
    mode: Multi,
    words: [0x1234, 0xABCD, 0xFFFF, 0xFFFF],
    sent: 0x1234,
    got: 0,
    error: false,
    interrupt: false,
};

/// A transfer in Normal32 2,048 cycles after the start, where nothing is received.
const WORD: Transfer = Transfer {
    end: 2048,
    mode: Normal32,
    words: [0; 4],
    sent: 0x0123_4567,
    got: 0xFFFF_FFFF,
    error: false,
    interrupt: false,
};

/// A transfer in Normal8 516 cycles after the start.
const BYTE: Transfer = Transfer {
    end: 516,
    mode: Normal8,
    words: [0; 4],
    sent: 0x5A,
    got: 0xA5,
    error: false,
    interrupt: false,
};

/// Two consoles on a cable, and the transfer that each ends, so many cycles after the start.
#[derive(Clone, Copy)]
struct Meeting {
    name: &'static str,
    delay: u64,
    /// Player 1 is off below this clock, and tells nothing before it.
    off: u64,
    sources: [&'static [u8]; 2],
    /// Clocks, and the mode of player 0 that player 1 has learned by then, while it is off.
    known: &'static [(u64, LinkMode)],
    until: u64,
    /// Whether player 1 starts too, at the same clock.
    both: bool,
    ended: [Option<Transfer>; 2],
    /// Halfwords of the I/O registers of both consoles, by their offset.
    halves: &'static [(u32, u64, u64)],
}

/// On a cable with a delay of 512 cycles, for 10,000 cycles.
const PLAIN: Meeting = Meeting {
    name: "",
    delay: 512,
    off: 0,
    sources: [b"", b""],
    known: &[],
    until: 10_000,
    both: false,
    ended: [None, None],
    halves: &[],
};

static MEETINGS: [Meeting; 6] = [
    // Both end 5,220 cycles after the start with both words, and player 0, which asked for it, has its interrupt
    // requested.
    Meeting {
        name: "two consoles in Multi",
        sources: [STARTS_MULTI, AWAITS_MULTI],
        ended: [
            Some(Transfer {
                interrupt: true,
                ..MULTI
            }),
            Some(Transfer {
                sent: 0xABCD,
                ..MULTI
            }),
        ],
        halves: &[(0x202, 0x0080, 0x0000)],
        ..PLAIN
    },
    // A peer in Normal8 doesn't answer a start in Multi, whose transfer ends with the error.
    Meeting {
        name: "nobody answers in Multi",
        sources: [STARTS_ALONE, AWAITS_BYTE],
        ended: [
            Some(Transfer {
                words: [0x1234, 0xFFFF, 0xFFFF, 0xFFFF],
                error: true,
                ..MULTI
            }),
            None,
        ],
        ..PLAIN
    },
    // Two starts at the same clock: neither replies, and both get ones.
    Meeting {
        name: "both start",
        sources: [STARTS_WORD, STARTS_WORD],
        both: true,
        ended: [Some(WORD), Some(WORD)],
        ..PLAIN
    },
    // Over the shortest delay a byte takes 516 cycles, and each has the other's.
    Meeting {
        name: "bytes are exchanged",
        delay: 1,
        sources: [STARTS_BYTE, AWAITS_BYTE],
        until: 3_000,
        ended: [
            Some(BYTE),
            Some(Transfer {
                sent: 0xA5,
                got: 0x5A,
                ..BYTE
            }),
        ],
        halves: &[(0x12A, 0x00A5, 0x005A)],
        ..PLAIN
    },
    // Player 0 starts a Multi transfer while player 1 is off, and ends it alone, with an error. Player 1, which is on
    // before that end, ends none.
    Meeting {
        name: "a start is lost on a console that is off",
        delay: 16,
        off: 2000,
        sources: [STARTS_ALONE, AWAITS_MULTI],
        until: 8000,
        ended: [
            Some(Transfer {
                words: [0x1234, 0xFFFF, 0xFFFF, 0xFFFF],
                error: true,
                ..MULTI
            }),
            None,
        ],
        ..PLAIN
    },
    // What player 0 told while player 1 was off is known there, so the two make a transfer together once both are on.
    Meeting {
        name: "modes are known from before",
        delay: 16,
        off: 2000,
        sources: [STARTS_MULTI, AWAITS_MULTI],
        known: &[(0, Other), (1000, Multi)],
        until: 9000,
        ended: [
            Some(Transfer {
                interrupt: true,
                ..MULTI
            }),
            Some(Transfer {
                sent: 0xABCD,
                ..MULTI
            }),
        ],
        ..PLAIN
    },
];

/// A transfer of a start at this clock.
fn of_start(start: u64, after: Option<Transfer>) -> Option<Transfer> {
    let transfer = after?;
    let end = start.checked_add(transfer.end)?;
    Some(Transfer { end, ..transfer })
}

/// A console has ended just this transfer, or none.
fn has_ended<R: Abort>(rt: &R, case: &str, console: &Play, transfer: Option<Transfer>) {
    let count = u64::from(transfer.is_some());
    shows(rt, console, case, Transfers, count);
    shows(rt, console, case, TransfersKept, count);
    is(rt, case, console.words().first().copied(), transfer);
}

/// Both consoles have ended their transfers.
fn have_ended<R: Abort>(rt: &R, cable: &Cable, meeting: &Meeting) {
    let Some(start) = cable.started(0) else {
        return is(rt, meeting.name, cable.started(0).is_some(), true);
    };
    let second = if meeting.both { Some(start) } else { None };
    is(rt, meeting.name, cable.started(1), second);
    let [one, other] = &cable.consoles;
    has_ended(rt, meeting.name, one, of_start(start, meeting.ended[0]));
    has_ended(rt, meeting.name, other, of_start(start, meeting.ended[1]));
    for (offset, first, second) in meeting.halves {
        shows(rt, one, meeting.name, Half(*offset), *first);
        shows(rt, other, meeting.name, Half(*offset), *second);
    }
}

/// The clock of the first signal that player 1 told, or 0 where it told none.
fn first_told(cable: &Cable) -> u64 {
    match cable.told[1].first() {
        Some(signal) => signal.clock,
        None => 0,
    }
}

/// Runs to clocks at which player 1 is off: it steps by 16 cycles, tells nothing, and learns the modes of player 0.
fn learns<R: Abort>(
    rt: &R,
    alloc: Global,
    cable: &mut Cable,
    meeting: &Meeting,
) -> Result<(), Fail> {
    for (until, mode) in meeting.known {
        cable.run(rt, alloc, *until)?;
        let console = &cable.consoles[1];
        is(rt, meeting.name, console.known(rt, 0), *mode);
        is(
            rt,
            meeting.name,
            (console.clock() % 16, cable.told[1].len()),
            (0, 0),
        );
    }
    Ok(())
}

fn meets<R: Abort>(rt: &R, alloc: Global, meeting: &Meeting) -> Result<(), Fail> {
    let mut cable = Cable::with_off(alloc, meeting.delay, meeting.sources, meeting.off)?;
    learns(rt, alloc, &mut cable, meeting)?;
    cable.run(rt, alloc, meeting.until)?;
    have_ended(rt, &cable, meeting);
    is(
        rt,
        meeting.name,
        first_told(&cable) >= meeting.off.max(1),
        true,
    );
    Ok(())
}

#[test]
fn two_consoles_make_transfers(rt: HostRuntime) -> Result<(), Fail> {
    for meeting in &MEETINGS {
        meets(&rt, rt.alloc(), meeting)?;
    }
    Ok(())
}

/// A step that takes nothing, where the console isn't at a clock yet; it tells nothing.
fn idle_before<R: Abort>(rt: &R, console: &mut Play, clock: u64) {
    if console.clock() < clock {
        assert!(rt; console.turn(rt, &[]).is_none());
    }
}

/// Steps that take nothing, up to a clock at which one begins.
fn idle_to<R: Abort>(rt: &R, console: &mut Play, clock: u64) {
    for _ in 0..clock {
        idle_before(rt, console, clock);
    }
    is(rt, "idles", console.clock(), clock);
}

/// Told in the step at 100.
const LATER: Signal = Signal {
    clock: 100,
    mode: Normal8,
    start: None,
    reply: None,
};

/// A player of two over the longest delay.
const fn far(player: u32) -> Seat {
    Seat {
        player,
        count: 2,
        delay: 1024,
    }
}

/// What is told in the step at 100.
fn told_at_100<R: Abort>(rt: &R, alloc: Global) -> Result<Option<Signal>, Fail> {
    let mut sender = console_of(alloc, far(0), TELLS_LATER)?;
    idle_to(rt, &mut sender, 100);
    Ok(sender.turn(rt, &[]))
}

/// Takes a signal that arrives at 1,124 by the step that begins there, and not by that at 1,123.
fn takes_at_1124<R: Abort>(rt: &R, taker: &mut Play) {
    idle_to(rt, taker, 1123);
    idle_to(rt, taker, 1124);
    is(
        rt,
        "at 1124",
        (taker.was(), taker.known(rt, 0)),
        (1123, Other),
    );
    let due = Incoming {
        sender: 0,
        arrival: 1124,
        signal: LATER,
    };
    let told = taker.turn(rt, &[due]);
    is(rt, "from 1124", (told, taker.known(rt, 0)), (None, Normal8));
}

/// A signal of 100 over a delay of 1,024 is taken by the step that begins at 1,124, and not by that at 1,123.
#[test]
fn a_signal_arrives(rt: HostRuntime) -> Result<(), Fail> {
    let told = told_at_100(&rt, rt.alloc())?;
    is(&rt, "told at 100", told, Some(LATER));
    let mut taker = console_of(rt.alloc(), far(1), b"andeq r0, r0, r0\n")?;
    takes_at_1124(&rt, &mut taker);
    Ok(())
}

/// A step by a turn that takes nothing, where the console isn't at a clock yet.
fn turn_before<R: Abort>(rt: &R, console: &mut Play, clock: u64) {
    if console.clock() < clock {
        let _ = console.turn(rt, &[]);
    }
}

/// Steps by turns that take nothing, up to a clock.
fn turn_to<R: Abort>(rt: &R, console: &mut Play, clock: u64) {
    for _ in 0..clock {
        turn_before(rt, console, clock);
    }
}

/// Two consoles have the same clocks, transfers and serial registers.
fn are_the_same<R: Abort>(rt: &R, case: &str, one: &Play, other: &Play) {
    let looks = [
        Clock,
        Was,
        TransfersKept,
        Half(0x120),
        Half(0x122),
        Half(0x128),
        Half(0x12A),
        Half(0x134),
        Half(0x202),
    ];
    show_the_same(rt, case, one, other, &looks);
    for place in 0..one.words().len() {
        let words = (
            one.words().get(place).copied(),
            other.words().get(place).copied(),
        );
        is(rt, case, words.0, words.1);
    }
}

static SOURCES: [(&str, &[u8]); 4] = [
    ("starts Multi alone", STARTS_ALONE),
    ("starts a word", STARTS_WORD),
    ("starts a byte", STARTS_BYTE),
    ("awaits Multi", AWAITS_MULTI),
];

/// A console alone makes the same steps by turns as by a run.
#[test]
fn runs_are_turns(rt: HostRuntime) -> Result<(), Fail> {
    for &(case, source) in &SOURCES {
        let mut one = console_of(rt.alloc(), ALONE, source)?;
        let mut other = console_of(rt.alloc(), ALONE, source)?;
        one.run(&rt, 9_001);
        turn_to(&rt, &mut other, 9_001);
        are_the_same(&rt, case, &one, &other);
    }
    Ok(())
}
