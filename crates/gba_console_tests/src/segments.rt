//! A console that runs in segments, between which its lists are emptied: the lists of the segments, one behind the
//! other, are those of one run.

use crate::course::Look::{
    Clock, Dot, FrameBytes, Frames, Line, Pairs, SampleBytes, Transfers, TransfersKept, Until, Was,
};
use crate::course::Move::{Run, Shows};
use crate::course::{goes, is, show_the_same, shows};
use crate::off::LOOPS;
use crate::play::{ALONE, Play, images_of_source};
use gba_io::Room;
use gba_serial::Transfer;
use std::alloc::Global;
use std::process::Abort;
use std::test::Fail;

/// Counts in r7 all the time: for the backdrop's colour, for a sound queue that timer 0 empties, and as the word of one
/// transfer after another.
const MAKES_ALL: &[u8] = b"
        mov r5, #0x04000000
        add r4, r5, #0x100
        mov r6, #0x05000000
        mov r0, #0x80
        strh r0, [r5, #0x84]
        ldr r0, sound
        strh r0, [r5, #0x82]
        ldr r0, timer
        str r0, [r4]
        mov r0, #0
        strh r0, [r4, #0x34]
        ldr r8, go
loop:   str r7, [r4, #0x20]
        strh r8, [r4, #0x28]
wait:   add r7, r7, #1
        strh r7, [r6]
        str r7, [r5, #0xa0]
        ldrh r0, [r4, #0x28]
        tst r0, #0x80
        bne wait
        b loop
sound:  .word 0x0304
timer:  .word 0x0080ff00
go:     .word 0x1083
";

/// Halts with nothing enabled, at clock 3: each step from there on idles for 16 cycles.
const IDLES: &[u8] = b"
        mov r0, #0x04000000
        strb r0, [r0, #0x301]
";

/// A console alone with this source, off below a clock, with room up to another one.
fn console_of(alloc: Global, source: &[u8], off: u64, until: u64) -> Result<Play, Fail> {
    let room = Room {
        until,
        frames: true,
        samples: true,
        words: true,
    };
    let images = images_of_source(alloc, source)?;
    Play::new(alloc, ALONE, off, images, &[], room)
}

/// What a console kept, one segment behind the other.
#[derive(Drop)]
struct Lists {
    frames: Vec<u8>,
    samples: Vec<u8>,
    words: Vec<Transfer>,
}

impl Lists {
    fn new(alloc: Global) -> Lists {
        Lists {
            frames: Vec::new(alloc),
            samples: Vec::new(alloc),
            words: Vec::new(alloc),
        }
    }

    fn add(&mut self, console: &Play) -> Result<(), Fail> {
        self.frames.extend_from_slice(console.frames())?;
        self.samples.extend_from_slice(console.samples())?;
        self.words.extend_from_slice(console.words())?;
        Ok(())
    }
}

/// Empties the lists, which keeps the counts, and runs to a clock.
fn run_segment<R: Abort>(rt: &R, console: &mut Play, case: &str, until: u64) {
    let counts = console.counts();
    console.forget(rt, until);
    is(rt, case, console.counts(), counts);
    let moves = [
        Shows(Until, until),
        Shows(FrameBytes, 0),
        Shows(SampleBytes, 0),
        Shows(TransfersKept, 0),
        Run(until),
    ];
    goes(rt, console, case, &moves);
}

/// Two consoles have come to the same point.
fn are_the_same<R: Abort>(rt: &R, case: &str, one: &Play, other: &Play) {
    is(rt, case, one.registers(), other.registers());
    let looks = [Clock, Was, Frames, Pairs, Transfers, Line, Dot];
    show_the_same(rt, case, one, other, &looks);
}

/// A console that is off below a clock runs to some clocks one after another.
#[derive(Clone, Copy)]
struct Segments {
    name: &'static str,
    source: &'static [u8],
    off: u64,
    ends: &'static [u64],
    /// How many pairs of samples it has made then: one for each multiple of 512 behind its first step.
    pairs: u64,
}

static SEGMENTS: [Segments; 5] = [
    Segments {
        name: "one",
        source: MAKES_ALL,
        off: 0,
        ends: &[20_000],
        pairs: 39,
    },
    Segments {
        name: "about a pair",
        source: MAKES_ALL,
        off: 0,
        ends: &[1, 511, 512, 513, 1024, 5_000],
        pairs: 9,
    },
    Segments {
        name: "about a frame",
        source: MAKES_ALL,
        off: 0,
        ends: &[196_893, 196_894, 477_790, 500_000],
        pairs: 976,
    },
    Segments {
        name: "empty ones",
        source: MAKES_ALL,
        off: 0,
        ends: &[0, 100_000, 100_000, 100_001, 300_000],
        pairs: 585,
    },
    // Lists that are emptied while it is off, and after. Its first step begins at 1008.
    Segments {
        name: "off below 1000",
        source: LOOPS,
        off: 1000,
        ends: &[500, 1008, 1536, 5000],
        pairs: 8,
    },
];

/// Runs to the clocks one after another, and keeps the lists of each segment behind those of the ones before.
fn run_segments<R: Abort>(
    rt: &R,
    console: &mut Play,
    one: &Segments,
    lists: &mut Lists,
) -> Result<(), Fail> {
    for end in one.ends {
        run_segment(rt, console, one.name, *end);
        lists.add(console)?;
    }
    Ok(())
}

/// The lists are those of one run.
fn are_of_one_run<R: Abort>(rt: &R, case: &str, lists: &Lists, whole: &Play) {
    is(rt, case, lists.frames.as_slice() == whole.frames(), true);
    is(rt, case, lists.samples.as_slice() == whole.samples(), true);
    is(rt, case, lists.words.as_slice() == whole.words(), true);
}

/// A run to a clock at once comes to the same, and has made so many pairs.
fn is_one_run<R: Abort>(
    rt: &R,
    alloc: Global,
    one: &Segments,
    parts: &Play,
    lists: &Lists,
) -> Result<(), Fail> {
    let last = one.ends.last().copied().unwrap_or(0);
    let mut whole = console_of(alloc, one.source, one.off, last)?;
    whole.run(rt, last);
    are_the_same(rt, one.name, parts, &whole);
    shows(rt, &whole, one.name, Pairs, one.pairs);
    are_of_one_run(rt, one.name, lists, &whole);
    Ok(())
}

/// Runs to the clocks one after another, and to the last one at once.
fn segments_make_a_run<R: Abort>(rt: &R, alloc: Global, one: &Segments) -> Result<(), Fail> {
    let mut parts = console_of(alloc, one.source, one.off, 0)?;
    let mut lists = Lists::new(alloc);
    run_segments(rt, &mut parts, one, &mut lists)?;
    is_one_run(rt, alloc, one, &parts, &lists)
}

#[test]
fn segments_are_one_run(rt: HostRuntime) -> Result<(), Fail> {
    for one in &SEGMENTS {
        segments_make_a_run(&rt, rt.alloc(), one)?;
    }
    Ok(())
}

/// A clock to run to, the clock that the console comes to, and how many pairs and frames it makes on the way.
static STRETCHES: [(u64, u64, u64, u64); 4] = [
    (16_777_216, 16_777_219, 32_768, 60),
    (16_777_217, 16_777_219, 0, 0),
    (16_778_240, 16_778_243, 2, 0),
    (33_554_432, 33_554_435, 32_766, 59),
];

/// A pair is made at each multiple of 512, and a frame is whole at clock 196,894 and each 280,896 cycles from there on.
/// The steps end 3 cycles past the multiples of 16.
#[test]
fn segments_have_their_pairs_and_frames(rt: HostRuntime) -> Result<(), Fail> {
    let mut console = console_of(rt.alloc(), IDLES, 0, 0)?;
    for &(until, clock, pairs, frames) in &STRETCHES {
        assert!(rt; pairs <= 1 << 16 && frames <= 1 << 8);
        run_segment(&rt, &mut console, "stretches", until);
        let moves = [
            Shows(Clock, clock),
            Shows(SampleBytes, 4 * pairs),
            Shows(FrameBytes, 76_800 * frames),
        ];
        goes(&rt, &mut console, "stretches", &moves);
    }
    goes(
        &rt,
        &mut console,
        "stretches",
        &[Shows(Pairs, 65_536), Shows(Frames, 119)],
    );
    Ok(())
}
