//! The frames of a console: when they are whole, and which registers and memories their lines are drawn by.

use crate::course::Code::Words;
use crate::course::Look::{Clock, Colour, FrameBytes, FrameBytesNot0, Frames, Pairs};
use crate::course::Move::{Forget, Run, Shows};
use crate::course::{Course, PLAIN, console_of_words, go_through, shows};
use crate::play::Play;
use std::process::Abort;
use std::test::Fail;

static COURSES: [Course; 2] = [
    // Line 159 of a frame is drawn in the cycle that ends at clock 196,894 of it, and 280,896 cycles later in the next.
    // A branch to itself takes 3 cycles, so that the first frame is whole in the step that ends at 196,896.
    Course {
        name: "frames are whole with line 159",
        bios: Words(&[0xEAFF_FFFE]),
        moves: &[
            Run(196_893),
            Shows(Clock, 196_893),
            Shows(Frames, 0),
            Shows(FrameBytes, 0),
            Shows(Pairs, 384),
            Run(196_894),
            Shows(Clock, 196_896),
            Shows(Frames, 1),
            Shows(FrameBytes, 76_800),
            Shows(Pairs, 384),
            Run(477_789),
            Shows(Clock, 477_789),
            Shows(Frames, 1),
            Shows(FrameBytes, 76_800),
            Shows(Pairs, 933),
            Run(477_790),
            Shows(Clock, 477_792),
            Shows(Frames, 2),
            Shows(FrameBytes, 153_600),
            Shows(Pairs, 933),
            Run(1_000_000),
            Shows(Clock, 1_000_002),
            Shows(Frames, 3),
            Shows(FrameBytes, 230_400),
            Shows(Pairs, 1953),
            Shows(FrameBytesNot0, 0),
            Forget(1_000_000),
            Shows(Frames, 3),
            Shows(FrameBytes, 0),
            Shows(Pairs, 1953),
        ],
        ..PLAIN
    },
    // DISPCNT as 0080h makes the screen white, whatever else is set: MOV r0, #04000000h; MOV r1, #80h; STRH r1, [r0];
    // and a branch to itself.
    Course {
        name: "a blank screen is white",
        bios: Words(&[0xE3A0_0301, 0xE3A0_1080, 0xE1C0_10B0, 0xEAFF_FFFE]),
        moves: &[
            Run(200_000),
            Shows(Colour(0, 0, 0), 0x7FFF),
            Shows(Colour(0, 0, 239), 0x7FFF),
            Shows(Colour(0, 80, 0), 0x7FFF),
            Shows(Colour(0, 80, 239), 0x7FFF),
            Shows(Colour(0, 159, 0), 0x7FFF),
            Shows(Colour(0, 159, 239), 0x7FFF),
        ],
        ..PLAIN
    },
];

#[test]
fn frames_are_whole_and_blank(rt: HostRuntime) -> Result<(), Fail> {
    go_through(&rt, rt.alloc(), &COURSES)
}

/// A line of a frame has its own number as its colour.
fn has_line<R: Abort>(rt: &R, console: &Play, frame: usize, line: usize) {
    for column in [0, 1, 120, 239] {
        let look = Colour(frame, line, column);
        shows(rt, console, "lines of VCOUNT", look, line as u64);
    }
}

/// A program that stores VCOUNT as the backdrop's colour all the time: each line has its own number as its colour,
/// since it is drawn when its HBlank begins, by the palette as it is then.
#[test]
fn lines_are_drawn_when_their_hblank_begins(rt: HostRuntime) -> Result<(), Fail> {
    // MOV r0, #04000000h; MOV r1, #05000000h; LDRH r2, [r0, #6]; STRH r2, [r1]; B back to the load
    static WORDS: [u32; 5] = [
        0xE3A0_0301,
        0xE3A0_1405,
        0xE1D0_20B6,
        0xE1C1_20B0,
        0xEAFF_FFFC,
    ];
    let mut console = console_of_words(rt.alloc(), &WORDS)?;
    console.run(&rt, 500_000);
    shows(&rt, &console, "lines of VCOUNT", Frames, 2);
    for frame in 0..2 {
        for line in 0..160 {
            has_line(&rt, &console, frame, line);
        }
    }
    Ok(())
}
