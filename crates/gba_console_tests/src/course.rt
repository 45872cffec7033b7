//! Courses of a console by itself: what it is made of, the moves that it makes, and what it shows between them.

use crate::course::Code::{Source, Words};
use crate::course::Look::{
    Active, Byte, Clock, Colour, Dot, FrameBytes, FrameBytesNot0, Frames, Half, Halted, Length,
    Line, Pairs, Pending, Register, Sample, SampleBytes, Transfers, TransfersKept, Until, Was,
};
use crate::course::Move::{Forget, Run, Shows, Steps};
use crate::play::{ALONE, Play, cartridge_of, images_of_source, images_of_words};
use gba_console::KeyState;
use gba_image::{Backup, ConsoleImages};
use gba_io::{MemoryName, Room};
use std::alloc::Global;
use std::fmt::Debug;
use std::process::Abort;
use std::test::Fail;

/// Room for a million cycles, where everything is kept.
pub(crate) const ROOM: Room = Room {
    until: 1_000_000,
    frames: true,
    samples: true,
    words: true,
};

/// What stands at the front of a BIOS.
#[derive(Clone, Copy)]
pub(crate) enum Code {
    Words(&'static [u32]),
    Source(&'static [u8]),
}

/// A number that a console shows.
#[derive(Clone, Copy, Debug)]
pub(crate) enum Look {
    Clock,
    /// The clock at which its last step began.
    Was,
    /// The end of the room of its lists.
    Until,
    /// A register, by its place in the list of all of them.
    Register(usize),
    /// A halfword of the I/O registers, by its offset.
    Half(u32),
    /// A byte of a memory.
    Byte(MemoryName, usize),
    /// How many bytes a memory has.
    Length(MemoryName),
    /// Whether it is halted: 1 or 0.
    Halted,
    /// Whether an enabled interrupt is requested: 1 or 0.
    Pending,
    /// Whether the run of a DMA channel goes on: 1 or 0.
    Active(u32),
    /// How many frames, pairs of samples and transfers it has made.
    Frames,
    Pairs,
    Transfers,
    /// How much of them its lists have.
    FrameBytes,
    SampleBytes,
    TransfersKept,
    /// How many bytes of the frames are not 0.
    FrameBytesNot0,
    /// A byte of the samples.
    Sample(usize),
    /// The colour at a line and a column of a frame.
    Colour(usize, usize, usize),
    /// The line and the dot of the picture.
    Line,
    Dot,
}

/// What is done with a console, or looked at.
#[derive(Clone, Copy)]
pub(crate) enum Move {
    /// So many steps.
    Steps(u64),
    /// Steps up to a clock.
    Run(u64),
    /// Empties its lists, with room up to a clock.
    Forget(u64),
    Shows(Look, u64),
}

/// A console that is alone and always on, and the moves that it makes.
#[derive(Clone, Copy)]
pub(crate) struct Course {
    pub name: &'static str,
    pub bios: Code,
    /// The words of a cartridge from C0h up.
    pub cart: Option<&'static [u32]>,
    pub backup: Backup,
    pub keys: &'static [KeyState],
    pub moves: &'static [Move],
}

/// A BIOS of words 0, no cartridge, no keys, and no moves.
pub(crate) const PLAIN: Course = Course {
    name: "plain",
    bios: Words(&[]),
    cart: None,
    backup: Backup::Sram,
    keys: &[],
    moves: &[],
};

fn images_of_code(alloc: Global, code: Code) -> Result<ConsoleImages, Fail> {
    match code {
        Words(words) => images_of_words(alloc, words),
        Source(source) => images_of_source(alloc, source),
    }
}

/// A console whose BIOS begins with words.
pub(crate) fn console_of_words(alloc: Global, words: &[u32]) -> Result<Play, Fail> {
    let images = images_of_words(alloc, words)?;
    Play::new(alloc, ALONE, 0, images, &[], ROOM)
}

/// A console with changes of its keys.
pub(crate) fn console_with_keys(
    alloc: Global,
    code: Code,
    keys: &[KeyState],
) -> Result<Play, Fail> {
    let images = images_of_code(alloc, code)?;
    Play::new(alloc, ALONE, 0, images, keys, ROOM)
}

fn console_of(alloc: Global, course: &Course) -> Result<Play, Fail> {
    let mut images = images_of_code(alloc, course.bios)?;
    images.backup = course.backup;
    if let Some(words) = course.cart {
        images.cart = Some(cartridge_of(alloc, words)?);
    }
    Play::new(alloc, ALONE, 0, images, course.keys, ROOM)
}

fn byte_at<R: Abort>(rt: &R, bytes: &[u8], at: usize) -> u8 {
    assert!(rt; at < bytes.len());
    bytes[at]
}

/// The colour at a line and a column of a frame.
fn colour_at<R: Abort>(rt: &R, frames: &[u8], frame: usize, line: usize, column: usize) -> u16 {
    assert!(rt; frame < 4 && line < 160 && column < 240);
    let at = 2 * ((160 * frame + line) * 240 + column);
    u16::from_le_bytes([byte_at(rt, frames, at), byte_at(rt, frames, at + 1)])
}

/// What a console shows.
fn seen<R: Abort>(rt: &R, console: &Play, look: Look) -> u64 {
    match look {
        Clock => console.clock(),
        Was => console.was(),
        Until => console.until(),
        Register(place) => u64::from(console.register(rt, place)),
        Half(offset) => u64::from(console.io_half(offset)),
        Byte(name, at) => u64::from(byte_at(rt, console.memory(name), at)),
        Length(name) => console.memory(name).len() as u64,
        Halted => u64::from(console.is_halted()),
        Pending => u64::from(console.is_pending()),
        Active(channel) => u64::from(console.is_active(rt, channel)),
        Frames => console.counts().frames,
        Pairs => console.counts().samples,
        Transfers => console.counts().words,
        FrameBytes => console.frames().len() as u64,
        SampleBytes => console.samples().len() as u64,
        TransfersKept => console.words().len() as u64,
        FrameBytesNot0 => console.frames().iter().filter(|byte| **byte != 0).count() as u64,
        Sample(at) => u64::from(byte_at(rt, console.samples(), at)),
        Colour(frame, line, column) => {
            u64::from(colour_at(rt, console.frames(), frame, line, column))
        }
        Line => u64::from(console.place().0),
        Dot => u64::from(console.place().1),
    }
}

/// It is this.
pub(crate) fn is<R: Abort, T: Copy + PartialEq + Debug>(rt: &R, what: &str, got: T, wanted: T) {
    assert_eq!(rt; got, wanted, "{what}");
}

/// A console shows this number.
pub(crate) fn shows<R: Abort>(rt: &R, console: &Play, case: &str, look: Look, wanted: u64) {
    let got = seen(rt, console, look);
    assert_eq!(rt; got, wanted, "{case}, {look:?}");
}

/// Two consoles show the same numbers.
pub(crate) fn show_the_same<R: Abort>(
    rt: &R,
    case: &str,
    one: &Play,
    other: &Play,
    looks: &[Look],
) {
    for look in looks {
        shows(rt, one, case, *look, seen(rt, other, *look));
    }
}

fn steps<R: Abort>(rt: &R, console: &mut Play, count: u64) {
    for _ in 0..count {
        console.step(rt);
    }
}

/// A console makes these moves.
pub(crate) fn goes<R: Abort>(rt: &R, console: &mut Play, case: &str, moves: &[Move]) {
    for one in moves {
        match *one {
            Steps(count) => steps(rt, console, count),
            Run(until) => console.run(rt, until),
            Forget(until) => console.forget(rt, until),
            Shows(look, wanted) => shows(rt, console, case, look, wanted),
        }
    }
}

/// The console of each course makes its moves.
pub(crate) fn go_through<R: Abort>(rt: &R, alloc: Global, courses: &[Course]) -> Result<(), Fail> {
    for course in courses {
        let mut console = console_of(alloc, course)?;
        goes(rt, &mut console, course.name, course.moves);
    }
    Ok(())
}
