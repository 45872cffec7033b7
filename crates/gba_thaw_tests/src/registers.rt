//! The bits of the I/O registers. A frozen file may have all that there are at once, and no other one.

ghost use Rattle.std.specs.Prelude.{◌<◌};

use crate::cases::{ALONE, BEHIND, Change, FRONT, Outcome, add_lines};
use crate::playing::comes_to;
use std::alloc::Global;
use std::fmt::Write;
use std::process::Abort;
use std::test::Fail;
use std::thread::Threads;

/// The halfwords that have bits: an offset, how many they are from there on, and the bits of each (GBATEK, GBA I/O
/// Map). Where they say what stands elsewhere they are as in the file: it is at dot 0 of line 0, all keys are free, and
/// the mode is Other.
static BITS: [(usize, usize, u16); 66] = [
    (0x000, 1, 0xFFF7),
    (0x004, 1, 0xFF38),
    (0x008, 2, 0xDFFF),
    (0x00C, 2, 0xFFFF),
    (0x010, 8, 0x01FF),
    (0x020, 5, 0xFFFF),
    (0x02A, 1, 0x0FFF),
    (0x02C, 1, 0xFFFF),
    (0x02E, 1, 0x0FFF),
    (0x030, 5, 0xFFFF),
    (0x03A, 1, 0x0FFF),
    (0x03C, 1, 0xFFFF),
    (0x03E, 1, 0x0FFF),
    (0x040, 4, 0xFFFF),
    (0x048, 2, 0x3F3F),
    (0x050, 1, 0x3FFF),
    (0x052, 1, 0x1F1F),
    (0x054, 1, 0x001F),
    (0x060, 1, 0x007F),
    (0x062, 1, 0xFFFF),
    (0x064, 1, 0x47FF),
    (0x068, 1, 0xFFFF),
    (0x06C, 1, 0x47FF),
    (0x070, 1, 0x00E0),
    (0x072, 1, 0xE0FF),
    (0x074, 1, 0x47FF),
    (0x078, 1, 0xFF3F),
    (0x07C, 1, 0x40FF),
    (0x080, 1, 0xFF77),
    (0x082, 1, 0x770F),
    (0x084, 1, 0x0080),
    (0x088, 1, 0xC3FE),
    (0x090, 8, 0xFFFF),
    (0x0B0, 1, 0xFFFF),
    (0x0B2, 1, 0x07FF),
    (0x0B4, 1, 0xFFFF),
    (0x0B6, 1, 0x07FF),
    (0x0B8, 1, 0x3FFF),
    (0x0BA, 1, 0xF7E0),
    (0x0BC, 1, 0xFFFF),
    (0x0BE, 1, 0x0FFF),
    (0x0C0, 1, 0xFFFF),
    (0x0C2, 1, 0x07FF),
    (0x0C4, 1, 0x3FFF),
    (0x0C6, 1, 0xF7E0),
    (0x0C8, 1, 0xFFFF),
    (0x0CA, 1, 0x0FFF),
    (0x0CC, 1, 0xFFFF),
    (0x0CE, 1, 0x07FF),
    (0x0D0, 1, 0x3FFF),
    (0x0D2, 1, 0xF7E0),
    (0x0D4, 1, 0xFFFF),
    (0x0D6, 1, 0x0FFF),
    (0x0D8, 1, 0xFFFF),
    (0x0DA, 1, 0x0FFF),
    (0x0DC, 1, 0xFFFF),
    (0x0DE, 1, 0xFFE0),
    (0x100, 1, 0xFFFF),
    (0x102, 1, 0x00C3),
    (0x104, 1, 0xFFFF),
    (0x106, 1, 0x00C7),
    (0x108, 1, 0xFFFF),
    (0x10A, 1, 0x00C7),
    (0x10C, 1, 0xFFFF),
    (0x10E, 1, 0x00C7),
    (0x120, 4, 0xFFFF),
];

static MORE_BITS: [(usize, usize, u16); 9] = [
    (0x128, 1, 0x70CB),
    (0x12A, 1, 0xFFFF),
    (0x130, 1, 0x03FF),
    (0x132, 1, 0xC3FF),
    (0x134, 1, 0xC000),
    (0x200, 2, 0x3FFF),
    (0x204, 1, 0x5FFF),
    (0x208, 1, 0x0001),
    (0x300, 1, 0x0001),
];

/// The lines that say the same of the timers and of the bank of the wave that plays.
static CHANGES: [Change; 5] = [
    ("timer 0 ", "timer 0 0 65535 195 0"),
    ("timer 1 ", "timer 1 0 65535 199 0"),
    ("timer 2 ", "timer 2 0 65535 199 0"),
    ("timer 3 ", "timer 3 0 65535 199 0"),
    ("wave 0 ", "wave 0 ffffffffffffffffffffffffffffffff"),
];

/// The bits of a halfword.
fn bits_at(offset: usize) -> u16 {
    for &(first, count, bits) in BITS.iter().chain(&MORE_BITS) {
        if first <= offset && (offset - first) / 2 < count {
            return bits;
        }
    }
    0
}

/// Turns bits of the halfword of this number.
fn turn_bits(io: &mut [u8; 1024], half: usize, bits: u16)
    requires { half < 512 }
{
    let [low, high] = bits.to_le_bytes();
    io[2 * half] ^= low;
    io[2 * half + 1] ^= high;
}

/// All bits.
fn all_bits() -> [u8; 1024] {
    let mut io = [0; 1024];
    for half in 0..512 {
        turn_bits(&mut io, half, bits_at(2 * half));
    }
    io
}

/// Adds the line of 32 bytes from an offset on.
fn add_row(text: &mut String, offset: usize, bytes: &[u8]) -> Result<(), Fail> {
    write!(text, "mem io {offset:06x} ")?;
    for byte in bytes {
        write!(text, "{byte:02x}")?;
    }
    text.push_str("\n")?;
    Ok(())
}

/// Adds the lines that aren't all zeros.
fn add_io(text: &mut String, io: &[u8; 1024]) -> Result<(), Fail> {
    for row in 0..32 {
        let bytes = &io[32 * row..32 * row + 32];
        if bytes.iter().any(|byte| *byte != 0) {
            add_row(text, 32 * row, bytes)?;
        }
    }
    Ok(())
}

/// The frozen file of a console at its start with these registers.
fn text_of(alloc: Global, io: &[u8; 1024]) -> Result<String, Fail> {
    let mut text = String::from_str(alloc, ALONE.head)?;
    add_lines(&mut text, FRONT, &CHANGES)?;
    add_io(&mut text, io)?;
    text.push_str(BEHIND)?;
    text.push_str(ALONE.behind)?;
    Ok(text)
}

#[test]
fn all_bits_are_accepted(rt: HostRuntime) -> Result<(), Fail> {
    let text = text_of(rt.alloc(), &all_bits())?;
    let end = Outcome::GoesOn {
        summary: "console 0 clock 1002 frames 0 samples 1 words 0\n",
        piece: "\nwas 999\n",
    };
    comes_to(&rt, rt.alloc(), "all bits", ALONE.job, text.as_str(), end)
}

/// One bit more is refused.
fn is_refused<R: Abort + Threads + Sync>(
    rt: &R,
    alloc: Global,
    offset: usize,
    bit: u16,
) -> Result<(), Fail> {
    assert!(rt; offset < 1024);
    let mut io = all_bits();
    turn_bits(&mut io, offset / 2, bit);
    let text = text_of(alloc, &io)?;
    let name = format!(in alloc; "bit {bit:04x} at {offset:03x}")?;
    comes_to(
        rt,
        alloc,
        name.as_str(),
        ALONE.job,
        text.as_str(),
        Outcome::Unsound,
    )
}

/// The lowest and the highest bit that isn't there, if any.
fn missing(bits: u16) -> [u16; 2] {
    let low = bits.trailing_ones();
    let high = bits.leading_ones();
    if low >= 16 || high >= 16 {
        return [0, 0];
    }
    [1 << low, 0x8000 >> high]
}

/// Of the halfwords of a line of the table the first one is refused with another bit.
fn others_are_refused<R: Abort + Threads + Sync>(
    rt: &R,
    alloc: Global,
    lines: &[(usize, usize, u16)],
) -> Result<(), Fail> {
    for &(offset, _, bits) in lines {
        let [low, high] = missing(bits);
        if low != 0 {
            is_refused(rt, alloc, offset, low)?;
            is_refused(rt, alloc, offset, high)?;
        }
    }
    Ok(())
}

#[test]
fn other_bits_are_refused(rt: HostRuntime) -> Result<(), Fail> {
    others_are_refused(&rt, rt.alloc(), &BITS)?;
    others_are_refused(&rt, rt.alloc(), &MORE_BITS)
}

/// Offsets of halfwords that have no bits: one beside those of each device, and the last one.
static OTHERS: [usize; 20] = [
    0x002, 0x006, 0x04C, 0x04E, 0x056, 0x066, 0x06E, 0x07E, 0x086, 0x08A, 0x0A0, 0x0A4, 0x0E0,
    0x110, 0x12C, 0x136, 0x206, 0x20A, 0x302, 0x3FE,
];

#[test]
fn other_halfwords_are_refused(rt: HostRuntime) -> Result<(), Fail> {
    for &offset in &OTHERS {
        is_refused(&rt, rt.alloc(), offset, 1)?;
    }
    Ok(())
}
