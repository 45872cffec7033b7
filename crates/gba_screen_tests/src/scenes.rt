//! Scenes of several frames.

use crate::player::{Player, What};
use What::{Copy, OfFrame, OfLine, Random, Register, Store, StoreFrame, StoreLine};
use gba_bus::Width::{Byte, Half, Word};
use std::alloc::Global;
use std::process::Abort;
use std::test::Fail;

/// What a scene does before some lines of each frame: its number, the first and the last line, and what.
static CHANGES: [(u32, u16, u16, What); 52] = [
    // A picture that stays: three layers and sprites.
    (0, 0, 0, Register(0x00, 0x1700)),
    // A palette for each line.
    (1, 0, 0, Register(0x00, 0x1F00)),
    (1, 0, 159, StoreLine(0x0500_0000, Half)),
    // A scroll in line 80 that is the same in each frame.
    (2, 0, 0, Register(0x00, 0x0100)),
    (2, 0, 0, Register(0x10, 3)),
    (2, 80, 80, Register(0x10, 77)),
    // One that is another in each frame.
    (3, 0, 0, Register(0x00, 0x0300)),
    (3, 0, 0, Register(0x12, 0)),
    (3, 80, 80, OfFrame(0x12, 5, 1)),
    // One for each line, and another one in each frame from line 100.
    (4, 0, 0, Register(0x00, 0x0500)),
    (4, 0, 99, OfLine(0x10, 0, 3)),
    (4, 100, 159, OfFrame(0x10, 9, 3)),
    // Reference points that are written for each line, and once in a frame.
    (5, 0, 0, Register(0x00, 0x0402)),
    (5, 0, 0, Register(0x20, 0x0123)),
    (5, 0, 0, Register(0x26, 0x00F1)),
    (5, 0, 159, OfLine(0x28, 0x0100, 0x0080)),
    (6, 0, 0, Register(0x00, 0x0C02)),
    (6, 0, 0, Register(0x30, 0x0123)),
    (6, 0, 0, Register(0x22, 0x0010)),
    (6, 0, 0, Register(0x36, 0x00F1)),
    (6, 90, 90, OfFrame(0x3C, 0x0100, 0x0300)),
    // Five modes in a frame, and a blank part.
    (7, 0, 0, Register(0x00, 0x1F00)),
    (7, 30, 30, Register(0x00, 0x1F01)),
    (7, 60, 60, Register(0x00, 0x1F02)),
    (7, 90, 90, Register(0x00, 0x1403)),
    (7, 120, 120, Register(0x00, 0x1404)),
    (7, 130, 139, Register(0x00, 0x1484)),
    (7, 140, 140, Register(0x00, 0x1F00)),
    // OAM by bytes, which are dropped, by halfwords that are there, and by others.
    (8, 0, 0, Register(0x00, 0x1000)),
    (8, 10, 150, Store(0, 0x0700_0000, Byte, 0x5A)),
    (9, 0, 0, Register(0x00, 0x1040)),
    (9, 20, 20, Copy(0x0700_0000, 0x200)),
    (9, 100, 100, Copy(0x0700_0000, 0x200)),
    (10, 0, 0, Register(0x00, 0x1040)),
    (10, 50, 50, StoreFrame(0x0700_0000, Half)),
    // The VRAM by bytes at both sides of the tiles of sprites, in modes that have them elsewhere.
    (11, 0, 0, Register(0x00, 0x1100)),
    (11, 40, 40, Store(0, 0x0600_FFFF, Byte, 0x11)),
    (11, 41, 41, Store(0, 0x0601_0000, Byte, 0x22)),
    (11, 42, 42, Store(3, 0x0601_0000, Byte, 0x33)),
    (11, 43, 43, Store(3, 0x0601_4000, Byte, 0x44)),
    (11, 44, 159, Store(0, 0x0601_0000, Byte, 0x55)),
    // A byte of a word that changes: in the VRAM of a bitmap, and in the palette.
    (12, 0, 0, Register(0x00, 0x0404)),
    (12, 70, 70, StoreFrame(0x0600_4B00, Word)),
    (13, 0, 0, Register(0x00, 0x0403)),
    (13, 70, 72, StoreLine(0x0600_9600, Word)),
    (14, 0, 0, Register(0x00, 0x1F00)),
    (14, 50, 50, StoreFrame(0x0500_0000, Word)),
    // Memory that no line is drawn of.
    (15, 0, 0, Register(0x00, 0x1100)),
    (15, 0, 159, StoreLine(0x0200_0000, Word)),
    (15, 0, 159, StoreLine(0x0300_0000, Word)),
    // Anything.
    (16, 0, 0, Register(0x00, 0x1F00)),
    (16, 25, 125, Random),
];

/// How many scenes there are, and how many frames of each are drawn.
const SCENES: u32 = 17;

const FRAMES: u16 = 5;

/// Which frames are kept, by bits, and whether lines are looked at within them.
static WAYS: [(u16, bool); 5] = [
    (0b1_1111, false),
    (0b1_1111, true),
    (0b1_0000, false),
    (0b1_0110, false),
    (0b0_0000, true),
];

fn change(player: &mut Player, scene: u32, frame: u16, line: u16) {
    for (number, first, last, what) in &CHANGES {
        if *number == scene && *first <= line && line <= *last {
            player.play(*what, frame, line);
        }
    }
}

/// Draws the lines of a frame, and looks at one now and then.
fn draw<R: Abort>(
    rt: &R,
    player: &mut Player,
    scene: u32,
    frame: u16,
    looks: bool,
) -> Result<(), Fail> {
    for line in 0..160u16 {
        change(player, scene, frame, line);
        player.draw(rt, u32::from(line))?;
        if looks && line % 7 == frame % 7 {
            player.look(rt, u32::from(line) * 5 % (u32::from(line) + 1));
        }
    }
    Ok(())
}

fn play<R: Abort>(rt: &R, alloc: Global, scene: u32, kept: u16, looks: bool) -> Result<(), Fail> {
    let mut player = Player::new(alloc, 0x5EED + u64::from(scene))?;
    for frame in 0..FRAMES {
        draw(rt, &mut player, scene, frame, looks)?;
        player.end_frame(rt, alloc, kept >> frame & 1 == 1)?;
    }
    Ok(())
}

#[test]
fn lines_are_those_of_their_hblank(rt: HostRuntime) -> Result<(), Fail> {
    for scene in 0..SCENES {
        for (kept, looks) in &WAYS {
            play(&rt, rt.alloc(), scene, *kept, *looks)?;
        }
    }
    Ok(())
}
