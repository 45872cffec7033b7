//! What lines are drawn of is replaced, and so are the lines.

use crate::player::{Player, Replaced, What};
use Replaced::{All, Bytes, Machine};
use gba_flash::FlashState;
use gba_mem::MemoryPart::{Backup, Inner, Oam, Palette, Vram, Work};
use std::alloc::Global;
use std::process::Abort;
use std::test::Fail;

/// What is replaced before line 80 of two frames.
static REPLACED: [(Replaced, Replaced); 8] = [
    (Bytes(Palette, 0x3C), Bytes(Palette, 0x5A)),
    (Bytes(Vram, 0x3C), Bytes(Vram, 0x5A)),
    (Bytes(Oam, 0x3C), Bytes(Oam, 0x5A)),
    (Bytes(Work, 0x3C), Bytes(Inner, 0x5A)),
    (Bytes(Backup, 0x3C), Machine),
    (All, All),
    (All, Bytes(Palette, 0x5A)),
    (Bytes(Oam, 0x3C), All),
];

/// A player that shows three layers and sprites.
fn player_of(alloc: Global) -> Result<Player, Fail> {
    let mut player = Player::new(alloc, 7)?;
    player.play(What::Register(0x00, 0x1700), 0, 0);
    Ok(player)
}

/// Draws a part of a frame.
fn draw_lines<R: Abort>(rt: &R, player: &mut Player, first: u32, end: u32) -> Result<(), Fail> {
    assert!(rt; end <= 160);
    for line in first..end {
        player.draw(rt, line)?;
    }
    Ok(())
}

/// A line stays that was drawn before, and a later one is drawn of what stands there then, also in a frame whose lines
/// have the registers that they had in the last one.
#[test]
fn lines_stay_where_memories_are_replaced(rt: HostRuntime) -> Result<(), Fail> {
    for (first, second) in &REPLACED {
        let mut player = player_of(rt.alloc())?;
        for replaced in [*first, *second] {
            draw_lines(&rt, &mut player, 0, 80)?;
            player.replace(&rt, replaced);
            player.look(&rt, 0);
            player.look(&rt, 79);
            draw_lines(&rt, &mut player, 80, 160)?;
            player.end_frame(&rt, rt.alloc(), true)?;
        }
    }
    Ok(())
}

/// What was replaced stands there.
#[test]
fn what_is_replaced_is_read(rt: HostRuntime) -> Result<(), Fail> {
    let mut player = player_of(rt.alloc())?;
    player.replace(&rt, Bytes(Oam, 0x3C));
    assert_eq!(rt; player.memory().oam().last().copied(), Some(0x3C));
    player.replace(&rt, Machine);
    let state = player.memory().flash_machine().ok_or("no flash")?.state;
    assert_eq!(rt; state, FlashState::Program);
    player.replace(&rt, All);
    assert!(rt; player.memory().oam().iter().all(|byte| *byte == 0));
    assert!(rt; player.memory().backup_bytes().iter().all(|byte| *byte == 0));
    Ok(())
}

/// Lines that are set are the frame's, whose other lines are drawn after them; in the next frame all are drawn anew.
#[test]
fn lines_are_set(rt: HostRuntime) -> Result<(), Fail> {
    for count in [0, 1, 79, 159, 160] {
        let mut player = player_of(rt.alloc())?;
        draw_lines(&rt, &mut player, 0, 100)?;
        player.set_lines(&rt, rt.alloc(), count)?;
        if count > 0 {
            player.look(&rt, u32::from(count) - 1);
        }
        draw_lines(&rt, &mut player, u32::from(count), 160)?;
        player.end_frame(&rt, rt.alloc(), true)?;
        draw_lines(&rt, &mut player, 0, 160)?;
        player.end_frame(&rt, rt.alloc(), true)?;
    }
    Ok(())
}
