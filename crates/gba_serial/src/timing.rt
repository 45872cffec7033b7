//! Modes, words and the ends of transfers.

ghost use Rattle.std.specs.Prelude.{◌≡◌, ◌+◌, ◌<◌, ◌≤◌, ◌^◌, ◌*◌};
ghost use Rattle.gba_serial.specs.Timing.{cut_word, is_multi, is_normal, is_same, mode_by, multi_bit_cycles, multi_end, normal_bit_cycles, normal_end, transfer_end, word_width};

use gba_word::{bit, bits};
use link_node::LinkMode;

/// The mode by RCNT and SIOCNT.
pub(crate) fn mode_by(select: u16, control: u16) -> LinkMode
    ensures { result ≡ mode_by select control }
{
    if bit(u32::from(select), 15) {
        return LinkMode::Other;
    }
    match bits(u32::from(control), 12, 2) {
        0 => LinkMode::Normal8,
        1 => LinkMode::Normal32,
        2 => LinkMode::Multi,
        _ => LinkMode::Other,
    }
}

pub(crate) fn is_multi(mode: LinkMode) -> bool
    ensures { result ≡ is_multi mode }
{
    match mode {
        LinkMode::Multi => true,
        LinkMode::Normal8 | LinkMode::Normal32 | LinkMode::Other => false,
    }
}

pub(crate) fn is_normal(mode: LinkMode) -> bool
    ensures { result ≡ is_normal mode }
{
    match mode {
        LinkMode::Normal8 | LinkMode::Normal32 => true,
        LinkMode::Multi | LinkMode::Other => false,
    }
}

pub(crate) fn is_same(one: LinkMode, other: LinkMode) -> bool
    ensures { result ≡ is_same one other }
{
    match (one, other) {
        (LinkMode::Normal8, LinkMode::Normal8) => true,
        (LinkMode::Normal32, LinkMode::Normal32) => true,
        (LinkMode::Multi, LinkMode::Multi) => true,
        (LinkMode::Other, LinkMode::Other) => true,
        _ => false,
    }
}

/// The bits of a transfer's word.
pub(crate) fn word_width(mode: LinkMode) -> u32
    ensures value { result ≡ word_width mode }
    ensures most { result ≤ 32 }
{
    match mode {
        LinkMode::Normal8 => 8,
        LinkMode::Normal32 => 32,
        LinkMode::Multi => 16,
        LinkMode::Other => 0,
    }
}

/// What a transfer takes of a word.
pub(crate) fn cut_word(mode: LinkMode, word: u32) -> u32
    ensures { result ≡ cut_word mode word }
{
    bits(word, 0, word_width(mode))
}

fn multi_bit_cycles(speed: u8) -> u64
    ensures value { result ≡ multi_bit_cycles speed }
    ensures most { result ≤ 1747 }
{
    match speed {
        0 => 1747,
        1 => 436,
        2 => 291,
        _ => 145,
    }
}

fn normal_bit_cycles(speed: u8) -> u64
    ensures value { result ≡ normal_bit_cycles speed }
    ensures most { result ≤ 64 }
{
    if speed == 0 { 64 } else { 8 }
}

/// The clock at which a Multi transfer of so many consoles ends that was started at a clock.
pub(crate) fn multi_end(count: u32, speed: u8, clock: u64) -> u64
    requires count { count ≤ 4 }
    requires clock { clock < 2 ^ 40 }
    ensures value { result ≡ multi_end count speed clock }
    ensures small { result < 2 ^ 41 }
{
    let bits = 18 * u64::from(count);
    clock + bits * multi_bit_cycles(speed)
}

/// The clock at which a Normal transfer ends that was started at a clock.
pub(crate) fn normal_end(round: u64, mode: LinkMode, speed: u8, clock: u64) -> u64
    requires round { round ≤ 2048 }
    requires clock { clock < 2 ^ 40 }
    ensures value { result ≡ normal_end round mode speed clock }
    ensures small { result < 2 ^ 41 }
{
    let shifted = u64::from(word_width(mode)) * normal_bit_cycles(speed);
    clock + shifted.max(round + 514)
}

/// The clock at which a transfer ends that was started at a clock.
pub(crate) fn transfer_end(count: u32, round: u64, mode: LinkMode, speed: u8, clock: u64) -> u64
    requires count { count ≤ 4 }
    requires round { round ≤ 2048 }
    requires clock { clock < 2 ^ 40 }
    ensures value { result ≡ transfer_end count round mode speed clock }
    ensures small { result < 2 ^ 41 }
{
    if is_multi(mode) {
        multi_end(count, speed, clock)
    } else {
        normal_end(round, mode, speed, clock)
    }
}
