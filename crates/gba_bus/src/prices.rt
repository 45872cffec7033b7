//! What accesses cost.

ghost use Rattle.std.specs.Prelude.{◌≡◌, ◌≤◌, ◌<◌, ◌+◌};
ghost use Rattle.gba_bus.specs.Prices.{by_width, first_wait, price, rom_price, second_wait};

use crate::{Region, Width};
use gba_word::{bit, bits};

/// WAITCNT as it is stored (GBATEK, GBA System Control). Bits 0 and 1 choose the wait of the SRAM; bits 2 and 3, 5 and
/// 6, 8 and 9 those of a first access to ROM view 0, 1 and 2: 4, 3, 2 or 8 cycles. Bits 4, 7 and 10 choose those of a
/// second access: 2 or 1, 4 or 1, 8 or 1. No other bit changes a price (this project's profile).
#[derive(Clone, Copy, Debug, PartialEq, Eq)]
pub struct WaitControl {
    pub value: u16,
}

/// The wait of a first access.
fn first(waits: u32, low: u32) -> u32
    requires { low + 2 ≤ 32 }
    ensures value { result ≡ first_wait low waits }
    ensures most { result ≤ 8 }
{
    match bits(waits, low, 2) {
        0 => 4,
        1 => 3,
        2 => 2,
        _ => 8,
    }
}

/// The wait of a second access.
fn second(waits: u32, place: u32, slow: u32) -> u32
    requires place { place < 32 }
    requires slow { slow ≤ 8 }
    ensures value { result ≡ second_wait place slow waits }
    ensures most { result ≤ 8 }
{
    if bit(waits, place) { 1 } else { slow }
}

/// What an access to ROM costs by the waits of a first and of a second access.
fn price_of_rom(first: u32, second: u32, width: Width, sequential: bool) -> u32
    requires first { first ≤ 8 }
    requires second { second ≤ 8 }
    ensures { result ≡ rom_price first second width sequential }
{
    let one = 1 + if sequential { second } else { first };
    match width {
        Width::Byte | Width::Half => one,
        Width::Word => one + (1 + second),
    }
}

/// What an access costs that has one price below 32 bits, and another at 32 bits.
fn price_by_width(narrow: u32, wide: u32, width: Width) -> u32
    ensures { result ≡ by_width narrow wide width }
{
    match width {
        Width::Byte | Width::Half => narrow,
        Width::Word => wide,
    }
}

/// What an access costs, in cycles of 16,777,216 Hz (GBATEK, GBA Memory Map and GBA System Control; the SRAM at 16 and
/// 32 bits this project's profile). The law [`crate::laws::prices_are_within`] says that it is from 1 to 18.
#[tactic(auto, unfolding(crate::specs::Prices::price))]
pub fn price(region: Region, width: Width, sequential: bool, waits: &WaitControl) -> u32
    ensures { result ≡ price region width sequential waits.now.value }
{
    let waits = u32::from(waits.value);
    match region {
        Region::Bios | Region::Inner | Region::Io | Region::Oam | Region::Other => 1,
        Region::Work => price_by_width(3, 6, width),
        Region::Palette | Region::Vram => price_by_width(1, 2, width),
        Region::Rom0 => price_of_rom(first(waits, 2), second(waits, 4, 2), width, sequential),
        Region::Rom1 => price_of_rom(first(waits, 5), second(waits, 7, 4), width, sequential),
        Region::Rom2 => price_of_rom(first(waits, 8), second(waits, 10, 8), width, sequential),
        Region::Sram => 1 + first(waits, 0),
    }
}
