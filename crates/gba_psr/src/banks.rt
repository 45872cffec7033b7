//! The modes and their banks.

ghost use Rattle.std.specs.Prelude.{◌≡◌, ℕ, ◌<◌, slice_index};
ghost use Rattle.gba_psr.specs.Arrangement.{seat};
ghost use Rattle.gba_psr.specs.Modes.{bank_distance, first_banked, is_mode, place, saved_place};

/// Where CPSR stands among the 37 numbers.
pub const CPSR: usize = 31;

pub fn is_mode_number(mode: u32) -> bool
    ensures { result ≡ is_mode mode }
{
    matches!(mode, 0x10 | 0x11 | 0x12 | 0x13 | 0x17 | 0x1b | 0x1f)
}

fn lowest_banked(mode: u32) -> u32
    ensures { result ≡ first_banked mode }
{
    if mode == 0x11 { 8 } else { 13 }
}

fn distance_of_bank(mode: u32) -> u32
    ensures { result ≡ bank_distance mode }
{
    match mode {
        0x11 => 8,
        0x12 => 10,
        0x13 => 12,
        0x17 => 14,
        0x1b => 16,
        _ => 0,
    }
}

/// Which of the 37 is register `number` in this mode.
#[tactic(auto, unfolding(crate::specs::Modes::place))]
pub fn place_of(mode: u32, number: u32) -> usize
    requires { number < 16 }
    ensures place { result ≡ place mode number }
    ensures within { result < 31 }
{
    let banked = lowest_banked(mode) <= number && number <= 14;
    let distance = if banked { distance_of_bank(mode) } else { 0 };
    (number + distance) as usize
}

/// Which of the 37 is this mode's SPSR, and CPSR's place where it has none.
#[tactic(auto, unfolding(crate::specs::Modes::saved_place))]
pub fn saved_place_of(mode: u32) -> usize
    ensures place { result ≡ saved_place mode }
    ensures within { result < 37 }
{
    match mode {
        0x11 => 32,
        0x12 => 33,
        0x13 => 34,
        0x17 => 35,
        0x1b => 36,
        _ => CPSR,
    }
}

/// Exchanges the registers of which this mode has its own with the user's: once to enter the mode, and once
/// to leave it.
pub fn exchange(numbers: &mut [u32; 37], mode: u32)
    ensures { (place : ℕ) → place < 37 → slice_index numbers.new place ≡ slice_index numbers.old (seat mode place) }
{
    let first = lowest_banked(mode) as usize;
    let distance = distance_of_bank(mode) as usize;
    for number in first..15 {
        numbers.swap(number, number + distance);
    }
}

/// Puts the registers of the mode `from` back and takes those of the mode `to`. Nothing moves where the mode stays.
pub fn change_bank(numbers: &mut [u32; 37], from: u32, to: u32)
    ensures { (place : ℕ) → place < 37
        → slice_index numbers.new place ≡ slice_index numbers.old (seat from (seat to place)) }
{
    if from != to {
        exchange(numbers, from);
        exchange(numbers, to);
    }
}
