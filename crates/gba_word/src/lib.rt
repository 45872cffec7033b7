#![tactic(auto)]
//! Arithmetic on the ARM7TDMI's 32-bit words, and their hexadecimal digits. Each function is the arithmetic of whole
//! numbers that its contract names.

ghost use Rattle.std.specs.Prelude.{◌≡◌, ◌+◌, ◌<◌, ◌≤◌};
ghost use Rattle.gba_terms.specs.Bits.{field, bit};
ghost use Rattle.gba_word.specs.Extension.{sign_extension};

pub mod hexadecimal;
mod kinds;
mod shifter;
mod sums;
mod weights;

pub use kinds::Shift;
pub use shifter::{rotate, rotate_immediate, shift, shift_fixed, shift_within};
pub use sums::{Sum, add_carry, add_plain, subtract};
pub use weights::{weight_byte, weight_half, weight_word};

/// The number in the `width` bits of `value` from bit `low` up.
pub fn bits(value: u32, low: u32, width: u32) -> u32
    requires { low + width ≤ 32 }
    ensures { result ≡ field value low width }
{
    let mask = (1u64 << width) - 1;
    ((u64::from(value) >> low) & mask) as u32
}

/// Whether bit `place` of `value` is set. Bit 0 is the lowest.
pub fn bit(value: u32, place: u32) -> bool
    requires { place < 32 }
    ensures { result ≡ bit value place }
{
    (value >> place) % 2 == 1
}

/// The low `width` bits of `value`, from 1 to 32 of them, as a signed number of 32 bits. Bits above don't count.
pub fn sign_extend(value: u32, width: u32) -> u32
    requires positive { 0 < width }
    requires most { width ≤ 32 }
    ensures { result ≡ sign_extension value width }
{
    let low = bits(value, 0, width);
    if bit(value, width - 1) {
        (u64::from(low) + ((1 << 32) - (1 << width))) as u32
    } else {
        low
    }
}
