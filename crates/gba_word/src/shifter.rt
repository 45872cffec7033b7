//! The barrel shifter.

ghost use Rattle.std.specs.Prelude.{◌≡◌, ◌<◌, ◌≤◌, ◌/◌, ◌^◌};
ghost use Rattle.gba_word.specs.Shifts.{
  fixed_shift,
  immediate_value,
  nonzero_shift,
  register_shift,
  rotation,
  zero_shift,
};

use crate::{Shift, bit};

/// `value` turned to the right by `turn` places: what leaves at bit 0 enters at bit 31. A turn of 32 or more counts
/// modulo 32.
pub fn rotate(value: u32, turn: u32) -> u32
    ensures { result ≡ rotation value turn }
{
    value.rotate_right(turn)
}

/// A shift whose amount is the low byte of a register: the word and the carry out. An amount of 0 keeps both.
pub fn shift(kind: Shift, value: u32, amount: u8, carry: bool) -> (u32, bool)
    ensures { result ≡ register_shift kind value amount carry }
{
    let amount = u32::from(amount);
    if amount == 0 {
        (value, carry)
    } else {
        shift_by(kind, value, amount)
    }
}

/// A shift whose amount stands in the instruction: the word and the carry out. `LSL #0` keeps both, `LSR #0` and
/// `ASR #0` mean 32, and `ROR #0` turns by one place through the carry (RRX).
pub fn shift_fixed(kind: Shift, value: u32, amount: u8, carry: bool) -> (u32, bool)
    requires { amount ≤ 31 }
    ensures { result ≡ fixed_shift kind value amount carry }
{
    let amount = u32::from(amount);
    if amount == 0 {
        shift_by_none(kind, value, carry)
    } else {
        shift_by(kind, value, amount)
    }
}

/// A byte turned to the right by twice `turn`, and the carry out: bit 31 of the word, or `carry` as it was where
/// `turn` is 0.
pub fn rotate_immediate(value: u8, turn: u8, carry: bool) -> (u32, bool)
    ensures { result ≡ immediate_value value turn carry }
{
    let word = rotate(u32::from(value), 2 * u32::from(turn));
    if turn == 0 {
        (word, carry)
    } else {
        (word, bit(word, 31))
    }
}

/// The word of a shift by 1 to 31 places, without its carry.
pub fn shift_within(kind: Shift, value: u32, amount: u8) -> u32
    requires positive { 0 < amount }
    requires most { amount ≤ 31 }
    ensures { result ≡ (nonzero_shift kind value amount).0 }
{
    let amount = u32::from(amount);
    match kind {
        Shift::Lsl => value << amount,
        Shift::Lsr => value >> amount,
        Shift::Asr => if bit(value, 31) {
            !(!value >> amount)
        } else {
            value >> amount
        },
        Shift::Ror => rotate(value, amount),
    }
}

// A shift by an amount that isn't 0.
fn shift_by(kind: Shift, value: u32, amount: u32) -> (u32, bool)
    requires { 0 < amount }
    ensures { result ≡ nonzero_shift kind value amount }
{
    match kind {
        Shift::Lsl => shift_left(value, amount),
        Shift::Lsr => shift_right(value, amount),
        Shift::Asr => shift_signed(value, amount),
        Shift::Ror => {
            let rotation = rotate(value, amount);
            (rotation, bit(rotation, 31))
        }
    }
}

// What an amount of 0 in an instruction means.
fn shift_by_none(kind: Shift, value: u32, carry: bool) -> (u32, bool)
    ensures { result ≡ zero_shift kind value carry }
{
    match kind {
        Shift::Lsl => (value, carry),
        Shift::Lsr | Shift::Asr => shift_by(kind, value, 32),
        Shift::Ror => (value / 2 + (u32::from(carry) << 31), bit(value, 0)),
    }
}

fn shift_left(value: u32, amount: u32) -> (u32, bool)
    ensures { result ≡ nonzero_shift Shift.Lsl value amount }
{
    if amount > 32 {
        return (0, false);
    }
    let whole = u64::from(value) << amount;
    ((whole % (1 << 32)) as u32, (whole >> 32) % 2 == 1)
}

fn shift_right(value: u32, amount: u32) -> (u32, bool)
    requires { 0 < amount }
    ensures { result ≡ nonzero_shift Shift.Lsr value amount }
{
    if amount > 32 {
        return (0, false);
    }
    (divide(value, amount), bit(value, amount - 1))
}

fn shift_signed(value: u32, amount: u32) -> (u32, bool)
    requires { 0 < amount }
    ensures { result ≡ nonzero_shift Shift.Asr value amount }
{
    let carry = bit(value, (amount - 1).min(31));
    if bit(value, 31) {
        (!divide(!value, amount), carry)
    } else {
        (divide(value, amount), carry)
    }
}

// The quotient by 2^amount, which is 0 from 32 on.
fn divide(value: u32, amount: u32) -> u32
    ensures { result ≡ value / 2 ^ amount }
{
    if amount < 32 { value >> amount } else { 0 }
}
