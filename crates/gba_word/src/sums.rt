//! Adding with carry and overflow.

ghost use Rattle.std.specs.Prelude.{◌≡◌, ◌-◌, ◌^◌, false, true};
ghost use Rattle.gba_word.specs.Sums.{sum_of};

use crate::bit;

/// The sum of two words and a carry.
#[derive(Clone, Copy, Debug, PartialEq, Eq)]
pub struct Sum {
    /// The sum modulo 2^32.
    pub value: u32,
    /// Whether the sum of the unsigned numbers left 32 bits.
    pub carry: bool,
    /// Whether the sum of the signed numbers left 32 bits.
    pub overflow: bool,
}

/// `a` plus `b`, and 1 more where `carry` is set. A difference `a - b` is `add_carry(a, !b, true)`, and its carry is
/// set where there is no borrow.
pub fn add_carry(a: u32, b: u32, carry: bool) -> Sum
    ensures { result ≡ sum_of a b carry }
{
    let whole = u64::from(a) + u64::from(b) + u64::from(carry);
    let value = (whole % (1 << 32)) as u32;
    Sum {
        value,
        carry: whole >= 1 << 32,
        overflow: bit(a, 31) == bit(b, 31) && bit(value, 31) != bit(a, 31),
    }
}

/// `a` plus `b`, without a carry.
pub fn add_plain(a: u32, b: u32) -> Sum
    ensures { result ≡ sum_of a b false }
{
    let (_, overflow) = a.cast_signed().overflowing_add(b.cast_signed());
    let (value, carry) = a.overflowing_add(b);
    Sum {
        value,
        carry,
        overflow,
    }
}

/// `a` minus `b`: the sum of `a`, the complement of `b` and 1. Its carry is set where there is no borrow.
pub fn subtract(a: u32, b: u32) -> Sum
    ensures { result ≡ sum_of a (2 ^ 32 - 1 - b) true }
{
    let (_, overflow) = a.cast_signed().overflowing_sub(b.cast_signed());
    Sum {
        value: a.wrapping_sub(b),
        carry: a >= b,
        overflow,
    }
}
