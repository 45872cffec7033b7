//! Multiplies.

ghost use Rattle.std.specs.Prelude.{◌≡◌, ◌<◌, ◌≤◌, ◌^◌, true};
ghost use Rattle.gba_exec_registers.specs.Access.{code_cost, counter, operand_register};
ghost use Rattle.gba_exec_registers.specs.Multiplying.{
  extension,
  is_short,
  long_product,
  multiplier_cycles,
  multiply_cost,
  multiply_long_cost,
  product,
  with_halves,
  with_long_product,
  with_product,
};

use crate::Site;
use crate::access::{code_price, read_operand, refill_price, write_result};
use gba_bus::Bus;
use gba_psr::{Flags, Registers};
use gba_word::{bit, bits};

/// What MUL and MLA give: the low 32 bits of `rm` times `rs`, plus `rn` where it accumulates.
#[tactic(auto, unfolding(crate::specs::Multiplying::product))]
pub fn product(registers: &Registers, site: Site, accumulate: bool, rn: u8, rs: u8, rm: u8) -> u32
    requires rn { rn < 16 }
    requires rs { rs < 16 }
    requires rm { rm < 16 }
    ensures { result ≡ product accumulate rn rs rm site registers.now }
{
    let counter = site.counter();
    let addend = if accumulate {
        read_operand(registers, counter, rn)
    } else {
        0
    };
    read_operand(registers, counter, rm)
        .wrapping_mul(read_operand(registers, counter, rs))
        .wrapping_add(addend)
}

/// Writes a product and, with S, its flags.
#[tactic(auto, unfolding(crate::specs::Multiplying::with_product))]
pub fn write_product(registers: &mut Registers, set: bool, rd: u8, value: u32)
    requires { rd < 16 }
    ensures { registers.new ≡ with_product set rd value registers.old }
{
    if set {
        let flags = registers.flags();
        registers.set_flags(Flags {
            negative: bit(value, 31),
            zero: value == 0,
            ..flags
        });
        write_result(registers, rd, value);
    } else {
        write_result(registers, rd, value);
    }
}

/// What a long multiply gives: the low 64 bits of `rm` times `rs`, plus the number in `hi` and `lo` where it
/// accumulates.
#[tactic(auto, unfolding(crate::specs::Multiplying::long_product))]
pub fn long_product(
    registers: &Registers,
    site: Site,
    signed: bool,
    accumulate: bool,
    hi: u8,
    lo: u8,
    rs: u8,
    rm: u8,
) -> u64
    requires hi { hi < 16 }
    requires lo { lo < 16 }
    requires rs { rs < 16 }
    requires rm { rm < 16 }
    ensures { result ≡ long_product signed accumulate hi lo rs rm site registers.now }
{
    let counter = site.counter();
    let a = extend(signed, read_operand(registers, counter, rm));
    let b = extend(signed, read_operand(registers, counter, rs));
    let addend = if accumulate {
        (u64::from(read_operand(registers, counter, hi)) << 32)
            + u64::from(read_operand(registers, counter, lo))
    } else {
        0
    };
    a.wrapping_mul(b).wrapping_add(addend)
}

fn extend(signed: bool, value: u32) -> u64
    ensures { result ≡ extension signed value }
{
    if signed && bit(value, 31) {
        u64::from(value) + 0xffff_ffff_0000_0000
    } else {
        u64::from(value)
    }
}

/// Writes a long product and, with S, its flags.
#[tactic(auto, unfolding(crate::specs::Multiplying::with_long_product))]
pub fn write_long_product(registers: &mut Registers, set: bool, hi: u8, lo: u8, value: u64)
    requires hi { hi < 16 }
    requires lo { lo < 16 }
    ensures { registers.new ≡ with_long_product set hi lo value registers.old }
{
    if set {
        let flags = registers.flags();
        registers.set_flags(Flags {
            negative: (value >> 63) == 1,
            zero: value == 0,
            ..flags
        });
        write_halves(registers, hi, lo, value);
    } else {
        write_halves(registers, hi, lo, value);
    }
}

fn write_halves(registers: &mut Registers, hi: u8, lo: u8, value: u64)
    requires hi { hi < 16 }
    requires lo { lo < 16 }
    ensures { registers.new ≡ with_halves hi lo value registers.old }
{
    write_result(registers, lo, (value % (1 << 32)) as u32);
    write_result(registers, hi, (value >> 32) as u32);
}

/// What MUL and MLA cost, before they are made.
pub fn multiply_price<B: Bus>(
    registers: &Registers,
    bus: &B,
    site: Site,
    accumulate: bool,
    rd: u8,
    rs: u8,
) -> u32
    requires { rs < 16 }
    ensures { result ≡ multiply_cost accumulate rd rs site registers.now
        (code_cost B.code_price_of (B.state bus.now) site) }
{
    let cycles = multiplier_cycles(true, read_operand(registers, site.counter(), rs));
    code_price(bus, site, true) + cycles + u32::from(accumulate) + refill_price(bus, site, rd)
}

/// What a long multiply costs, before it is made.
pub fn multiply_long_price<B: Bus>(
    registers: &Registers,
    bus: &B,
    site: Site,
    signed: bool,
    accumulate: bool,
    hi: u8,
    lo: u8,
    rs: u8,
) -> u32
    requires { rs < 16 }
    ensures { result ≡ multiply_long_cost signed accumulate hi lo rs site registers.now
        (code_cost B.code_price_of (B.state bus.now) site) }
{
    let cycles = multiplier_cycles(signed, read_operand(registers, site.counter(), rs));
    let either = if hi == 15 { hi } else { lo };
    code_price(bus, site, true)
        + cycles
        + 1
        + u32::from(accumulate)
        + refill_price(bus, site, either)
}

// The cycles of the multiplier.
#[tactic(auto, unfolding(crate::specs::Multiplying::multiplier_cycles))]
fn multiplier_cycles(signed: bool, value: u32) -> u32
    ensures cycles { result ≡ multiplier_cycles signed value }
    ensures most { result ≤ 4 }
{
    if is_short_from_8(signed, value) {
        1
    } else if is_short_from_16(signed, value) {
        2
    } else if is_short_from_24(signed, value) {
        3
    } else {
        4
    }
}

fn is_short_from_8(signed: bool, value: u32) -> bool
    ensures { result ≡ is_short signed value 8 }
{
    let high = bits(value, 8, 24);
    high == 0 || signed && high == 0xff_ffff
}

fn is_short_from_16(signed: bool, value: u32) -> bool
    ensures { result ≡ is_short signed value 16 }
{
    let high = bits(value, 16, 16);
    high == 0 || signed && high == 0xffff
}

fn is_short_from_24(signed: bool, value: u32) -> bool
    ensures { result ≡ is_short signed value 24 }
{
    let high = bits(value, 24, 8);
    high == 0 || signed && high == 0xff
}
