//! Operands, results, jumps and the price of code accesses.

ghost use Rattle.std.specs.Prelude.{◌≡◌, ◌<◌, ◌≤◌};
ghost use Rattle.gba_exec_registers.specs.Access.{
  after_jump,
  code_cost,
  code_width,
  counter,
  jump_cost,
  late_counter,
  operand_register,
  refill_cost,
  with_result,
};

use crate::Site;
use gba_bus::{Bus, Width};
use gba_psr::Registers;
use gba_word::bit;

impl Site {
    /// What r15 reads as in an operand.
    pub fn counter(self) -> u32
        ensures { result ≡ counter self }
    {
        self.address.wrapping_add(if self.thumb { 4 } else { 8 })
    }

    /// What r15 reads as where it is stored, or where a register is the amount of a shift.
    pub fn late_counter(self) -> u32
        ensures { result ≡ late_counter self }
    {
        self.address.wrapping_add(12)
    }

    /// The width of the instruction's code accesses.
    pub fn code_width(self) -> Width
        ensures { result ≡ code_width self }
    {
        if self.thumb { Width::Half } else { Width::Word }
    }
}

/// Register `number` as an operand, where r15 reads as `counter`.
#[tactic(auto, unfolding(crate::specs::Access::operand_register))]
pub fn read_operand(registers: &Registers, counter: u32, number: u8) -> u32
    requires { number < 16 }
    ensures { result ≡ operand_register registers.now counter number }
{
    if number == 15 {
        counter
    } else {
        registers.get(u32::from(number))
    }
}

/// Jumps to `target`, its low bits cleared as the state asks.
#[tactic(auto, unfolding(crate::specs::Access::after_jump))]
pub fn jump(registers: &mut Registers, target: u32)
    ensures { registers.new ≡ after_jump registers.old target }
{
    let thumb = bit(registers.cpsr(), 5);
    registers.set(
        15,
        if thumb {
            target - target % 2
        } else {
            target - target % 4
        },
    );
}

/// Writes a result; to r15 it is a jump.
#[tactic(auto, unfolding(crate::specs::Access::with_result))]
pub fn write_result(registers: &mut Registers, number: u8, value: u32)
    requires { number < 16 }
    ensures { registers.new ≡ with_result registers.old number value }
{
    if number == 15 {
        jump(registers, value);
    } else {
        registers.set(u32::from(number), value);
    }
}

/// The price of one code access.
pub fn code_price<B: Bus>(bus: &B, site: Site, sequential: bool) -> u32
    ensures cost { result ≡ code_cost B.code_price_of (B.state bus.now) site sequential }
    ensures most { result ≤ 18 }
{
    bus.code_price(site.address, site.code_width(), sequential)
}

/// What it costs more to write register `number`: 1S + 1N for r15.
pub fn refill_price<B: Bus>(bus: &B, site: Site, number: u8) -> u32
    ensures cost { result ≡ refill_cost number (code_cost B.code_price_of (B.state bus.now) site) }
    ensures most { result ≤ 36 }
{
    if number == 15 {
        code_price(bus, site, true) + code_price(bus, site, false)
    } else {
        0
    }
}

/// What a jump costs: 2S + 1N.
pub fn jump_price<B: Bus>(bus: &B, site: Site) -> u32
    ensures cost { result ≡ jump_cost (code_cost B.code_price_of (B.state bus.now) site) }
    ensures most { result ≤ 54 }
{
    2 * code_price(bus, site, true) + code_price(bus, site, false)
}
