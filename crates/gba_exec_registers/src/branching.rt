//! Branches, SWI and the Undefined trap.

ghost use Rattle.std.specs.Prelude.{◌≡◌, ◌<◌};
ghost use Rattle.gba_exec_registers.specs.Branching.{
  after_branch,
  after_exchange,
  after_exchange_to,
  after_interrupt,
  after_undefined,
  with_thumb,
};

use crate::Site;
use crate::access::{jump, read_operand};
use gba_psr::{Exception, Registers};
use gba_word::{bit, bits};

/// BX.
pub fn exchange(registers: &mut Registers, site: Site, rm: u8)
    requires { rm < 16 }
    ensures { registers.new ≡ after_exchange rm site registers.old }
{
    exchange_to(registers, read_operand(registers, site.counter(), rm));
}

/// Jumps into the state that bit 0 of the target names.
#[tactic(auto, unfolding(crate::specs::Branching::after_exchange_to))]
pub fn exchange_to(registers: &mut Registers, target: u32)
    ensures { registers.new ≡ after_exchange_to target registers.old }
{
    registers.set_cpsr(status_in_state(registers.cpsr(), bit(target, 0)));
    jump(registers, target);
}

// A status whose T is this.
fn status_in_state(old: u32, thumb: bool) -> u32
    ensures { result ≡ with_thumb old thumb }
{
    (bits(old, 6, 26) << 6) + (u32::from(thumb) << 5) + bits(old, 0, 5)
}

/// B and BL.
#[tactic(auto, unfolding(crate::specs::Branching::after_branch))]
pub fn branch(registers: &mut Registers, site: Site, link: bool, offset: i32)
    ensures { registers.new ≡ after_branch link offset site registers.old }
{
    let target = site
        .counter()
        .wrapping_add(offset.cast_unsigned().wrapping_mul(4));
    if link {
        registers.set(14, registers.get(15));
    }
    jump(registers, target);
}

/// SWI.
pub fn interrupt(registers: &mut Registers)
    ensures { registers.new ≡ after_interrupt registers.old }
{
    registers.enter(Exception::Software, registers.get(15));
}

/// The Undefined trap.
pub fn trap(registers: &mut Registers)
    ensures { registers.new ≡ after_undefined registers.old }
{
    registers.enter(Exception::Undefined, registers.get(15));
}
