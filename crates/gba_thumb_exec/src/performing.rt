//! What each meaning does.

ghost use Rattle.std.specs.Prelude.{◌≡◌, ◌<◌, IfSome};
ghost use Rattle.gba_exec_transfers.specs.Done.{Leaves};
ghost use Rattle.gba_thumb_exec.specs.Effects.{
  after_link_high,
  after_link_low,
  after_near_load,
  after_short_branch,
  conditional_branch,
  effect_of_half,
  effect_of_meaning,
  near_address,
  short_branch,
  thumb_effect,
};
ghost use Rattle.gba_thumb_exec.specs.Meanings.{MeaningFits};
ghost use Rattle.gba_thumb_table.specs.Limits.{Fits};

use crate::meaning::{Meaning, meaning_of};
use gba_arm_table::Condition;
use gba_bus::Bus;
use gba_exec_registers::{Site, code_price, condition_holds, jump, jump_price};
use gba_exec_transfers::{LoadUnit, perform, perform_word, unit_load};
use gba_psr::Registers;
use gba_thumb_table::ThumbOp;
use gba_word::sign_extend;

/// So many words above the PC with its low two bits cleared.
#[tactic(auto, unfolding(crate::specs::Effects::near_address))]
pub fn near_address(site: Site, words: u16) -> u32
    requires { words < 256 }
    ensures { result ≡ near_address words site }
{
    let counter = site.counter();
    (counter - counter % 4).wrapping_add(4 * u32::from(words))
}

/// LDR from near the PC.
#[tactic(auto, unfolding(crate::specs::Effects::after_near_load))]
pub fn load_near<B: Bus>(
    registers: &mut Registers,
    bus: &mut B,
    site: Site,
    rd: u16,
    words: u16,
) -> u32
    requires rd { rd < 8 }
    requires words { words < 256 }
    ensures { Leaves (after_near_load B.code_price_of B.load_of B.store_of rd words site registers.old
        (B.state bus.old)) registers.new (B.state bus.new) result }
{
    let code = code_price(bus, site, true);
    let (value, price) = unit_load(bus, site, LoadUnit::Word, near_address(site, words));
    registers.set(u32::from(rd), value);
    code + price + 1
}

/// The first half of BL.
#[tactic(auto, unfolding(crate::specs::Effects::after_link_high))]
pub fn link_high(registers: &mut Registers, site: Site, n11: u16)
    ensures { registers.new ≡ after_link_high n11 site registers.old }
{
    let high = sign_extend(u32::from(n11), 11).wrapping_mul(1 << 12);
    registers.set(14, site.counter().wrapping_add(high));
}

/// The second half of BL.
#[tactic(auto, unfolding(crate::specs::Effects::after_link_low))]
pub fn link_low(registers: &mut Registers, n11: u16)
    requires { n11 < 2048 }
    ensures { registers.new ≡ after_link_low n11 registers.old }
{
    let next = registers.get(15);
    let target = registers.get(14).wrapping_add(2 * u32::from(n11));
    registers.set(14, next - next % 2 + 1);
    jump(registers, target);
}

// A jump by so many halfwords from the instruction's address plus 4.
#[tactic(auto, unfolding(crate::specs::Effects::after_short_branch))]
fn branch<B: Bus>(registers: &mut Registers, bus: &mut B, site: Site, halfwords: u32) -> u32
    ensures { Leaves (short_branch B.code_price_of B.load_of B.store_of halfwords site registers.old
        (B.state bus.old)) registers.new (B.state bus.new) result }
{
    jump(
        registers,
        site.counter().wrapping_add(halfwords.wrapping_mul(2)),
    );
    jump_price(bus, site)
}

// B under a condition.
fn branch_if<B: Bus>(
    registers: &mut Registers,
    bus: &mut B,
    site: Site,
    condition: Condition,
    halfwords: u32,
) -> u32
    ensures { Leaves (conditional_branch B.code_price_of B.load_of B.store_of condition halfwords site registers.old
        (B.state bus.old)) registers.new (B.state bus.new) result }
{
    if condition_holds(condition, registers.flags()) {
        branch(registers, bus, site, halfwords)
    } else {
        code_price(bus, site, true)
    }
}

/// Performs a meaning and answers the cycles. r15 is the address of the next instruction.
pub fn perform_meaning<B: Bus>(
    registers: &mut Registers,
    bus: &mut B,
    site: Site,
    meaning: Meaning,
) -> u32
    requires { MeaningFits meaning }
    ensures { Leaves (effect_of_meaning B.code_price_of B.load_of B.store_of meaning site registers.old
        (B.state bus.old)) registers.new (B.state bus.new) result }
{
    match meaning {
        Meaning::Arm { operation } => perform(registers, bus, site, operation),
        Meaning::NearLoad { rd, words } => load_near(registers, bus, site, rd, words),
        Meaning::NearAddress { rd, words } => {
            registers.set(u32::from(rd), near_address(site, words));
            code_price(bus, site, true)
        }
        Meaning::BranchIf {
            condition,
            halfwords,
        } => branch_if(registers, bus, site, condition, halfwords),
        Meaning::Branch { halfwords } => branch(registers, bus, site, halfwords),
        Meaning::LinkHigh { n11 } => {
            link_high(registers, site, n11);
            code_price(bus, site, true)
        }
        Meaning::LinkLow { n11 } => {
            link_low(registers, n11);
            jump_price(bus, site)
        }
    }
}

/// Performs the operation of a halfword; None is the Undefined trap.
#[tactic(auto, unfolding(crate::specs::Effects::effect_of_half, crate::specs::Effects::thumb_effect))]
pub fn perform_half<B: Bus>(
    registers: &mut Registers,
    bus: &mut B,
    site: Site,
    op: Option<ThumbOp>,
) -> u32
    requires { IfSome op Fits }
    ensures { Leaves (effect_of_half B.code_price_of B.load_of B.store_of op site registers.old (B.state bus.old))
        registers.new (B.state bus.new) result }
{
    match op {
        Some(op) => perform_meaning(registers, bus, site, meaning_of(op)),
        None => perform_word(registers, bus, site, None),
    }
}
