//! Data processing.

ghost use Rattle.std.specs.Prelude.{◌≡◌, ◌<◌, ◌≤◌};
ghost use Rattle.gba_exec_registers.specs.Access.{code_cost};
ghost use Rattle.gba_exec_registers.specs.Processing.{
  after_compare,
  compare_cost,
  compute_cost,
  compute_op_of,
  flags_after,
  logical_outcome,
  operand_counter,
  operand_of,
  outcome,
  outcome_of,
  shift_cost,
  sum_outcome,
  with_outcome,
};
ghost use Rattle.gba_terms.specs.Bits.{field};
ghost use Rattle.gba_arm_table.specs.Limits.{Within, operand_immediates, operand_registers};

use crate::Site;
use crate::access::{code_price, jump, read_operand, refill_price, write_result};
use crate::outcome::Outcome;
use gba_arm_table::{CompareOp, ComputeOp, Operand};
use gba_bus::Bus;
use gba_psr::{Flags, Registers};
use gba_word::{
    Sum, add_carry, add_plain, bit, bits, rotate_immediate, shift, shift_fixed, subtract,
};

/// Data processing that writes the flags alone.
pub fn compare(registers: &mut Registers, site: Site, op: CompareOp, rn: u8, operand: Operand)
    requires rn { rn < 16 }
    requires registers { Within (operand_registers operand) }
    requires immediates { Within (operand_immediates operand) }
    ensures { registers.new ≡ after_compare op rn operand site registers.old }
{
    let flags = flags_of_outcome(make_outcome(registers, site, compute_op_of(op), rn, operand));
    registers.set_flags(flags);
}

/// What data processing that writes `rd` costs.
pub fn compute_price<B: Bus>(bus: &B, site: Site, rd: u8, operand: Operand) -> u32
    ensures { result ≡ compute_cost rd operand (code_cost B.code_price_of (B.state bus.now) site) }
{
    code_price(bus, site, true) + shift_price(operand) + refill_price(bus, site, rd)
}

/// What data processing that writes the flags alone costs.
pub fn compare_price<B: Bus>(bus: &B, site: Site, operand: Operand) -> u32
    ensures { result ≡ compare_cost operand (code_cost B.code_price_of (B.state bus.now) site) }
{
    code_price(bus, site, true) + shift_price(operand)
}

fn shift_price(operand: Operand) -> u32
    ensures cost { result ≡ shift_cost operand }
    ensures most { result ≤ 1 }
{
    match operand {
        Operand::Immediate { .. } | Operand::Fixed { .. } => 0,
        Operand::ByRegister { .. } => 1,
    }
}

/// What an operation gives, of the registers as they are.
#[tactic(auto, unfolding(crate::specs::Processing::outcome))]
pub fn make_outcome(
    registers: &Registers,
    site: Site,
    op: ComputeOp,
    rn: u8,
    operand: Operand,
) -> Outcome
    requires rn { rn < 16 }
    requires registers { Within (operand_registers operand) }
    requires immediates { Within (operand_immediates operand) }
    ensures { result ≡ outcome op rn operand site registers.now }
{
    let flags = registers.flags();
    let counter = counter_beside(operand, site);
    let (value, carry) = operand_value(registers, counter, operand, flags.carry);
    operate(
        op,
        read_operand(registers, counter, rn),
        value,
        carry,
        flags,
    )
}

// What r15 reads as beside this operand.
fn counter_beside(operand: Operand, site: Site) -> u32
    ensures { result ≡ operand_counter operand site }
{
    match operand {
        Operand::Immediate { .. } | Operand::Fixed { .. } => site.counter(),
        Operand::ByRegister { .. } => site.late_counter(),
    }
}

// The shifter operand and its carry.
#[tactic(auto, unfolding(crate::specs::Processing::operand_of))]
fn operand_value(registers: &Registers, counter: u32, operand: Operand, carry: bool) -> (u32, bool)
    requires registers { Within (operand_registers operand) }
    requires immediates { Within (operand_immediates operand) }
    ensures { result ≡ operand_of operand counter carry registers.now }
{
    match operand {
        Operand::Immediate { value, turn } => rotate_immediate(value, turn, carry),
        Operand::Fixed { rm, kind, amount } => shift_fixed(
            kind,
            read_operand(registers, counter, rm),
            amount,
            carry,
        ),
        Operand::ByRegister { rm, kind, rs } => {
            let amount = low_byte(read_operand(registers, counter, rs));
            shift(kind, read_operand(registers, counter, rm), amount, carry)
        }
    }
}

fn low_byte(value: u32) -> u8
    ensures { result ≡ field value 0 8 }
{
    bits(value, 0, 8) as u8
}

/// The twelve operations, of Rn, the operand, its carry and the flags.
#[inline(always)]
pub fn operate(op: ComputeOp, a: u32, b: u32, carry: bool, flags: Flags) -> Outcome
    ensures { result ≡ outcome_of op a b carry flags }
{
    match op {
        ComputeOp::And => logical_outcome(a & b, carry, flags),
        ComputeOp::Eor => logical_outcome(a ^ b, carry, flags),
        ComputeOp::Sub => outcome_of_sum(subtract(a, b)),
        ComputeOp::Rsb => outcome_of_sum(subtract(b, a)),
        ComputeOp::Add => outcome_of_sum(add_plain(a, b)),
        ComputeOp::Adc => sum_outcome(a, b, flags.carry),
        ComputeOp::Sbc => sum_outcome(a, !b, flags.carry),
        ComputeOp::Rsc => sum_outcome(b, !a, flags.carry),
        ComputeOp::Orr => logical_outcome(a | b, carry, flags),
        ComputeOp::Mov => logical_outcome(b, carry, flags),
        ComputeOp::Bic => logical_outcome(a & !b, carry, flags),
        ComputeOp::Mvn => logical_outcome(!b, carry, flags),
    }
}

fn logical_outcome(value: u32, carry: bool, flags: Flags) -> Outcome
    ensures { result ≡ logical_outcome value carry flags }
{
    Outcome {
        value,
        carry,
        overflow: flags.overflow,
    }
}

fn sum_outcome(a: u32, b: u32, carry: bool) -> Outcome
    ensures { result ≡ sum_outcome a b carry }
{
    outcome_of_sum(add_carry(a, b, carry))
}

fn outcome_of_sum(sum: Sum) -> Outcome
    ensures { result ≡ record { value = sum.value; carry = sum.carry; overflow = sum.overflow } }
{
    Outcome {
        value: sum.value,
        carry: sum.carry,
        overflow: sum.overflow,
    }
}

/// The operation of which a comparison makes the flags.
pub fn compute_op_of(op: CompareOp) -> ComputeOp
    ensures { result ≡ compute_op_of op }
{
    match op {
        CompareOp::Tst => ComputeOp::And,
        CompareOp::Teq => ComputeOp::Eor,
        CompareOp::Cmp => ComputeOp::Sub,
        CompareOp::Cmn => ComputeOp::Add,
    }
}

/// The flags of a result.
#[inline(always)]
pub fn flags_of_outcome(outcome: Outcome) -> Flags
    ensures { result ≡ flags_after outcome }
{
    Flags {
        negative: bit(outcome.value, 31),
        zero: outcome.value == 0,
        carry: outcome.carry,
        overflow: outcome.overflow,
    }
}

/// Writes a result and, with S, its flags, or CPSR from the SPSR.
#[tactic(auto, unfolding(crate::specs::Processing::with_outcome))]
pub fn write_outcome(registers: &mut Registers, set: bool, rd: u8, outcome: Outcome)
    requires { rd < 16 }
    ensures { registers.new ≡ with_outcome set rd outcome registers.old }
{
    if set && rd == 15 {
        registers.leave();
        jump(registers, outcome.value);
    } else if set {
        registers.set_flags(flags_of_outcome(outcome));
        write_result(registers, rd, outcome.value);
    } else {
        write_result(registers, rd, outcome.value);
    }
}
