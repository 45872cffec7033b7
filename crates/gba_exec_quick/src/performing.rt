//! What each quick form does. The commonest of ARM code stand in `perform_quick`, which is to be inlined where it is
//! called, the others in functions of their own.

ghost use Rattle.std.specs.Prelude.{◌≡◌, ◌<◌, ◌≤◌, IsTrue};
ghost use Rattle.gba_exec_quick.specs.Effects.{
  after_number,
  after_plain,
  after_quick_load,
  after_quick_store,
  effect_of_quick,
  number_carry,
  outcome_in,
  value_of,
  with_flags_and,
};
ghost use Rattle.gba_exec_quick.specs.Making.{QuickFits, is_whole};
ghost use Rattle.gba_exec_registers.specs.Processing.{flags_after};
ghost use Rattle.gba_psr.specs.RegisterFile.{with_flags};
ghost use Rattle.gba_exec_transfers.specs.Done.{Leaves};
ghost use Rattle.gba_word.specs.Shifts.{nonzero_shift};
ghost use Rattle.gba_word.specs.declared.kinds.Shift.TheVariants.{Lsl, Lsr};

use crate::Quick;
use gba_arm_table::ComputeOp;
use gba_bus::{Bus, Width};
use gba_exec_registers::{Outcome, Site, code_price, jump, jump_price, operate, trap};
use gba_exec_transfers::{
    LoadUnit, load_block, load_plain, load_single, perform, store_block, store_plain, store_single,
    unit_load, unit_store,
};
use gba_psr::Registers;
use gba_word::{Shift, bit, shift, shift_within};

/// Performs a quick form and answers the cycles. r15 is the address of the next instruction. The forms that are common
/// in ARM code stand here, to be inlined where it is called; so it is called at one place.
#[inline(always)]
#[tactic(auto, unfolding(crate::specs::Effects::effect_of_quick))]
pub fn perform_quick<B: Bus>(registers: &mut Registers, bus: &mut B, site: Site, one: &Quick) -> u32
    requires { QuickFits one.now }
    ensures { Leaves (effect_of_quick B.code_price_of B.load_of B.store_of one.now site registers.old (B.state bus.old))
        registers.new (B.state bus.new) result }
{
    match *one {
        Quick::Number { op, rn, rd, value } => write_number(
            registers, bus, site, op, rn, rd, value,
        ),
        Quick::Plain { op, rn, rd, rm } => write_plain(registers, bus, site, op, rn, rd, rm),
        Quick::AddNumber { rn, rd, value } => {
            write_number(registers, bus, site, ComputeOp::Add, rn, rd, value)
        }
        Quick::SubNumber { rn, rd, value } => {
            write_number(registers, bus, site, ComputeOp::Sub, rn, rd, value)
        }
        Quick::AndNumber { rn, rd, value } => {
            write_number(registers, bus, site, ComputeOp::And, rn, rd, value)
        }
        Quick::OrrNumber { rn, rd, value } => {
            write_number(registers, bus, site, ComputeOp::Orr, rn, rd, value)
        }
        Quick::BicNumber { rn, rd, value } => {
            write_number(registers, bus, site, ComputeOp::Bic, rn, rd, value)
        }
        Quick::MovNumber { rn, rd, value } => {
            write_number(registers, bus, site, ComputeOp::Mov, rn, rd, value)
        }
        Quick::AddPlain { rn, rd, rm } => {
            write_plain(registers, bus, site, ComputeOp::Add, rn, rd, rm)
        }
        Quick::SubPlain { rn, rd, rm } => {
            write_plain(registers, bus, site, ComputeOp::Sub, rn, rd, rm)
        }
        Quick::AndPlain { rn, rd, rm } => {
            write_plain(registers, bus, site, ComputeOp::And, rn, rd, rm)
        }
        Quick::OrrPlain { rn, rd, rm } => {
            write_plain(registers, bus, site, ComputeOp::Orr, rn, rd, rm)
        }
        Quick::EorPlain { rn, rd, rm } => {
            write_plain(registers, bus, site, ComputeOp::Eor, rn, rd, rm)
        }
        Quick::MovPlain { rn, rd, rm } => {
            write_plain(registers, bus, site, ComputeOp::Mov, rn, rd, rm)
        }
        Quick::RsbPlain { rn, rd, rm } => {
            write_plain(registers, bus, site, ComputeOp::Rsb, rn, rd, rm)
        }
        Quick::MvnPlain { rn, rd, rm } => {
            write_plain(registers, bus, site, ComputeOp::Mvn, rn, rd, rm)
        }
        Quick::Shifted {
            op,
            rn,
            rd,
            rm,
            kind,
            amount,
        } => write_shifted(registers, bus, site, op, rn, rd, rm, kind, amount),
        Quick::SetNumber {
            op,
            rn,
            rd,
            value,
            turned,
        } => set_number(registers, bus, site, op, rn, rd, value, turned),
        Quick::SetPlain { op, rn, rd, rm } => set_plain(registers, bus, site, op, rn, rd, rm),
        Quick::SetShifted {
            op,
            rn,
            rd,
            rm,
            kind,
            amount,
        } => set_shifted(registers, bus, site, op, rn, rd, rm, kind, amount),
        Quick::CompareNumber {
            op,
            rn,
            value,
            turned,
        } => compare_number(registers, bus, site, op, rn, value, turned),
        Quick::ComparePlain { op, rn, rm } => compare_plain(registers, bus, site, op, rn, rm),
        Quick::SetAddNumber {
            rn,
            rd,
            value,
            turned,
        } => set_number(registers, bus, site, ComputeOp::Add, rn, rd, value, turned),
        Quick::SetSubNumber {
            rn,
            rd,
            value,
            turned,
        } => set_number(registers, bus, site, ComputeOp::Sub, rn, rd, value, turned),
        Quick::SetMovNumber {
            rn,
            rd,
            value,
            turned,
        } => set_number(registers, bus, site, ComputeOp::Mov, rn, rd, value, turned),
        Quick::SetAddPlain { rn, rd, rm } => {
            set_plain(registers, bus, site, ComputeOp::Add, rn, rd, rm)
        }
        Quick::SetSubPlain { rn, rd, rm } => {
            set_plain(registers, bus, site, ComputeOp::Sub, rn, rd, rm)
        }
        Quick::SetAndPlain { rn, rd, rm } => {
            set_plain(registers, bus, site, ComputeOp::And, rn, rd, rm)
        }
        Quick::SetEorPlain { rn, rd, rm } => {
            set_plain(registers, bus, site, ComputeOp::Eor, rn, rd, rm)
        }
        Quick::SetAdcPlain { rn, rd, rm } => {
            set_plain(registers, bus, site, ComputeOp::Adc, rn, rd, rm)
        }
        Quick::SetOrrPlain { rn, rd, rm } => {
            set_plain(registers, bus, site, ComputeOp::Orr, rn, rd, rm)
        }
        Quick::SetBicPlain { rn, rd, rm } => {
            set_plain(registers, bus, site, ComputeOp::Bic, rn, rd, rm)
        }
        Quick::SetMvnPlain { rn, rd, rm } => {
            set_plain(registers, bus, site, ComputeOp::Mvn, rn, rd, rm)
        }
        Quick::SetMovShifted {
            rn,
            rd,
            rm,
            kind,
            amount,
        } => set_shifted(
            registers,
            bus,
            site,
            ComputeOp::Mov,
            rn,
            rd,
            rm,
            kind,
            amount,
        ),
        Quick::CmpNumber { rn, value, turned } => {
            compare_number(registers, bus, site, ComputeOp::Sub, rn, value, turned)
        }
        Quick::CmpPlain { rn, rm } => compare_plain(registers, bus, site, ComputeOp::Sub, rn, rm),
        Quick::LoadWord { rn, rd, offset } => {
            load_quick(registers, bus, site, LoadUnit::Word, rn, rd, offset)
        }
        Quick::LoadByte { rn, rd, offset } => {
            load_quick(registers, bus, site, LoadUnit::Byte, rn, rd, offset)
        }
        Quick::StoreWord { rn, rd, offset } => {
            store_quick(registers, bus, site, Width::Word, rn, rd, offset)
        }
        Quick::StoreByte { rn, rd, offset } => {
            store_quick(registers, bus, site, Width::Byte, rn, rd, offset)
        }
        Quick::LoadPlain { plain } => load_plain(registers, bus, site, plain),
        Quick::StorePlain { plain } => store_plain(registers, bus, site, plain),
        Quick::Branch { distance } => branch(registers, bus, site, distance),
        _ => perform_any(registers, bus, site, one),
    }
}

/// Performs any quick form as [`perform_quick`] does, behind a call.
#[inline(never)]
#[tactic(auto, unfolding(crate::specs::Effects::effect_of_quick))]
pub fn perform_any<B: Bus>(registers: &mut Registers, bus: &mut B, site: Site, one: &Quick) -> u32
    requires { QuickFits one.now }
    ensures { Leaves (effect_of_quick B.code_price_of B.load_of B.store_of one.now site registers.old (B.state bus.old))
        registers.new (B.state bus.new) result }
{
    match *one {
        Quick::Number { op, rn, rd, value } => write_number(
            registers, bus, site, op, rn, rd, value,
        ),
        Quick::Plain { op, rn, rd, rm } => write_plain(registers, bus, site, op, rn, rd, rm),
        Quick::AddNumber { rn, rd, value } => {
            write_number(registers, bus, site, ComputeOp::Add, rn, rd, value)
        }
        Quick::SubNumber { rn, rd, value } => {
            write_number(registers, bus, site, ComputeOp::Sub, rn, rd, value)
        }
        Quick::AndNumber { rn, rd, value } => {
            write_number(registers, bus, site, ComputeOp::And, rn, rd, value)
        }
        Quick::OrrNumber { rn, rd, value } => {
            write_number(registers, bus, site, ComputeOp::Orr, rn, rd, value)
        }
        Quick::BicNumber { rn, rd, value } => {
            write_number(registers, bus, site, ComputeOp::Bic, rn, rd, value)
        }
        Quick::MovNumber { rn, rd, value } => {
            write_number(registers, bus, site, ComputeOp::Mov, rn, rd, value)
        }
        Quick::AddPlain { rn, rd, rm } => {
            write_plain(registers, bus, site, ComputeOp::Add, rn, rd, rm)
        }
        Quick::SubPlain { rn, rd, rm } => {
            write_plain(registers, bus, site, ComputeOp::Sub, rn, rd, rm)
        }
        Quick::AndPlain { rn, rd, rm } => {
            write_plain(registers, bus, site, ComputeOp::And, rn, rd, rm)
        }
        Quick::OrrPlain { rn, rd, rm } => {
            write_plain(registers, bus, site, ComputeOp::Orr, rn, rd, rm)
        }
        Quick::EorPlain { rn, rd, rm } => {
            write_plain(registers, bus, site, ComputeOp::Eor, rn, rd, rm)
        }
        Quick::MovPlain { rn, rd, rm } => {
            write_plain(registers, bus, site, ComputeOp::Mov, rn, rd, rm)
        }
        Quick::RsbPlain { rn, rd, rm } => {
            write_plain(registers, bus, site, ComputeOp::Rsb, rn, rd, rm)
        }
        Quick::MvnPlain { rn, rd, rm } => {
            write_plain(registers, bus, site, ComputeOp::Mvn, rn, rd, rm)
        }
        Quick::Shifted {
            op,
            rn,
            rd,
            rm,
            kind,
            amount,
        } => write_shifted(registers, bus, site, op, rn, rd, rm, kind, amount),
        Quick::SetNumber {
            op,
            rn,
            rd,
            value,
            turned,
        } => set_number(registers, bus, site, op, rn, rd, value, turned),
        Quick::SetPlain { op, rn, rd, rm } => set_plain(registers, bus, site, op, rn, rd, rm),
        Quick::SetShifted {
            op,
            rn,
            rd,
            rm,
            kind,
            amount,
        } => set_shifted(registers, bus, site, op, rn, rd, rm, kind, amount),
        Quick::CompareNumber {
            op,
            rn,
            value,
            turned,
        } => compare_number(registers, bus, site, op, rn, value, turned),
        Quick::ComparePlain { op, rn, rm } => compare_plain(registers, bus, site, op, rn, rm),
        Quick::SetAddNumber {
            rn,
            rd,
            value,
            turned,
        } => set_number(registers, bus, site, ComputeOp::Add, rn, rd, value, turned),
        Quick::SetSubNumber {
            rn,
            rd,
            value,
            turned,
        } => set_number(registers, bus, site, ComputeOp::Sub, rn, rd, value, turned),
        Quick::SetMovNumber {
            rn,
            rd,
            value,
            turned,
        } => set_number(registers, bus, site, ComputeOp::Mov, rn, rd, value, turned),
        Quick::SetAddPlain { rn, rd, rm } => {
            set_plain(registers, bus, site, ComputeOp::Add, rn, rd, rm)
        }
        Quick::SetSubPlain { rn, rd, rm } => {
            set_plain(registers, bus, site, ComputeOp::Sub, rn, rd, rm)
        }
        Quick::SetAndPlain { rn, rd, rm } => {
            set_plain(registers, bus, site, ComputeOp::And, rn, rd, rm)
        }
        Quick::SetEorPlain { rn, rd, rm } => {
            set_plain(registers, bus, site, ComputeOp::Eor, rn, rd, rm)
        }
        Quick::SetAdcPlain { rn, rd, rm } => {
            set_plain(registers, bus, site, ComputeOp::Adc, rn, rd, rm)
        }
        Quick::SetOrrPlain { rn, rd, rm } => {
            set_plain(registers, bus, site, ComputeOp::Orr, rn, rd, rm)
        }
        Quick::SetBicPlain { rn, rd, rm } => {
            set_plain(registers, bus, site, ComputeOp::Bic, rn, rd, rm)
        }
        Quick::SetMvnPlain { rn, rd, rm } => {
            set_plain(registers, bus, site, ComputeOp::Mvn, rn, rd, rm)
        }
        Quick::SetMovShifted {
            rn,
            rd,
            rm,
            kind,
            amount,
        } => set_shifted(
            registers,
            bus,
            site,
            ComputeOp::Mov,
            rn,
            rd,
            rm,
            kind,
            amount,
        ),
        Quick::CmpNumber { rn, value, turned } => {
            compare_number(registers, bus, site, ComputeOp::Sub, rn, value, turned)
        }
        Quick::CmpPlain { rn, rm } => compare_plain(registers, bus, site, ComputeOp::Sub, rn, rm),
        Quick::LoadWord { rn, rd, offset } => {
            load_quick(registers, bus, site, LoadUnit::Word, rn, rd, offset)
        }
        Quick::LoadByte { rn, rd, offset } => {
            load_quick(registers, bus, site, LoadUnit::Byte, rn, rd, offset)
        }
        Quick::StoreWord { rn, rd, offset } => {
            store_quick(registers, bus, site, Width::Word, rn, rd, offset)
        }
        Quick::StoreByte { rn, rd, offset } => {
            store_quick(registers, bus, site, Width::Byte, rn, rd, offset)
        }
        Quick::LoadPlain { plain } => load_plain(registers, bus, site, plain),
        Quick::StorePlain { plain } => store_plain(registers, bus, site, plain),
        Quick::Branch { distance } => branch(registers, bus, site, distance),
        Quick::CompareShifted {
            op,
            rn,
            rm,
            kind,
            amount,
        } => compare_shifted(registers, bus, site, op, rn, rm, kind, amount),
        Quick::LoadSingle { unit, one } => load_single(registers, bus, site, unit, one),
        Quick::StoreSingle { width, one } => store_single(registers, bus, site, width, one),
        Quick::LoadBlock { block } => load_block(registers, bus, site, block),
        Quick::StoreBlock { block } => store_block(registers, bus, site, block),
        Quick::BranchLink { distance } => {
            registers.set(14, registers.get(15));
            jump(registers, site.counter().wrapping_add(distance));
            jump_price(bus, site)
        }
        Quick::Other { .. } | Quick::Trap => perform_whole(registers, bus, site, one),
    }
}

// The forms without a quick shape.
#[inline(never)]
#[tactic(auto, unfolding(crate::specs::Effects::effect_of_quick))]
fn perform_whole<B: Bus>(registers: &mut Registers, bus: &mut B, site: Site, one: &Quick) -> u32
    requires fits { QuickFits one.now }
    requires class { IsTrue (is_whole one.now) }
    ensures { Leaves (effect_of_quick B.code_price_of B.load_of B.store_of one.now site registers.old (B.state bus.old))
        registers.new (B.state bus.new) result }
{
    match *one {
        Quick::Other { op } => perform(registers, bus, site, op),
        Quick::Trap => {
            trap(registers);
            jump_price(bus, site) + 1
        }
        _ => unreachable!(),
    }
}

// The value of an operation without S; of the flags it reads the carry alone, and that only where it counts.
#[inline(always)]
fn value_of(registers: &Registers, op: ComputeOp, a: u32, b: u32) -> u32
    ensures { result ≡ value_of op a b registers.now }
{
    match op {
        ComputeOp::And => a & b,
        ComputeOp::Eor => a ^ b,
        ComputeOp::Sub => a.wrapping_sub(b),
        ComputeOp::Rsb => b.wrapping_sub(a),
        ComputeOp::Add => a.wrapping_add(b),
        ComputeOp::Adc => add_with_carry(registers, a, b),
        ComputeOp::Sbc => add_with_carry(registers, a, !b),
        ComputeOp::Rsc => add_with_carry(registers, b, !a),
        ComputeOp::Orr => a | b,
        ComputeOp::Mov => b,
        ComputeOp::Bic => a & !b,
        ComputeOp::Mvn => !b,
    }
}

#[inline(always)]
fn add_with_carry(registers: &Registers, a: u32, b: u32) -> u32
    ensures { result ≡ value_of ComputeOp.Adc a b registers.now }
{
    a.wrapping_add(b)
        .wrapping_add(u32::from(registers.flags().carry))
}

// The outcome of an operation with S.
#[inline(always)]
fn outcome_in(registers: &Registers, op: ComputeOp, a: u32, b: u32, carry: bool) -> Outcome
    ensures { result ≡ outcome_in op a b carry registers.now }
{
    operate(op, a, b, carry, registers.flags())
}

// The carry of a number in the instruction.
#[inline(always)]
fn number_carry(registers: &Registers, value: u32, turned: bool) -> bool
    ensures { result ≡ number_carry value turned registers.now }
{
    if turned {
        bit(value, 31)
    } else {
        registers.flags().carry
    }
}

// Writes the flags of an outcome.
#[inline(always)]
fn write_flags(registers: &mut Registers, outcome: Outcome)
    ensures { registers.new ≡ with_flags registers.old (flags_after outcome) }
{
    registers.set_result(outcome.value, outcome.carry, outcome.overflow);
}

// Writes the flags of an outcome, and its value.
#[inline(always)]
fn write_flags_and(registers: &mut Registers, rd: u8, outcome: Outcome)
    requires { rd < 16 }
    ensures { registers.new ≡ with_flags_and rd outcome registers.old }
{
    write_flags(registers, outcome);
    registers.set(u32::from(rd), outcome.value);
}

/// Data processing of a register and a number.
#[inline(always)]
pub fn write_number<B: Bus>(
    registers: &mut Registers,
    bus: &B,
    site: Site,
    op: ComputeOp,
    rn: u8,
    rd: u8,
    value: u32,
) -> u32
    requires rn { rn < 16 }
    requires rd { rd < 16 }
    ensures { Leaves (after_number B.code_price_of B.load_of B.store_of op rn rd value site registers.old
        (B.state bus.now)) registers.new (B.state bus.now) result }
{
    let value = value_of(registers, op, registers.get(u32::from(rn)), value);
    registers.set(u32::from(rd), value);
    code_price(bus, site, true)
}

/// Data processing of two registers.
#[inline(always)]
pub fn write_plain<B: Bus>(
    registers: &mut Registers,
    bus: &B,
    site: Site,
    op: ComputeOp,
    rn: u8,
    rd: u8,
    rm: u8,
) -> u32
    requires rn { rn < 16 }
    requires rd { rd < 16 }
    requires rm { rm < 16 }
    ensures { Leaves (after_plain B.code_price_of B.load_of B.store_of op rn rd rm site registers.old
        (B.state bus.now)) registers.new (B.state bus.now) result }
{
    let second = registers.get(u32::from(rm));
    let value = value_of(registers, op, registers.get(u32::from(rn)), second);
    registers.set(u32::from(rd), value);
    code_price(bus, site, true)
}

// Data processing of a register and a shifted register.
#[inline(always)]
#[tactic(auto, unfolding(crate::specs::Effects::effect_of_quick))]
fn write_shifted<B: Bus>(
    registers: &mut Registers,
    bus: &B,
    site: Site,
    op: ComputeOp,
    rn: u8,
    rd: u8,
    rm: u8,
    kind: Shift,
    amount: u8,
) -> u32
    requires rn { rn < 16 }
    requires rd { rd < 16 }
    requires rm { rm < 16 }
    requires least { 0 < amount }
    requires most { amount ≤ 31 }
    ensures { Leaves (effect_of_quick B.code_price_of B.load_of B.store_of (Quick.Shifted op rn rd rm kind amount) site
        registers.old (B.state bus.now)) registers.new (B.state bus.now) result }
{
    let second = shift_within(kind, registers.get(u32::from(rm)), amount);
    let value = value_of(registers, op, registers.get(u32::from(rn)), second);
    registers.set(u32::from(rd), value);
    code_price(bus, site, true)
}

/// Data processing with S of a register and a number. `turned` says that the number's bit 31 is the carry.
#[inline(always)]
#[tactic(auto, unfolding(crate::specs::Effects::effect_of_quick))]
pub fn set_number<B: Bus>(
    registers: &mut Registers,
    bus: &B,
    site: Site,
    op: ComputeOp,
    rn: u8,
    rd: u8,
    value: u32,
    turned: bool,
) -> u32
    requires rn { rn < 16 }
    requires rd { rd < 16 }
    ensures { Leaves (effect_of_quick B.code_price_of B.load_of B.store_of (Quick.SetNumber op rn rd value turned) site
        registers.old (B.state bus.now)) registers.new (B.state bus.now) result }
{
    let carry = number_carry(registers, value, turned);
    let outcome = outcome_in(registers, op, registers.get(u32::from(rn)), value, carry);
    write_flags_and(registers, rd, outcome);
    code_price(bus, site, true)
}

/// Data processing with S of two registers.
#[inline(always)]
#[tactic(auto, unfolding(crate::specs::Effects::effect_of_quick))]
pub fn set_plain<B: Bus>(
    registers: &mut Registers,
    bus: &B,
    site: Site,
    op: ComputeOp,
    rn: u8,
    rd: u8,
    rm: u8,
) -> u32
    requires rn { rn < 16 }
    requires rd { rd < 16 }
    requires rm { rm < 16 }
    ensures { Leaves (effect_of_quick B.code_price_of B.load_of B.store_of (Quick.SetPlain op rn rd rm) site
        registers.old (B.state bus.now)) registers.new (B.state bus.now) result }
{
    let second = registers.get(u32::from(rm));
    let carry = registers.flags().carry;
    let outcome = outcome_in(registers, op, registers.get(u32::from(rn)), second, carry);
    write_flags_and(registers, rd, outcome);
    code_price(bus, site, true)
}

// Data processing with S of a register and a shifted register.
#[inline(always)]
#[tactic(auto, unfolding(crate::specs::Effects::effect_of_quick))]
fn set_shifted<B: Bus>(
    registers: &mut Registers,
    bus: &B,
    site: Site,
    op: ComputeOp,
    rn: u8,
    rd: u8,
    rm: u8,
    kind: Shift,
    amount: u8,
) -> u32
    requires rn { rn < 16 }
    requires rd { rd < 16 }
    requires rm { rm < 16 }
    requires least { 0 < amount }
    requires most { amount ≤ 31 }
    ensures { Leaves (effect_of_quick B.code_price_of B.load_of B.store_of (Quick.SetShifted op rn rd rm kind amount)
        site registers.old (B.state bus.now)) registers.new (B.state bus.now) result }
{
    let (second, carry) = shift(kind, registers.get(u32::from(rm)), amount, false);
    let outcome = outcome_in(registers, op, registers.get(u32::from(rn)), second, carry);
    write_flags_and(registers, rd, outcome);
    code_price(bus, site, true)
}

// The bit that LSL moves out last.
#[inline(always)]
fn left_carry(value: u32, amount: u8) -> bool
    requires { amount ≤ 31 }
    ensures { result ≡ (nonzero_shift Lsl value amount).1 }
{
    (u64::from(value) << amount >> 32) % 2 == 1
}

// The bit that LSR moves out last.
#[inline(always)]
fn right_carry(value: u32, amount: u8) -> bool
    requires least { 0 < amount }
    requires most { amount ≤ 31 }
    ensures { result ≡ (nonzero_shift Lsr value amount).1 }
{
    bit(value, u32::from(amount) - 1)
}

/// MOV with S of a register and LSL by 1 to 31 places.
#[inline(always)]
#[tactic(auto, unfolding(crate::specs::Effects::effect_of_quick))]
pub fn move_left<B: Bus>(
    registers: &mut Registers,
    bus: &B,
    site: Site,
    rn: u8,
    rd: u8,
    rm: u8,
    amount: u8,
) -> u32
    requires rn { rn < 16 }
    requires rd { rd < 16 }
    requires rm { rm < 16 }
    requires least { 0 < amount }
    requires most { amount ≤ 31 }
    ensures { Leaves (effect_of_quick B.code_price_of B.load_of B.store_of (Quick.SetMovShifted rn rd rm Lsl amount)
        site registers.old (B.state bus.now)) registers.new (B.state bus.now) result }
{
    let value = registers.get(u32::from(rm));
    let second = shift_within(Shift::Lsl, value, amount);
    let carry = left_carry(value, amount);
    let outcome = outcome_in(
        registers,
        ComputeOp::Mov,
        registers.get(u32::from(rn)),
        second,
        carry,
    );
    write_flags_and(registers, rd, outcome);
    code_price(bus, site, true)
}

/// MOV with S of a register and LSR by 1 to 31 places.
#[inline(always)]
#[tactic(auto, unfolding(crate::specs::Effects::effect_of_quick))]
pub fn move_right<B: Bus>(
    registers: &mut Registers,
    bus: &B,
    site: Site,
    rn: u8,
    rd: u8,
    rm: u8,
    amount: u8,
) -> u32
    requires rn { rn < 16 }
    requires rd { rd < 16 }
    requires rm { rm < 16 }
    requires least { 0 < amount }
    requires most { amount ≤ 31 }
    ensures { Leaves (effect_of_quick B.code_price_of B.load_of B.store_of (Quick.SetMovShifted rn rd rm Lsr amount)
        site registers.old (B.state bus.now)) registers.new (B.state bus.now) result }
{
    let value = registers.get(u32::from(rm));
    let second = shift_within(Shift::Lsr, value, amount);
    let carry = right_carry(value, amount);
    let outcome = outcome_in(
        registers,
        ComputeOp::Mov,
        registers.get(u32::from(rn)),
        second,
        carry,
    );
    write_flags_and(registers, rd, outcome);
    code_price(bus, site, true)
}

/// The flags of a register and a number.
#[inline(always)]
#[tactic(auto, unfolding(crate::specs::Effects::effect_of_quick))]
pub fn compare_number<B: Bus>(
    registers: &mut Registers,
    bus: &B,
    site: Site,
    op: ComputeOp,
    rn: u8,
    value: u32,
    turned: bool,
) -> u32
    requires { rn < 16 }
    ensures { Leaves (effect_of_quick B.code_price_of B.load_of B.store_of (Quick.CompareNumber op rn value turned) site
        registers.old (B.state bus.now)) registers.new (B.state bus.now) result }
{
    let carry = number_carry(registers, value, turned);
    let outcome = outcome_in(registers, op, registers.get(u32::from(rn)), value, carry);
    write_flags(registers, outcome);
    code_price(bus, site, true)
}

/// The flags of two registers.
#[inline(always)]
#[tactic(auto, unfolding(crate::specs::Effects::effect_of_quick))]
pub fn compare_plain<B: Bus>(
    registers: &mut Registers,
    bus: &B,
    site: Site,
    op: ComputeOp,
    rn: u8,
    rm: u8,
) -> u32
    requires rn { rn < 16 }
    requires rm { rm < 16 }
    ensures { Leaves (effect_of_quick B.code_price_of B.load_of B.store_of (Quick.ComparePlain op rn rm) site
        registers.old (B.state bus.now)) registers.new (B.state bus.now) result }
{
    let second = registers.get(u32::from(rm));
    let carry = registers.flags().carry;
    let outcome = outcome_in(registers, op, registers.get(u32::from(rn)), second, carry);
    write_flags(registers, outcome);
    code_price(bus, site, true)
}

// The flags of a register and a shifted register.
#[inline(always)]
#[tactic(auto, unfolding(crate::specs::Effects::effect_of_quick))]
fn compare_shifted<B: Bus>(
    registers: &mut Registers,
    bus: &B,
    site: Site,
    op: ComputeOp,
    rn: u8,
    rm: u8,
    kind: Shift,
    amount: u8,
) -> u32
    requires rn { rn < 16 }
    requires rm { rm < 16 }
    requires least { 0 < amount }
    requires most { amount ≤ 31 }
    ensures { Leaves (effect_of_quick B.code_price_of B.load_of B.store_of (Quick.CompareShifted op rn rm kind amount)
        site registers.old (B.state bus.now)) registers.new (B.state bus.now) result }
{
    let (second, carry) = shift(kind, registers.get(u32::from(rm)), amount, false);
    let outcome = outcome_in(registers, op, registers.get(u32::from(rn)), second, carry);
    write_flags(registers, outcome);
    code_price(bus, site, true)
}

/// B.
#[inline(always)]
#[tactic(auto, unfolding(crate::specs::Effects::effect_of_quick))]
pub fn branch<B: Bus>(registers: &mut Registers, bus: &B, site: Site, distance: u32) -> u32
    ensures { Leaves (effect_of_quick B.code_price_of B.load_of B.store_of (Quick.Branch distance) site registers.old
        (B.state bus.now)) registers.new (B.state bus.now) result }
{
    jump(registers, site.counter().wrapping_add(distance));
    jump_price(bus, site)
}

/// A load that keeps the base.
#[inline(always)]
pub fn load_quick<B: Bus>(
    registers: &mut Registers,
    bus: &mut B,
    site: Site,
    unit: LoadUnit,
    rn: u8,
    rd: u8,
    offset: u32,
) -> u32
    requires rn { rn < 16 }
    requires rd { rd < 16 }
    ensures { Leaves (after_quick_load B.code_price_of B.load_of B.store_of unit rn rd offset site registers.old
        (B.state bus.old)) registers.new (B.state bus.new) result }
{
    let code = code_price(bus, site, true);
    let address = registers.get(u32::from(rn)).wrapping_add(offset);
    let (value, price) = unit_load(bus, site, unit, address);
    registers.set(u32::from(rd), value);
    code + price + 1
}

/// A store that keeps the base.
#[inline(always)]
pub fn store_quick<B: Bus>(
    registers: &Registers,
    bus: &mut B,
    site: Site,
    width: Width,
    rn: u8,
    rd: u8,
    offset: u32,
) -> u32
    requires rn { rn < 16 }
    requires rd { rd < 16 }
    ensures { Leaves (after_quick_store B.code_price_of B.load_of B.store_of width rn rd offset site registers.now
        (B.state bus.old)) registers.now (B.state bus.new) result }
{
    let code = code_price(bus, site, false);
    let address = registers.get(u32::from(rn)).wrapping_add(offset);
    code + unit_store(bus, width, address, registers.get(u32::from(rd)))
}
