//! Every operation, and what a word without one does.

ghost use Rattle.std.specs.Prelude.{◌≡◌, ◌<◌, IfSome, IsTrue};
ghost use Rattle.gba_arm_table.specs.Classes.{
  is_block,
  is_half,
  is_long_multiply,
  is_multiply,
  is_processing,
  is_status_move,
  is_transfer,
};
ghost use Rattle.gba_arm_table.specs.Limits.{Fits};
ghost use Rattle.gba_exec_transfers.specs.Done.{Leaves};
ghost use Rattle.gba_exec_transfers.specs.Effects.{after_half, after_transfer, effect, effect_of_word};

use crate::blocks::{load_block, store_block};
use crate::singles::{half_distance, load_single, store_single, swap, transfer_distance};
use crate::units::{BlockTransfer, LoadUnit, SingleTransfer};
use gba_arm_table::{ArmOp, HalfKind};
use gba_bus::{Bus, Width};
use gba_exec_registers::{
    Site, branch, code_price, compare, compare_price, compute_price, exchange, interrupt,
    jump_price, long_product, make_outcome, multiply_long_price, multiply_price, product,
    read_status, refill_price, trap, write_long_product, write_outcome, write_product,
    write_status,
};
use gba_psr::Registers;

/// Performs an operation, whatever its condition, and answers the cycles. r15 is the address of the next instruction.
#[tactic(auto, unfolding(crate::specs::Effects::effect))]
pub fn perform<B: Bus>(registers: &mut Registers, bus: &mut B, site: Site, op: ArmOp) -> u32
    requires { Fits op }
    ensures { Leaves (effect B.code_price_of B.load_of B.store_of op site registers.old (B.state bus.old))
        registers.new (B.state bus.new) result }
{
    match op {
        ArmOp::Exchange { rm, .. } => {
            exchange(registers, site, rm);
            jump_price(bus, site)
        }
        ArmOp::Multiply { .. } => multiply(registers, bus, site, op),
        ArmOp::MultiplyLong { .. } => multiply_long(registers, bus, site, op),
        ArmOp::Swap { .. } => swap(registers, bus, site, op),
        ArmOp::Half { .. } => transfer_half(registers, bus, site, op),
        ArmOp::ReadStatus { .. } | ArmOp::WriteStatus { .. } => move_status(
            registers, bus, site, op,
        ),
        ArmOp::Compute { .. } | ArmOp::Compare { .. } => process(registers, bus, site, op),
        ArmOp::Transfer { .. } => transfer(registers, bus, site, op),
        ArmOp::Block { .. } => transfer_block(registers, bus, site, op),
        ArmOp::Branch { link, offset, .. } => {
            branch(registers, site, link, offset);
            jump_price(bus, site)
        }
        ArmOp::Interrupt { .. } => {
            interrupt(registers);
            jump_price(bus, site)
        }
    }
}

// MUL and MLA.
#[tactic(auto, unfolding(crate::specs::Effects::effect))]
fn multiply<B: Bus>(registers: &mut Registers, bus: &mut B, site: Site, op: ArmOp) -> u32
    requires fits { Fits op }
    requires class { IsTrue (is_multiply op) }
    ensures { Leaves (effect B.code_price_of B.load_of B.store_of op site registers.old (B.state bus.old))
        registers.new (B.state bus.new) result }
{
    let ArmOp::Multiply {
        accumulate,
        set,
        rd,
        rn,
        rs,
        rm,
        ..
    } = op
    else {
        unreachable!()
    };
    let price = multiply_price(registers, bus, site, accumulate, rd, rs);
    let value = product(registers, site, accumulate, rn, rs, rm);
    write_product(registers, set, rd, value);
    price
}

// UMULL, UMLAL, SMULL, SMLAL.
#[tactic(auto, unfolding(crate::specs::Effects::effect))]
fn multiply_long<B: Bus>(registers: &mut Registers, bus: &mut B, site: Site, op: ArmOp) -> u32
    requires fits { Fits op }
    requires class { IsTrue (is_long_multiply op) }
    ensures { Leaves (effect B.code_price_of B.load_of B.store_of op site registers.old (B.state bus.old))
        registers.new (B.state bus.new) result }
{
    let ArmOp::MultiplyLong {
        signed,
        accumulate,
        set,
        hi,
        lo,
        rs,
        rm,
        ..
    } = op
    else {
        unreachable!()
    };
    let price = multiply_long_price(registers, bus, site, signed, accumulate, hi, lo, rs);
    let value = long_product(registers, site, signed, accumulate, hi, lo, rs, rm);
    write_long_product(registers, set, hi, lo, value);
    price
}

// LDRH, STRH, LDRSB, LDRSH.
#[tactic(auto, unfolding(crate::specs::Effects::effect))]
fn transfer_half<B: Bus>(registers: &mut Registers, bus: &mut B, site: Site, op: ArmOp) -> u32
    requires fits { Fits op }
    requires class { IsTrue (is_half op) }
    ensures { Leaves (effect B.code_price_of B.load_of B.store_of op site registers.old (B.state bus.old))
        registers.new (B.state bus.new) result }
{
    let ArmOp::Half {
        kind,
        pre,
        up,
        write,
        rn,
        rd,
        offset,
        ..
    } = op
    else {
        unreachable!()
    };
    let distance = half_distance(registers, site, offset);
    let one = SingleTransfer {
        pre,
        up,
        write,
        rn,
        rd,
        distance,
    };
    match kind {
        HalfKind::StoreHalf => store_single(registers, bus, site, Width::Half, one),
        HalfKind::LoadHalf => load_single(registers, bus, site, LoadUnit::Half, one),
        HalfKind::LoadSignedByte => load_single(registers, bus, site, LoadUnit::SignedByte, one),
        HalfKind::LoadSignedHalf => load_single(registers, bus, site, LoadUnit::SignedHalf, one),
    }
}

// MRS and MSR.
#[tactic(auto, unfolding(crate::specs::Effects::effect))]
fn move_status<B: Bus>(registers: &mut Registers, bus: &mut B, site: Site, op: ArmOp) -> u32
    requires fits { Fits op }
    requires class { IsTrue (is_status_move op) }
    ensures { Leaves (effect B.code_price_of B.load_of B.store_of op site registers.old (B.state bus.old))
        registers.new (B.state bus.new) result }
{
    match op {
        ArmOp::ReadStatus { saved, rd, .. } => {
            read_status(registers, saved, rd);
            code_price(bus, site, true) + refill_price(bus, site, rd)
        }
        ArmOp::WriteStatus {
            saved,
            fields,
            source,
            ..
        } => {
            write_status(registers, site, saved, fields, source);
            code_price(bus, site, true)
        }
        _ => unreachable!(),
    }
}

// Data processing.
#[tactic(auto, unfolding(crate::specs::Effects::effect))]
fn process<B: Bus>(registers: &mut Registers, bus: &mut B, site: Site, op: ArmOp) -> u32
    requires fits { Fits op }
    requires class { IsTrue (is_processing op) }
    ensures { Leaves (effect B.code_price_of B.load_of B.store_of op site registers.old (B.state bus.old))
        registers.new (B.state bus.new) result }
{
    match op {
        ArmOp::Compute {
            op,
            set,
            rn,
            rd,
            operand,
            ..
        } => {
            let outcome = make_outcome(registers, site, op, rn, operand);
            write_outcome(registers, set, rd, outcome);
            compute_price(bus, site, rd, operand)
        }
        ArmOp::Compare {
            op,
            rn,
            operand,
            ..
        } => {
            compare(registers, site, op, rn, operand);
            compare_price(bus, site, operand)
        }
        _ => unreachable!(),
    }
}

// LDR and STR of a word or a byte.
#[tactic(auto, unfolding(crate::specs::Effects::effect))]
fn transfer<B: Bus>(registers: &mut Registers, bus: &mut B, site: Site, op: ArmOp) -> u32
    requires fits { Fits op }
    requires class { IsTrue (is_transfer op) }
    ensures { Leaves (effect B.code_price_of B.load_of B.store_of op site registers.old (B.state bus.old))
        registers.new (B.state bus.new) result }
{
    let ArmOp::Transfer {
        load,
        byte,
        pre,
        up,
        write,
        rn,
        rd,
        offset,
        ..
    } = op
    else {
        unreachable!()
    };
    let distance = transfer_distance(registers, site, offset);
    let one = SingleTransfer {
        pre,
        up,
        write,
        rn,
        rd,
        distance,
    };
    if load {
        load_single(
            registers,
            bus,
            site,
            if byte { LoadUnit::Byte } else { LoadUnit::Word },
            one,
        )
    } else {
        store_single(
            registers,
            bus,
            site,
            if byte { Width::Byte } else { Width::Word },
            one,
        )
    }
}

// LDM and STM.
#[tactic(auto, unfolding(crate::specs::Effects::effect))]
fn transfer_block<B: Bus>(registers: &mut Registers, bus: &mut B, site: Site, op: ArmOp) -> u32
    requires fits { Fits op }
    requires class { IsTrue (is_block op) }
    ensures { Leaves (effect B.code_price_of B.load_of B.store_of op site registers.old (B.state bus.old))
        registers.new (B.state bus.new) result }
{
    let ArmOp::Block {
        load,
        pre,
        up,
        user,
        write,
        rn,
        list,
        ..
    } = op
    else {
        unreachable!()
    };
    let block = BlockTransfer {
        pre,
        up,
        user,
        write,
        rn,
        list,
    };
    if load {
        load_block(registers, bus, site, block)
    } else {
        store_block(registers, bus, site, block)
    }
}

/// Performs the operation of a word whose condition holds; None is the Undefined trap.
#[tactic(auto, unfolding(crate::specs::Effects::effect_of_word))]
pub fn perform_word<B: Bus>(
    registers: &mut Registers,
    bus: &mut B,
    site: Site,
    op: Option<ArmOp>,
) -> u32
    requires { IfSome op Fits }
    ensures { Leaves (effect_of_word B.code_price_of B.load_of B.store_of op site registers.old (B.state bus.old))
        registers.new (B.state bus.new) result }
{
    match op {
        Some(op) => perform(registers, bus, site, op),
        None => {
            trap(registers);
            jump_price(bus, site) + 1
        }
    }
}
