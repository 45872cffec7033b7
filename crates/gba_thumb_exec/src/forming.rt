//! What each form of a halfword does.

ghost use Rattle.std.specs.Prelude.{◌≡◌, IsTrue};
ghost use Rattle.gba_exec_registers.specs.Conditions.{holds};
ghost use Rattle.gba_exec_transfers.specs.Done.{Leaves};
ghost use Rattle.gba_thumb_exec.specs.Forms.{FormFits, branch_under, effect_of_form, is_rest};
ghost use Rattle.gba_psr.specs.RegisterFile.{flags};

use crate::Form;
use crate::meaning::Meaning;
use crate::performing::perform_meaning;
use gba_arm_table::{ComputeOp, Condition};
use gba_bus::{Bus, Width};
use gba_exec_quick::{
    branch, compare_number, compare_plain, load_quick, move_left, move_right, perform_any,
    set_number, set_plain, store_quick, write_number, write_plain,
};
use gba_exec_registers::{Site, code_price, condition_holds, jump, jump_price};
use gba_exec_transfers::LoadUnit;
use gba_psr::Registers;

/// Performs a form and answers the cycles. r15 is the address of the next instruction. The common forms stand here, to
/// be inlined where it is called; so it is called at one place.
#[inline(always)]
#[tactic(auto, unfolding(crate::specs::Forms::effect_of_form, gba_exec_quick::specs::Effects::effect_of_quick))]
pub fn perform_form<B: Bus>(registers: &mut Registers, bus: &mut B, site: Site, one: &Form) -> u32
    requires { FormFits one.now }
    ensures { Leaves (effect_of_form B.code_price_of B.load_of B.store_of one.now site registers.old (B.state bus.old))
        registers.new (B.state bus.new) result }
{
    match *one {
        Form::AddNumber { rn, rd, value } => write_number(
            registers,
            bus,
            site,
            ComputeOp::Add,
            rn,
            rd,
            value,
        ),
        Form::AddPlain { rn, rd, rm } => write_plain(
            registers,
            bus,
            site,
            ComputeOp::Add,
            rn,
            rd,
            rm,
        ),
        Form::MovPlain { rn, rd, rm } => write_plain(
            registers,
            bus,
            site,
            ComputeOp::Mov,
            rn,
            rd,
            rm,
        ),
        Form::SetAddNumber {
            rn,
            rd,
            value,
            turned,
        } => set_number(registers, bus, site, ComputeOp::Add, rn, rd, value, turned),
        Form::SetSubNumber {
            rn,
            rd,
            value,
            turned,
        } => set_number(registers, bus, site, ComputeOp::Sub, rn, rd, value, turned),
        Form::SetMovNumber {
            rn,
            rd,
            value,
            turned,
        } => set_number(registers, bus, site, ComputeOp::Mov, rn, rd, value, turned),
        Form::SetRsbNumber {
            rn,
            rd,
            value,
            turned,
        } => set_number(registers, bus, site, ComputeOp::Rsb, rn, rd, value, turned),
        Form::SetAddPlain { rn, rd, rm } => set_plain(
            registers,
            bus,
            site,
            ComputeOp::Add,
            rn,
            rd,
            rm,
        ),
        Form::SetSubPlain { rn, rd, rm } => set_plain(
            registers,
            bus,
            site,
            ComputeOp::Sub,
            rn,
            rd,
            rm,
        ),
        Form::SetAndPlain { rn, rd, rm } => set_plain(
            registers,
            bus,
            site,
            ComputeOp::And,
            rn,
            rd,
            rm,
        ),
        Form::SetEorPlain { rn, rd, rm } => set_plain(
            registers,
            bus,
            site,
            ComputeOp::Eor,
            rn,
            rd,
            rm,
        ),
        Form::SetAdcPlain { rn, rd, rm } => set_plain(
            registers,
            bus,
            site,
            ComputeOp::Adc,
            rn,
            rd,
            rm,
        ),
        Form::SetOrrPlain { rn, rd, rm } => set_plain(
            registers,
            bus,
            site,
            ComputeOp::Orr,
            rn,
            rd,
            rm,
        ),
        Form::SetBicPlain { rn, rd, rm } => set_plain(
            registers,
            bus,
            site,
            ComputeOp::Bic,
            rn,
            rd,
            rm,
        ),
        Form::SetMvnPlain { rn, rd, rm } => set_plain(
            registers,
            bus,
            site,
            ComputeOp::Mvn,
            rn,
            rd,
            rm,
        ),
        Form::MoveLeft { rn, rd, rm, amount } => move_left(
            registers, bus, site, rn, rd, rm, amount,
        ),
        Form::MoveRight { rn, rd, rm, amount } => move_right(
            registers, bus, site, rn, rd, rm, amount,
        ),
        Form::CmpNumber { rn, value, turned } => compare_number(
            registers,
            bus,
            site,
            ComputeOp::Sub,
            rn,
            value,
            turned,
        ),
        Form::CmpPlain { rn, rm } => compare_plain(registers, bus, site, ComputeOp::Sub, rn, rm),
        Form::TstPlain { rn, rm } => compare_plain(registers, bus, site, ComputeOp::And, rn, rm),
        Form::LoadWord { rn, rd, offset } => load_quick(
            registers,
            bus,
            site,
            LoadUnit::Word,
            rn,
            rd,
            offset,
        ),
        Form::LoadByte { rn, rd, offset } => load_quick(
            registers,
            bus,
            site,
            LoadUnit::Byte,
            rn,
            rd,
            offset,
        ),
        Form::StoreWord { rn, rd, offset } => store_quick(
            registers,
            bus,
            site,
            Width::Word,
            rn,
            rd,
            offset,
        ),
        Form::StoreByte { rn, rd, offset } => store_quick(
            registers,
            bus,
            site,
            Width::Byte,
            rn,
            rd,
            offset,
        ),
        Form::Branch { distance } => branch(registers, bus, site, distance),
        Form::BranchEqual { distance } => branch_under(
            registers,
            bus,
            site,
            Condition::Equal,
            distance,
        ),
        Form::BranchNotEqual { distance } => branch_under(
            registers,
            bus,
            site,
            Condition::NotEqual,
            distance,
        ),
        Form::BranchCarrySet { distance } => branch_under(
            registers,
            bus,
            site,
            Condition::CarrySet,
            distance,
        ),
        Form::BranchCarryClear { distance } => branch_under(
            registers,
            bus,
            site,
            Condition::CarryClear,
            distance,
        ),
        _ => perform_rest(registers, bus, site, one),
    }
}

// B under a condition.
#[inline(always)]
fn branch_under<B: Bus>(
    registers: &mut Registers,
    bus: &B,
    site: Site,
    condition: Condition,
    distance: u32,
) -> u32
    ensures { Leaves (branch_under B.code_price_of B.load_of B.store_of condition distance site registers.old
        (B.state bus.now)) registers.new (B.state bus.now) result }
{
    if holds_now(registers, condition) {
        jump(registers, site.counter().wrapping_add(distance));
        jump_price(bus, site)
    } else {
        code_price(bus, site, true)
    }
}

// Whether a condition holds by the flags as they are.
#[inline(always)]
fn holds_now(registers: &Registers, condition: Condition) -> bool
    ensures { result ≡ holds condition (flags registers.now) }
{
    condition_holds(condition, registers.flags())
}

// The forms that are no common ones.
#[inline(never)]
#[tactic(auto, unfolding(crate::specs::Forms::effect_of_form))]
fn perform_rest<B: Bus>(registers: &mut Registers, bus: &mut B, site: Site, one: &Form) -> u32
    requires fits { FormFits one.now }
    requires class { IsTrue (is_rest one.now) }
    ensures { Leaves (effect_of_form B.code_price_of B.load_of B.store_of one.now site registers.old (B.state bus.old))
        registers.new (B.state bus.new) result }
{
    match *one {
        Form::NearLoad { rd, words } => perform_meaning(
            registers,
            bus,
            site,
            Meaning::NearLoad { rd, words },
        ),
        Form::NearAddress { rd, words } => perform_meaning(
            registers,
            bus,
            site,
            Meaning::NearAddress { rd, words },
        ),
        Form::LinkHigh { n11 } => perform_meaning(registers, bus, site, Meaning::LinkHigh { n11 }),
        Form::LinkLow { n11 } => perform_meaning(registers, bus, site, Meaning::LinkLow { n11 }),
        Form::BranchIf {
            condition,
            distance,
        } => branch_under(registers, bus, site, condition, distance),
        Form::Quick { ref quick } => perform_any(registers, bus, site, quick),
        _ => unreachable!(),
    }
}
