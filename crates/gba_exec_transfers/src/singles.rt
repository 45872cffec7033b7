//! LDR, STR and their kinds, and SWP.

ghost use Rattle.std.specs.Prelude.{◌≡◌, ◌<◌, ◌≤◌, IsTrue};
ghost use Rattle.gba_arm_table.specs.Classes.{is_swap};
ghost use Rattle.gba_exec_transfers.specs.Done.{Leaves};
ghost use Rattle.gba_exec_transfers.specs.Effects.{effect};
ghost use Rattle.gba_exec_transfers.specs.Singles.{
  after_load,
  after_store,
  half_distance,
  offset_address,
  transfer_address,
  transfer_distance,
  unit_load,
  unit_store,
  unit_value,
  unit_width,
  with_transfer_base,
  with_write_back,
};
ghost use Rattle.gba_arm_table.specs.Limits.{Fits, Within, half_registers, transfer_immediates, transfer_registers};

use crate::units::{LoadUnit, SingleTransfer};
use gba_arm_table::{ArmOp, HalfOffset, TransferOffset};
use gba_bus::{Bus, Width};
use gba_exec_registers::{Site, code_price, read_operand, refill_price, write_result};
use gba_psr::Registers;
use gba_word::{rotate, shift_fixed, sign_extend};

/// How far a word or byte transfer is from its base.
#[tactic(auto, unfolding(crate::specs::Singles::transfer_distance))]
pub fn transfer_distance(registers: &Registers, site: Site, offset: TransferOffset) -> u32
    requires registers { Within (transfer_registers offset) }
    requires immediates { Within (transfer_immediates offset) }
    ensures { result ≡ transfer_distance offset site registers.now }
{
    match offset {
        TransferOffset::Number { value } => value,
        TransferOffset::Shifted { rm, kind, amount } => {
            let value = read_operand(registers, site.counter(), rm);
            shift_fixed(kind, value, amount, registers.flags().carry).0
        }
    }
}

/// How far a halfword or signed byte transfer is from its base.
#[tactic(auto, unfolding(crate::specs::Singles::half_distance))]
pub fn half_distance(registers: &Registers, site: Site, offset: HalfOffset) -> u32
    requires { Within (half_registers offset) }
    ensures { result ≡ half_distance offset site registers.now }
{
    match offset {
        HalfOffset::Number { value } => value,
        HalfOffset::Plain { rm } => read_operand(registers, site.counter(), rm),
    }
}

/// LDR and its kinds. Answers the cycles.
#[tactic(auto, unfolding(crate::specs::Singles::after_load))]
pub fn load_single<B: Bus>(
    registers: &mut Registers,
    bus: &mut B,
    site: Site,
    kind: LoadUnit,
    one: SingleTransfer,
) -> u32
    requires rn { one.rn < 16 }
    requires rd { one.rd < 16 }
    ensures { Leaves (after_load B.code_price_of B.load_of B.store_of kind one site registers.old (B.state bus.old))
        registers.new (B.state bus.new) result }
{
    let code = code_price(bus, site, true);
    let refill = refill_price(bus, site, one.rd);
    let (value, price) = unit_load(bus, site, kind, address_of_transfer(registers, site, one));
    write_transfer_base(registers, site, one);
    write_result(registers, one.rd, value);
    code + price + 1 + refill
}

/// STR and its kinds. Answers the cycles.
#[tactic(auto, unfolding(crate::specs::Singles::after_store))]
pub fn store_single<B: Bus>(
    registers: &mut Registers,
    bus: &mut B,
    site: Site,
    width: Width,
    one: SingleTransfer,
) -> u32
    requires rn { one.rn < 16 }
    requires rd { one.rd < 16 }
    ensures { Leaves (after_store B.code_price_of B.load_of B.store_of width one site registers.old (B.state bus.old))
        registers.new (B.state bus.new) result }
{
    let code = code_price(bus, site, false);
    let value = read_operand(registers, site.late_counter(), one.rd);
    let price = unit_store(bus, width, address_of_transfer(registers, site, one), value);
    write_transfer_base(registers, site, one);
    code + price
}

/// SWP. Answers the cycles.
#[tactic(auto, unfolding(crate::specs::Effects::effect, crate::specs::Singles::after_swap))]
pub fn swap<B: Bus>(registers: &mut Registers, bus: &mut B, site: Site, op: ArmOp) -> u32
    requires fits { Fits op }
    requires class { IsTrue (is_swap op) }
    ensures { Leaves (effect B.code_price_of B.load_of B.store_of op site registers.old (B.state bus.old))
        registers.new (B.state bus.new) result }
{
    let ArmOp::Swap {
        byte,
        rn,
        rd,
        rm,
        ..
    } = op
    else {
        unreachable!()
    };
    let code = code_price(bus, site, true);
    let refill = refill_price(bus, site, rd);
    let address = read_operand(registers, site.counter(), rn);
    let kind = if byte { LoadUnit::Byte } else { LoadUnit::Word };
    let width = if byte { Width::Byte } else { Width::Word };
    let stored = read_operand(registers, site.counter(), rm);
    let (value, load) = unit_load(bus, site, kind, address);
    let store = unit_store(bus, width, address, stored);
    write_result(registers, rd, value);
    code + load + store + 1 + refill
}

// How wide a load reads.
#[inline(always)]
fn unit_width(kind: LoadUnit, address: u32) -> Width
    ensures { result ≡ unit_width kind address }
{
    match kind {
        LoadUnit::Word => Width::Word,
        LoadUnit::Half => Width::Half,
        LoadUnit::Byte | LoadUnit::SignedByte => Width::Byte,
        LoadUnit::SignedHalf => if address % 2 == 1 {
            Width::Byte
        } else {
            Width::Half
        },
    }
}

// What the register gets of what was read.
#[inline(always)]
fn unit_value(kind: LoadUnit, address: u32, read: u32) -> u32
    ensures { result ≡ unit_value kind address read }
{
    match kind {
        LoadUnit::Word => rotate(read, 8 * (address % 4)),
        LoadUnit::Byte => read,
        LoadUnit::Half => rotate(read, 8 * (address % 2)),
        LoadUnit::SignedByte => sign_extend(read, 8),
        LoadUnit::SignedHalf => sign_extend(read, if address % 2 == 1 { 8 } else { 16 }),
    }
}

/// One non-sequential load: the value and the price.
#[inline(always)]
#[tactic(auto, unfolding(crate::specs::Singles::unit_load))]
pub fn unit_load<B: Bus>(bus: &mut B, site: Site, kind: LoadUnit, address: u32) -> (u32, u32)
    ensures value { result.0
        ≡ (unit_load B.code_price_of B.load_of B.store_of kind site address (B.state bus.old)).value }
    ensures price { result.1
        ≡ (unit_load B.code_price_of B.load_of B.store_of kind site address (B.state bus.old)).price }
    ensures bus { B.state bus.new
        ≡ (unit_load B.code_price_of B.load_of B.store_of kind site address (B.state bus.old)).after }
    ensures most { result.1 ≤ 18 }
{
    let width = unit_width(kind, address);
    let (read, price) = bus.load(site.address, width.align(address), width, false);
    (unit_value(kind, address, read), price)
}

/// One non-sequential store: the price.
#[inline(always)]
#[tactic(auto, unfolding(crate::specs::Singles::unit_store))]
pub fn unit_store<B: Bus>(bus: &mut B, width: Width, address: u32, value: u32) -> u32
    ensures price { result
        ≡ (unit_store B.code_price_of B.load_of B.store_of width address value (B.state bus.old)).price }
    ensures bus { B.state bus.new
        ≡ (unit_store B.code_price_of B.load_of B.store_of width address value (B.state bus.old)).after }
    ensures most { result ≤ 18 }
{
    bus.store(width.align(address), width, value, false)
}

/// The base moved up or down.
pub fn offset_address(up: bool, base: u32, distance: u32) -> u32
    ensures { result ≡ offset_address up base distance }
{
    if up {
        base.wrapping_add(distance)
    } else {
        base.wrapping_sub(distance)
    }
}

/// Writes the base back, but never r15.
#[tactic(auto, unfolding(crate::specs::Singles::with_write_back))]
pub fn write_back(registers: &mut Registers, write: bool, rn: u8, base: u32)
    requires { rn < 16 }
    ensures { registers.new ≡ with_write_back write rn base registers.old }
{
    if write && rn != 15 {
        registers.set(u32::from(rn), base);
    }
}

// The address of a transfer.
#[tactic(auto, unfolding(crate::specs::Singles::transfer_address))]
fn address_of_transfer(registers: &Registers, site: Site, one: SingleTransfer) -> u32
    requires { one.rn < 16 }
    ensures { result ≡ transfer_address one site registers.now }
{
    let base = read_operand(registers, site.counter(), one.rn);
    if one.pre {
        offset_address(one.up, base, one.distance)
    } else {
        base
    }
}

// Writes the base back after a transfer.
#[tactic(auto, unfolding(crate::specs::Singles::with_transfer_base))]
fn write_transfer_base(registers: &mut Registers, site: Site, one: SingleTransfer)
    requires { one.rn < 16 }
    ensures { registers.new ≡ with_transfer_base one site registers.old }
{
    let base = read_operand(registers, site.counter(), one.rn);
    write_back(
        registers,
        one.write || !one.pre,
        one.rn,
        offset_address(one.up, base, one.distance),
    );
}
