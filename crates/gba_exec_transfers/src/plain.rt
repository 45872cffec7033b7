//! LDM and STM of the present mode's registers without r15, with what their lists say worked out before.

ghost use Rattle.std.specs.Prelude.{◌≡◌, ◌<◌, ◌≤◌, ◌^◌, false, true};
ghost use Rattle.gba_bus.specs.declared.width.Width.TheVariants.{Word};
ghost use Rattle.gba_psr.specs.RegisterFile.{register};
ghost use Rattle.gba_exec_transfers.specs.Blocks.{after_load_block, after_store_block, registers_in, stores};
ghost use Rattle.gba_exec_transfers.specs.Done.{Done, Leaves};
ghost use Rattle.gba_exec_transfers.specs.Plain.{IsPlain, is_plain, plain_of};
ghost use Rattle.gba_exec_transfers.specs.Singles.{with_write_back};

use crate::blocks::{first_of, load_list, lowest, rest_of, span_of};
use crate::singles::offset_address;
use crate::units::{BlockTransfer, PlainBlock};
use gba_bus::{Bus, Width};
use gba_exec_registers::{Site, code_price};
use gba_psr::Registers;
use gba_word::bit;

/// Whether a block has no S bit, r15 neither as its base nor in its list, and a list that isn't empty.
pub fn is_plain(block: BlockTransfer) -> bool
    ensures { result ≡ is_plain block }
{
    !block.user && block.rn < 15 && block.list != 0 && block.list < 0x8000
}

/// A plain block with what its list says.
pub fn plain_of(block: BlockTransfer) -> PlainBlock
    requires { block.rn < 16 }
    ensures { result ≡ plain_of block }
{
    let span = span_of(block.list);
    PlainBlock {
        block,
        load_writes: block.write && !bit(u32::from(block.list), u32::from(block.rn)),
        first: lowest(block, 0, span),
        moved: offset_address(block.up, 0, span),
    }
}

// The base moved where it's written.
#[inline(always)]
#[tactic(auto, unfolding(crate::specs::Singles::with_write_back))]
fn move_base(registers: &mut Registers, write: bool, rn: u8, base: u32)
    requires { rn < 15 }
    ensures { registers.new ≡ with_write_back write rn base registers.old }
{
    if write {
        registers.set(u32::from(rn), base);
    }
}

// One access of STM: the price.
#[inline(always)]
fn store_one<B: Bus>(
    registers: &Registers,
    bus: &mut B,
    number: u32,
    address: u32,
    sequential: bool,
) -> u32
    requires { number < 15 }
    ensures bus { B.state bus.new
        ≡ (B.store_of (B.state bus.old) address Word (register registers.now number) sequential).after }
    ensures price { result
        ≡ (B.store_of (B.state bus.old) address Word (register registers.now number) sequential).price }
    ensures most { result ≤ 18 }
{
    bus.store(address, Width::Word, registers.get(number), sequential)
}

// Stores the registers of a list behind a first access. Answers `cycles` and the prices of the accesses.
#[inline(always)]
fn store_listed<B: Bus>(
    registers: &Registers,
    bus: &mut B,
    site: Site,
    list: u32,
    first: u32,
    cycles: u32,
) -> u32
    requires list { list < 2 ^ 15 }
    requires cycles { cycles ≤ 100 }
    ensures leaves { Leaves (stores B.code_price_of B.load_of B.store_of false site false 0 0 (registers_in list 0 16)
        first true (record { registers = registers.now; bus = B.state bus.old; cycles = cycles }))
        registers.now (B.state bus.new) result }
{
    let mut total = cycles;
    let mut address = first;
    let mut left = list;
    'listed: while left != 0 {
        total += store_one(registers, bus, first_of(left), address, true);
        address = address.wrapping_add(4);
        left = rest_of(left);
    }
    total
}

/// LDM of a plain block. Answers the cycles.
#[inline(always)]
pub fn load_plain<B: Bus>(
    registers: &mut Registers,
    bus: &mut B,
    site: Site,
    plain: PlainBlock,
) -> u32
    requires { IsPlain plain }
    ensures { Leaves (after_load_block B.code_price_of B.load_of B.store_of plain.block site registers.old
        (B.state bus.old)) registers.new (B.state bus.new) result }
{
    let code = code_price(bus, site, true);
    let base = registers.get(u32::from(plain.block.rn));
    let first = Width::Word.align(base.wrapping_add(plain.first));
    move_base(
        registers,
        plain.load_writes,
        plain.block.rn,
        base.wrapping_add(plain.moved),
    );
    load_list(
        registers,
        bus,
        site,
        false,
        u32::from(plain.block.list),
        first,
        code + 1,
    )
}

/// STM of a plain block. Answers the cycles.
#[inline(always)]
pub fn store_plain<B: Bus>(
    registers: &mut Registers,
    bus: &mut B,
    site: Site,
    plain: PlainBlock,
) -> u32
    requires { IsPlain plain }
    ensures { Leaves (after_store_block B.code_price_of B.load_of B.store_of plain.block site registers.old
        (B.state bus.old)) registers.new (B.state bus.new) result }
{
    let code = code_price(bus, site, false);
    let list = u32::from(plain.block.list);
    let base = registers.get(u32::from(plain.block.rn));
    let first = Width::Word.align(base.wrapping_add(plain.first));
    let price = store_one(registers, bus, first_of(list), first, false);
    move_base(
        registers,
        plain.block.write,
        plain.block.rn,
        base.wrapping_add(plain.moved),
    );
    store_listed(
        registers,
        bus,
        site,
        rest_of(list),
        first.wrapping_add(4),
        code + price,
    )
}
