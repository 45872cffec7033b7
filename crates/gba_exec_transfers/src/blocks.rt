//! LDM and STM.

ghost use Rattle.std.specs.Int.{trailing_zeros, w32};
ghost use Rattle.std.specs.Prelude.{◌≡◌, ◌+◌, ◌-◌, ◌<◌, ◌≤◌, ◌^◌, bit_and, false, if◌then◌else◌};
ghost use Rattle.gba_exec_transfers.specs.Blocks.{
  after_counter_load,
  after_load_block,
  after_store_block,
  block_register,
  block_run,
  first_address,
  full_list,
  loads,
  lowest,
  registers_in,
  span,
  stores,
  with_block_register,
};
ghost use Rattle.gba_exec_transfers.specs.Singles.{with_write_back};
ghost use Rattle.gba_exec_transfers.specs.Done.{Done, Leaves};
ghost use Rattle.gba_bus.specs.declared.width.Width.TheVariants.{Word};

use crate::singles::{offset_address, write_back};
use crate::units::{BlockRun, BlockTransfer};
use gba_bus::{Bus, Width};
use gba_exec_registers::{Site, code_price, jump, read_operand};
use gba_psr::Registers;
use gba_word::bit;

// The lowest register of a list.
#[inline(always)]
pub(crate) fn first_of(list: u32) -> u32
    requires some { 0 < list }
    requires list { list < 2 ^ 16 }
    ensures value { result ≡ trailing_zeros w32 list }
    ensures most { result < 16 }
    ensures below { list < 2 ^ 15 → result < 15 }
{
    list.trailing_zeros()
}

// A list without its lowest register.
#[inline(always)]
pub(crate) fn rest_of(list: u32) -> u32
    requires { 0 < list }
    ensures value { result ≡ bit_and list (list - 1) }
    ensures less { result < list }
{
    list & (list - 1)
}

/// Loads the registers of a list, the lowest first. Answers `cycles` and the prices of the accesses.
#[inline(always)]
pub(crate) fn load_list<B: Bus>(
    registers: &mut Registers,
    bus: &mut B,
    site: Site,
    user: bool,
    list: u32,
    first: u32,
    cycles: u32,
) -> u32
    requires list { list < 2 ^ 16 }
    requires cycles { cycles ≤ 100 }
    ensures leaves { Leaves (loads B.code_price_of B.load_of B.store_of user site (registers_in list 0 16) first
        false (record { registers = registers.old; bus = B.state bus.old; cycles = cycles }))
        registers.new (B.state bus.new) result }
    ensures most { result ≤ cycles + 288 }
{
    let mut total = cycles;
    let mut address = first;
    let mut sequential = false;
    let mut left = list;
    'listed: while left != 0 {
        total += load_register(
            registers,
            bus,
            site,
            user,
            first_of(left),
            address,
            sequential,
        );
        address = address.wrapping_add(4);
        sequential = true;
        left = rest_of(left);
    }
    total
}

// One access of LDM: the price.
#[inline(always)]
fn load_register<B: Bus>(
    registers: &mut Registers,
    bus: &mut B,
    site: Site,
    user: bool,
    number: u32,
    address: u32,
    sequential: bool,
) -> u32
    requires { number < 16 }
    ensures registers { registers.new ≡ with_block_register user registers.old number
        (B.load_of (B.state bus.old) site.address address Word sequential).value }
    ensures bus { B.state bus.new ≡ (B.load_of (B.state bus.old) site.address address Word sequential).after }
    ensures price { result ≡ (B.load_of (B.state bus.old) site.address address Word sequential).price }
    ensures most { result ≤ 18 }
{
    let (value, price) = bus.load(site.address, address, Width::Word, sequential);
    write_block_register(registers, user, number, value);
    price
}

#[inline(always)]
#[tactic(auto, unfolding(crate::specs::Blocks::with_block_register))]
fn write_block_register(registers: &mut Registers, user: bool, number: u32, value: u32)
    requires { number < 16 }
    ensures { registers.new ≡ with_block_register user registers.old number value }
{
    if user {
        registers.user_set(number, value);
    } else {
        registers.set(number, value);
    }
}

/// Stores the registers of a run; the base takes its new value after the first access. Answers `cycles` and the prices.
fn store_list<B: Bus>(
    registers: &mut Registers,
    bus: &mut B,
    site: Site,
    block: BlockTransfer,
    run: BlockRun,
    cycles: u32,
) -> u32
    requires list { run.list < 2 ^ 16 }
    requires cycles { cycles ≤ 100 }
    requires rn { block.rn < 16 }
    ensures leaves { Leaves (stores B.code_price_of B.load_of B.store_of block.user site block.write block.rn run.base
        (registers_in run.list 0 16) run.first false
        (record { registers = registers.old; bus = B.state bus.old; cycles = cycles }))
        registers.new (B.state bus.new) result }
    ensures most { result ≤ cycles + 288 }
{
    let mut total = cycles;
    let mut address = run.first;
    let mut sequential = false;
    let mut left = run.list;
    'listed: while left != 0 {
        total += store_register(
            registers,
            bus,
            site,
            block.user,
            first_of(left),
            address,
            sequential,
        );
        write_back_first(registers, sequential, block, run.base);
        address = address.wrapping_add(4);
        sequential = true;
        left = rest_of(left);
    }
    total
}

// One access of STM: the price.
fn store_register<B: Bus>(
    registers: &Registers,
    bus: &mut B,
    site: Site,
    user: bool,
    number: u32,
    address: u32,
    sequential: bool,
) -> u32
    requires { number < 16 }
    ensures bus { B.state bus.new
        ≡ (B.store_of (B.state bus.old) address Word (block_register user site registers.now number) sequential).after }
    ensures price { result
        ≡ (B.store_of (B.state bus.old) address Word (block_register user site registers.now number) sequential).price }
    ensures most { result ≤ 18 }
{
    bus.store(
        address,
        Width::Word,
        read_block_register(registers, site, user, number),
        sequential,
    )
}

#[tactic(auto, unfolding(crate::specs::Blocks::block_register))]
fn read_block_register(registers: &Registers, site: Site, user: bool, number: u32) -> u32
    requires { number < 16 }
    ensures { result ≡ block_register user site registers.now number }
{
    if number == 15 {
        site.late_counter()
    } else if user {
        registers.user_get(number)
    } else {
        registers.get(number)
    }
}

// The base after the first access.
fn write_back_first(registers: &mut Registers, sequential: bool, block: BlockTransfer, base: u32)
    requires { block.rn < 16 }
    ensures { registers.new
        ≡ (if sequential then registers.old else with_write_back block.write block.rn base registers.old) }
{
    if !sequential {
        write_back(registers, block.write, block.rn, base);
    }
}

/// LDM. Answers the cycles.
#[tactic(auto, unfolding(crate::specs::Blocks::after_load_block))]
pub fn load_block<B: Bus>(
    registers: &mut Registers,
    bus: &mut B,
    site: Site,
    block: BlockTransfer,
) -> u32
    requires { block.rn < 16 }
    ensures { Leaves (after_load_block B.code_price_of B.load_of B.store_of block site registers.old (B.state bus.old))
        registers.new (B.state bus.new) result }
{
    let run = block_run(block, read_operand(registers, site.counter(), block.rn));
    let counter_loaded = bit(run.list, 15);
    let code = code_price(bus, site, true);
    let refill = if counter_loaded {
        code_price(bus, site, true) + code_price(bus, site, false)
    } else {
        0
    };
    let write = block.write && !bit(u32::from(block.list), u32::from(block.rn));
    write_back(registers, write, block.rn, run.base);
    let cycles = load_list(
        registers,
        bus,
        site,
        block.user && !counter_loaded,
        run.list,
        run.first,
        code + 1,
    );
    conclude_load(registers, counter_loaded, block.user);
    cycles + refill
}

/// STM. Answers the cycles.
#[tactic(auto, unfolding(crate::specs::Blocks::after_store_block))]
pub fn store_block<B: Bus>(
    registers: &mut Registers,
    bus: &mut B,
    site: Site,
    block: BlockTransfer,
) -> u32
    requires { block.rn < 16 }
    ensures { Leaves (after_store_block B.code_price_of B.load_of B.store_of block site registers.old (B.state bus.old))
        registers.new (B.state bus.new) result }
{
    let run = block_run(block, read_operand(registers, site.counter(), block.rn));
    let code = code_price(bus, site, false);
    store_list(registers, bus, site, block, run, code)
}

// Where the accesses of a block at this base are.
fn block_run(block: BlockTransfer, base: u32) -> BlockRun
    ensures { result ≡ block_run block base }
{
    BlockRun {
        list: list_or_counter(block.list),
        first: address_of_first(block, base),
        base: offset_address(block.up, base, span_of(block.list)),
    }
}

// The list, which is r15 alone where it is empty.
fn list_or_counter(list: u16) -> u32
    ensures { result ≡ full_list list }
{
    if list == 0 { 1 << 15 } else { u32::from(list) }
}

// How far the base moves.
#[tactic(auto, unfolding(crate::specs::Blocks::span))]
pub(crate) fn span_of(list: u16) -> u32
    ensures { result ≡ span list }
{
    if list == 0 { 64 } else { 4 * list.count_ones() }
}

// The address of the first access.
fn address_of_first(block: BlockTransfer, base: u32) -> u32
    ensures { result ≡ first_address block base }
{
    let address = lowest(block, base, span_of(block.list));
    address - address % 4
}

#[tactic(auto, unfolding(crate::specs::Blocks::lowest))]
pub(crate) fn lowest(block: BlockTransfer, base: u32, span: u32) -> u32
    ensures { result ≡ lowest block.pre block.up base span }
{
    let from = if block.up {
        base
    } else {
        offset_address(false, base, span)
    };
    if block.pre == block.up {
        from.wrapping_add(4)
    } else {
        from
    }
}

// r15 loaded: CPSR from the SPSR with the S bit, then the jump.
#[tactic(auto, unfolding(crate::specs::Blocks::after_counter_load))]
fn conclude_load(registers: &mut Registers, counter_loaded: bool, user: bool)
    ensures { registers.new ≡ after_counter_load counter_loaded user registers.old }
{
    if counter_loaded {
        let target = registers.get(15);
        if user {
            registers.leave();
        }
        jump(registers, target);
    }
}
