#![tactic(auto)]
//! What each ARM instruction does to registers and memory, over any bus, and what it costs.

ghost use Rattle.std.specs.Prelude.{◌≡◌, ◌<◌, IfSome, Some, length, option_map, slice_get};
ghost use Rattle.gba_arm_exec.specs.Execution.{execution};
ghost use Rattle.gba_arm_table.specs.Limits.{Fits};
ghost use Rattle.gba_arm_table.specs.Table.{operation};
ghost use Rattle.gba_exec_registers.specs.Conditions.{holds};
ghost use Rattle.gba_exec_transfers.specs.Done.{Leaves};
ghost use Rattle.gba_psr.specs.RegisterFile.{flags};

mod decoded;
mod decoding;
pub mod laws;

pub use decoded::Decoded;
pub use decoding::decode_word;
use decoding::make_decoded;
use gba_arm_table::laws::operations_fit;
use gba_arm_table::{ArmOp, Condition, condition_of, decode};
use gba_bus::{Bus, Width};
use gba_exec_quick::laws::{quick_forms_fit, quick_forms_have_their_effect};
use gba_exec_quick::perform_quick;
use gba_exec_registers::{Site, condition_holds};
use gba_exec_transfers::perform_word;
use gba_psr::Registers;

/// Executes an ARM word that stands at the address in r15, and answers the cycles. Afterwards r15 is the address of the
/// next instruction (ARM Architecture Reference Manual, version 4T; cycles by the ARM7TDMI Technical Reference Manual).
pub fn execute<B: Bus>(registers: &mut Registers, bus: &mut B, word: u32) -> u32
    ensures { Leaves (execution B.code_price_of B.load_of B.store_of word registers.old (B.state bus.old))
        registers.new (B.state bus.new) result }
{
    execute_operation(registers, bus, word, decode(word))
}

/// Executes a word that was decoded before, as `execute` does.
#[inline(always)]
#[tactic(auto, unfolding(crate::specs::Execution::execution))]
pub fn execute_decoded<B: Bus>(registers: &mut Registers, bus: &mut B, one: &Decoded) -> u32
    ensures { Leaves (execution B.code_price_of B.load_of B.store_of one.now.word registers.old (B.state bus.old))
        registers.new (B.state bus.new) result }
{
    operations_fit();
    quick_forms_fit();
    quick_forms_have_their_effect::<B>();
    let site = Site {
        address: registers.get(15),
        thumb: false,
    };
    registers.set(15, site.address.wrapping_add(4));
    if one.always || holds_now(registers, one.condition) {
        perform_quick(registers, bus, site, &one.quick)
    } else {
        bus.code_price(site.address, Width::Word, true)
    }
}

/// Executes a word as `execute` does, and keeps it decoded at a place of the table.
#[inline(never)]
pub fn execute_first<B: Bus>(
    registers: &mut Registers,
    bus: &mut B,
    table: &mut [Decoded],
    place: usize,
    word: u32,
) -> u32
    requires { place < length table.old }
    ensures left { Leaves (execution B.code_price_of B.load_of B.store_of word registers.old (B.state bus.old))
        registers.new (B.state bus.new) result }
    ensures kept { option_map (λ one. one.word) (slice_get table.new place) ≡ Some word }
{
    let op = decode(word);
    table[place] = make_decoded(word, op);
    execute_operation(registers, bus, word, op)
}

// Executes a word whose operation is at hand.
#[tactic(auto, unfolding(crate::specs::Execution::execution))]
fn execute_operation<B: Bus>(
    registers: &mut Registers,
    bus: &mut B,
    word: u32,
    op: Option<ArmOp>,
) -> u32
    requires operation { op ≡ operation word }
    requires fits { IfSome op Fits }
    ensures { Leaves (execution B.code_price_of B.load_of B.store_of word registers.old (B.state bus.old))
        registers.new (B.state bus.new) result }
{
    let site = Site {
        address: registers.get(15),
        thumb: false,
    };
    registers.set(15, site.address.wrapping_add(4));
    if holds_now(registers, condition_of(word)) {
        perform_word(registers, bus, site, op)
    } else {
        bus.code_price(site.address, Width::Word, true)
    }
}

// Whether a condition holds by the flags as they are.
#[inline(never)]
fn holds_now(registers: &Registers, condition: Condition) -> bool
    ensures { result ≡ holds condition (flags registers.now) }
{
    condition_holds(condition, registers.flags())
}
