#![tactic(auto)]
//! What each Thumb instruction does to registers and memory, over any bus, and what it costs.

ghost use Rattle.std.specs.Prelude.{◌≡◌, IfSome};
ghost use Rattle.gba_exec_transfers.specs.Done.{Leaves};
ghost use Rattle.gba_thumb_exec.specs.Execution.{execution};
ghost use Rattle.gba_thumb_table.specs.Limits.{Fits};
ghost use Rattle.gba_thumb_table.specs.Table.{operation};

mod decoding;
mod forming;
mod forms;
pub mod laws;
mod meaning;
mod operations;
mod performing;

pub use decoding::decode_half;
use decoding::make_decoded;
use forming::perform_form;
pub use forms::{DecodedHalf, Form};
use gba_bus::Bus;
use gba_exec_registers::Site;
use gba_psr::Registers;
use gba_thumb_table::laws::operations_fit;
use gba_thumb_table::{ThumbOp, decode};
use laws::{forms_fit, forms_have_their_effect};
use performing::perform_half;

/// Executes a Thumb halfword that stands at the address in r15, and answers the cycles. Afterwards r15 is the address
/// of the next instruction (ARM Architecture Reference Manual, version 4T; cycles by the ARM7TDMI Technical Reference
/// Manual). It performs what the halfword means; the forms stand at one place alone, in `execute_decoded`.
pub fn execute<B: Bus>(registers: &mut Registers, bus: &mut B, half: u16) -> u32
    ensures { Leaves (execution B.code_price_of B.load_of B.store_of half registers.old (B.state bus.old))
        registers.new (B.state bus.new) result }
{
    operations_fit();
    execute_operation(registers, bus, half, decode(half))
}

/// Executes a halfword as `execute` does, and keeps it decoded.
#[inline(never)]
pub fn execute_first<B: Bus>(
    registers: &mut Registers,
    bus: &mut B,
    kept: &mut DecodedHalf,
    half: u16,
) -> u32
    ensures left { Leaves (execution B.code_price_of B.load_of B.store_of half registers.old (B.state bus.old))
        registers.new (B.state bus.new) result }
    ensures kept { kept.new.half ≡ half }
{
    operations_fit();
    let op = decode(half);
    *kept = make_decoded(half, op);
    execute_operation(registers, bus, half, op)
}

// Executes a halfword whose operation is at hand.
#[tactic(auto, unfolding(crate::specs::Execution::execution))]
fn execute_operation<B: Bus>(
    registers: &mut Registers,
    bus: &mut B,
    half: u16,
    op: Option<ThumbOp>,
) -> u32
    requires operation { op ≡ operation half }
    requires fits { IfSome op Fits }
    ensures { Leaves (execution B.code_price_of B.load_of B.store_of half registers.old (B.state bus.old))
        registers.new (B.state bus.new) result }
{
    let site = Site {
        address: registers.get(15),
        thumb: true,
    };
    registers.set(15, site.address.wrapping_add(2));
    perform_half(registers, bus, site, op)
}

/// Executes a halfword that was decoded before, as `execute` does.
#[inline(always)]
#[tactic(auto, unfolding(crate::specs::Execution::execution))]
pub fn execute_decoded<B: Bus>(registers: &mut Registers, bus: &mut B, one: &DecodedHalf) -> u32
    ensures { Leaves (execution B.code_price_of B.load_of B.store_of one.now.half registers.old (B.state bus.old))
        registers.new (B.state bus.new) result }
{
    forms_fit();
    forms_have_their_effect::<B>();
    let site = Site {
        address: registers.get(15),
        thumb: true,
    };
    registers.set(15, site.address.wrapping_add(2));
    perform_form(registers, bus, site, &one.form)
}
