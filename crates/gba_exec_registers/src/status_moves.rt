//! MRS and MSR.

ghost use Rattle.std.specs.Prelude.{◌≡◌, ◌<◌};
ghost use Rattle.gba_exec_registers.specs.StatusMoves.{
  after_read_status,
  after_write_status,
  control_field,
  flag_field,
  saved_control_field,
  source_of,
  with_saved_status_fields,
  with_status_fields,
};
ghost use Rattle.gba_arm_table.specs.Limits.{Within, source_registers};

use crate::Site;
use crate::access::{read_operand, write_result};
use gba_arm_table::Source;
use gba_psr::Registers;
use gba_word::{bit, bits, rotate_immediate};

/// MRS.
pub fn read_status(registers: &mut Registers, saved: bool, rd: u8)
    requires { rd < 16 }
    ensures { registers.new ≡ after_read_status saved rd registers.old }
{
    let value = if saved {
        registers.spsr()
    } else {
        registers.cpsr()
    };
    write_result(registers, rd, value);
}

/// MSR.
pub fn write_status(registers: &mut Registers, site: Site, saved: bool, fields: u8, source: Source)
    requires { Within (source_registers source) }
    ensures { registers.new ≡ after_write_status saved fields source site registers.old }
{
    let value = source_value(registers, site, source);
    if saved {
        write_saved_fields(registers, u32::from(fields), value);
    } else {
        write_fields(registers, u32::from(fields), value);
    }
}

// What MSR writes.
#[tactic(auto, unfolding(crate::specs::StatusMoves::source_of))]
fn source_value(registers: &Registers, site: Site, source: Source) -> u32
    requires { Within (source_registers source) }
    ensures { result ≡ source_of source site registers.now }
{
    match source {
        Source::Immediate { value, turn } => rotate_immediate(value, turn, false).0,
        Source::Plain { rm } => read_operand(registers, site.counter(), rm),
    }
}

#[tactic(auto, unfolding(crate::specs::StatusMoves::with_status_fields, gba_psr::specs::RegisterFile::mode))]
fn write_fields(registers: &mut Registers, fields: u32, value: u32)
    ensures { registers.new ≡ with_status_fields fields value registers.old }
{
    let old = registers.cpsr();
    let user = bits(old, 0, 5) == 0x10;
    registers.set_cpsr(
        (flag_bits(fields, old, value) << 28) + control_bits(fields, user, old, value),
    );
}

#[tactic(auto, unfolding(crate::specs::StatusMoves::with_saved_status_fields))]
fn write_saved_fields(registers: &mut Registers, fields: u32, value: u32)
    ensures { registers.new ≡ with_saved_status_fields fields value registers.old }
{
    let old = registers.spsr();
    let control = if bit(fields, 0) {
        bits(value, 0, 8)
    } else {
        bits(old, 0, 8)
    };
    registers.set_spsr((flag_bits(fields, old, value) << 28) + control);
}

fn flag_bits(fields: u32, old: u32, value: u32) -> u32
    ensures value { result ≡ flag_field fields old value }
    ensures most { result < 16 }
{
    if bit(fields, 3) {
        bits(value, 28, 4)
    } else {
        bits(old, 28, 4)
    }
}

fn control_bits(fields: u32, user: bool, old: u32, value: u32) -> u32
    ensures value { result ≡ control_field fields user old value }
    ensures most { result < 256 }
{
    if bit(fields, 0) && !user {
        (bits(value, 6, 2) << 6) + (bits(old, 5, 1) << 5) + bits(value, 0, 5)
    } else {
        bits(old, 0, 8)
    }
}
