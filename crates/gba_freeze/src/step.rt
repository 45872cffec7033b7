//! The line of a step.

ghost use Rattle.std.specs.Prelude.{◌≡◌, ◌++◌, OnOk, codes, decimal};
ghost use Rattle.gba_freeze.specs.StepLine.{body_text, half_text, head_text, registers_from, registers_text, statement_text as statement_of, step_line as line_of_step, what_text, word_text};

use gba_console::{Console, What};
use gba_dis::{Set, statement};
use gba_psr::Registers;
use gba_terms::NoMemory;
use gba_word::hexadecimal::{hex_half, hex_word};
use itoa::Buffer;
use std::alloc::{AllocError, Global};

fn add(into: &mut Vec<u8>, bytes: &[u8]) -> Result<(), AllocError>
    ensures { OnOk result (into.new.items ≡ into.old.items ++ bytes.now) }
{
    into.extend_from_slice(bytes)
}

/// Adds a number in decimal.
fn add_number(into: &mut Vec<u8>, number: u64) -> Result<(), AllocError>
    ensures { OnOk result (into.new.items ≡ into.old.items ++ decimal number) }
{
    let mut buffer = Buffer::new();
    add(into, buffer.format(number).as_bytes())
}

/// Adds a blank and a word as eight digits.
#[tactic(auto, unfolding(crate::specs::StepLine::word_text))]
fn add_word(into: &mut Vec<u8>, word: u32) -> Result<(), AllocError>
    ensures { OnOk result (into.new.items ≡ into.old.items ++ word_text word) }
{
    add(into, b" ")?;
    add(into, &hex_word(word))
}

/// Adds a blank and a halfword as four digits.
#[tactic(auto, unfolding(crate::specs::StepLine::half_text))]
fn add_half(into: &mut Vec<u8>, half: u16) -> Result<(), AllocError>
    ensures { OnOk result (into.new.items ≡ into.old.items ++ half_text half) }
{
    add(into, b" ")?;
    add(into, &hex_half(u32::from(half)))
}

fn add_arm(into: &mut Vec<u8>, address: u32, word: u32) -> Result<(), AllocError>
    ensures { OnOk result (into.new.items ≡ into.old.items ++ (codes "arm" ++ word_text address ++ word_text word)) }
{
    add(into, b"arm")?;
    add_word(into, address)?;
    add_word(into, word)
}

fn add_thumb(into: &mut Vec<u8>, address: u32, half: u16) -> Result<(), AllocError>
    ensures { OnOk result (into.new.items ≡ into.old.items ++ (codes "thumb" ++ word_text address ++ half_text half)) }
{
    add(into, b"thumb")?;
    add_word(into, address)?;
    add_half(into, half)
}

fn add_dma(into: &mut Vec<u8>, channel: u32) -> Result<(), AllocError>
    ensures { OnOk result (into.new.items ≡ into.old.items ++ (codes "dma " ++ decimal channel)) }
{
    add(into, b"dma ")?;
    add_number(into, u64::from(channel))
}

/// Adds what a step did.
fn add_what(into: &mut Vec<u8>, what: What) -> Result<(), AllocError>
    ensures { OnOk result (into.new.items ≡ into.old.items ++ what_text what) }
{
    match what {
        What::Nothing => add(into, b"nothing"),
        What::Dma { channel } => add_dma(into, channel),
        What::Idle => add(into, b"idle"),
        What::Irq => add(into, b"irq"),
        What::Off => add(into, b"off"),
        What::Arm { address, word } => add_arm(into, address, word),
        What::Thumb { address, half } => add_thumb(into, address, half),
    }
}

/// Adds the sixteen registers of the present mode.
fn add_sixteen(into: &mut Vec<u8>, registers: &Registers) -> Result<(), AllocError>
    ensures { OnOk result (into.new.items ≡ into.old.items ++ registers_from 16 0 registers.now) }
{
    for number in 0..16u32 {
        add_word(into, registers.get(number))?;
    }
    Ok(())
}

/// Adds the registers of the present mode and the CPSR.
fn add_registers(into: &mut Vec<u8>, registers: &Registers) -> Result<(), AllocError>
    ensures { OnOk result (into.new.items ≡ into.old.items ++ registers_text registers.now) }
{
    add_sixteen(into, registers)?;
    add_word(into, registers.cpsr())
}

/// Adds the statement of the instruction, where a step executed one.
fn add_statement(alloc: Global, into: &mut Vec<u8>, what: What) -> Result<(), NoMemory>
    ensures { OnOk result (into.new.items ≡ into.old.items ++ statement_of what) }
{
    match what {
        What::Arm { address, word } => {
            add(into, b" ; ")?;
            statement(alloc, address, word, Set::Arm, into)
        }
        What::Thumb { address, half } => {
            add(into, b" ; ")?;
            statement(alloc, address, u32::from(half), Set::Thumb, into)
        }
        _ => Ok(()),
    }
}

/// Adds the player and the clock at which a step began.
#[tactic(auto, unfolding(crate::specs::StepLine::head_text))]
fn add_head(into: &mut Vec<u8>, player: u32, clock: u64) -> Result<(), AllocError>
    ensures { OnOk result (into.new.items ≡ into.old.items ++ head_text player clock) }
{
    add_number(into, u64::from(player))?;
    add(into, b" ")?;
    add_number(into, clock)?;
    add(into, b" ")
}

/// Adds what a step did, the registers after it, and the statement.
#[tactic(auto, unfolding(crate::specs::StepLine::body_text))]
fn add_body(
    alloc: Global,
    into: &mut Vec<u8>,
    what: What,
    registers: &Registers,
) -> Result<(), NoMemory>
    ensures { OnOk result (into.new.items ≡ into.old.items ++ body_text what registers.now) }
{
    add_what(into, what)?;
    add_registers(into, registers)?;
    add_statement(alloc, into, what)
}

/// Adds the line of a console's last step: its player, the clock at which the step began, what it did, the
/// registers after it and, of an instruction, its statement, as a disassembler has it at that address. A line has
/// at most 400 bytes.
#[tactic(auto, unfolding(crate::specs::StepLine::step_line))]
pub fn step_line(alloc: Global, after: &Console, into: &mut Vec<u8>) -> Result<(), NoMemory>
    ensures { OnOk result (into.new.items ≡ into.old.items ++ line_of_step after.now) }
{
    add_head(into, after.player(), after.was())?;
    add_body(alloc, into, after.last(), after.registers())?;
    add(into, b"\n")?;
    Ok(())
}
