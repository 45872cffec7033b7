//! What a step does before its devices move.

ghost use Rattle.std.specs.Prelude.{◌≡◌, ◌<◌, All, Some, length, not};
ghost use Rattle.gba_console.specs.Fixed.{Stands};
ghost use Rattle.gba_console.specs.Doing.{half_at as half_in, half_place, told_by, word_at as word_in, word_place};
ghost use Rattle.gba_console.specs.Step.{acted, awake_done, enters, entry_done, execution_of_half, execution_of_word, half_done, idles, in_thumb, instruction, instruction_done, undisturbed_done, what_acted, what_awake, what_instructed, what_undisturbed, word_done};
ghost use Rattle.gba_console.specs.declared.doing.What.{What};
ghost use Rattle.gba_psr.specs.RegisterFile.{register};
ghost use Rattle.gba_exec_transfers.specs.Done.{Leaves};
ghost use Rattle.gba_io.specs.Bus.{core_read};
ghost use Rattle.gba_bus.specs.declared.width.Width.TheVariants.{Half, Word};

use crate::doing::{Told, What};
use crate::fixed::{KeptHalf, execute_first, half_at, is_half_at};
use gba_arm_exec as arm;
use gba_arm_exec::Decoded as DecodedWord;
use gba_bus::{Bus, Width};
use gba_exec_registers::{Site, jump_price};
use gba_io::Core;
use gba_psr::{Exception, Registers};
use gba_thumb_exec as thumb;
use gba_word::bit;

/// How many decoded words a console keeps, 128 KiB, and how many decoded halfwords, 256 KiB.
pub(crate) const DECODED: usize = 4096;

/// How many cycles a halted console idles at a time.
pub(crate) const IDLE_CYCLES: u32 = 16;

/// How many cycles pass at a time of a console that is off.
pub(crate) const OFF_CYCLES: u32 = 16;

/// Where the table of words has the one at this address. Words 16 KiB apart share a place.
pub(crate) fn place_of_word(address: u32) -> usize
    ensures place { result ≡ word_place address }
    ensures within { result < 4096 }
{
    (address / 4) as usize % DECODED
}

/// Where the table of halfwords has the one at this address. Halfwords 8 KiB apart share a place.
pub(crate) fn place_of_half(address: u32) -> usize
    ensures place { result ≡ half_place address }
    ensures within { result < 4096 }
{
    (address / 2) as usize % DECODED
}

/// Whether the processor is in Thumb state.
#[inline(always)]
pub(crate) fn in_thumb(registers: &Registers) -> bool
    ensures { result ≡ in_thumb registers.now }
{
    bit(registers.cpsr(), 5)
}

// The word at an address, as an instruction.
#[inline(always)]
fn word_at(core: &mut Core, address: u32) -> u32
    ensures value { result ≡ core_read core.old address address Word }
    ensures same { core.new ≡ core.old }
{
    core.code(address, Width::Word)
}

// Executes the word at r15.
#[inline(always)]
fn step_word(registers: &mut Registers, core: &mut Core, words: &mut [DecodedWord]) -> u32
    requires { length words.old ≡ 4096 }
    ensures left { Leaves (word_done registers.old core.old) registers.new core.new result }
    ensures there { word_in words.new (word_place (register registers.old 15))
        ≡ Some (instruction Word registers.old core.old) }
    ensures length { length words.new ≡ 4096 }
{
    let address = registers.get(15);
    let word = word_at(core, address);
    let one = &words[place_of_word(address)];
    if one.word == word {
        arm::execute_decoded(registers, core, one)
    } else {
        first_word(registers, core, words, word)
    }
}

// Executes the word at r15, which isn't decoded yet at its place.
#[inline(never)]
fn first_word(
    registers: &mut Registers,
    core: &mut Core,
    words: &mut [DecodedWord],
    word: u32,
) -> u32
    requires { length words.old ≡ 4096 }
    ensures left { Leaves (execution_of_word word registers.old core.old) registers.new core.new result }
    ensures there { word_in words.new (word_place (register registers.old 15)) ≡ Some word }
    ensures length { length words.new ≡ 4096 }
{
    let place = place_of_word(registers.get(15));
    arm::execute_first(registers, core, words, place, word)
}

// Executes the halfword at r15.
#[inline(always)]
fn step_half(registers: &mut Registers, core: &mut Core, halves: &mut [KeptHalf]) -> u32
    requires length { length halves.old ≡ 4096 }
    requires stand { All (Stands core.old.memory.bios core.old.memory.rom) halves.old }
    ensures left { Leaves (half_done registers.old core.old) registers.new core.new result }
    ensures there { half_in halves.new (half_place (register registers.old 15))
        ≡ Some (instruction Half registers.old core.old) }
    ensures stand { All (Stands core.old.memory.bios core.old.memory.rom) halves.new }
    ensures length { length halves.new ≡ 4096 }
{
    let address = registers.get(15);
    let one = &halves[place_of_half(address)];
    if is_half_at(core, address, one) {
        thumb::execute_decoded(registers, core, &one.decoded)
    } else {
        first_half(registers, core, halves)
    }
}

// Executes the halfword at r15, which isn't decoded yet at its place.
#[inline(never)]
fn first_half(registers: &mut Registers, core: &mut Core, halves: &mut [KeptHalf]) -> u32
    requires length { length halves.old ≡ 4096 }
    requires stand { All (Stands core.old.memory.bios core.old.memory.rom) halves.old }
    ensures left { Leaves (half_done registers.old core.old) registers.new core.new result }
    ensures there { half_in halves.new (half_place (register registers.old 15))
        ≡ Some (instruction Half registers.old core.old) }
    ensures stand { All (Stands core.old.memory.bios core.old.memory.rom) halves.new }
    ensures length { length halves.new ≡ 4096 }
{
    let address = registers.get(15);
    let half = half_at(core, address);
    execute_first(registers, core, &mut halves[place_of_half(address)], half)
}

/// Executes the instruction at r15, a halfword in Thumb state, and else a word, and tells which it was: what it was
/// stands in that table then. It has one caller, into which all of it goes.
#[tactic(auto, unfolding(crate::specs::Step::instruction_done))]
#[inline(always)]
pub(crate) fn execute(
    registers: &mut Registers,
    core: &mut Core,
    words: &mut [DecodedWord],
    halves: &mut [KeptHalf],
    told: &mut Told,
) -> u32
    requires words { length words.old ≡ 4096 }
    requires halves { length halves.old ≡ 4096 }
    requires stand { All (Stands core.old.memory.bios core.old.memory.rom) halves.old }
    ensures left { Leaves (instruction_done registers.old core.old) registers.new core.new result }
    ensures told { (aside : What) → told_by told.new (register registers.old 15) aside words.new halves.new
        ≡ what_instructed registers.old core.old }
    ensures stand { All (Stands core.old.memory.bios core.old.memory.rom) halves.new }
    ensures length { length halves.new ≡ 4096 }
    ensures length_of_words { length words.new ≡ 4096 }
{
    if in_thumb(registers) {
        *told = Told::Half;
        step_half(registers, core, halves)
    } else {
        *told = Told::Word;
        step_word(registers, core, words)
    }
}

/// What a step did before its devices move, and its cycles.
#[derive(Clone, Copy)]
pub(crate) struct Acted {
    pub(crate) cycles: u32,
    pub(crate) what: What,
}

// The same where it seldom comes: whatever is decoded already, it is decoded anew.
#[tactic(auto, unfolding(crate::specs::Step::instruction_done))]
fn execute_anew(registers: &mut Registers, core: &mut Core) -> Acted
    ensures left { Leaves (instruction_done registers.old core.old) registers.new core.new result.cycles }
    ensures what { result.what ≡ what_instructed registers.old core.old }
{
    let address = registers.get(15);
    if in_thumb(registers) {
        let half = half_at(core, address);
        Acted {
            cycles: thumb::execute(registers, core, half),
            what: What::Thumb { address, half },
        }
    } else {
        let word = word_at(core, address);
        Acted {
            cycles: arm::execute(registers, core, word),
            what: What::Arm { address, word },
        }
    }
}

/// Whether a halted console stays so.
fn idles(core: &Core) -> bool
    ensures { result ≡ idles core.now }
{
    let devices = core.devices().set();
    devices.halted() && !devices.pending()
}

/// Whether an interrupt is entered.
fn enters(registers: &Registers, core: &Core) -> bool
    ensures { result ≡ enters registers.now core.now }
{
    let devices = core.devices().set();
    !bit(registers.cpsr(), 7) && devices.master() && devices.pending()
}

/// Enters an interrupt.
fn enter(registers: &mut Registers, core: &mut Core) -> u32
    ensures { Leaves (entry_done registers.old core.old) registers.new core.new result }
{
    let site = Site {
        address: registers.get(15),
        thumb: in_thumb(registers),
    };
    let cycles = jump_price(core, site);
    registers.enter(Exception::Interrupt, site.address.wrapping_add(4));
    cycles
}

// What a step does where the halt has ended.
fn act_awake(registers: &mut Registers, core: &mut Core) -> Acted
    ensures left { Leaves (awake_done registers.old core.old) registers.new core.new result.cycles }
    ensures what { result.what ≡ what_awake registers.old core.old }
{
    if enters(registers, core) {
        Acted {
            cycles: enter(registers, core),
            what: What::Irq,
        }
    } else {
        execute_anew(registers, core)
    }
}

// What a step does where no DMA channel is active: it idles, enters an interrupt or executes an instruction.
fn act_undisturbed(registers: &mut Registers, core: &mut Core) -> Acted
    ensures left { Leaves (undisturbed_done registers.old core.old) registers.new core.new result.cycles }
    ensures what { result.what ≡ what_undisturbed registers.old core.old }
{
    if idles(core) {
        return Acted {
            cycles: IDLE_CYCLES,
            what: What::Idle,
        };
    }
    core.wake();
    act_awake(registers, core)
}

/// What a step does once its keys are applied: a DMA unit, or what the processor does.
#[tactic(auto, unfolding(crate::specs::Step::acted, crate::specs::Step::what_acted))]
#[inline(never)]
pub(crate) fn act(registers: &mut Registers, core: &mut Core) -> Acted
    ensures left { Leaves (acted registers.old core.old) registers.new core.new result.cycles }
    ensures what { result.what ≡ what_acted registers.old core.old }
{
    let Some(unit) = core.devices().set().next_unit() else {
        return act_undisturbed(registers, core);
    };
    match core.dma_unit() {
        Some(cycles) => Acted {
            cycles,
            what: What::Dma {
                channel: unit.channel,
            },
        },
        None => unreachable!(),
    }
}
