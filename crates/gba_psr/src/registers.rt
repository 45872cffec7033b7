//! The register file.

ghost use Rattle.std.specs.Prelude.{◌≡◌, ◌<◌, slice_index};
ghost use Rattle.gba_psr.specs.Arrangement.{arrangement};
ghost use Rattle.gba_psr.specs.Entry.{after_entry, entry_status, after_leave, vector};
ghost use Rattle.gba_psr.specs.Status.{IsStatus, status_with_flags, kept_status, mode_of, written_status};
ghost use Rattle.gba_psr.specs.RegisterFile.{
  IsRegisterFile,
  flags,
  register,
  reset_file,
  saved_status,
  status,
  user_register,
  with_flags,
  with_register,
  with_saved_status,
  with_status,
  with_user_register,
};

use crate::banks::{CPSR, change_bank, exchange, is_mode_number, place_of, saved_place_of};
use crate::{Exception, Flags};
use gba_word::{bit, bits};
use std::marker::Model;

/// The 31 general and 6 status registers. r15 holds the address of the next instruction; `get` and `set` give and take
/// it as it is.
#[derive(Clone, Debug, Drop)]
pub struct Registers {
    numbers: [u32; 37],
}

impl Model for Registers {
    ghost use Rattle.std.specs.Prelude.{List, ℕ, slice_index};
    ghost use Rattle.gba_psr.specs.Arrangement.{arrangement};
    ghost use Rattle.gba_psr.specs.Status.{IsStatus};

    ghost Value = { List ℕ };

    ghost view = { λ r. arrangement r.numbers };

    ghost invariant = { λ r. IsStatus (slice_index r.numbers 31) };
}

impl Registers {
    /// The registers at power on.
    pub fn reset() -> Registers
        ensures { result ≡ reset_file }
    {
        let mut numbers = [0; 37];
        numbers[CPSR] = 0xd3;
        Registers { numbers }
    }

    /// The registers of these numbers, in the order of [`Registers::all`].
    pub fn of(numbers: &[u32; 37]) -> Registers
        requires { IsStatus (slice_index numbers.now 31) }
        ensures { result ≡ numbers.now }
    {
        let mut kept = *numbers;
        exchange(&mut kept, bits(numbers[CPSR], 0, 5));
        Registers { numbers: kept }
    }

    /// Register `number` in the present mode.
    pub fn get(&self, number: u32) -> u32
        requires { number < 16 }
        ensures { result ≡ register self.now number }
    {
        self.numbers[number as usize]
    }

    /// Writes register `number` in the present mode.
    pub fn set(&mut self, number: u32, value: u32)
        requires { number < 16 }
        ensures { self.new ≡ with_register self.old number value }
    {
        self.numbers[number as usize] = value;
    }

    /// Register `number` of the user's sixteen.
    pub fn user_get(&self, number: u32) -> u32
        requires { number < 16 }
        ensures { result ≡ user_register self.now number }
    {
        self.numbers[place_of(bits(self.numbers[CPSR], 0, 5), number)]
    }

    /// Writes register `number` of the user's sixteen.
    pub fn user_set(&mut self, number: u32, value: u32)
        requires { number < 16 }
        ensures { self.new ≡ with_user_register self.old number value }
    {
        let place = place_of(bits(self.numbers[CPSR], 0, 5), number);
        self.numbers[place] = value;
    }

    /// The current program status register.
    pub fn cpsr(&self) -> u32
        ensures value { result ≡ status self.now }
        ensures file { IsRegisterFile self.now }
    {
        self.numbers[CPSR]
    }

    /// N, Z, C and V of CPSR.
    pub fn flags(&self) -> Flags
        ensures { result ≡ flags self.now }
    {
        let status = self.numbers[CPSR];
        Flags {
            negative: bit(status, 31),
            zero: bit(status, 30),
            carry: bit(status, 29),
            overflow: bit(status, 28),
        }
    }

    /// CPSR with other flags.
    pub fn status_with(&self, flags: Flags) -> u32
        ensures value { result ≡ status (with_flags self.now flags) }
        ensures file { IsRegisterFile (with_flags self.now flags) }
    {
        flagged_status(self.cpsr(), flags)
    }

    /// The same registers once more.
    pub fn twin(&self) -> Registers
        ensures { result ≡ self.now }
    {
        let numbers = self.numbers;
        Registers { numbers }
    }

    /// Writes N, Z, C and V of CPSR.
    pub fn set_flags(&mut self, flags: Flags)
        ensures { self.new ≡ with_flags self.old flags }
    {
        self.numbers[CPSR] = flagged_status(self.numbers[CPSR], flags);
    }

    /// The present mode's SPSR. USR and SYS have none and read CPSR.
    pub fn spsr(&self) -> u32
        ensures { result ≡ saved_status self.now }
    {
        self.numbers[saved_place_of(bits(self.numbers[CPSR], 0, 5))]
    }

    /// Writes CPSR. The mode stays where the number's isn't one of the seven.
    pub fn set_cpsr(&mut self, value: u32)
        ensures { self.new ≡ with_status self.old value }
    {
        write_status(&mut self.numbers, value);
    }

    /// Writes the present mode's SPSR. In USR and SYS, which have none, nothing changes.
    pub fn set_spsr(&mut self, value: u32)
        ensures { self.new ≡ with_saved_status self.old value }
    {
        let place = saved_place_of(bits(self.numbers[CPSR], 0, 5));
        if place != CPSR {
            self.numbers[place] = keep_status(value);
        }
    }

    /// Enters an exception: CPSR goes into the new mode's SPSR, `link` into its r14, and r15 goes to the vector.
    #[tactic(auto, unfolding(crate::specs::Entry::after_entry))]
    pub fn enter(&mut self, kind: Exception, link: u32)
        ensures { self.new ≡ after_entry kind link self.old }
    {
        let old = self.cpsr();
        self.set_cpsr(status_of_entry(kind, old));
        self.set_spsr(old);
        self.set(14, link);
        self.set(15, vector_of(kind));
    }

    /// Takes CPSR from the present mode's SPSR. In USR and SYS, which have none, nothing changes.
    #[tactic(auto, unfolding(crate::specs::Entry::after_leave, crate::specs::RegisterFile::mode))]
    pub fn leave(&mut self)
        ensures { self.new ≡ after_leave self.old }
    {
        let mode = bits(self.cpsr(), 0, 5);
        if saved_place_of(mode) != CPSR {
            self.set_cpsr(self.spsr());
        }
    }

    /// The 37 numbers: r0 to r15 of USR, r8 to r14 of FIQ, r13 and r14 of IRQ, SVC, ABT and UND, CPSR, and the SPSRs of
    /// FIQ, IRQ, SVC, ABT and UND.
    pub fn all(&self) -> [u32; 37]
        ensures value { result ≡ self.now }
        ensures file { IsRegisterFile self.now }
    {
        let mut numbers = self.numbers;
        exchange(&mut numbers, bits(self.numbers[CPSR], 0, 5));
        numbers
    }
}

// What a status register keeps of a number.
fn keep_status(value: u32) -> u32
    ensures { result ≡ kept_status value }
{
    (bits(value, 28, 4) << 28) + bits(value, 0, 8)
}

// A status register with other flags.
fn flagged_status(status: u32, flags: Flags) -> u32
    ensures value { result ≡ status_with_flags status flags }
    ensures status { IsStatus status → IsStatus result }
    ensures mode { mode_of result ≡ mode_of status }
{
    let negative = u32::from(flags.negative) << 31;
    let zero = u32::from(flags.zero) << 30;
    let carry = u32::from(flags.carry) << 29;
    let overflow = u32::from(flags.overflow) << 28;
    negative + zero + carry + overflow + bits(status, 0, 28)
}

// What CPSR is once `value` was written.
fn next_status(old: u32, value: u32) -> u32
    ensures value { result ≡ written_status old value }
    ensures status { IsStatus old → IsStatus result }
{
    let mode = bits(value, 0, 5);
    let mode = if is_mode_number(mode) {
        mode
    } else {
        bits(old, 0, 5)
    };
    (bits(value, 28, 4) << 28) + (bits(value, 5, 3) << 5) + mode
}

// CPSR in the exception.
fn status_of_entry(kind: Exception, old: u32) -> u32
    ensures { result ≡ entry_status kind old }
{
    let mode = match kind {
        Exception::Undefined => 0x1b,
        Exception::Software => 0x13,
        Exception::Interrupt => 0x12,
    };
    (bits(old, 28, 4) << 28) + (1 << 7) + (bits(old, 6, 1) << 6) + mode
}

fn vector_of(kind: Exception) -> u32
    ensures { result ≡ vector kind }
{
    match kind {
        Exception::Undefined => 0x04,
        Exception::Software => 0x08,
        Exception::Interrupt => 0x18,
    }
}

// Writes CPSR and exchanges the banks of the two modes.
fn write_status(numbers: &mut [u32; 37], value: u32)
    requires { IsStatus (slice_index numbers.old 31) }
    ensures file { arrangement numbers.new ≡ with_status (arrangement numbers.old) value }
    ensures status { IsStatus (slice_index numbers.new 31) }
{
    let old = numbers[CPSR];
    let new = next_status(old, value);
    change_bank(numbers, bits(old, 0, 5), bits(new, 0, 5));
    numbers[CPSR] = new;
}
