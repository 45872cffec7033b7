//! The register file with its flags kept apart, so that an operation with S packs none.

ghost use Rattle.std.specs.Prelude.{◌≡◌, ◌<◌, ◌==◌, slice_index};
ghost use Rattle.gba_terms.specs.Bits.{bit};
ghost use Rattle.gba_psr.specs.Entry.{after_entry, after_leave};
ghost use Rattle.gba_psr.specs.Status.{IsStatus};
ghost use Rattle.gba_psr.specs.RegisterFile.{
  IsRegisterFile,
  flags,
  register,
  reset_file,
  saved_status,
  status,
  user_register,
  with_flags,
  with_register,
  with_saved_status,
  with_status,
  with_user_register,
};

use crate::flag_words::KeptFlags;
use crate::registers::Registers;
use crate::{Exception, Flags};
use std::marker::Model;

/// The 31 general and 6 status registers. r15 holds the address of the next instruction; `get` and `set` give and take
/// it as it is.
#[derive(Clone, Debug, Drop)]
pub struct RegisterFile {
    // Its N, Z, C and V don't count: they are those below.
    file: Registers,
    kept: KeptFlags,
}

impl Model for RegisterFile {
    ghost use Rattle.std.specs.Prelude.{List, ℕ};
    ghost use Rattle.gba_psr.specs.RegisterFile.{with_flags};

    ghost Value = { List ℕ };

    ghost view = { λ r. with_flags r.file r.kept };
}

impl RegisterFile {
    /// The registers at power on.
    pub fn reset() -> RegisterFile
        ensures { result ≡ reset_file }
    {
        part(Registers::reset())
    }

    /// The registers of these numbers, in the order of [`RegisterFile::all`]. CPSR has to have no bits but the stored
    /// ones, and one of the seven modes.
    pub fn of(numbers: &[u32; 37]) -> RegisterFile
        requires { IsStatus (slice_index numbers.now 31) }
        ensures { result ≡ numbers.now }
    {
        part(Registers::of(numbers))
    }

    /// Register `number` in the present mode.
    #[inline(always)]
    pub fn get(&self, number: u32) -> u32
        requires { number < 16 }
        ensures { result ≡ register self.now number }
    {
        let _ = self.file.cpsr();
        self.file.get(number)
    }

    /// Writes register `number` in the present mode.
    #[inline(always)]
    pub fn set(&mut self, number: u32, value: u32)
        requires { number < 16 }
        ensures { self.new ≡ with_register self.old number value }
    {
        let _ = self.file.cpsr();
        self.file.set(number, value);
    }

    /// Register `number` of the user's sixteen.
    pub fn user_get(&self, number: u32) -> u32
        requires { number < 16 }
        ensures { result ≡ user_register self.now number }
    {
        let _ = self.file.cpsr();
        self.file.user_get(number)
    }

    /// Writes register `number` of the user's sixteen.
    pub fn user_set(&mut self, number: u32, value: u32)
        requires { number < 16 }
        ensures { self.new ≡ with_user_register self.old number value }
    {
        let _ = self.file.cpsr();
        self.file.user_set(number, value);
    }

    /// The current program status register.
    #[inline(always)]
    pub fn cpsr(&self) -> u32
        ensures value { result ≡ status self.now }
        ensures file { IsRegisterFile self.now }
    {
        self.file.status_with(self.kept.flags())
    }

    /// N, Z, C and V of CPSR.
    #[inline(always)]
    pub fn flags(&self) -> Flags
        ensures { result ≡ flags self.now }
    {
        let _ = self.file.cpsr();
        self.kept.flags()
    }

    /// Writes N, Z, C and V of CPSR.
    #[inline(always)]
    pub fn set_flags(&mut self, flags: Flags)
        ensures { self.new ≡ with_flags self.old flags }
    {
        let _ = self.file.cpsr();
        self.kept = KeptFlags::new(flags);
    }

    /// Writes N, Z, C and V of CPSR: the first two are those of a result.
    #[inline(always)]
    pub fn set_result(&mut self, value: u32, carry: bool, overflow: bool)
        ensures { self.new ≡ with_flags self.old
            (record { negative = bit value 31; zero = value == 0; carry = carry; overflow = overflow }) }
    {
        let _ = self.file.cpsr();
        self.kept.set_result(value, carry, overflow);
    }

    /// The present mode's SPSR. USR and SYS have none and read CPSR.
    pub fn spsr(&self) -> u32
        ensures { result ≡ saved_status self.now }
    {
        self.joined().spsr()
    }

    /// Writes CPSR. The mode stays where the number's isn't one of the seven.
    pub fn set_cpsr(&mut self, value: u32)
        ensures { self.new ≡ with_status self.old value }
    {
        let mut file = self.joined();
        file.set_cpsr(value);
        *self = part(file);
    }

    /// Writes the present mode's SPSR. In USR and SYS, which have none, nothing changes.
    pub fn set_spsr(&mut self, value: u32)
        ensures { self.new ≡ with_saved_status self.old value }
    {
        let mut file = self.joined();
        file.set_spsr(value);
        *self = part(file);
    }

    /// Enters an exception: CPSR goes into the new mode's SPSR, `link` into its r14, and r15 goes to the vector.
    pub fn enter(&mut self, kind: Exception, link: u32)
        ensures { self.new ≡ after_entry kind link self.old }
    {
        let mut file = self.joined();
        file.enter(kind, link);
        *self = part(file);
    }

    /// Takes CPSR from the present mode's SPSR. In USR and SYS, which have none, nothing changes.
    pub fn leave(&mut self)
        ensures { self.new ≡ after_leave self.old }
    {
        let mut file = self.joined();
        file.leave();
        *self = part(file);
    }

    /// The 37 numbers: r0 to r15 of USR, r8 to r14 of FIQ, r13 and r14 of IRQ, SVC, ABT and UND, CPSR, and the SPSRs of
    /// FIQ, IRQ, SVC, ABT and UND.
    pub fn all(&self) -> [u32; 37]
        ensures value { result ≡ self.now }
        ensures file { IsRegisterFile self.now }
    {
        self.joined().all()
    }

    // The registers with the flags in CPSR.
    #[inline(never)]
    fn joined(&self) -> Registers
        ensures { result ≡ self.now }
    {
        let mut file = self.file.twin();
        file.set_flags(self.kept.flags());
        file
    }
}

// The registers with the flags apart.
#[inline(never)]
fn part(file: Registers) -> RegisterFile
    ensures { result ≡ file }
{
    let _ = file.cpsr();
    let flags = file.flags();
    RegisterFile {
        file,
        kept: KeptFlags::new(flags),
    }
}
