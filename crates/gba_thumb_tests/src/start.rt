//! Registers and memory before a halfword.

use crate::regions::Regions;
use gba_bus::{Bus, Width};
use gba_psr::Registers;

/// Registers with this r15, CPSR and r0 to r2; r13 is 02000004h and r14 03000041h.
pub fn at(address: u32, status: u32, low: [u32; 3]) -> Registers {
    let mut registers = Registers::reset();
    registers.set_cpsr(status);
    let [r0, r1, r2] = low;
    registers.set(0, r0);
    registers.set(1, r1);
    registers.set(2, r2);
    registers.set(13, 0x0200_0004);
    registers.set(14, 0x0300_0041);
    registers.set(15, address);
    registers
}

/// Memory where the first 64 bytes at 02000000h and 08000000h are 11h, 22h, 33h and so on, modulo 256.
pub fn patterned() -> Regions {
    let mut regions = Regions::new();
    for number in 0..64 {
        for first in [0x0200_0000, 0x0800_0000] {
            let _ = regions.store(first + number, Width::Byte, 0x11 * (number + 1), false);
        }
    }
    regions
}
