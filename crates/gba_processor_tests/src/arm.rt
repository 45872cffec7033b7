//! ARM words by hand: the worked ones, r15 in each place, conditions, status registers, banks.

use crate::Ram;
use gba_arm_exec::{decode_word, execute, execute_first};
use gba_arm_table::{ArmOp, ComputeOp, Condition, Operand};
use gba_bus::{Bus, Width};
use gba_exec_registers::Site;
use gba_exec_transfers::perform;
use gba_psr::Registers;
use gba_word::Shift;

/// Registers with this r15, CPSR and r0 to r3.
pub fn at(address: u32, status: u32, low: [u32; 4]) -> Registers {
    let mut registers = Registers::reset();
    registers.set_cpsr(status);
    registers.set(15, address);
    let [r0, r1, r2, r3] = low;
    registers.set(0, r0);
    registers.set(1, r1);
    registers.set(2, r2);
    registers.set(3, r3);
    registers
}

pub fn low_registers(registers: &Registers) -> [u32; 4] {
    [
        registers.get(0),
        registers.get(1),
        registers.get(2),
        registers.get(3),
    ]
}

/// Memory where the first 64 bytes at 02000000h, 03000000h and 08000000h are 11h, 22h, 33h and so on, modulo 256.
pub fn patterned(slow: bool) -> Ram {
    let mut ram = Ram::new(slow);
    for number in 0..64 {
        for first in [0x0200_0000, 0x0300_0000, 0x0800_0000] {
            let _ = ram.store(first + number, Width::Byte, 0x11 * (number + 1), false);
        }
    }
    ram
}

// Address, CPSR, r0 and r1, the word; r0, r15, CPSR and cycles after it over memory of price 1.
#[test]
fn worked_words(rt: HostRuntime) {
    for &(address, status, r0, r1, word, want) in &[
        (0, 0xd3, 9, 0x8000_0000, 0xe1b0_0021, (0, 4, 0x6000_00d3, 1)),
        (0, 0xd3, 9, 9, 0xe7f0_00f0, (9, 4, 0xdb, 4)),
        (0, 0x1f, 7, 0xff00, 0xe000_0191, (0xfe01_0000, 4, 0x1f, 3)),
        (
            0,
            0x1f,
            7,
            0xffff_ffff,
            0xe080_2191,
            (0xffff_fffe, 4, 0x1f, 6),
        ),
        (0, 0x1f, 7, 0xffff_ffff, 0xe0c0_2191, (0, 4, 0x1f, 3)),
        (0, 0xd3, 9, 9, 0xe321_f033, (9, 4, 0x13, 1)),
        (
            0,
            0x1f,
            9,
            0x0200_0003,
            0xe591_0000,
            (0x3322_1144, 4, 0x1f, 3),
        ),
        (0x0800_0000, 0xd3, 9, 9, 0xee00_0000, (9, 4, 0xdb, 4)),
        (
            0x0800_0000,
            0x4000_0010,
            9,
            9,
            0x1e00_0000,
            (9, 0x0800_0004, 0x4000_0010, 1),
        ),
        (0xffff_fffc, 0x10, 9, 9, 0xf3a0_0001, (9, 0, 0x10, 1)),
    ] {
        let mut registers = at(address, status, [r0, r1, 0, 0]);
        let cycles = execute(&mut registers, &mut patterned(false), word);
        assert_eq!(rt;
            (
                registers.get(0),
                registers.get(15),
                registers.cpsr(),
                cycles
            ),
            want,
            "{word:x}"
        );
    }
}

#[test]
fn an_undefined_word_traps(rt: HostRuntime) {
    let mut registers = Registers::reset();
    let cycles = execute(&mut registers, &mut Ram::new(false), 0xe7f0_00f0);
    let after = (
        registers.get(15),
        registers.get(14),
        registers.cpsr(),
        registers.spsr(),
        cycles,
    );
    assert_eq!(rt; after, (4, 4, 0xdb, 0xd3, 4));
}

#[test]
fn blocks_with_the_base_and_without_a_list(rt: HostRuntime) {
    let mut registers = at(0x100, 0x1f, [7, 0x0300_0000, 0, 0]);
    let mut ram = Ram::new(false);
    let cycles = execute(&mut registers, &mut ram, 0xe8a1_0003);
    let words = (
        ram.load(0, 0x0300_0000, Width::Word, false).0,
        ram.load(0, 0x0300_0004, Width::Word, false).0,
    );
    assert_eq!(rt;
        (words, registers.get(1), cycles),
        ((7, 0x0300_0008), 0x0300_0008, 3)
    );
    let mut registers = at(0, 0x1f, [7, 0x0300_0000, 0, 0]);
    let cycles = execute(&mut registers, &mut ram, 0xe8a1_0000);
    let word = ram.load(0, 0x0300_0000, Width::Word, false).0;
    assert_eq!(rt; (word, registers.get(1), cycles), (0xc, 0x0300_0040, 2));
}

// For each condition the flags NZCV, as a number, at which it holds: bit n of the mask is number n.
#[test]
fn conditions(rt: HostRuntime) {
    let masks: [u32; 16] = [
        0xf0f0, 0x0f0f, 0xcccc, 0x3333, 0xff00, 0x00ff, 0xaaaa, 0x5555, 0x0c0c, 0xf3f3, 0xaa55,
        0x55aa, 0x0a05, 0xf5fa, 0xffff, 0x0000,
    ];
    for condition in 0..16u32 {
        for flags in 0..16u32 {
            let mut registers = at(0x0800_0100, (flags << 28) + 0x10, [9, 0, 0, 0]);
            let cycles = execute(
                &mut registers,
                &mut Ram::new(true),
                (condition << 28) + 0x03a0_0001,
            );
            let holds = (masks[condition as usize] >> flags) % 2 == 1;
            let want = if holds { 1 } else { 9 };
            assert_eq!(rt;
                (registers.get(0), cycles),
                (want, 2),
                "condition {condition} at {flags:x}"
            );
        }
    }
}

// r1 and the word at 08000100h; r0, r14, r15, CPSR and cycles over slow memory. r0 and r14 were 9 and 0, CPSR 10h.
#[test]
fn r15_in_each_place(rt: HostRuntime) {
    for &(r1, word, want) in &[
        (0, 0xe1a0_000f, (0x0800_0108, 0, 0x0800_0104, 0x10, 2)),
        (0, 0xe28f_0004, (0x0800_010c, 0, 0x0800_0104, 0x10, 2)),
        (0, 0xe1a0_011f, (0x0800_010c, 0, 0x0800_0104, 0x10, 3)),
        (0, 0xe08f_0111, (0x0800_010c, 0, 0x0800_0104, 0x10, 3)),
        (1, 0xe1a0_0f11, (0x1000, 0, 0x0800_0104, 0x10, 3)),
        (0x0300_0007, 0xe1a0_f001, (9, 0, 0x0300_0004, 0x10, 7)),
        (0, 0xe28f_f008, (9, 0, 0x0800_0110, 0x10, 7)),
        (0x0300_0007, 0xe1b0_f001, (9, 0, 0x0300_0004, 0x10, 7)),
        (0x0200_0000, 0xe591_f000, (9, 0, 0x4433_2210, 0x10, 15)),
        (0, 0xe51f_0100, (0xccbb_aa99, 0, 0x0800_0104, 0x10, 10)),
        (0, 0xe49f_0004, (0, 0, 0x0800_0104, 0x10, 10)),
        (0x0200_0000, 0xe891_8000, (9, 0, 0x4433_2210, 0x10, 15)),
        (
            0x0200_0000,
            0xe891_8001,
            (0x4433_2211, 0, 0x8877_6654, 0x10, 20),
        ),
        (0x0200_0000, 0xe8b1_0000, (9, 0, 0x4433_2210, 0x10, 15)),
        (0x0200_0000, 0xe8d1_8000, (9, 0, 0x4433_2210, 0x10, 15)),
        (0x0200_0000, 0xe101_f090, (9, 0, 0x4433_2210, 0x10, 22)),
        (0x0300_0003, 0xe12f_ff11, (9, 0, 0x0300_0002, 0x30, 7)),
        (0x0300_0002, 0xe12f_ff11, (9, 0, 0x0300_0000, 0x10, 7)),
        (0, 0xe12f_ff1f, (9, 0, 0x0800_0108, 0x10, 7)),
        (0, 0xea00_0000, (9, 0, 0x0800_0108, 0x10, 7)),
        (0, 0xeaff_fffe, (9, 0, 0x0800_0100, 0x10, 7)),
        (0, 0xeb00_0002, (9, 0x0800_0104, 0x0800_0110, 0x10, 7)),
        (0, 0xef00_0042, (9, 0x0800_0104, 8, 0x93, 7)),
        (3, 0xe00f_0191, (9, 0, 8, 0x10, 8)),
        (0, 0xe10f_0000, (0x10, 0, 0x0800_0104, 0x10, 2)),
        (0, 0xe10f_f000, (9, 0, 0x10, 0x10, 7)),
    ] {
        let mut registers = at(0x0800_0100, 0x10, [9, r1, 0, 0]);
        let mut table = [decode_word(0)];
        let cycles = execute_first(&mut registers, &mut patterned(true), &mut table, 0, word);
        assert_eq!(rt; table[0].word, word);
        let after = (
            registers.get(0),
            registers.get(14),
            registers.get(15),
            registers.cpsr(),
            cycles,
        );
        assert_eq!(rt; after, want, "{word:x}");
    }
}

#[test]
fn r15_stored(rt: HostRuntime) {
    for &(word, want) in &[
        (0xe581_f000, 0x0800_010c),
        (0xe881_8000, 0x0800_010c),
        (0xe101_009f, 0x0800_0108),
    ] {
        let mut registers = at(0x0800_0100, 0x10, [9, 0x0200_0000, 0, 0]);
        let mut ram = patterned(false);
        let _ = execute(&mut registers, &mut ram, word);
        assert_eq!(rt;
            ram.load(0, 0x0200_0000, Width::Word, false).0,
            want,
            "{word:x}"
        );
    }
}

// CPSR, SPSR and r1 before the word; CPSR, SPSR and r15 after it.
#[test]
fn status_registers(rt: HostRuntime) {
    for &(status, saved, r1, word, want) in &[
        (
            0x10,
            0,
            0,
            0xe328_f20f,
            (0xf000_0010, 0xf000_0010, 0x0800_0104),
        ),
        (
            0x10,
            0,
            0x6000_00d3,
            0xe129_f001,
            (0x6000_0010, 0x6000_0010, 0x0800_0104),
        ),
        (0x10, 0, 0x6000_00d3, 0xe121_f001, (0x10, 0x10, 0x0800_0104)),
        (
            0x1f,
            0,
            0x6000_00f2,
            0xe129_f001,
            (0x6000_00d2, 0, 0x0800_0104),
        ),
        (
            0xd3,
            0x10,
            0x6000_00f3,
            0xe129_f001,
            (0x6000_00d3, 0x10, 0x0800_0104),
        ),
        (
            0xd3,
            0x10,
            0x0000_0014,
            0xe121_f001,
            (0x13, 0x10, 0x0800_0104),
        ),
        (
            0xd3,
            0x10,
            0xffff_ffff,
            0xe126_f001,
            (0xd3, 0x10, 0x0800_0104),
        ),
        (
            0x9000_00d3,
            0x10,
            0x6000_00ff,
            0xe168_f001,
            (0x9000_00d3, 0x6000_0010, 0x0800_0104),
        ),
        (
            0x9000_00d3,
            0x10,
            0xffff_ffff,
            0xe169_f001,
            (0x9000_00d3, 0xf000_00ff, 0x0800_0104),
        ),
        (
            0x9000_00d3,
            0x10,
            0xffff_ffff,
            0xe161_f001,
            (0x9000_00d3, 0x0000_00ff, 0x0800_0104),
        ),
        (0x1f, 0, 0xffff_ffff, 0xe169_f001, (0x1f, 0x1f, 0x0800_0104)),
        (
            0x92,
            0x6000_0010,
            0x0300_0007,
            0xe1b0_f001,
            (0x6000_0010, 0x6000_0010, 0x0300_0004),
        ),
        (
            0x92,
            0x6000_0030,
            0x0300_0007,
            0xe1b0_f001,
            (0x6000_0030, 0x6000_0030, 0x0300_0006),
        ),
        (
            0x92,
            0x6000_0034,
            0x0300_0007,
            0xe1b0_f001,
            (0x6000_0032, 0x6000_0034, 0x0300_0006),
        ),
        (
            0x92,
            0x1f,
            0x0300_0004,
            0xe251_f004,
            (0x1f, 0x1f, 0x0300_0000),
        ),
        (
            0xd3,
            0x30,
            0x0200_0000,
            0xe8d1_8000,
            (0x30, 0x30, 0x4433_2210),
        ),
        (
            0xd3,
            0x30,
            0x0200_0000,
            0xe891_8000,
            (0xd3, 0x30, 0x4433_2210),
        ),
    ] {
        let mut registers = at(0x0800_0100, status, [9, r1, 0, 0]);
        registers.set_spsr(saved);
        let _ = execute(&mut registers, &mut patterned(false), word);
        assert_eq!(rt;
            (registers.cpsr(), registers.spsr(), registers.get(15)),
            want,
            "{word:x} at {status:x}"
        );
    }
}

// In IRQ, with the S bit, the user's r13 moves and the base is IRQ's; in USR there is one r13.
#[test]
fn blocks_of_user_registers(rt: HostRuntime) {
    for &(status, word, want) in &[
        (0x92, 0xe8c1_2000, (0xaaaa, 0xbbbb, 0x0200_0000, 0xaaaa)),
        (0x92, 0xe881_2000, (0xaaaa, 0xbbbb, 0x0200_0000, 0xbbbb)),
        (
            0x92,
            0xe8d1_2000,
            (0x4433_2211, 0xbbbb, 0x0200_0000, 0x4433_2211),
        ),
        (
            0x92,
            0xe8f1_2000,
            (0x4433_2211, 0xbbbb, 0x0200_0004, 0x4433_2211),
        ),
        (
            0x92,
            0xe891_2000,
            (0xaaaa, 0x4433_2211, 0x0200_0000, 0x4433_2211),
        ),
        (0x10, 0xe8c1_2000, (0xbbbb, 0xbbbb, 0x0200_0000, 0xbbbb)),
        (
            0x10,
            0xe8d1_2000,
            (0x4433_2211, 0x4433_2211, 0x0200_0000, 0x4433_2211),
        ),
    ] {
        let mut registers = at(0x0800_0100, status, [9, 0x0200_0000, 0, 0]);
        registers.user_set(13, 0xaaaa);
        registers.set(13, 0xbbbb);
        let mut ram = patterned(false);
        let _ = execute(&mut registers, &mut ram, word);
        let stored = ram.load(0, 0x0200_0000, Width::Word, false).0;
        let after = (
            registers.user_get(13),
            registers.get(13),
            registers.get(1),
            stored,
        );
        assert_eq!(rt; after, want, "{word:x} at {status:x}");
    }
}

// Operations at a Thumb address, as Thumb instructions stand for them: the operation, r0, r14, r15, CPSR and cycles
// over slow memory. Before it r0 is 9, r1 03000007h, r15 the address plus 2 and CPSR 30h.
#[test]
fn operations_at_a_thumb_address(rt: HostRuntime) {
    let cond = Condition::Always;
    let to_r0 = Operand::Fixed {
        rm: 15,
        kind: Shift::Lsl,
        amount: 0,
    };
    let to_r15 = Operand::Fixed {
        rm: 1,
        kind: Shift::Lsl,
        amount: 0,
    };
    let op = ComputeOp::Mov;
    for &(op, want) in &[
        (
            ArmOp::Compute {
                cond,
                op,
                set: false,
                rn: 0,
                rd: 0,
                operand: to_r0,
            },
            (0x0800_0104, 0, 0x0800_0102, 0x30, 2),
        ),
        (
            ArmOp::Compute {
                cond,
                op,
                set: false,
                rn: 0,
                rd: 15,
                operand: to_r15,
            },
            (9, 0, 0x0300_0006, 0x30, 7),
        ),
        (
            ArmOp::Exchange { cond, rm: 15 },
            (9, 0, 0x0800_0104, 0x10, 7),
        ),
        (
            ArmOp::Exchange { cond, rm: 1 },
            (9, 0, 0x0300_0006, 0x30, 7),
        ),
        (
            ArmOp::Interrupt { cond, comment: 1 },
            (9, 0x0800_0102, 8, 0x93, 7),
        ),
    ] {
        let mut registers = at(0x0800_0102, 0x30, [9, 0x0300_0007, 0, 0]);
        let site = Site {
            address: 0x0800_0100,
            thumb: true,
        };
        let cycles = perform(&mut registers, &mut Ram::new(true), site, op);
        let after = (
            registers.get(0),
            registers.get(14),
            registers.get(15),
            registers.cpsr(),
            cycles,
        );
        assert_eq!(rt; after, want, "{op:?}");
    }
}
