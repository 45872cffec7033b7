//! Registers, their banks and status registers by hand.

ghost use Rattle.std.specs.Prelude.{◌≡◌, ◌<◌, slice_index};

use gba_psr::*;
use std::process::Abort;

static MODES: [u32; 7] = [0x10, 0x11, 0x12, 0x13, 0x17, 0x1b, 0x1f];

// Registers are read and written without what their contracts say, which the tests don't read.
fn read(registers: &Registers, number: u32) -> u32
    requires { number < 16 }
{
    registers.get(number)
}

fn write(registers: &mut Registers, number: u32, value: u32)
    requires { number < 16 }
{
    registers.set(number, value);
}

fn status(registers: &Registers) -> u32 {
    registers.cpsr()
}

fn saved_status(registers: &Registers) -> u32 {
    registers.spsr()
}

// Writes the number of a mode and the register's into each of that mode's registers.
fn write_in_mode(registers: &mut Registers, mode: u32) {
    registers.set_cpsr(mode);
    for number in 0..16 {
        write(registers, number, mode << 8 | number);
    }
}

// Registers into which each mode in the order above wrote its number and the register's.
fn written_from_each_mode() -> Registers {
    let mut registers = Registers::reset();
    for &mode in &MODES {
        write_in_mode(&mut registers, mode);
    }
    registers
}

// SYS wrote last, so the user's registers are its; the others have what their own mode wrote.
#[test]
fn each_mode_sees_its_bank(rt: HostRuntime) {
    let mut registers = written_from_each_mode();
    for &(mode, r7, r8, r12, r13, r14, r15) in &[
        (0x10, 0x1f07, 0x1f08, 0x1f0c, 0x1f0d, 0x1f0e, 0x1f0f),
        (0x11, 0x1f07, 0x1108, 0x110c, 0x110d, 0x110e, 0x1f0f),
        (0x12, 0x1f07, 0x1f08, 0x1f0c, 0x120d, 0x120e, 0x1f0f),
        (0x13, 0x1f07, 0x1f08, 0x1f0c, 0x130d, 0x130e, 0x1f0f),
        (0x17, 0x1f07, 0x1f08, 0x1f0c, 0x170d, 0x170e, 0x1f0f),
        (0x1b, 0x1f07, 0x1f08, 0x1f0c, 0x1b0d, 0x1b0e, 0x1f0f),
        (0x1f, 0x1f07, 0x1f08, 0x1f0c, 0x1f0d, 0x1f0e, 0x1f0f),
    ] {
        registers.set_cpsr(mode);
        for (number, want) in [(7, r7), (8, r8), (12, r12), (13, r13), (14, r14), (15, r15)] {
            assert_eq!(rt; registers.get(number), want, "r{number} in {mode:x}");
            assert_eq!(rt;
                registers.user_get(number),
                0x1f00 + number,
                "the user's r{number} in {mode:x}"
            );
        }
    }
}

// Writes the number of a mode and 1 in bit 30 into the mode's SPSR.
fn save_in_mode(registers: &mut Registers, mode: u32) {
    registers.set_cpsr(mode);
    registers.set_spsr(0x4000_0000 | mode);
}

// Writes the user's r14 in a mode.
fn write_user_link(registers: &mut Registers, mode: u32) {
    registers.set_cpsr(mode);
    registers.user_set(14, 0xe00e);
}

#[test]
fn the_37_numbers_stand_in_order(rt: HostRuntime) {
    let mut registers = written_from_each_mode();
    for &mode in &MODES {
        save_in_mode(&mut registers, mode);
    }
    for &mode in &[0x11, 0x1b, 0x13] {
        write_user_link(&mut registers, mode);
        let want = [
            0x1f00,
            0x1f01,
            0x1f02,
            0x1f03,
            0x1f04,
            0x1f05,
            0x1f06,
            0x1f07,
            0x1f08,
            0x1f09,
            0x1f0a,
            0x1f0b,
            0x1f0c,
            0x1f0d,
            0xe00e,
            0x1f0f,
            0x1108,
            0x1109,
            0x110a,
            0x110b,
            0x110c,
            0x110d,
            0x110e,
            0x120d,
            0x120e,
            0x130d,
            0x130e,
            0x170d,
            0x170e,
            0x1b0d,
            0x1b0e,
            mode,
            0x4000_0011,
            0x4000_0012,
            0x4000_0013,
            0x4000_0017,
            0x4000_001b,
        ];
        assert_eq!(rt; registers.all(), want, "in {mode:x}");
    }
}

// The number written in SVC, and what CPSR and SPSR are then.
static STATUS_WORDS: [(u32, u32, u32); 6] = [
    (0x0000_0033, 0x0000_0033, 0x0000_0033),
    (0x0000_0014, 0x0000_0013, 0x0000_0014),
    (0x0000_0000, 0x0000_0013, 0x0000_0000),
    (0xffff_fff3, 0xf000_00f3, 0xf000_00f3),
    (0xffff_ff15, 0xf000_0013, 0xf000_0015),
    (0xa0ff_ff53, 0xa000_0053, 0xa000_0053),
];

// SPSR once it's written.
fn saved(registers: &mut Registers, value: u32) -> u32 {
    registers.set_spsr(value);
    registers.spsr()
}

// CPSR once it's taken from SPSR.
fn left(registers: &mut Registers) -> u32 {
    registers.leave();
    status(registers)
}

// CPSR once it's written in SVC.
fn written(registers: &mut Registers, value: u32) -> u32 {
    registers.set_cpsr(0xd3);
    registers.set_cpsr(value);
    status(registers)
}

#[test]
fn status_registers_keep_their_bits(rt: HostRuntime) {
    for &(value, cpsr, spsr) in &STATUS_WORDS {
        let mut registers = Registers::reset();
        let kept = (
            saved(&mut registers, value),
            left(&mut registers),
            written(&mut registers, value),
        );
        assert_eq!(rt;
            kept,
            (spsr, cpsr, cpsr),
            "SPSR, CPSR from it and CPSR of {value:x}"
        );
    }
}

// CPSR and SPSR in a mode that has no SPSR, once that was written and taken.
fn left_without_spsr(status: u32) -> (u32, u32) {
    let mut registers = Registers::reset();
    registers.set_cpsr(status);
    registers.set_spsr(0x13);
    registers.leave();
    (registers.cpsr(), registers.spsr())
}

#[test]
fn user_and_system_have_no_saved_status(rt: HostRuntime) {
    for &status in &[0x9000_0010, 0x9000_001f] {
        assert_eq!(rt;
            left_without_spsr(status),
            (status, status),
            "in {status:x}"
        );
    }
}

// The flags of this CPSR, and CPSR once they are written over none.
fn flags_read_and_written(status: u32, flags: Flags) -> (Flags, u32) {
    let mut registers = Registers::reset();
    registers.set_cpsr(status);
    let read = registers.flags();
    registers.set_cpsr(status % 0x100);
    registers.set_flags(flags);
    (read, registers.cpsr())
}

#[test]
fn flags_are_the_top_four_bits(rt: HostRuntime) {
    for &(status, negative, zero, carry, overflow) in &[
        (0x8000_00d3, true, false, false, false),
        (0x4000_0010, false, true, false, false),
        (0x2000_0011, false, false, true, false),
        (0x1000_007f, false, false, false, true),
        (0xf000_0092, true, true, true, true),
    ] {
        let flags = Flags {
            negative,
            zero,
            carry,
            overflow,
        };
        assert_eq!(rt;
            flags_read_and_written(status, flags),
            (flags, status),
            "{status:x}"
        );
    }
}

// The exception, its link, CPSR before it, CPSR in it and r15.
static ENTRIES: [(Exception, u32, u32, u32, u32); 4] = [
    (Exception::Undefined, 0x4, 0xd3, 0xdb, 0x4),
    (
        Exception::Software,
        0x0800_0102,
        0x6000_0030,
        0x6000_0093,
        0x8,
    ),
    (
        Exception::Interrupt,
        0x0300_0008,
        0x9000_005f,
        0x9000_00d2,
        0x18,
    ),
    (
        Exception::Interrupt,
        0x0300_0008,
        0x0000_0011,
        0x0000_0092,
        0x18,
    ),
];

// The registers once an exception is entered from this CPSR.
fn entered(kind: Exception, link: u32, before: u32) -> Registers {
    let mut registers = Registers::reset();
    registers.set_cpsr(before);
    registers.enter(kind, link);
    registers
}

// CPSR, SPSR, r14 and r15.
fn after_entry(registers: &Registers) -> (u32, u32, u32, u32) {
    (
        registers.cpsr(),
        registers.spsr(),
        registers.get(14),
        registers.get(15),
    )
}

#[test]
fn exceptions_enter_and_leave(rt: HostRuntime) {
    for &(kind, link, before, inside, counter) in &ENTRIES {
        let mut registers = entered(kind, link, before);
        assert_eq!(rt;
            after_entry(&registers),
            (inside, before, link, counter),
            "{kind:?}"
        );
        assert_eq!(rt; left(&mut registers), before, "{kind:?}");
    }
}

// Numbers that tell their places, but for this CPSR.
fn numbers(status: u32) -> [u32; 37]
    ensures { slice_index result 31 ≡ status }
{
    [
        0, 1, 2, 3, 4, 5, 6, 7, 8, 9, 10, 11, 12, 13, 14, 15, 16, 17, 18, 19, 20, 21, 22, 23, 24,
        25, 26, 27, 28, 29, 30, status, 32, 33, 34, 35, 36,
    ]
}

// CPSR, and what stands in r8, r13, r14 and SPSR.
fn seen_in_mode(registers: &Registers) -> (u32, [u32; 4]) {
    let seen = [
        read(registers, 8),
        read(registers, 13),
        read(registers, 14),
        saved_status(registers),
    ];
    (status(registers), seen)
}

// r15, the user's r13, and N.
fn seen_in_each_mode(registers: &Registers) -> (u32, u32, bool) {
    (
        registers.get(15),
        registers.user_get(13),
        registers.flags().negative,
    )
}

// r8 and the user's, in FIQ.
fn eighth_registers(registers: &mut Registers) -> (u32, u32) {
    registers.set_cpsr(0x11);
    (registers.get(8), registers.user_get(8))
}

// What stands in r8, r13, r14 and SPSR, and in r8 once FIQ is entered.
fn sees<R: Abort>(rt: &R, mut registers: Registers, status: u32, seen: [u32; 4]) {
    assert_eq!(rt; registers.all(), numbers(status), "in {status:x}");
    assert_eq!(rt; seen_in_mode(&registers), (status, seen), "in {status:x}");
    let negative = status >= 0x8000_0000;
    assert_eq!(rt;
        seen_in_each_mode(&registers),
        (15, 13, negative),
        "in {status:x}"
    );
    assert_eq!(rt;
        eighth_registers(&mut registers),
        (16, 8),
        "from {status:x}"
    );
}

#[test]
fn registers_are_made_of_their_numbers(rt: HostRuntime) {
    let user = Registers::of(&numbers(0x1000_0010));
    sees(&rt, user, 0x1000_0010, [8, 13, 14, 0x1000_0010]);
    let fiq = Registers::of(&numbers(0x2000_0011));
    sees(&rt, fiq, 0x2000_0011, [16, 21, 22, 32]);
    let irq = Registers::of(&numbers(0x4000_0092));
    sees(&rt, irq, 0x4000_0092, [8, 23, 24, 33]);
    let svc = Registers::of(&numbers(0x8000_00d3));
    sees(&rt, svc, 0x8000_00d3, [8, 25, 26, 34]);
    let abt = Registers::of(&numbers(0xf000_00f7));
    sees(&rt, abt, 0xf000_00f7, [8, 27, 28, 35]);
    let und = Registers::of(&numbers(0x0000_003b));
    sees(&rt, und, 0x0000_003b, [8, 29, 30, 36]);
    let system = Registers::of(&numbers(0x6000_001f));
    sees(&rt, system, 0x6000_001f, [8, 13, 14, 0x6000_001f]);
}
