//! Frozen files of one console and of two, made by hand.

use gba_frozen::Setup;
use gba_image::Backup;
use std::alloc::Global;
use std::test::Fail;

/// A job of one console, and one of two, of which the second one's cartridge has the larger flash.
pub(crate) const ONE: Setup = Setup {
    consoles: 1,
    backups: [Backup::Sram; 4],
    digest: [0x11; 32],
    until: 1000,
};

pub(crate) const TWO: Setup = Setup {
    consoles: 2,
    backups: [Backup::Sram, Backup::Flash128, Backup::Sram, Backup::Sram],
    digest: [0x11; 32],
    until: 1000,
};

/// The lines before the first console.
static HEAD: [&[u8]; 2] = [
    b"gbalink-frozen 1\n",
    b"job 1111111111111111111111111111111111111111111111111111111111111111\n",
];

/// The registers of a console.
static PROCESSOR: [&[u8]; 37] = [
    b"r0 0a000100\n",
    b"r1 0a000101\n",
    b"r2 0a000102\n",
    b"r3 0a000103\n",
    b"r4 0a000104\n",
    b"r5 0a000105\n",
    b"r6 0a000106\n",
    b"r7 0a000107\n",
    b"r8 0a000108\n",
    b"r9 0a000109\n",
    b"r10 0a00010a\n",
    b"r11 0a00010b\n",
    b"r12 0a00010c\n",
    b"r13 0a00010d\n",
    b"r14 0a00010e\n",
    b"r15 0a00010f\n",
    b"r8_fiq 0a000110\n",
    b"r9_fiq 0a000111\n",
    b"r10_fiq 0a000112\n",
    b"r11_fiq 0a000113\n",
    b"r12_fiq 0a000114\n",
    b"r13_fiq 0a000115\n",
    b"r14_fiq 0a000116\n",
    b"r13_irq 0a000117\n",
    b"r14_irq 0a000118\n",
    b"r13_svc 0a000119\n",
    b"r14_svc 0a00011a\n",
    b"r13_abt 0a00011b\n",
    b"r14_abt 0a00011c\n",
    b"r13_und 0a00011d\n",
    b"r14_und 0a00011e\n",
    b"cpsr 8000001f\n",
    b"spsr_fiq 10000010\n",
    b"spsr_irq 20000011\n",
    b"spsr_svc 30000012\n",
    b"spsr_abt 40000013\n",
    b"spsr_und 50000017\n",
];

/// The lines of its devices.
static DEVICES: [&[u8]; 22] = [
    b"timer 0 1 2 195 4\n",
    b"timer 1 5 6 199 8\n",
    b"timer 2 9 10 198 12\n",
    b"timer 3 65535 14 134 1023\n",
    b"dma 0 1 0 33554432 50331648 5\n",
    b"dma 1 0 1 1 2 3\n",
    b"dma 2 1 1 4 5 65536\n",
    b"dma 3 0 0 4294967295 6 7\n",
    b"queue A 11 3 0a0b0c\n",
    b"queue B 7f 2 01ff\n",
    b"sequencer 262143\n",
    b"tone 1 1 7 9 256 15 7 6 2047\n",
    b"tone 2 0 1 2 3 4 5 0 0\n",
    b"tone 3 1 63 16777215 5 3 0 0 0\n",
    b"tone 4 1 32767 11 12 13 1 0 0\n",
    b"wave 0 000102030405060708090a0b0c0d0e0f\n",
    b"wave 1 f0f1f2f3f4f5f6f7f8f9fafbfcfdfeff\n",
    b"position 2 600\n",
    b"affine 2 00000001 80000002\n",
    b"affine 3 7fffff03 ffffff04\n",
    b"serial 2 1 1 1234 5 6 7\n",
    b"known 3 2 1 0\n",
];

/// The lines of its memories but for the last one's.
static MEMORIES: [&[u8]; 8] = [
    b"mem io 000000 0102000000000000000000000000000000000000000000000000000000000000\n",
    b"mem io 0003e0 0000000000000000000000000000000000000000000000000000000000000003\n",
    b"mem wram 000020 0400000000000000000000000000000000000000000000000000000000000000\n",
    b"mem wram 03ffe0 0000000000000000000000000000000000000000000000000000000000000005\n",
    b"mem iwram 007fe0 0600000000000000000000000000000000000000000000000000000000000000\n",
    b"mem palette 000020 0708000000000000000000000000000000000000000000000000000000000000\n",
    b"mem vram 017fe0 0900000000000000000000000000000000000000000000000000000000000000\n",
    b"mem oam 0003e0 0a00000000000000000000000000000000000000000000000000000000000000\n",
];

/// The lines of a console with an SRAM behind those.
static SRAM: [&[u8]; 4] = [
    b"mem backup 007fe0 0b00000000000000000000000000000000000000000000000000000000000000\n",
    b"was 88\n",
    b"applied 4\n",
    b"counts 10 20 30\n",
];

/// The lines of one with a flash.
static FLASH: [&[u8]; 5] = [
    b"mem backup 01ffe0 0c0d000000000000000000000000000000000000000000000000000000000000\n",
    b"flash 4 1 0 1\n",
    b"was 89\n",
    b"applied 5\n",
    b"counts 11 21 31\n",
];

fn add_lines(file: &mut Vec<u8>, lines: &[&'static [u8]]) -> Result<(), Fail> {
    for line in lines {
        file.extend_from_slice(*line)?;
    }
    Ok(())
}

/// Adds a drawn line, each of whose colours has these four digits.
fn add_drawn(file: &mut Vec<u8>, number: &[u8], colour: &[u8]) -> Result<(), Fail> {
    file.extend_from_slice(b"drawn ")?;
    file.extend_from_slice(number)?;
    file.extend_from_slice(b" ")?;
    for _ in 0..240 {
        file.extend_from_slice(colour)?;
    }
    file.extend_from_slice(b"\n")?;
    Ok(())
}

/// Adds a console from the line of its player on to that of its clock.
fn add_console(file: &mut Vec<u8>, first: &[&'static [u8]]) -> Result<(), Fail> {
    add_lines(file, first)?;
    add_lines(file, &PROCESSOR)?;
    add_lines(file, &DEVICES)?;
    add_lines(file, &MEMORIES)
}

/// The first lines of each console.
static FIRST: [&[u8]; 4] = [
    b"gbalink-state 1\n",
    b"console 0\n",
    b"clock 600\n",
    b"halted 1\n",
];

static SECOND: [&[u8]; 4] = [
    b"gbalink-state 1\n",
    b"console 1\n",
    b"clock 601\n",
    b"halted 0\n",
];

/// The file of one console, whose drawn lines have these numbers.
pub(crate) fn file_of_one(alloc: Global, drawn: &[&'static [u8]]) -> Result<Vec<u8>, Fail> {
    let mut file = Vec::new(alloc);
    add_lines(&mut file, &HEAD)?;
    add_console(&mut file, &FIRST)?;
    add_lines(&mut file, &SRAM)?;
    for number in drawn {
        add_drawn(&mut file, *number, b"1234")?;
    }
    file.extend_from_slice(b"end\n")?;
    Ok(file)
}

/// The file of two consoles. The first one has two drawn lines, and the second one has one.
pub(crate) fn file_of_two(alloc: Global) -> Result<Vec<u8>, Fail> {
    let mut file = Vec::new(alloc);
    add_lines(&mut file, &HEAD)?;
    add_console(&mut file, &FIRST)?;
    add_lines(&mut file, &SRAM)?;
    add_drawn(&mut file, b"0", b"0102")?;
    add_drawn(&mut file, b"1", b"0304")?;
    add_console(&mut file, &SECOND)?;
    add_lines(&mut file, &FLASH)?;
    add_drawn(&mut file, b"0", b"0506")?;
    file.extend_from_slice(b"signal 1 0000000000000058 0000000000000000\n")?;
    file.extend_from_slice(b"signal 0 0000000000000005 0000000000000000\n")?;
    file.extend_from_slice(b"end\n")?;
    Ok(file)
}

/// The file of one console with so many signals.
pub(crate) fn file_of_signals(alloc: Global, count: usize) -> Result<Vec<u8>, Fail> {
    let mut file = Vec::new(alloc);
    add_lines(&mut file, &HEAD)?;
    add_console(&mut file, &FIRST)?;
    add_lines(&mut file, &SRAM)?;
    for _ in 0..count {
        file.extend_from_slice(b"signal 0 0000000000000007 0000000000000000\n")?;
    }
    file.extend_from_slice(b"end\n")?;
    Ok(file)
}
