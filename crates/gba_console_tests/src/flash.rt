//! A console whose cartridge has a flash: its program and DMA read and write it.

use crate::course::Code::Source;
use crate::course::Look::{Byte, Register};
use crate::course::Move::{self, Shows, Steps};
use crate::course::{Course, PLAIN, go_through};
use gba_image::Backup;
use gba_io::MemoryName;
use std::test::Fail;

/// Lets the flash say what it is, and DMA3 read it as a word; then lets DMA3 write two halfwords, of which the first is
/// programmed and the second is no command.
const SOURCE: &[u8] = b"        mov   r0, #0x0e000000
        add   r1, r0, #0x5500
        add   r1, r1, #0x55
        add   r2, r0, #0x2a00
        add   r2, r2, #0xaa
        mov   r3, #0xaa
        mov   r4, #0x55
        mov   r5, #0x90
        strb  r3, [r1]
        strb  r4, [r2]
        strb  r5, [r1]
        mov   r6, #0x04000000
        mov   r7, #0x03000000
        str   r0, [r6, #0xd4]
        str   r7, [r6, #0xd8]
        mov   r8, #0x84000000
        add   r8, r8, #1
        str   r8, [r6, #0xdc]
        mov   r5, #0xf0
        strb  r5, [r0]
        mov   r5, #0xa0
        strb  r3, [r1]
        strb  r4, [r2]
        strb  r5, [r1]
        str   r7, [r6, #0xd4]
        add   r9, r0, #0x10
        str   r9, [r6, #0xd8]
        mov   r8, #0x80000000
        add   r8, r8, #2
        str   r8, [r6, #0xdc]
        ldrb  r10, [r0, #0x10]
stay:   b     stay
";

/// What the console shows after 31 instructions and three units: what the flash is, as DMA3 read it, and what it wrote.
const MOVES: [Move; 10] = [
    Steps(34),
    Shows(Byte(MemoryName::Iwram, 0), 0xC2),
    Shows(Byte(MemoryName::Iwram, 1), 0xC2),
    Shows(Byte(MemoryName::Iwram, 3), 0xC2),
    Shows(Byte(MemoryName::Iwram, 4), 0),
    Shows(Byte(MemoryName::Backup, 0x0F), 0xFF),
    Shows(Byte(MemoryName::Backup, 0x10), 0xC2),
    Shows(Byte(MemoryName::Backup, 0x11), 0xFF),
    Shows(Byte(MemoryName::Backup, 0x12), 0xFF),
    Shows(Register(10), 0xC2),
];

static COURSES: [Course; 2] = [
    Course {
        name: "a flash of 65,536 bytes",
        bios: Source(SOURCE),
        backup: Backup::Flash64,
        moves: &MOVES,
        ..PLAIN
    },
    Course {
        name: "a flash of 131,072 bytes",
        bios: Source(SOURCE),
        backup: Backup::Flash128,
        moves: &MOVES,
        ..PLAIN
    },
];

#[test]
fn dma_reads_and_writes_a_flash(rt: HostRuntime) -> Result<(), Fail> {
    go_through(&rt, rt.alloc(), &COURSES)
}
