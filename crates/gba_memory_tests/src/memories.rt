//! What each address reads and stores.

ghost use Rattle.std.specs.Prelude.{◌≡◌, IsTrue, length};
ghost use Rattle.gba_flash.specs.Soundness.{IsSoundMachine};
ghost use Rattle.gba_mem.specs.Replacing.{part_length};

use crate::fits;
use crate::images::{HEADER, image};
use gba_bus::Width::{self, Byte, Half, Word};
use gba_flash::{FlashMachine, FlashState};
use gba_image::{Backup, Bios, Cartridge, ConsoleImages, Save};
use gba_mem::{Memory, MemoryPart};
use std::alloc::Global;
use std::process::Abort;
use std::test::Fail;

/// Something done to the memories, or something that must hold of them.
#[derive(Clone, Copy)]
pub(crate) enum Move {
    /// Write a number in a mode of the picture.
    Store(u32, u32, Width, u32),
    /// An address reads so for an instruction in ROM.
    Reads(u32, Width, u32),
    /// It reads so for the instruction at the first address.
    ReadsFrom(u32, u32, Width, u32),
    /// The instruction there is this.
    Instruction(u32, Width, u32),
    /// Replace four bytes from a place of a memory on.
    Replace(MemoryPart, usize, [u8; 4]),
    /// A memory is lent with this byte at a place.
    Holds(MemoryPart, usize, u8),
    /// A memory has so many bytes, and so many of them aren't this.
    Apart(MemoryPart, usize, u8, usize),
    /// It saves in this.
    SavesIn(Backup),
    /// What a flash remembers.
    Machine(Option<FlashMachine>),
    /// Let a flash go on from this.
    Restore(FlashMachine),
    /// Make every byte 0.
    Clear,
}

use Move::{
    Apart, Clear, Holds, Instruction, Machine, Reads, ReadsFrom, Replace, Restore, SavesIn, Store,
};

fn bytes_of(memory: &Memory, part: MemoryPart) -> &[u8]
    ensures { length result.now ≡ part_length part memory.now }
{
    match part {
        MemoryPart::Work => memory.work(),
        MemoryPart::Inner => memory.inner(),
        MemoryPart::Palette => memory.palette(),
        MemoryPart::Vram => memory.vram(),
        MemoryPart::Oam => memory.oam(),
        MemoryPart::Backup => memory.backup_bytes(),
    }
}

/// Replaces bytes that are within a memory.
fn replace<R: Abort>(rt: &R, memory: &mut Memory, part: MemoryPart, place: usize, bytes: &[u8; 4]) {
    let length = bytes_of(memory, part).len();
    assert!(rt; place < length && length - place >= 4);
    memory.set_bytes(part, place, bytes);
}

/// Whether there is such a machine of this backup.
fn is_machine(backup: Backup, machine: FlashMachine) -> bool
    ensures { IsTrue result → IsSoundMachine backup machine }
{
    match (backup, machine.state) {
        (Backup::Flash128, _) => machine.bank < 2,
        (_, FlashState::Bank) => false,
        _ => machine.bank == 0,
    }
}

fn restore<R: Abort>(rt: &R, memory: &mut Memory, machine: FlashMachine) {
    assert!(rt; is_machine(memory.backup(), machine));
    memory.restore_flash(machine);
}

/// Does what a move says.
fn make<R: Abort>(rt: &R, memory: &mut Memory, one: Move) {
    match one {
        Store(mode, address, width, value) => memory.store(mode, address, width, value),
        Replace(part, place, bytes) => replace(rt, memory, part, place, &bytes),
        Restore(machine) => restore(rt, memory, machine),
        Clear => memory.clear(),
        _ => {}
    }
}

/// What a move shows, and what it must show.
type Shown = (u64, u64);

/// Of a move that shows nothing.
const NOTHING: Shown = (0, 0);

fn number(got: u32, wanted: u32) -> Shown {
    (u64::from(got), u64::from(wanted))
}

/// The byte at a place, or 256 where there is none.
fn byte(bytes: &[u8], place: usize, wanted: u8) -> Shown {
    let got = bytes.get(place).copied().map_or(256, u64::from);
    (got, u64::from(wanted))
}

fn apart<R: Abort>(rt: &R, bytes: &[u8], length: usize, value: u8, wanted: usize) -> Shown {
    assert_eq!(rt; bytes.len(), length);
    let count = bytes.iter().filter(|byte| **byte != value).count();
    (count as u64, wanted as u64)
}

fn saves_in<R: Abort>(rt: &R, memory: &Memory, backup: Backup) -> Shown {
    assert_eq!(rt; memory.backup(), backup);
    (memory.backup_bytes().len() as u64, backup.length() as u64)
}

fn remembers<R: Abort>(rt: &R, memory: &Memory, machine: Option<FlashMachine>) -> Shown {
    assert_eq!(rt; memory.flash_machine(), machine);
    NOTHING
}

/// Looks at what must hold.
fn look<R: Abort>(rt: &R, memory: &mut Memory, one: Move) -> Shown {
    match one {
        Reads(address, width, value) => number(memory.load(0x0800_0000, address, width), value),
        ReadsFrom(from, address, width, value) => number(memory.load(from, address, width), value),
        Instruction(address, width, value) => number(memory.code(address, width), value),
        Holds(part, place, value) => byte(bytes_of(memory, part), place, value),
        Apart(part, length, value, count) => {
            apart(rt, bytes_of(memory, part), length, value, count)
        }
        SavesIn(backup) => saves_in(rt, memory, backup),
        Machine(machine) => remembers(rt, memory, machine),
        _ => NOTHING,
    }
}

fn play<R: Abort>(rt: &R, memory: &mut Memory, case: &str, moves: &[Move]) {
    for (place, one) in moves.iter().enumerate() {
        make(rt, memory, *one);
        let (got, wanted) = look(rt, memory, *one);
        assert_eq!(rt; got, wanted, "{case}, move {place}");
    }
}

/// A console's memories with a BIOS that begins 11h 22h 33h 44h and ends 55h, and this cartridge and save.
fn memories_of<R: Abort>(
    rt: &R,
    alloc: Global,
    cart: Option<Cartridge>,
    save: Option<Save>,
    backup: Backup,
) -> Result<Memory, Fail> {
    let bytes = [(0, 0x11), (1, 0x22), (2, 0x33), (3, 0x44), (0x3FFF, 0x55)];
    let bios = Bios::check(image(rt, alloc, 16_384, &bytes)?)?;
    assert!(rt; fits(&save, backup));
    let images = ConsoleImages {
        bios,
        cart,
        save,
        backup,
    };
    Ok(Memory::new(alloc, images)?)
}

/// The same with SRAM alone.
pub(crate) fn memories<R: Abort>(rt: &R, alloc: Global) -> Result<Memory, Fail> {
    memories_of(rt, alloc, None, None, Backup::Sram)
}

/// Each memory that repeats, at both ends of a period and of its region, at each width.
const MIRRORS: [Move; 38] = [
    Store(0, 0x0200_0000, Word, 0x4433_2211),
    Reads(0x0200_0003, Word, 0x4433_2211),
    Reads(0x0204_0001, Half, 0x2211),
    Reads(0x02FC_0003, Byte, 0x44),
    Store(0, 0x02FF_FFFF, Word, 0x8877_6655),
    Reads(0x0203_FFFC, Word, 0x8877_6655),
    Reads(0x0207_FFFE, Half, 0x8877),
    Reads(0x0203_FFFF, Byte, 0x88),
    Store(0, 0x0300_0001, Half, 0xFFFF_2211),
    Reads(0x0300_8000, Word, 0x0000_2211),
    Reads(0x03FF_8001, Byte, 0x22),
    Store(0, 0x03FF_FFFF, Byte, 0xFFFF_FF88),
    Reads(0x0300_7FFC, Word, 0x8800_0000),
    Reads(0x0300_FFFF, Half, 0x8800),
    Store(0, 0x0500_0000, Word, 0x4433_2211),
    Reads(0x0500_0402, Half, 0x4433),
    Reads(0x05FF_FC03, Byte, 0x44),
    Store(0, 0x05FF_FFFF, Half, 0x8877),
    Reads(0x0500_03FC, Word, 0x8877_0000),
    Reads(0x0500_03FF, Byte, 0x88),
    Store(0, 0x0700_0000, Word, 0x4433_2211),
    Reads(0x0700_0402, Half, 0x4433),
    Reads(0x07FF_FC03, Byte, 0x44),
    Store(0, 0x07FF_FFFF, Half, 0x8877),
    Reads(0x0700_03FC, Word, 0x8877_0000),
    Reads(0x0700_03FF, Byte, 0x88),
    Store(0, 0x0600_0000, Word, 0x4433_2211),
    Reads(0x0602_0002, Half, 0x4433),
    Reads(0x06FE_0003, Byte, 0x44),
    Store(0, 0x0601_8000, Word, 0x9999_0001),
    Reads(0x0601_0000, Word, 0x9999_0001),
    Reads(0x0601_8002, Half, 0x9999),
    Store(0, 0x0601_FFFE, Half, 0x8877),
    Reads(0x0601_7FFC, Word, 0x8877_0000),
    Reads(0x06FF_FFFF, Byte, 0x88),
    Reads(0x0600_FFFC, Word, 0),
    Reads(0x0601_0004, Word, 0),
    Reads(0x0300_0004, Word, 0),
];

/// A byte written to the palette or to the VRAM below the tiles of sprites goes to both bytes of its halfword. Those
/// tiles and the OAM drop it. The tiles begin at 10000h in modes 0 to 2, and at 14000h in the others.
const BYTES: [Move; 24] = [
    Store(0, 0x0700_0000, Byte, 0x5A),
    Reads(0x0700_0000, Word, 0),
    Store(0, 0x0600_0001, Byte, 0xFF5A),
    Reads(0x0600_0000, Word, 0x0000_5A5A),
    Store(0, 0x0500_0003, Byte, 0x6B),
    Reads(0x0500_0000, Word, 0x6B6B_0000),
    Store(2, 0x0600_FFFF, Byte, 0x5A),
    Reads(0x0600_FFFC, Word, 0x5A5A_0000),
    Store(0, 0x0601_0000, Byte, 0x5A),
    Store(1, 0x0601_0001, Byte, 0x5A),
    Store(2, 0x0601_8000, Byte, 0x5A),
    Reads(0x0601_0000, Word, 0),
    Store(3, 0x0601_8001, Byte, 0x6B),
    Reads(0x0601_0000, Word, 0x6B6B),
    Store(5, 0x0601_3FFF, Byte, 0x7C),
    Reads(0x0601_3FFC, Word, 0x7C7C_0000),
    Store(3, 0x0601_4000, Byte, 0x5A),
    Store(4, 0x0601_C000, Byte, 0x5A),
    Store(7, 0x0601_7FFF, Byte, 0x5A),
    Reads(0x0601_4000, Word, 0),
    Reads(0x0601_7FFC, Word, 0),
    Store(0, 0x0200_0001, Byte, 0x5A),
    Reads(0x0200_0000, Word, 0x5A00),
    Reads(0x0600_0004, Word, 0),
];

/// What drops writes and reads 0, and the BIOS, which reads 0 from outside.
const DROPS: [Move; 22] = [
    ReadsFrom(0x0000_0000, 0x0000_0000, Word, 0x4433_2211),
    ReadsFrom(0x0000_3FFF, 0x0000_0003, Half, 0x4433),
    ReadsFrom(0x0000_0100, 0x0000_3FFF, Byte, 0x55),
    ReadsFrom(0x0000_4000, 0x0000_0000, Word, 0),
    ReadsFrom(0x0300_0000, 0x0000_0000, Word, 0),
    Reads(0x0000_0000, Word, 0),
    Instruction(0x0000_0000, Word, 0x4433_2211),
    Instruction(0x0000_3FFE, Half, 0x5500),
    Store(0, 0x0000_0000, Word, 0xFFFF_FFFF),
    Instruction(0x0000_0002, Half, 0x4433),
    Store(0, 0x0800_0000, Word, 0xFFFF_FFFF),
    Reads(0x0800_0000, Word, 0x0001_0000),
    Store(0, 0x0400_0000, Half, 0xFFFF),
    Reads(0x0400_0000, Half, 0),
    Store(0, 0x0400_0400, Word, 0xFFFF_FFFF),
    Reads(0x0400_0400, Word, 0),
    Reads(0x0000_4000, Word, 0),
    Store(0, 0x1000_0000, Word, 0xFFFF_FFFF),
    Reads(0x1000_0000, Word, 0),
    Store(0, 0xFFFF_FFFF, Word, 0xFFFF_FFFF),
    Reads(0xFFFF_FFFF, Word, 0),
    Instruction(0x1000_0000, Word, 0),
];

/// The SRAM has one byte at a time.
const SRAM: [Move; 12] = [
    Reads(0x0E00_0000, Word, 0xFFFF_FFFF),
    Store(0, 0x0E00_0000, Byte, 0x5A),
    Reads(0x0E00_0000, Word, 0x5A5A_5A5A),
    Reads(0x0E00_8003, Word, 0x5A5A_5A5A),
    Reads(0x0FFF_8001, Half, 0x5A5A),
    Reads(0x0E00_0001, Byte, 0xFF),
    Store(0, 0x0FFF_FFFF, Half, 0x1234),
    Reads(0x0E00_7FFE, Byte, 0x34),
    Reads(0x0E00_7FFF, Byte, 0xFF),
    Store(0, 0x0F00_0007, Word, 0x1234_5678),
    Reads(0x0E00_0004, Half, 0x7878),
    Instruction(0x0E00_0004, Word, 0x7878_7878),
];

/// A cartridge of zeros with a header and these bytes.
fn cartridge<R: Abort>(rt: &R, alloc: Global, (length, bytes): Image) -> Result<Cartridge, Fail> {
    let mut cart = image(rt, alloc, length, &HEADER)?;
    for (place, byte) in bytes {
        assert!(rt; *place < cart.len());
        cart[*place] = *byte;
    }
    Ok(Cartridge::check(cart)?)
}

/// A RAM starts as 0, and the SRAM as FFh.
const STARTS: [Move; 6] = [
    Apart(MemoryPart::Work, 0x4_0000, 0, 0),
    Apart(MemoryPart::Inner, 0x8000, 0, 0),
    Apart(MemoryPart::Palette, 0x400, 0, 0),
    Apart(MemoryPart::Vram, 0x1_8000, 0, 0),
    Apart(MemoryPart::Oam, 0x400, 0, 0),
    Apart(MemoryPart::Backup, 0x8000, 0xFF, 0),
];

/// Each memory is lent with what was stored in it, and the SRAM starts as the save.
const LENT: [Move; 14] = [
    Store(0, 0x0200_0003, Byte, 0x01),
    Store(0, 0x03FF_FFFC, Word, 0x0200_0000),
    Store(0, 0x0500_0003, Byte, 0x03),
    Store(0, 0x0601_FFFE, Half, 0x0400),
    Store(0, 0x0700_0000, Half, 0x0500),
    Store(0, 0x0E00_0006, Byte, 0x06),
    Holds(MemoryPart::Work, 3, 0x01),
    Holds(MemoryPart::Inner, 0x7FFF, 0x02),
    Holds(MemoryPart::Palette, 2, 0x03),
    Holds(MemoryPart::Vram, 0x1_7FFF, 0x04),
    Holds(MemoryPart::Oam, 1, 0x05),
    Holds(MemoryPart::Backup, 6, 0x06),
    Holds(MemoryPart::Backup, 5, 0x5A),
    Holds(MemoryPart::Backup, 0x7FFF, 0x6B),
];

/// A flash has one byte at a time, as SRAM has, and a store of any width is one write to it, of its low byte at its
/// aligned address. This one of 65,536 bytes says what it is, to loads and to code, at all repeats, until F0h is
/// written; programs a byte, which keeps its zeros; and chooses no bank.
const FLASH: [Move; 41] = [
    Reads(0x0E00_0000, Word, 0xFFFF_FFFF),
    Store(0, 0x0E00_5555, Byte, 0xAA),
    Store(0, 0x0E00_2AAA, Byte, 0x55),
    Store(0, 0x0E00_5555, Byte, 0x90),
    Reads(0x0E00_0000, Byte, 0xC2),
    Reads(0x0E00_0001, Byte, 0x1C),
    Reads(0x0E00_0002, Byte, 0xFF),
    Reads(0x0E00_0001, Half, 0xC2C2),
    Reads(0x0E00_0003, Word, 0xC2C2_C2C2),
    Instruction(0x0E00_0000, Word, 0xC2C2_C2C2),
    Instruction(0x0E00_0002, Half, 0xFFFF),
    Reads(0x0E01_0001, Byte, 0x1C),
    Reads(0x0FFF_0001, Byte, 0x1C),
    Store(0, 0x0E00_0003, Half, 0x12F0),
    Reads(0x0E00_0000, Byte, 0xFF),
    Store(0, 0x0E00_5555, Half, 0xAAAA),
    Store(0, 0x0E00_2AAA, Byte, 0x55),
    Store(0, 0x0E00_5555, Byte, 0x90),
    Reads(0x0E00_0000, Byte, 0xFF),
    Store(0, 0x0F01_5555, Byte, 0xFFAA),
    Store(0, 0x0E00_2AAB, Half, 0xFF55),
    Store(0, 0x0E00_5555, Byte, 0xA0),
    Store(0, 0x0E00_0007, Word, 0x1234_5678),
    Reads(0x0E00_0004, Byte, 0x78),
    Reads(0x0E00_0005, Byte, 0xFF),
    Reads(0x0E00_0007, Word, 0x7878_7878),
    Store(0, 0x0E00_0004, Byte, 0x00),
    Reads(0x0E00_0004, Byte, 0x78),
    Store(0, 0x0E00_5555, Byte, 0xAA),
    Store(0, 0x0E00_2AAA, Byte, 0x55),
    Store(0, 0x0E00_5555, Byte, 0xB0),
    Store(0, 0x0E00_0000, Byte, 0x01),
    Store(0, 0x0E00_5555, Byte, 0xAA),
    Store(0, 0x0E00_2AAA, Byte, 0x55),
    Store(0, 0x0E00_5555, Byte, 0xA0),
    Store(0, 0x0E00_0004, Byte, 0x0F),
    Reads(0x0E00_0004, Byte, 0x08),
    Reads(0x0E00_0000, Byte, 0xFF),
    SavesIn(Backup::Flash64),
    Apart(MemoryPart::Backup, 65_536, 0xFF, 1),
    Holds(MemoryPart::Backup, 4, 0x08),
];

/// The next byte is programmed, in bank 1.
const PROGRAMS: FlashMachine = FlashMachine {
    state: FlashState::Program,
    armed: false,
    identify: false,
    bank: 1,
};

/// The larger flash has another number, and a second bank: a byte that is programmed there isn't the first one's.
const LARGE_FLASH: [Move; 22] = [
    Store(0, 0x0E00_5555, Byte, 0xAA),
    Store(0, 0x0E00_2AAA, Byte, 0x55),
    Store(0, 0x0E00_5555, Byte, 0x90),
    Reads(0x0E00_0000, Byte, 0xC2),
    Reads(0x0E00_0001, Byte, 0x09),
    Store(0, 0x0E00_5555, Byte, 0xAA),
    Store(0, 0x0E00_2AAA, Byte, 0x55),
    Store(0, 0x0E00_5555, Byte, 0xF0),
    Reads(0x0E00_0001, Byte, 0xFF),
    Store(0, 0x0E00_5555, Byte, 0xAA),
    Store(0, 0x0E00_2AAA, Byte, 0x55),
    Store(0, 0x0E00_5555, Byte, 0xB0),
    Store(0, 0x0E00_0000, Byte, 0x01),
    Store(0, 0x0E00_5555, Byte, 0xAA),
    Store(0, 0x0E00_2AAA, Byte, 0x55),
    Store(0, 0x0E00_5555, Byte, 0xA0),
    Machine(Some(PROGRAMS)),
    Store(0, 0x0E00_0003, Byte, 0x5A),
    Reads(0x0E00_0003, Byte, 0x5A),
    SavesIn(Backup::Flash128),
    Apart(MemoryPart::Backup, 131_072, 0xFF, 1),
    Holds(MemoryPart::Backup, 0x1_0003, 0x5A),
];

/// A flash goes on from where another one has come: there the next byte is programmed, in bank 1.
const GOES_ON: [Move; 4] = [
    Restore(PROGRAMS),
    Machine(Some(PROGRAMS)),
    Store(0, 0x0E00_0003, Byte, 0x5A),
    Holds(MemoryPart::Backup, 0x1_0003, 0x5A),
];

/// SRAM has no machine, and takes none.
const TAKES_NONE: [Move; 3] = [
    Machine(None),
    Restore(FlashMachine {
        state: FlashState::Ready,
        bank: 0,
        ..PROGRAMS
    }),
    Machine(None),
];

/// A flash starts as its save, which code and loads read.
const SAVED: [Move; 4] = [
    Reads(0x0E00_0005, Byte, 0x5A),
    Reads(0x0E00_0006, Byte, 0),
    Reads(0x0E00_FFFF, Byte, 0),
    Holds(MemoryPart::Backup, 0x1_FFFF, 0x6B),
];

/// What replaces bytes.
const BYTES_1: [u8; 4] = [0x11, 0x22, 0x33, 0x44];

const BYTES_5: [u8; 4] = [0x55, 0x66, 0x77, 0x88];

/// Loads see them, also where a program's write of a byte would be dropped or doubled.
const REPLACED_READ: [Move; 7] = [
    Replace(MemoryPart::Work, 0x3_FFFC, BYTES_1),
    Replace(MemoryPart::Oam, 4, BYTES_1),
    Replace(MemoryPart::Palette, 1, BYTES_1),
    Reads(0x0203_FFFC, Word, 0x4433_2211),
    Reads(0x0700_0004, Half, 0x2211),
    Reads(0x0500_0000, Word, 0x3322_1100),
    Reads(0x0500_0004, Byte, 0x44),
];

/// AAh was written at 5555h.
const BEGUN: FlashMachine = FlashMachine {
    state: FlashState::First,
    armed: false,
    identify: false,
    bank: 0,
};

/// The bytes of a flash are replaced in both banks, and no command is begun or ended by them.
const NO_COMMAND: [Move; 7] = [
    Store(0, 0x0E00_5555, Byte, 0xAA),
    Machine(Some(BEGUN)),
    Replace(MemoryPart::Backup, 0x2AAA, BYTES_5),
    Replace(MemoryPart::Backup, 0x1_FFFC, BYTES_5),
    Machine(Some(BEGUN)),
    Holds(MemoryPart::Backup, 0x1_FFFF, 0x88),
    Reads(0x0E00_2AAA, Byte, 0x55),
];

/// Every byte of the memories that are written becomes 0; the BIOS and what a flash remembers stay.
const CLEARED: [Move; 22] = [
    Store(0, 0x0E00_5555, Byte, 0xAA),
    Replace(MemoryPart::Work, 0, BYTES_1),
    Replace(MemoryPart::Work, 0x3_FFFC, BYTES_5),
    Replace(MemoryPart::Inner, 0, BYTES_1),
    Replace(MemoryPart::Inner, 0x7FFC, BYTES_5),
    Replace(MemoryPart::Palette, 0, BYTES_1),
    Replace(MemoryPart::Palette, 0x3FC, BYTES_5),
    Replace(MemoryPart::Vram, 0, BYTES_1),
    Replace(MemoryPart::Vram, 0x1_7FFC, BYTES_5),
    Replace(MemoryPart::Oam, 0, BYTES_1),
    Replace(MemoryPart::Oam, 0x3FC, BYTES_5),
    Replace(MemoryPart::Backup, 0, BYTES_1),
    Replace(MemoryPart::Backup, 0x7FFC, BYTES_5),
    Replace(MemoryPart::Backup, 0x1234, BYTES_1),
    Replace(MemoryPart::Backup, 0x5678, BYTES_5),
    Clear,
    Apart(MemoryPart::Work, 0x4_0000, 0, 0),
    Apart(MemoryPart::Inner, 0x8000, 0, 0),
    Apart(MemoryPart::Palette, 0x400, 0, 0),
    Apart(MemoryPart::Vram, 0x1_8000, 0, 0),
    Apart(MemoryPart::Oam, 0x400, 0, 0),
    ReadsFrom(0, 0, Word, 0x4433_2211),
];

/// How long a file is, and its bytes that aren't 0.
type Image<'a> = (usize, &'a [(usize, u8)]);

/// What a console saves in, its cartridge and save where it has them, and what is done to its memories.
#[derive(Clone, Copy)]
struct Case {
    name: &'static str,
    backup: Backup,
    cart: Option<Image<'static>>,
    save: Option<Image<'static>>,
    moves: &'static [Move],
    last: &'static [Move],
}

/// With SRAM, a header alone and no save.
const PLAIN: Case = Case {
    name: "",
    backup: Backup::Sram,
    cart: None,
    save: None,
    moves: &[],
    last: &[],
};

static CASES: [Case; 19] = [
    Case {
        name: "mirrors",
        moves: &MIRRORS,
        ..PLAIN
    },
    Case {
        name: "bytes",
        moves: &BYTES,
        ..PLAIN
    },
    Case {
        name: "drops",
        moves: &DROPS,
        ..PLAIN
    },
    Case {
        name: "SRAM",
        moves: &SRAM,
        ..PLAIN
    },
    // ROM in its three views, and past its image, where a halfword reads its own number.
    Case {
        name: "ROM of 192 bytes",
        cart: Some((192, &[(0, 0x11), (3, 0x44), (0xBF, 0x77)])),
        moves: &[
            Reads(0x0800_0000, Word, 0x4400_0011),
            Reads(0x0A00_0001, Half, 0x0011),
            Reads(0x0C00_0003, Byte, 0x44),
            Instruction(0x0C00_0000, Word, 0x4400_0011),
            Reads(0x0800_00BC, Word, 0x7700_5100),
            Reads(0x0800_00C0, Word, 0x0061_0060),
            Reads(0x0800_0200, Half, 0x0100),
            Instruction(0x0800_0200, Half, 0x0100),
            Reads(0x0A00_0201, Byte, 0x01),
            Reads(0x0DFF_FFFC, Word, 0xFFFF_FFFE),
            Reads(0x0802_0002, Half, 0x0001),
        ],
        ..PLAIN
    },
    Case {
        name: "ROM of 193 bytes",
        cart: Some((193, &[(0xC0, 0xAB)])),
        moves: &[
            Reads(0x0800_00C0, Half, 0x00AB),
            Reads(0x0800_00C1, Byte, 0x00),
            Instruction(0x0A00_00C0, Word, 0x0061_00AB),
        ],
        ..PLAIN
    },
    Case {
        name: "ROM of 33,554,431 bytes",
        cart: Some((33_554_431, &[(33_554_430, 0xAB)])),
        moves: &[
            Reads(0x09FF_FFFE, Half, 0xFFAB),
            Instruction(0x0BFF_FFFC, Word, 0xFFAB_0000),
            Reads(0x0DFF_FFFF, Byte, 0xFF),
            Reads(0x0A00_00B2, Byte, 0x96),
        ],
        ..PLAIN
    },
    Case {
        name: "ROM of 33,554,432 bytes",
        cart: Some((33_554_432, &[(33_554_431, 0x12)])),
        moves: &[
            Reads(0x09FF_FFFE, Half, 0x1200),
            Instruction(0x0BFF_FFFC, Word, 0x1200_0000),
            Reads(0x0DFF_FFFF, Byte, 0x12),
        ],
        ..PLAIN
    },
    Case {
        name: "starts",
        moves: &STARTS,
        ..PLAIN
    },
    Case {
        name: "lent",
        save: Some((32_768, &[(5, 0x5A), (0x7FFF, 0x6B)])),
        moves: &LENT,
        ..PLAIN
    },
    Case {
        name: "flash",
        backup: Backup::Flash64,
        moves: &FLASH,
        ..PLAIN
    },
    Case {
        name: "large flash",
        backup: Backup::Flash128,
        moves: &LARGE_FLASH,
        ..PLAIN
    },
    Case {
        name: "goes on",
        backup: Backup::Flash128,
        moves: &GOES_ON,
        ..PLAIN
    },
    Case {
        name: "takes none",
        moves: &TAKES_NONE,
        ..PLAIN
    },
    Case {
        name: "saved",
        backup: Backup::Flash128,
        save: Some((131_072, &[(5, 0x5A), (0x1_FFFF, 0x6B)])),
        moves: &SAVED,
        ..PLAIN
    },
    Case {
        name: "replaced bytes are read",
        moves: &REPLACED_READ,
        ..PLAIN
    },
    Case {
        name: "no command",
        backup: Backup::Flash128,
        moves: &NO_COMMAND,
        ..PLAIN
    },
    Case {
        name: "cleared with SRAM",
        moves: &CLEARED,
        last: &[Apart(MemoryPart::Backup, 0x8000, 0, 0), Machine(None)],
        ..PLAIN
    },
    Case {
        name: "cleared with a flash",
        backup: Backup::Flash128,
        moves: &CLEARED,
        last: &[
            Apart(MemoryPart::Backup, 0x2_0000, 0, 0),
            Machine(Some(BEGUN)),
        ],
        ..PLAIN
    },
];

/// The save of a case.
fn save_of<R: Abort>(rt: &R, alloc: Global, case: &Case) -> Result<Option<Save>, Fail> {
    let Some((length, bytes)) = case.save else {
        return Ok(None);
    };
    Ok(Some(Save::check(image(rt, alloc, length, bytes)?, case.backup)?))
}

/// The cartridge of a case.
fn cartridge_of<R: Abort>(rt: &R, alloc: Global, case: &Case) -> Result<Option<Cartridge>, Fail> {
    let Some(cart) = case.cart else {
        return Ok(None);
    };
    Ok(Some(cartridge(rt, alloc, cart)?))
}

#[test]
fn memories_do_as_worked_out(rt: HostRuntime) -> Result<(), Fail> {
    for case in &CASES {
        let cart = cartridge_of(&rt, rt.alloc(), case)?;
        let save = save_of(&rt, rt.alloc(), case)?;
        let mut memory = memories_of(&rt, rt.alloc(), cart, save, case.backup)?;
        play(&rt, &mut memory, case.name, case.moves);
        play(&rt, &mut memory, case.name, case.last);
    }
    Ok(())
}

/// Two places of each memory that take four bytes, mostly the first and the last, and what a byte that was never
/// written is.
static REPLACED: [(MemoryPart, usize, usize, u8); 7] = [
    (MemoryPart::Work, 0, 0x3_FFFC, 0),
    (MemoryPart::Inner, 0, 0x7FFC, 0),
    (MemoryPart::Palette, 0, 0x3FC, 0),
    (MemoryPart::Vram, 0, 0x1_7FFC, 0),
    (MemoryPart::Oam, 0, 0x3FC, 0),
    (MemoryPart::Backup, 0, 0x7FFC, 0xFF),
    (MemoryPart::Backup, 0x1234, 0x5678, 0xFF),
];

/// Bytes are replaced where they are asked for, and their neighbours stay.
#[test]
fn bytes_are_replaced(rt: HostRuntime) -> Result<(), Fail> {
    for &(part, first, last, other) in &REPLACED {
        let moves = [
            Replace(part, first, BYTES_1),
            Replace(part, last, BYTES_5),
            Holds(part, first, 0x11),
            Holds(part, first.saturating_add(3), 0x44),
            Holds(part, first.saturating_add(4), other),
            Holds(part, last.saturating_sub(1), other),
            Holds(part, last, 0x55),
            Holds(part, last.saturating_add(3), 0x88),
        ];
        let mut memory = memories(&rt, rt.alloc())?;
        play(&rt, &mut memory, "bytes are replaced", &moves);
    }
    Ok(())
}
