//! Each write in each state of the machine, worked out by hand from its table, and programs of several writes.

ghost use Rattle.std.specs.Prelude.{IsTrue};
ghost use Rattle.gba_flash.specs.Soundness.{IsSoundMachine};

use crate::FlashState::{self, Bank, First, Program, Ready, Second};
use crate::{Flash, FlashMachine};
use gba_image::Backup::{self, Flash64, Flash128};
use std::alloc::Global;
use std::process::Abort;
use std::rt::HostRuntime;
use std::test::Fail;

/// What a write changes of the bytes.
#[derive(Clone, Copy)]
enum Change {
    None,
    /// The byte at a place becomes this.
    Byte(usize, u8),
    /// The sector that begins at a place is erased.
    Sector(usize),
    All,
}

/// The byte at a place before any write.
fn byte_at(place: usize) -> u8 {
    (place % 251) as u8
}

fn bytes_of(alloc: Global, backup: Backup) -> Result<Vec<u8>, Fail> {
    let mut bytes = Vec::new(alloc);
    for place in 0..backup.length() {
        bytes.push(byte_at(place))?;
    }
    Ok(bytes)
}

/// Whether there is such a machine: the smaller flash has no bank 1 and chooses none.
fn is_machine(backup: Backup, machine: FlashMachine) -> bool
    ensures { IsTrue result → IsSoundMachine backup machine }
{
    match (backup, machine.state) {
        (Flash128, _) => machine.bank < 2,
        (_, Bank) => false,
        _ => machine.bank == 0,
    }
}

/// A flash of this kind whose machine has come to a state.
fn flash_of(alloc: Global, backup: Backup, machine: FlashMachine) -> Result<Flash, Fail> {
    let bytes = bytes_of(alloc, backup)?;
    if bytes.len() != backup.length() || !is_machine(backup, machine) {
        return Err("no such flash")?;
    }
    match backup {
        Flash64 | Flash128 => Ok(Flash::of(bytes, backup, machine)),
        Backup::Sram => Err("no flash")?,
    }
}

/// The byte at a place after a change.
fn changed(change: Change, place: usize) -> u8 {
    match change {
        Change::Byte(at, value) if at == place => value,
        Change::Sector(first) if first <= place && place - first < 4096 => 0xFF,
        Change::All => 0xFF,
        _ => byte_at(place),
    }
}

fn has_bytes<R: Abort>(rt: &R, flash: &Flash, change: Change) {
    for (place, byte) in flash.bytes().iter().enumerate() {
        assert_eq!(rt; *byte, changed(change, place), "at {place}");
    }
}

/// Writes a byte at an offset below 65,536.
fn write<R: Abort>(rt: &R, flash: &mut Flash, offset: u32, value: u8) {
    assert!(rt; offset < 0x1_0000);
    flash.write(offset, value);
}

fn reads<R: Abort>(rt: &R, flash: &Flash, offset: u32, value: u8) {
    assert!(rt; offset < 0x1_0000);
    assert_eq!(rt; flash.read(offset), value, "at {offset:x}");
}

/// A machine: its state, whether it is armed, whether it identifies itself, and its bank.
type Numbers = (FlashState, bool, bool, u32);

fn machine_of(numbers: Numbers) -> FlashMachine {
    let (state, armed, identify, bank) = numbers;
    FlashMachine {
        state,
        armed,
        identify,
        bank,
    }
}

/// A machine, the offset and the byte of a write, and what these come to.
type Row = (Numbers, u32, u8, Numbers, Change);

/// Rows that both kinds of flash share. In the other states the machine isn't armed, since only the command
/// before it arms.
static BOTH: [Row; 36] = [
    (
        (Ready, false, false, 0),
        0x5555,
        0xAA,
        (First, false, false, 0),
        Change::None,
    ),
    (
        (Ready, true, true, 0),
        0x5555,
        0xAA,
        (First, true, true, 0),
        Change::None,
    ),
    (
        (Ready, false, false, 0),
        0x2AAA,
        0xAA,
        (Ready, false, false, 0),
        Change::None,
    ),
    (
        (Ready, false, true, 0),
        0x5555,
        0x55,
        (Ready, false, true, 0),
        Change::None,
    ),
    (
        (Ready, false, true, 0),
        0x5555,
        0xF0,
        (Ready, false, false, 0),
        Change::None,
    ),
    (
        (Ready, true, true, 0),
        0x1234,
        0xF0,
        (Ready, true, false, 0),
        Change::None,
    ),
    (
        (Ready, true, true, 0),
        0x0000,
        0x30,
        (Ready, true, true, 0),
        Change::None,
    ),
    (
        (Ready, true, false, 0),
        0x5555,
        0x10,
        (Ready, true, false, 0),
        Change::None,
    ),
    (
        (First, false, false, 0),
        0x2AAA,
        0x55,
        (Second, false, false, 0),
        Change::None,
    ),
    (
        (First, true, true, 0),
        0x2AAA,
        0x55,
        (Second, true, true, 0),
        Change::None,
    ),
    (
        (First, true, false, 0),
        0x5555,
        0x55,
        (Ready, true, false, 0),
        Change::None,
    ),
    (
        (First, false, true, 0),
        0x2AAA,
        0xF0,
        (Ready, false, true, 0),
        Change::None,
    ),
    (
        (First, false, false, 0),
        0x5555,
        0xAA,
        (Ready, false, false, 0),
        Change::None,
    ),
    (
        (Second, false, false, 0),
        0x5555,
        0x80,
        (Ready, true, false, 0),
        Change::None,
    ),
    (
        (Second, true, true, 0),
        0x5555,
        0x80,
        (Ready, true, true, 0),
        Change::None,
    ),
    (
        (Second, true, false, 0),
        0x5555,
        0x90,
        (Ready, false, true, 0),
        Change::None,
    ),
    (
        (Second, true, true, 0),
        0x5555,
        0xF0,
        (Ready, false, false, 0),
        Change::None,
    ),
    (
        (Second, true, true, 0),
        0x5555,
        0xA0,
        (Program, false, true, 0),
        Change::None,
    ),
    (
        (Second, true, false, 0),
        0x5555,
        0x10,
        (Ready, false, false, 0),
        Change::All,
    ),
    (
        (Second, false, false, 0),
        0x5555,
        0x10,
        (Ready, false, false, 0),
        Change::None,
    ),
    (
        (Second, true, false, 0),
        0x5554,
        0x10,
        (Ready, false, false, 0),
        Change::None,
    ),
    (
        (Second, true, true, 0),
        0x5555,
        0x30,
        (Ready, false, true, 0),
        Change::Sector(0x5000),
    ),
    (
        (Second, true, false, 0),
        0x0FFF,
        0x30,
        (Ready, false, false, 0),
        Change::Sector(0x0000),
    ),
    (
        (Second, true, false, 0),
        0x1000,
        0x30,
        (Ready, false, false, 0),
        Change::Sector(0x1000),
    ),
    (
        (Second, true, false, 0),
        0xFFFF,
        0x30,
        (Ready, false, false, 0),
        Change::Sector(0xF000),
    ),
    (
        (Second, false, false, 0),
        0x1000,
        0x30,
        (Ready, false, false, 0),
        Change::None,
    ),
    (
        (Second, true, true, 0),
        0x2AAA,
        0x80,
        (Ready, false, true, 0),
        Change::None,
    ),
    (
        (Second, true, false, 0),
        0x2AAA,
        0x90,
        (Ready, false, false, 0),
        Change::None,
    ),
    (
        (Second, true, true, 0),
        0x1234,
        0xF0,
        (Ready, false, true, 0),
        Change::None,
    ),
    (
        (Second, true, false, 0),
        0x0000,
        0xA0,
        (Ready, false, false, 0),
        Change::None,
    ),
    (
        (Second, true, false, 0),
        0x5555,
        0xAA,
        (Ready, false, false, 0),
        Change::None,
    ),
    (
        (Second, true, false, 0),
        0x2AAA,
        0xB0,
        (Ready, false, false, 0),
        Change::None,
    ),
    // 5555h holds 21,845 modulo 251, 8, and 100 holds 100, 64h.
    (
        (Program, false, false, 0),
        0x5555,
        0xAA,
        (Ready, false, false, 0),
        Change::Byte(0x5555, 0x08),
    ),
    (
        (Program, false, true, 0),
        0x0064,
        0xF0,
        (Ready, false, true, 0),
        Change::Byte(100, 0x60),
    ),
    (
        (Program, false, false, 0),
        0x0064,
        0xFF,
        (Ready, false, false, 0),
        Change::None,
    ),
    (
        (Program, false, false, 0),
        0xFFFF,
        0x00,
        (Ready, false, false, 0),
        Change::Byte(0xFFFF, 0x00),
    ),
];

/// The command that chooses a bank is none of the smaller flash.
static SMALL: [Row; 1] = [(
    (Second, true, true, 0),
    0x5555,
    0xB0,
    (Ready, false, true, 0),
    Change::None,
)];

/// The larger flash has it, and in bank 1 its writes go there.
static LARGE: [Row; 11] = [
    (
        (Second, true, true, 0),
        0x5555,
        0xB0,
        (Bank, false, true, 0),
        Change::None,
    ),
    (
        (Second, false, false, 1),
        0x5555,
        0xB0,
        (Bank, false, false, 1),
        Change::None,
    ),
    (
        (Bank, false, false, 0),
        0x0000,
        0x01,
        (Ready, false, false, 1),
        Change::None,
    ),
    (
        (Bank, false, true, 1),
        0x0000,
        0x02,
        (Ready, false, true, 0),
        Change::None,
    ),
    (
        (Bank, false, false, 0),
        0x0000,
        0xFF,
        (Ready, false, false, 1),
        Change::None,
    ),
    (
        (Bank, false, false, 1),
        0x0001,
        0x00,
        (Ready, false, false, 1),
        Change::None,
    ),
    (
        (Bank, false, false, 0),
        0x5555,
        0xAA,
        (Ready, false, false, 0),
        Change::None,
    ),
    (
        (Program, false, false, 1),
        0x0000,
        0x00,
        (Ready, false, false, 1),
        Change::Byte(0x1_0000, 0x00),
    ),
    (
        (Second, true, false, 1),
        0x5678,
        0x30,
        (Ready, false, false, 1),
        Change::Sector(0x1_5000),
    ),
    (
        (Second, true, false, 1),
        0x5555,
        0x10,
        (Ready, false, false, 1),
        Change::All,
    ),
    (
        (First, true, false, 1),
        0x2AAA,
        0x55,
        (Second, true, false, 1),
        Change::None,
    ),
];

fn does<R: Abort>(rt: &R, alloc: Global, backup: Backup, rows: &[Row]) -> Result<(), Fail> {
    for &(before, offset, value, after, change) in rows {
        let mut flash = flash_of(alloc, backup, machine_of(before))?;
        write(rt, &mut flash, offset, value);
        assert_eq!(rt;
            flash.machine(),
            machine_of(after),
            "{value:x} at {offset:x}"
        );
        has_bytes(rt, &flash, change);
    }
    Ok(())
}

#[test]
fn writes_do_as_their_table_says(rt: HostRuntime) -> Result<(), Fail> {
    let alloc = rt.alloc();
    does(&rt, alloc, Flash64, &BOTH)?;
    does(&rt, alloc, Flash128, &BOTH)?;
    does(&rt, alloc, Flash64, &SMALL)?;
    does(&rt, alloc, Flash128, &LARGE)
}

/// A flash whose bytes are all FFh.
fn blank(alloc: Global, backup: Backup) -> Result<Flash, Fail> {
    let bytes = vec![in alloc; 0xFF; backup.length()]?;
    match backup {
        Flash64 | Flash128 => Ok(Flash::new(bytes, backup)),
        Backup::Sram => Err("no flash")?,
    }
}

/// Something done to a flash, or something that it reads.
#[derive(Clone, Copy)]
enum Move {
    Write(u32, u8),
    Reads(u32, u8),
}

use Move::{Reads, Write};

fn play<R: Abort>(rt: &R, flash: &mut Flash, moves: &[Move]) {
    for one in moves {
        match *one {
            Write(offset, value) => write(rt, flash, offset, value),
            Reads(offset, value) => reads(rt, flash, offset, value),
        }
    }
}

/// What it is: the maker's number, and 1Ch or 09h, until F0h is written.
#[test]
fn flashes_identify_themselves(rt: HostRuntime) -> Result<(), Fail> {
    for (backup, device) in [(Flash64, 0x1C), (Flash128, 0x09)] {
        let mut flash = blank(rt.alloc(), backup)?;
        let moves = [
            Reads(0, 0xFF),
            Write(0x5555, 0xAA),
            Write(0x2AAA, 0x55),
            Write(0x5555, 0x90),
            Reads(0, 0xC2),
            Reads(1, device),
            Reads(2, 0xFF),
            Write(7, 0xF0),
            Reads(0, 0xFF),
            Reads(1, 0xFF),
        ];
        play(&rt, &mut flash, &moves);
    }
    Ok(())
}

/// A byte of bank 1 is programmed, and that of bank 0 at the same offset stays; the sector that is erased is bank 1's.
#[test]
fn banks_are_apart(rt: HostRuntime) -> Result<(), Fail> {
    let mut flash = blank(rt.alloc(), Flash128)?;
    let moves = [
        Write(0x5555, 0xAA),
        Write(0x2AAA, 0x55),
        Write(0x5555, 0xA0),
        Write(4, 0x0F),
        Write(0x5555, 0xAA),
        Write(0x2AAA, 0x55),
        Write(0x5555, 0xB0),
        Write(0, 0x01),
        Write(0x5555, 0xAA),
        Write(0x2AAA, 0x55),
        Write(0x5555, 0xA0),
        Write(3, 0x5A),
        Reads(3, 0x5A),
        Reads(4, 0xFF),
    ];
    play(&rt, &mut flash, &moves);
    for (place, byte) in [(3, 0xFF), (4, 0x0F), (0x1_0003, 0x5A)] {
        assert_eq!(rt; flash.bytes().get(place), Some(&byte), "at {place}");
    }
    let erases = [
        Write(0x5555, 0xAA),
        Write(0x2AAA, 0x55),
        Write(0x5555, 0x80),
        Write(0x5555, 0xAA),
        Write(0x2AAA, 0x55),
        Write(0, 0x30),
        Reads(3, 0xFF),
    ];
    play(&rt, &mut flash, &erases);
    assert_eq!(rt; flash.bytes().get(4), Some(&0x0F));
    Ok(())
}
