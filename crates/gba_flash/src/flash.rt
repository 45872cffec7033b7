//! A flash: its bytes and its machine.

ghost use Rattle.std.specs.Prelude.{◌≡◌, ◌+◌, ◌<◌, ◌≤◌, ◌&&◌, length};
ghost use Rattle.gba_flash.specs.Flash.{after_bank, after_first, after_ready, command_at as command_said, command_of as command_written, device_of, erase_of as erase_if, erased, has_banks as banks_of, machine_after};

use crate::machine::{AT_FIRST, Command, FlashMachine, FlashState};
use gba_image::Backup;
use std::marker::Model;

/// The bytes that reads and writes see at once.
const BANK: usize = 0x1_0000;

/// The bytes that are erased together.
const SECTOR: usize = 0x1000;

/// What the flash's maker is, at offset 0 while it identifies itself.
const MAKER: u8 = 0xC2;

/// What the flash is, at offset 1 while it identifies itself.
fn device(backup: Backup) -> u8
    ensures { result ≡ device_of backup }
{
    match backup {
        Backup::Sram => 0,
        Backup::Flash64 => 0x1C,
        Backup::Flash128 => 0x09,
    }
}

fn has_banks(backup: Backup) -> bool
    ensures { result ≡ banks_of backup }
{
    match backup {
        Backup::Sram | Backup::Flash64 => false,
        Backup::Flash128 => true,
    }
}

/// An erasing command, where it is armed.
fn erase_of(armed: bool, command: Command) -> Command
    ensures { result ≡ erase_if armed command }
{
    if armed { command } else { Command::Nothing }
}

/// The command that a write at 5555h is.
fn command_at(value: u8, backup: Backup, armed: bool) -> Command
    ensures { result ≡ command_said value backup armed }
{
    match value {
        0x80 => Command::Arm,
        0x90 => Command::Identify(true),
        0xF0 => Command::Identify(false),
        0xA0 => Command::Program,
        0xB0 if has_banks(backup) => Command::Bank,
        0x10 => erase_of(armed, Command::EraseAll),
        0x30 => erase_of(armed, Command::EraseSector),
        _ => Command::Nothing,
    }
}

/// The command that a write is.
#[tactic(auto, unfolding(crate::specs::Flash::command_of))]
fn command_of(offset: u32, value: u8, backup: Backup, armed: bool) -> Command
    ensures { result ≡ command_written offset value backup armed }
{
    if offset == 0x5555 {
        command_at(value, backup, armed)
    } else if value == 0x30 {
        erase_of(armed, Command::EraseSector)
    } else {
        Command::Nothing
    }
}

/// Makes so many bytes from one on FFh.
#[tactic(auto, unfolding(crate::specs::Flash::erased))]
fn blank(bytes: &mut [u8], first: usize, count: usize)
    requires { first + count ≤ length bytes.old }
    ensures { bytes.new ≡ erased first count bytes.old }
{
    for place in 0..count {
        bytes[first + place] = 0xFF;
    }
}

impl FlashMachine {
    /// A write where no command has begun.
    fn begin(&mut self, offset: u32, value: u8)
        ensures { self.new ≡ after_ready offset value self.old }
    {
        if offset == 0x5555 && value == 0xAA {
            self.state = FlashState::First;
        } else if value == 0xF0 {
            self.identify = false;
        }
    }

    /// A write after the first one of a command.
    fn go_on(&mut self, offset: u32, value: u8)
        ensures { self.new ≡ after_first offset value self.old }
    {
        self.state = if offset == 0x2AAA && value == 0x55 {
            FlashState::Second
        } else {
            FlashState::Ready
        };
    }

    /// Takes a command.
    fn obey(&mut self, command: Command)
        ensures { self.new ≡ machine_after command self.old }
    {
        self.state = match command {
            Command::Program => FlashState::Program,
            Command::Bank => FlashState::Bank,
            _ => FlashState::Ready,
        };
        self.armed = command == Command::Arm;
        if let Command::Identify(identify) = command {
            self.identify = identify;
        }
    }

    /// A write that may choose a bank.
    fn choose(&mut self, offset: u32, value: u8)
        ensures { self.new ≡ after_bank offset value self.old }
    {
        self.state = FlashState::Ready;
        if offset == 0 {
            self.bank = u32::from(value) % 2;
        }
    }
}

/// The flash of a cartridge, of 65,536 or of 131,072 bytes (GBATEK, GBA Cart Backup Flash ROM; its machine of states is
/// this project's profile). An offset is an address modulo 65,536. Commands take no time.
#[derive(Drop)]
pub struct Flash {
    bytes: Vec<u8>,
    backup: Backup,
    machine: FlashMachine,
}

impl Model for Flash {
    ghost use Rattle.gba_flash.specs.Flash.{FlashMemory};
    ghost use Rattle.gba_flash.specs.Soundness.{IsSoundFlash};

    ghost Value = { FlashMemory };

    ghost view = { λ f. record { bytes = f.bytes.items; backup = f.backup; machine = f.machine } };

    ghost invariant = { λ f. IsSoundFlash (record { bytes = f.bytes.items; backup = f.backup; machine = f.machine }) };
}

impl Flash {
    ghost use Rattle.std.specs.Prelude.{true, vec_len};
    ghost use Rattle.gba_flash.specs.Flash.{bytes_after, flash_at_first, flash_read, flash_written, is_flash, place_in, programmed};
    ghost use Rattle.gba_flash.specs.Replacing.{with_bytes, zeros};
    ghost use Rattle.gba_flash.specs.Soundness.{IsSoundMachine};
    ghost use Rattle.gba_image.specs.Backups.{backup_length};

    /// A flash with these bytes, of which there are as many as it has. No command has begun, and bank 0 is seen.
    pub fn new(bytes: Vec<u8>, backup: Backup) -> Flash
        requires flash { is_flash backup ≡ true }
        requires length { vec_len bytes ≡ backup_length backup }
        ensures { result ≡ flash_at_first bytes.items backup }
    {
        Flash::of(bytes, backup, AT_FIRST)
    }

    /// The same, with a machine that has come somewhere.
    pub fn of(bytes: Vec<u8>, backup: Backup, machine: FlashMachine) -> Flash
        requires flash { is_flash backup ≡ true }
        requires length { vec_len bytes ≡ backup_length backup }
        requires machine { IsSoundMachine backup machine }
        ensures { result ≡ record { bytes = bytes.items; backup = backup; machine = machine } }
    {
        Flash {
            bytes,
            backup,
            machine,
        }
    }

    /// The bytes of all banks, from the first one's front up.
    pub fn bytes(&self) -> &[u8]
        ensures bytes { result.now ≡ self.now.bytes }
        ensures length { length result.now ≡ backup_length self.now.backup }
    {
        self.bytes.as_slice()
    }

    /// What it remembers beside them.
    pub fn machine(&self) -> FlashMachine
        ensures value { result ≡ self.now.machine }
        ensures sound { IsSoundMachine self.now.backup result }
    {
        self.machine
    }

    /// Lets the flash go on from where a machine has come.
    pub fn restore(&mut self, machine: FlashMachine)
        requires { IsSoundMachine self.old.backup machine }
        ensures { self.new ≡ record self.old { machine = machine } }
    {
        self.machine = machine;
    }

    /// Replaces bytes from a place on, as no program can: they are no command.
    pub fn set_bytes(&mut self, place: usize, bytes: &[u8])
        requires { place + length bytes.now ≤ backup_length self.old.backup }
        ensures { self.new ≡ record self.old { bytes = with_bytes place bytes.now self.old.bytes } }
    {
        self.bytes.as_mut_slice()[place..place + bytes.len()].copy_from_slice(bytes);
    }

    /// Makes every byte 0, as no program can: what the flash remembers beside its bytes stays.
    pub fn clear(&mut self)
        ensures { self.new ≡ record self.old { bytes = zeros self.old.bytes } }
    {
        self.bytes.as_mut_slice().fill(0);
    }

    /// Which flash it is.
    pub fn backup(&self) -> Backup
        ensures { result ≡ self.now.backup }
    {
        self.backup
    }

    /// Where the byte at an offset stands.
    fn place(&self, offset: u32) -> usize
        requires { offset < 0x10000 }
        ensures value { result ≡ place_in self.now.machine offset }
        ensures most { result < backup_length self.now.backup }
    {
        self.machine.bank as usize * BANK + offset as usize
    }

    /// The byte at an offset below 65,536.
    pub fn read(&self, offset: u32) -> u8
        requires { offset < 0x10000 }
        ensures { result ≡ flash_read offset self.now }
    {
        match offset {
            0 if self.machine.identify => MAKER,
            1 if self.machine.identify => device(self.backup),
            _ => self.bytes[self.place(offset)],
        }
    }

    /// Programs a byte, which keeps its zeros.
    fn program(&mut self, offset: u32, value: u8)
        requires { offset < 0x10000 }
        ensures { self.new ≡ programmed (place_in self.old.machine offset) value self.old }
    {
        let place = self.place(offset);
        self.bytes[place] &= value;
        self.machine.state = FlashState::Ready;
    }

    /// What a command does to the bytes.
    fn erase(&mut self, command: Command, place: usize)
        requires { place < backup_length self.old.backup }
        ensures { self.new ≡ record self.old { bytes = bytes_after command place self.old.bytes } }
    {
        match command {
            Command::EraseAll => {
                let count = self.bytes.len();
                blank(self.bytes.as_mut_slice(), 0, count);
            }
            Command::EraseSector => {
                blank(self.bytes.as_mut_slice(), place / SECTOR * SECTOR, SECTOR);
            }
            _ => (),
        }
    }

    /// Writes a byte at an offset below 65,536: a command's part, what a command awaits, or nothing.
    #[tactic(auto, unfolding(crate::specs::Flash::flash_written))]
    pub fn write(&mut self, offset: u32, value: u8)
        requires { offset < 0x10000 }
        ensures { self.new ≡ flash_written offset value self.old }
    {
        match self.machine.state {
            FlashState::Ready => self.machine.begin(offset, value),
            FlashState::First => self.machine.go_on(offset, value),
            FlashState::Second => {
                let command = command_of(offset, value, self.backup, self.machine.armed);
                let place = self.place(offset);
                self.erase(command, place);
                self.machine.obey(command);
            }
            FlashState::Program => self.program(offset, value),
            FlashState::Bank => self.machine.choose(offset, value),
        }
    }
}
