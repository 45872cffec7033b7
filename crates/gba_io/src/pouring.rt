//! What a board is made of is replaced, which is no write of a program.

use crate::in_step::cycles_in;
use crate::parts::is_calm;
use crate::{Base, Board, Core, Counts};
use gba_bus::WaitControl;
use gba_devices::Devices;
use gba_flash::FlashMachine;
use gba_image::Backup;
use gba_mem::MemoryPart;
use gba_serial::Serial;

/// What a board is made of beside its memories and the lines that are drawn.
#[derive(Debug, Drop)]
pub struct BoardParts {
    pub devices: Devices,
    pub serial: Serial,
    /// How much it has made.
    pub counts: Counts,
}

impl Core {
    ghost use Rattle.std.specs.Prelude.{◌≡◌, ◌+◌, ◌<◌, ◌≤◌, ◌^◌, [], IfSome, length, slice_index_or};
    ghost use Rattle.gba_flash.specs.Soundness.{IsSoundMachine};
    ghost use Rattle.gba_io.specs.Core.{core_cleared, core_poured, core_with_machine, core_with_part};
    ghost use Rattle.gba_mem.specs.Backups.{backup_of, flash_machine as machine_of_flash};
    ghost use Rattle.gba_mem.specs.Replacing.{part_length};

    /// Replaces bytes of a memory from a place on. Where a program's write would be dropped or doubled it is not here,
    /// and a flash takes the bytes for no command. The lines that are drawn stay as they are.
    pub fn set_bytes(&mut self, part: MemoryPart, place: usize, bytes: &[u8])
        requires { place + length bytes.now ≤ part_length part self.old.memory }
        ensures { self.new ≡ core_with_part part place bytes.now self.old }
    {
        self.screen.set_bytes(part, place, bytes);
    }

    /// Makes every byte of the memories that are written 0, those of the SRAM or the flash too. The lines that are
    /// drawn stay.
    pub fn clear_memories(&mut self)
        ensures { self.new ≡ core_cleared self.old }
    {
        self.screen.clear();
    }

    /// What keeps the saves.
    pub fn backup(&self) -> Backup
        ensures { result ≡ backup_of self.now.memory.backup }
    {
        self.screen.memory().backup()
    }

    /// What the flash remembers beside its bytes; nothing where there is none. With the flash of 65,536 bytes its bank
    /// is 0 and it awaits none.
    pub fn flash_machine(&self) -> Option<FlashMachine>
        ensures value { result ≡ machine_of_flash self.now.memory.backup }
        ensures sound { IfSome result (λ machine. IsSoundMachine (backup_of self.now.memory.backup) machine) }
    {
        self.screen.memory().flash_machine()
    }

    /// Lets the flash go on from where a machine has come. Nothing changes where there is none.
    pub fn restore_flash(&mut self, machine: FlashMachine)
        requires { IsSoundMachine (backup_of self.old.memory.backup) machine }
        ensures { self.new ≡ core_with_machine machine self.old }
    {
        self.screen.restore_flash(machine);
    }

    /// Makes these the bytes of a line that is drawn: 240 colours of 16 bits each, low byte first.
    pub fn line(&self, line: u32, bytes: &mut [u8; 480])
        requires { line < length self.now.lines }
        ensures { bytes.new ≡ slice_index_or self.now.lines line [] }
    {
        self.screen.line(line, bytes);
    }

    /// Puts devices, a serial unit and lines beside the memories. The prices become those of the devices.
    fn pour(&mut self, devices: Devices, serial: Serial, lines: &[[u8; 480]])
        requires clock { devices.clock < 2 ^ 40 }
        requires lines { length lines.now ≤ 160 }
        ensures { self.new ≡ core_poured devices serial lines.now self.old }
    {
        self.screen.set_lines(lines);
        self.prices.renew(&WaitControl {
            value: devices.set().priced(),
        });
        self.calm = is_calm(&devices, &serial);
        self.devices = devices;
        self.serial = serial;
    }
}

impl Board {
    ghost use Rattle.std.specs.Prelude.{◌≡◌, ◌+◌, ◌<◌, ◌≤◌, ◌^◌, length};
    ghost use Rattle.gba_io.specs.Board.{board_poured};

    /// Puts these parts and lines beside the memories, and makes the counts those of the parts. The lists of what
    /// was made and of the transfers that ended begin here, empty, and `until` is the end of their room, at most
    /// 2^24 cycles on. Which lists are kept stays. It takes no memory. The lines are those of the present frame from
    /// the top down.
    pub fn pour(&mut self, parts: BoardParts, lines: &[[u8; 480]], until: u64)
        requires clock { parts.devices.clock ≤ 2 ^ 39 + 511 }
        requires frames { parts.counts.frames < 2 ^ 40 }
        requires samples { parts.counts.samples < 2 ^ 40 }
        requires words { parts.counts.words < 2 ^ 40 }
        requires lines { length lines.now ≤ 160 }
        requires near { until ≤ parts.devices.clock + 16777216 }
        ensures { self.new ≡ board_poured parts lines.now until self.old }
    {
        let BoardParts {
            devices,
            serial,
            counts,
        } = parts;
        let base = Base {
            clock: devices.clock(),
            pairs: counts.samples,
            frames: counts.frames,
            words: counts.words,
            cycles: u64::from(cycles_in(&devices.place())),
        };
        self.core.pour(devices, serial, lines);
        self.made.begin_from(base, until);
        self.ended.begin_from(base, until);
    }
}
