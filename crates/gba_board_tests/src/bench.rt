//! A board on a bench: calls on it, with what they need looked at first.

ghost use Rattle.std.specs.Prelude.{◌≡◌};
ghost use Rattle.gba_mem.specs.Replacing.{part_length};

use gba_bus::{Bus, Width};
use gba_flash::{FlashMachine, FlashState};
use gba_image::{Backup, Bios, ConsoleImages};
use gba_io::{Board, BoardParts, Core, Counts, MemoryName, Room};
use gba_mem::MemoryPart;
use gba_ppu_reg::{Position, Reference};
use gba_psg::Tone;
use gba_serial::{Serial, Transfer};
use gba_timer::Timer;
use link_node::{Incoming, LinkMode, Signal};
use std::alloc::Global;
use std::process::Abort;
use std::test::Fail;

/// A player, of how many, on a cable with how long a delay.
#[derive(Clone, Copy)]
pub(crate) struct Seat {
    pub player: u32,
    pub count: u32,
    pub delay: u64,
}

#[derive(Drop)]
pub(crate) struct Bench {
    pub board: Board,
}

/// A BIOS of this word and zeros.
fn bios_of(alloc: Global, first: u32) -> Result<Bios, Fail> {
    let mut bytes = Vec::from_slice(alloc, &first.to_le_bytes())?;
    bytes.resize(16_384, 0)?;
    match Bios::check(bytes) {
        Ok(bios) => Ok(bios),
        Err(_) => Err("no BIOS")?,
    }
}

/// How many bytes a memory has.
fn length_of(core: &Core, part: MemoryPart) -> usize
    ensures { result ≡ part_length part core.now.memory }
{
    match part {
        MemoryPart::Work => core.memory(MemoryName::Wram).len(),
        MemoryPart::Inner => core.memory(MemoryName::Iwram).len(),
        MemoryPart::Palette => core.memory(MemoryName::Palette).len(),
        MemoryPart::Vram => core.memory(MemoryName::Vram).len(),
        MemoryPart::Oam => core.memory(MemoryName::Oam).len(),
        MemoryPart::Backup => core.memory(MemoryName::Backup).len(),
    }
}

impl Bench {
    /// A board at reset, whose BIOS has this word and zeros.
    pub(crate) fn of(alloc: Global, first: u32, seat: Seat, room: Room) -> Result<Bench, Fail> {
        let images = ConsoleImages {
            bios: bios_of(alloc, first)?,
            cart: None,
            save: None,
            backup: Backup::Sram,
        };
        let Seat {
            player,
            count,
            delay,
        } = seat;
        if player >= count || count > 4 || delay < 1 || delay > 1024 || room.until > 1_000_000 {
            Err("no seat")?
        }
        let board = Board::new(alloc, player, count, 2 * delay, images, room)?;
        Ok(Bench { board })
    }

    /// Moves the devices by 512 cycles at most.
    pub(crate) fn advance(&mut self, rt: &impl Abort, cycles: u32) {
        assert!(rt; cycles <= 512);
        let in_step = self.board.is_in_step();
        assert!(rt; in_step);
        let until = self.board.made.until();
        assert!(rt; until <= 1_000_000);
        assert!(rt; self.board.core.clock() + u64::from(cycles) <= until + 511);
        self.board.advance(cycles);
    }

    /// Owes steps of so many cycles, and answers how many.
    pub(crate) fn owe_steps(&mut self, rt: &impl Abort, cycles: u32, most: u32) -> u32 {
        assert!(rt; 1 <= cycles);
        assert!(rt; self.board.core.clock() < 1_000_000);
        let in_step = self.board.is_in_step();
        assert!(rt; in_step);
        self.board.owe_steps(cycles, most)
    }

    pub(crate) fn take(&mut self, rt: &impl Abort, due: &Incoming) {
        let fits = self.board.next_end_fits();
        assert!(rt; fits);
        let until = self.board.ended.until();
        assert!(rt; until <= 1_000_000 && due.arrival < until);
        assert!(rt; due.signal.clock < due.arrival);
        self.board.take(due);
    }

    pub(crate) fn end_due(&mut self, rt: &impl Abort) {
        let fits = self.board.next_end_fits();
        assert!(rt; fits);
        assert!(rt; self.board.core.clock() < self.board.ended.until());
        self.board.end_due();
    }

    /// Empties the lists.
    pub(crate) fn forget(&mut self, rt: &impl Abort) {
        let in_step = self.board.is_in_step();
        assert!(rt; in_step);
        assert!(rt; self.board.core.clock() <= 1_000_000);
        assert!(rt; self.board.counts().words <= 1_000_000);
        self.board.forget(1_000_000);
    }

    /// What the write costs.
    pub(crate) fn store(&mut self, address: u32, width: Width, value: u32) -> u32 {
        self.board.core.store(address, width, value, false)
    }

    /// What an instruction in the BIOS reads, and what that costs.
    pub(crate) fn load(&mut self, address: u32, width: Width) -> (u32, u32) {
        self.board.core.load(0, address, width, false)
    }

    /// What a write at an offset of the I/O registers costs.
    pub(crate) fn store_io(&mut self, offset: u32, width: Width, value: u32) -> u32 {
        self.store(0x0400_0000 | offset, width, value)
    }

    /// What an instruction in the BIOS reads at an offset of the I/O registers, and what that costs.
    pub(crate) fn load_io(&mut self, offset: u32, width: Width) -> (u32, u32) {
        self.load(0x0400_0000 | offset, width)
    }

    pub(crate) fn code_price(&self, address: u32, width: Width) -> u32 {
        self.board.core.code_price(address, width, false)
    }

    pub(crate) fn reference(&self, rt: &impl Abort, background: u32) -> Reference {
        assert!(rt; 2 <= background);
        assert!(rt; background <= 3);
        self.board.core.devices().set().reference(background)
    }

    pub(crate) fn timer(&self, rt: &impl Abort, number: u32) -> Timer {
        assert!(rt; number < 4);
        self.board.core.devices().timer(number)
    }

    /// A tone channel by its number less 1.
    pub(crate) fn tone(&self, rt: &impl Abort, channel: u32) -> Tone {
        assert!(rt; channel < 4);
        self.board.core.devices().tone(channel)
    }

    /// The bytes of a bank of the wave.
    pub(crate) fn wave_bank(&self, rt: &impl Abort, bank: u32) -> [u8; 16] {
        assert!(rt; bank < 2);
        self.board.core.devices().wave_bank(bank)
    }

    /// How many units of a DMA channel are left.
    pub(crate) fn units_left(&self, rt: &impl Abort, channel: u32) -> u32 {
        assert!(rt; channel < 4);
        self.board.core.devices().set().channel(channel).left
    }

    pub(crate) fn queue(&self, rt: &impl Abort, queue: u32) -> &[u8] {
        assert!(rt; queue < 2);
        self.board.core.devices().set().queue(queue)
    }

    pub(crate) fn queue_current(&self, rt: &impl Abort, queue: u32) -> u8 {
        assert!(rt; queue < 2);
        self.board.core.devices().set().queue_current(queue)
    }

    /// The mode that a player is known to be in.
    pub(crate) fn known(&self, rt: &impl Abort, player: u32) -> LinkMode {
        assert!(rt; player < 4);
        self.board.core.serial().known(player)
    }

    pub(crate) fn serial(&self) -> Serial {
        *self.board.core.serial()
    }

    /// A line that is drawn of the present frame.
    fn line(&self, rt: &impl Abort, line: u32) -> [u8; 480] {
        let mut bytes = [0; 480];
        assert!(rt; line < self.board.core.lines_drawn());
        self.board.core.line(line, &mut bytes);
        bytes
    }

    /// The lines that are drawn of the present frame.
    pub(crate) fn lines(&self, rt: &impl Abort, alloc: Global) -> Result<Vec<[u8; 480]>, Fail> {
        let mut lines = Vec::new(alloc);
        for line in 0..self.board.core.lines_drawn() {
            lines.push(self.line(rt, line))?;
        }
        Ok(lines)
    }

    /// Replaces the first bytes of a memory.
    pub(crate) fn set_bytes(&mut self, rt: &impl Abort, part: MemoryPart, bytes: &[u8]) {
        assert!(rt; bytes.len() <= length_of(&self.board.core, part));
        self.board.core.set_bytes(part, 0, bytes);
    }

    /// Lets the flash await a byte, where there is one.
    pub(crate) fn restore_flash(&mut self) {
        self.board.core.restore_flash(FlashMachine {
            state: FlashState::Program,
            armed: false,
            identify: false,
            bank: 0,
        });
    }

    /// Pours parts and lines into the board.
    pub(crate) fn pour(&mut self, rt: &impl Abort, parts: BoardParts, lines: &[[u8; 480]]) {
        let Counts {
            frames,
            samples,
            words,
        } = parts.counts;
        assert!(rt; frames < 0x100_0000_0000);
        assert!(rt; samples < 0x100_0000_0000);
        assert!(rt; words < 0x100_0000_0000);
        assert!(rt; parts.devices.clock() <= 1_000_000);
        assert!(rt; lines.len() <= 160);
        self.board.pour(parts, lines, 1_000_000);
    }
}
