//! A console as the tests play it: each call is made where it may be made, and what it shows are numbers and lists.

ghost use Rattle.std.specs.Prelude.{◌≡◌, ◌<◌, IsTrue};
ghost use Rattle.gba_image.specs.Checks.{SaveFits};
ghost use Rattle.gba_io.specs.Drawing.{lines_drawn};

use gba_asm::assemble;
use gba_console::{Console, ConsoleParts, KeyState, What};
use gba_devices::Devices;
use gba_flash::{FlashMachine, FlashState};
use gba_freeze::step_line;
use gba_image::{Backup, Bios, Cartridge, ConsoleImages};
use gba_io::{Board, BoardParts, Counts, MemoryName, Room};
use gba_mem::MemoryPart;
use gba_ppu_reg::Position;
use gba_serial::Transfer;
use link_node::{Incoming, LinkMode, Node, Signal};
use link_trials::may_take;
use std::alloc::Global;
use std::process::Abort;
use std::test::Fail;

/// A place on a cable with one delay, in cycles.
#[derive(Clone, Copy)]
pub struct Seat {
    pub player: u32,
    pub count: u32,
    pub delay: u64,
}

/// The only console of a cable.
pub const ALONE: Seat = Seat {
    player: 0,
    count: 1,
    delay: 512,
};

/// A BIOS that begins with these bytes and is 0 behind them.
fn bios_of(mut bytes: Vec<u8>) -> Result<Bios, Fail> {
    bytes.resize(16_384, 0)?;
    Ok(Bios::check(bytes).ok().ok_or("no BIOS")?)
}

/// These words behind what there is.
fn add_words(bytes: &mut Vec<u8>, words: &[u32]) -> Result<(), Fail> {
    for word in words {
        bytes.extend_from_slice(&word.to_le_bytes())?;
    }
    Ok(())
}

/// Images of a BIOS alone.
fn images_of(bios: Bios) -> ConsoleImages {
    ConsoleImages {
        bios,
        cart: None,
        save: None,
        backup: Backup::Sram,
    }
}

/// A BIOS of these words.
pub fn images_of_words(alloc: Global, words: &[u32]) -> Result<ConsoleImages, Fail> {
    let mut bytes = Vec::new(alloc);
    add_words(&mut bytes, words)?;
    Ok(images_of(bios_of(bytes)?))
}

/// A BIOS of an assembled source.
pub fn images_of_source(alloc: Global, source: &[u8]) -> Result<ConsoleImages, Fail> {
    let Ok(bytes) = assemble(alloc, source) else {
        return Err("no source")?;
    };
    Ok(images_of(bios_of(bytes)?))
}

/// A cartridge with these words from C0h up, and 0 elsewhere but in its header.
pub fn cartridge_of(alloc: Global, words: &[u32]) -> Result<Cartridge, Fail> {
    let mut bytes = vec![in alloc; 0; 0xC0]?;
    bytes[0xB2] = 0x96;
    bytes[0xBD] = 0x51;
    add_words(&mut bytes, words)?;
    Ok(Cartridge::check(bytes).ok().ok_or("no cartridge")?)
}

/// Whether a save, where there is one, has the bytes of the images' backup.
fn fits(images: &ConsoleImages) -> bool
    ensures { IsTrue result → SaveFits images.now.save images.now.backup }
{
    match &images.save {
        Some(save) => save.bytes().len() == images.backup.length(),
        None => true,
    }
}

/// How many lines are drawn of a frame at a place of the picture.
fn lines_at(place: &Position) -> usize
    requires { place.now.line < 228 }
    ensures { result ≡ lines_drawn place.now }
{
    if 160 <= place.line || (place.line == 159 && 1006 <= place.dot) {
        0
    } else if 1006 <= place.dot {
        place.line as usize + 1
    } else {
        place.line as usize
    }
}

/// A console that is played.
#[derive(Drop)]
pub struct Play {
    console: Console,
}

impl Play {
    /// A console at its reset, which is off below a clock.
    pub fn new(
        alloc: Global,
        seat: Seat,
        off: u64,
        images: ConsoleImages,
        keys: &[KeyState],
        room: Room,
    ) -> Result<Play, Fail> {
        let Seat {
            player,
            count,
            delay,
        } = seat;
        if player >= count || count > 4 || delay == 0 || delay > 1024 {
            return Err("no seat")?;
        }
        if room.until > 1 << 24 || off > 1 << 38 {
            return Err("a late clock")?;
        }
        if !fits(&images) {
            return Err("another backup's save")?;
        }
        let keys = Vec::from_slice(alloc, keys)?;
        let round = 2 * delay;
        Ok(Play {
            console: Console::new(alloc, player, count, round, off, images, keys, room)?,
        })
    }

    pub fn clock(&self) -> u64 {
        self.console.clock()
    }

    pub fn was(&self) -> u64 {
        self.console.was()
    }

    /// All registers, in the order of the state file.
    pub fn registers(&self) -> [u32; 37] {
        self.console.all()
    }

    /// One of them.
    pub fn register<R: Abort>(&self, rt: &R, place: usize) -> u32 {
        let registers = self.console.all();
        assert!(rt; place < 37);
        registers[place]
    }

    /// What the last step did.
    pub fn last(&self) -> What {
        self.console.last()
    }

    /// The changes of its keys, those that are applied too.
    pub fn keys(&self) -> &[KeyState] {
        self.console.keys()
    }

    /// The clock below which it is off.
    pub fn off(&self) -> u64 {
        self.console.off()
    }

    /// The line of the last step.
    pub fn line(&self, alloc: Global) -> Result<Vec<u8>, Fail> {
        let mut line = Vec::new(alloc);
        step_line(alloc, &self.console, &mut line)?;
        Ok(line)
    }

    pub fn counts(&self) -> Counts {
        self.console.counts()
    }

    pub fn frames(&self) -> &[u8] {
        self.console.frames()
    }

    pub fn samples(&self) -> &[u8] {
        self.console.samples()
    }

    pub fn words(&self) -> &[Transfer] {
        self.console.words()
    }

    fn board(&self) -> &Board {
        self.console.board()
    }

    /// A halfword of the I/O registers as it is stored.
    pub fn io_half(&self, offset: u32) -> u16 {
        self.board().core.io_half(offset)
    }

    pub fn memory(&self, name: MemoryName) -> &[u8] {
        self.board().core.memory(name)
    }

    pub fn is_halted(&self) -> bool {
        self.board().core.devices().set().halted()
    }

    /// Whether an enabled interrupt is requested.
    pub fn is_pending(&self) -> bool {
        self.board().core.devices().set().pending()
    }

    /// Whether a DMA channel's run goes on.
    pub fn is_active<R: Abort>(&self, rt: &R, channel: u32) -> bool {
        assert!(rt; channel < 4);
        self.board().core.devices().set().channel(channel).active
    }

    /// The line and the dot of the picture.
    pub fn place(&self) -> (u32, u32) {
        let place = self.board().core.devices().place();
        (place.line, place.dot)
    }

    /// The mode that a player told last, as far as this console has learned it.
    pub fn known<R: Abort>(&self, rt: &R, player: u32) -> LinkMode {
        assert!(rt; player < 4);
        self.board().core.serial().known(player)
    }

    /// A step.
    pub fn step<R: Abort>(&mut self, rt: &R) {
        assert!(rt; self.console.clock() < self.console.until());
        self.console.step();
    }

    /// A step that takes these signals.
    pub fn turn<R: Abort>(&mut self, rt: &R, due: &[Incoming]) -> Option<Signal> {
        assert!(rt; self.console.clock() < self.console.until());
        assert!(rt; may_take(due, self.console.was(), self.console.clock()));
        self.console.turn(due)
    }

    /// Makes steps up to a clock.
    pub fn run<R: Abort>(&mut self, rt: &R, until: u64) {
        assert!(rt; until <= self.console.until());
        self.console.run_to(until);
    }

    /// Empties the lists of what it made, and makes this the end of their room.
    pub fn forget<R: Abort>(&mut self, rt: &R, until: u64) {
        assert!(rt; until <= 1 << 25 && self.console.clock() <= until + 511);
        assert!(rt; until <= self.console.clock() + 16_777_216);
        self.console.forget(until);
    }

    /// The end of the room.
    pub fn until(&self) -> u64 {
        self.console.until()
    }

    /// Pours these devices and counts into a console, beside its own registers and serial unit, and makes its last step
    /// one of four cycles. So many key changes are applied.
    pub fn pour<R: Abort>(
        &mut self,
        rt: &R,
        devices: Devices,
        counts: Counts,
        applied: usize,
        lines: &[[u8; 480]],
    ) -> Result<(), Fail> {
        let clock = devices.clock();
        assert!(rt; 4 <= clock && clock <= 1 << 24);
        assert!(rt; lines.len() == lines_at(&devices.place()));
        assert!(rt; counts.frames < 1 << 40 && counts.samples < 1 << 40 && counts.words < 1 << 40);
        assert!(rt; applied <= self.console.keys().len());
        let parts = ConsoleParts {
            registers: self.console.registers().clone()?,
            board: BoardParts {
                devices,
                serial: *self.board().core.serial(),
                counts,
            },
            applied,
            was: clock - 4,
        };
        self.console.pour(parts, lines, clock + 10_000);
        Ok(())
    }

    /// Puts words at the front of the inner RAM.
    pub fn put_words<R: Abort>(&mut self, rt: &R, words: &[u32; 2]) {
        let mut bytes = [0; 8];
        bytes[..4].copy_from_slice(&words[0].to_le_bytes());
        bytes[4..].copy_from_slice(&words[1].to_le_bytes());
        self.console.set_bytes(MemoryPart::Inner, 0, &bytes);
        assert_eq!(rt;
            self.memory(MemoryName::Iwram).get(..8),
            Some(bytes.as_slice())
        );
    }

    pub fn clear_memories(&mut self) {
        self.console.clear_memories();
    }

    /// Lets the flash await a byte, and answers what it then remembers.
    pub fn await_byte(&mut self) -> Option<FlashMachine> {
        self.console.restore_flash(FlashMachine {
            state: FlashState::Program,
            armed: false,
            identify: false,
            bank: 0,
        });
        self.board().core.flash_machine()
    }
}

/// Runs to a clock, and asserts the clock that it comes to.
pub fn comes_to<R: Abort>(rt: &R, console: &mut Play, until: u64, clock: u64) {
    console.run(rt, until);
    assert_eq!(rt; console.clock(), clock, "until {until}");
}
