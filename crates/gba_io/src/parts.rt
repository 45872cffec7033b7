//! The core of a board.

ghost use Rattle.std.specs.Prelude.{◌≡◌, ◌≤◌};
ghost use Rattle.std.specs.Prelude.{◌&&◌, not};
ghost use Rattle.gba_devices.specs.State.{is_calm as are_calm};
ghost use Rattle.gba_io.specs.Units.{start_cycles as cycles_at_start};
ghost use Rattle.gba_serial.specs.Tell.{has_news};

use crate::Made;
use crate::serial::is_serial;
use gba_bus::{Bus, WaitControl};
use gba_devices::Devices;
use gba_devices::laws::{cycle_keeps, cycles_pass};
use gba_dma::Unit;
use gba_image::ConsoleImages;
use gba_mem::Memory;
use gba_numbers::MemoryName;
use gba_price_table::PriceTable;
use gba_screen::Screen;
use gba_serial::Serial;
use gba_terms::NoMemory;
use link_node::Incoming;
use std::alloc::Global;
use std::marker::Model;

/// An address outside the BIOS: what reads from there reads 0 in the BIOS, and so does DMA.
const OUTSIDE_BIOS: u32 = 0x4000;

/// The cycles that the first unit of a run costs more.
fn start_cycles(first: bool) -> u32
    ensures value { result ≡ cycles_at_start first }
    ensures most { result ≤ 2 }
{
    if first { 2 } else { 0 }
}

/// Whether nothing asks for more than an instruction, nor has the last step told anything.
pub(crate) fn is_calm(devices: &Devices, serial: &Serial) -> bool
    ensures { result ≡ (are_calm devices.now && not (has_news serial.now)) }
{
    devices.set().is_calm() && !serial.has_news()
}

/// The memories, the devices and the serial unit of a console, which its processor sees as a bus, and the lines that
/// are drawn of the present frame. Contracts see the record of the four.
#[derive(Drop)]
pub struct Core {
    pub(crate) screen: Screen,
    pub(crate) devices: Devices,
    pub(crate) serial: Serial,
    // whether nothing asks for more than an instruction
    pub(crate) calm: bool,
    // the prices of this step
    pub(crate) prices: PriceTable,
}

impl Model for Core {
    ghost use Rattle.std.specs.Prelude.{◌≡◌, ◌<◌, ◌^◌, ◌&&◌, not};
    ghost use Rattle.gba_devices.specs.State.{is_calm};
    ghost use Rattle.gba_io.specs.Core.{Core};
    ghost use Rattle.gba_serial.specs.Tell.{has_news};

    ghost Value = { Core };

    ghost view = { λ b. record {
      memory = b.screen.memory;
      devices = b.devices;
      serial = b.serial;
      lines = b.screen.lines;
    } };

    ghost invariant = { λ b.
        (b.prices ≡ b.devices.priced) × (b.calm ≡ (is_calm b.devices && not (has_news b.serial)))
        × (b.devices.clock < 2 ^ 40) };
}

impl Core {
    ghost use Rattle.std.specs.Prelude.{◌≡◌, ℕ, ◌+◌, ◌*◌, ◌^◌, ◌<◌, ◌≤◌, [], true, false, IfOk, length, option_map};
    ghost use Rattle.std.specs.Option.{option_map_or};
    ghost use Rattle.gba_dma.specs.Channels.{next_unit};
    ghost use Rattle.gba_devices.specs.Cycles.{after_cycles, draws_line, draws_within, makes_pair, makes_within};
    ghost use Rattle.gba_devices.specs.Samples.{left_sample, right_sample};
    ghost use Rattle.gba_devices.specs.State.{is_idle};
    ghost use Rattle.gba_image.specs.Checks.{SaveFits};
    ghost use Rattle.gba_io.specs.Core.{core_after, core_at_start, core_begun, core_cycled, core_half_listed, core_is_calm, core_is_idle, core_keyed, core_learned, core_rested, core_woken, length_named, memory_named};
    ghost use Rattle.gba_io.specs.Base.{frames_from};
    ghost use Rattle.gba_io.specs.Board.{lines_with};
    ghost use Rattle.gba_io.specs.Made.{with_frame};
    ghost use Rattle.std.specs.List.{concat};
    ghost use Rattle.gba_io.specs.Units.{core_after_unit, unit_cycles};

    /// A core at reset, at clock 0, from its images, which are dropped on refusal.
    pub(crate) fn new(
        alloc: Global,
        player: u32,
        count: u32,
        round: u64,
        images: ConsoleImages,
    ) -> Result<Core, NoMemory>
        requires player { player < count }
        requires count { count ≤ 4 }
        requires least_round { 2 ≤ round }
        requires most_round { round ≤ 2048 }
        requires save { SaveFits images.save images.backup }
        ensures { IfOk result (λ core. core
            ≡ core_at_start player count round images.bios images.cart images.save images.backup) }
    {
        let waits = WaitControl { value: 0 };
        let devices = Devices::new();
        let serial = Serial::new(player, count, round);
        Ok(Core {
            screen: Screen::new(alloc, Memory::new(alloc, images)?)?,
            calm: is_calm(&devices, &serial),
            devices,
            serial,
            prices: PriceTable::new(&waits),
        })
    }

    /// The clock: cycles of 16,777,216 Hz since reset.
    pub fn clock(&self) -> u64
        ensures value { result ≡ self.now.devices.clock }
        ensures most { result < 2 ^ 40 }
    {
        self.devices.clock()
    }

    /// The devices.
    pub fn devices(&self) -> &Devices
        ensures { result.now ≡ self.now.devices }
    {
        &self.devices
    }

    /// Whether nothing asks for more than an instruction: no halt, no interrupt that IME lets in, no
    /// DMA, no other prices, and the last step told the peers nothing.
    #[inline]
    pub fn is_calm(&self) -> bool
        ensures { result ≡ core_is_calm self.now }
    {
        self.calm
    }

    /// Whether the console is halted, and nothing asks for more than idling: no interrupt, no DMA, no other prices, and
    /// the last step told the peers nothing.
    pub fn is_idle(&self) -> bool
        ensures { result ≡ core_is_idle self.now }
    {
        self.devices.set().is_idle() && !self.serial.has_news()
    }

    /// Begins a step: its accesses take the prices of WAITCNT as it is, and what the last step told is told.
    pub fn begin(&mut self)
        ensures { self.new ≡ core_begun self.old }
    {
        let value = self.devices.set().waits();
        if value != self.devices.set().priced() {
            self.prices.renew(&WaitControl { value });
        }
        self.devices.begin();
        self.serial.fall_silent();
        self.calm = is_calm(&self.devices, &self.serial);
    }

    /// Makes these the pressed keys, 1 for pressed: A, B, Select, Start, Right, Left, Up, Down, R, L are bits 0 to 9.
    #[tactic(auto, unfolding(gba_devices::specs::Registers::keyed))]
    pub fn set_keys(&mut self, pressed: u16)
        ensures { self.new ≡ core_keyed pressed self.old }
    {
        self.devices.set_keys(pressed);
        self.calm = is_calm(&self.devices, &self.serial);
    }

    /// Lets so many cycles pass in which no device moves: the console is off.
    pub fn rest(&mut self, cycles: u32)
        requires { self.old.devices.clock + cycles < 2 ^ 40 }
        ensures { self.new ≡ core_rested cycles self.old }
    {
        self.devices.rest(cycles);
        self.calm = is_calm(&self.devices, &self.serial);
    }

    /// Takes a due signal while the console is off: its sender's mode is known from then on, and the rest
    /// of it is lost.
    pub fn learn(&mut self, due: &Incoming)
        ensures { self.new ≡ core_learned due.now self.old }
    {
        self.serial.learn(due);
        self.calm = is_calm(&self.devices, &self.serial);
    }

    /// Ends the halt.
    pub fn wake(&mut self)
        ensures { self.new ≡ core_woken self.old }
    {
        self.devices.wake();
        self.calm = is_calm(&self.devices, &self.serial);
    }

    /// Does a DMA unit, and answers its cycles.
    #[tactic(auto, unfolding(crate::specs::Units::core_after_unit))]
    fn do_unit(&mut self, unit: Unit) -> u32
        requires { unit.channel < 4 }
        ensures cycles { result ≡ unit_cycles unit self.old }
        ensures core { self.new ≡ core_after_unit unit self.old }
    {
        let sequential = !unit.first;
        let (value, read) = self.load(OUTSIDE_BIOS, unit.source, unit.width, sequential);
        let written = self.store(unit.target, unit.width, value, sequential);
        self.devices.end_unit(unit.channel);
        self.calm = is_calm(&self.devices, &self.serial);
        read + written + start_cycles(unit.first)
    }

    /// Does one DMA unit of the lowest active channel, and answers its cycles. None exactly where no channel is active.
    pub fn dma_unit(&mut self) -> Option<u32>
        ensures cycles { result ≡ option_map (λ unit. unit_cycles unit self.old) (next_unit self.old.devices.channels) }
        ensures core { self.new
            ≡ option_map_or (λ unit. core_after_unit unit self.old) (next_unit self.old.devices.channels) self.old }
    {
        match self.devices.set().next_unit() {
            None => None,
            Some(unit) => Some(self.do_unit(unit)),
        }
    }

    /// Moves the devices by so many cycles where nothing happens in them, and answers whether it did.
    #[inline]
    pub(crate) fn owe(&mut self, cycles: u32) -> bool
        requires few { cycles ≤ 512 }
        requires clock { self.old.devices.clock + cycles < 2 ^ 40 }
        ensures owed { result ≡ true
            → (self.new ≡ core_after cycles self.old) × (makes_within cycles self.old.devices ≡ false) }
        ensures idle { is_idle self.new.devices ≡ is_idle self.old.devices }
        ensures serial { self.new.serial ≡ self.old.serial }
        ensures left { result ≡ false → self.new ≡ self.old }
    {
        cycles_pass();
        self.devices.owe(cycles)
    }

    /// Moves the devices by as many of so many steps of so many cycles as nothing happens in, and answers how many.
    pub(crate) fn owe_steps(&mut self, cycles: u32, most: u32) -> u32
        requires some { 1 ≤ cycles }
        requires clock { self.old.devices.clock + 1024 < 2 ^ 40 }
        ensures core { self.new ≡ core_after (cycles * result) self.old }
        ensures silent { makes_within (cycles * result) self.old.devices ≡ false }
        ensures idle { (steps : ℕ) → steps ≤ result
            → is_idle (after_cycles (cycles * steps) self.old.devices) ≡ is_idle self.old.devices }
        ensures most { result ≤ most }
    {
        cycles_pass();
        self.devices.owe_steps(cycles, most)
    }

    /// Moves the devices by as many of so many steps of so many cycles as nothing happens in but pairs of samples, and
    /// answers how many.
    pub(crate) fn owe_unheard(&mut self, cycles: u32, most: u32) -> u32
        requires some { 1 ≤ cycles }
        requires clock { self.old.devices.clock + 1024 < 2 ^ 40 }
        ensures core { self.new ≡ core_after (cycles * result) self.old }
        ensures clock { self.new.devices.clock ≡ self.old.devices.clock + cycles * result }
        ensures lineless { draws_within (cycles * result) self.old.devices ≡ false }
        ensures idle { (steps : ℕ) → steps ≤ result
            → is_idle (after_cycles (cycles * steps) self.old.devices) ≡ is_idle self.old.devices }
        ensures few { cycles * result ≤ 1024 }
        ensures most { result ≤ most }
    {
        cycles_pass();
        self.devices.owe_unheard(cycles, most)
    }

    /// A device cycle where nothing happens in it but a pair of samples, and whether it passed.
    pub(crate) fn owe_pair(&mut self) -> bool
        requires { self.old.devices.clock + 1 < 2 ^ 40 }
        ensures owed { result ≡ true → (self.new ≡ core_cycled self.old) × (draws_line self.old.devices ≡ false) }
        ensures left { result ≡ false → self.new ≡ self.old }
    {
        cycle_keeps();
        self.devices.owe_pair()
    }

    /// Moves the devices by as many of so many cycles as nothing happens in, and answers how many.
    pub(crate) fn pass_quietly(&mut self, most: u32) -> u32
        requires { self.old.devices.clock + most < 2 ^ 40 }
        ensures core { self.new ≡ core_after result self.old }
        ensures silent { makes_within result self.old.devices ≡ false }
        ensures most { result ≤ most }
    {
        cycles_pass();
        self.devices.pass_quietly(most)
    }

    /// Whether the next cycle draws a line of the picture.
    pub(crate) fn draws_line(&self) -> bool
        ensures { result ≡ draws_line self.now.devices }
    {
        self.devices.draws_line()
    }

    /// Draws the line of the picture's place as memories and registers are now. It is the next one of the frame.
    pub(crate) fn draw_line(&mut self)
        requires next { length self.old.lines ≡ self.old.devices.place.line }
        requires line { self.old.devices.place.line < 160 }
        ensures { self.new ≡ record self.old { lines = lines_with self.old } }
    {
        let line = self.devices.place().line;
        self.screen.draw_line(self.devices.set().picture(), line);
    }

    /// How many lines of the present frame are drawn, 160 at most.
    pub fn lines_drawn(&self) -> u32
        ensures value { result ≡ length self.now.lines }
        ensures most { result ≤ 160 }
    {
        self.screen.lines_drawn()
    }

    /// Ends the frame, whose lines are all drawn: it is made, and the next one has no line yet.
    pub(crate) fn end_frame(&mut self, made: &mut Made)
        requires whole { length self.old.lines ≡ 160 }
        requires room { made.old.frame_count < made.old.base.frames + frames_from made.old.base made.old.until }
        ensures core { self.new ≡ record self.old { lines = [] } }
        ensures made { made.new ≡ with_frame true (concat self.old.lines) made.old }
    {
        made.add_frame(&mut self.screen);
        self.screen.end_frame();
    }

    /// Whether the next cycle makes a pair of samples.
    pub(crate) fn makes_pair(&self) -> bool
        ensures { result ≡ makes_pair self.now.devices }
    {
        self.devices.makes_pair()
    }

    /// A device cycle.
    pub(crate) fn cycle(&mut self)
        requires { self.old.devices.clock + 1 < 2 ^ 40 }
        ensures { self.new ≡ core_cycled self.old }
    {
        cycle_keeps();
        self.devices.cycle();
        self.calm = is_calm(&self.devices, &self.serial);
    }

    /// What the sound queues and the tone channels sound like, left then right.
    pub(crate) fn sample(&self) -> (i16, i16)
        ensures left { result.0 ≡ left_sample self.now.devices }
        ensures right { result.1 ≡ right_sample self.now.devices }
    {
        self.devices.sample()
    }

    /// What is stored at the halfword of an offset from 04000000h; of bits that are only read, what they read.
    #[tactic(auto, unfolding(crate::specs::Core::core_half_listed))]
    pub fn io_half(&self, offset: u32) -> u16
        ensures { result ≡ core_half_listed offset self.now }
    {
        if is_serial(offset) {
            self.serial.listed(offset)
        } else {
            self.devices.half_listed(offset)
        }
    }

    /// The serial unit.
    pub fn serial(&self) -> &Serial
        ensures { result.now ≡ self.now.serial }
    {
        &self.serial
    }

    /// The bytes of a memory from its front up, and none of the I/O registers.
    pub fn memory(&self, name: MemoryName) -> &[u8]
        ensures bytes { result.now ≡ memory_named name self.now.memory }
        ensures length { length result.now ≡ length_named name self.now.memory }
    {
        match name {
            MemoryName::Io => &[],
            MemoryName::Wram => self.screen.memory().work(),
            MemoryName::Iwram => self.screen.memory().inner(),
            MemoryName::Palette => self.screen.memory().palette(),
            MemoryName::Vram => self.screen.memory().vram(),
            MemoryName::Oam => self.screen.memory().oam(),
            MemoryName::Backup => self.screen.memory().backup_bytes(),
        }
    }
}
