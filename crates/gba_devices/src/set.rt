//! The devices, moved at once.

ghost use Rattle.std.specs.Prelude.{◌≡◌, ◌≤ℤ◌, ◌+ℤ◌, pos, negsuc};
ghost use Rattle.gba_devices.specs.Registers.{system_rows};
ghost use Rattle.gba_register.specs.Rows.{row_at};

use crate::laws::skips_cycles;
use crate::parts::DeviceParts;
use crate::place::{FARTHEST, Place};
use crate::registers::{Owner, owner_of, queue_of};
use gba_bus::Width;
use gba_dma::{Channel, Channels, DmaEvent, Unit};
use gba_irq::{Halt, Interrupts, Keypad};
use gba_ppu_reg::{PictureRegisters, Position, Reference};
use gba_psg::Tones;
use gba_register::{Halfwords, store};
use gba_sound::Queues;
use gba_timer::{Timer, Timers};
use gba_word::{bit, bits};
use std::marker::Model;

/// The bits of WAITCNT that read, which are those that a write stores.
#[tactic(auto, unfolding(crate::specs::Registers::system_rows, gba_register::specs::Rows::row_at))]
fn wait_bits() -> u16
    ensures read { result ≡ (row_at system_rows 0x204).read_mask }
    ensures write { result ≡ (row_at system_rows 0x204).write_mask }
{
    0x5FFF
}

/// The bits of POSTFLG that read.
#[tactic(auto, unfolding(crate::specs::Registers::system_rows, gba_register::specs::Rows::row_at))]
fn post_bits() -> u16
    ensures { result ≡ (row_at system_rows 0x300).read_mask }
{
    0x0001
}

/// A sample of the queues, and what the tone channels add to it.
fn louder(sample: i16, more: i32) -> i16
    requires least { negsuc 16383 ≤ℤ sample }
    requires most { sample ≤ℤ pos 16256 }
    requires some { pos 0 ≤ℤ more }
    requires few { more ≤ℤ pos 15360 }
    ensures { result ≡ sample +ℤ more }
{
    sample + more as i16
}

/// The devices of a board as they last moved. Contracts see the record of the same numbers.
#[derive(Debug, Drop)]
pub struct DeviceSet {
    clock: u64,
    timers: Timers,
    queues: Queues,
    tones: Tones,
    channels: Channels,
    place: Place,
    picture: PictureRegisters,
    interrupts: Interrupts,
    keypad: Keypad,
    waits: u16,
    priced: u16,
    posted: bool,
    halt: Halt,
}

impl Model for DeviceSet {
    ghost use Rattle.gba_devices.specs.State.{Devices};

    ghost Value = { Devices };

    ghost view = { λ d. record {
      clock = d.clock;
      timers = d.timers;
      sound = d.queues;
      tones = d.tones;
      channels = d.channels;
      place = d.place;
      picture = d.picture;
      interrupts = d.interrupts;
      keys = d.keypad;
      waits = d.waits;
      priced = d.priced;
      posted = d.posted;
      halted = d.halt.halted;
    } };
}

impl DeviceSet {
    ghost use Rattle.std.specs.Prelude.{◌≡◌, ◌+◌, ◌*◌, ◌^◌, ◌≤◌, ◌<◌, true, ◌||◌, bit_or, length, IfSome};
    ghost use Rattle.gba_terms.specs.Bits.{bit};
    ghost use Rattle.gba_dma.specs.Channels.{channel_at, next_unit};
    ghost use Rattle.gba_irq.specs.Interrupts.{is_pending, with_request, with_request_if};
    ghost use Rattle.gba_ppu_reg.specs.Position.{IsPosition, after_cycles as place_after};
    ghost use Rattle.gba_ppu_reg.specs.Registers.{picture_kept, picture_mode, picture_read_at, reference_of};
    ghost use Rattle.gba_psg.specs.Registers.{tones_read, tones_written};
    ghost use Rattle.gba_psg.specs.Tones.{after_cycles as tones_after};
    ghost use Rattle.gba_sound.specs.Queues.{queue_at, sound_read, sound_written};
    ghost use Rattle.gba_timer.specs.Timers.{requests};
    ghost use Rattle.gba_devices.specs.Cycles.{asked_by, at_hblank, at_line, at_place, device_cycle, pairless, placed, quiet, rung, skipped, sounded, status_of, with_timer_requests};
    ghost use Rattle.gba_devices.specs.Parts.{devices_of};
    ghost use Rattle.gba_devices.specs.Registers.{half_listed, io_written, keyed, owner_of as owner_in, listed_of, with_key_control};
    ghost use Rattle.gba_devices.specs.Samples.{left_sample, right_sample};
    ghost use Rattle.gba_devices.specs.State.{after_dma_unit, asks_entry, begun, devices_at_reset, is_calm, is_idle, rested, woken};

    /// The devices at reset.
    pub(crate) fn new() -> DeviceSet
        ensures { result ≡ devices_at_reset }
    {
        DeviceSet {
            clock: 0,
            timers: Timers::new(),
            queues: Queues::new(),
            tones: Tones::new(),
            channels: Channels::new(),
            place: Place::new(),
            picture: PictureRegisters::new(),
            interrupts: Interrupts::new(),
            keypad: Keypad::new(),
            waits: 0,
            priced: 0,
            posted: false,
            halt: Halt { halted: false },
        }
    }

    /// The devices of these parts.
    pub(crate) fn of(parts: DeviceParts) -> DeviceSet
        requires { IsPosition parts.place }
        ensures { result ≡ devices_of parts }
    {
        DeviceSet {
            clock: parts.clock,
            timers: parts.timers,
            queues: parts.queues,
            tones: parts.tones,
            channels: parts.channels,
            place: Place::of(parts.place),
            picture: parts.picture,
            interrupts: parts.interrupts,
            keypad: parts.keypad,
            waits: parts.waits,
            priced: parts.waits,
            posted: parts.posted,
            halt: Halt {
                halted: parts.halted,
            },
        }
    }

    pub(crate) fn clock(&self) -> u64
        ensures { result ≡ self.now.clock }
    {
        self.clock
    }

    /// Lets so many cycles pass in which no device moves.
    pub(crate) fn rest(&mut self, cycles: u32)
        requires { self.old.clock + cycles < 2 ^ 64 }
        ensures { self.new ≡ rested cycles self.old }
    {
        self.clock += u64::from(cycles);
    }

    /// WAITCNT as it is.
    pub fn waits(&self) -> u16
        ensures { result ≡ self.now.waits }
    {
        self.waits
    }

    /// WAITCNT by which the accesses of this step are priced.
    pub fn priced(&self) -> u16
        ensures { result ≡ self.now.priced }
    {
        self.priced
    }

    /// Whether the console is halted.
    pub fn halted(&self) -> bool
        ensures { result ≡ self.now.halted }
    {
        self.halt.halted
    }

    /// IME.
    pub fn master(&self) -> bool
        ensures { result ≡ self.now.interrupts.master }
    {
        self.interrupts.master
    }

    /// Whether an enabled interrupt is requested, whatever IME says.
    pub fn pending(&self) -> bool
        ensures { result ≡ is_pending self.now.interrupts }
    {
        self.interrupts.pending()
    }

    pub(crate) fn timers(&self) -> Timers
        ensures { result ≡ self.now.timers }
    {
        self.timers
    }

    /// A DMA channel by its number, which is below 4.
    pub fn channel(&self, number: u32) -> Channel
        requires { number < 4 }
        ensures { result ≡ channel_at number self.now.channels }
    {
        self.channels.channel(number)
    }

    /// The current byte of sound queue A or B, which are 0 and 1: a signed sample.
    pub fn queue_current(&self, queue: u32) -> u8
        requires { queue < 2 }
        ensures { result ≡ (queue_at queue self.now.sound).current }
    {
        self.queues.current(queue)
    }

    /// The bytes that sound queue A or B holds, oldest first.
    pub fn queue(&self, queue: u32) -> &[u8]
        requires { queue < 2 }
        ensures bytes { result.now ≡ (queue_at queue self.now.sound).bytes }
        ensures most { length result.now ≤ 32 }
    {
        self.queues.held(queue)
    }

    /// The unit that DMA does next, of the lowest active channel. None exactly where none is active.
    pub fn next_unit(&self) -> Option<Unit>
        ensures unit { result ≡ next_unit self.now.channels }
        ensures channel { IfSome result (λ unit. unit.channel < 4) }
    {
        self.channels.next_unit()
    }

    /// Ends a unit of a DMA channel, which is below 4.
    #[tactic(auto, unfolding(crate::specs::State::after_dma_unit))]
    pub(crate) fn end_unit(&mut self, channel: u32)
        requires { channel < 4 }
        ensures { self.new ≡ after_dma_unit channel self.old }
    {
        if let Some(number) = self.channels.unit_done_of(channel) {
            self.interrupts.raise(8 + number);
        }
    }

    /// The place of the picture after so many quiet cycles.
    #[tactic(auto, unfolding(crate::specs::Cycles::quiet))]
    pub(crate) fn place_after(&self, count: u32) -> Position
        requires { count ≤ quiet self.now }
        ensures place { result ≡ place_after count self.now.place }
        ensures sound { IsPosition result }
    {
        skips_cycles();
        self.place.after(count)
    }

    /// The mode of the picture, from 0 to 7: bits 0 to 2 of DISPCNT.
    pub fn mode(&self) -> u32
        ensures { result ≡ picture_mode self.now.picture }
    {
        self.picture.mode()
    }

    /// The registers of the picture.
    pub fn picture(&self) -> &PictureRegisters
        ensures { result.now ≡ self.now.picture }
    {
        &self.picture
    }

    /// The inner reference point of background 2 or 3.
    pub fn reference(&self, background: u32) -> Reference
        requires least { 2 ≤ background }
        requires most { background ≤ 3 }
        ensures { result ≡ reference_of background self.now.picture }
    {
        self.picture.reference(background)
    }

    /// The tone channels after so many quiet cycles.
    pub(crate) fn tones_after(&self, count: u32) -> Tones
        requires { count ≤ 1024 }
        ensures { result ≡ tones_after count self.now.tones }
    {
        let mut tones = self.tones;
        tones.advance(count);
        tones
    }

    /// What the queues and the tone channels sound like after so many quiet cycles, left then right.
    pub(crate) fn sample_after(&self, count: u32) -> (i16, i16)
        requires { count ≤ 1024 }
        ensures left { result.0 ≡ left_sample (skipped count self.now) }
        ensures right { result.1 ≡ right_sample (skipped count self.now) }
    {
        let (left, right) = self.queues.sample();
        let (more_left, more_right) = self.tones.amount_after(count);
        (louder(left, more_left), louder(right, more_right))
    }

    fn asks_entry(&self) -> bool
        ensures { result ≡ asks_entry self.now }
    {
        self.interrupts.master && self.interrupts.pending()
    }

    /// Whether nothing asks for more than an instruction: no halt, no interrupt that IME lets in, no active DMA
    /// channel, and no other prices.
    #[inline]
    pub fn is_calm(&self) -> bool
        ensures { result ≡ is_calm self.now }
    {
        !self.halt.halted
            && !self.asks_entry()
            && !self.channels.is_moving()
            && self.waits == self.priced
    }

    /// Whether the console is halted, and nothing asks for more than idling: no interrupt, no DMA, and no other prices.
    pub fn is_idle(&self) -> bool
        ensures { result ≡ is_idle self.now }
    {
        self.halt.halted
            && !self.interrupts.pending()
            && !self.channels.is_moving()
            && self.waits == self.priced
    }

    /// Takes the prices of WAITCNT as it is.
    pub(crate) fn begin(&mut self)
        ensures { self.new ≡ begun self.old }
    {
        self.priced = self.waits;
    }

    /// Ends the halt.
    pub(crate) fn wake(&mut self)
        ensures { self.new ≡ woken self.old }
    {
        self.halt.halted = false;
    }

    /// Requests the interrupt of a bit of IF.
    pub(crate) fn request(&mut self, bit: u32)
        requires { bit < 14 }
        ensures { self.new ≡ record self.old { interrupts = with_request bit self.old.interrupts } }
    {
        self.interrupts.raise(bit);
    }

    /// The same where it is asked for.
    fn request_if(&mut self, asked: bool, bit: u32)
        requires { bit < 14 }
        ensures { self.new ≡ record self.old { interrupts = with_request_if asked bit self.old.interrupts } }
    {
        if asked {
            self.request(bit);
        }
    }

    /// Makes these the pressed keys.
    #[tactic(auto, unfolding(crate::specs::Registers::keyed))]
    pub(crate) fn set_keys(&mut self, pressed: u16)
        ensures { self.new ≡ keyed pressed self.old }
    {
        let rose = self.keypad.set(pressed);
        self.request_if(rose, 12);
    }

    fn control_keys(&mut self, value: u16)
        ensures { self.new ≡ with_key_control value self.old }
    {
        let rose = self.keypad.control(value);
        self.request_if(rose, 12);
    }

    /// What is stored at a halfword of the picture's registers while the picture is at a place, and of bits that are
    /// only read what they read.
    pub(crate) fn picture_listed(&self, offset: u32, at: &Position) -> u16
        ensures { result ≡ bit_or (picture_kept offset self.now.picture)
            (picture_read_at offset at.now self.now.picture) }
    {
        self.picture.kept(offset) | self.picture.read_at(offset, at)
    }

    /// What reads at SOUNDCNT_H, SOUNDCNT_X or SOUNDBIAS while the tone channels are these.
    pub(crate) fn sound_listed(&self, offset: u32, tones: &Tones) -> u16
        ensures { result ≡ bit_or (sound_read offset self.now.sound) (tones_read offset tones.now) }
    {
        self.queues.read(offset) | tones.read(offset)
    }

    /// What is stored at a halfword, for the state file.
    #[tactic(auto, unfolding(crate::specs::Registers::half_listed, crate::specs::Registers::half_read))]
    pub(crate) fn half_listed(&self, offset: u32) -> u16
        ensures value { result ≡ half_listed offset self.now }
        ensures whole { result ≡ listed_of (owner_in offset) offset self.now }
    {
        match owner_of(offset) {
            Owner::PictureBlock => self.picture_listed(offset, &self.place.at()),
            Owner::ToneBlock => self.tones.kept(offset),
            Owner::SoundBlock => self.queues.read(offset) | self.tones.read(offset),
            Owner::DmaBlock => self.channels.kept(offset),
            Owner::TimerBlock => self.timers.kept(offset),
            Owner::KeyBlock => self.keypad.read(offset),
            Owner::InterruptBlock => self.interrupts.read(offset),
            Owner::WaitControl => self.waits & wait_bits(),
            Owner::PostFlag => u16::from(self.posted) & post_bits(),
            Owner::Nobody => 0,
        }
    }

    /// Writes POSTFLG, and halts where the write covers byte 301h.
    fn write_post(&mut self, value: u16, lanes: u16)
        ensures { self.new ≡ record self.old { posted = bit value 0; halted = self.old.halted || bit lanes 8 } }
    {
        self.posted = bit(u32::from(value), 0);
        self.halt.halted = self.halt.halted || bit(u32::from(lanes), 8);
    }

    /// Writes SOUNDCNT_H, SOUNDCNT_X or SOUNDBIAS: direct sound and the tone channels take their bits of it.
    fn write_sound(&mut self, offset: u32, value: u16)
        ensures { self.new
            ≡ record self.old {
              sound = sound_written offset value self.old.sound;
              tones =
                  tones_written offset value self.old.tones;
            } }
    {
        self.queues.write(offset, value);
        self.tones.write(offset, value);
    }

    /// Writes the low bits of a value, as many as the width has. A word that is a queue's goes into it.
    pub(crate) fn store(&mut self, offset: u32, width: Width, value: u32)
        ensures { self.new ≡ io_written offset width value self.old }
    {
        match queue_of(offset, width) {
            Some(queue) => {
                self.queues.push_word(queue, value);
            }
            None => store(self, (), offset, width, value),
        }
    }

    /// Requests the interrupts of timers that overflow.
    #[tactic(auto, using(crate::proofs::Passing::none_requested))]
    fn request_timers(&mut self, mark: u8)
        ensures { self.new ≡ with_timer_requests mark self.old }
    {
        if mark != 0 {
            self.interrupts.raised |= 8 * u16::from(self.timers.requests(mark));
        }
    }

    /// The queues of a timer that overflows take bytes, and ask for DMA.
    #[tactic(auto, unfolding(crate::specs::Cycles::rung, crate::specs::Cycles::asked_by))]
    #[inline(never)]
    fn ring_out(&mut self, timer: u32)
        ensures { self.new ≡ rung timer true self.old }
    {
        let asked = self.queues.overflow(timer);
        if asked.a {
            self.channels.trigger(DmaEvent::QueueA);
        }
        if asked.b {
            self.channels.trigger(DmaEvent::QueueB);
        }
    }

    /// The same where the timer overflows, and else nothing.
    #[tactic(auto, unfolding(crate::specs::Cycles::rung))]
    #[inline]
    fn ring(&mut self, timer: u32, rings: bool)
        ensures { self.new ≡ rung timer rings self.old }
    {
        if rings {
            self.ring_out(timer);
        }
    }

    /// The clock, the timers, the queues and the tone channels move by a cycle.
    #[tactic(auto, unfolding(crate::specs::Cycles::sounded, crate::specs::Cycles::rung, gba_psg::specs::Tones::after_cycles))]
    fn sound(&mut self)
        requires { self.old.clock < 2 ^ 63 }
        ensures devices { self.new ≡ sounded self.old }
        ensures clock { self.new.clock ≡ self.old.clock + 1 }
    {
        self.clock += 1;
        let mark = self.timers.cycle();
        self.request_timers(mark);
        self.ring(0, bit(u32::from(mark), 0));
        self.ring(1, bit(u32::from(mark), 1));
        self.tones.advance(1);
    }

    /// DISPSTAT as it is stored.
    fn status(&self) -> u32
        ensures { result ≡ status_of self.now.picture }
    {
        u32::from(self.picture.kept(0x004))
    }

    /// HBlank begins.
    #[tactic(auto, unfolding(crate::specs::Cycles::at_hblank))]
    fn begin_hblank(&mut self)
        ensures { self.new ≡ at_hblank self.old }
    {
        let asked = bit(self.status(), 4);
        self.request_if(asked, 1);
        if self.place.at().line < 160 {
            self.channels.trigger(DmaEvent::HBlank);
            self.picture.next_line();
        }
    }

    /// A line begins.
    #[tactic(auto, unfolding(crate::specs::Cycles::at_line))]
    fn begin_line(&mut self)
        ensures { self.new ≡ at_line self.old }
    {
        let status = self.status();
        let line = self.place.at().line;
        self.request_if(line == bits(status, 8, 8) && bit(status, 5), 2);
        self.request_if(line == 160 && bit(status, 3), 0);
        if line == 160 {
            self.channels.trigger(DmaEvent::VBlank);
            self.picture.reload();
        }
    }

    /// The place moves by a dot, with what begins there.
    #[tactic(auto, unfolding(crate::specs::Cycles::at_place))]
    fn move_place(&mut self)
        ensures { self.new ≡ at_place (placed self.old) }
    {
        self.place.cycle();
        match self.place.at().dot {
            1006 => self.begin_hblank(),
            0 => self.begin_line(),
            _ => {}
        }
    }

    /// One device cycle.
    #[tactic(auto, unfolding(crate::specs::Cycles::device_cycle))]
    pub(crate) fn cycle(&mut self)
        requires { self.old.clock < 2 ^ 63 }
        ensures { self.new ≡ device_cycle self.old }
    {
        self.sound();
        self.move_place();
    }

    /// For how many cycles, 1,024 at most, no timer overflows and nothing begins at a place.
    #[tactic(auto, unfolding(crate::specs::Cycles::quiet))]
    pub(crate) fn quiet(&self) -> u32
        ensures value { result ≡ quiet self.now }
        ensures most { result ≤ 1024 }
    {
        self.timers.quiet_within(FARTHEST).min(self.place.quiet())
    }

    /// How many cycles are left before one that makes a pair of samples.
    pub(crate) fn pairless(&self) -> u32
        ensures value { result ≡ pairless self.now }
        ensures most { result ≤ 511 }
    {
        511 - (self.clock % 512) as u32
    }

    /// So many quiet cycles at once.
    #[tactic(auto, unfolding(crate::specs::Cycles::quiet))]
    pub(crate) fn skip(&mut self, count: u32)
        requires quiet { count ≤ quiet self.old }
        requires few { count ≤ 1024 }
        requires clock { self.old.clock < 2 ^ 63 }
        ensures { self.new ≡ skipped count self.old }
    {
        skips_cycles();
        self.clock += u64::from(count);
        self.timers.skip(count);
        self.tones.advance(count);
        self.place.skip(count);
    }
}

impl Halfwords for DeviceSet {
    ghost use Rattle.std.specs.Prelude.{⊤};
    ghost use Rattle.gba_devices.specs.Registers.{half_kept, half_read, whole_written};
    ghost use Rattle.gba_devices.specs.State.{Devices};

    type Moment = ();

    ghost State = { Devices };

    ghost state = { λ d. d };

    ghost read_of = { half_read };

    ghost kept_of = { half_kept };

    ghost can_write = { λ _. ⊤ };

    ghost write_of = { λ _. whole_written };

    #[tactic(auto, unfolding(crate::specs::Registers::half_read))]
    fn half_read(&self, offset: u32) -> u16 {
        match owner_of(offset) {
            Owner::PictureBlock => self.picture.read_at(offset, &self.place.at()),
            Owner::ToneBlock => self.tones.read(offset),
            Owner::SoundBlock => self.queues.read(offset) | self.tones.read(offset),
            Owner::DmaBlock => self.channels.read(offset),
            Owner::TimerBlock => self.timers.read(offset),
            Owner::KeyBlock => self.keypad.read(offset),
            Owner::InterruptBlock => self.interrupts.read(offset),
            Owner::WaitControl => self.waits & wait_bits(),
            Owner::PostFlag => u16::from(self.posted) & post_bits(),
            Owner::Nobody => 0,
        }
    }

    #[tactic(auto, unfolding(crate::specs::Registers::half_kept))]
    fn half_kept(&self, offset: u32) -> u16 {
        match owner_of(offset) {
            Owner::PictureBlock => self.picture.kept(offset),
            Owner::ToneBlock => self.tones.kept(offset),
            Owner::SoundBlock => self.queues.read(offset),
            Owner::DmaBlock => self.channels.kept(offset),
            Owner::TimerBlock => self.timers.kept(offset),
            Owner::KeyBlock => self.keypad.read(offset),
            Owner::InterruptBlock => self.interrupts.kept(offset),
            Owner::WaitControl => self.waits,
            Owner::PostFlag => u16::from(self.posted),
            Owner::Nobody => 0,
        }
    }

    #[tactic(auto, unfolding(crate::specs::Registers::whole_written))]
    fn half_write(&mut self, _: (), offset: u32, value: u16, lanes: u16) {
        match owner_of(offset) {
            Owner::PictureBlock => self.picture.write(offset, value),
            Owner::ToneBlock => self.tones.write(offset, value),
            Owner::SoundBlock => self.write_sound(offset, value),
            Owner::DmaBlock => self.channels.write(offset, value),
            Owner::TimerBlock => self.timers.write(offset, value),
            Owner::KeyBlock => {
                if offset == 0x132 {
                    self.control_keys(value);
                }
            }
            Owner::InterruptBlock => self.interrupts.write(offset, value),
            Owner::WaitControl => self.waits = value & wait_bits(),
            Owner::PostFlag => self.write_post(value, lanes),
            Owner::Nobody => {}
        }
    }
}
