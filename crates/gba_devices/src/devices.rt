//! The devices, which move late.

ghost use Rattle.std.specs.Prelude.{◌≡◌, ◌+◌, ◌≤◌, ◌<◌, ◌^◌};

use crate::laws::{cycle_keeps, cycles_pass, skips_cycles, writes_keep};
use crate::parts::DeviceParts;
use crate::place::FARTHEST;
use crate::registers::{Owner, owner_of};
use crate::set::DeviceSet;
use gba_bus::Width;
use gba_ppu_reg::Position;
use gba_psg::{Tone, Tones};
use gba_register::load;
use gba_timer::{Timer, Timers};
use std::marker::Model;

/// The devices of a board: clock, timers, direct sound, tone channels, DMA channels, the picture's
/// place and registers, interrupts, keypad, WAITCNT, POSTFLG and the halt. They owe the cycles of past
/// steps, in which nothing happened. Contracts see the devices once these have passed.
#[derive(Debug, Drop)]
pub struct Devices {
    set: DeviceSet,
    // the cycles that are owed, up to how many of them no pair of samples is made, and how many may be owed
    debt: u32,
    silence: u32,
    horizon: u32,
}

impl Model for Devices {
    ghost use Rattle.std.specs.Prelude.{◌≡◌, ◌+◌, ◌-◌, ◌≤◌, ◌<◌, ◌^◌};
    ghost use Rattle.gba_devices.specs.Cycles.{pairless, quiet, skipped};
    ghost use Rattle.gba_devices.specs.State.{Devices};

    ghost Value = { Devices };

    ghost view = { λ d. skipped d.debt d.set };

    ghost invariant = { λ d.
        (d.debt ≤ d.silence) × (d.silence ≤ d.horizon) × (d.horizon ≤ quiet d.set) × (d.horizon ≤ 1024)
        × (d.silence - d.debt ≤ pairless (skipped d.debt d.set)) × (d.set.clock + d.debt < 2 ^ 63) };
}

impl Devices {
    ghost use Rattle.std.specs.Prelude.{◌≡◌, ℕ, ◌+◌, ◌*◌, ◌≤◌, ◌<◌, ◌^◌, ◌==◌, true, false, if◌then◌else◌};
    ghost use Rattle.gba_irq.specs.Interrupts.{with_request};
    ghost use Rattle.gba_ppu_reg.specs.Position.{IsPosition};
    ghost use Rattle.gba_psg.specs.Tones.{tone_at};
    ghost use Rattle.gba_timer.specs.Timers.{timer_at};
    ghost use Rattle.gba_devices.specs.Cycles.{IsBehind, after_cycles, device_cycle, draws_line, draws_within, makes_pair, makes_within};
    ghost use Rattle.gba_devices.specs.Parts.{devices_of};
    ghost use Rattle.gba_devices.specs.Registers.{half_listed, io_loaded, io_written, keyed};
    ghost use Rattle.gba_devices.specs.Samples.{left_sample, right_sample};
    ghost use Rattle.gba_devices.specs.State.{after_dma_unit, begun, devices_at_reset, is_calm, is_idle, rested, woken};

    /// The devices at reset.
    pub fn new() -> Devices
        ensures { result ≡ devices_at_reset }
    {
        skips_cycles();
        let set = DeviceSet::new();
        let horizon = set.quiet();
        Devices {
            debt: 0,
            silence: horizon.min(set.pairless()),
            horizon,
            set,
        }
    }

    /// The devices of these parts, which owe nothing.
    pub fn of(parts: DeviceParts) -> Devices
        requires place { IsPosition parts.place }
        requires clock { parts.clock < 2 ^ 63 }
        ensures { result ≡ devices_of parts }
    {
        skips_cycles();
        let set = DeviceSet::of(parts);
        let horizon = set.quiet();
        Devices {
            debt: 0,
            silence: horizon.min(set.pairless()),
            horizon,
            set,
        }
    }

    /// The clock: cycles of 16,777,216 Hz since reset.
    pub fn clock(&self) -> u64
        ensures value { result ≡ self.now.clock }
        ensures most { result < 2 ^ 63 }
    {
        self.set.clock() + u64::from(self.debt)
    }

    /// The devices as they last moved. Only their clock, timers, tone channels and place of the picture are behind.
    #[inline]
    pub fn set(&self) -> &DeviceSet
        ensures { IsBehind result.now self.now }
    {
        &self.set
    }

    #[tactic(auto, unfolding(crate::specs::Cycles::quiet))]
    fn timers(&self) -> Timers
        ensures { result ≡ self.now.timers }
    {
        skips_cycles();
        let mut timers = self.set.timers();
        timers.skip(self.debt);
        timers
    }

    /// A timer by its number, which is below 4.
    pub fn timer(&self, number: u32) -> Timer
        requires { number < 4 }
        ensures { result ≡ timer_at number self.now.timers }
    {
        self.timers().timer(number)
    }

    /// The place of the picture.
    pub fn place(&self) -> Position
        ensures place { result ≡ self.now.place }
        ensures sound { IsPosition result }
    {
        self.set.place_after(self.debt)
    }

    /// Ends a unit of a DMA channel, which is below 4. Nothing changes where it isn't active.
    #[tactic(auto, unfolding(crate::specs::Cycles::quiet, crate::specs::State::after_dma_unit))]
    pub fn end_unit(&mut self, channel: u32)
        requires { channel < 4 }
        ensures { self.new ≡ after_dma_unit channel self.old }
    {
        self.set.end_unit(channel);
    }

    /// Requests the serial interrupt: bit 7 of IF.
    #[tactic(auto, unfolding(crate::specs::Cycles::quiet))]
    pub fn request_serial(&mut self)
        ensures { self.new ≡ record self.old { interrupts = with_request 7 self.old.interrupts } }
    {
        self.set.request(7);
    }

    fn tones(&self) -> Tones
        ensures { result ≡ self.now.tones }
    {
        self.set.tones_after(self.debt)
    }

    /// The cycles since the sound was turned on, modulo 262,144, by which the tone channels' lengths, sweep and
    /// envelopes tick.
    pub fn sequencer(&self) -> u32
        ensures value { result ≡ self.now.tones.sequencer }
        ensures most { result < 0x40000 }
    {
        self.tones().sequencer()
    }

    /// A tone channel by its number less 1, which is below 4.
    pub fn tone(&self, channel: u32) -> Tone
        requires { channel < 4 }
        ensures { result ≡ tone_at channel self.now.tones }
    {
        self.tones().tone(channel)
    }

    /// The bytes of a bank of tone channel 3's wave, 0 or 1.
    pub fn wave_bank(&self, bank: u32) -> [u8; 16]
        requires { bank < 2 }
        ensures { result ≡ (if bank == 0 then self.now.tones.wave.bank0 else self.now.tones.wave.bank1) }
    {
        self.tones().bank(bank)
    }

    /// What the sound queues and the tone channels sound like, left then right, each from -16,384 to 31,616.
    pub fn sample(&self) -> (i16, i16)
        ensures left { result.0 ≡ left_sample self.now }
        ensures right { result.1 ≡ right_sample self.now }
    {
        self.set.sample_after(self.debt)
    }

    /// What is stored at the halfword of an offset from 04000000h; of bits that are only read, what they read.
    #[tactic(auto, unfolding(crate::specs::Registers::half_listed))]
    pub fn half_listed(&self, offset: u32) -> u16
        ensures { result ≡ half_listed offset self.now }
    {
        match owner_of(offset) {
            Owner::TimerBlock => self.timers().kept(offset),
            Owner::PictureBlock => self.set.picture_listed(offset, &self.place()),
            Owner::ToneBlock => self.tones().kept(offset),
            Owner::SoundBlock => self.set.sound_listed(offset, &self.tones()),
            _ => self.set.half_listed(offset),
        }
    }

    /// Pays the debt, and looks anew for how many cycles nothing happens.
    fn renew(&mut self)
        ensures { self.new ≡ self.old }
    {
        skips_cycles();
        self.set.skip(self.debt);
        self.debt = 0;
        self.horizon = self.set.quiet();
        self.silence = self.horizon.min(self.set.pairless());
    }

    /// The same where no more can be owed, or fewer cycles than these only because no more than 1,024 are
    /// looked at at once.
    fn renew_due(&mut self, cycles: u32)
        ensures { self.new ≡ self.old }
    {
        let left = self.horizon - self.debt;
        if left == 0 || (self.horizon == FARTHEST && left < cycles) {
            self.renew();
        }
    }

    /// What an access reads at an offset from 04000000h, which is below 400h.
    #[inline(never)]
    pub fn load(&mut self, offset: u32, width: Width) -> u32
        requires { offset < 0x400 }
        ensures value { result ≡ io_loaded offset width self.old }
        ensures same { self.new ≡ self.old }
    {
        skips_cycles();
        self.set.skip(self.debt);
        self.debt = 0;
        self.horizon = self.set.quiet();
        self.silence = self.horizon.min(self.set.pairless());
        load(&self.set, offset, width)
    }

    /// Writes the low bits of a value, as many as the width has, at an offset from 04000000h, which is below 400h.
    #[inline(never)]
    pub fn store(&mut self, offset: u32, width: Width, value: u32)
        requires { offset < 0x400 }
        ensures { self.new ≡ io_written offset width value self.old }
    {
        skips_cycles();
        writes_keep();
        self.set.skip(self.debt);
        self.debt = 0;
        self.set.store(offset, width, value);
        self.horizon = self.set.quiet();
        self.silence = self.horizon.min(self.set.pairless());
    }

    /// Begins a step: its accesses take the prices of WAITCNT as it is.
    #[tactic(auto, unfolding(crate::specs::Cycles::quiet))]
    pub fn begin(&mut self)
        ensures { self.new ≡ begun self.old }
    {
        self.set.begin();
    }

    /// Lets so many cycles pass in which no device moves: the console is off.
    pub fn rest(&mut self, cycles: u32)
        requires { self.old.clock + cycles < 2 ^ 61 }
        ensures { self.new ≡ rested cycles self.old }
    {
        skips_cycles();
        self.set.skip(self.debt);
        self.debt = 0;
        self.set.rest(cycles);
        self.horizon = self.set.quiet();
        self.silence = self.horizon.min(self.set.pairless());
    }

    /// Ends the halt.
    #[tactic(auto, unfolding(crate::specs::Cycles::quiet))]
    pub fn wake(&mut self)
        ensures { self.new ≡ woken self.old }
    {
        self.set.wake();
    }

    /// Makes these the pressed keys, 1 for pressed in bits 0 to 9.
    #[tactic(auto, unfolding(crate::specs::Cycles::quiet, crate::specs::Registers::keyed))]
    pub fn set_keys(&mut self, pressed: u16)
        ensures { self.new ≡ keyed pressed self.old }
    {
        self.set.set_keys(pressed);
    }

    /// Moves by so many cycles where nothing happens in them, and answers whether it did.
    #[inline]
    pub fn owe(&mut self, cycles: u32) -> bool
        requires few { cycles ≤ 512 }
        requires clock { self.old.clock < 2 ^ 61 }
        ensures owed { result ≡ true → (self.new ≡ after_cycles cycles self.old)
            × (makes_within cycles self.old ≡ false) }
        ensures idle { is_idle self.new ≡ is_idle self.old }
        ensures calm { is_calm self.new ≡ is_calm self.old }
        ensures left { result ≡ false → self.new ≡ self.old }
    {
        skips_cycles();
        if self.debt + cycles > self.silence {
            return false;
        }
        self.debt += cycles;
        true
    }

    /// Moves by as many of so many steps of so many cycles as nothing happens in, and answers how many.
    pub fn owe_steps(&mut self, cycles: u32, most: u32) -> u32
        requires some { 1 ≤ cycles }
        requires clock { self.old.clock < 2 ^ 61 }
        ensures devices { self.new ≡ after_cycles (cycles * result) self.old }
        ensures silent { makes_within (cycles * result) self.old ≡ false }
        ensures idle { (steps : ℕ) → steps ≤ result
            → is_idle (after_cycles (cycles * steps) self.old) ≡ is_idle self.old }
        ensures calm { is_calm self.new ≡ is_calm self.old }
        ensures few { cycles * result ≤ 1024 }
        ensures most { result ≤ most }
    {
        skips_cycles();
        self.renew_due(cycles);
        let room = self.silence - self.debt;
        let steps = (room / cycles).min(most);
        self.debt += cycles * steps;
        steps
    }

    /// Moves by as many of so many steps of so many cycles as one look tells that nothing happens in but pairs of
    /// samples, and answers how many.
    fn owe_looked(&mut self, cycles: u32, most: u32) -> u32
        requires some { 1 ≤ cycles }
        requires clock { self.old.clock < 2 ^ 61 }
        ensures devices { self.new ≡ after_cycles (cycles * result) self.old }
        ensures lineless { draws_within (cycles * result) self.old ≡ false }
        ensures idle { (steps : ℕ) → steps ≤ result
            → is_idle (after_cycles (cycles * steps) self.old) ≡ is_idle self.old }
        ensures calm { is_calm self.new ≡ is_calm self.old }
        ensures few { cycles * result ≤ 1024 }
        ensures most { result ≤ most }
    {
        skips_cycles();
        self.renew_due(cycles);
        let room = self.horizon - self.debt;
        let steps = (room / cycles).min(most);
        let debt = self.debt + cycles * steps;
        let clock = self.set.clock() + u64::from(debt);
        let pairless = 511 - (clock % 512) as u32;
        self.debt = debt;
        self.silence = self.horizon.min(debt + pairless);
        steps
    }

    /// Moves by as many of so many steps of so many cycles as nothing happens in but pairs of samples, and answers how
    /// many. All of them take no more than 1,024 cycles.
    pub fn owe_unheard(&mut self, cycles: u32, most: u32) -> u32
        requires some { 1 ≤ cycles }
        requires clock { self.old.clock + 1024 < 2 ^ 61 }
        ensures devices { self.new ≡ after_cycles (cycles * result) self.old }
        ensures lineless { draws_within (cycles * result) self.old ≡ false }
        ensures idle { (steps : ℕ) → steps ≤ result
            → is_idle (after_cycles (cycles * steps) self.old) ≡ is_idle self.old }
        ensures calm { is_calm self.new ≡ is_calm self.old }
        ensures few { cycles * result ≤ 1024 }
        ensures most { result ≤ most }
    {
        cycles_pass();
        let first = self.owe_looked(cycles, most);
        if first == most {
            return first;
        }
        if self.horizon < FARTHEST {
            return first;
        }
        let rest = ((FARTHEST - cycles * first) / cycles).min(most - first);
        first + self.owe_looked(cycles, rest)
    }

    /// Moves by as many of so many cycles as nothing happens in, and answers how many.
    pub fn pass_quietly(&mut self, most: u32) -> u32
        requires { self.old.clock < 2 ^ 61 }
        ensures devices { self.new ≡ after_cycles result self.old }
        ensures silent { makes_within result self.old ≡ false }
        ensures calm { is_calm self.new ≡ is_calm self.old }
        ensures most { result ≤ most }
    {
        skips_cycles();
        self.renew_due(1);
        let count = most.min(self.silence - self.debt);
        self.debt += count;
        count
    }

    /// One cycle where nothing happens in it but a pair of samples, and answers whether it passed.
    pub fn owe_pair(&mut self) -> bool
        requires { self.old.clock < 2 ^ 61 }
        ensures owed { result ≡ true → (self.new ≡ device_cycle self.old) × (draws_line self.old ≡ false) }
        ensures calm { is_calm self.new ≡ is_calm self.old }
        ensures left { result ≡ false → self.new ≡ self.old }
    {
        skips_cycles();
        if self.debt >= self.horizon {
            return false;
        }
        let debt = self.debt + 1;
        let clock = self.set.clock() + u64::from(debt);
        let pairless = 511 - (clock % 512) as u32;
        self.debt = debt;
        self.silence = self.horizon.min(debt + pairless);
        true
    }

    /// Whether the next cycle makes a pair of samples: whether the new clock is a multiple of 512.
    pub fn makes_pair(&self) -> bool
        ensures { result ≡ makes_pair self.now }
    {
        (self.clock() + 1) % 512 == 0
    }

    /// Whether the next cycle draws a line of the picture: whether HBlank begins in it, in a line from 0 to 159.
    pub fn draws_line(&self) -> bool
        ensures { result ≡ draws_line self.now }
    {
        let mut place = self.place();
        place.cycle();
        place.dot == 1006 && place.line < 160
    }

    /// One cycle, whatever happens in it.
    #[inline(never)]
    pub fn cycle(&mut self)
        requires { self.old.clock < 2 ^ 61 }
        ensures { self.new ≡ device_cycle self.old }
    {
        skips_cycles();
        cycle_keeps();
        self.set.skip(self.debt);
        self.debt = 0;
        self.set.cycle();
        self.horizon = self.set.quiet();
        self.silence = self.horizon.min(self.set.pairless());
    }
}
