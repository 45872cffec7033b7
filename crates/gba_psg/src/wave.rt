//! Channel 3, which plays a wave of digits.

ghost use Rattle.std.specs.Prelude.{◌≡◌, ◌<◌, ◌≤◌, ◌+◌};
ghost use Rattle.gba_psg.specs.Tone.{after_length};
ghost use Rattle.gba_psg.specs.Wave.{digit_of as digit_at, half_set as half_written};

use crate::tone::{IDLE, Tone};
use gba_word::{bit, bits};

/// The channel with a wave (GBATEK, GBA Sound Channel 3): its tone, the halfwords of its selection, its level and its
/// control as they are stored, and two banks of 32 digits, the high half of a byte first.
#[derive(Clone, Copy, Debug)]
pub(crate) struct Wave {
    pub(crate) tone: Tone,
    pub(crate) select: u16,
    pub(crate) level: u16,
    pub(crate) control: u16,
    pub(crate) bank0: [u8; 16],
    pub(crate) bank1: [u8; 16],
}

/// The channel at reset.
pub(crate) const IDLE_WAVE: Wave = Wave {
    tone: IDLE,
    select: 0,
    level: 0,
    control: 0,
    bank0: [0; 16],
    bank1: [0; 16],
};

/// The digit at a place of a bank.
fn digit(place: u32, bank: &[u8; 16]) -> u32
    requires { place < 32 }
    ensures value { result ≡ digit_at place bank.now }
    ensures most { result ≤ 15 }
{
    let byte = u32::from(bank[(place / 2) as usize]);
    if place % 2 == 0 {
        bits(byte, 4, 4)
    } else {
        bits(byte, 0, 4)
    }
}

/// Writes the two bytes of a bank from a place on, the low one first.
fn set_half(place: usize, value: u16, bank: &mut [u8; 16])
    requires { place < 15 }
    ensures { bank.new ≡ half_written place value bank.old }
{
    let value = u32::from(value);
    bank[place] = bits(value, 0, 8) as u8;
    bank[place + 1] = bits(value, 8, 8) as u8;
}

impl Wave {
    ghost use Rattle.gba_psg.specs.Running.{wave_run};
    ghost use Rattle.gba_psg.specs.Soundness.{IsSoundTone};
    ghost use Rattle.gba_psg.specs.Wave.{digit_count, scaled, wave_amount, wave_cleared, wave_controlled, wave_digit, wave_frequency, wave_half, wave_period, wave_started, wave_timed, with_wave_half};

    fn frequency(&self) -> u32
        ensures value { result ≡ wave_frequency self.now }
        ensures most { result < 2048 }
    {
        bits(u32::from(self.control), 0, 11)
    }

    /// Whether its length is timed.
    fn is_timed(&self) -> bool
        ensures { result ≡ wave_timed self.now }
    {
        bit(u32::from(self.control), 14)
    }

    /// The cycles between two moves.
    fn period(&self) -> u32
        ensures value { result ≡ wave_period self.now }
        ensures some { 0 < result }
    {
        8 * (2048 - self.frequency())
    }

    /// How many digits it plays, of one bank or of both.
    fn digit_count(&self) -> u32
        ensures value { result ≡ digit_count self.now }
        ensures some { 32 ≤ result }
    {
        if bit(u32::from(self.select), 5) {
            64
        } else {
            32
        }
    }

    /// Starts it. It is on from then on only where it was or where bit 7 of the selection plays it.
    fn start(&mut self)
        ensures { self.new ≡ wave_started self.old }
    {
        let level = u32::from(self.level);
        self.tone = Tone {
            on: self.tone.on || bit(u32::from(self.select), 7),
            place: 0,
            wait: self.period(),
            left: 256 - bits(level, 0, 8),
            volume: bits(level, 13, 2),
            fade: 0,
            sweep: 0,
            shadow: self.frequency(),
        };
    }

    /// Writes the control, and starts it where that is asked for.
    pub(crate) fn set_control(&mut self, value: u16, starts: bool)
        ensures { self.new ≡ wave_controlled value starts self.old }
    {
        self.control = value;
        if starts {
            self.start();
        }
    }

    /// Moves it by 1,024 cycles at most, in which nothing ticks.
    pub(crate) fn run(&mut self, cycles: u32)
        requires most { cycles ≤ 1024 }
        requires sound { IsSoundTone 64 self.old.tone }
        ensures { self.new ≡ wave_run cycles self.old }
    {
        if !self.tone.on {
            return;
        }
        let period = self.period();
        let moves = self.tone.pass(cycles, period);
        if moves > 0 {
            self.tone.place = (self.tone.place + moves) % self.digit_count();
        }
    }

    /// A tick of the length.
    pub(crate) fn tick_length(&mut self)
        ensures { self.new ≡ record self.old { tone = after_length (wave_timed self.old) self.old.tone } }
    {
        let timed = self.is_timed();
        self.tone.tick_length(timed);
    }

    /// Two bytes of the bank that isn't the first, the low one first. The place is that of the low one.
    pub(crate) fn half(&self, place: usize) -> u16
        requires { place < 15 }
        ensures { result ≡ wave_half place self.now }
    {
        let bank = if bit(u32::from(self.select), 6) {
            &self.bank0
        } else {
            &self.bank1
        };
        u16::from(bank[place]) + 0x100 * u16::from(bank[place + 1])
    }

    /// Writes two bytes of the bank that isn't the first.
    pub(crate) fn set_half(&mut self, place: usize, value: u16)
        requires { place < 15 }
        ensures { self.new ≡ with_wave_half place value self.old }
    {
        if bit(u32::from(self.select), 6) {
            set_half(place, value, &mut self.bank0);
        } else {
            set_half(place, value, &mut self.bank1);
        }
    }

    /// Makes everything 0 but the bytes of its banks.
    pub(crate) fn clear(&mut self)
        ensures { self.new ≡ wave_cleared self.old }
    {
        self.tone = IDLE;
        self.select = 0;
        self.level = 0;
        self.control = 0;
    }

    /// The digit at its place, from the first bank on to the other.
    fn digit(&self) -> u32
        requires { self.now.tone.place < 64 }
        ensures value { result ≡ wave_digit self.now }
        ensures most { result ≤ 15 }
    {
        let is_second = bit(u32::from(self.select), 6);
        let place = self.tone.place;
        if place < 32 {
            if is_second {
                digit(place, &self.bank1)
            } else {
                digit(place, &self.bank0)
            }
        } else if is_second {
            digit(place - 32, &self.bank0)
        } else {
            digit(place - 32, &self.bank1)
        }
    }

    /// A digit by its volume.
    fn scaled(&self, digit: u32) -> u32
        requires { digit ≤ 15 }
        ensures value { result ≡ scaled digit self.now }
        ensures most { result ≤ 15 }
    {
        if bit(u32::from(self.level), 15) {
            return 3 * digit / 4;
        }
        match self.tone.volume {
            0 => 0,
            1 => digit,
            2 => digit / 2,
            _ => digit / 4,
        }
    }

    /// What it gives, from 0 to 15.
    pub(crate) fn amount(&self) -> u32
        requires { self.now.tone.place < 64 }
        ensures value { result ≡ wave_amount self.now }
        ensures most { result ≤ 15 }
    {
        if self.tone.on {
            self.scaled(self.digit())
        } else {
            0
        }
    }
}
