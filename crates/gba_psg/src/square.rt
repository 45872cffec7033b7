//! Channels 1 and 2, which are square waves.

ghost use Rattle.std.specs.Prelude.{◌≡◌, ◌<◌, ◌≤◌};
ghost use Rattle.gba_psg.specs.Square.{high_places as high_places_of};
ghost use Rattle.gba_psg.specs.Tone.{after_envelope, after_length};

use crate::tone::{IDLE, Tone};
use gba_word::{bit, bits};

/// A channel with a square wave (GBATEK, GBA Sound Channel 1, 2): its tone, and the halfwords of its shape, which are
/// length, duty and envelope, and of its control, which are frequency and timing, as they are stored.
#[derive(Clone, Copy, Debug, PartialEq, Eq)]
pub(crate) struct Square {
    pub(crate) tone: Tone,
    pub(crate) shape: u16,
    pub(crate) control: u16,
}

/// A channel at reset.
pub(crate) const IDLE_SQUARE: Square = Square {
    tone: IDLE,
    shape: 0,
    control: 0,
};

/// How many of the eight places of a pattern are high.
fn high_places(duty: u32) -> u32
    ensures { result ≡ high_places_of duty }
{
    match duty {
        0 => 1,
        1 => 2,
        2 => 4,
        _ => 6,
    }
}

impl Square {
    ghost use Rattle.gba_psg.specs.Soundness.{IsSoundTone};
    ghost use Rattle.gba_psg.specs.Running.{square_run};
    ghost use Rattle.gba_psg.specs.Square.{after_sweep, square_amount, square_controlled, square_frequency, square_period, square_started, square_swept, square_timed, swept};

    fn frequency(&self) -> u32
        ensures value { result ≡ square_frequency self.now }
        ensures most { result < 2048 }
    {
        bits(u32::from(self.control), 0, 11)
    }

    /// Whether its length is timed.
    fn is_timed(&self) -> bool
        ensures { result ≡ square_timed self.now }
    {
        bit(u32::from(self.control), 14)
    }

    /// The cycles between two moves.
    fn period(&self) -> u32
        ensures value { result ≡ square_period self.now }
        ensures some { 0 < result }
    {
        16 * (2048 - self.frequency())
    }

    /// Starts it, with the halfword of its sweep, which is 0 on channel 2.
    fn start(&mut self, sweep: u16)
        ensures { self.new ≡ square_started sweep self.old }
    {
        let shape = u32::from(self.shape);
        self.tone = Tone {
            on: true,
            place: 0,
            wait: self.period(),
            left: 64 - bits(shape, 0, 6),
            volume: bits(shape, 12, 4),
            fade: bits(shape, 8, 3),
            sweep: bits(u32::from(sweep), 4, 3),
            shadow: self.frequency(),
        };
    }

    /// Writes the control, and starts it where that is asked for.
    pub(crate) fn set_control(&mut self, sweep: u16, value: u16, starts: bool)
        ensures { self.new ≡ square_controlled sweep value starts self.old }
    {
        self.control = value;
        if starts {
            self.start(sweep);
        }
    }

    /// Moves it by 1,024 cycles at most, in which nothing ticks.
    pub(crate) fn run(&mut self, cycles: u32)
        requires most { cycles ≤ 1024 }
        requires sound { IsSoundTone 8 self.old.tone }
        ensures { self.new ≡ square_run cycles self.old }
    {
        if !self.tone.on {
            return;
        }
        let period = self.period();
        let moves = self.tone.pass(cycles, period);
        if moves > 0 {
            self.tone.place = (self.tone.place + moves) % 8;
        }
    }

    /// A tick of the length.
    pub(crate) fn tick_length(&mut self)
        ensures { self.new ≡ record self.old { tone = after_length (square_timed self.old) self.old.tone } }
    {
        let timed = self.is_timed();
        self.tone.tick_length(timed);
    }

    /// A tick of the envelope.
    pub(crate) fn tick_envelope(&mut self)
        requires { self.old.tone.volume < 16 }
        ensures { self.new ≡ record self.old { tone = after_envelope self.old.shape self.old.tone } }
    {
        self.tone.tick_envelope(self.shape);
    }

    /// The frequency to which a sweep goes.
    fn swept(&self, sweep: u32) -> u32
        requires { self.now.tone.shadow < 2048 }
        ensures { result ≡ swept sweep self.now.tone }
    {
        let part = self.tone.shadow >> bits(sweep, 0, 3);
        if bit(sweep, 3) {
            self.tone.shadow - part
        } else {
            self.tone.shadow + part
        }
    }

    /// The frequency moves, where the last tick of the sweep's time came.
    fn take_swept(&mut self, sweep: u32)
        requires { self.old.tone.shadow < 2048 }
        ensures { self.new ≡ square_swept sweep self.old }
    {
        let frequency = self.swept(sweep);
        if frequency > 2047 {
            self.tone.on = false;
            return;
        }
        if bits(sweep, 0, 3) == 0 {
            return;
        }
        self.tone.shadow = frequency;
        self.control = (u32::from(self.control) / 2048 * 2048 + frequency) as u16;
    }

    /// A tick of the sweep.
    pub(crate) fn tick_sweep(&mut self, sweep: u16)
        requires { self.old.tone.shadow < 2048 }
        ensures { self.new ≡ after_sweep sweep self.old }
    {
        let sweep = u32::from(sweep);
        let time = bits(sweep, 4, 3);
        if time == 0 {
            return;
        }
        let left = self.tone.sweep.saturating_sub(1);
        if left == 0 {
            self.tone.sweep = time;
            self.take_swept(sweep);
        } else {
            self.tone.sweep = left;
        }
    }

    /// What it gives, from 0 to 15.
    pub(crate) fn amount(&self) -> u32
        requires { self.now.tone.volume < 16 }
        ensures value { result ≡ square_amount self.now }
        ensures most { result ≤ 15 }
    {
        let duty = bits(u32::from(self.shape), 6, 2);
        if self.tone.on && self.tone.place < high_places(duty) {
            self.tone.volume
        } else {
            0
        }
    }
}
