//! Channel 4, which is noise.

ghost use Rattle.std.specs.Prelude.{◌≡◌, ◌<◌, ◌≤◌, ◌^◌};
ghost use Rattle.gba_psg.specs.Noise.{next_noise as noise_after};
ghost use Rattle.gba_psg.specs.Running.{repeated};
ghost use Rattle.gba_psg.specs.Tone.{after_envelope, after_length};

use crate::tone::{IDLE, Tone};
use gba_word::{bit, bits};

/// The channel with noise (GBATEK, GBA Sound Channel 4): its tone, whose place is the register of the noise, and the
/// halfwords of its shape and its control as they are stored.
#[derive(Clone, Copy, Debug, PartialEq, Eq)]
pub(crate) struct Noise {
    pub(crate) tone: Tone,
    pub(crate) shape: u16,
    pub(crate) control: u16,
}

/// The channel at reset.
pub(crate) const IDLE_NOISE: Noise = Noise {
    tone: IDLE,
    shape: 0,
    control: 0,
};

/// The register after a move: halved, and where the bit lost is 1 with its two highest bits changed.
fn next_noise(narrow: bool, place: u32) -> u32
    ensures { result ≡ noise_after narrow place }
{
    let half = place / 2;
    if place % 2 == 0 {
        half
    } else if narrow {
        half ^ 0x60
    } else {
        half ^ 0x6000
    }
}

/// The register after so many moves.
fn noise_moved(narrow: bool, moves: u32, mut place: u32) -> u32
    ensures { result ≡ repeated (noise_after narrow) moves place }
{
    for _ in 0..moves {
        place = next_noise(narrow, place);
    }
    place
}

impl Noise {
    ghost use Rattle.gba_psg.specs.Noise.{is_high, is_narrow, noise_amount, noise_controlled, noise_period, noise_started, noise_timed};
    ghost use Rattle.gba_psg.specs.Running.{noise_run};
    ghost use Rattle.gba_psg.specs.Soundness.{IsSoundTone};

    fn is_narrow(&self) -> bool
        ensures { result ≡ is_narrow self.now }
    {
        bit(u32::from(self.control), 3)
    }

    /// Whether its length is timed.
    fn is_timed(&self) -> bool
        ensures { result ≡ noise_timed self.now }
    {
        bit(u32::from(self.control), 14)
    }

    /// The cycles between two moves.
    fn period(&self) -> u32
        ensures value { result ≡ noise_period self.now }
        ensures some { 0 < result }
    {
        let control = u32::from(self.control);
        let shift = bits(control, 4, 4);
        let ratio = bits(control, 0, 3);
        if ratio == 0 {
            1 << (shift + 5)
        } else {
            ratio << (shift + 6)
        }
    }

    fn start(&mut self)
        ensures { self.new ≡ noise_started self.old }
    {
        let shape = u32::from(self.shape);
        self.tone = Tone {
            on: true,
            place: if self.is_narrow() { 0x40 } else { 0x4000 },
            wait: self.period(),
            left: 64 - bits(shape, 0, 6),
            volume: bits(shape, 12, 4),
            fade: bits(shape, 8, 3),
            sweep: 0,
            shadow: 0,
        };
    }

    /// Writes the control, and starts it where that is asked for.
    pub(crate) fn set_control(&mut self, value: u16, starts: bool)
        ensures { self.new ≡ noise_controlled value starts self.old }
    {
        self.control = value;
        if starts {
            self.start();
        }
    }

    /// Moves it by 1,024 cycles at most, in which nothing ticks.
    pub(crate) fn run(&mut self, cycles: u32)
        requires { cycles ≤ 1024 }
        ensures { self.new ≡ noise_run cycles self.old }
    {
        if !self.tone.on {
            return;
        }
        let period = self.period();
        let moves = self.tone.pass(cycles, period);
        self.tone.place = noise_moved(self.is_narrow(), moves, self.tone.place);
    }

    /// A tick of the length.
    pub(crate) fn tick_length(&mut self)
        ensures { self.new ≡ record self.old { tone = after_length (noise_timed self.old) self.old.tone } }
    {
        let timed = self.is_timed();
        self.tone.tick_length(timed);
    }

    /// A tick of the envelope.
    pub(crate) fn tick_envelope(&mut self)
        requires { self.old.tone.volume < 16 }
        ensures { self.new ≡ record self.old { tone = after_envelope self.old.shape self.old.tone } }
    {
        self.tone.tick_envelope(self.shape);
    }

    /// Whether the highest bit of the register is 1.
    fn is_high(&self) -> bool
        ensures { result ≡ is_high self.now }
    {
        bit(self.tone.place, if self.is_narrow() { 6 } else { 14 })
    }

    /// What it gives, from 0 to 15.
    pub(crate) fn amount(&self) -> u32
        requires { self.now.tone.volume < 16 }
        ensures value { result ≡ noise_amount self.now }
        ensures most { result ≤ 15 }
    {
        if self.tone.on && self.is_high() {
            self.tone.volume
        } else {
            0
        }
    }
}
