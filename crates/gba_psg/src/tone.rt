//! What every tone channel has.

ghost use Rattle.std.specs.Prelude.{◌≡◌, ◌<◌, ◌≤◌, ◌+◌, true};

use gba_word::{bit, bits};

/// A tone channel's numbers (GBATEK, GBA Sound Controller): whether it is on; its place in its pattern, which for noise
/// is the noise's register; the cycles that it waits before it moves on; the length that is left in ticks of 65,536
/// cycles; its volume; the envelope's ticks of 262,144 cycles before the volume moves; the sweep's ticks of 131,072
/// cycles before the frequency moves; and the frequency from which the sweep goes on.
#[derive(Clone, Copy, Debug, PartialEq, Eq)]
pub struct Tone {
    pub on: bool,
    pub place: u32,
    pub wait: u32,
    pub left: u32,
    pub volume: u32,
    pub fade: u32,
    pub sweep: u32,
    pub shadow: u32,
}

/// A tone at reset.
pub(crate) const IDLE: Tone = Tone {
    on: false,
    place: 0,
    wait: 0,
    left: 0,
    volume: 0,
    fade: 0,
    sweep: 0,
    shadow: 0,
};

impl Tone {
    ghost use Rattle.gba_psg.specs.Tone.{after_envelope, after_length, next_volume};
    ghost use Rattle.gba_psg.specs.Running.{moves_of, wait_of};

    /// A tick of the length of a channel whose length is timed or not.
    pub(crate) fn tick_length(&mut self, timed: bool)
        ensures { self.new ≡ after_length timed self.old }
    {
        if !timed {
            return;
        }
        if !self.on {
            return;
        }
        self.left = self.left.saturating_sub(1);
        self.on = self.left != 0;
    }

    /// The volume after it moves by 1, as the shape says up or down.
    fn next_volume(&self, shape: u32) -> u32
        requires { self.now.volume < 16 }
        ensures { result ≡ next_volume shape self.now.volume }
    {
        if bit(shape, 11) {
            (self.volume + 1).min(15)
        } else {
            self.volume.saturating_sub(1)
        }
    }

    /// A tick of the envelope of a channel with such a shape.
    pub(crate) fn tick_envelope(&mut self, shape: u16)
        requires { self.old.volume < 16 }
        ensures { self.new ≡ after_envelope shape self.old }
    {
        let shape = u32::from(shape);
        let time = bits(shape, 8, 3);
        if time == 0 {
            return;
        }
        let fade = self.fade.saturating_sub(1);
        if fade == 0 {
            self.fade = time;
            self.volume = self.next_volume(shape);
        } else {
            self.fade = fade;
        }
    }

    /// Lets so many cycles go by of a channel that is on, and answers how often its place moves in them.
    pub(crate) fn pass(&mut self, cycles: u32, period: u32) -> u32
        requires on { self.old.on ≡ true }
        requires most { cycles ≤ 1024 }
        requires some { 0 < period }
        ensures tone { self.new ≡ record self.old { wait = wait_of period cycles self.old } }
        ensures moves { result ≡ moves_of period cycles self.old }
        ensures few { result ≤ 1025 }
    {
        if cycles < self.wait {
            self.wait -= cycles;
            return 0;
        }
        let beyond = cycles - self.wait;
        self.wait = period - beyond % period;
        beyond / period + 1
    }
}
