//! The four channels together.

ghost use Rattle.std.specs.Prelude.{◌≡◌, ◌<◌, ◌≤◌, ◌+◌, ◌%◌, true, pos};
ghost use Rattle.gba_psg.specs.Amount.{factor as factor_of, sent as sent_of};
ghost use Rattle.gba_psg.specs.Registers.{is_wave_offset};

use crate::noise::{IDLE_NOISE, Noise};
use crate::square::{IDLE_SQUARE, Square};
use crate::tone::Tone;
use crate::wave::{IDLE_WAVE, Wave};
use gba_word::{bit, bits, weight_half};

/// The tone channels (GBATEK, GBA Sound Controller): the master enable; the sequencer, which counts cycles modulo
/// 262,144; the halfword of channel 1's sweep; channels 1 to 4; SOUNDCNT_L; bits 0 and 1 of SOUNDCNT_H.
#[derive(Clone, Copy, Debug)]
pub(crate) struct FourTones {
    pub(crate) is_on: bool,
    pub(crate) sequencer: u32,
    pub(crate) sweep: u16,
    pub(crate) square1: Square,
    pub(crate) square2: Square,
    pub(crate) wave: Wave,
    pub(crate) noise: Noise,
    pub(crate) mixer: u16,
    pub(crate) ratio: u16,
}

/// What the four channels give, each from 0 to 15.
#[derive(Clone, Copy, Debug)]
struct Given {
    square1: u32,
    square2: u32,
    wave: u32,
    noise: u32,
}

/// The channels at reset.
pub(crate) const RESET: FourTones = FourTones {
    is_on: false,
    sequencer: 0,
    sweep: 0,
    square1: IDLE_SQUARE,
    square2: IDLE_SQUARE,
    wave: IDLE_WAVE,
    noise: IDLE_NOISE,
    mixer: 0,
    ratio: 0,
};

/// What a side gets of an amount that is sent there or not.
fn sent(is_sent: bool, amount: u32) -> u32
    requires { amount ≤ 15 }
    ensures value { result ≡ sent_of is_sent amount }
    ensures most { result ≤ 15 }
{
    if is_sent { amount } else { 0 }
}

/// The factor by bits 0 and 1 of SOUNDCNT_H.
fn factor(ratio: u16) -> u32
    ensures value { result ≡ factor_of ratio }
    ensures most { result ≤ 4 }
{
    match ratio {
        0 => 1,
        1 => 2,
        2 => 4,
        _ => 0,
    }
}

/// Whether a halfword has bytes of the wave.
fn is_wave(offset: u32) -> bool
    ensures { result ≡ is_wave_offset offset }
{
    0x090 <= offset && offset < 0x0A0 && offset % 2 == 0
}

impl FourTones {
    ghost use Rattle.gba_psg.specs.Amount.{IsFew, given_of, left_amount, right_amount, side_amount, sum_of};
    ghost use Rattle.gba_psg.specs.Registers.{tone_set, cleared, mastered, tones_kept, tones_set};
    ghost use Rattle.gba_psg.specs.Running.{run};
    ghost use Rattle.gba_psg.specs.Soundness.{AreSound};
    ghost use Rattle.gba_psg.specs.Tones.{after_cycles, after_envelopes, after_lengths, channels_on, ticked, tone_at};

    /// A channel's tone by its number less 1.
    pub(crate) fn tone(&self, number: u32) -> Tone
        ensures { result ≡ tone_at number self.now }
    {
        match number {
            0 => self.square1.tone,
            1 => self.square2.tone,
            2 => self.wave.tone,
            _ => self.noise.tone,
        }
    }

    /// The channels that are on, in bits 0 to 3.
    pub(crate) fn channels_on(&self) -> u16
        ensures value { result ≡ channels_on self.now }
        ensures most { result ≤ 15 }
    {
        weight_half(1, self.square1.tone.on)
            + weight_half(2, self.square2.tone.on)
            + weight_half(4, self.wave.tone.on)
            + weight_half(8, self.noise.tone.on)
    }

    /// Moves each channel by 1,024 cycles at most, in which nothing ticks.
    #[tactic(auto, unfolding(crate::specs::Running::run))]
    fn run(&mut self, cycles: u32)
        requires most { cycles ≤ 1024 }
        requires sound { AreSound self.old }
        ensures { self.new ≡ run cycles self.old }
    {
        self.square1.run(cycles);
        self.square2.run(cycles);
        self.wave.run(cycles);
        self.noise.run(cycles);
    }

    /// A tick of all lengths.
    fn tick_lengths(&mut self)
        ensures { self.new ≡ after_lengths self.old }
    {
        self.square1.tick_length();
        self.square2.tick_length();
        self.wave.tick_length();
        self.noise.tick_length();
    }

    /// A tick of all envelopes.
    fn tick_envelopes(&mut self)
        requires square1 { self.old.square1.tone.volume < 16 }
        requires square2 { self.old.square2.tone.volume < 16 }
        requires noise { self.old.noise.tone.volume < 16 }
        ensures { self.new ≡ after_envelopes self.old }
    {
        self.square1.tick_envelope();
        self.square2.tick_envelope();
        self.noise.tick_envelope();
    }

    /// What ticks in a cycle, by the sequencer that has moved: lengths, the sweep, envelopes.
    #[tactic(auto, unfolding(crate::specs::Tones::ticked))]
    fn tick(&mut self)
        requires sound { AreSound self.old }
        ensures { self.new ≡ ticked self.old }
    {
        if self.sequencer % 0x1_0000 == 0 {
            self.tick_lengths();
        }
        if self.sequencer % 0x2_0000 == 0 {
            self.square1.tick_sweep(self.sweep);
        }
        if self.sequencer == 0 {
            self.tick_envelopes();
        }
    }

    /// Moves by so many cycles while the master enable is 1, in which nothing ticks.
    fn pass(&mut self, cycles: u32)
        requires on { self.old.is_on ≡ true }
        requires most { cycles ≤ 1024 }
        requires before { self.old.sequencer % 0x10000 + cycles < 0x10000 }
        requires sound { AreSound self.old }
        ensures { self.new ≡ after_cycles cycles self.old }
    {
        self.run(cycles);
        self.sequencer += cycles;
    }

    /// Moves by a cycle in which something may tick, and by so many more, in which nothing does.
    fn pass_tick(&mut self, more: u32)
        requires on { self.old.is_on ≡ true }
        requires most { more < 1024 }
        requires before { self.old.sequencer % 0x10000 ≡ 0xffff }
        requires sound { AreSound self.old }
        ensures { self.new ≡ after_cycles (more + 1) self.old }
    {
        self.sequencer = (self.sequencer + 1) % 0x4_0000;
        self.tick();
        self.run(more + 1);
        self.sequencer += more;
    }

    /// Moves by 1,024 cycles at most while the master enable is 1.
    #[inline(never)]
    fn advance_on(&mut self, cycles: u32)
        requires on { self.old.is_on ≡ true }
        requires most { cycles ≤ 1024 }
        requires sound { AreSound self.old }
        ensures { self.new ≡ after_cycles cycles self.old }
    {
        let before = 0xFFFF - self.sequencer % 0x1_0000;
        if cycles <= before {
            self.pass(cycles);
        } else {
            self.pass(before);
            self.pass_tick(cycles - before - 1);
        }
    }

    /// Moves by 1,024 cycles at most. Without the master enable it is one test, where it is called.
    #[inline]
    pub(crate) fn advance(&mut self, cycles: u32)
        requires most { cycles ≤ 1024 }
        requires sound { AreSound self.old }
        ensures { self.new ≡ after_cycles cycles self.old }
    {
        if !self.is_on {
            return;
        }
        self.advance_on(cycles);
    }

    fn given(&self) -> Given
        requires sound { AreSound self.now }
        ensures value { result ≡ given_of self.now }
        ensures few { IsFew result }
    {
        Given {
            square1: self.square1.amount(),
            square2: self.square2.amount(),
            wave: self.wave.amount(),
            noise: self.noise.amount(),
        }
    }

    /// The sum of the channels that are sent to a side, whose first bit of SOUNDCNT_L is given.
    fn sum(&self, first: u32, given: &Given) -> u32
        requires first { first ≤ 12 }
        requires few { IsFew given.now }
        ensures value { result ≡ sum_of first self.now.mixer given.now }
        ensures most { result ≤ 60 }
    {
        let mixer = u32::from(self.mixer);
        sent(bit(mixer, first), given.square1)
            + sent(bit(mixer, first + 1), given.square2)
            + sent(bit(mixer, first + 2), given.wave)
            + sent(bit(mixer, first + 3), given.noise)
    }

    /// The same by the side's volume and SOUNDCNT_H.
    fn side(&self, first: u32, volume: u32, given: &Given) -> i32
        requires first { first ≤ 12 }
        requires volume { volume ≤ 7 }
        requires few { IsFew given.now }
        requires given { given.now ≡ given_of self.now }
        ensures value { result ≡ pos (side_amount first volume self.now) }
        ensures most { side_amount first volume self.now ≤ 15360 }
    {
        (self.sum(first, given) * (volume + 1) * factor(self.ratio) * 8) as i32
    }

    /// What the channels give, left then right.
    #[tactic(auto, unfolding(crate::specs::Amount::left_amount, crate::specs::Amount::right_amount))]
    pub(crate) fn amount(&self) -> (i32, i32)
        requires { AreSound self.now }
        ensures left { result.0 ≡ pos (left_amount self.now) }
        ensures right { result.1 ≡ pos (right_amount self.now) }
        ensures most_left { left_amount self.now ≤ 15360 }
        ensures most_right { right_amount self.now ≤ 15360 }
    {
        if !self.is_on {
            return (0, 0);
        }
        let mixer = u32::from(self.mixer);
        let given = self.given();
        let left = self.side(12, bits(mixer, 4, 3), &given);
        let right = self.side(8, bits(mixer, 0, 3), &given);
        (left, right)
    }

    /// The same after 1,024 cycles at most, of a copy.
    #[inline(never)]
    fn amount_of_copy(&self, cycles: u32) -> (i32, i32)
        requires most { cycles ≤ 1024 }
        requires sound { AreSound self.now }
        ensures left { result.0 ≡ pos (left_amount (after_cycles cycles self.now)) }
        ensures right { result.1 ≡ pos (right_amount (after_cycles cycles self.now)) }
        ensures most_left { left_amount (after_cycles cycles self.now) ≤ 15360 }
        ensures most_right { right_amount (after_cycles cycles self.now) ≤ 15360 }
    {
        let mut later = *self;
        later.advance(cycles);
        later.amount()
    }

    /// The same. Without the master enable it is one test, where it is called.
    #[inline]
    pub(crate) fn amount_after(&self, cycles: u32) -> (i32, i32)
        requires most { cycles ≤ 1024 }
        requires sound { AreSound self.now }
        ensures left { result.0 ≡ pos (left_amount (after_cycles cycles self.now)) }
        ensures right { result.1 ≡ pos (right_amount (after_cycles cycles self.now)) }
        ensures most_left { left_amount (after_cycles cycles self.now) ≤ 15360 }
        ensures most_right { right_amount (after_cycles cycles self.now) ≤ 15360 }
    {
        if !self.is_on {
            return (0, 0);
        }
        self.amount_of_copy(cycles)
    }

    /// What is stored at a halfword.
    pub(crate) fn kept(&self, offset: u32) -> u16
        ensures { result ≡ tones_kept offset self.now }
    {
        if is_wave(offset) {
            return self.wave.half((offset - 0x090) as usize);
        }
        match offset {
            0x060 => self.sweep,
            0x062 => self.square1.shape,
            0x064 => self.square1.control,
            0x068 => self.square2.shape,
            0x06C => self.square2.control,
            0x070 => self.wave.select,
            0x072 => self.wave.level,
            0x074 => self.wave.control,
            0x078 => self.noise.shape,
            0x07C => self.noise.control,
            0x080 => self.mixer,
            0x082 => self.ratio,
            0x084 => weight_half(0x80, self.is_on) + self.channels_on(),
            _ => 0,
        }
    }

    /// Makes everything 0 but the bytes of the wave and the bits of SOUNDCNT_H.
    fn clear(&mut self)
        ensures { self.new ≡ cleared self.old }
    {
        self.is_on = false;
        self.sequencer = 0;
        self.sweep = 0;
        self.square1 = IDLE_SQUARE;
        self.square2 = IDLE_SQUARE;
        self.wave.clear();
        self.noise = IDLE_NOISE;
        self.mixer = 0;
    }

    /// Writes the stored bits of a register of the channels, and starts one where that is asked for.
    fn set_channel(&mut self, offset: u32, value: u16, starts: bool)
        ensures { self.new ≡ tone_set offset value starts self.old }
    {
        match offset {
            0x060 => self.sweep = value,
            0x062 => self.square1.shape = value,
            0x064 => self.square1.set_control(self.sweep, value, starts),
            0x068 => self.square2.shape = value,
            0x06C => self.square2.set_control(0, value, starts),
            0x070 => self.wave.select = value,
            0x072 => self.wave.level = value,
            0x074 => self.wave.set_control(value, starts),
            0x078 => self.noise.shape = value,
            0x07C => self.noise.set_control(value, starts),
            0x080 => self.mixer = value,
            _ => {}
        }
    }

    /// Writes the master enable.
    fn set_master(&mut self, is_on: bool)
        ensures { self.new ≡ mastered is_on self.old }
    {
        if is_on {
            self.is_on = true;
        } else {
            self.clear();
        }
    }

    /// Writes the stored bits of any halfword.
    pub(crate) fn set(&mut self, offset: u32, value: u16, starts: bool)
        ensures { self.new ≡ tones_set offset value starts self.old }
    {
        if is_wave(offset) {
            self.wave.set_half((offset - 0x090) as usize, value);
            return;
        }
        match offset {
            0x082 => self.ratio = value,
            0x084 => self.set_master(bit(u32::from(value), 7)),
            _ => {
                if self.is_on {
                    self.set_channel(offset, value, starts);
                }
            }
        }
    }
}
