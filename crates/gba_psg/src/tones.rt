//! The four tone channels and their registers.

ghost use Rattle.std.specs.Prelude.{◌≡◌, ◌<◌, ◌≤◌, ◌==◌, if◌then◌else◌, pos};
ghost use Rattle.gba_psg.specs.Numbers.{tone_of as tone_in};
ghost use Rattle.gba_psg.specs.Registers.{tone_rows};
ghost use Rattle.gba_register.specs.Rows.{row_at};

use crate::four::{FourTones, RESET};
use crate::noise::Noise;
use crate::square::Square;
use crate::tone::Tone;
use crate::wave::Wave;
use gba_word::bit;
use std::marker::Model;

/// The four tone channels (GBATEK, GBA Sound Controller; how they move cycle by cycle is this project's profile).
/// Whatever is called, a channel that is on has cycles to wait and a length that is left, and while the master enable
/// is 0 nothing moves and nothing sounds.
#[derive(Clone, Copy, Debug)]
pub struct Tones {
    four: FourTones,
}

impl Model for Tones {
    ghost use Rattle.gba_psg.specs.declared.four.FourTones.{FourTones as Four};
    ghost use Rattle.gba_psg.specs.Soundness.{AreSound};

    ghost Value = { Four };

    ghost view = { λ ts. ts.four };

    ghost inverse = { λ four. record { four = four } };

    ghost invariant = { λ ts. AreSound ts.four };
}

/// The bits of a halfword that read.
#[tactic(auto, unfolding(crate::specs::Registers::tone_rows, gba_register::specs::Rows::row_at))]
fn read_mask(offset: u32) -> u16
    ensures { result ≡ (row_at tone_rows offset).read_mask }
{
    match offset {
        0x060 => 0x007F,
        0x062 | 0x068 => 0xFFC0,
        0x064 | 0x06C | 0x074 => 0x4000,
        0x070 => 0x00E0,
        0x072 => 0xE000,
        0x078 => 0xFF00,
        0x07C => 0x40FF,
        0x080 => 0xFF77,
        0x084 => 0x008F,
        0x090 | 0x092 | 0x094 | 0x096 | 0x098 | 0x09A | 0x09C | 0x09E => 0xFFFF,
        _ => 0,
    }
}

/// The bits of a halfword that a write stores.
#[tactic(auto, unfolding(crate::specs::Registers::tone_rows, gba_register::specs::Rows::row_at))]
fn write_mask(offset: u32) -> u16
    ensures { result ≡ (row_at tone_rows offset).write_mask }
{
    match offset {
        0x060 => 0x007F,
        0x062 | 0x068 => 0xFFFF,
        0x064 | 0x06C | 0x074 => 0x47FF,
        0x070 => 0x00E0,
        0x072 => 0xE0FF,
        0x078 => 0xFF3F,
        0x07C => 0x40FF,
        0x080 => 0xFF77,
        0x082 => 0x0003,
        0x084 => 0x0080,
        0x090 | 0x092 | 0x094 | 0x096 | 0x098 | 0x09A | 0x09C | 0x09E => 0xFFFF,
        _ => 0,
    }
}

/// The tone whose eight numbers begin at a place.
fn tone_at(first: usize, numbers: &[u32; 33]) -> Tone
    requires { first < 26 }
    ensures { result ≡ tone_in first numbers.now }
{
    Tone {
        on: numbers[first] == 1,
        place: numbers[first + 1],
        wait: numbers[first + 2],
        left: numbers[first + 3],
        volume: numbers[first + 4],
        fade: numbers[first + 5],
        sweep: numbers[first + 6],
        shadow: numbers[first + 7],
    }
}

impl Tones {
    ghost use Rattle.gba_psg.specs.Amount.{left_amount, right_amount};
    ghost use Rattle.gba_psg.specs.Numbers.{tones_of};
    ghost use Rattle.gba_psg.specs.Registers.{tones_kept, tones_read, tones_written};
    ghost use Rattle.gba_psg.specs.Soundness.{AreSound};
    ghost use Rattle.gba_psg.specs.Tones.{after_cycles, channels_on, tone_at as tone_of_four, tones_at_reset};

    /// The state at reset: all numbers are 0.
    pub fn new() -> Tones
        ensures { result ≡ tones_at_reset }
    {
        Tones { four: RESET }
    }

    /// The tones of these numbers, which are in the order of the state file: the sequencer, and then for each channel
    /// on, place, wait, left, volume, fade, sweep and shadow; the bytes of banks 0 and 1 of the wave; and what is
    /// stored at 060h, 062h, 064h, 068h, 06Ch, 070h, 072h, 074h, 078h, 07Ch, 080h, 082h and 084h, of which only bit 7
    /// counts of the last. They have to be sound.
    #[tactic(auto, unfolding(crate::specs::Numbers::tones_of))]
    pub fn of(numbers: &[u32; 33], bank0: &[u8; 16], bank1: &[u8; 16], halves: &[u16; 13]) -> Tones
        requires { AreSound (tones_of numbers.now bank0.now bank1.now halves.now) }
        ensures { result ≡ tones_of numbers.now bank0.now bank1.now halves.now }
    {
        let four = FourTones {
            is_on: bit(u32::from(halves[12]), 7),
            sequencer: numbers[0],
            sweep: halves[0],
            square1: Square {
                tone: tone_at(1, numbers),
                shape: halves[1],
                control: halves[2],
            },
            square2: Square {
                tone: tone_at(9, numbers),
                shape: halves[3],
                control: halves[4],
            },
            wave: Wave {
                tone: tone_at(17, numbers),
                select: halves[5],
                level: halves[6],
                control: halves[7],
                bank0: *bank0,
                bank1: *bank1,
            },
            noise: Noise {
                tone: tone_at(25, numbers),
                shape: halves[8],
                control: halves[9],
            },
            mixer: halves[10],
            ratio: halves[11],
        };
        Tones { four }
    }

    /// The cycles since the master enable was set, modulo 262,144.
    pub fn sequencer(&self) -> u32
        ensures value { result ≡ self.now.sequencer }
        ensures most { result < 0x40000 }
    {
        self.four.sequencer
    }

    /// A channel's numbers, by the channel's number less 1, which is below 4.
    pub fn tone(&self, channel: u32) -> Tone
        requires { channel < 4 }
        ensures { result ≡ tone_of_four channel self.now }
    {
        self.four.tone(channel)
    }

    /// The bytes of a bank of the wave, 0 or 1.
    pub fn bank(&self, bank: u32) -> [u8; 16]
        requires { bank < 2 }
        ensures { result ≡ (if bank == 0 then self.now.wave.bank0 else self.now.wave.bank1) }
    {
        match bank {
            0 => self.four.wave.bank0,
            _ => self.four.wave.bank1,
        }
    }

    /// The channels that are on, 1 to 4, in bits 0 to 3.
    pub fn on(&self) -> u16
        ensures value { result ≡ channels_on self.now }
        ensures most { result ≤ 15 }
    {
        self.four.channels_on()
    }

    /// What is stored at the halfword at an offset from 04000000h, also where it doesn't read: at 060h to 080h, 082h of
    /// the bits 0 and 1, at 084h, and at 090h to 09Eh the bytes of the bank that isn't the first. 0 elsewhere. It is
    /// also what a byte write keeps of the other byte.
    pub fn kept(&self, offset: u32) -> u16
        ensures { result ≡ tones_kept offset self.now }
    {
        self.four.kept(offset)
    }

    /// What the halfword at an offset reads. SOUNDCNT_H 082h is direct sound's and reads 0 here.
    pub fn read(&self, offset: u32) -> u16
        ensures { result ≡ tones_read offset self.now }
    {
        self.kept(offset) & read_mask(offset)
    }

    /// Writes the halfword at an offset. Bit 15 of 064h, 06Ch, 074h and 07Ch starts a channel. While the master enable,
    /// bit 7 of SOUNDCNT_X 084h, is 0, writes to 060h to 081h are dropped; a write that makes it 0 makes everything 0
    /// but the bytes of the wave and the bits of SOUNDCNT_H. Elsewhere nothing is written.
    #[tactic(auto, unfolding(crate::specs::Registers::tones_written))]
    pub fn write(&mut self, offset: u32, value: u16)
        ensures { self.new ≡ tones_written offset value self.old }
    {
        let starts = bit(u32::from(value), 15);
        self.four.set(offset, value & write_mask(offset), starts);
    }

    /// Moves the channels by 1,024 cycles at most.
    #[inline]
    pub fn advance(&mut self, cycles: u32)
        requires { cycles ≤ 1024 }
        ensures { self.new ≡ after_cycles cycles self.old }
    {
        self.four.advance(cycles);
    }

    /// What the channels give, left then right, each from 0 to 15,360.
    pub fn amount(&self) -> (i32, i32)
        ensures left { result.0 ≡ pos (left_amount self.now) }
        ensures right { result.1 ≡ pos (right_amount self.now) }
        ensures most_left { left_amount self.now ≤ 15360 }
        ensures most_right { right_amount self.now ≤ 15360 }
    {
        self.four.amount()
    }

    /// What they will give after 1,024 cycles at most, if nothing is written before.
    #[inline]
    pub fn amount_after(&self, cycles: u32) -> (i32, i32)
        requires { cycles ≤ 1024 }
        ensures left { result.0 ≡ pos (left_amount (after_cycles cycles self.now)) }
        ensures right { result.1 ≡ pos (right_amount (after_cycles cycles self.now)) }
        ensures most_left { left_amount (after_cycles cycles self.now) ≤ 15360 }
        ensures most_right { right_amount (after_cycles cycles self.now) ≤ 15360 }
    {
        self.four.amount_after(cycles)
    }
}
