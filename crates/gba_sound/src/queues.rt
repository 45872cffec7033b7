//! The two queues and their registers.

ghost use Rattle.std.specs.Prelude.{◌≡◌, ◌≤ℤ◌, pos, negsuc};
ghost use Rattle.gba_register.specs.Rows.{row_at};
ghost use Rattle.gba_sound.specs.Queues.{loudness as loudness_of, sound_rows};

use crate::Asked;
use crate::queue::Queue;
use gba_timer::Timers;
use gba_word::bit;
use std::marker::Model;

/// Queues A and B, which are 0 and 1 below, with SOUNDCNT_H, SOUNDCNT_X and SOUNDBIAS (GBATEK, GBA Sound Channel A and
/// B, GBA Sound Control Registers).
#[derive(Debug, Drop)]
pub struct Queues {
    queue_a: Queue,
    queue_b: Queue,
    control: u16,
    is_on: bool,
    bias: u16,
}

impl Model for Queues {
    ghost use Rattle.gba_sound.specs.Queues.{DirectSound};

    ghost Value = { DirectSound };

    ghost view = { λ s. record {
      queue_a = s.queue_a;
      queue_b = s.queue_b;
      control = s.control;
      is_on = s.is_on;
      bias = s.bias;
    } };
}

/// The bits of a halfword that read, which are those that a write stores.
#[tactic(auto, unfolding(crate::specs::Queues::sound_rows, gba_register::specs::Rows::row_at))]
fn mask(offset: u32) -> u16
    ensures read { result ≡ (row_at sound_rows offset).read_mask }
    ensures write { result ≡ (row_at sound_rows offset).write_mask }
{
    match offset {
        0x082 => 0x770F,
        0x084 => 0x0080,
        0x088 => 0xC3FE,
        _ => 0,
    }
}

/// A byte as a signed sample at full or half volume.
fn loudness(is_full: bool, byte: u8) -> i16
    ensures value { result ≡ loudness_of is_full byte }
    ensures least { negsuc 8191 ≤ℤ result }
    ensures most { result ≤ℤ pos 8128 }
{
    let sample = i16::from(byte.cast_signed());
    if is_full { sample * 64 } else { sample * 32 }
}

impl Queues {
    ghost use Rattle.std.specs.Prelude.{◌≡◌, ◌<◌, ◌≤◌, ◌≤ℤ◌, pos, negsuc, length};
    ghost use Rattle.gba_sound.specs.Queue.{has_room};
    ghost use Rattle.gba_sound.specs.Queues.{after_overflow, after_word, amount, asked, chose, goes_left, goes_right, has_full_volume, left_sample, queue_at, right_sample, side, sound_at_reset, sound_read, sound_shown, sound_written, timer_of};
    ghost use Rattle.gba_sound.specs.Quiet.{quiet, sound_after};

    /// The state at reset: both queues are empty, and SOUNDBIAS is 0200h.
    pub fn new() -> Queues
        ensures { result ≡ sound_at_reset }
    {
        Queues {
            queue_a: Queue::new(),
            queue_b: Queue::new(),
            control: 0,
            is_on: false,
            bias: 0x0200,
        }
    }

    /// Direct sound with these queues, whatever SOUNDCNT_H is as it is stored, the master enable, and SOUNDBIAS.
    pub fn of(queue_a: Queue, queue_b: Queue, control: u16, is_on: bool, bias: u16) -> Queues
        ensures { result ≡ record {
          queue_a = queue_a;
          queue_b = queue_b;
          control = control;
          is_on = is_on;
          bias = bias;
        } }
    {
        Queues {
            queue_a,
            queue_b,
            control,
            is_on,
            bias,
        }
    }

    /// The current byte of a queue, a signed sample.
    pub fn current(&self, queue: u32) -> u8
        requires { queue < 2 }
        ensures { result ≡ (queue_at queue self.now).current }
    {
        match queue {
            0 => self.queue_a.current(),
            _ => self.queue_b.current(),
        }
    }

    /// The bytes that a queue holds, oldest first, 32 at most.
    pub fn held(&self, queue: u32) -> &[u8]
        requires { queue < 2 }
        ensures bytes { result.now ≡ (queue_at queue self.now).bytes }
        ensures most { length result.now ≤ 32 }
    {
        match queue {
            0 => self.queue_a.bytes(),
            _ => self.queue_b.bytes(),
        }
    }

    /// Pushes the four bytes of a word to a queue, the low one first. False exactly where more than 28 bytes are held,
    /// and then the word is dropped.
    pub fn push_word(&mut self, queue: u32, word: u32) -> bool
        requires { queue < 2 }
        ensures queues { self.new ≡ after_word queue word self.old }
        ensures room { result ≡ has_room (queue_at queue self.old) }
    {
        match queue {
            0 => self.queue_a.push(word),
            _ => self.queue_b.push(word),
        }
    }

    /// The timer that a queue chose.
    fn timer_of(&self, queue: u32) -> u32
        requires { queue < 2 }
        ensures value { result ≡ timer_of queue self.now }
        ensures most { result ≤ 1 }
    {
        if bit(u32::from(self.control), 10 + 4 * queue) {
            1
        } else {
            0
        }
    }

    fn chose(&self, timer: u32, queue: u32) -> bool
        requires { queue < 2 }
        ensures { result ≡ chose timer queue self.now }
    {
        timer == self.timer_of(queue)
    }

    /// A timer overflowed: each queue that chose it takes its next byte. Answers the queues that ask for DMA. Timers 2
    /// and up are chosen by none.
    pub fn overflow(&mut self, timer: u32) -> Asked
        ensures queues { self.new ≡ after_overflow timer self.old }
        ensures asked { result ≡ asked timer self.old }
    {
        let a = self.chose(timer, 0) && self.queue_a.take();
        let b = self.chose(timer, 1) && self.queue_b.take();
        Asked { a, b }
    }

    /// The greatest number of cycles from now on, 512 at most, in none of which a timer overflows that a queue chose,
    /// where these are the timers.
    pub fn quiet(&self, timers: &Timers) -> u32
        ensures value { result ≡ quiet timers.now self.now }
        ensures most { result ≤ 512 }
    {
        timers
            .quiet_of(self.timer_of(0))
            .min(timers.quiet_of(self.timer_of(1)))
    }

    /// Moves by so many cycles at once, where these are the timers as they are before. No queue takes a byte in them,
    /// so nothing is to be done.
    pub fn skip(&mut self, cycles: u32, timers: &Timers)
        requires { cycles ≤ quiet timers.now self.old }
        ensures { self.new ≡ sound_after cycles timers.now self.old }
    {}

    /// What a queue gives to a side to which it is sent or not.
    fn amount(&self, is_sent: bool, queue: u32) -> i16
        requires { queue < 2 }
        ensures value { result ≡ amount is_sent queue self.now }
        ensures least { negsuc 8191 ≤ℤ result }
        ensures most { result ≤ℤ pos 8128 }
    {
        if !is_sent {
            return 0;
        }
        let is_full = bit(u32::from(self.control), 2 + queue);
        loudness(is_full, self.current(queue))
    }

    /// The sum of the queues that are sent to a side.
    fn side(&self, has_a: bool, has_b: bool) -> i16
        ensures value { result ≡ side has_a has_b self.now }
        ensures least { negsuc 16383 ≤ℤ result }
        ensures most { result ≤ℤ pos 16256 }
    {
        if !self.is_on {
            return 0;
        }
        self.amount(has_a, 0) + self.amount(has_b, 1)
    }

    /// The sample of the two queues, left then right, each from -16,384 to 16,256. Both are 0 where the sound is off.
    pub fn sample(&self) -> (i16, i16)
        ensures left { result.0 ≡ left_sample self.now }
        ensures right { result.1 ≡ right_sample self.now }
        ensures least_left { negsuc 16383 ≤ℤ result.0 }
        ensures least_right { negsuc 16383 ≤ℤ result.1 }
        ensures most_left { result.0 ≤ℤ pos 16256 }
        ensures most_right { result.1 ≤ℤ pos 16256 }
    {
        let control = u32::from(self.control);
        let left = self.side(bit(control, 9), bit(control, 13));
        let right = self.side(bit(control, 8), bit(control, 12));
        (left, right)
    }

    fn shown(&self, offset: u32) -> u16
        ensures { result ≡ sound_shown offset self.now }
    {
        match offset {
            0x082 => self.control,
            0x084 => { if self.is_on { 0x80 } else { 0 } }
            0x088 => self.bias,
            _ => 0,
        }
    }

    /// What the halfword at an offset from 04000000h reads: SOUNDCNT_H 082h, SOUNDCNT_X 084h, SOUNDBIAS 088h, and 0
    /// elsewhere. It is also what a byte write keeps of the other byte.
    pub fn read(&self, offset: u32) -> u16
        ensures { result ≡ sound_read offset self.now }
    {
        self.shown(offset) & mask(offset)
    }

    /// Writes SOUNDCNT_H, and empties the queues whose reset bits are 1.
    fn set_control(&mut self, value: u16)
        ensures { self.new ≡ sound_written 0x082 value self.old }
    {
        self.control = value & mask(0x082);
        if bit(u32::from(value), 11) {
            self.queue_a = Queue::new();
        }
        if bit(u32::from(value), 15) {
            self.queue_b = Queue::new();
        }
    }

    /// Writes the halfword at an offset. Bits 11 and 15 of SOUNDCNT_H empty queue A and B, and make their current
    /// byte 0. Elsewhere nothing is written; words for the queues come by [`Queues::push_word`].
    pub fn write(&mut self, offset: u32, value: u16)
        ensures { self.new ≡ sound_written offset value self.old }
    {
        match offset {
            0x082 => self.set_control(value),
            0x084 => self.is_on = bit(u32::from(value), 7),
            0x088 => self.bias = value & mask(0x088),
            _ => {}
        }
    }
}
