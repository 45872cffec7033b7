//! The four timers and their registers.

ghost use Rattle.std.specs.Prelude.{◌≡◌, ◌≤◌};
ghost use Rattle.gba_register.specs.Rows.{row_at};
ghost use Rattle.gba_timer.specs.Timers.{timer_rows};

use crate::timer::{IDLE, Timer};
use gba_word::{bit, weight_byte};
use std::marker::Model;

/// The four timers (GBATEK, GBA Timers). All numbers are 0 at reset.
#[derive(Clone, Copy, Debug)]
pub struct Timers {
    timer0: Timer,
    timer1: Timer,
    timer2: Timer,
    timer3: Timer,
}

impl Model for Timers {
    ghost use Rattle.gba_timer.specs.Timers.{FourTimers};

    ghost Value = { FourTimers };

    ghost view = { λ ts. record { timer0 = ts.timer0; timer1 = ts.timer1; timer2 = ts.timer2; timer3 = ts.timer3 } };

    ghost inverse = { λ ts. record { timer0 = ts.timer0; timer1 = ts.timer1; timer2 = ts.timer2; timer3 = ts.timer3 } };
}

/// The bits of a timer's halfword that read, which are those that a write stores. Timer 0 is no cascade timer.
#[tactic(auto, unfolding(crate::specs::Timers::timer_rows, gba_register::specs::Rows::row_at))]
fn mask(offset: u32) -> u16
    ensures read { result ≡ (row_at timer_rows offset).read_mask }
    ensures write { result ≡ (row_at timer_rows offset).write_mask }
{
    match offset {
        0x100 | 0x104 | 0x108 | 0x10C => 0xFFFF,
        0x102 => 0x00C3,
        0x106 | 0x10A | 0x10E => 0x00C7,
        _ => 0,
    }
}

impl Timers {
    ghost use Rattle.std.specs.Prelude.{◌≡◌, ◌≤◌, ◌<◌, ℕ, length};
    ghost use Rattle.gba_timer.specs.Timers.{after_cycles, cycle, overflow_mark, requests, timer_at, timer_kept, timer_read, timer_shown, timer_written, timers_at_reset, with_marks};
    ghost use Rattle.gba_timer.specs.Quiet.{quiet, quiet_of, quiet_within};

    /// The timers at reset.
    pub fn new() -> Timers
        ensures { result ≡ timers_at_reset }
    {
        Timers {
            timer0: IDLE,
            timer1: IDLE,
            timer2: IDLE,
            timer3: IDLE,
        }
    }

    /// The timers with these numbers, whatever they are.
    pub fn of(timer0: Timer, timer1: Timer, timer2: Timer, timer3: Timer) -> Timers
        ensures { result ≡ record { timer0 = timer0; timer1 = timer1; timer2 = timer2; timer3 = timer3 } }
    {
        Timers {
            timer0,
            timer1,
            timer2,
            timer3,
        }
    }

    /// A timer by its number, which is below 4.
    pub fn timer(&self, number: u32) -> Timer
        requires { number < 4 }
        ensures { result ≡ timer_at number self.now }
    {
        match number {
            0 => self.timer0,
            1 => self.timer1,
            2 => self.timer2,
            _ => self.timer3,
        }
    }

    fn shown(&self, offset: u32) -> u16
        ensures { result ≡ timer_shown offset self.now }
    {
        match offset {
            0x100 => self.timer0.counter,
            0x102 => self.timer0.control,
            0x104 => self.timer1.counter,
            0x106 => self.timer1.control,
            0x108 => self.timer2.counter,
            0x10A => self.timer2.control,
            0x10C => self.timer3.counter,
            0x10E => self.timer3.control,
            _ => 0,
        }
    }

    /// What the halfword at an offset from 04000000h reads: timer k's counter at 100h + 4k, its control at 102h + 4k,
    /// and 0 elsewhere.
    pub fn read(&self, offset: u32) -> u16
        ensures { result ≡ timer_read offset self.now }
    {
        self.shown(offset) & mask(offset)
    }

    /// What a byte write keeps of the other byte of a halfword: of a timer's first halfword that of the reload.
    pub fn kept(&self, offset: u32) -> u16
        ensures { result ≡ timer_kept offset self.now }
    {
        match offset {
            0x100 => self.timer0.reload,
            0x104 => self.timer1.reload,
            0x108 => self.timer2.reload,
            0x10C => self.timer3.reload,
            _ => self.shown(offset),
        }
    }

    /// Writes the halfword at an offset: a timer's reload or its control. Elsewhere nothing is written.
    pub fn write(&mut self, offset: u32, value: u16)
        ensures { self.new ≡ timer_written offset value self.old }
    {
        let value = value & mask(offset);
        match offset {
            0x100 => self.timer0.set_reload(value),
            0x102 => self.timer0.set_control(value),
            0x104 => self.timer1.set_reload(value),
            0x106 => self.timer1.set_control(value),
            0x108 => self.timer2.set_reload(value),
            0x10A => self.timer2.set_control(value),
            0x10C => self.timer3.set_reload(value),
            0x10E => self.timer3.set_control(value),
            _ => {}
        }
    }

    /// Moves the timers by a cycle, from 0 to 3, and answers its mark: bit k is set where timer k overflows.
    #[tactic(auto, unfolding(crate::specs::Timers::cycle, crate::specs::Timers::overflow_mark))]
    pub fn cycle(&mut self) -> u8
        ensures timers { self.new ≡ cycle self.old }
        ensures mark { result ≡ overflow_mark self.old }
    {
        let overflow0 = self.timer0.tick(false);
        let overflow1 = self.timer1.tick(overflow0);
        let overflow2 = self.timer2.tick(overflow1);
        let overflow3 = self.timer3.tick(overflow2);
        weight_byte(1, overflow0)
            + weight_byte(2, overflow1)
            + weight_byte(4, overflow2)
            + weight_byte(8, overflow3)
    }

    /// Moves the timers by 512 cycles at most. Each cycle's entry of `mark` gets its mark, and the entries after these
    /// stay.
    pub fn advance(&mut self, cycles: u32, mark: &mut [u8])
        requires most { cycles ≤ 512 }
        requires room { cycles ≤ length mark.old }
        ensures timers { self.new ≡ after_cycles cycles self.old }
        ensures marks { mark.new ≡ with_marks cycles self.old mark.old }
    {
        for count in 0..cycles {
            mark[count as usize] = self.cycle();
        }
    }

    /// The timers of a mark that ask for their interrupt, as bits 0 to 3.
    pub fn requests(&self, mark: u8) -> u8
        ensures { result ≡ requests mark self.now }
    {
        let mark = u32::from(mark);
        weight_byte(1, bit(mark, 0) && self.timer0.asks_interrupt())
            + weight_byte(2, bit(mark, 1) && self.timer1.asks_interrupt())
            + weight_byte(4, bit(mark, 2) && self.timer2.asks_interrupt())
            + weight_byte(8, bit(mark, 3) && self.timer3.asks_interrupt())
    }

    /// The greatest number of cycles from now on, so many at most, in none of which a timer overflows.
    pub fn quiet_within(&self, most: u32) -> u32
        ensures value { result ≡ quiet_within most self.now }
        ensures most { result ≤ most }
        ensures all { (count : ℕ) → count ≤ result → quiet_within count self.now ≡ count }
    {
        let lower = self
            .timer0
            .quiet_within(most)
            .min(self.timer1.quiet_within(most));
        let upper = self
            .timer2
            .quiet_within(most)
            .min(self.timer3.quiet_within(most));
        lower.min(upper)
    }

    /// The same of 512 cycles.
    pub fn quiet(&self) -> u32
        ensures value { result ≡ quiet self.now }
        ensures most { result ≤ 512 }
        ensures all { (count : ℕ) → count ≤ result → quiet_within count self.now ≡ count }
    {
        self.quiet_within(512)
    }

    /// The same for the overflows of a timer that counts those of another: from overflow to overflow.
    fn quiet_of_follower(&self, timer: u32) -> u32
        requires { timer < 4 }
        ensures value { result ≡ quiet_of timer self.now }
        ensures most { result ≤ 512 }
    {
        let mut timers = *self;
        let mut left = 512;
        while left > 0 {
            let quiet = timers.quiet();
            if left <= quiet {
                return 512;
            }
            timers.skip(quiet);
            left -= quiet;
            if bit(u32::from(timers.cycle()), timer) {
                return 512 - left;
            }
            left -= 1;
        }
        512
    }

    /// The same as [`Timers::quiet`] for the overflows of one timer alone, while the others go on. The
    /// timer is below 4.
    pub fn quiet_of(&self, timer: u32) -> u32
        requires { timer < 4 }
        ensures value { result ≡ quiet_of timer self.now }
        ensures most { result ≤ 512 }
    {
        let one = self.timer(timer);
        if one.follows() {
            self.quiet_of_follower(timer)
        } else {
            one.quiet_within(512)
        }
    }

    /// Moves the timers by so many cycles at once, 1,024 at most, in which none overflows.
    #[tactic(auto, unfolding(crate::specs::Skipping::after_skip))]
    pub fn skip(&mut self, cycles: u32)
        requires quiet { quiet_within cycles self.old ≡ cycles }
        requires few { cycles ≤ 1024 }
        ensures { self.new ≡ after_cycles cycles self.old }
    {
        self.timer0.skip(cycles);
        self.timer1.skip(cycles);
        self.timer2.skip(cycles);
        self.timer3.skip(cycles);
    }
}
