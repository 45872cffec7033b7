//! The place of the picture.

ghost use Rattle.std.specs.Prelude.{◌≡◌, ◌≤◌};

use gba_word::{bits, weight_half};

/// The place of the picture (GBATEK, LCD Dimensions and Timings): the line, from 0 to 227, of which 0 to 159 are drawn,
/// and the dot, which is the cycle in the line, from 0 to 1,231. Both are 0 at reset.
#[derive(Clone, Copy, Debug, PartialEq, Eq)]
pub struct Position {
    pub line: u32,
    pub dot: u32,
}

/// What came within some cycles: the cycle, counted from 1, in which HBlank began and that in which a line began.
#[derive(Clone, Copy, Debug, PartialEq, Eq)]
pub struct PictureEvents {
    pub hblank: Option<u32>,
    pub line_start: Option<u32>,
}

impl Position {
    ghost use Rattle.std.specs.Prelude.{◌≡◌, ◌<◌, ◌≤◌, ℕ};
    ghost use Rattle.gba_ppu_reg.specs.Position.{IsPosition, after_cycles, cycle, distance, events, first_cycle, flags, following_line};
    ghost use Rattle.gba_ppu_reg.specs.Quiet.{quiet, quiet_within};

    fn following_line(&self) -> u32
        requires { IsPosition self.now }
        ensures { result ≡ following_line self.now.line }
    {
        if self.line == 227 { 0 } else { self.line + 1 }
    }

    /// Moves by a cycle.
    pub fn cycle(&mut self)
        requires { IsPosition self.old }
        ensures position { self.new ≡ cycle self.old }
        ensures sound { IsPosition self.new }
    {
        if self.dot == 1231 {
            self.line = self.following_line();
            self.dot = 0;
        } else {
            self.dot += 1;
        }
    }

    /// How many cycles it is to a dot, in this line or the next.
    fn distance(&self, dot: u32) -> u32
        requires sound { IsPosition self.now }
        requires dot { dot < 1232 }
        ensures value { result ≡ distance dot self.now }
        ensures positive { 1 ≤ result }
    {
        if self.dot < dot {
            dot - self.dot
        } else {
            dot + 1232 - self.dot
        }
    }

    /// The cycle, counted from 1, that comes to a dot, if it is one of the next so many.
    fn next_at(&self, dot: u32, cycles: u32) -> Option<u32>
        requires sound { IsPosition self.now }
        requires dot { dot < 1232 }
        requires most { cycles ≤ 512 }
        ensures { result ≡ first_cycle dot cycles self.now }
    {
        let distance = self.distance(dot);
        if distance <= cycles {
            Some(distance)
        } else {
            None
        }
    }

    /// Moves by cycles, without a word on what comes.
    fn go_on(&mut self, cycles: u32)
        requires sound { IsPosition self.old }
        requires most { cycles ≤ 512 }
        ensures position { self.new ≡ after_cycles cycles self.old }
        ensures sound { IsPosition self.new }
    {
        let moved = self.dot + cycles;
        if moved < 1232 {
            self.dot = moved;
        } else {
            self.line = self.following_line();
            self.dot = moved - 1232;
        }
    }

    /// Moves by 512 cycles at most, and answers the cycles at which something came.
    pub fn advance(&mut self, cycles: u32) -> PictureEvents
        requires sound { IsPosition self.old }
        requires most { cycles ≤ 512 }
        ensures position { self.new ≡ after_cycles cycles self.old }
        ensures sound { IsPosition self.new }
        ensures events { result ≡ events cycles self.old }
    {
        let hblank = self.next_at(1006, cycles);
        let line_start = self.next_at(0, cycles);
        self.go_on(cycles);
        PictureEvents { hblank, line_start }
    }

    /// The greatest number of cycles from now on, so many at most, in none of which HBlank or a line begins.
    pub fn quiet_within(&self, most: u32) -> u32
        requires { IsPosition self.now }
        ensures value { result ≡ quiet_within most self.now }
        ensures most { result ≤ most }
        ensures all { (count : ℕ) → count ≤ result → quiet_within count self.now ≡ count }
    {
        let nearest = self.distance(1006).min(self.distance(0));
        (nearest - 1).min(most)
    }

    /// The same of 512 cycles.
    pub fn quiet(&self) -> u32
        requires { IsPosition self.now }
        ensures value { result ≡ quiet self.now }
        ensures most { result ≤ 512 }
        ensures all { (count : ℕ) → count ≤ result → quiet_within count self.now ≡ count }
    {
        self.quiet_within(512)
    }

    /// Moves by so many cycles at once, in which nothing comes.
    pub fn skip(&mut self, cycles: u32)
        requires sound { IsPosition self.old }
        requires quiet { quiet_within cycles self.old ≡ cycles }
        ensures position { self.new ≡ after_cycles cycles self.old }
        ensures sound { IsPosition self.new }
    {
        self.dot += cycles;
    }

    /// The flags of DISPSTAT at this place, bits 0 to 2, by the line to match in DISPSTAT's bits 8 to 15.
    pub fn flags(&self, status: u16) -> u16
        ensures value { result ≡ flags status self.now }
        ensures most { result ≤ 7 }
    {
        let matched = self.line == bits(u32::from(status), 8, 8);
        weight_half(1, self.line >= 160 && self.line < 227)
            + weight_half(2, self.dot >= 1006)
            + weight_half(4, matched)
    }
}
