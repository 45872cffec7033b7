//! The board.

use crate::in_step::cycles_in;
use crate::laws::board_passes;
use crate::{Base, Core, Ended, Made, Room};
use gba_image::ConsoleImages;
use gba_terms::NoMemory;
use std::alloc::Global;

/// A board: its core, what it has made, and the transfers that ended.
#[derive(Drop)]
pub struct Board {
    pub core: Core,
    pub made: Made,
    pub ended: Ended,
}

impl Board {
    ghost use Rattle.std.specs.Prelude.{◌≡◌, ℕ, ◌+◌, ◌*◌, ◌<◌, ◌≤◌, ◌^◌, true, false, IfOk};
    ghost use Rattle.gba_devices.specs.Cycles.{draws_line};
    ghost use Rattle.gba_devices.specs.State.{is_idle};
    ghost use Rattle.gba_image.specs.Checks.{SaveFits};
    ghost use Rattle.gba_io.specs.Base.{IsBase};
    ghost use Rattle.gba_io.specs.Board.{HasRoom, IsInStep, base_of, board_after, board_at_start, board_begun_at, board_cycle, board_emptied};
    ghost use Rattle.gba_io.specs.Board.{board_drawn, board_from, core_in_cycle};

    /// A board at reset, at clock 0, of a player below `count`, on a cable of 1 to 4 consoles whose signals take
    /// `round` cycles, from 1 to 1,024. Its save was checked for its backup; its images are dropped on refusal. The
    /// room for what it makes in 2^24 cycles and for the transfers that end in them is taken now.
    pub fn new(
        alloc: Global,
        player: u32,
        count: u32,
        round: u64,
        images: ConsoleImages,
        room: Room,
    ) -> Result<Board, NoMemory>
        requires player { player < count }
        requires count { count ≤ 4 }
        requires least_round { 2 ≤ round }
        requires most_round { round ≤ 2048 }
        requires until { room.until ≤ 16777216 }
        requires save { SaveFits images.save images.backup }
        ensures { IfOk result (λ board. board
            ≡ board_at_start player count round images.bios images.cart images.save images.backup room) }
    {
        Ok(Board {
            core: Core::new(alloc, player, count, round, images)?,
            made: Made::new(alloc, room)?,
            ended: Ended::new(alloc, room)?,
        })
    }

    /// Where lists begin that are emptied now.
    fn base(&self) -> Base
        requires step { IsInStep self.now }
        requires clock { self.now.core.devices.clock ≤ 2 ^ 39 + 511 }
        requires few { self.now.ended.count ≤ 2 ^ 41 }
        ensures value { result ≡ base_of self.now }
        ensures sound { IsBase result }
    {
        // The counts at the last base bound those of now.
        let _ = self.made.base();
        let counts = self.counts();
        Base {
            clock: self.core.clock(),
            pairs: counts.samples,
            frames: counts.frames,
            words: counts.words,
            cycles: u64::from(cycles_in(&self.core.devices().place())),
        }
    }

    /// Makes a clock that hasn't come yet the one at which the lists begin of what it makes, and `until` the end of
    /// their room, at most 2^24 cycles later: up to that clock the console is off.
    pub fn begin_at(&mut self, clock: u64, until: u64)
        requires made { self.old.made.base.clock ≤ clock }
        requires ended { self.old.ended.base.clock ≤ clock }
        requires few { clock ≤ 2 ^ 39 + 511 }
        requires near { until ≤ clock + 16777216 }
        ensures { self.new ≡ board_begun_at clock until self.old }
    {
        self.made.begin_at(clock, until);
        self.ended.begin_at(clock, until);
    }

    /// Empties the lists of what it has made and of the transfers that ended, all of which stay counted, and makes
    /// `until` the end of their room, at most 2^24 cycles on. It takes no memory: the room for as much was taken
    /// at the start.
    pub fn forget(&mut self, until: u64)
        requires near { until ≤ self.old.core.devices.clock + 16777216 }
        requires step { IsInStep self.old }
        requires clock { self.old.core.devices.clock ≤ 2 ^ 39 + 511 }
        requires few { self.old.ended.count ≤ 2 ^ 41 }
        ensures { self.new ≡ board_from (base_of self.old) until (board_emptied self.old) }
    {
        let base = self.base();
        self.made.forget(base, until);
        self.ended.forget(base, until);
    }

    /// Draws the line in which HBlank is about to begin. With the last one the frame is whole.
    #[inline(never)]
    fn draw_line(&mut self)
        requires drawn { draws_line self.old.core.devices ≡ true }
        requires room { HasRoom 1 self.old }
        ensures { self.new ≡ board_drawn self.old }
    {
        let line = self.core.devices().place().line;
        self.core.draw_line();
        if line == 159 {
            self.core.end_frame(&mut self.made);
        }
    }

    /// Draws a line where HBlank is about to begin in one.
    fn draw_due(&mut self)
        requires { HasRoom 1 self.old }
        ensures { self.new ≡ board_drawn self.old }
    {
        if self.core.draws_line() {
            self.draw_line();
        }
    }

    /// A cycle of the devices, and the line that it draws.
    fn cycle_core(&mut self)
        requires { HasRoom 1 self.old }
        ensures { self.new ≡ record (board_drawn self.old) { core = core_in_cycle self.old.core } }
    {
        if self.core.owe_pair() {
            return;
        }
        self.draw_due();
        self.core.cycle();
    }

    /// A cycle of the devices, and what it makes.
    #[tactic(auto, unfolding(crate::specs::Board::board_cycle))]
    fn cycle(&mut self)
        requires { HasRoom 1 self.old }
        ensures { self.new ≡ board_cycle self.old }
    {
        let makes_pair = self.core.makes_pair();
        self.cycle_core();
        if makes_pair {
            let (left, right) = self.core.sample();
            self.made.add_pair(left, right);
        }
    }

    /// Moves by some of so many cycles: the quiet ones at once, and the next. Answers how many.
    fn pass_some(&mut self, most: u32) -> u32
        requires one { 1 ≤ most }
        requires room { HasRoom most self.old }
        ensures board { self.new ≡ board_after result self.old }
        ensures least { 1 ≤ result }
        ensures most { result ≤ most }
    {
        board_passes();
        let quiet = self.core.pass_quietly(most);
        if quiet == most {
            return most;
        }
        self.cycle();
        quiet + 1
    }

    /// Moves by so many cycles, in which something may happen.
    #[inline(never)]
    fn pass(&mut self, cycles: u32)
        requires { HasRoom cycles self.old }
        ensures { self.new ≡ board_after cycles self.old }
    {
        board_passes();
        let mut left = cycles;
        while left > 0 {
            left -= self.pass_some(left);
        }
    }

    /// The same where samples aren't kept, so that pairs are only counted.
    fn owe_unheard(&mut self, cycles: u32, most: u32) -> u32
        requires some { 1 ≤ cycles }
        requires clock { self.old.core.devices.clock + 1024 < 2 ^ 40 }
        requires step { IsInStep self.old }
        requires unheard { self.old.made.keeps_samples ≡ false }
        ensures owed { self.new ≡ board_after (cycles * result) self.old }
        ensures idle { (steps : ℕ) → steps ≤ result
            → is_idle (board_after (cycles * steps) self.old).core.devices ≡ is_idle self.old.core.devices }
        ensures most { result ≤ most }
    {
        board_passes();
        // The base bounds the pairs.
        let _ = self.made.base();
        let before = self.core.clock() / 512;
        let steps = self.core.owe_unheard(cycles, most);
        self.made.count_pairs(self.core.clock() / 512 - before);
        steps
    }

    /// Moves by as many of so many steps of so many cycles as nothing happens in but pairs of samples that aren't kept,
    /// and answers how many.
    #[inline]
    pub fn owe_steps(&mut self, cycles: u32, most: u32) -> u32
        requires some { 1 ≤ cycles }
        requires clock { self.old.core.devices.clock + 1024 < 2 ^ 40 }
        requires step { IsInStep self.old }
        ensures owed { self.new ≡ board_after (cycles * result) self.old }
        ensures idle { (steps : ℕ) → steps ≤ result
            → is_idle (board_after (cycles * steps) self.old).core.devices ≡ is_idle self.old.core.devices }
        ensures most { result ≤ most }
    {
        board_passes();
        if !self.made.keeps_samples() {
            return self.owe_unheard(cycles, most);
        }
        self.core.owe_steps(cycles, most)
    }

    /// Moves by so many cycles where nothing happens in them, and answers whether it did.
    #[inline]
    pub fn owe(&mut self, cycles: u32) -> bool
        requires few { cycles ≤ 512 }
        requires clock { self.old.core.devices.clock + cycles < 2 ^ 40 }
        ensures owed { result ≡ true → self.new ≡ board_after cycles self.old }
        ensures idle { is_idle self.new.core.devices ≡ is_idle self.old.core.devices }
        ensures serial { self.new.core.serial ≡ self.old.core.serial }
        ensures left { result ≡ false → self.new ≡ self.old }
    {
        board_passes();
        self.core.owe(cycles)
    }

    /// Moves by the cycles of a step.
    #[inline]
    pub fn advance(&mut self, cycles: u32)
        requires few { cycles ≤ 512 }
        requires room { HasRoom cycles self.old }
        ensures { self.new ≡ board_after cycles self.old }
    {
        if !self.owe(cycles) {
            self.pass(cycles);
        }
    }
}
