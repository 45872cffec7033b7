//! Many plain steps, each of which executes an instruction and nothing else, in one loop that keeps little.

use crate::Console;
use crate::acting::execute;
use crate::laws::{acts_pass, steps_pass};
use gba_devices::laws::calm_has_begun;
use gba_io::laws::board_passes;
use gba_serial::laws::stays_quiet;
use link_node::Signal;

impl Console {
    ghost use Rattle.std.specs.Prelude.{ℕ, ◌≡◌, ◌+◌, ◌≤◌, ◌<◌, true};
    ghost use Rattle.gba_console.specs.Keys.{due_of};
    ghost use Rattle.gba_console.specs.Machine.{clock_of, left_of};
    ghost use Rattle.gba_console.specs.Run.{GoesAlone, news};
    ghost use Rattle.gba_console.specs.Step.{next};
    ghost use Rattle.gba_console.specs.Waiting.{IsPlain};
    ghost use Rattle.gba_io.specs.Core.{core_is_calm};
    ghost use Rattle.gba_serial.specs.Apart.{next_end};

    /// Makes a plain step, and answers its cycles. No transfer ends in it, and none that begins in it ends soon.
    #[inline(always)]
    fn step_plainly(&mut self) -> u32
        requires clock { clock_of self.old < self.old.board.made.until }
        requires plain { IsPlain self.old }
        ensures step { self.new ≡ next self.old }
        ensures keys { left_of self.new ≡ left_of self.old }
        ensures off { self.new.off ≡ self.old.off }
        ensures ends { (bound : ℕ) → bound ≤ clock_of self.old + 512 → bound ≤ next_end self.old.board.core.serial
            → bound ≤ next_end self.new.board.core.serial }
        ensures clock { clock_of self.new ≡ clock_of self.old + result }
        ensures some { 1 ≤ result }
        ensures until { self.new.board.made.until ≡ self.old.board.made.until }
    {
        acts_pass();
        calm_has_begun();
        stays_quiet();
        board_passes();
        self.at = self.registers.get(15);
        let cycles = execute(
            &mut self.registers,
            &mut self.board.core,
            self.words.as_mut_slice(),
            self.halves.as_mut_slice(),
            &mut self.told,
        );
        self.cycles = cycles;
        self.board.advance(cycles);
        cycles
    }

    /// Whether nothing but the keys and the end of a transfer may ask for more than an instruction.
    #[inline(always)]
    pub(crate) fn is_calm(&self) -> bool
        ensures { result ≡ core_is_calm self.now.board.core }
    {
        self.board.core.is_calm()
    }

    /// What the last step told.
    pub(crate) fn news(&self) -> Option<Signal>
        ensures { result ≡ news self.now }
    {
        self.board.core.signal(self.was())
    }

    /// Makes plain steps until something asks for more or `most` cycles have passed, from 1 to 512. In these cycles no
    /// keys change and no transfer ends. Only the last step may tell something.
    #[inline(never)]
    pub(crate) fn go_plainly_for(&mut self, most: u32)
        requires some { 1 ≤ most }
        requires few { most ≤ 512 }
        requires until { clock_of self.old + most ≤ self.old.board.made.until }
        requires keys { clock_of self.old + most ≤ due_of (left_of self.old) }
        requires ends { clock_of self.old + most ≤ next_end self.old.board.core.serial }
        requires calm { core_is_calm self.old.board.core ≡ true }
        requires on { self.old.off ≤ clock_of self.old }
        ensures alone { GoesAlone (clock_of self.old + most) self.old self.new (news self.new) }
        ensures later { clock_of self.old < clock_of self.new }
        ensures until { self.new.board.made.until ≡ self.old.board.made.until }
    {
        steps_pass();
        stays_quiet();
        let mut left = most;
        loop {
            let cycles = self.step_plainly();
            if cycles >= left || !self.is_calm() {
                return;
            }
            left -= cycles;
        }
    }

    /// Makes steps while they are plain, the clock is below `end` and they tell nothing, and answers what the
    /// last one tells.
    #[inline(never)]
    pub(crate) fn go_plainly(&mut self, end: u64) -> Option<Signal>
        requires { end ≤ self.old.board.made.until }
        ensures alone { GoesAlone end self.old self.new result }
        ensures later { clock_of self.old ≤ clock_of self.new }
        ensures until { self.new.board.made.until ≡ self.old.board.made.until }
    {
        stays_quiet();
        while self.is_calm() {
            let stop = end.min(self.due()).min(self.next_end());
            let most = stop.saturating_sub(self.clock()).min(512) as u32;
            if most == 0 {
                return None;
            }
            self.go_plainly_for(most);
            if !self.is_calm() {
                return self.news();
            }
        }
        None
    }
}
