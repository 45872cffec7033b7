//! Idling: many steps of a halted console, in which nothing but its devices goes on, and one of them.

use crate::Console;
use crate::acting::IDLE_CYCLES;
use crate::doing::{Told, What};
use crate::laws::steps_pass;
use gba_devices::laws::calm_has_begun;
use gba_io::laws::board_passes;
use gba_serial::laws::stays_quiet;

impl Console {
    ghost use Rattle.std.specs.Prelude.{◌≡◌, ◌+◌, ◌*◌, ◌≤◌, ◌<◌, None, true};
    ghost use Rattle.gba_console.specs.Idling.{CanIdle, KeepsIdling};
    ghost use Rattle.gba_console.specs.Machine.{clock_of};
    ghost use Rattle.gba_console.specs.Run.{GoesAlone};
    ghost use Rattle.gba_console.specs.Step.{next};
    ghost use Rattle.gba_io.specs.Core.{core_is_idle};

    /// Makes one idle step, and answers whether nothing asks for more than idling after it. It tells nothing.
    #[inline(always)]
    pub(crate) fn step_idly(&mut self) -> bool
        requires { CanIdle (clock_of self.old + 1) self.old }
        ensures step { self.new ≡ next self.old }
        ensures clock { clock_of self.new ≡ clock_of self.old + 16 }
        ensures keeps { KeepsIdling self.old self.new }
        ensures idle { result ≡ core_is_idle self.new.board.core }
    {
        calm_has_begun();
        stays_quiet();
        board_passes();
        let idled = IDLE_CYCLES;
        self.board.advance(idled);
        self.cycles = idled;
        self.told = Told::Aside;
        self.aside = What::Idle;
        self.board.core.is_idle()
    }

    /// Whether nothing but the keys and the end of a transfer may ask for more than idling.
    pub(crate) fn is_idle(&self) -> bool
        ensures { result ≡ core_is_idle self.now.board.core }
    {
        self.board.core.is_idle()
    }

    /// Makes as many of so many idle steps as nothing happens in, all at once, and answers how many. All of them begin
    /// below `stop`, and they tell nothing.
    fn go_quietly(&mut self, stop: u64, most: u32) -> u32
        requires below { clock_of self.old + 16 * most < stop + 16 }
        requires idles { CanIdle stop self.old }
        ensures alone { GoesAlone stop self.old self.new None }
        ensures clock { clock_of self.new ≡ clock_of self.old + 16 * result }
        ensures keeps { KeepsIdling self.old self.new }
        ensures idle { core_is_idle self.new.board.core ≡ true }
    {
        calm_has_begun();
        stays_quiet();
        board_passes();
        steps_pass();
        let steps = self.board.owe_steps(IDLE_CYCLES, most);
        if steps == 0 {
            return 0;
        }
        self.cycles = IDLE_CYCLES;
        self.told = Told::Aside;
        self.aside = What::Idle;
        steps
    }

    /// Makes idle steps, up to the first one in which something happens and that one too, but no more than 64,
    /// and answers whether nothing asks for more than idling after them. All of them begin below `stop`, and they
    /// tell nothing.
    #[inline(always)]
    fn go_past_event(&mut self, stop: u64) -> bool
        requires below { clock_of self.old < stop }
        requires idles { CanIdle stop self.old }
        ensures alone { GoesAlone stop self.old self.new None }
        ensures rises { clock_of self.old < clock_of self.new }
        ensures keeps { KeepsIdling self.old self.new }
        ensures idle { result ≡ core_is_idle self.new.board.core }
    {
        stays_quiet();
        steps_pass();
        let left = (stop - self.clock()).min(1024) as u32;
        let most = (left + IDLE_CYCLES - 1) / IDLE_CYCLES;
        let steps = self.go_quietly(stop, most);
        if most <= steps {
            return true;
        }
        self.step_idly()
    }

    /// Idles while nothing asks for more and the clock is below `end`. Such steps tell nothing.
    #[inline(never)]
    pub(crate) fn go_idly(&mut self, end: u64)
        requires { end ≤ self.old.board.made.until }
        ensures alone { GoesAlone end self.old self.new None }
        ensures later { clock_of self.old ≤ clock_of self.new }
        ensures until { self.new.board.made.until ≡ self.old.board.made.until }
    {
        stays_quiet();
        if !self.is_idle() {
            return;
        }
        let stop = end.min(self.due()).min(self.next_end());
        while self.clock() < stop {
            if !self.go_past_event(stop) {
                return;
            }
        }
    }
}
