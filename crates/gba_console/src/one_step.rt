//! One step of a console, whatever is asked for in it: each call here whose name begins with `step` makes exactly one.

use crate::acting::{OFF_CYCLES, act};
use crate::doing::Told;
use crate::hearing::{learn_all, take_all};
use crate::keys::apply;
use crate::laws::{acts_pass, steps_pass};
use crate::{Console, What, due_after, due_at};
use gba_io::laws::{board_passes, ends_stay_fit};
use gba_serial::laws::stays_quiet;
use link_node::{Incoming, Signal};

impl Console {
    ghost use Rattle.std.specs.Prelude.{◌≡◌, ◌+◌, ◌≤◌, ◌<◌, All, IsTrue, None, [], false, true};
    ghost use Rattle.gba_console.specs.Machine.{clock_of};
    ghost use Rattle.gba_console.specs.Step.{next, stepped, stepped_off, stepped_on, told, told_on};
    ghost use Rattle.gba_console.specs.Waiting.{IsPlain};
    ghost use Rattle.link_node.specs.Due.{InOrder, IsDue};

    /// Makes a step, of 1 to 512 cycles, which begins below the end of the room. Nothing is due in it.
    pub fn step(&mut self)
        requires { clock_of self.old < self.old.board.made.until }
        ensures step { self.new ≡ next self.old }
        ensures raised { clock_of self.old < clock_of self.new }
        ensures short { clock_of self.new ≤ clock_of self.old + 512 }
        ensures until { self.new.board.made.until ≡ self.old.board.made.until }
    {
        steps_pass();
        let _ = self.step_fully(&[]);
    }

    /// Makes a step that takes the signals which are due, and answers what it tells.
    pub fn step_with(&mut self, due: &[Incoming]) -> Option<Signal>
        requires below { clock_of self.old < self.old.board.made.until }
        requires ordered { InOrder due.now }
        requires taken { All (IsDue self.old.was (clock_of self.old)) due.now }
        ensures step { self.new ≡ stepped due.now self.old }
        ensures signal { result ≡ told due.now self.old }
        ensures until { self.new.board.made.until ≡ self.old.board.made.until }
    {
        steps_pass();
        if due.is_empty() && self.is_plain() {
            self.step_plainly_and_tell()
        } else {
            self.step_otherwise(due)
        }
    }

    /// Whether nothing asks for more than an instruction.
    fn is_plain(&self) -> bool
        ensures { IsTrue result → IsPlain self.now }
    {
        let clock = self.clock();
        self.is_calm() && clock < self.due() && clock < self.next_end()
    }

    /// Makes a plain step, in the loop for many of them, and answers what it tells.
    fn step_plainly_and_tell(&mut self) -> Option<Signal>
        requires below { clock_of self.old < self.old.board.made.until }
        requires plain { IsPlain self.old }
        ensures step { self.new ≡ next self.old }
        ensures signal { result ≡ told [] self.old }
    {
        steps_pass();
        stays_quiet();
        self.go_plainly_for(1);
        if self.is_calm() {
            return None;
        }
        self.news()
    }

    /// Makes a step that isn't plain, behind a call, so that the code around it holds nothing for it.
    #[inline(never)]
    fn step_otherwise(&mut self, due: &[Incoming]) -> Option<Signal>
        requires below { clock_of self.old < self.old.board.made.until }
        requires ordered { InOrder due.now }
        requires taken { All (IsDue self.old.was (clock_of self.old)) due.now }
        ensures step { self.new ≡ stepped due.now self.old }
        ensures signal { result ≡ told due.now self.old }
        ensures until { self.new.board.made.until ≡ self.old.board.made.until }
    {
        steps_pass();
        if due.is_empty() && self.step_if_idle() {
            return None;
        }
        self.step_fully(due)
    }

    /// Makes an idle step if nothing asks for more, and answers whether it did. Such a step tells nothing.
    fn step_if_idle(&mut self) -> bool
        requires { clock_of self.old < self.old.board.made.until }
        ensures step { result ≡ true → self.new ≡ next self.old }
        ensures silent { result ≡ true → told [] self.old ≡ None }
        ensures left { result ≡ false → self.new ≡ self.old }
        ensures until { self.new.board.made.until ≡ self.old.board.made.until }
    {
        steps_pass();
        stays_quiet();
        let clock = self.clock();
        if !self.is_idle() || self.due() <= clock || self.next_end() <= clock {
            return false;
        }
        let _ = self.step_idly();
        true
    }

    /// Makes a step, whatever is asked for, and answers what it tells.
    #[inline(never)]
    pub(crate) fn step_fully(&mut self, due: &[Incoming]) -> Option<Signal>
        requires below { clock_of self.old < self.old.board.made.until }
        requires ordered { InOrder due.now }
        requires taken { All (IsDue self.old.was (clock_of self.old)) due.now }
        ensures step { self.new ≡ stepped due.now self.old }
        ensures signal { result ≡ told due.now self.old }
    {
        if self.is_off() {
            self.step_off(due);
            return None;
        }
        self.step_on(due)
    }

    /// Makes a step of a console that is off.
    #[tactic(auto, unfolding(crate::specs::Step::stepped_off))]
    fn step_off(&mut self, due: &[Incoming])
        requires below { clock_of self.old < self.old.board.made.until }
        requires off { clock_of self.old < self.old.off }
        ensures { self.new ≡ stepped_off due.now self.old }
    {
        steps_pass();
        let clock = self.board.core.clock();
        self.board.core.begin();
        learn_all(&mut self.board.core, due);
        self.applied = apply(
            clock,
            self.keys.as_slice(),
            self.applied,
            &mut self.board.core,
        );
        self.cycles = OFF_CYCLES;
        self.told = Told::Aside;
        self.aside = What::Off;
        self.board.core.rest(OFF_CYCLES);
        self.due = due_at(
            self.off,
            clock + u64::from(OFF_CYCLES),
            self.keys.as_slice(),
            self.applied,
        );
    }

    /// Makes a step of a console that is on, and answers what it tells.
    #[tactic(auto, unfolding(crate::specs::Step::stepped_on, crate::specs::Step::told_on))]
    fn step_on(&mut self, due: &[Incoming]) -> Option<Signal>
        requires below { clock_of self.old < self.old.board.made.until }
        requires on { self.old.off ≤ clock_of self.old }
        requires ordered { InOrder due.now }
        requires taken { All (IsDue self.old.was (clock_of self.old)) due.now }
        ensures step { self.new ≡ stepped_on due.now self.old }
        ensures signal { result ≡ told_on due.now self.old }
    {
        acts_pass();
        board_passes();
        ends_stay_fit();
        let clock = self.board.core.clock();
        self.board.core.begin();
        take_all(&mut self.board, due);
        self.board.end_due();
        self.applied = apply(
            clock,
            self.keys.as_slice(),
            self.applied,
            &mut self.board.core,
        );
        self.due = due_after(self.keys.as_slice(), self.applied);
        let acted = act(&mut self.registers, &mut self.board.core);
        let signal = self.board.outgoing();
        self.cycles = acted.cycles;
        self.told = Told::Aside;
        self.aside = acted.what;
        self.board.advance(acted.cycles);
        signal
    }
}
