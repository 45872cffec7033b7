//! Many steps of any kind: while they are plain or idle they are made in the loops for these, each other one by itself.

use crate::Console;
use crate::laws::{enough, steps_pass};
use link_node::Signal;

impl Console {
    ghost use Rattle.std.specs.Prelude.{◌≡◌, ◌≤◌, ◌<◌, None};
    ghost use Rattle.gba_console.specs.Machine.{clock_of};
    ghost use Rattle.gba_console.specs.Run.{GoesAlone, run_to};

    /// Makes steps with nothing due until the clock is at least `end`, which is no more than the end of the room, or
    /// one of them tells something, and answers that.
    pub fn go_alone(&mut self, end: u64) -> Option<Signal>
        requires { end ≤ self.old.board.made.until }
        ensures alone { GoesAlone end self.old self.new result }
        ensures ends { result ≡ None → end ≤ clock_of self.new }
        ensures rises { clock_of self.old < end → clock_of self.old < clock_of self.new }
        ensures until { self.new.board.made.until ≡ self.old.board.made.until }
    {
        steps_pass();
        while self.clock() < end {
            if let Some(signal) = self.go_somehow(end) {
                return Some(signal);
            }
        }
        None
    }

    /// Makes one step or more with nothing due, each of which begins below `end`, up to one that tells something.
    fn go_somehow(&mut self, end: u64) -> Option<Signal>
        requires end { end ≤ self.old.board.made.until }
        requires early { clock_of self.old < end }
        ensures alone { GoesAlone end self.old self.new result }
        ensures rises { clock_of self.old < clock_of self.new }
        ensures until { self.new.board.made.until ≡ self.old.board.made.until }
    {
        steps_pass();
        if let Some(signal) = self.go_plainly(end) {
            return Some(signal);
        }
        self.go_idly(end);
        if self.clock() < end {
            return self.step_fully(&[]);
        }
        None
    }

    /// Makes steps until the clock is at least `until`, which is no more than the end of the room. Nothing is due in
    /// them, and what they tell nobody hears.
    pub fn run_to(&mut self, until: u64)
        requires { until ≤ self.old.board.made.until }
        ensures run { self.new ≡ run_to until self.old }
        ensures until { self.new.board.made.until ≡ self.old.board.made.until }
    {
        steps_pass();
        enough();
        while self.go_alone(until).is_some() {}
    }
}
