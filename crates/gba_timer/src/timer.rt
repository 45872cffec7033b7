//! One timer.

ghost use Rattle.std.specs.Prelude.{◌≡◌, ◌≤◌};

use gba_word::{bit, bits};

/// One timer (GBATEK, GBA Timers): its counter, its reload, its control as it is stored, and its phase, the cycles
/// since it last counted.
#[derive(Clone, Copy, Debug, PartialEq, Eq)]
pub struct Timer {
    pub counter: u16,
    pub reload: u16,
    pub control: u16,
    pub phase: u16,
}

/// A timer at reset.
pub(crate) const IDLE: Timer = Timer {
    counter: 0,
    reload: 0,
    control: 0,
    phase: 0,
};

impl Timer {
    ghost use Rattle.std.specs.Prelude.{◌≡◌, ◌≤◌};
    ghost use Rattle.gba_timer.specs.Skipping.{follows, own_quiet, skipped_timer};
    ghost use Rattle.gba_timer.specs.Timer.{asks_interrupt, counts, is_cascade, is_running, next_phase, overflows, prescaler, timer_after, with_control, with_reload};

    /// The cycles of a count: 1, 64, 256 or 1,024.
    fn prescaler(&self) -> u16
        ensures value { result ≡ prescaler self.now }
        ensures positive { 1 ≤ result }
        ensures most { result ≤ 1024 }
    {
        match bits(u32::from(self.control), 0, 2) {
            0 => 1,
            1 => 64,
            2 => 256,
            _ => 1024,
        }
    }

    fn is_running(&self) -> bool
        ensures { result ≡ is_running self.now }
    {
        bit(u32::from(self.control), 7)
    }

    fn is_cascade(&self) -> bool
        ensures { result ≡ is_cascade self.now }
    {
        bit(u32::from(self.control), 2)
    }

    /// Whether it asks for its interrupt at an overflow.
    pub(crate) fn asks_interrupt(&self) -> bool
        ensures { result ≡ asks_interrupt self.now }
    {
        bit(u32::from(self.control), 6)
    }

    /// Moves the phase by a cycle, and answers whether the timer counts in it.
    fn move_phase(&mut self, below: bool) -> bool
        ensures phase { self.new ≡ record self.old { phase = next_phase self.old } }
        ensures counts { result ≡ counts below self.old }
    {
        if !self.is_running() {
            return false;
        }
        if self.is_cascade() {
            return below;
        }
        if u32::from(self.phase) + 1 >= u32::from(self.prescaler()) {
            self.phase = 0;
            true
        } else {
            self.phase += 1;
            false
        }
    }

    /// Moves the timer by a cycle, in which the timer below overflowed or not. Answers whether this one overflows.
    pub(crate) fn tick(&mut self, below: bool) -> bool
        ensures timer { self.new ≡ timer_after below self.old }
        ensures overflow { result ≡ overflows below self.old }
    {
        if !self.move_phase(below) {
            return false;
        }
        if self.counter == 0xFFFF {
            self.counter = self.reload;
            true
        } else {
            self.counter += 1;
            false
        }
    }

    /// Writes the reload, which the counter takes at its next start or overflow.
    pub(crate) fn set_reload(&mut self, value: u16)
        ensures { self.new ≡ with_reload value self.old }
    {
        self.reload = value;
    }

    /// Writes the control. A start makes the counter the reload and the phase 0.
    pub(crate) fn set_control(&mut self, value: u16)
        ensures { self.new ≡ with_control value self.old }
    {
        if bit(u32::from(value), 7) && !self.is_running() {
            self.counter = self.reload;
            self.phase = 0;
        }
        self.control = value;
    }

    /// Whether it counts the overflows of the timer below.
    pub(crate) fn follows(&self) -> bool
        ensures { result ≡ follows self.now }
    {
        self.is_running() && self.is_cascade()
    }

    /// For how many cycles, so many at most, it doesn't overflow where the timer below doesn't.
    pub(crate) fn quiet_within(&self, most: u32) -> u32
        ensures value { result ≡ own_quiet most self.now }
        ensures most { result ≤ most }
    {
        if !self.is_running() || self.is_cascade() {
            return most;
        }
        let prescaler = u32::from(self.prescaler());
        let within = u32::from(self.phase).min(prescaler - 1);
        let left = (0xFFFF - u32::from(self.counter)) * prescaler + (prescaler - within - 1);
        left.min(most)
    }

    /// Moves the timer by so many cycles at once, in which it doesn't overflow.
    pub(crate) fn skip(&mut self, count: u32)
        requires quiet { count ≤ own_quiet count self.old }
        requires few { count ≤ 1024 }
        ensures { self.new ≡ skipped_timer count self.old }
    {
        if count == 0 || !self.is_running() || self.is_cascade() {
            return;
        }
        let prescaler = u32::from(self.prescaler());
        let moved = u32::from(self.phase).min(prescaler - 1) + count;
        self.counter += (moved / prescaler) as u16;
        self.phase = (moved % prescaler) as u16;
    }
}
