//! Timers and the picture's place cycle by cycle, as plainly as they are written down, and numbers as if by chance.

/// A generator of numbers as if by chance (Knuth, The Art of Computer Programming, 3.3.4, MMIX).
#[derive(Drop)]
pub struct Chance {
    pub state: u64,
}

impl Chance {
    /// A number below a bound.
    pub fn below(&mut self, bound: u32) -> u32 {
        self.state = self
            .state
            .wrapping_mul(6_364_136_223_846_793_005)
            .wrapping_add(1_442_695_040_888_963_407);
        let number = (self.state >> 33) as u32;
        number.checked_rem(bound).unwrap_or(0)
    }
}

/// A timer: its counter, its reload, its control and its phase.
#[derive(Clone, Copy)]
pub struct PlainTimer {
    pub counter: u32,
    pub reload: u32,
    pub control: u32,
    pub phase: u32,
}

impl PlainTimer {
    pub fn write_control(&mut self, value: u32) {
        if value & 0x80 != 0 && self.control & 0x80 == 0 {
            self.counter = self.reload;
            self.phase = 0;
        }
        self.control = value;
    }

    fn prescaler(&self) -> u32 {
        match self.control & 3 {
            0 => 1,
            1 => 64,
            2 => 256,
            _ => 1024,
        }
    }

    /// Whether it counts in a cycle.
    fn counts(&mut self, below: bool) -> bool {
        if self.control & 0x80 == 0 {
            return false;
        }
        if self.control & 4 != 0 {
            return below;
        }
        self.phase = self.phase.saturating_add(1);
        let done = self.phase >= self.prescaler();
        if done {
            self.phase = 0;
        }
        done
    }

    /// One cycle, in which the timer below overflowed or not; whether this one overflows.
    fn cycle(&mut self, below: bool) -> bool {
        if !self.counts(below) {
            return false;
        }
        self.counter = self.counter.saturating_add(1);
        let over = self.counter > 0xFFFF;
        if over {
            self.counter = self.reload;
        }
        over
    }
}

/// One cycle of four timers, and the bits of those that overflow.
pub fn cycle(timers: &mut [PlainTimer; 4]) -> u8 {
    let mut mark = 0u8;
    let mut below = false;
    let mut bit = 1u8;
    for timer in timers {
        below = timer.cycle(below);
        if below {
            mark |= bit;
        }
        bit = bit.wrapping_shl(1);
    }
    mark
}

/// The cycles before the first mark that has one of these bits, 512 at most.
pub fn cycles_before(timers: &[PlainTimer; 4], bits: u8) -> u32 {
    let mut timers = *timers;
    for passed in 0..512 {
        if cycle(&mut timers) & bits != 0 {
            return passed;
        }
    }
    512
}

/// A line and a dot.
pub type PlainPlace = (u32, u32);

/// The next place.
pub fn next_place((line, dot): PlainPlace) -> PlainPlace {
    if dot != 1231 {
        return (line, dot.saturating_add(1));
    }
    if line == 227 {
        (0, 0)
    } else {
        (line.saturating_add(1), 0)
    }
}

/// The cycles before the first one that comes to dot 1,006 or to a line, 512 at most.
pub fn cycles_before_events(place: PlainPlace) -> u32 {
    let mut place = place;
    for passed in 0..512 {
        place = next_place(place);
        if place.1 == 1006 || place.1 == 0 {
            return passed;
        }
    }
    512
}
