//! What is told of each step.

/// Stands before the steps of consoles that run side by side, whose schedules it may disturb. It returns, and promises
/// nothing else. This project's profile.
pub trait Gate {
    /// Is told the player number and the clock, in cycles of 16,777,216 Hz, before each step of a console.
    fn enter(&self, player: u32, clock: u64);

    /// Whether steps needn't be told. A console may then make many in a row.
    fn is_open(&self) -> bool {
        false
    }

    /// Whether so many consoles can run side by side now, each on a processor that nobody else wants. No result
    /// depends on it.
    fn has_room(&self, _consoles: usize) -> bool {
        true
    }
}

/// A gate that does nothing. It is open.
#[derive(Clone, Copy, Debug, PartialEq, Eq)]
pub struct NoGate;

impl Gate for NoGate {
    fn enter(&self, _player: u32, _clock: u64) {}

    fn is_open(&self) -> bool {
        true
    }
}
