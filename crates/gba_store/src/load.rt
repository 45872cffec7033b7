//! Whether the system has processors to spare.

use crate::gate::Gate;
use std::fs::File;
use std::io::{self, Read};
use std::rt::Files;
use std::thread::{Threads, available_parallelism};

/// Where Linux tells how many threads of the whole system run or wait for a processor, in the fourth word.
const LOAD: &str = "/proc/loadavg";

/// How many threads run or wait for a processor, in the words of the system: the number before the slash of the fourth
/// one, as in `0.20 0.18 0.12 1/80 11206`. None where they aren't such words.
pub fn running_threads(words: &[u8]) -> Option<usize> {
    let word = words.split(|byte| *byte == b' ').nth(3)?;
    let digits = word.split(|byte| *byte == b'/').next()?;
    std::str::from_utf8(digits).ok()?.parse().ok()
}

/// The front of what the system tells.
fn read_load<R: Files<File = File>>(runtime: &R, words: &mut [u8; 64]) -> io::Result<usize> {
    let mut file = File::open(runtime, LOAD)?;
    file.read(words)
}

/// The gate of the program: it does nothing and is open. Consoles have room where the system has a processor for each
/// of them beside what runs already; where it doesn't tell, they have none.
#[derive(Drop)]
pub struct SystemGate<R: Files<File = File> + Threads + Drop> {
    runtime: R,
}

impl<R: Files<File = File> + Threads + Drop> SystemGate<R> {
    /// A gate that asks this system.
    pub fn new(runtime: R) -> SystemGate<R> {
        SystemGate { runtime }
    }

    /// How many threads run or wait for a processor now, this one among them.
    fn running(&self) -> Option<usize> {
        let mut words = [0; 64];
        let length = read_load(&self.runtime, &mut words).ok()?;
        running_threads(words.get(..length)?)
    }
}

impl<R: Files<File = File> + Threads + Drop> Gate for SystemGate<R> {
    fn enter(&self, _player: u32, _clock: u64) {}

    fn is_open(&self) -> bool {
        true
    }

    fn has_room(&self, consoles: usize) -> bool {
        match (self.running(), available_parallelism(&self.runtime)) {
            (Some(running), Ok(processors)) => {
                running.saturating_sub(1).saturating_add(consoles) <= processors.get()
            }
            _ => false,
        }
    }
}
