//! A cable of two consoles, joined by hand: the one with the least clock makes the next step.

use crate::play::{Play, Seat, images_of_source};
use gba_io::Room;
use link_node::{Incoming, Signal};
use std::alloc::Global;
use std::process::Abort;
use std::test::Fail;

/// Room for a hundred thousand cycles, where the transfers are kept.
const ROOM: Room = Room {
    until: 100_000,
    frames: false,
    samples: false,
    words: true,
};

/// A console with a seat at a cable, whose BIOS is this source.
pub fn console_of(alloc: Global, seat: Seat, source: &[u8]) -> Result<Play, Fail> {
    console_off(alloc, seat, 0, source)
}

/// The same, which is off below a clock.
fn console_off(alloc: Global, seat: Seat, off: u64, source: &[u8]) -> Result<Play, Fail> {
    Play::new(
        alloc,
        seat,
        off,
        images_of_source(alloc, source)?,
        &[],
        ROOM,
    )
}

/// Two consoles, the delay, and what each told.
#[derive(Drop)]
pub struct Cable {
    pub consoles: [Play; 2],
    pub delay: u64,
    pub told: [Vec<Signal>; 2],
}

impl Cable {
    /// Two consoles with these sources, of which player 1 is off below a clock.
    pub fn with_off(
        alloc: Global,
        delay: u64,
        sources: [&[u8]; 2],
        off: u64,
    ) -> Result<Cable, Fail> {
        let seat = Seat {
            player: 0,
            count: 2,
            delay,
        };
        let peer = Seat { player: 1, ..seat };
        Ok(Cable {
            consoles: [
                console_of(alloc, seat, sources[0])?,
                console_off(alloc, peer, off, sources[1])?,
            ],
            delay,
            told: [Vec::new(alloc), Vec::new(alloc)],
        })
    }

    /// The signals of the peer that a console's next step takes.
    fn due<R: Abort>(&self, rt: &R, alloc: Global, player: usize) -> Result<Vec<Incoming>, Fail> {
        assert!(rt; player < 2 && self.delay <= 1024);
        let console = &self.consoles[player];
        let peer = 1 - player;
        let mut due = Vec::new(alloc);
        for signal in self.told[peer].as_slice() {
            assert!(rt; signal.clock < 1 << 40);
            let arrival = signal.clock + self.delay;
            if console.was() < arrival && arrival <= console.clock() {
                due.push(Incoming {
                    sender: peer as u32,
                    arrival,
                    signal: *signal,
                })?;
            }
        }
        Ok(due)
    }

    /// The next step.
    fn step<R: Abort>(&mut self, rt: &R, alloc: Global) -> Result<(), Fail> {
        let player = usize::from(self.consoles[1].clock() < self.consoles[0].clock());
        let due = self.due(rt, alloc, player)?;
        if let Some(signal) = self.consoles[player].turn(rt, due.as_slice()) {
            self.told[player].push(signal)?;
        }
        Ok(())
    }

    /// Steps until both clocks are at least this.
    pub fn run<R: Abort>(&mut self, rt: &R, alloc: Global, until: u64) -> Result<(), Fail> {
        assert!(rt; until <= 100_000);
        for _ in 0..2 * until {
            if self.consoles[0].clock() < until || self.consoles[1].clock() < until {
                self.step(rt, alloc)?;
            }
        }
        Ok(())
    }

    /// The clock of the only start that a console told. None: it told none, or several.
    pub fn started(&self, player: usize) -> Option<u64> {
        only_start(self.told.get(player)?.as_slice())
    }
}

/// The clock of the only one of these signals that has a start.
fn only_start(signals: &[Signal]) -> Option<u64> {
    let mut only = None;
    for signal in signals {
        if signal.start.is_some() && only.is_some() {
            return None;
        }
        if signal.start.is_some() {
            only = Some(signal.clock);
        }
    }
    only
}
