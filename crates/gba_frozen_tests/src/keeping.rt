//! Who keeps some of what the lines of a frozen file say.

use arrayvec::ArrayVec;
use gba_frozen::{FrozenLine, MemoryPlace, Place, Row, Setup};
use gba_frozen_read::Thawing;
use link_node::Signal;

/// Bytes of a player's memory: the first and the last one of the line.
#[derive(Clone, Copy, Debug, PartialEq, Eq)]
pub(crate) struct Bytes {
    pub player: u32,
    pub place: MemoryPlace,
    pub first: u8,
    pub last: u8,
}

/// A drawn line of a player, and its first colour.
#[derive(Clone, Copy, Debug, Default, PartialEq, Eq)]
pub(crate) struct Drawn {
    pub player: u32,
    pub line: u32,
    pub first: u16,
}

/// A live signal, by its sender and its clock.
#[derive(Clone, Copy, Debug, Default, PartialEq, Eq)]
pub(crate) struct Sent {
    pub sender: u32,
    pub clock: u64,
}

/// What is kept: how many lines there were, the clocks and the bytes of queue B by players, and what the lines of
/// memories, the drawn lines and the signals say.
#[derive(Drop)]
pub(crate) struct Kept {
    pub lines: u64,
    pub clocks: ArrayVec<u64, 4>,
    pub queued: ArrayVec<u8, 8>,
    pub memory: ArrayVec<Option<Bytes>, 8>,
    pub drawn: ArrayVec<Drawn, 8>,
    pub sent: ArrayVec<Sent, 8>,
}

impl Kept {
    pub(crate) fn new() -> Kept {
        Kept {
            lines: 0,
            clocks: ArrayVec::new(),
            queued: ArrayVec::new(),
            memory: ArrayVec::new(),
            drawn: ArrayVec::new(),
            sent: ArrayVec::new(),
        }
    }

    fn keep_row(&mut self, row: Row, values: &[u64]) {
        if row == Row::Clock && !values.is_empty() {
            let _ = self.clocks.try_push(values[0]);
        }
    }

    fn keep_queue(&mut self, queue: u32, bytes: &[u8]) {
        if queue == 1 {
            let _ = self.queued.try_extend_from_slice(bytes);
        }
    }

    fn keep_memory(&mut self, player: u32, place: MemoryPlace, bytes: &[u8]) {
        if bytes.is_empty() {
            return;
        }
        let _ = self.memory.try_push(Some(Bytes {
            player,
            place,
            first: bytes[0],
            last: bytes[bytes.len() - 1],
        }));
    }

    fn keep_drawn(&mut self, player: u32, line: u32, colours: &[u16]) {
        if colours.is_empty() {
            return;
        }
        let _ = self.drawn.try_push(Drawn {
            player,
            line,
            first: colours[0],
        });
    }

    fn keep_sent(&mut self, sender: u32, signal: &Signal) {
        let _ = self.sent.try_push(Sent {
            sender,
            clock: signal.clock,
        });
    }
}

impl Thawing for Kept {
    ghost Whole = { Unit {0} };

    ghost Holds = { λ _ _ _. Unit {0} };

    fn take(&mut self, setup: &Setup, at: Place, said: &FrozenLine) {
        self.lines = self.lines.wrapping_add(1);
        match said {
            FrozenLine::Nothing => {}
            FrozenLine::Values { row, values } => self.keep_row(*row, values.as_slice()),
            FrozenLine::Queue {
                queue,
                current: _,
                bytes,
            } => self.keep_queue(*queue, bytes.as_slice()),
            FrozenLine::Wave { bank: _, bytes: _ } => {}
            FrozenLine::Memory { place, bytes } => {
                self.keep_memory(at.player, *place, bytes.as_slice())
            }
            FrozenLine::Drawn { line, colours } => {
                self.keep_drawn(at.player, *line, colours.as_slice())
            }
            FrozenLine::Live { sender, signal } => self.keep_sent(*sender, signal),
        }
    }
}
