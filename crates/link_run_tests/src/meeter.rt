//! A node for tests that waits for another one in two of its steps.

ghost use Rattle.std.specs.Prelude.{ℕ, ◌≡◌, ◌+◌, ◌<◌, ◌≤◌, ◌^◌};

use link_node::{Incoming, Node, Signal};
use std::alloc::Global;
use std::sync::Arc;
use std::sync::atomic::{AtomicBool, AtomicU32, Ordering};

/// No wait takes more turns of its loop.
const MOST: u32 = 1 << 26;

/// What two nodes tell each other beside the cable: who has begun the first and the second step in which they meet, how
/// many such steps were made, and whether one waited in vain.
#[derive(Drop)]
pub struct Meeting {
    pub here: [[AtomicBool; 2]; 2],
    pub met: AtomicU32,
    pub missed: AtomicBool,
}

impl Meeting {
    /// Nobody has come yet.
    pub fn new() -> Meeting {
        Meeting {
            here: [
                [AtomicBool::new(false), AtomicBool::new(false)],
                [AtomicBool::new(false), AtomicBool::new(false)],
            ],
            met: AtomicU32::new(0),
            missed: AtomicBool::new(false),
        }
    }

    /// Comes to a meeting, the first or the second, and waits for the other player.
    fn meet(&self, second: bool, player: bool) {
        let places = if second { &self.here[1] } else { &self.here[0] };
        let (own, other) = if player {
            (&places[1], &places[0])
        } else {
            (&places[0], &places[1])
        };
        own.store(true, Ordering::SeqCst);
        self.met.fetch_add(1, Ordering::SeqCst);
        for turn in 0..MOST {
            if other.load(Ordering::SeqCst) {
                return;
            }
            std::hint::spin_loop();
        }
        self.missed.store(true, Ordering::SeqCst);
    }
}

/// Steps of three cycles without signals. In its first step at a clock of 100 or more, and again in its first one at
/// 700 or more, it waits till the other player has begun such a step.
#[derive(Drop)]
pub struct Meeter {
    pub meeting: Arc<Meeting, Global>,
    pub player: bool,
    pub clock: u64,
    pub was: u64,
    pub limit: u64,
    ghost limited: { limit ≤ 2 ^ 39 },
    ghost near: { clock ≤ limit + 511 },
}

impl Node for Meeter {
    ghost use Rattle.std.specs.Prelude.{refl};
    ghost use Rattle.link_run_tests.specs.Marching.{Marched, marched_next};
    ghost use Rattle.link_run_tests.specs.Marching.{marched_rises, marched_short};

    ghost Record = { Marched };

    ghost plain = { λ m. record { clock = m.clock; was = m.was } };

    ghost bound = { λ m. m.limit };

    ghost clock = { λ r. r.clock };

    ghost was = { λ r. r.was };

    ghost next = { marched_next };

    fn clock(&self) -> u64 {
        self.clock
    }

    fn was(&self) -> u64 {
        self.was
    }

    fn limit(&self) -> u64 {
        self.limit
    }

    fn turn(&mut self, _due: &[Incoming]) -> Option<Signal> {
        if self.was < 100 && self.clock >= 100 {
            self.meeting.meet(false, self.player);
        }
        if self.was < 700 && self.clock >= 700 {
            self.meeting.meet(true, self.player);
        }
        self.was = self.clock;
        self.clock += 3;
        None
    }

    ghost rises = { marched_rises };

    ghost short = { marched_short };

    ghost moves = { λ r due. refl };

    ghost bears = { λ r due. tt };

    ghost fits = { λ r due. tt };
}
