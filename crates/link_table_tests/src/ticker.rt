//! A node for tests that steps by itself: it takes no notice of what is due.

ghost use Rattle.std.specs.Prelude.{ℕ, ◌≡◌, ◌+◌, ◌%◌, ◌<◌, ◌≤◌, ◌^◌, ◌==◌, if◌then◌else◌};

use link_node::{Incoming, LinkMode, Node, Signal, Start};

/// A first step of `first` cycles and one more, then steps of `pace` cycles and one more. A step tells where its clock
/// is a multiple of `gap` and one more; its signal bears the clock as a word.
#[derive(Clone, Copy, Debug, PartialEq, Eq)]
pub struct Ticker {
    pub first: u64,
    pub pace: u64,
    pub gap: u64,
    pub clock: u64,
    pub was: u64,
    pub limit: u64,
    ghost limited: { limit ≤ 2 ^ 39 },
    ghost near: { clock ≤ limit + 511 },
    ghost apart: { gap < 2 ^ 40 },
}

impl Node for Ticker {
    ghost use Rattle.std.specs.Prelude.{refl};
    ghost use Rattle.link_table_tests.specs.Ticking.{Ticked, ticked_next};
    ghost use Rattle.link_table_tests.specs.Ticking.{ticked_rises, ticked_short, ticked_bears, ticked_fits};

    ghost Record = { Ticked };

    ghost plain = { λ t. record {
      first = t.first;
      pace = t.pace;
      gap = t.gap;
      clock = t.clock;
      was = t.was;
    } };

    ghost bound = { λ t. t.limit };

    ghost clock = { λ r. r.clock };

    ghost was = { λ r. r.was };

    ghost next = { ticked_next };

    fn clock(&self) -> u64 {
        self.clock
    }

    fn was(&self) -> u64 {
        self.was
    }

    fn limit(&self) -> u64 {
        self.limit
    }

    fn turn(&mut self, _due: &[Incoming]) -> Option<Signal> {
        let clock = self.clock;
        let cycles = if clock == 0 { self.first } else { self.pace };
        self.was = clock;
        self.clock = clock + (1 + cycles % 512);
        if clock % (1 + self.gap) != 0 {
            return None;
        }
        Some(Signal {
            clock,
            mode: LinkMode::Multi,
            start: Some(Start {
                speed: 1,
                word: (clock % (1 << 32)) as u32,
            }),
            reply: None,
        })
    }

    ghost rises = { ticked_rises };

    ghost short = { ticked_short };

    ghost moves = { λ r due. refl };

    ghost bears = { ticked_bears };

    ghost fits = { ticked_fits };
}
