//! A node for tests that keeps time.

ghost use Rattle.std.specs.Prelude.{ℕ, ◌≡◌, ◌+◌, ◌<◌, ◌≤◌, ◌^◌};
ghost use Rattle.link_trials.specs.Mixing.{step_length};

use link_node::{Incoming, LinkMode, Node, Signal};

/// A first step of `first` cycles and one more, then steps of `pace` cycles and one more; it tells at the clock
/// `tells`, and keeps the clock of its first step that took a signal.
#[derive(Clone, Copy, Debug, PartialEq, Eq)]
pub struct Beat {
    pub first: u64,
    pub pace: u64,
    pub tells: u64,
    pub heard: Option<u64>,
    pub clock: u64,
    pub was: u64,
    pub limit: u64,
    ghost limited: { limit ≤ 2 ^ 39 },
    ghost near: { clock ≤ limit + 511 },
}

fn step_length(cycles: u64) -> u64
    ensures value { result ≡ step_length cycles }
    ensures short { result ≤ 512 }
{
    1 + cycles % 512
}

impl Node for Beat {
    ghost use Rattle.std.specs.Prelude.{refl};
    ghost use Rattle.link_trials.specs.Mixing.{Beaten, beaten_next};
    ghost use Rattle.link_trials.specs.Mixing.{beaten_rises, beaten_short, beaten_bears, beaten_fits};

    ghost Record = { Beaten };

    ghost plain = { λ b. record {
      first = b.first;
      pace = b.pace;
      tells = b.tells;
      heard = b.heard;
      clock = b.clock;
      was = b.was;
    } };

    ghost bound = { λ b. b.limit };

    ghost clock = { λ r. r.clock };

    ghost was = { λ r. r.was };

    ghost next = { beaten_next };

    fn clock(&self) -> u64 {
        self.clock
    }

    fn was(&self) -> u64 {
        self.was
    }

    fn limit(&self) -> u64 {
        self.limit
    }

    fn turn(&mut self, due: &[Incoming]) -> Option<Signal> {
        let clock = self.clock;
        if self.heard.is_none() && !due.is_empty() {
            self.heard = Some(clock);
        }
        let cycles = if clock == 0 { self.first } else { self.pace };
        self.was = clock;
        self.clock = clock + step_length(cycles);
        if clock != self.tells {
            return None;
        }
        Some(Signal {
            clock,
            mode: LinkMode::Multi,
            start: None,
            reply: None,
        })
    }

    ghost rises = { beaten_rises };

    ghost short = { beaten_short };

    ghost moves = { λ r due. refl };

    ghost bears = { beaten_bears };

    ghost fits = { beaten_fits };
}
