//! A node for tests: a number that mixes into itself each signal that it takes, and that says how long its steps are
//! and what it tells.

ghost use Rattle.std.specs.Prelude.{ℕ, ◌≡◌, ◌+◌, ◌<◌, ◌≤◌, ◌^◌, IfSome};
ghost use Rattle.link_trials.specs.Mixing.{mix, mix_of, cycles, signal_of};

use link_node::{Incoming, LinkMode, Node, Signal, Start};

#[derive(Clone, Copy, Debug, PartialEq, Eq)]
pub struct Mixer {
    pub state: u64,
    pub clock: u64,
    pub was: u64,
    pub limit: u64,
    ghost limited: { limit ≤ 2 ^ 39 },
    ghost near: { clock ≤ limit + 511 },
}

fn mix(state: u64, one: &Incoming) -> u64
    ensures { result ≡ mix state one.now }
{
    state
        .wrapping_mul(31)
        .wrapping_add(one.arrival)
        .wrapping_mul(5)
        .wrapping_add(u64::from(one.sender))
}

/// The number after a step that takes these signals.
pub fn mix_of(state: u64, due: &[Incoming]) -> u64
    ensures { result ≡ mix_of state due.now }
{
    let mut now = state;
    for one in due {
        now = mix(now, one);
    }
    now.wrapping_mul(69069).wrapping_add(12345)
}

/// The cycles of a step that ends with this number, from 1 to 300.
pub fn cycles(state: u64) -> u64
    ensures value { result ≡ cycles state }
    ensures short { result ≤ 300 }
{
    1 + (state >> 16) % 300
}

/// What a step that ends with this number tells.
pub fn signal_of(state: u64, clock: u64) -> Option<Signal>
    ensures { result ≡ signal_of state clock }
{
    if (state >> 32) % 4 != 0 {
        return None;
    }
    Some(Signal {
        clock,
        mode: LinkMode::Multi,
        start: Some(Start {
            speed: ((state >> 40) % 4) as u8,
            word: (state % (1 << 32)) as u32,
        }),
        reply: None,
    })
}

impl Node for Mixer {
    ghost use Rattle.std.specs.Prelude.{refl};
    ghost use Rattle.link_trials.specs.Mixing.{Mixed, mixed_next, mixed_rises, mixed_short, mixed_bears, mixed_fits};

    ghost Record = { Mixed };

    ghost plain = { λ m. record { state = m.state; clock = m.clock; was = m.was } };

    ghost bound = { λ m. m.limit };

    ghost clock = { λ r. r.clock };

    ghost was = { λ r. r.was };

    ghost next = { mixed_next };

    fn clock(&self) -> u64 {
        self.clock
    }

    fn was(&self) -> u64 {
        self.was
    }

    fn limit(&self) -> u64 {
        self.limit
    }

    fn turn(&mut self, due: &[Incoming]) -> Option<Signal> {
        let state = mix_of(self.state, due);
        let signal = signal_of(state, self.clock);
        self.state = state;
        self.was = self.clock;
        self.clock += cycles(state);
        signal
    }

    ghost rises = { mixed_rises };

    ghost short = { mixed_short };

    ghost moves = { λ r due. refl };

    ghost bears = { mixed_bears };

    ghost fits = { mixed_fits };
}
