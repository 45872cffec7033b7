//! The live signals.

ghost use Rattle.std.specs.Prelude.{◌≡◌, IfOk};

use crate::lists::put_behind;
use link_node::Signal;
use link_order::Sent;
use std::alloc::{AllocError, Global};
use std::marker::Model;

/// The most signals that are kept.
const MOST_SIGNALS: usize = 16_384;

/// The live signals with their senders, and whether there were more than 16,384, the rest of which isn't kept.
#[derive(Drop)]
pub struct Signals {
    sent: Vec<Sent>,
    more: bool,
}

impl Model for Signals {
    ghost use Rattle.std.specs.Prelude.{◌≤◌};
    ghost use Rattle.std.specs.Vec.{vec_capacity};
    ghost use Rattle.gba_filling.specs.Signals.{AllFit, LiveSignals, most_signals};

    ghost Value = { LiveSignals };

    ghost view = { λ s. record { sent = s.sent.items; more = s.more } };

    ghost invariant = { λ s. (most_signals ≤ vec_capacity s.sent) × AllFit s.sent.items };
}

impl Signals {
    ghost use Rattle.std.specs.Prelude.{ℕ, ◌≤◌, List, [], ◌∷◌, ◌++◌};
    ghost use Rattle.std.specs.Vec.{vec_capacity};
    ghost use Rattle.link_node.specs.declared.signal.Signal.{Signal};
    ghost use Rattle.link_node.specs.Due.{FitsWidths};
    ghost use Rattle.gba_filling.specs.Signals.{AllFit, AreSignals, most_signals};

    /// No signal yet. It takes the memory of all that are kept.
    pub fn new(alloc: Global) -> Result<Signals, AllocError>
        ensures { IfOk result (λ signals. AreSignals [] signals) }
    {
        Ok(Signals {
            sent: Vec::with_capacity(alloc, MOST_SIGNALS)?,
            more: false,
        })
    }

    /// One signal more, behind the others. It takes no memory.
    pub fn keep(&mut self, sender: u32, signal: Signal)
        requires { FitsWidths signal }
        ensures { (sent : List (ℕ × Signal)) → AreSignals sent self.old
            → AreSignals (sent ++ (sender, signal) ∷ []) self.new }
    {
        if self.sent.len() >= MOST_SIGNALS {
            self.more = true;
            return;
        }
        put_behind(&mut self.sent, Sent { sender, signal });
    }

    /// The signals in the order of their lines, at most the first 16,384.
    pub fn sent(&self) -> &[Sent]
        ensures value { result.now ≡ self.now.sent }
        ensures widths { AllFit result.now }
    {
        self.sent.as_slice()
    }

    /// The signals by value, in a list that has room for 16,384.
    pub fn part(self) -> Vec<Sent>
        ensures items { result.items ≡ self.sent }
        ensures room { most_signals ≤ vec_capacity result }
    {
        self.sent
    }

    /// Whether there were more.
    pub fn has_more(&self) -> bool
        ensures { result ≡ self.now.more }
    {
        self.more
    }
}
