//! The signals of a cut while its nodes are elsewhere.

ghost use Rattle.std.specs.Prelude.{◌≡◌, ◌<◌, ◌≤◌, ◌^◌, List, [], length, map};
ghost use Rattle.link_node.specs.Due.{FitsWidths};
ghost use Rattle.link_node.specs.Delays.{AreDelays};
ghost use Rattle.link_order.specs.NodeKind.{kind_of};
ghost use Rattle.link_order.specs.Order.{IsSorted, IsAdded};
ghost use Rattle.link_order.specs.Cut.{plain_cut, IsSound, IsCable};
ghost use Rattle.link_core.specs.Kept.{Flight, cut_of, AllLive, AllFit};

use crate::cut::Cut;
use crate::signals::put_sent;
use link_node::{Delays, Incoming, Node};
use link_order::Sent;
use std::marker::Model;

/// The delays and the live signals of a cut without its nodes, with the room for 16,384 signals.
#[derive(Drop)]
pub struct Shell {
    pub(crate) delays: Delays,
    pub(crate) sent: Vec<Sent>,
    pub(crate) due: Vec<Incoming>,
}

impl Model for Shell {
    ghost use Rattle.std.specs.Vec.{vec_capacity};
    ghost use Rattle.link_core.specs.Kept.{Flight, IsFlight};

    ghost Value = { Flight };

    ghost view = { λ s. record { delays = s.delays; sent = s.sent.items } };

    ghost invariant = { λ s. IsFlight (record { delays = s.delays; sent = s.sent.items })
        (vec_capacity s.sent) (vec_capacity s.due) };
}

impl Shell {
    /// The cable's delays.
    pub fn delays(&self) -> &Delays
        ensures value { result.now ≡ self.now.delays }
        ensures within { AreDelays result.now }
    {
        &self.delays
    }

    /// The signals, by clock, then by sender.
    pub fn sent(&self) -> &[Sent]
        ensures value { result.now ≡ self.now.sent }
        ensures few { length result.now ≤ 16384 }
        ensures sorted { IsSorted result.now }
        ensures widths { AllFit result.now }
    {
        self.sent.as_slice()
    }

    /// Drops all signals.
    pub fn clear(&mut self)
        ensures delays { self.new.delays ≡ self.old.delays }
        ensures sent { self.new.sent ≡ [] }
    {
        self.sent.clear();
    }

    /// Puts a signal in its place among the others, by clock, then by sender. A signal that is there already stays one.
    pub fn add(&mut self, one: Sent)
        requires room { length self.old.sent < 16384 }
        requires widths { FitsWidths one.signal }
        ensures delays { self.new.delays ≡ self.old.delays }
        ensures either { IsAdded one self.old.sent self.new.sent }
    {
        if !self.sent.contains(&one) {
            put_sent(&mut self.sent, one);
        }
    }

    /// The cut of these signals and their nodes.
    pub fn join<N: Node>(self, nodes: Vec<N>) -> Cut<N>
        requires cable { IsCable (plain_cut N.plain (cut_of nodes.items self)) }
        requires sound { IsSound (kind_of N.clock N.was N.next) (plain_cut N.plain (cut_of nodes.items self)) }
        requires live { AllLive (kind_of N.clock N.was N.next) (plain_cut N.plain (cut_of nodes.items self)) }
        ensures { result ≡ cut_of nodes.items self }
    {
        let Shell { delays, sent, due } = self;
        Cut {
            nodes,
            delays,
            sent,
            due,
        }
    }
}
