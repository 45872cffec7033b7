//! A cut of a run, and its steps in the global order.

ghost use Rattle.std.specs.Prelude.{ℕ, ◌≡◌, ◌+◌, ◌<◌, ◌≤◌, List, [], Some, length, map, slice_index, slice_get};
ghost use Rattle.std.specs.Prelude.{slice_set, IfOk, IfErr, All, EachIndex};
ghost use Rattle.std.specs.Vec.{vec_len, vec_capacity};
ghost use Rattle.link_node.specs.Due.{IsDue, InOrder};
ghost use Rattle.link_node.specs.Delays.{AreDelays};
ghost use Rattle.link_order.specs.NodeKind.{kind_of};
ghost use Rattle.link_order.specs.Order.{IsOrdered};
ghost use Rattle.link_order.specs.Cut.{plain_cut, opening, live, count, clock_at, IsSound, IsCable};
ghost use Rattle.link_order.specs.GlobalOrder.{least, with_signal, step, run, cycles_left};
ghost use Rattle.link_core.specs.Kept.{Flight, cut_of, with_sent, AllLive, AllFit};

use crate::burst::{horizon_of, take_turns};
use crate::nodes::{clock_of, least_of, turn_of};
use crate::shell::Shell;
use crate::signals::{drop_dead, gather, put_sent, was_of};
use link_node::{Delays, Incoming, Node, Signal};
use link_order::Sent;
use std::alloc::Global;
use std::marker::Model;

/// How many signals there is room for. At most 10,236 are live.
const ROOM: usize = 16384;

/// One to four nodes, the cable's delays, and the signals that some other node can still take.
#[derive(Drop)]
pub struct Cut<N: Node> {
    pub(crate) nodes: Vec<N>,
    pub(crate) delays: Delays,
    pub(crate) sent: Vec<Sent>,
    pub(crate) due: Vec<Incoming>,
}

impl<N: Node> Model for Cut<N> {
    ghost use Rattle.std.specs.Vec.{vec_capacity};
    ghost use Rattle.link_order.specs.NodeKind.{kind_of};
    ghost use Rattle.link_order.specs.Cut as order;
    ghost use Rattle.link_core.specs.Kept.{IsKept};

    ghost Value = { order.Cut N };

    ghost view = { λ c. record { consoles = c.nodes.items; delays = c.delays; sent = c.sent.items } };

    ghost invariant = { λ c. IsKept (kind_of N.clock N.was N.next) N.plain
        (record { consoles = c.nodes.items; delays = c.delays; sent = c.sent.items })
        (vec_capacity c.sent) (vec_capacity c.due) };
}

/// Want of memory: the nodes come back as they were.
#[derive(Drop)]
pub struct CutRefused<N: Node> {
    pub nodes: Vec<N>,
}

/// Puts the signal of a player's step, if there is one, among the others.
fn join_signal(sent: &mut Vec<Sent>, player: u32, signal: Option<Signal>)
    requires { vec_len sent.old < vec_capacity sent.old }
    ensures items { sent.new.items ≡ with_signal player signal sent.old.items }
    ensures room { vec_capacity sent.old ≤ vec_capacity sent.new }
{
    if let Some(signal) = signal {
        put_sent(
            sent,
            Sent {
                sender: player,
                signal,
            },
        );
    }
}

/// Makes a list another one, for which it has room.
fn refill(list: &mut Vec<Sent>, sent: &[Sent])
    requires { length sent.now ≤ vec_capacity list.old }
    ensures items { list.new.items ≡ sent.now }
    ensures room { vec_capacity list.old ≤ vec_capacity list.new }
{
    list.clear();
    if list.extend_from_slice(sent).is_err() {
        unreachable!()
    }
}

impl<N: Node> Cut<N> {
    /// A cut with nothing sent. It takes all the memory that later calls need.
    pub fn new(alloc: Global, nodes: Vec<N>, delays: Delays) -> Result<Cut<N>, CutRefused<N>>
        requires cable { IsCable (plain_cut N.plain (opening nodes.items delays)) }
        requires delays { AreDelays delays }
        requires sound { IsSound (kind_of N.clock N.was N.next) (plain_cut N.plain (opening nodes.items delays)) }
        ensures made { IfOk result (λ cut. cut ≡ opening nodes.items delays) }
        ensures refused { IfErr result (λ refused. refused.nodes ≡ nodes) }
    {
        let Ok(sent) = Vec::with_capacity(alloc, ROOM) else {
            return Err(CutRefused { nodes });
        };
        let Ok(due) = Vec::with_capacity(alloc, ROOM) else {
            return Err(CutRefused { nodes });
        };
        Ok(Cut {
            nodes,
            delays,
            sent,
            due,
        })
    }

    /// The nodes, by player number.
    pub fn nodes(&self) -> &[N]
        ensures value { result.now ≡ self.now.consoles }
        ensures cable { IsCable (plain_cut N.plain self.now) }
        ensures sound { IsSound (kind_of N.clock N.was N.next) (plain_cut N.plain self.now) }
    {
        self.nodes.as_slice()
    }

    /// Takes the nodes out, by player number, and drops the signals.
    pub fn into_nodes(self) -> Vec<N>
        ensures { result.items ≡ self.consoles }
    {
        let Cut {
            nodes,
            delays: _,
            sent: _,
            due: _,
        } = self;
        nodes
    }

    /// The player number of the node with the least clock, at a tie the least number.
    pub fn least(&self) -> u32
        ensures value { result ≡ least (kind_of N.clock N.was N.next) (plain_cut N.plain self.now) }
        ensures player { result < length self.now.consoles }
    {
        least_of(&self.nodes) as u32
    }

    /// The cable's delays.
    pub fn delays(&self) -> &Delays
        ensures value { result.now ≡ self.now.delays }
        ensures within { AreDelays result.now }
    {
        &self.delays
    }

    /// The signals that some other node can still take, by clock, then by sender.
    pub fn sent(&self) -> &[Sent]
        ensures value { result.now ≡ self.now.sent }
        ensures live { AllLive (kind_of N.clock N.was N.next) (plain_cut N.plain self.now) }
        ensures few { length result.now ≤ 10236 }
        ensures ordered { IsOrdered result.now }
        ensures widths { AllFit result.now }
    {
        self.sent.as_slice()
    }

    /// Makes these the signals that some other node can still take, by clock, then by sender, in place of those that
    /// were there.
    pub fn set_sent(&mut self, sent: &[Sent])
        requires sound { IsSound (kind_of N.clock N.was N.next) (plain_cut N.plain (with_sent sent.now self.old)) }
        requires live { AllLive (kind_of N.clock N.was N.next) (plain_cut N.plain (with_sent sent.now self.old)) }
        requires widths { AllFit sent.now }
        ensures { self.new ≡ with_sent sent.now self.old }
    {
        refill(&mut self.sent, sent);
    }

    /// Takes the nodes out, by player number. The signals and the room for them stay in the shell.
    pub fn part(self) -> (Vec<N>, Shell)
        ensures nodes { result.0.items ≡ self.consoles }
        ensures delays { result.1.delays ≡ self.delays }
        ensures sent { result.1.sent ≡ self.sent }
        ensures cable { IsCable (plain_cut N.plain (cut_of result.0.items result.1)) }
        ensures sound { IsSound (kind_of N.clock N.was N.next) (plain_cut N.plain (cut_of result.0.items result.1)) }
        ensures live { AllLive (kind_of N.clock N.was N.next) (plain_cut N.plain (cut_of result.0.items result.1)) }
    {
        let Cut {
            nodes,
            delays,
            sent,
            due,
        } = self;
        (nodes, Shell { delays, sent, due })
    }
}

impl<N: Node> Cut<N> {
    /// One step of the global order: the node with the least clock takes what is due to it, and its signal joins the
    /// others.
    pub fn serial_step(&mut self)
        requires { let i = least (kind_of N.clock N.was N.next) (plain_cut N.plain self.old) in
            slice_index (map N.clock (map N.plain self.old.consoles)) i
            < slice_index (map N.bound self.old.consoles) i }
        ensures step { plain_cut N.plain self.new
            ≡ live (kind_of N.clock N.was N.next) (step (kind_of N.clock N.was N.next) (plain_cut N.plain self.old)) }
        ensures limits { map N.bound self.new.consoles ≡ map N.bound self.old.consoles }
    {
        let i = least_of(&self.nodes);
        let player = i as u32;
        let was = was_of(&self.nodes, i);
        let clock = clock_of(&self.nodes, i);
        gather(&self.sent, &self.delays, player, was, clock, &mut self.due);
        let signal = turn_of(&mut self.nodes, i, &self.due);
        join_signal(&mut self.sent, player, signal);
        drop_dead(&mut self.sent, &self.nodes, &self.delays);
    }

    /// The least clock of all nodes.
    pub fn least_clock(&self) -> u64
        ensures value { result ≡ clock_at (kind_of N.clock N.was N.next) (plain_cut N.plain self.now)
            (least (kind_of N.clock N.was N.next) (plain_cut N.plain self.now)) }
        ensures cable { IsCable (plain_cut N.plain self.now) }
        ensures sound { IsSound (kind_of N.clock N.was N.next) (plain_cut N.plain self.now) }
        ensures live { AllLive (kind_of N.clock N.was N.next) (plain_cut N.plain self.now) }
    {
        clock_of(&self.nodes, least_of(&self.nodes))
    }

    /// Steps of the node with the least clock, as far as the others let it go before they step, or till it tells
    /// something. The global order goes on to the same end.
    fn burst(&mut self, until: u64)
        requires limits { All (λ node. until ≤ N.bound node) self.old.consoles }
        requires early { clock_at (kind_of N.clock N.was N.next) (plain_cut N.plain self.old)
            (least (kind_of N.clock N.was N.next) (plain_cut N.plain self.old)) < until }
        ensures same_end { live (kind_of N.clock N.was N.next)
            (run (kind_of N.clock N.was N.next) (plain_cut N.plain self.new) until)
            ≡ live (kind_of N.clock N.was N.next)
            (run (kind_of N.clock N.was N.next) (plain_cut N.plain self.old) until) }
        ensures fewer { cycles_left (kind_of N.clock N.was N.next) (plain_cut N.plain self.new) until
            < cycles_left (kind_of N.clock N.was N.next) (plain_cut N.plain self.old) until }
        ensures limits { map N.bound self.new.consoles ≡ map N.bound self.old.consoles }
    {
        let i = least_of(&self.nodes);
        let end = horizon_of(&self.nodes, i, &self.delays, until);
        let signal = take_turns(
            &mut self.nodes,
            i,
            end,
            &self.sent,
            &self.delays,
            &mut self.due,
        );
        join_signal(&mut self.sent, i as u32, signal);
        drop_dead(&mut self.sent, &self.nodes, &self.delays);
    }

    /// Steps in the global order until every clock is at least `until`.
    pub fn run_serial(&mut self, until: u64)
        requires { All (λ node. until ≤ N.bound node) self.old.consoles }
        ensures run { plain_cut N.plain self.new
            ≡ live (kind_of N.clock N.was N.next)
            (run (kind_of N.clock N.was N.next) (plain_cut N.plain self.old) until) }
        ensures done { (i : ℕ) → i < length self.new.consoles →
            until ≤ slice_index (map N.clock (map N.plain self.new.consoles)) i }
        ensures limits { map N.bound self.new.consoles ≡ map N.bound self.old.consoles }
    {
        while self.least_clock() < until {
            self.burst(until);
        }
    }
}
