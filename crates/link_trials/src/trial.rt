//! Cuts of mixers that run, with what the calls on them need looked at first.

ghost use Rattle.std.specs.Prelude.{◌≡◌, ◌<◌, ◌≤◌, ◌^◌, All, IsTrue};
ghost use Rattle.link_node.specs.Delays.{AreDelays};

use crate::plain::LIMIT;
use crate::{Mixer, begin, mixers};
use link_core::{Cut, Seen, Sent, Shell, may_step};
use link_node::Delays;
use std::alloc::{AllocError, Global};
use std::process::Abort;

/// A cut of mixers.
#[derive(Drop)]
pub struct Trial {
    cut: Cut<Mixer>,
}

/// The signals of such a cut while its mixers are elsewhere.
#[derive(Drop)]
pub struct TrialShell {
    shell: Shell,
}

/// Whether no mixer has a limit below a clock.
fn may_run(nodes: &[Mixer], until: u64) -> bool
    ensures { IsTrue result → All (λ m. until ≤ m.limit) nodes.now }
{
    nodes.iter().all(|node| until <= node.limit)
}

/// One step of the global order, where the least node is below its limit. It answers the player, and the node after it.
fn step_once(rt: &impl Abort, cut: &mut Cut<Mixer>) -> (usize, Mixer) {
    let player = cut.least() as usize;
    let node = cut.nodes()[player];
    assert!(rt; node.clock < node.limit);
    cut.serial_step();
    let nodes = cut.nodes();
    assert!(rt; player < nodes.len());
    (player, nodes[player])
}

/// A cut that is taken apart and put together again is as it was.
fn cut_of(cut: Cut<Mixer>) -> Cut<Mixer>
    ensures { result ≡ cut }
{
    let (nodes, shell) = cut.part();
    shell.join(nodes)
}

impl Trial {
    /// So many mixers at clock 0 on a cable.
    pub fn of(
        rt: &impl Abort,
        alloc: Global,
        count: usize,
        delays: Delays,
        seed: u64,
    ) -> Result<Trial, AllocError>
        requires { AreDelays delays }
    {
        assert!(rt; 0 < count && count <= 4);
        let nodes = mixers(alloc, count, seed, LIMIT)?;
        let Ok(cut) = begin(alloc, nodes, delays) else {
            panic!(rt; "no memory");
        };
        Ok(Trial { cut })
    }

    /// Steps in the global order until every clock is at least `until`.
    pub fn run(&mut self, rt: &impl Abort, until: u64) {
        assert!(rt; may_run(self.cut.nodes(), until));
        self.cut.run_serial(until);
    }

    /// One step of the global order. It answers the player, and the node after it.
    pub fn step(&mut self, rt: &impl Abort) -> (usize, Mixer) {
        step_once(rt, &mut self.cut)
    }

    /// Taken apart and put together again.
    pub fn put_together(self) -> Trial {
        Trial {
            cut: cut_of(self.cut),
        }
    }

    pub fn nodes(&self) -> &[Mixer] {
        self.cut.nodes()
    }

    pub fn sent(&self) -> &[Sent] {
        self.cut.sent()
    }

    pub fn delays(&self) -> Delays {
        *self.cut.delays()
    }

    pub fn least(&self) -> u32 {
        self.cut.least()
    }

    pub fn least_clock(&self) -> u64 {
        self.cut.least_clock()
    }

    pub fn into_nodes(self) -> Vec<Mixer> {
        self.cut.into_nodes()
    }

    pub fn part(self) -> (Vec<Mixer>, TrialShell) {
        let (nodes, shell) = self.cut.part();
        (nodes, TrialShell { shell })
    }
}

impl TrialShell {
    pub fn delays(&self) -> Delays {
        *self.shell.delays()
    }

    pub fn sent(&self) -> &[Sent] {
        self.shell.sent()
    }

    pub fn clear(&mut self) {
        self.shell.clear();
    }

    pub fn add(&mut self, rt: &impl Abort, one: Sent) {
        assert!(rt; one.signal.fits());
        assert!(rt; self.shell.sent().len() < 16_384);
        self.shell.add(one);
    }
}

fn are_clocks(seen: &[Seen]) -> bool
    ensures { IsTrue result → All (λ peer. peer.clock < 2 ^ 40) seen.now }
{
    seen.iter().all(|peer| peer.clock < 1 << 40)
}

fn are_short(delays: &[u64]) -> bool
    ensures { IsTrue result → All (λ delay. delay ≤ 1024) delays.now }
{
    delays.iter().all(|delay| *delay <= 1024)
}

/// Whether a console may step by the clocks that it has seen of its peers and the delays from them.
pub fn may_go(rt: &impl Abort, clock: u64, until: u64, seen: &[Seen], delays: &[u64]) -> bool {
    assert!(rt; delays.len() == seen.len());
    assert!(rt; are_clocks(seen));
    assert!(rt; are_short(delays));
    may_step(clock, until, seen, delays)
}
