//! A plain program for runs in the global order: it keeps every signal ever sent and scans them all in each step.

use crate::tests::arrival;
use crate::{Mixer, cycles, mix_of, signal_of};
use link_core::Sent;
use link_node::{Delays, Incoming};
use std::alloc::Global;
use std::process::Abort;
use std::test::Fail;

/// No node of the tests has a greater limit.
pub const LIMIT: u64 = 1 << 20;

/// What a player takes of a signal, where it takes it.
pub fn taken(
    rt: &impl Abort,
    one: &Sent,
    player: usize,
    node: &Mixer,
    delays: &Delays,
) -> Option<Incoming> {
    let arrival = arrival(rt, one, player, delays);
    if one.sender as usize == player || arrival <= node.was || node.clock < arrival {
        return None;
    }
    Some(Incoming {
        sender: one.sender,
        arrival,
        signal: one.signal,
    })
}

/// The signals of a plain run that a player takes.
fn plain_due(
    rt: &impl Abort,
    alloc: Global,
    sent: &[Sent],
    player: usize,
    node: &Mixer,
    delays: &Delays,
) -> Result<Vec<Incoming>, Fail> {
    let mut due = Vec::new(alloc);
    for one in sent {
        if let Some(incoming) = taken(rt, one, player, node, delays) {
            due.push(incoming)?;
        }
    }
    due.sort_by_key(|one| (one.arrival, one.sender))?;
    Ok(due)
}

/// A node after a step that takes these signals.
fn plain_turn(rt: &impl Abort, node: &Mixer, due: &[Incoming]) -> Mixer {
    assert!(rt; node.clock < node.limit && node.limit <= LIMIT);
    let state = mix_of(node.state, due);
    Mixer {
        state,
        clock: node.clock + cycles(state),
        was: node.clock,
        limit: node.limit,
    }
}

/// The player with the least clock, at a tie the least number.
fn plain_least(nodes: &[Mixer]) -> usize {
    let mut least = 0;
    let mut clock = u64::MAX;
    for (i, node) in nodes.iter().enumerate() {
        if node.clock < clock {
            least = i;
            clock = node.clock;
        }
    }
    least
}

/// What the plain program did: every signal that was sent, and each step, by its player and the node after it.
#[derive(Drop)]
pub struct Plain {
    pub sent: Vec<Sent>,
    pub steps: Vec<(usize, Mixer)>,
}

/// One step of the plain program.
fn plain_step(
    rt: &impl Abort,
    alloc: Global,
    plain: &mut Plain,
    nodes: &mut [Mixer],
    player: usize,
    delays: &Delays,
) -> Result<(), Fail> {
    assert!(rt; player < nodes.len() && player < 4);
    let node = nodes[player];
    let due = plain_due(rt, alloc, &plain.sent, player, &node, delays)?;
    let after = plain_turn(rt, &node, &due);
    if let Some(signal) = signal_of(after.state, node.clock) {
        plain.sent.push(Sent {
            sender: player as u32,
            signal,
        })?;
    }
    nodes[player] = after;
    plain.steps.push((player, after))?;
    Ok(())
}

/// The plain program: it steps the node with the least clock until every clock is at least `until`.
pub fn plain_run(
    rt: &impl Abort,
    alloc: Global,
    nodes: &mut [Mixer],
    delays: &Delays,
    until: u64,
) -> Result<Plain, Fail> {
    let mut plain = Plain {
        sent: Vec::new(alloc),
        steps: Vec::new(alloc),
    };
    for _ in 0..100_000 {
        let least = plain_least(nodes);
        if nodes.get(least).is_none_or(|node| node.clock >= until) {
            break;
        }
        plain_step(rt, alloc, &mut plain, nodes, least, delays)?;
    }
    Ok(plain)
}
