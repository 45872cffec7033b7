//! Lanes on threads, compared with the global order.

ghost use Rattle.std.specs.Prelude.{ℕ, ◌≡◌, ◌+◌, ◌<◌, ◌≤◌, All, IfOk, length};
ghost use Rattle.link_node.specs.Delays.{AreDelays};
ghost use Rattle.link_lane_tests.specs.Going.{MayGo};

use crate::{advance_all, lanes_of};
use gba_store::{Gate, NoGate};
use link_core::{Cut, Sent};
use link_lane::{Lane, LaneParts};
use link_node::{Delays, Incoming};
use link_table::Shared;
use link_trials::{Mixer, begin, drawn, mixers};
use std::alloc::Global;
use std::process::Abort;
use std::sync::atomic::{AtomicU64, Ordering};
use std::test::Fail;
use std::thread::Threads;

/// No node of these tests makes a step from here on.
const LIMIT: u64 = 1 << 20;

/// Some mixers that haven't stepped, as a cut.
fn cut_of(
    rt: &impl Abort,
    alloc: Global,
    count: usize,
    delays: Delays,
    seed: u64,
) -> Result<Cut<Mixer>, Fail>
    requires count { (0 < count) × (count ≤ 4) }
    requires delays { AreDelays delays }
    ensures sent { IfOk result (λ cut. length cut.sent ≡ 0) }
    ensures count { IfOk result (λ cut. length cut.consoles ≡ count) }
    ensures limits { IfOk result (λ cut. All (λ node. node.limit ≡ 1048576) cut.consoles) }
{
    let nodes = mixers(alloc, count, seed, LIMIT)?;
    let Ok(cut) = begin(alloc, nodes, delays) else {
        panic!(rt; "no memory");
    };
    Ok(cut)
}

/// Lets all lanes advance until each has come to the end.
fn advance_to_end<R: Abort + Threads + Sync, G: Gate + Sync>(
    rt: &R,
    shared: &Shared<Mixer>,
    gate: &G,
    lanes: &mut [Lane<Mixer>],
    until: u64,
    polls: u32,
)
    requires may_go { All (MayGo shared.now until) lanes.old }
    requires polls { 0 < polls }
{
    for round in 0..1_000_000 {
        if lanes.iter().all(|lane| lane.clock() >= until) {
            return;
        }
        advance_all(rt, shared, gate, lanes, until, polls);
    }
    panic!(rt; "the lanes do not come to the end");
}

/// The nodes of some lanes, by player number. What waits is on its way in the cut.
fn nodes_of(
    rt: &impl Abort,
    alloc: Global,
    lanes: Vec<Lane<Mixer>>,
    sent: &[Sent],
    delays: &Delays,
) -> Result<Vec<Mixer>, Fail> {
    let mut nodes = Vec::new(alloc);
    for lane in lanes {
        let player = lane.player() as usize;
        let LaneParts {
            node,
            seat: _,
            waiting,
        } = lane.into_parts();
        for one in &waiting {
            let &Incoming {
                sender,
                arrival,
                signal,
            } = one;
            assert!(rt; sent.contains(&Sent { sender, signal }));
            let between = arrival.checked_sub(signal.clock);
            assert_eq!(rt; between, Some(delays.hop(sender as usize, player)));
        }
        nodes.push(node)?;
    }
    Ok(nodes)
}

/// One step of the global order. It answers false, and nothing is done, where the least clock has come to the end.
fn step_once(cut: &mut Cut<Mixer>, until: u64) -> bool {
    let player = cut.least() as usize;
    let node = cut.nodes()[player];
    if node.clock >= until || node.clock >= node.limit {
        return false;
    }
    cut.serial_step();
    true
}

/// Nodes on threads come to what the global order makes of them. It answers how many steps that order makes.
fn compare<R: Abort + Threads + Sync, G: Gate + Sync>(
    rt: &R,
    alloc: Global,
    gate: &G,
    count: usize,
    delays: Delays,
    seed: u64,
    until: u64,
    polls: u32,
) -> Result<u64, Fail>
    requires count { (0 < count) × (count ≤ 4) }
    requires delays { AreDelays delays }
    requires until { until ≤ 1048576 }
    requires polls { 0 < polls }
{
    let cut = cut_of(rt, alloc, count, delays, seed)?;
    let Some((shared, mut lanes)) = lanes_of(alloc, cut, until) else {
        panic!(rt; "no memory");
    };
    advance_to_end(rt, &shared, gate, lanes.as_mut_slice(), until, polls);
    let mut serial = cut_of(rt, alloc, count, delays, seed)?;
    let mut steps = 0u64;
    for _ in 0..1_000_000 {
        if !step_once(&mut serial, until) {
            break;
        }
        steps = steps.saturating_add(1);
    }
    let nodes = nodes_of(rt, alloc, lanes, serial.sent(), &delays)?;
    assert_eq!(rt; nodes.as_slice(), serial.nodes());
    Ok(steps)
}

#[test]
fn lanes_on_threads_come_to_what_the_global_order_makes(rt: HostRuntime) -> Result<(), Fail> {
    for count in 1..5 {
        for (delay, seed, polls) in [
            (1, 7, 1),
            (16, 8, 64),
            (300, 9, 4096),
            (512, 10, 1),
            (1024, 11, 4096),
        ] {
            let delays = Delays::all(delay);
            compare(&rt, rt.alloc(), &NoGate, count, delays, seed, 6_000, polls)?;
        }
        for (number, polls) in [(0x0012, 1), (0x4821, 4096), (0x5a3c, 64), (0xfed7, 1)] {
            let delays = drawn(number);
            compare(
                &rt,
                rt.alloc(),
                &NoGate,
                count,
                delays,
                number,
                6_000,
                polls,
            )?;
        }
    }
    Ok(())
}

/// Holds one player at each step, and counts all entries.
#[derive(Drop)]
struct Holding {
    player: u32,
    entries: AtomicU64,
}

impl Gate for Holding {
    fn enter(&self, player: u32, _clock: u64) {
        self.entries.fetch_add(1, Ordering::SeqCst);
        if player == self.player {
            for _ in 0..20_000 {
                std::hint::spin_loop();
            }
        }
    }
}

#[test]
fn a_lane_that_is_held_changes_nothing(rt: HostRuntime) -> Result<(), Fail> {
    for player in 0..3 {
        let gate = Holding {
            player,
            entries: AtomicU64::new(0),
        };
        let steps = compare(&rt, rt.alloc(), &gate, 3, drawn(0x0148), 12, 6_000, 16)?;
        assert_eq!(rt; gate.entries.load(Ordering::SeqCst), steps);
    }
    Ok(())
}
