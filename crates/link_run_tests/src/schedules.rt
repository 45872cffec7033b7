//! A thousand schedules with one result.

ghost use Rattle.std.specs.Prelude.{ℕ, ◌≡◌, ◌<◌, ◌≤◌, All, IfOk};
ghost use Rattle.link_node.specs.Delays.{AreDelays};

use gba_store::Gate;
use link_core::Cut;
use link_node::Delays;
use link_run::run_to;
use link_trials::{Mixer, begin, drawn, mixers};
use std::alloc::Global;
use std::process::Abort;
use std::sync::atomic::{AtomicU64, Ordering};
use std::test::Fail;
use std::thread::Threads;

/// No node of these tests makes a step from here on.
const LIMIT: u64 = 1 << 20;

/// The next of a row of numbers that look random.
fn next_random(number: u64) -> u64 {
    number
        .wrapping_mul(6364136223846793005)
        .wrapping_add(1442695040888963407)
}

/// Holds each step for a while, by a row of numbers that look random, and counts the steps of each player.
#[derive(Drop)]
struct Holding {
    number: AtomicU64,
    entries: AtomicU64,
}

impl Gate for Holding {
    fn enter(&self, player: u32, clock: u64) {
        self.entries.fetch_add(1, Ordering::SeqCst);
        let number = next_random(
            self.number.load(Ordering::SeqCst) ^ (clock << 2) ^ u64::from(player),
        );
        self.number.store(number, Ordering::SeqCst);
        if (number >> 60) == 0 {
            std::thread::yield_now();
        }
        for turn in 0..(number >> 40) % 500 {
            std::hint::spin_loop();
        }
    }
}

/// Some mixers that haven't stepped, as a cut.
fn cut_of(
    rt: &impl Abort,
    alloc: Global,
    count: usize,
    delays: Delays,
    seed: u64,
) -> Result<Cut<Mixer>, Fail>
    requires count { (0 < count) × (count ≤ 4) }
    requires delays { AreDelays delays }
    ensures limits { IfOk result (λ cut. All (λ node. node.limit ≡ 1048576) cut.consoles) }
{
    let nodes = mixers(alloc, count, seed, LIMIT)?;
    let Ok(cut) = begin(alloc, nodes, delays) else {
        panic!(rt; "no memory");
    };
    Ok(cut)
}

/// One schedule: a run in two parts, on threads, beside the same run in the global order. It answers how often the gate
/// was entered.
fn compare<R: Abort + Threads + Sync>(
    rt: &R,
    alloc: Global,
    count: usize,
    delays: Delays,
    seed: u64,
    schedule: u64,
    first: u64,
    until: u64,
) -> Result<u64, Fail>
    requires count { (0 < count) × (count ≤ 4) }
    requires delays { AreDelays delays }
    requires first { first ≤ 1048576 }
    requires until { until ≤ 1048576 }
{
    let gate = Holding {
        number: AtomicU64::new(schedule),
        entries: AtomicU64::new(0),
    };
    let mut serial = cut_of(rt, alloc, count, delays, seed)?;
    let cut = cut_of(rt, alloc, count, delays, seed)?;
    serial.run_serial(first);
    let cut = run_to(rt, alloc, cut, &gate, first);
    assert_eq!(rt; cut.nodes(), serial.nodes());
    assert_eq!(rt; cut.sent(), serial.sent());
    serial.run_serial(until);
    let cut = run_to(rt, alloc, cut, &gate, until);
    assert_eq!(rt; cut.nodes(), serial.nodes());
    assert_eq!(rt; cut.sent(), serial.sent());
    Ok(gate.entries.load(Ordering::SeqCst))
}

/// So many schedules. They answer how often the gate was entered.
fn compare_all<R: Abort + Threads + Sync>(
    rt: &R,
    alloc: Global,
    count: usize,
    delays: Delays,
    seed: u64,
    schedules: u64,
) -> Result<u64, Fail>
    requires delays { AreDelays delays }
{
    assert!(rt; 0 < count && count <= 4);
    let mut entries = 0u64;
    for schedule in 0..schedules {
        let number = next_random(schedule);
        let entered = compare(rt, alloc, count, delays, seed, number, 700, 1_500)?;
        entries = entries.saturating_add(entered);
    }
    Ok(entries)
}

/// Consoles with one delay for all.
static EVEN: [(usize, u64); 10] = [
    (1, 40),
    (2, 1),
    (2, 512),
    (2, 1024),
    (3, 1),
    (3, 300),
    (3, 1024),
    (4, 1),
    (4, 512),
    (4, 1024),
];

#[test]
fn a_thousand_schedules_come_to_one_cut(rt: HostRuntime) -> Result<(), Fail> {
    let mut entries = 0u64;
    for &(count, delay) in &EVEN {
        assert!(rt; 0 < delay && delay <= 1024);
        let entered = compare_all(&rt, rt.alloc(), count, Delays::all(delay), delay, 100)?;
        entries = entries.saturating_add(entered);
    }
    // the first step of each of the eighteen lanes whose delay is no shorter than that at which lanes are tried
    assert!(rt;
        entries >= 1_800,
        "the gate is entered before the steps of lanes"
    );
    Ok(())
}

/// Consoles whose delays are drawn. The first three of them have a long way back where the way there is short: to the
/// greater player, to the less one, and once round.
static DRAWN: [(usize, u64); 5] = [
    (2, 0x0010),
    (4, 0x08ce),
    (3, 0x0214),
    (3, 0x0148),
    (4, 0x5a3c),
];

#[test]
fn schedules_of_drawn_delays_come_to_one_cut(rt: HostRuntime) -> Result<(), Fail> {
    let mut entries = 0u64;
    for &(count, number) in &DRAWN {
        let entered = compare_all(&rt, rt.alloc(), count, drawn(number), number, 40)?;
        entries = entries.saturating_add(entered);
    }
    // the first step of each of the nine lanes of the first three
    assert!(rt;
        entries >= 360,
        "the gate is entered before the steps of lanes"
    );
    Ok(())
}
