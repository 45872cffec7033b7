//! Lanes side by side.

ghost use Rattle.std.specs.Prelude.{◌<◌, ◌≤◌, length, All};
ghost use Rattle.link_order.specs.NodeKind.{kind_of};
ghost use Rattle.link_run.specs.Going.{MayGo, Went, AllWent};

use gba_store::Gate;
use link_lane::{Lane, Pause};
use link_node::Node;
use link_table::Shared;
use std::thread::{Threads, join_mut};
use std::{hint, thread};

/// How often a lane looks at all its peers before it waits for one of them.
const POLLS: u32 = 1;

/// How often a lane lets other threads go first until all lanes have begun.
const TURNS: u32 = 4096;

/// The most looks in vain that a lane may have left. One takes some 20 ns.
const MOST: u64 = 1 << 19;

/// So many looks in vain at a peer that doesn't go on, and a lane goes on in another thread. They take 0.1 to 0.2 ms.
const PATIENCE: u64 = 1 << 12;

/// So many cycles that the other lanes make beside it give a lane one more look.
const CYCLES: u64 = 12;

/// What all lanes of a round share: how many they are, the clock to which each one comes by itself, and how many looks
/// in vain each one has at first.
#[derive(Drop)]
pub(crate) struct Work<'a, R, N: Node, G> {
    pub rt: &'a R,
    pub shared: &'a Shared<N>,
    pub gate: &'a G,
    pub until: u64,
    pub lanes: u32,
    pub meeting: u64,
    pub looks: u64,
}

/// Whether each of so many lanes has come to a clock.
fn have_come<N: Node>(shared: &Shared<N>, lanes: u32, clock: u64) -> bool {
    (0..lanes).all(|player| match shared.clock_of(player) {
        Some(now) => clock <= now,
        None => true,
    })
}

/// Lets other threads go first until all lanes have come to the clock to which each one comes by itself.
fn meet<R, N: Node, G>(work: &Work<R, N, G>) {
    for _turn in 0..TURNS {
        if have_come(work.shared, work.lanes, work.meeting) {
            return;
        }
        thread::yield_now();
    }
}

/// Waits until the peer for which a lane has stopped goes on, for at most so many looks. It answers how many
/// it has taken.
fn wait<N: Node>(shared: &Shared<N>, pause: Pause, looks: u64) -> u64
    requires some { 0 < looks }
    ensures some { 0 < result }
    ensures most { result ≤ looks }
{
    let Pause::Blocked { peer, seen } = pause else {
        return 1;
    };
    let mut taken = 1;
    while taken < looks && shared.clock_of(peer) == Some(seen) {
        hint::spin_loop();
        taken += 1;
    }
    taken
}

/// The looks that a lane has left after so many cycles, beside which each other one of so many lanes makes as many.
fn earn(looks: u64, cycles: u64, lanes: u32) -> u64
    ensures most { result ≤ 524288 }
{
    let others = cycles.saturating_mul(u64::from(lanes.saturating_sub(1)));
    looks.saturating_add(others / CYCLES).min(MOST)
}

/// Lets a lane advance in this thread to the end, till it has no look left, or till it has taken `patience` of them for
/// one peer that hasn't gone on. It answers how many are left.
fn go_here<R, N: Node, G: Gate>(
    work: &Work<R, N, G>,
    lane: &mut Lane<N>,
    looks: u64,
    patience: u64,
) -> u64
    requires may_go { MayGo work.now.shared.now work.now.until lane.old }
    requires some { 0 < patience }
    ensures went { Went (kind_of N.clock N.was N.next) N.plain N.bound work.now.until lane.old lane.new }
    ensures most { result ≤ 524288 }
{
    let mut pause = lane.advance(work.shared, work.gate, work.until, POLLS);
    let mut clock = lane.clock();
    let mut left = looks.min(MOST);
    while left > 0 && clock < work.until {
        let taken = wait(work.shared, pause, left.min(patience));
        left -= taken;
        pause = lane.advance(work.shared, work.gate, work.until, POLLS);
        let now = lane.clock();
        if now > clock {
            left = earn(left, now - clock, work.lanes);
            clock = now;
        } else if taken >= patience {
            return left;
        }
    }
    left
}

/// Lets a lane advance to the end, or till it has no look left, in a thread of its own, while this one sleeps.
fn go_elsewhere<R: Threads + Sync, N: Node + Send + Sync, G: Gate + Sync>(
    work: &Work<R, N, G>,
    lane: &mut Lane<N>,
    looks: u64,
)
    requires { MayGo work.now.shared.now work.now.until lane.old }
    ensures { Went (kind_of N.clock N.was N.next) N.plain N.bound work.now.until lane.old lane.new }
{
    join_mut(
        work.rt,
        &mut || -> u64
            requires { MayGo work.now.shared.now work.now.until lane.now }
        { go_here(work, lane, looks, MOST) },
        &mut || (),
    );
}

/// Lets a lane advance to the end, or till it has no look left. A lane that waits too long for one peer goes on in
/// another thread, once, since that peer may be one that waits for this very processor.
fn go<R: Threads + Sync, N: Node + Send + Sync, G: Gate + Sync>(
    work: &Work<R, N, G>,
    lane: &mut Lane<N>,
)
    requires { MayGo work.now.shared.now work.now.until lane.old }
    ensures { Went (kind_of N.clock N.was N.next) N.plain N.bound work.now.until lane.old lane.new }
{
    lane.advance(work.shared, work.gate, work.until, POLLS);
    meet(work);
    let left = go_here(work, lane, work.looks, PATIENCE);
    if left > 0 && lane.clock() < work.until {
        go_elsewhere(work, lane, left);
    }
}

/// Lets the only lane of a list advance in this thread, if there is one.
fn go_last<R: Threads + Sync, N: Node + Send + Sync, G: Gate + Sync>(
    work: &Work<R, N, G>,
    lanes: &mut [Lane<N>],
)
    requires few { length lanes.old ≤ 1 }
    requires may_go { All (MayGo work.now.shared.now work.now.until) lanes.old }
    ensures { AllWent (kind_of N.clock N.was N.next) N.plain N.bound work.now.until lanes.old lanes.new }
{
    if let Some(last) = lanes.first_mut() {
        go(work, last);
    }
}

/// Lets up to two lanes advance side by side, the last one in this thread.
fn go_two<R: Threads + Sync, N: Node + Send + Sync, G: Gate + Sync>(
    work: &Work<R, N, G>,
    lanes: &mut [Lane<N>],
)
    requires few { length lanes.old ≤ 2 }
    requires may_go { All (MayGo work.now.shared.now work.now.until) lanes.old }
    ensures { AllWent (kind_of N.clock N.was N.next) N.plain N.bound work.now.until lanes.old lanes.new }
{
    if let Some((first, rest)) = lanes.split_first_mut() {
        join_mut(
            work.rt,
            &mut ||
                requires { MayGo work.now.shared.now work.now.until first.now }
            { go(work, first) },
            &mut ||
                requires few { length rest.now ≤ 1 }
                requires may_go { All (MayGo work.now.shared.now work.now.until) rest.now }
            { go_last(work, rest) },
        );
    }
}

/// Lets up to three lanes advance side by side, the last one in this thread.
fn go_three<R: Threads + Sync, N: Node + Send + Sync, G: Gate + Sync>(
    work: &Work<R, N, G>,
    lanes: &mut [Lane<N>],
)
    requires few { length lanes.old ≤ 3 }
    requires may_go { All (MayGo work.now.shared.now work.now.until) lanes.old }
    ensures { AllWent (kind_of N.clock N.was N.next) N.plain N.bound work.now.until lanes.old lanes.new }
{
    if let Some((first, rest)) = lanes.split_first_mut() {
        join_mut(
            work.rt,
            &mut ||
                requires { MayGo work.now.shared.now work.now.until first.now }
            { go(work, first) },
            &mut ||
                requires few { length rest.now ≤ 2 }
                requires may_go { All (MayGo work.now.shared.now work.now.until) rest.now }
            { go_two(work, rest) },
        );
    }
}

/// Lets up to four lanes advance side by side, the last one in this thread, which starts the others, so that the system
/// knows of each before it places the next.
fn go_four<R: Threads + Sync, N: Node + Send + Sync, G: Gate + Sync>(
    work: &Work<R, N, G>,
    lanes: &mut [Lane<N>],
)
    requires few { length lanes.old ≤ 4 }
    requires may_go { All (MayGo work.now.shared.now work.now.until) lanes.old }
    ensures { AllWent (kind_of N.clock N.was N.next) N.plain N.bound work.now.until lanes.old lanes.new }
{
    if let Some((first, rest)) = lanes.split_first_mut() {
        join_mut(
            work.rt,
            &mut ||
                requires { MayGo work.now.shared.now work.now.until first.now }
            { go(work, first) },
            &mut ||
                requires few { length rest.now ≤ 3 }
                requires may_go { All (MayGo work.now.shared.now work.now.until) rest.now }
            { go_three(work, rest) },
        );
    }
}

/// Lets all lanes advance side by side.
pub(crate) fn advance_all<R: Threads + Sync, N: Node + Send + Sync, G: Gate + Sync>(
    work: &Work<R, N, G>,
    lanes: &mut [Lane<N>],
)
    requires few { length lanes.old ≤ 4 }
    requires may_go { All (MayGo work.now.shared.now work.now.until) lanes.old }
    ensures { AllWent (kind_of N.clock N.was N.next) N.plain N.bound work.now.until lanes.old lanes.new }
{
    match lanes.len() {
        0 | 1 => go_last(work, lanes),
        2 => go_two(work, lanes),
        3 => go_three(work, lanes),
        _ => go_four(work, lanes),
    }
}
