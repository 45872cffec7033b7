//! Rounds, one after another.

ghost use Rattle.std.specs.Prelude.{ℕ, ◌≡◌, ◌<◌, ◌≤◌, length, map, slice_index, All};
ghost use Rattle.link_order.specs.NodeKind.{kind_of};
ghost use Rattle.link_order.specs.Cut.{Cut, plain_cut, live};
ghost use Rattle.link_order.specs.GlobalOrder.{run, cycles_left};
ghost use Rattle.link_run.specs.Going.{MayGo};
ghost use Rattle.link_run.specs.Round.{Begins, HasGone, ComesNearer};

use crate::advance::{Work, advance_all};
use crate::round::{Round, RoundRefused};
use gba_store::Gate;
use link_core::Cut;
use link_node::{Delays, Node};
use std::alloc::Global;
use std::thread::{Threads, available_parallelism};

/// The shortest way of a signal from one console to another and back, in cycles, at which lanes are tried.
const SHORTEST: u64 = 512;

/// The clock at which the lanes of a round meet is at most so far from the least one.
const NEAREST: u64 = 256;

/// How many looks in vain a lane has when a round begins.
const LOOKS: u64 = 1 << 18;

/// The same in a round behind one that wasn't worth its while.
const LATER_LOOKS: u64 = 1 << 16;

/// The same where there are fewer processors than lanes.
const FEW_LOOKS: u64 = 1 << 10;

/// A round in which the lane that is furthest behind comes so many cycles on has paid for itself.
const FAIR: u64 = 1 << 20;

/// How many cycles the global order makes after a round that has paid for itself.
const STRETCH: u64 = 1 << 16;

/// How many it makes after the first round of a run where that one hasn't.
const FIRST_STRETCH: u64 = 1 << 20;

/// How many times as long each stretch is after a round that hasn't as the one before it.
const GROWTH: u64 = 8;

/// The shortest delay between two of so many players, in cycles.
fn shortest_delay(delays: &Delays, players: usize) -> u64 {
    let mut shortest = u64::MAX;
    for pair in 0..16 {
        let (sender, receiver) = (pair / 4, pair % 4);
        if sender < players && receiver < players && sender != receiver {
            shortest = shortest.min(delays.hop(sender, receiver));
        }
    }
    shortest
}

/// The shortest way of a signal from one of so many players to another one and back, in cycles.
fn shortest_way(delays: &Delays, players: usize) -> u64 {
    let mut shortest = u64::MAX;
    for pair in 0..16 {
        let (sender, receiver) = (pair / 4, pair % 4);
        if sender < players && receiver < players && sender != receiver {
            let way = delays
                .hop(sender, receiver)
                .saturating_add(delays.hop(receiver, sender));
            shortest = shortest.min(way);
        }
    }
    shortest
}

/// The looks of each of so many lanes at the start of a round.
fn looks_of<R: Threads>(rt: &R, lanes: usize) -> u64 {
    match available_parallelism(rt) {
        Ok(processors) if processors.get() >= lanes => LOOKS,
        _ => FEW_LOOKS,
    }
}

/// How many cycles the global order makes after a round that made so many, where the stretch before it had so many.
fn next_stretch(stretch: u64, made: u64) -> u64 {
    if made < FAIR {
        stretch.saturating_mul(GROWTH)
    } else {
        STRETCH
    }
}

/// The looks of each lane in a round behind a stretch of so many cycles. A stretch longer than that before a run's first
/// round follows a round that wasn't worth its while.
fn looks_after(stretch: u64, looks: u64) -> u64 {
    if stretch > FIRST_STRETCH / GROWTH {
        looks.min(LATER_LOOKS)
    } else {
        looks
    }
}

/// Lets the lanes of a round advance side by side, as far as they come.
fn advance_round<R: Threads + Sync, N: Node + Send + Sync, G: Gate + Sync>(
    rt: &R,
    round: Round<N>,
    gate: &G,
    until: u64,
    meeting: u64,
    looks: u64,
) -> Round<N>
    requires few { length round.lanes.items ≤ 4 }
    requires may_go { All (MayGo round.shared until) round.lanes.items }
    ensures { HasGone (kind_of N.clock N.was N.next) N.plain N.bound until round result }
{
    let mut round = round;
    let lanes = round.lanes.len() as u32;
    let work = Work {
        rt,
        shared: &round.shared,
        gate,
        until,
        lanes,
        meeting,
        looks,
    };
    advance_all(&work, round.lanes.as_mut_slice());
    round
}

/// Finishes a round whose lanes have gone on.
fn finish_round<N: Node>(round: Round<N>, until: u64) -> Cut<N>
    requires { (cut : Cut N) × (first : Round N) × (Begins (kind_of N.clock N.was N.next) N.plain N.bound cut first)
        × All (λ node. until ≤ N.bound node) cut.consoles
        × HasGone (kind_of N.clock N.was N.next) N.plain N.bound until first round }
    ensures { (cut : Cut N) (first : Round N) → Begins (kind_of N.clock N.was N.next) N.plain N.bound cut first →
        All (λ node. until ≤ N.bound node) cut.consoles →
        HasGone (kind_of N.clock N.was N.next) N.plain N.bound until first round →
        ComesNearer (kind_of N.clock N.was N.next) N.plain N.bound until cut result }
{
    round.finish()
}

/// Lets the lanes of a new round advance, and finishes it.
fn go_round<R: Threads + Sync, N: Node + Send + Sync, G: Gate + Sync>(
    rt: &R,
    round: Round<N>,
    gate: &G,
    until: u64,
    meeting: u64,
    looks: u64,
) -> Cut<N>
    requires { (cut : Cut N) × (Begins (kind_of N.clock N.was N.next) N.plain N.bound cut round)
        × All (λ node. until ≤ N.bound node) cut.consoles }
    ensures { (cut : Cut N) → Begins (kind_of N.clock N.was N.next) N.plain N.bound cut round →
        All (λ node. until ≤ N.bound node) cut.consoles →
        ComesNearer (kind_of N.clock N.was N.next) N.plain N.bound until cut result }
{
    let gone = advance_round(rt, round, gate, until, meeting, looks);
    finish_round(gone, until)
}

/// Steps in the global order until every clock is so many cycles past the least one, or at the end.
fn go_serial<N: Node>(cut: &mut Cut<N>, cycles: u64, until: u64)
    requires { All (λ node. until ≤ N.bound node) cut.old.consoles }
    ensures same_end { live (kind_of N.clock N.was N.next)
        (run (kind_of N.clock N.was N.next) (plain_cut N.plain cut.new) until)
        ≡ live (kind_of N.clock N.was N.next)
        (run (kind_of N.clock N.was N.next) (plain_cut N.plain cut.old) until) }
    ensures no_more { cycles_left (kind_of N.clock N.was N.next) (plain_cut N.plain cut.new) until
        ≤ cycles_left (kind_of N.clock N.was N.next) (plain_cut N.plain cut.old) until }
    ensures limits { map N.bound cut.new.consoles ≡ map N.bound cut.old.consoles }
{
    let end = cut.least_clock().saturating_add(cycles).min(until);
    cut.run_serial(end);
}

/// Lets the lanes of a new round advance from the clock `first`, from where each one comes `nearest` cycles on by
/// itself, finishes it, and goes on in the global order for a stretch that depends on how far they came.
fn go_on<R: Threads + Sync, N: Node + Send + Sync, G: Gate + Sync>(
    rt: &R,
    round: Round<N>,
    gate: &G,
    until: u64,
    looks: u64,
    first: u64,
    nearest: u64,
    stretch: &mut u64,
) -> Cut<N>
    requires { (cut : Cut N) × (Begins (kind_of N.clock N.was N.next) N.plain N.bound cut round)
        × All (λ node. until ≤ N.bound node) cut.consoles }
    ensures { (cut : Cut N) → Begins (kind_of N.clock N.was N.next) N.plain N.bound cut round →
        All (λ node. until ≤ N.bound node) cut.consoles →
        ComesNearer (kind_of N.clock N.was N.next) N.plain N.bound until cut result }
{
    let meeting = first.saturating_add(nearest).min(until);
    let looks = looks_after(*stretch, looks);
    let mut cut = go_round(rt, round, gate, until, meeting, looks);
    *stretch = next_stretch(*stretch, cut.least_clock().saturating_sub(first));
    go_serial(&mut cut, *stretch, until);
    cut
}

/// Runs a cut until every clock is at least `until`: by rounds of lanes on threads, and after each round by a stretch
/// of the global order, which is the longer the less the round was worth. It comes to the cut that the global order
/// makes, however the threads are scheduled. A node alone has nobody to run beside and goes straight through; so do
/// nodes of which two have a way there and back below 512 cycles, nodes for which the gate has no room at the start,
/// and the rest of a run for which no memory is left. Only a lane's steps enter the gate: what the global order steps
/// doesn't, between the rounds neither.
pub fn run_to<R: Threads + Sync, N: Node + Send + Sync, G: Gate + Sync>(
    rt: &R,
    alloc: Global,
    cut: Cut<N>,
    gate: &G,
    until: u64,
) -> Cut<N>
    requires { All (λ node. until ≤ N.bound node) cut.consoles }
    ensures run { plain_cut N.plain result
        ≡ live (kind_of N.clock N.was N.next) (run (kind_of N.clock N.was N.next) (plain_cut N.plain cut) until) }
    ensures done { (i : ℕ) → i < length result.consoles →
        until ≤ slice_index (map N.clock (map N.plain result.consoles)) i }
    ensures limits { map N.bound result.consoles ≡ map N.bound cut.consoles }
{
    let mut cut = cut;
    let players = cut.nodes().len();
    if players == 1 || shortest_way(cut.delays(), players) < SHORTEST || !gate.has_room(players) {
        cut.run_serial(until);
        return cut;
    }
    let looks = looks_of(rt, players);
    let nearest = shortest_delay(cut.delays(), players).min(NEAREST);
    let mut stretch = FIRST_STRETCH / GROWTH;
    while cut.least_clock() < until {
        let first = cut.least_clock();
        match Round::begin(alloc, cut) {
            Ok(round) => cut = go_on(rt, round, gate, until, looks, first, nearest, &mut stretch),
            Err(refused) => {
                let RoundRefused { cut: mut rest } = refused;
                rest.run_serial(until);
                return rest;
            }
        }
    }
    cut
}
