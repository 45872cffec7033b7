//! Steps of one node in a row, as far as the others let it go.

ghost use Rattle.std.specs.Prelude.{ℕ, ◌≡◌, ◌≢◌, ◌+◌, ◌<◌, ◌≤◌, List, Some, length, map, slice_index, slice_get, All};
ghost use Rattle.std.specs.Vec.{vec_len, vec_capacity};
ghost use Rattle.link_order.specs.NodeKind.{kind_of};
ghost use Rattle.link_node.specs.Delays.{hop_of};
ghost use Rattle.link_order.specs.Cut.{plain_cut, clock_at};
ghost use Rattle.link_order.specs.GlobalOrder.{least, with_signal};
ghost use Rattle.link_core.specs.Kept.{IsKept, cut_of};
ghost use Rattle.link_core.specs.Burst.{ArrivesFrom, Idles, GoesAlone};

use crate::nodes::{clock_of, turn_of};
use crate::signals::{gather, was_of};
use link_node::{Delays, Incoming, Node, Signal};
use link_order::Sent;

/// `end`, or the clock at which a sent signal arrives, where that is a peer's, comes after `was` and is sooner.
fn sooner(one: &Sent, delays: &Delays, player: u32, was: u64, end: u64) -> u64
    ensures most { result ≤ end }
    ensures quiet { ArrivesFrom (hop_of delays.now) player was result one.now }
{
    if one.sender == player {
        return end;
    }
    let between = delays.hop(one.sender as usize, player as usize);
    match one.signal.clock.checked_add(between) {
        Some(arrival) if was < arrival => arrival.min(end),
        _ => end,
    }
}

/// The clock, at most `end`, below which nothing is due to a player whose last step began at `was`.
pub(crate) fn quiet_end(sent: &[Sent], delays: &Delays, player: u32, was: u64, end: u64) -> u64
    ensures most { result ≤ end }
    ensures quiet { All (ArrivesFrom (hop_of delays.now) player was result) sent.now }
{
    let mut quiet = end;
    for one in sent {
        quiet = sooner(one, delays, player, was, quiet);
    }
    quiet
}

/// The clock, at most `until`, below which nothing that a peer still does can be due to player i.
pub(crate) fn horizon_of<N: Node>(nodes: &[N], i: usize, delays: &Delays, until: u64) -> u64
    ensures most { result ≤ until }
    ensures ahead { (j : ℕ) → j < length nodes.now → j ≢ i →
        result ≤ slice_index (map N.clock (map N.plain nodes.now)) j + hop_of delays.now j i }
    ensures far { (clock : ℕ) → clock < until → ((j : ℕ) → j < length nodes.now → j ≢ i →
        clock < slice_index (map N.clock (map N.plain nodes.now)) j + hop_of delays.now j i) → clock < result }
{
    let mut end = until;
    for j in 0..nodes.len() {
        if j != i {
            let heard = clock_of(nodes, j).saturating_add(delays.hop(j, i));
            end = end.min(heard);
        }
    }
    end
}

/// Steps of node i alone, with nothing due.
fn idle_of<N: Node>(nodes: &mut Vec<N>, i: usize, end: u64) -> Option<Signal>
    requires player { i < vec_len nodes.old }
    requires limit { end ≤ slice_index (map N.bound nodes.old.items) i }
    ensures alone { (x : N.Record) → slice_get (map N.plain nodes.old.items) i ≡ Some x →
        Idles (kind_of N.clock N.was N.next) end i x (map N.plain nodes.old.items) (map N.plain nodes.new.items)
        result }
    ensures limits { map N.bound nodes.new.items ≡ map N.bound nodes.old.items }
{
    nodes[i].go_alone(end)
}

/// Steps of node i, the one with the least clock, that begin below `end`, with what is due to them, or till it tells
/// something. Where nothing is due to the first step, all go by with nothing due; else it is the first step alone.
pub(crate) fn take_turns<N: Node>(
    nodes: &mut Vec<N>,
    i: usize,
    end: u64,
    sent: &[Sent],
    delays: &Delays,
    due: &mut Vec<Incoming>,
) -> Option<Signal>
    requires kept { (room : ℕ) × IsKept (kind_of N.clock N.was N.next) N.plain
        (cut_of nodes.old.items (record { delays = delays.now; sent = sent.now })) room (vec_capacity due.old) }
    requires least { i ≡ least (kind_of N.clock N.was N.next)
        (plain_cut N.plain (cut_of nodes.old.items (record { delays = delays.now; sent = sent.now }))) }
    requires limit { end ≤ slice_index (map N.bound nodes.old.items) i }
    requires early { slice_index (map N.clock (map N.plain nodes.old.items)) i < end }
    ensures goes { GoesAlone (kind_of N.clock N.was N.next) i end
        (plain_cut N.plain (cut_of nodes.old.items (record { delays = delays.now; sent = sent.now })))
        (plain_cut N.plain
        (cut_of nodes.new.items (record { delays = delays.now; sent = with_signal i result sent.now }))) }
    ensures rises { slice_index (map N.clock (map N.plain nodes.old.items)) i
        < slice_index (map N.clock (map N.plain nodes.new.items)) i }
    ensures limits { map N.bound nodes.new.items ≡ map N.bound nodes.old.items }
    ensures room { vec_capacity due.old ≤ vec_capacity due.new }
{
    let player = i as u32;
    let was = was_of(nodes, i);
    let clock = clock_of(nodes, i);
    let quiet = quiet_end(sent, delays, player, was, end);
    if clock < quiet {
        return idle_of(nodes, i, quiet);
    }
    gather(sent, delays, player, was, clock, due);
    turn_of(nodes, i, due)
}
