//! Whether nodes and signals are a cut from which a run can go on.

ghost use Rattle.std.specs.Prelude.{ℕ, ◌≡◌, ◌+◌, ◌<◌, ◌≤◌, ◌^◌, ◌↔◌, IsTrue, List, length, map, slice_index};
ghost use Rattle.std.specs.List.{list_all};
ghost use Rattle.link_node.specs.Delays.{AreDelays, hop_of};
ghost use Rattle.link_order.specs.NodeKind.{kind_of};
ghost use Rattle.link_order.specs.Cut.{is_awaited, plain_cut};
ghost use Rattle.link_order.specs.Order.{is_before, clock_of as signal_clock, sender_of};
ghost use Rattle.link_core.specs.Kept.{cut_of};
ghost use Rattle.link_core.specs.Whole.{all_below, is_allowed as is_allowed_by, is_behind as is_behind_by, is_near as is_near_by, is_ordered as is_ordered_by, is_paced as is_paced_by, is_sound_signal as is_sound_signal_by, is_whole_by, IsWhole};

use crate::nodes::clock_of;
use crate::signals::{is_awaited_by, is_sent_before, was_of};
use link_node::{Delays, Node};
use link_order::Sent;

/// Whether a node's last step took at most 512 cycles.
fn is_paced<N: Node>(nodes: &[N], i: usize) -> bool
    requires { i < length nodes.now }
    ensures { result ≡ is_paced_by (slice_index (map N.clock (map N.plain nodes.now)))
        (slice_index (map N.was (map N.plain nodes.now))) i }
{
    let clock = clock_of(nodes, i);
    let was = was_of(nodes, i);
    was <= clock && clock - was <= 512
}

fn are_paced<N: Node>(nodes: &[N]) -> bool
    ensures { result ≡ all_below (is_paced_by (slice_index (map N.clock (map N.plain nodes.now)))
        (slice_index (map N.was (map N.plain nodes.now)))) (length nodes.now) }
{
    let mut all = true;
    for i in 0..nodes.len() {
        all = is_paced(nodes, i) && all;
    }
    all
}

/// The clock before which what a node still sends can't be due to another one.
fn reach<N: Node>(nodes: &[N], delays: &Delays, sender: usize, receiver: usize) -> u64
    requires sender { sender < length nodes.now }
    requires delays { AreDelays delays.now }
    ensures value { result
        ≡ slice_index (map N.clock (map N.plain nodes.now)) sender + hop_of delays.now sender receiver }
    ensures small { result ≤ 2 ^ 40 }
{
    clock_of(nodes, sender) + delays.hop(sender, receiver)
}

/// Whether a node is as near behind another one as that one's signals ask.
fn is_near<N: Node>(nodes: &[N], delays: &Delays, i: usize, j: usize) -> bool
    requires one { i < length nodes.now }
    requires other { j < length nodes.now }
    requires delays { AreDelays delays.now }
    ensures { result ≡ is_near_by (hop_of delays.now) (slice_index (map N.clock (map N.plain nodes.now)))
        (slice_index (map N.was (map N.plain nodes.now))) i j }
{
    if i == j {
        return true;
    }
    let reach = reach(nodes, delays, j, i);
    clock_of(nodes, i) < reach + 512 && was_of(nodes, i) < reach
}

/// Whether a node is near all of them.
fn is_near_all<N: Node>(nodes: &[N], delays: &Delays, i: usize) -> bool
    requires one { i < length nodes.now }
    requires delays { AreDelays delays.now }
    ensures { result ≡ all_below (is_near_by (hop_of delays.now) (slice_index (map N.clock (map N.plain nodes.now)))
        (slice_index (map N.was (map N.plain nodes.now))) i) (length nodes.now) }
{
    let mut all = true;
    for j in 0..nodes.len() {
        all = is_near(nodes, delays, i, j) && all;
    }
    all
}

fn are_near<N: Node>(nodes: &[N], delays: &Delays) -> bool
    requires { AreDelays delays.now }
    ensures { result ≡ all_below (λ i. all_below (is_near_by (hop_of delays.now)
        (slice_index (map N.clock (map N.plain nodes.now))) (slice_index (map N.was (map N.plain nodes.now))) i)
        (length nodes.now)) (length nodes.now) }
{
    let mut all = true;
    for i in 0..nodes.len() {
        all = is_near_all(nodes, delays, i) && all;
    }
    all
}

/// Whether what a node may still send arrives at a signal's sender after the step that sent the signal began.
fn is_allowed<N: Node>(nodes: &[N], delays: &Delays, one: &Sent, i: usize) -> bool
    requires one { i < length nodes.now }
    requires delays { AreDelays delays.now }
    ensures { result ≡ is_allowed_by (hop_of delays.now) (slice_index (map N.clock (map N.plain nodes.now))) one.now i }
{
    i as u64 == u64::from(one.sender)
        || one.signal.clock < reach(nodes, delays, i, one.sender as usize)
}

fn is_allowed_by_all<N: Node>(nodes: &[N], delays: &Delays, one: &Sent) -> bool
    requires { AreDelays delays.now }
    ensures { result ≡ all_below (is_allowed_by (hop_of delays.now)
        (slice_index (map N.clock (map N.plain nodes.now))) one.now) (length nodes.now) }
{
    let mut all = true;
    for i in 0..nodes.len() {
        all = is_allowed(nodes, delays, one, i) && all;
    }
    all
}

/// Whether a signal is of one of the nodes, which has stepped since, and the others allow it.
fn is_sound_signal<N: Node>(nodes: &[N], delays: &Delays, one: &Sent) -> bool
    requires { AreDelays delays.now }
    ensures { result ≡ is_sound_signal_by (hop_of delays.now) (slice_index (map N.clock (map N.plain nodes.now)))
        (length nodes.now) one.now }
{
    let sender = one.sender as usize;
    if sender >= nodes.len() {
        return false;
    }
    one.signal.clock < clock_of(nodes, sender) && is_allowed_by_all(nodes, delays, one)
}

/// Whether signals stand by clock, then by sender, no two of one sender with one clock, behind another one.
fn is_behind(last: &Sent, rest: &[Sent]) -> bool
    ensures { result ≡ is_behind_by last.now rest.now }
{
    let mut last = last;
    for one in rest {
        if !is_sent_before(last, one) {
            return false;
        }
        last = one;
    }
    true
}

fn is_ordered(sent: &[Sent]) -> bool
    ensures { result ≡ is_ordered_by sent.now }
{
    match sent.split_first() {
        Some((first, rest)) => is_behind(first, rest),
        None => true,
    }
}

fn are_sound<N: Node>(nodes: &[N], delays: &Delays, sent: &[Sent]) -> bool
    requires { AreDelays delays.now }
    ensures { result ≡ list_all (is_sound_signal_by (hop_of delays.now)
        (slice_index (map N.clock (map N.plain nodes.now))) (length nodes.now)) sent.now }
{
    sent.iter().all(|one| is_sound_signal(nodes, delays, one))
}

fn are_awaited<N: Node>(nodes: &[N], delays: &Delays, sent: &[Sent]) -> bool
    ensures { result ≡ list_all (is_awaited (hop_of delays.now)
        (slice_index (map N.was (map N.plain nodes.now))) (length nodes.now)) sent.now }
{
    sent.iter().all(|one| is_awaited_by(nodes, delays, one))
}

/// The same, by how many nodes there are.
fn are_whole<N: Node>(nodes: &[N], delays: &Delays, sent: &[Sent]) -> bool
    requires { AreDelays delays.now }
    ensures { result ≡ is_whole_by (hop_of delays.now) (slice_index (map N.clock (map N.plain nodes.now)))
        (slice_index (map N.was (map N.plain nodes.now))) (length nodes.now) sent.now }
{
    are_paced(nodes)
        && are_near(nodes, delays)
        && are_sound(nodes, delays, sent)
        && are_awaited(nodes, delays, sent)
        && is_ordered(sent)
}

/// Whether nodes and signals are a cut from which a run can go on: it is sound and in time, and each of the signals can
/// still be taken by some other node. There are at most four nodes on a cable. The test takes no memory.
pub fn is_whole<N: Node>(nodes: &[N], delays: &Delays, sent: &[Sent]) -> bool
    requires { AreDelays delays.now }
    ensures { IsTrue result ↔ IsWhole (kind_of N.clock N.was N.next) (plain_cut N.plain
        (cut_of nodes.now (record { delays = delays.now; sent = sent.now }))) }
{
    are_whole(nodes, delays, sent)
}
