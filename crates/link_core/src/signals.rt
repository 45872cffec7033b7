//! Lists of signals: a signal in its place, what is due to a player, and what nobody can take any more.

ghost use Rattle.std.specs.Prelude.{ℕ, true, false, ◌≡◌, ◌≢◌, ◌⊎◌, ◌+◌, ◌<◌, ◌≤◌, ◌^◌, List, None, Some};
ghost use Rattle.std.specs.Prelude.{length, map, filter, slice_index, if◌then◌else◌, All};
ghost use Rattle.std.specs.List.{insert};
ghost use Rattle.std.specs.Vec.{vec_len, vec_capacity};
ghost use Rattle.link_order.specs.Order.{is_before, place, place_sent, clock_of, sender_of, from};
ghost use Rattle.link_order.specs.Due.{is_due, incoming, arrival_of, player_of, place_due, due};
ghost use Rattle.link_node.specs.Delays.{hop_of};
ghost use Rattle.link_order.specs.Cut.{is_awaited};

use link_node::{Delays, Incoming, Node};
use link_order::Sent;

/// Whether a sent signal stands before another.
pub(crate) fn is_sent_before(one: &Sent, other: &Sent) -> bool
    ensures { result ≡ is_before clock_of sender_of one.now other.now }
{
    one.signal.clock < other.signal.clock
        || (one.signal.clock == other.signal.clock && one.sender < other.sender)
}

/// Whether a due signal stands before another.
fn is_due_before(one: &Incoming, other: &Incoming) -> bool
    ensures { result ≡ is_before arrival_of player_of one.now other.now }
{
    one.arrival < other.arrival || (one.arrival == other.arrival && one.sender < other.sender)
}

/// The index at which a sent signal stands in the order of clocks, then of senders.
fn index_of_sent(list: &[Sent], one: &Sent) -> usize
    ensures within { result ≤ length list.now }
    ensures placed { insert list.now result one.now ≡ place_sent one.now list.now }
{
    for (i, other) in list.iter().enumerate() {
        if is_sent_before(one, other) {
            return i;
        }
    }
    list.len()
}

/// The index at which a due signal stands in a list that is in the order of arrivals, then of senders.
pub fn index_of_due(list: &[Incoming], one: &Incoming) -> usize
    ensures within { result ≤ length list.now }
    ensures placed { insert list.now result one.now ≡ place_due one.now list.now }
{
    for (i, other) in list.iter().enumerate() {
        if is_due_before(one, other) {
            return i;
        }
    }
    list.len()
}

/// Puts a sent signal in its place.
pub(crate) fn put_sent(list: &mut Vec<Sent>, one: Sent)
    requires { vec_len list.old < vec_capacity list.old }
    ensures items { list.new.items ≡ place_sent one list.old.items }
    ensures room { vec_capacity list.old ≤ vec_capacity list.new }
{
    let index = index_of_sent(list, &one);
    if list.insert(index, one).is_err() {
        unreachable!()
    }
}

/// Puts a due signal in its place.
fn put_due(list: &mut Vec<Incoming>, one: Incoming)
    requires { vec_len list.old < vec_capacity list.old }
    ensures items { list.new.items ≡ place_due one list.old.items }
    ensures len { vec_len list.new ≡ vec_len list.old + 1 }
    ensures room { vec_capacity list.old ≤ vec_capacity list.new }
{
    let index = index_of_due(list, &one);
    if list.insert(index, one).is_err() {
        unreachable!()
    }
}

/// A sent signal as it arrives, where a step with these clocks takes it.
fn taken(one: &Sent, delay: u64, was: u64, clock: u64) -> Option<Incoming>
    ensures { result ≡ (if is_due was clock (one.now.signal.clock + delay)
        then Some (incoming delay one.now.sender one.now.signal) else None) }
{
    if clock < delay || one.signal.clock > clock - delay {
        return None;
    }
    let arrival = one.signal.clock + delay;
    if arrival <= was {
        return None;
    }
    Some(Incoming {
        sender: one.sender,
        arrival,
        signal: one.signal,
    })
}

/// Puts one sent signal into the list of what is due to a player, where it is.
fn gather_one(
    one: &Sent,
    delays: &Delays,
    player: u32,
    was: u64,
    clock: u64,
    list: &mut Vec<Incoming>,
)
    requires { vec_len list.old < vec_capacity list.old }
    ensures takes { let between = hop_of delays.now one.now.sender player in
        one.now.sender ≢ player → is_due was clock (one.now.signal.clock + between) ≡ true →
        list.new.items ≡ place_due (incoming between one.now.sender one.now.signal) list.old.items }
    ensures leaves { let between = hop_of delays.now one.now.sender player in
        (one.now.sender ≡ player) ⊎ (is_due was clock (one.now.signal.clock + between) ≡ false) →
        list.new.items ≡ list.old.items }
    ensures len { vec_len list.new ≤ vec_len list.old + 1 }
    ensures room { vec_capacity list.old ≤ vec_capacity list.new }
{
    if one.sender == player {
        return;
    }
    let between = delays.hop(one.sender as usize, player as usize);
    if let Some(incoming) = taken(one, between, was, clock) {
        put_due(list, incoming);
    }
}

/// Makes the list of what is due to a player.
pub(crate) fn gather(
    sent: &[Sent],
    delays: &Delays,
    player: u32,
    was: u64,
    clock: u64,
    list: &mut Vec<Incoming>,
)
    requires { length sent.now ≤ vec_capacity list.old }
    ensures due { (count : ℕ) → All (λ one. one.sender < count) sent.now →
        list.new.items ≡ due (hop_of delays.now) (λ j. from j sent.now) player was clock count }
    ensures room { vec_capacity list.old ≤ vec_capacity list.new }
{
    list.clear();
    for one in sent {
        gather_one(one, delays, player, was, clock, list);
    }
}

/// The clock at which the last step of a node began.
pub(crate) fn was_of<N: Node>(nodes: &[N], i: usize) -> u64
    requires { i < length nodes.now }
    ensures { result ≡ slice_index (map N.was (map N.plain nodes.now)) i }
{
    nodes[i].was()
}

/// Whether some node but its sender can still take a signal.
pub(crate) fn is_awaited_by<N: Node>(nodes: &[N], delays: &Delays, one: &Sent) -> bool
    ensures { result ≡ is_awaited (hop_of delays.now) (slice_index (map N.was (map N.plain nodes.now)))
        (length nodes.now) one.now }
{
    let mut awaited = false;
    for i in 0..nodes.len() {
        let was = was_of(nodes, i);
        let between = delays.hop(one.sender as usize, i);
        let hears = was < one.signal.clock || was - one.signal.clock < between;
        awaited = (i as u64 != u64::from(one.sender) && hears) || awaited;
    }
    awaited
}

/// Drops the signals that nobody can take any more.
pub(crate) fn drop_dead<N: Node>(sent: &mut Vec<Sent>, nodes: &[N], delays: &Delays)
    ensures items { sent.new.items
        ≡ filter (is_awaited (hop_of delays.now) (slice_index (map N.was (map N.plain nodes.now))) (length nodes.now))
        sent.old.items }
    ensures room { vec_capacity sent.new ≡ vec_capacity sent.old }
{
    sent.retain(|one| is_awaited_by(nodes, delays, one));
}
