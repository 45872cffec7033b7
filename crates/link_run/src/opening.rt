//! The lanes of a new table.

ghost use Rattle.std.specs.Prelude.{ℕ, ◌≡◌, ◌≢◌, ◌⊎◌, ◌+◌, ◌<◌, ◌≤◌, ◌^◌, ◌++◌, [], ◌∷◌, length, map, All, IfOk, IfErr};
ghost use Rattle.std.specs.Vec.{vec_len, vec_capacity};
ghost use Rattle.link_order.specs.NodeKind.{kind_of};
ghost use Rattle.link_order.specs.Order.{from};
ghost use Rattle.link_node.specs.Delays.{hop_of, AreDelays};
ghost use Rattle.link_order.specs.Due.{incoming, place_due, waiting};
ghost use Rattle.link_run.specs.Rounds.{node_of, seat_of_lane};
ghost use Rattle.link_run.specs.Opening.{CanOpen, CanOpenAll};

use link_core::{Sent, keep};
use link_inbox::Inbox;
use link_lane::{Lane, LaneParts, LaneRefused};
use link_node::{Delays, Incoming, Node};
use link_table::Seat;
use std::alloc::{AllocError, Global};

/// Puts a sent signal among those that wait for a player, where it can still take it.
fn put_one(inbox: &mut Inbox, one: &Sent, delays: &Delays, player: u32, was: u64)
    requires room { length inbox.old.waits < 16384 }
    requires early { one.now.signal.clock < 2 ^ 40 }
    requires within { AreDelays delays.now }
    ensures takes { let between = hop_of delays.now one.now.sender player in
        one.now.sender ≢ player → was < one.now.signal.clock + between →
        inbox.new.waits ≡ place_due (incoming between one.now.sender one.now.signal) inbox.old.waits }
    ensures leaves { let between = hop_of delays.now one.now.sender player in
        (one.now.sender ≡ player) ⊎ (one.now.signal.clock + between ≤ was) →
        inbox.new.waits ≡ inbox.old.waits }
    ensures len { length inbox.new.waits ≤ length inbox.old.waits + 1 }
{
    if one.sender == player {
        return;
    }
    let arrival = one.signal.clock + delays.hop(one.sender as usize, player as usize);
    if arrival > was {
        inbox.put(Incoming {
            sender: one.sender,
            arrival,
            signal: one.signal,
        });
    }
}

/// The signals that a player can still take, by arrival, then by sender.
fn opening_of(
    alloc: Global,
    sent: &[Sent],
    delays: &Delays,
    player: u32,
    was: u64,
) -> Result<Vec<Incoming>, AllocError>
    requires few { length sent.now ≤ 16384 }
    requires early { All (λ one. one.signal.clock < 2 ^ 40) sent.now }
    requires within { AreDelays delays.now }
    ensures { IfOk result (λ waits. (count : ℕ) → All (λ one. one.sender < count) sent.now →
        waits.items ≡ waiting (hop_of delays.now) (λ j. from j sent.now) player was count) }
{
    let mut inbox = Inbox::new(alloc, &[])?;
    for one in sent {
        put_one(&mut inbox, one, delays, player, was);
    }
    Ok(inbox.into_waiting())
}

/// The lane of one node. Where memory is wanting the node comes back.
fn open_lane<N: Node>(
    alloc: Global,
    node: N,
    seat: Seat<N>,
    sent: &[Sent],
    delays: &Delays,
) -> Result<Lane<N>, N>
    requires few { length sent.now ≤ 16384 }
    requires within { AreDelays delays.now }
    requires can { CanOpen (kind_of N.clock N.was N.next) N.plain N.bound node seat sent.now delays.now }
    ensures made { IfOk result (λ lane. (lane.node ≡ node) × (lane.seat ≡ seat)) }
    ensures refused { IfErr result (λ back. back ≡ node) }
{
    let Ok(opening) = opening_of(alloc, sent, delays, seat.player(), node.was()) else {
        return Err(node);
    };
    match Lane::new(alloc, node, seat, &opening) {
        Ok(lane) => Ok(lane),
        Err(refused) => {
            let LaneRefused { node, seat: _ } = refused;
            Err(node)
        }
    }
}

/// Puts the nodes of some lanes back behind others.
fn put_back<N: Node>(nodes: &mut Vec<N>, lanes: Vec<Lane<N>>)
    requires { vec_len nodes.old + length lanes.items ≤ vec_capacity nodes.old }
    ensures { nodes.new.items ≡ nodes.old.items ++ map node_of lanes.items }
{
    let mut lanes = lanes;
    while !lanes.is_empty() {
        let LaneParts {
            node,
            seat: _,
            waiting: _,
        } = lanes.remove(0).into_parts();
        keep(nodes, node);
    }
    lanes.destroy_empty();
}

/// Lanes, and the memory of the nodes and seats that are in them now.
pub(crate) struct Opened<N: Node> {
    pub lanes: Vec<Lane<N>>,
    pub nodes: Vec<N>,
    pub seats: Vec<Seat<N>>,
}

/// Puts a lane before the others of a list that has room for it.
fn put_first<N: Node>(lanes: &mut Vec<Lane<N>>, lane: Lane<N>)
    requires { vec_len lanes.old < vec_capacity lanes.old }
    ensures items { lanes.new.items ≡ lane ∷ lanes.old.items }
    ensures room { vec_capacity lanes.old ≤ vec_capacity lanes.new }
    ensures len { vec_len lanes.new ≡ vec_len lanes.old + 1 }
{
    match lanes.insert(0, lane) {
        Ok(()) => {}
        Err(_) => unreachable!(),
    }
}

/// A lane for each of at most four nodes, with its seat, in the same order. Where memory is wanting the nodes come
/// back.
pub(crate) fn open_lanes<N: Node>(
    alloc: Global,
    nodes: Vec<N>,
    seats: Vec<Seat<N>>,
    sent: &[Sent],
    delays: &Delays,
) -> Result<Opened<N>, Vec<N>>
    requires count { vec_len nodes ≤ 4 }
    requires few { length sent.now ≤ 16384 }
    requires within { AreDelays delays.now }
    requires can { CanOpenAll (kind_of N.clock N.was N.next) N.plain N.bound nodes.items seats.items sent.now
        delays.now }
    ensures nodes { IfOk result (λ opened. map node_of opened.lanes.items ≡ nodes.items) }
    ensures seats { IfOk result (λ opened. map seat_of_lane opened.lanes.items ≡ seats.items) }
    ensures empty_nodes { IfOk result (λ opened. opened.nodes.items ≡ []) }
    ensures empty_seats { IfOk result (λ opened. opened.seats.items ≡ []) }
    ensures room_of_nodes { IfOk result (λ opened. length nodes.items ≤ vec_capacity opened.nodes) }
    ensures room_of_seats { IfOk result (λ opened. length nodes.items ≤ vec_capacity opened.seats) }
    ensures refused { IfErr result (λ back. back.items ≡ nodes.items) }
{
    let mut nodes = nodes;
    let mut seats = seats;
    let Ok(mut lanes) = Vec::with_capacity(alloc, 4) else {
        return Err(nodes);
    };
    while let Some(node) = nodes.pop() {
        let Some(seat) = seats.pop() else {
            unreachable!()
        };
        match open_lane(alloc, node, seat, sent, delays) {
            Ok(lane) => put_first(&mut lanes, lane),
            Err(node) => {
                keep(&mut nodes, node);
                put_back(&mut nodes, lanes);
                return Err(nodes);
            }
        }
    }
    Ok(Opened {
        lanes,
        nodes,
        seats,
    })
}
