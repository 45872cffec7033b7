//! The lanes of a table.

ghost use Rattle.std.specs.Prelude.{ℕ, ◌≡◌, ◌+◌, ◌<◌, ◌≤◌, [], ◌∷◌, ◌++◌, length, drop, All, IfSome};
ghost use Rattle.link_order.specs.NodeKind.{kind_of};
ghost use Rattle.link_order.specs.Cut.{plain_cut, IsCable, IsSound};
ghost use Rattle.link_table.specs.Opening.{Begins};
ghost use Rattle.link_lane_tests.specs.Going.{MayGo};

use gba_store::Gate;
use link_core::Cut;
use link_lane::{Lane, Pause};
use link_node::Node;
use link_table::{Seat, Shared};
use std::alloc::Global;
use std::thread;
use std::thread::Threads;

/// Puts a lane behind the others. None where memory is wanting.
fn keep<N: Node + Drop>(lanes: &mut Vec<Lane<N>>, lane: Lane<N>) -> Option<()>
    ensures { IfSome result (λ kept. lanes.new.items ≡ lanes.old.items ++ lane ∷ []) }
{
    match lanes.push(lane) {
        Ok(()) => Some(()),
        Err(_) => None,
    }
}

/// A lane for each node, with its seat, by player number. None where memory is wanting.
fn pair_up<N: Node + Drop>(
    alloc: Global,
    cut: Cut<N>,
    shared: &Shared<N>,
    seats: Vec<Seat<N>>,
    until: u64,
) -> Option<Vec<Lane<N>>>
    requires empty { cut.sent ≡ [] }
    requires limits { All (λ node. until ≤ N.bound node) cut.consoles }
    requires begun { Begins (kind_of N.clock N.was N.next) N.plain N.bound cut shared.now seats.items }
    ensures len { IfSome result (λ lanes. length lanes.items ≡ length cut.consoles) }
    ensures may_go { IfSome result (λ lanes. All (MayGo shared.now until) lanes.items) }
{
    let count = cut.nodes().len();
    let mut seats = seats;
    let mut nodes = cut.into_nodes();
    let mut lanes = Vec::new(alloc);
    for player in 0..count {
        let node = nodes.remove(0);
        let seat = seats.remove(0);
        let Ok(lane) = Lane::new(alloc, node, seat, &[]) else {
            return None;
        };
        keep(&mut lanes, lane)?;
    }
    Some(lanes)
}

/// A new table with a lane for each node of a cut that has no signal on its way, by player number. None where memory is
/// wanting.
pub fn lanes_of<N: Node + Drop>(
    alloc: Global,
    cut: Cut<N>,
    until: u64,
) -> Option<(Shared<N>, Vec<Lane<N>>)>
    requires empty { cut.sent ≡ [] }
    requires limits { All (λ node. until ≤ N.bound node) cut.consoles }
    ensures len { IfSome result (λ made. length made.1.items ≡ length cut.consoles) }
    ensures may_go { IfSome result (λ made. All (MayGo made.0 until) made.1.items) }
{
    let Ok((shared, seats)) = Shared::begin(alloc, &cut) else {
        return None;
    };
    let lanes = pair_up(alloc, cut, &shared, seats, until)?;
    Some((shared, lanes))
}

/// Lets one lane advance.
pub fn advance_one<N: Node, G: Gate>(
    shared: &Shared<N>,
    gate: &G,
    lane: &mut Lane<N>,
    until: u64,
    end: u64,
    polls: u32,
) -> Pause
    requires may_go { MayGo shared.now until lane.old }
    requires within { end ≤ until }
    requires polls { 0 < polls }
    ensures { MayGo shared.now until lane.new }
{
    lane.advance(shared, gate, end, polls)
}

/// Lets all lanes advance, each on a thread of its own.
pub fn advance_all<R: Threads + Sync, N: Node + Send + Sync, G: Gate + Sync>(
    rt: &R,
    shared: &Shared<N>,
    gate: &G,
    lanes: &mut [Lane<N>],
    until: u64,
    polls: u32,
)
    requires may_go { All (MayGo shared.now until) lanes.old }
    requires polls { 0 < polls }
    ensures len { length lanes.new ≡ length lanes.old }
    ensures may_go { All (MayGo shared.now until) lanes.new }
{
    thread::for_each_mut(
        rt,
        lanes,
        4,
        &|_, lane: &mut Lane<N>|
            requires { MayGo shared.now until lane.now × (0 < polls) }
            ensures { MayGo shared.entry.now until lane.exit.now }
        {
            advance_one(shared, gate, lane, until, until, polls);
        },
    );
}
