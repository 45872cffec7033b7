//! A round: the consoles of a cut as lanes of one table, from its opening to the cut that they make.

ghost use Rattle.std.specs.Prelude.{ℕ, ◌≡◌, ◌+◌, ◌≤◌, ◌++◌, [], ◌∷◌, Some, length, map, slice_get, IfOk, IfErr};
ghost use Rattle.std.specs.Vec.{vec_len, vec_capacity};
ghost use Rattle.link_order.specs.NodeKind.{kind_of};
ghost use Rattle.link_table.specs.declared.key.Key.{Key};
ghost use Rattle.link_lane.specs.Following.{Follows};
ghost use Rattle.link_run.specs.Rounds.{node_of, seat_of_lane, waits_of, AreLanes, HaveBegun, Finishes};
ghost use Rattle.link_run.specs.Round.{IsRound, Begins};

use crate::gather::{add_all_waiting, add_rests};
use crate::opening::{Opened, open_lanes};
use link_core::{Cut, Shell, keep};
use link_lane::{Lane, LaneParts};
use link_node::{Incoming, Node};
use link_table::{Seat, Shared};
use std::alloc::Global;

/// What a round keeps of its cut besides the nodes, and the memory with which it makes the next one.
pub(crate) struct Spare<N: Node> {
    pub shell: Shell,
    pub nodes: Vec<N>,
    pub seats: Vec<Seat<N>>,
    pub waits: Vec<Vec<Incoming>>,
}

/// The consoles of a cut as lanes of one table, by player number. Each may advance on a thread of its own.
pub struct Round<N: Node> {
    pub shared: Shared<N>,
    pub lanes: Vec<Lane<N>>,
    pub(crate) spare: Spare<N>,
}

/// Want of memory: the cut comes back as it was.
#[derive(Drop)]
pub struct RoundRefused<N: Node> {
    pub cut: Cut<N>,
}

/// Takes lanes apart: nodes, seats and what waits go behind the others of their lists.
fn part_all<N: Node>(
    lanes: Vec<Lane<N>>,
    nodes: &mut Vec<N>,
    seats: &mut Vec<Seat<N>>,
    waits: &mut Vec<Vec<Incoming>>,
)
    requires room_of_nodes { vec_len nodes.old + length lanes.items ≤ vec_capacity nodes.old }
    requires room_of_seats { vec_len seats.old + length lanes.items ≤ vec_capacity seats.old }
    requires room_of_waits { vec_len waits.old + length lanes.items ≤ vec_capacity waits.old }
    ensures nodes { nodes.new.items ≡ nodes.old.items ++ map node_of lanes.items }
    ensures seats { seats.new.items ≡ seats.old.items ++ map seat_of_lane lanes.items }
    ensures waits { map (λ list. list.items) waits.new.items
        ≡ map (λ list. list.items) waits.old.items ++ map waits_of lanes.items }
    ensures follow { (i : ℕ) (lane : _) (key : Key N) → slice_get lanes.items i ≡ Some lane →
        lane.seat.key ≡ key ∷ [] → Follows (kind_of N.clock N.was N.next) N.plain key lane }
{
    let mut lanes = lanes;
    while !lanes.is_empty() {
        let LaneParts {
            node,
            seat,
            waiting,
        } = lanes.remove(0).into_parts();
        keep(nodes, node);
        keep(seats, seat);
        keep(waits, waiting);
    }
    lanes.destroy_empty();
}

impl<N: Node> Round<N> {
    /// A new table with a lane for each of the cut's consoles. The signals that are on their way wait for the lanes
    /// that can still take them. It takes all the memory that later calls need.
    pub fn begin(alloc: Global, cut: Cut<N>) -> Result<Round<N>, RoundRefused<N>>
        ensures made { IfOk result (λ round. Begins (kind_of N.clock N.was N.next) N.plain N.bound cut round) }
        ensures refused { IfErr result (λ refused. refused.cut ≡ cut) }
    {
        let Ok(waits) = Vec::with_capacity(alloc, 4) else {
            return Err(RoundRefused { cut });
        };
        let Ok((shared, seats)) = Shared::begin(alloc, &cut) else {
            return Err(RoundRefused { cut });
        };
        let (nodes, shell) = cut.part();
        match open_lanes(alloc, nodes, seats, shell.sent(), shell.delays()) {
            Ok(
                Opened {
                    lanes,
                    nodes,
                    seats,
                },
            ) => Ok(Round {
                shared,
                lanes,
                spare: Spare {
                    shell,
                    nodes,
                    seats,
                    waits,
                },
            }),
            Err(nodes) => Err(RoundRefused {
                cut: shell.join(nodes),
            }),
        }
    }

    /// The cut of the lanes' nodes, with all signals that some node can still take, also those that nobody has fetched.
    /// The lanes are those that `begin` gave with this table, each once and in the order of the players. It takes no
    /// memory.
    ///
    /// The global order goes on from this cut as from the one that the round began with, to any end below which all the
    /// lanes' steps began.
    pub fn finish(self) -> Cut<N>
        requires { (key : Key N) × IsRound (kind_of N.clock N.was N.next) N.plain key self }
        ensures { (key : Key N) → IsRound (kind_of N.clock N.was N.next) N.plain key self →
            (until : ℕ) → until ≤ key.limit →
            HaveBegun (kind_of N.clock N.was N.next) N.plain key until self.lanes.items →
            Finishes (kind_of N.clock N.was N.next) N.plain key until self.lanes.items result }
    {
        let Round {
            shared,
            lanes,
            spare,
        } = self;
        let Spare {
            mut shell,
            mut nodes,
            mut seats,
            mut waits,
        } = spare;
        part_all(lanes, &mut nodes, &mut seats, &mut waits);
        let mut joined = shared.meet(seats);
        shell.clear();
        add_all_waiting(&mut shell, &waits);
        add_rests(&shared, &mut joined, &mut shell, &nodes);
        shell.join(nodes)
    }
}
