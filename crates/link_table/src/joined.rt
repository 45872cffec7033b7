//! The seats of all players, joined to one.

ghost use Rattle.std.specs.Prelude.{ℕ, ◌≡◌, ◌≢◌, ◌+◌, ◌*◌, ◌<◌, ◌≤◌, List, [], ◌∷◌, Some, length, map, slice_get};
ghost use Rattle.std.specs.Prelude.{slice_index};
ghost use Rattle.link_order.specs.NodeKind.{kind_of};
ghost use Rattle.link_rule.specs.Rule.{peer_at};
ghost use Rattle.link_rule.specs.Steps.{Met};
ghost use Rattle.link_table.specs.declared.key.Key.{Key};
ghost use Rattle.link_table.specs.Text.{script_of};
ghost use Rattle.link_table.specs.Seated.{SeatState};
ghost use Rattle.link_table.specs.Uniting.{MayMeet, AreTaken, pair_place, IsUnited};
ghost use Rattle.link_table.specs.Joining.{AreMet, Rested, with_fetched};

use crate::key::Key;
use crate::law::{AllPlayers, Resting};
use crate::seat::{Place, Seat};
use crate::shared::Shared;
use crate::words::{clock_place, count_of, ring_place, signal_of};
use link_node::{Node, Signal};
use std::marker::Model;

/// The seat of all players, after their last steps. It keeps how many signals of each player each other one has
/// fetched, those of player i of player j at 4 * i + j.
#[derive(Drop)]
pub struct Joined<N: Node> {
    pub(crate) place: Place<N>,
    pub(crate) fetched: [u64; 16],
}

impl<N: Node> Model for Joined<N> {
    ghost use Rattle.link_order.specs.NodeKind.{kind_of};
    ghost use Rattle.link_table.specs.declared.key.Key.{Key};
    ghost use Rattle.link_table.specs.Joining.{JoinedState, joined_state, IsJoined};

    ghost Value = { JoinedState (Key N) };

    ghost view = { joined_state };

    ghost invariant = { IsJoined (kind_of N.clock N.was N.next) N.plain };
}

/// Keeps how many signals of each player a seat has fetched.
fn keep_taken<N: Node>(fetched: &mut [u64; 16], i: usize, seat: &Seat<N>)
    requires { i < 4 }
    ensures own { (j : ℕ) → j < 4 → slice_index fetched.new (pair_place i j) ≡ (peer_at seat.now.made.peers j).taken }
    ensures others { (k : ℕ) → k < 4 * i → slice_index fetched.new k ≡ slice_index fetched.old k }
{
    for j in 0..4 {
        fetched[4 * i + j] = seat.taken(j);
    }
}

/// How many signals of each player each seat has fetched.
fn taken_of<N: Node>(seats: &[Seat<N>]) -> [u64; 16]
    requires some { 0 < length seats.now }
    requires all { (seat : SeatState (Key N)) → slice_get seats.now 0 ≡ Some seat → seat.players ≡ length seats.now }
    ensures taken { AreTaken seats.now result (length seats.now) }
    ensures wide { length result ≡ 16 }
{
    let count = seats[0].count() as usize;
    let mut fetched = [0; 16];
    for i in 0..count {
        keep_taken(&mut fetched, i, &seats[i]);
    }
    fetched
}

/// The first seat's place, which has taken in the players of the others in their order.
fn unite<N: Node>(shared: &Shared<N>, seats: Vec<Seat<N>>) -> Place<N>
    requires { MayMeet shared.now seats.items }
    ensures { IsUnited (kind_of N.clock N.was N.next) N.plain shared.now seats.items result.table_id result.me }
{
    let mut rest = seats;
    let mut place = rest.remove(0).into_place();
    while !rest.is_empty() {
        let next = rest.remove(0).into_place();
        shared
            .table
            .shared
            .join_seat::<AllPlayers>(&mut place, next);
    }
    place
}

impl<N: Node> Shared<N> {
    /// Joins the seats of all players, in their order.
    pub fn meet(&self, seats: Vec<Seat<N>>) -> Joined<N>
        requires { MayMeet self.now seats.items }
        ensures table { result.table ≡ self.now }
        ensures seats { AreMet seats.items result }
        ensures wide { length result.fetched ≡ 16 }
        ensures met { (key : Key N) → result.key ≡ key ∷ [] →
            Met (script_of (kind_of N.clock N.was N.next) N.plain key) result.made }
    {
        let fetched = taken_of(&seats);
        let mut place = unite(self, seats);
        self.table.shared.load::<Resting<N>>(&mut place, 0);
        Joined { place, fetched }
    }

    /// Loads a peer's clock word and fetches the first of its signals that the player hasn't fetched. None where it has
    /// fetched all that the peer sent.
    pub fn rest(&self, joined: &mut Joined<N>, player: u32, peer: u32) -> Option<Signal>
        requires table { joined.old.table ≡ self.now }
        requires player { player < length joined.old.made }
        requires peer { peer < length joined.old.made }
        requires other { peer ≢ player }
        ensures same { joined.new ≡ with_fetched joined.old joined.new.fetched }
        ensures rest { (key : Key N) → joined.old.key ≡ key ∷ [] →
            Rested (script_of (kind_of N.clock N.was N.next) N.plain key) joined.old joined.new player peer result }
    {
        let pair = 4 * player as usize + peer as usize;
        let taken = joined.fetched[pair];
        let word = self
            .table
            .shared
            .load::<Resting<N>>(&mut joined.place, clock_place(peer));
        if count_of(word, taken) == taken {
            return None;
        }
        let place = ring_place(peer, taken);
        let head = self
            .table
            .shared
            .load::<Resting<N>>(&mut joined.place, place);
        let body = self
            .table
            .shared
            .load::<Resting<N>>(&mut joined.place, place + 1);
        joined.fetched[pair] = taken + 1;
        Some(signal_of(head, body))
    }
}
