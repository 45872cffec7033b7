//! A player's seat at the table.

ghost use Rattle.std.specs.Prelude.{ℕ, ◌≡◌, ◌≢◌, ◌<◌, ◌≤◌, [], ◌∷◌};
ghost use Rattle.link_order.specs.NodeKind.{kind_of};
ghost use Rattle.link_order.specs.Cut.{hop};
ghost use Rattle.link_rule.specs.Rule.{peer_at};
ghost use Rattle.link_table.specs.Uniting.{IsPlaceOf};
ghost use Rattle.link_table.specs.declared.key.Key.{Key};

use crate::key::Key;
use link_node::{Delays, Node};
use link_rule::View;
use std::marker::Model;

/// A place at the atomic table.
pub(crate) type Place<N> = atomic_table::Seat<(), View<Key<N>>>;

/// What a look tells: a peer's clock and how many signals it has sent since the opening.
#[derive(Clone, Copy, Debug, PartialEq, Eq)]
pub struct Look {
    pub clock: u64,
    pub count: u64,
}

/// One player's seat at a shared table. It keeps the number of signals sent, whether the next step's signal is written,
/// and how many signals of each peer were fetched.
#[derive(Drop)]
pub struct Seat<N: Node> {
    pub(crate) place: Place<N>,
    pub(crate) player: u32,
    pub(crate) players: u32,
    pub(crate) delays: Delays,
    pub(crate) sent: u64,
    pub(crate) written: bool,
    pub(crate) taken: [u64; 4],
}

impl<N: Node> Model for Seat<N> {
    ghost use Rattle.link_order.specs.NodeKind.{kind_of};
    ghost use Rattle.link_table.specs.declared.key.Key.{Key};
    ghost use Rattle.link_table.specs.Seated.{SeatState, state_of, IsSeat};

    ghost Value = { SeatState (Key N) };

    ghost view = { state_of };

    ghost invariant = { IsSeat (kind_of N.clock N.was N.next) N.plain };
}

impl<N: Node> Seat<N> {
    /// The player's number.
    pub fn player(&self) -> u32
        ensures value { result ≡ self.now.player }
        ensures below { result < self.now.players }
    {
        self.player
    }

    /// How many consoles the table's cut has, one to four.
    pub fn count(&self) -> u32
        ensures value { result ≡ self.now.players }
        ensures some { 0 < result }
        ensures few { result ≤ 4 }
    {
        self.players
    }

    /// The delay from a peer to this player, in cycles, from 1 to 1,024.
    pub fn delay(&self, peer: u32) -> u64
        requires below { peer < self.now.players }
        requires other { peer ≢ self.now.player }
        ensures value { (key : Key N) → self.now.key ≡ key ∷ [] → result ≡ hop key.cut.value peer self.now.player }
        ensures some { 0 < result }
        ensures short { result ≤ 1024 }
    {
        self.delays.hop(peer as usize, self.player as usize)
    }

    /// How many signals of a player were fetched.
    pub(crate) fn taken(&self, peer: usize) -> u64
        requires { peer < 4 }
        ensures { result ≡ (peer_at self.now.made.peers peer).taken }
    {
        self.taken[peer]
    }

    /// The seat's place at the atomic table.
    pub(crate) fn into_place(self) -> Place<N>
        ensures { IsPlaceOf (kind_of N.clock N.was N.next) N.plain self result.table_id result.me }
    {
        let Seat {
            place,
            player: _,
            players: _,
            delays: _,
            sent: _,
            written: _,
            taken: _,
        } = self;
        place
    }
}
