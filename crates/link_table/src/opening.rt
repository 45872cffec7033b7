//! A table at its opening: its words, its key and its seats.

ghost use Rattle.std.specs.Prelude.{ℕ, ◌≡◌, ◌+◌, ◌*◌, ◌<◌, ◌≤◌, ◌^◌, [], ◌∷◌, List, length, map, IfOk};
ghost use Rattle.link_order.specs.NodeKind.{kind_of};
ghost use Rattle.link_rule.specs.Rule.{seat_of, opening_progress};
ghost use Rattle.link_table.specs.declared.key.Key.{Key};
ghost use Rattle.link_table.specs.Text.{script_of};
ghost use Rattle.link_table.specs.Opening.{IsLeast, HasClocks, AreDealt, IsCommon, IsUndealt, opening_seat, Begins};

use crate::key::Key;
use crate::law::OnePlayer;
use crate::seat::{Place, Seat};
use crate::shared::Shared;
use atomic_table::Table;
use gba_terms::NoMemory;
use link_core::Cut;
use link_node::{Delays, Node};
use std::alloc::{AllocError, Global};
use std::mem;
use std::snapshot::Snapshot;

/// For each of four players a clock word and a ring of 4,096 signals of two words.
const WORDS: usize = 32772;

/// So many words of 0.
fn zeros(alloc: Global, count: usize) -> Result<Vec<u64>, AllocError>
    ensures { IfOk result (λ words. length words.items ≡ count) }
{
    vec![in alloc; 0; count]
}

/// The words of a table at the opening: each node's clock in its place.
fn opening_words<N: Node>(alloc: Global, nodes: &[N]) -> Result<Vec<u64>, AllocError>
    requires { length nodes.now ≤ 4 }
    ensures { IfOk result (λ words. HasClocks (map N.clock (map N.plain nodes.now)) words.items (length nodes.now)) }
{
    let mut words = zeros(alloc, WORDS)?;
    for i in 0..nodes.len() {
        words[8193 * i] = nodes[i].clock();
    }
    Ok(words)
}

/// The least limit of some nodes.
fn least_limit<N: Node>(nodes: &[N]) -> u64
    requires { 0 < length nodes.now }
    ensures least { IsLeast (map N.bound nodes.now) result }
    ensures small { result ≤ 2 ^ 39 }
{
    let mut least = nodes[0].limit();
    for i in 0..nodes.len() {
        let limit = nodes[i].limit();
        if limit < least {
            least = limit;
        }
    }
    least
}

/// One player's seat before its first step.
fn take_seat<N: Node>(place: Place<N>, player: u32, players: u32, delays: &Delays) -> Seat<N>
    requires below { player < players }
    requires common { (key : Key N) × IsCommon (kind_of N.clock N.was N.next) N.plain key players delays.now
        × (place.me ≡ (
          seat_of key player (opening_progress (script_of (kind_of N.clock N.was N.next) N.plain key)),
          [],
        )) }
    ensures { (key : Key N) →
        place.me ≡ (seat_of key player (opening_progress (script_of (kind_of N.clock N.was N.next) N.plain key)), []) →
        result ≡ opening_seat (kind_of N.clock N.was N.next) N.plain key place.table_id player players }
{
    Seat {
        place,
        player,
        players,
        delays: *delays,
        sent: 0,
        written: false,
        taken: [0; 4],
    }
}

/// A seat for each player. A seat of all the players splits off the first of them, as often as there is another one.
fn deal<N: Node>(
    shared: &Shared<N>,
    alloc: Global,
    place: Place<N>,
    players: u32,
    delays: &Delays,
) -> Result<Vec<Seat<N>>, AllocError>
    requires table { place.table_id ≡ shared.now }
    requires some { 0 < players }
    requires common { (key : Key N) × IsCommon (kind_of N.clock N.was N.next) N.plain key players delays.now
        × IsUndealt (kind_of N.clock N.was N.next) N.plain key place.me 0 players }
    ensures { (key : Key N) → IsUndealt (kind_of N.clock N.was N.next) N.plain key place.me 0 players →
        IfOk result
        (λ seats. AreDealt (kind_of N.clock N.was N.next) N.plain key place.table_id players players seats.items) }
{
    let mut place = place;
    let mut seats = Vec::new(alloc);
    for player in 1..players {
        let others = shared.table.shared.split_seat::<OnePlayer>(&mut place);
        let first = mem::replace(&mut place, others);
        seats.push(take_seat(first, player - 1, players, delays))?;
    }
    seats.push(take_seat(place, players - 1, players, delays))?;
    Ok(seats)
}

impl<N: Node> Shared<N> {
    /// A table for the nodes of a cut, with a seat for each, by player number.
    pub fn begin(alloc: Global, cut: &Cut<N>) -> Result<(Shared<N>, Vec<Seat<N>>), NoMemory>
        ensures { IfOk result (λ made.
            Begins (kind_of N.clock N.was N.next) N.plain N.bound cut.now made.0 made.1.items) }
    {
        let nodes = cut.nodes();
        let words = opening_words(alloc, nodes)?;
        let key = Key {
            cut: Snapshot::of(cut),
            limit: least_limit(nodes),
        };
        let (table, place) = Table::of_words(alloc, &words, &key)?;
        let shared = Shared { table };
        let seats = deal(&shared, alloc, place, nodes.len() as u32, cut.delays())?;
        Ok((shared, seats))
    }
}
