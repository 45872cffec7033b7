//! The shared table.

ghost use Rattle.std.specs.Prelude.{ℕ, ◌≡◌, ◌≢◌, ◌+◌, ◌*◌, ◌%◌, ◌<◌, ◌≤◌, ◌^◌, [], ◌∷◌, Some, IfSome, IsSome, is_some, nat_lt, slice_get};
ghost use Rattle.link_order.specs.NodeKind.{kind_of};
ghost use Rattle.link_node.specs.Due.{FitsWidths};
ghost use Rattle.link_script.specs.Script.{told};
ghost use Rattle.link_rule.specs.Rule.{peer_at, IsNextSignal};
ghost use Rattle.link_rule.specs.Steps.{Looks, with_peer, fetched, with_written, MayPublish, Publishes};
ghost use Rattle.link_table.specs.declared.key.Key.{Key};
ghost use Rattle.link_table.specs.Text.{script_of};
ghost use Rattle.link_table.specs.Seated.{with_made};

use crate::key::Key;
use crate::law::{Law, Looking, Publishing, Putting, ReadingBody, ReadingHead};
use crate::seat::{Look, Seat};
use crate::words::{clock_place, count_of, ring_place, signal_of};
use atomic_table::Table;
use link_node::{Node, Signal, pack};
use link_rule::View;
use std::alloc::Global;
use std::marker::Model;

/// One table of 32,772 words: for each of four players a clock word and a ring of 4,096 signals of two words.
#[derive(Drop)]
pub struct Shared<N: Node> {
    pub(crate) table: Table<(), View<Key<N>>, Key<N>, Law<N>, Global>,
}

impl<N: Node> Model for Shared<N> {
    ghost use Rattle.std.specs.Prelude.{◌≡◌};
    ghost use Rattle.atomic_table.specs.Seated.{TableId};
    ghost use Rattle.link_rule.specs.Words.{word_count};

    ghost Value = { TableId };

    ghost view = { λ s. s.table.shared.table_id };

    ghost invariant = { λ s. s.table.shared.table_id.words ≡ word_count };
}

impl<N: Node> Shared<N> {
    /// Loads a peer's clock word. The whole count comes from the number of fetched signals and the word's 24 bits,
    /// since fewer than 4,096 aren't fetched.
    pub fn look(&self, seat: &mut Seat<N>, peer: u32) -> Look
        requires table { seat.old.table ≡ self.now }
        requires below { peer < seat.old.players }
        requires other { peer ≢ seat.old.player }
        ensures seat { seat.new ≡ with_made seat.old seat.new.made }
        ensures look { (key : Key N) → seat.old.key ≡ key ∷ [] →
            Looks (script_of (kind_of N.clock N.was N.next) N.plain key) seat.old.player peer seat.old.made
            result.clock result.count seat.new.made }
    {
        let word = self
            .table
            .shared
            .load::<Looking<N>>(&mut seat.place, clock_place(peer));
        Look {
            clock: word % (1 << 40),
            count: count_of(word, seat.taken[peer as usize]),
        }
    }

    /// The clock in a player's word, in cycles, with no seat. It serves to wait, and promises nothing of the player's
    /// lane: what a lane may rest on, `look` tells. None where there is no such player at any table.
    pub fn clock_of(&self, player: u32) -> Option<u64>
        ensures player { is_some result ≡ nat_lt player 4 }
        ensures clock { IfSome result (λ clock. clock < 2 ^ 40) }
    {
        if player < 4 {
            Some(self.table.shared.peek(clock_place(player)) % (1 << 40))
        } else {
            None
        }
    }

    /// Loads the first signal of a peer that the seat hasn't fetched, by its number. Its entry is never overwritten.
    pub fn fetch(&self, seat: &mut Seat<N>, peer: u32, index: u64) -> Signal
        requires table { seat.old.table ≡ self.now }
        requires below { peer < seat.old.players }
        requires other { peer ≢ seat.old.player }
        requires next { index ≡ (peer_at seat.old.made.peers peer).taken }
        requires counted { index < (peer_at seat.old.made.peers peer).count }
        ensures seat { seat.new
            ≡ with_made seat.old (with_peer seat.old.made peer (fetched (peer_at seat.old.made.peers peer))) }
        ensures signal { (key : Key N) → seat.old.key ≡ key ∷ [] →
            slice_get (told (script_of (kind_of N.clock N.was N.next) N.plain key) peer) index ≡ Some result }
        ensures clock { result.clock < 2 ^ 40 }
        ensures widths { FitsWidths result }
    {
        // Reading a field opens the seat to the proof: by its invariant a table has at most four players, and so a peer
        // is below 4.
        let _ = &seat.taken;
        let place = ring_place(peer, index);
        let head = self
            .table
            .shared
            .load::<ReadingHead<N>>(&mut seat.place, place);
        let body = self
            .table
            .shared
            .load::<ReadingBody<N>>(&mut seat.place, place + 1);
        seat.taken[peer as usize] = index + 1;
        signal_of(head, body)
    }

    /// Writes the signal that the console sends next into its ring.
    pub fn put_signal(&self, seat: &mut Seat<N>, signal: &Signal)
        requires table { seat.old.table ≡ self.now }
        requires next { (key : Key N) → seat.old.key ≡ key ∷ [] →
            IsNextSignal (script_of (kind_of N.clock N.was N.next) N.plain key) seat.old.player seat.old.made.steps
            signal.now }
        requires unwritten { seat.old.made.written ≡ 0 }
        ensures { seat.new ≡ with_made seat.old (with_written seat.old.made 2) }
    {
        let place = ring_place(seat.player, seat.sent);
        let (head, body) = pack(signal);
        self.table
            .shared
            .store::<Putting>(&mut seat.place, place, head);
        self.table
            .shared
            .store::<Putting>(&mut seat.place, place + 1, body);
        seat.written = true;
    }

    /// Stores the console's clock word after one or more steps, of which only the last may send a signal. Where it
    /// does, `put_signal` comes first.
    pub fn publish(&self, seat: &mut Seat<N>, clock: u64)
        requires table { seat.old.table ≡ self.now }
        requires next { (key : Key N) → seat.old.key ≡ key ∷ [] →
            MayPublish (script_of (kind_of N.clock N.was N.next) N.plain key) seat.old.player seat.old.made clock }
        ensures seat { seat.new ≡ with_made seat.old seat.new.made }
        ensures step { (key : Key N) → seat.old.key ≡ key ∷ [] →
            Publishes (script_of (kind_of N.clock N.was N.next) N.plain key) seat.old.player seat.old.made clock
            seat.new.made }
    {
        let sent = seat.sent + u64::from(seat.written);
        let word = clock + (1 << 40) * (sent % (1 << 24));
        self.table
            .shared
            .store::<Publishing<N>>(&mut seat.place, clock_place(seat.player), word);
        seat.sent = sent;
        seat.written = false;
    }
}
