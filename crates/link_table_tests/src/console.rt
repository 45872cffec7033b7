//! One of the consoles of a test: a node and its seat, with what it has seen of each other one.

ghost use Rattle.std.specs.Prelude.{ℕ, ◌≡◌, ◌≢◌, ◌+◌, ◌*◌, ◌<◌, ◌≤◌, ◌^◌, [], ◌∷◌, true, false, Some, length, map, slice_get, option_to_list, Option, IfSome, IfOk};
ghost use Rattle.link_rule.specs.Rule.{IsNextSignal};
ghost use Rattle.link_rule.specs.Steps.{with_written};
ghost use Rattle.link_table.specs.declared.key.Key.{Key};
ghost use Rattle.link_table.specs.Text.{script_of};
ghost use Rattle.link_table.specs.Seated.{with_made};
ghost use Rattle.link_table_tests.specs.Following.{ticked_kind, ticked_plain, heard_at, IsBefore, IsHeld, IsFresh};

use crate::ticker::Ticker;
use link_node::{Node, Signal};
use link_table::{Look, Seat, Shared};
use std::marker::Model;

/// What a console knows of a peer: the clock of the last look whose signals are all fetched, how many of its signals
/// are fetched, and how many are seen.
#[derive(Clone, Copy)]
struct Heard {
    seen: u64,
    taken: u64,
    count: u64,
}

/// A node with its seat, and what it knows of each player. That of its own player is never asked for.
#[derive(Drop)]
pub struct Console {
    node: Ticker,
    seat: Seat<Ticker>,
    heard: [Heard; 4],
}

impl Model for Console {
    ghost use Rattle.link_table_tests.specs.Following.{ConsoleState, console_state, IsFollowing};

    ghost Value = { ConsoleState };

    ghost view = { λ c. console_state c.seat };

    ghost invariant = { λ c. IsFollowing c.node c.seat c.heard };
}

/// Puts the signal of the next step, if it sends one.
fn tell(shared: &Shared<Ticker>, seat: &mut Seat<Ticker>, signal: Option<Signal>)
    requires table { seat.old.table ≡ shared.now }
    requires next { IfSome signal (λ s. (key : Key Ticker) → seat.old.key ≡ key ∷ [] →
        IsNextSignal (script_of ticked_kind ticked_plain key) seat.old.player seat.old.made.steps s) }
    requires unwritten { seat.old.made.written ≡ 0 }
    ensures { seat.new ≡ with_made seat.old (with_written seat.old.made (2 * length (option_to_list signal))) }
{
    if let Some(signal) = signal {
        shared.put_signal(seat, &signal);
    }
}

/// Whether a step may begin at this clock: it is before what was seen of each peer and the delay from there.
fn may_begin(clock: u64, seat: &Seat<Ticker>, heard: &[Heard; 4]) -> bool
    requires small { (j : ℕ) → j < seat.now.players → j ≢ seat.now.player → (heard_at heard.now j).seen < 2 ^ 40 }
    ensures allowed { result ≡ true → IsBefore clock seat.now heard.now seat.now.players }
    ensures held { result ≡ false → IsHeld clock seat.now heard.now }
{
    for peer in 0..seat.count() {
        if peer == seat.player() {
            continue;
        }
        if clock >= heard[peer as usize].seen + seat.delay(peer) {
            return false;
        }
    }
    true
}

impl Console {
    /// A console before its first step.
    pub fn new(node: Ticker, seat: Seat<Ticker>) -> Console
        requires { IsFresh node seat }
        ensures table { result.table ≡ seat.table }
        ensures player { result.player ≡ seat.player }
        ensures players { result.players ≡ seat.players }
    {
        let nothing = Heard {
            seen: 0,
            taken: 0,
            count: 0,
        };
        Console {
            node,
            seat,
            heard: [nothing; 4],
        }
    }

    /// A look at a peer.
    pub fn look(&mut self, shared: &Shared<Ticker>, peer: u32) -> Look
        requires table { self.old.table ≡ shared.now }
        requires below { peer < self.old.players }
        requires other { peer ≢ self.old.player }
        ensures { self.new ≡ self.old }
    {
        let known = self.heard[peer as usize];
        let look = shared.look(&mut self.seat, peer);
        let seen = if look.count == known.taken {
            look.clock
        } else {
            known.seen
        };
        self.heard[peer as usize] = Heard {
            seen,
            taken: known.taken,
            count: look.count,
        };
        look
    }

    /// The first signal of a peer that isn't fetched, if the last look counted one.
    pub fn fetch(&mut self, shared: &Shared<Ticker>, peer: u32) -> Option<Signal>
        requires table { self.old.table ≡ shared.now }
        requires below { peer < self.old.players }
        requires other { peer ≢ self.old.player }
        ensures { self.new ≡ self.old }
    {
        let known = self.heard[peer as usize];
        if known.taken >= known.count {
            return None;
        }
        let signal = shared.fetch(&mut self.seat, peer, known.taken);
        self.heard[peer as usize] = Heard {
            seen: known.seen,
            taken: known.taken + 1,
            count: known.count,
        };
        Some(signal)
    }

    /// The node's next step, which is told and published. It answers false, and nothing is done, where the step isn't
    /// allowed yet.
    pub fn step(&mut self, shared: &Shared<Ticker>) -> bool
        requires { self.old.table ≡ shared.now }
        ensures { self.new ≡ self.old }
    {
        if self.node.clock >= self.node.limit {
            return false;
        }
        if !may_begin(self.node.clock, &self.seat, &self.heard) {
            return false;
        }
        let signal = self.node.turn(&[]);
        tell(shared, &mut self.seat, signal);
        shared.publish(&mut self.seat, self.node.clock);
        true
    }

    /// The clock of the node.
    pub fn clock(&self) -> u64 {
        self.node.clock
    }

    /// The clock at which the node's last step began.
    pub fn was(&self) -> u64 {
        self.node.was
    }

    /// The player's number.
    pub fn player(&self) -> u32
        ensures { result ≡ self.now.player }
    {
        self.seat.player()
    }

    /// How many consoles the table has.
    pub fn count(&self) -> u32
        ensures value { result ≡ self.now.players }
        ensures few { result ≤ 4 }
    {
        self.seat.count()
    }

    /// How many signals of a peer are fetched.
    pub fn fetched(&self, peer: u32) -> u64
        requires { peer < self.now.players }
    {
        self.heard[peer as usize].taken
    }

    /// The seat.
    pub fn into_seat(self) -> Seat<Ticker>
        ensures table { result.table ≡ self.table }
        ensures player { result.player ≡ self.player }
        ensures players { result.players ≡ self.players }
    {
        let Console {
            node: _,
            seat,
            heard: _,
        } = self;
        seat
    }
}
