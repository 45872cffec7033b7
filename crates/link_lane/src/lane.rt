//! A console with its seat, what it has heard of its peers, and what waits for it.

ghost use Rattle.std.specs.Prelude.{ℕ, ◌≡◌, ◌≢◌, ◌+◌, ◌*◌, ◌<◌, ◌≤◌, ◌^◌, [], ◌∷◌, Option, Some, None, IfOk, IfErr};
ghost use Rattle.std.specs.Prelude.{IfSome, IfNone, length, option_to_list};
ghost use Rattle.link_order.specs.NodeKind.{kind_of};
ghost use Rattle.link_order.specs.Cut.{hop};
ghost use Rattle.link_script.specs.Script.{now};
ghost use Rattle.link_rule.specs.Rule.{IsNextSignal};
ghost use Rattle.link_rule.specs.Steps.{with_peer, fetched, looked, with_written};
ghost use Rattle.link_table.specs.declared.key.Key.{Key};
ghost use Rattle.link_table.specs.Text.{script_of};
ghost use Rattle.link_table.specs.Seated.{with_made};
ghost use Rattle.link_lane.specs.declared.pause.Pause.TheVariants.{Done, Blocked};
ghost use Rattle.link_lane.specs.Following.{LaneState, Follows, Opens};
ghost use Rattle.link_inbox.specs.Waiting.{next_arrival};
ghost use Rattle.link_lane.specs.Pausing.{peer_of, IsAhead, IsAheadTo, IsCaught, HasHeardOf, HasHeard, IsNearer};
ghost use Rattle.link_lane.specs.Pausing.{IsNearest, IsStill, IsHeldUp, BeginsBelow, IsBlocked};

use crate::pause::Pause;
use crossbeam_utils::CachePadded;
use gba_store::Gate;
use link_inbox::Inbox;
use link_node::{Incoming, Node, Signal};
use link_table::{Look, Seat, Shared};
use std::alloc::Global;
use std::hint;
use std::marker::Model;

/// A peer's horizon: the clock that was seen last of it, and the first clock at which a signal that is still unseen may
/// arrive.
#[derive(Clone, Copy, Debug, PartialEq, Eq)]
pub(crate) struct Horizon {
    peer: u32,
    seen: u64,
    end: u64,
}

/// A node with its seat. It keeps the signals that wait, how many signals of each peer were fetched, and the nearest
/// horizon of all peers.
#[derive(Drop)]
pub struct Lane<N: Node> {
    node: N,
    seat: Seat<N>,
    inbox: Inbox,
    taken: [u64; 4],
    horizon: u64,
    // The lane behind this one in a list has cache lines of its own, since another thread writes them.
    apart: CachePadded<()>,
}

impl<N: Node> Model for Lane<N> {
    ghost use Rattle.link_order.specs.NodeKind.{kind_of};
    ghost use Rattle.link_lane.specs.Following.{LaneState};

    ghost Value = { LaneState N };

    ghost use Rattle.link_lane.specs.Hearing.{lane_state, IsLane};

    ghost view = { lane_state };

    ghost invariant = { IsLane (kind_of N.clock N.was N.next) N.plain N.bound };
}

/// Want of memory: node and seat come back as they were.
#[derive(Drop)]
pub struct LaneRefused<N: Node> {
    pub node: N,
    pub seat: Seat<N>,
}

/// What a lane is made of. The signals that wait stand by arrival, then by sender.
#[derive(Drop)]
pub struct LaneParts<N: Node> {
    pub node: N,
    pub seat: Seat<N>,
    pub waiting: Vec<Incoming>,
}

/// The most cycles that a lane goes on before its peers see it.
const UNSEEN: u64 = 256;

/// Puts the signal that a step sends, if it sends one.
fn tell<N: Node>(shared: &Shared<N>, seat: &mut Seat<N>, signal: Option<Signal>)
    requires table { seat.old.table ≡ shared.now }
    requires next { IfSome signal (λ s. (key : Key N) → seat.old.key ≡ key ∷ [] →
        IsNextSignal (script_of (kind_of N.clock N.was N.next) N.plain key) seat.old.player seat.old.made.steps s) }
    requires unwritten { seat.old.made.written ≡ 0 }
    ensures { seat.new ≡ with_made seat.old (with_written seat.old.made (2 * length (option_to_list signal))) }
{
    if let Some(signal) = signal {
        shared.put_signal(seat, &signal);
    }
}

/// No horizon: that of a lane that has no peer.
const NONE: Horizon = Horizon {
    peer: 0,
    seen: 0,
    end: u64::MAX,
};

impl<N: Node> Lane<N> {
    /// A lane before its first step. It takes all the memory that later calls need. `opening` are the signals that the
    /// node can still take of those that the cut has on their way, by arrival, then by sender.
    pub fn new(
        alloc: Global,
        node: N,
        seat: Seat<N>,
        opening: &[Incoming],
    ) -> Result<Lane<N>, LaneRefused<N>>
        requires { Opens (kind_of N.clock N.was N.next) N.plain N.bound node seat opening.now }
        ensures made { IfOk result (λ lane. (lane.node ≡ node) × (lane.seat ≡ seat) × (lane.waits ≡ opening.now)) }
        ensures refused { IfErr result (λ refused. (refused.node ≡ node) × (refused.seat ≡ seat)) }
    {
        let Ok(inbox) = Inbox::new(alloc, opening) else {
            return Err(LaneRefused { node, seat });
        };
        Ok(Lane {
            node,
            seat,
            inbox,
            taken: [0; 4],
            horizon: 0,
            apart: CachePadded::new(()),
        })
    }

    /// The clock of the node, in cycles.
    pub fn clock(&self) -> u64
        ensures value { result ≡ N.clock (N.plain self.now.node) }
        ensures small { result ≤ 2 ^ 39 + 511 }
        ensures follows { (key : Key N) → self.now.seat.key ≡ key ∷ [] →
            Follows (kind_of N.clock N.was N.next) N.plain key self.now }
    {
        self.node.clock()
    }

    /// The player's number.
    pub fn player(&self) -> u32
        ensures { result ≡ self.now.seat.player }
    {
        self.seat.player()
    }

    /// Node, seat and what waits. It takes no memory.
    pub fn into_parts(self) -> LaneParts<N>
        ensures node { result.node ≡ self.node }
        ensures seat { result.seat ≡ self.seat }
        ensures waiting { result.waiting.items ≡ self.waits }
        ensures follows { (key : Key N) → self.seat.key ≡ key ∷ [] →
            Follows (kind_of N.clock N.was N.next) N.plain key self }
    {
        let Lane {
            node,
            seat,
            inbox,
            taken: _,
            horizon: _,
            apart: _,
        } = self;
        LaneParts {
            node,
            seat,
            waiting: inbox.into_waiting(),
        }
    }
}

impl<N: Node> Lane<N> {
    /// How many signals of a peer were fetched.
    fn taken(&self, peer: u32) -> u64
        requires { peer < self.now.seat.players }
        ensures { result ≡ (peer_of self.now peer).taken }
    {
        self.taken[peer as usize]
    }

    /// Looks at a peer.
    fn look_at(&mut self, shared: &Shared<N>, peer: u32) -> Look
        requires table { self.old.seat.table ≡ shared.now }
        requires below { peer < self.old.seat.players }
        requires other { peer ≢ self.old.seat.player }
        ensures node { self.new.node ≡ self.old.node }
        ensures seat { self.new.seat ≡ with_made self.old.seat
            (with_peer self.old.seat.made peer (looked (peer_of self.old peer) result.clock result.count)) }
        ensures inside { peer < length self.old.seat.made.peers }
        ensures later { (peer_of self.old peer).base ≤ result.clock }
        ensures got { (peer_of self.old peer).taken ≤ result.count }
        ensures small { result.clock < 2 ^ 40 }
    {
        shared.look(&mut self.seat, peer)
    }

    /// Fetches the next signal of a peer, which waits from then on, unless it arrives too late to be taken.
    fn fetch_one(&mut self, shared: &Shared<N>, peer: u32)
        requires table { self.old.seat.table ≡ shared.now }
        requires below { peer < self.old.seat.players }
        requires other { peer ≢ self.old.seat.player }
        requires left { (peer_of self.old peer).taken < (peer_of self.old peer).count }
        ensures node { self.new.node ≡ self.old.node }
        ensures seat { self.new.seat ≡ with_made self.old.seat
            (with_peer self.old.seat.made peer (fetched (peer_of self.old peer))) }
        ensures inside { peer < length self.old.seat.made.peers }
    {
        let index = self.taken[peer as usize];
        let signal = shared.fetch(&mut self.seat, peer, index);
        self.taken[peer as usize] = index + 1;
        let arrival = signal.clock + self.seat.delay(peer);
        if arrival > self.node.was() {
            self.inbox.put(Incoming {
                sender: peer,
                arrival,
                signal,
            });
        }
    }

    /// Looks at a peer and fetches all signals that the look has counted. It answers the peer's clock.
    fn hear(&mut self, shared: &Shared<N>, peer: u32) -> u64
        requires table { self.old.seat.table ≡ shared.now }
        requires below { peer < self.old.seat.players }
        requires other { peer ≢ self.old.seat.player }
        ensures heard { HasHeardOf self.old self.new peer }
        ensures seen { result ≡ (peer_of self.new peer).clock }
        ensures small { result < 2 ^ 40 }
    {
        let look = self.look_at(shared, peer);
        for index in self.taken(peer)..look.count {
            self.fetch_one(shared, peer);
        }
        look.clock
    }

    /// Hears of a peer, unless it is the lane's own player, and answers the nearer of its horizon and the one given.
    fn nearer(&mut self, shared: &Shared<N>, peer: u32, nearest: Horizon) -> Horizon
        requires table { self.old.seat.table ≡ shared.now }
        requires below { peer < self.old.seat.players }
        ensures heard { HasHeardOf self.old self.new peer }
        ensures nearer { (key : Key N) → self.old.seat.key ≡ key ∷ [] →
            IsNearer (hop key.cut.value) self.new peer nearest result }
    {
        if peer == self.seat.player() {
            return nearest;
        }
        let seen = self.hear(shared, peer);
        let end = seen + self.seat.delay(peer);
        if end < nearest.end {
            Horizon { peer, seen, end }
        } else {
            nearest
        }
    }

    /// Hears of all peers, and answers the nearest horizon.
    fn listen(&mut self, shared: &Shared<N>) -> Horizon
        requires { self.old.seat.table ≡ shared.now }
        ensures heard { HasHeard 1 self.old.seat.players self.old self.new }
        ensures nearest { (key : Key N) → self.old.seat.key ≡ key ∷ [] →
            IsNearest (hop key.cut.value) self.new self.new.seat.players result }
    {
        let mut nearest = NONE;
        for peer in 0..self.seat.count() {
            nearest = self.nearer(shared, peer, nearest);
        }
        self.horizon = nearest.end;
        nearest
    }

    /// Hears of all peers, at most so many times, until the lane may step. It answers the nearest horizon.
    fn poll(&mut self, shared: &Shared<N>, polls: u32) -> Horizon
        requires table { self.old.seat.table ≡ shared.now }
        requires some { 0 < polls }
        ensures heard { HasHeard 1 self.old.seat.players self.old self.new }
        ensures nearest { (key : Key N) → self.old.seat.key ≡ key ∷ [] →
            IsNearest (hop key.cut.value) self.new self.new.seat.players result }
        ensures polled { result.end ≤ N.clock (N.plain self.new.node) →
            HasHeard polls self.old.seat.players self.old self.new }
    {
        let mut nearest = self.listen(shared);
        for turn in 1..polls {
            if self.clock() < nearest.end {
                return nearest;
            }
            hint::spin_loop();
            nearest = self.listen(shared);
        }
        nearest
    }

    /// The horizon that the lane waits at, after so many polls. None where it may step.
    fn held_up(&mut self, shared: &Shared<N>, polls: u32) -> Option<Horizon>
        requires table { self.old.seat.table ≡ shared.now }
        requires some { 0 < polls }
        ensures still { IsStill self.old self.new }
        ensures free { (key : Key N) → self.old.seat.key ≡ key ∷ [] → result ≡ None →
            IsAhead (hop key.cut.value) self.new (N.clock (N.plain self.new.node)) }
        ensures held { (key : Key N) → self.old.seat.key ≡ key ∷ [] → (horizon : _) → result ≡ Some horizon →
            IsHeldUp (hop key.cut.value) polls (N.clock (N.plain self.new.node)) self.old self.new horizon }
        ensures follows { (key : Key N) → self.old.seat.key ≡ key ∷ [] →
            Follows (kind_of N.clock N.was N.next) N.plain key self.new }
    {
        if self.node.clock() < self.horizon {
            return None;
        }
        let nearest = self.poll(shared, polls);
        if nearest.end > self.clock() {
            None
        } else {
            Some(nearest)
        }
    }

    /// The node's next step, with what has arrived. Its signal is put before its clock is published.
    fn step(&mut self, shared: &Shared<N>)
        requires table { self.old.seat.table ≡ shared.now }
        requires early { (key : Key N) → self.old.seat.key ≡ key ∷ [] →
            N.clock (N.plain self.old.node) < key.limit }
        requires ahead { (key : Key N) → self.old.seat.key ≡ key ∷ [] →
            IsAhead (hop key.cut.value) self.old (N.clock (N.plain self.old.node)) }
        ensures seat { self.new.seat ≡ with_made self.old.seat self.new.seat.made }
        ensures limit { N.bound self.new.node ≡ N.bound self.old.node }
        ensures later { N.clock (N.plain self.old.node) < N.clock (N.plain self.new.node) }
        ensures stepped { self.new.seat.made.steps ≡ self.old.seat.made.steps + 1 }
        ensures began { (key : Key N) → self.old.seat.key ≡ key ∷ [] →
            now (script_of (kind_of N.clock N.was N.next) N.plain key) self.old.seat.player self.old.seat.made.steps
            ≡ N.clock (N.plain self.old.node) }
    {
        self.inbox.deliver(self.node.clock());
        let signal = self.node.turn(self.inbox.due());
        tell(shared, &mut self.seat, signal);
        shared.publish(&mut self.seat, self.node.clock());
    }

    /// Steps with nothing due until the clock is at least `end` or a step sends a signal. The peers see all of them at
    /// once.
    fn go_alone(&mut self, shared: &Shared<N>, end: u64)
        requires table { self.old.seat.table ≡ shared.now }
        requires some { N.clock (N.plain self.old.node) < end }
        requires limit { (key : Key N) → self.old.seat.key ≡ key ∷ [] → end ≤ key.limit }
        requires ahead { (key : Key N) → self.old.seat.key ≡ key ∷ [] →
            IsAheadTo (hop key.cut.value) self.old end }
        requires alone { end ≤ next_arrival self.old.waits }
        ensures seat { self.new.seat ≡ with_made self.old.seat self.new.seat.made }
        ensures limit { N.bound self.new.node ≡ N.bound self.old.node }
        ensures later { N.clock (N.plain self.old.node) < N.clock (N.plain self.new.node) }
        ensures stepped { self.old.seat.made.steps < self.new.seat.made.steps }
        ensures began { (key : Key N) → self.old.seat.key ≡ key ∷ [] →
            BeginsBelow (script_of (kind_of N.clock N.was N.next) N.plain key) end self.old.seat.player
            self.old.seat.made.steps self.new.seat.made.steps }
    {
        let signal = self.node.go_alone(end);
        tell(shared, &mut self.seat, signal);
        shared.publish(&mut self.seat, self.node.clock());
    }

    /// A clock up to which the lane may go alone, no later than `until`. Where the gate is to be entered before each
    /// step there is none, and it is 0.
    fn reach<G: Gate>(&self, gate: &G, until: u64) -> u64
        ensures until { result ≤ until }
        ensures ahead { (key : Key N) → self.now.seat.key ≡ key ∷ [] →
            IsAheadTo (hop key.cut.value) self.now result }
        ensures alone { result ≤ next_arrival self.now.waits }
    {
        if !gate.is_open() {
            return 0;
        }
        until
            .min(self.horizon)
            .min(self.inbox.next_arrival())
            .min(self.node.clock() + UNSEEN)
    }

    /// Makes at least one step.
    fn go<G: Gate>(&mut self, shared: &Shared<N>, gate: &G, until: u64)
        requires table { self.old.seat.table ≡ shared.now }
        requires early { N.clock (N.plain self.old.node) < until }
        requires limit { (key : Key N) → self.old.seat.key ≡ key ∷ [] → until ≤ key.limit }
        requires ahead { (key : Key N) → self.old.seat.key ≡ key ∷ [] →
            IsAhead (hop key.cut.value) self.old (N.clock (N.plain self.old.node)) }
        ensures seat { self.new.seat ≡ with_made self.old.seat self.new.seat.made }
        ensures limit { N.bound self.new.node ≡ N.bound self.old.node }
        ensures later { N.clock (N.plain self.old.node) < N.clock (N.plain self.new.node) }
        ensures stepped { self.old.seat.made.steps < self.new.seat.made.steps }
        ensures began { (key : Key N) → self.old.seat.key ≡ key ∷ [] →
            BeginsBelow (script_of (kind_of N.clock N.was N.next) N.plain key) until self.old.seat.player
            self.old.seat.made.steps self.new.seat.made.steps }
    {
        let end = self.reach(gate, until);
        if self.node.clock() < end {
            return self.go_alone(shared, end);
        }
        gate.enter(self.player(), self.clock());
        self.step(shared);
    }

    /// Steps until the clock is at least `until`, or until the lane waits for a peer that it has looked at so many
    /// times since its last step. A lane that may step makes a step. The gate is entered before each step, with the
    /// player and the clock; where it is open it needn't be. It takes no memory, and waits for nobody.
    pub fn advance<G: Gate>(
        &mut self,
        shared: &Shared<N>,
        gate: &G,
        until: u64,
        polls: u32,
    ) -> Pause
        requires table { self.old.seat.table ≡ shared.now }
        requires limit { (key : Key N) → self.old.seat.key ≡ key ∷ [] → until ≤ key.limit }
        requires polls { 0 < polls }
        ensures seat { self.new.seat ≡ with_made self.old.seat self.new.seat.made }
        ensures limit { N.bound self.new.node ≡ N.bound self.old.node }
        ensures follows { (key : Key N) → self.old.seat.key ≡ key ∷ [] →
            Follows (kind_of N.clock N.was N.next) N.plain key self.new }
        ensures grows { self.old.seat.made.steps ≤ self.new.seat.made.steps }
        ensures began { (key : Key N) → self.old.seat.key ≡ key ∷ [] →
            BeginsBelow (script_of (kind_of N.clock N.was N.next) N.plain key) until self.old.seat.player
            self.old.seat.made.steps self.new.seat.made.steps }
        ensures done { result ≡ Done → until ≤ N.clock (N.plain self.new.node) }
        ensures waits { (peer seen : ℕ) → result ≡ Blocked peer seen → N.clock (N.plain self.new.node) < until }
        ensures blocked { (key : Key N) → self.old.seat.key ≡ key ∷ [] → (peer seen : ℕ) →
            result ≡ Blocked peer seen →
            IsBlocked (hop key.cut.value) polls (N.clock (N.plain self.new.node)) self.old self.new peer seen }
        ensures moves { (key : Key N) → self.old.seat.key ≡ key ∷ [] →
            N.clock (N.plain self.old.node) < until →
            IsAhead (hop key.cut.value) self.old (N.clock (N.plain self.old.node)) →
            self.old.seat.made.steps < self.new.seat.made.steps }
    {
        while self.clock() < until {
            if let Some(horizon) = self.held_up(shared, polls) {
                return Pause::Blocked {
                    peer: horizon.peer,
                    seen: horizon.seen,
                };
            }
            self.go(shared, gate, until);
        }
        Pause::Done
    }
}
