//! Signals of a round that nobody has taken yet, gathered into the shell of its cut.

ghost use Rattle.std.specs.Prelude.{ℕ, ◌≡◌, ◌≢◌, ◌+◌, ◌*◌, ◌<◌, ◌≤◌, [], ◌∷◌, length, map, slice_index};
ghost use Rattle.link_node.specs.Due.{FitsWidths};
ghost use Rattle.link_order.specs.NodeKind.{kind_of};
ghost use Rattle.link_order.specs.Order.{IsAdded};
ghost use Rattle.link_table.specs.declared.key.Key.{Key};
ghost use Rattle.link_table.specs.Uniting.{pair_place};
ghost use Rattle.link_table.specs.Joining.{with_fetched};
ghost use Rattle.link_run.specs.Adding.{Adds, MayAdd, IsWaiting, WaitsIn, RestOf, PairRest, PairsRest};

use link_core::{Sent, Shell};
use link_node::{Incoming, Node};
use link_table::{Joined, Shared};

/// Adds the signals that wait for one lane.
fn add_waiting(shell: &mut Shell, waits: &[Incoming])
    requires { MayAdd (IsWaiting waits.now) shell.old.sent }
    ensures delays { shell.new.delays ≡ shell.old.delays }
    ensures adds { Adds (IsWaiting waits.now) shell.old.sent shell.new.sent }
{
    for one in waits {
        shell.add(Sent {
            sender: one.sender,
            signal: one.signal,
        });
    }
}

/// Adds the signals that wait for all lanes.
pub(crate) fn add_all_waiting(shell: &mut Shell, waits: &[Vec<Incoming>])
    requires { MayAdd (WaitsIn (map (λ list. list.items) waits.now)) shell.old.sent }
    ensures delays { shell.new.delays ≡ shell.old.delays }
    ensures adds { Adds (WaitsIn (map (λ list. list.items) waits.now)) shell.old.sent shell.new.sent }
{
    for list in waits {
        add_waiting(shell, list.as_slice());
    }
}

/// Adds a signal that arrives after the clock `was`; one that doesn't is dropped.
fn add_late(shell: &mut Shell, one: Sent, between: u64, was: u64)
    requires room { was < one.signal.clock + between → length shell.old.sent < 16384 }
    requires widths { was < one.signal.clock + between → FitsWidths one.signal }
    ensures delays { shell.new.delays ≡ shell.old.delays }
    ensures late { was < one.signal.clock + between → IsAdded one shell.old.sent shell.new.sent }
    ensures dead { one.signal.clock + between ≤ was → shell.new.sent ≡ shell.old.sent }
{
    if was < one.signal.clock || was - one.signal.clock < between {
        shell.add(one);
    }
}

/// Adds what a player hasn't fetched of a peer's signals, as far as it arrives after the clock `was`.
fn add_rest<N: Node>(
    shared: &Shared<N>,
    joined: &mut Joined<N>,
    shell: &mut Shell,
    player: u32,
    peer: u32,
    was: u64,
)
    requires table { joined.old.table ≡ shared.now }
    requires wide { length joined.old.fetched ≡ 16 }
    requires player { player < length joined.old.made }
    requires peer { peer < length joined.old.made }
    requires other { peer ≢ player }
    requires pair { pair_place player peer < 16 }
    requires may { (key : Key N) × (joined.old.key ≡ key ∷ [])
        × MayAdd (RestOf (kind_of N.clock N.was N.next) N.plain key joined.old player peer shell.old.delays was)
        shell.old.sent }
    ensures same { joined.new ≡ with_fetched joined.old joined.new.fetched }
    ensures wide { length joined.new.fetched ≡ 16 }
    ensures others { (pair : ℕ) → pair ≢ pair_place player peer →
        slice_index joined.new.fetched pair ≡ slice_index joined.old.fetched pair }
    ensures delays { shell.new.delays ≡ shell.old.delays }
    ensures adds { (key : Key N) → joined.old.key ≡ key ∷ [] →
        Adds (RestOf (kind_of N.clock N.was N.next) N.plain key joined.old player peer shell.old.delays was)
        shell.old.sent shell.new.sent }
{
    let between = shell.delays().hop(peer as usize, player as usize);
    while let Some(signal) = shared.rest(joined, player, peer) {
        add_late(
            shell,
            Sent {
                sender: peer,
                signal,
            },
            between,
            was,
        );
    }
}

/// The same of the pair of players with this number, where there are these two and they aren't one.
fn add_pair<N: Node>(
    shared: &Shared<N>,
    joined: &mut Joined<N>,
    shell: &mut Shell,
    nodes: &[N],
    pair: u32,
)
    requires table { joined.old.table ≡ shared.now }
    requires wide { length joined.old.fetched ≡ 16 }
    requires count { length joined.old.made ≡ length nodes.now }
    requires few { length nodes.now ≤ 4 }
    requires pair { pair < 16 }
    requires may { (key : Key N) × (joined.old.key ≡ key ∷ [])
        × MayAdd (PairRest (kind_of N.clock N.was N.next) N.plain key joined.old nodes.now shell.old.delays pair)
        shell.old.sent }
    ensures same { joined.new ≡ with_fetched joined.old joined.new.fetched }
    ensures wide { length joined.new.fetched ≡ 16 }
    ensures others { (other : ℕ) → other ≢ pair →
        slice_index joined.new.fetched other ≡ slice_index joined.old.fetched other }
    ensures delays { shell.new.delays ≡ shell.old.delays }
    ensures adds { (key : Key N) → joined.old.key ≡ key ∷ [] →
        Adds (PairRest (kind_of N.clock N.was N.next) N.plain key joined.old nodes.now shell.old.delays pair)
        shell.old.sent shell.new.sent }
{
    let player = pair / 4;
    let peer = pair % 4;
    if player as usize >= nodes.len() {
        return;
    }
    if peer as usize >= nodes.len() {
        return;
    }
    if peer == player {
        return;
    }
    let was = nodes[player as usize].was();
    add_rest(shared, joined, shell, player, peer, was);
}

/// The same of all pairs of players.
pub(crate) fn add_rests<N: Node>(
    shared: &Shared<N>,
    joined: &mut Joined<N>,
    shell: &mut Shell,
    nodes: &[N],
)
    requires table { joined.old.table ≡ shared.now }
    requires wide { length joined.old.fetched ≡ 16 }
    requires count { length joined.old.made ≡ length nodes.now }
    requires few { length nodes.now ≤ 4 }
    requires may { (key : Key N) × (joined.old.key ≡ key ∷ [])
        × MayAdd (PairsRest (kind_of N.clock N.was N.next) N.plain key joined.old nodes.now shell.old.delays 16)
        shell.old.sent }
    ensures delays { shell.new.delays ≡ shell.old.delays }
    ensures adds { (key : Key N) → joined.old.key ≡ key ∷ [] →
        Adds (PairsRest (kind_of N.clock N.was N.next) N.plain key joined.old nodes.now shell.old.delays 16)
        shell.old.sent shell.new.sent }
{
    for pair in 0..16 {
        add_pair(shared, joined, shell, nodes, pair);
    }
}
