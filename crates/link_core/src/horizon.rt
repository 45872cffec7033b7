//! How far a console may step by what it has seen of its peers.

ghost use Rattle.std.specs.Prelude.{ℕ, ◌≡◌, ◌+◌, ◌<◌, ◌≤◌, ◌^◌, ◌↔◌, length, IsTrue, All};
ghost use Rattle.link_order.specs.Interleaving.{MayStep};
ghost use Rattle.link_core.specs.Leave.{AreSeen, AreHops, IsBelowAll};

/// What a console has seen of one peer: that peer's clock when it last looked.
#[derive(Clone, Copy, Debug, PartialEq, Eq)]
pub struct Seen {
    pub clock: u64,
}

/// Whether a console at `clock` may step: it hasn't come to `until`, and nothing that a peer sends after the seen clock
/// can be due to it yet. `seen` has one entry for each peer, by player number, and `delays` the delay from that peer to
/// the console, in cycles; a console alone has none.
pub fn may_step(clock: u64, until: u64, seen: &[Seen], delays: &[u64]) -> bool
    requires many { length delays.now ≡ length seen.now }
    requires clocks { All (λ peer. peer.clock < 2 ^ 40) seen.now }
    requires short { All (λ delay. delay ≤ 1024) delays.now }
    ensures test { IsTrue result ↔ ((clock < until) × IsBelowAll clock seen.now delays.now) }

    // Whichever player i the console is, it is the interleaving's leave to step by what i has seen of each player.
    ensures leave { (i : ℕ) (known : ℕ → ℕ) (between : ℕ → ℕ → ℕ) → i ≤ length seen.now → AreSeen i known seen.now →
        AreHops i between delays.now → (IsTrue result ↔ MayStep (length seen.now + 1) i clock until known between) }
{
    for place in 0..seen.len() {
        if clock >= seen[place].clock + delays[place] {
            return false;
        }
    }
    clock < until
}
