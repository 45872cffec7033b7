//! What a seat of the table knows. No value of these types is made: proofs alone speak of them.

use std::collections::LinkedList;

/// What a player has seen of one peer.
pub struct Peer {
    /// The clock and the number of signals that were seen last.
    pub clock: u64,
    pub count: u64,
    /// How many of the peer's signals were fetched.
    pub taken: u64,
    /// The clock of the last look whose signals are all fetched, at first the clock at the opening.
    pub base: u64,
    /// The looks since the player's last step.
    pub looks: u64,
}

/// How far a player has come since the opening.
pub struct Progress {
    pub steps: u64,
    pub sent: u64,
    /// How many of the two words of the next signal are written.
    pub written: u64,
    /// What it has seen, by player number; always four, its own place among them.
    pub peers: LinkedList<Peer>,
}

/// What a seat knows: the table's key, and the progress of the players that it plays, `first` and those after it. A
/// seat that was joined to another has no key and plays nobody.
pub struct View<K> {
    pub key: LinkedList<K>,
    pub first: u64,
    pub records: LinkedList<Progress>,
}
