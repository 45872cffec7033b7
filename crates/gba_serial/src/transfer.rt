//! Transfers: one that runs, and one that ended.

use link_node::LinkMode;

/// A transfer that runs. Its mode is the unit's, which can't change in a transfer.
#[derive(Clone, Copy, Debug, PartialEq, Eq)]
pub struct Running {
    /// Whether this console started it.
    pub starter: bool,
    /// The clock at which it ends.
    pub end: u64,
    /// This console's word.
    pub sent: u32,
    /// In a Normal mode the peer's word, 0 until one was received. In Multi 0: the words stand in the four halfwords.
    pub word: u32,
    /// The players whose word was received; in Multi also this console.
    pub got: [bool; 4],
}

/// A transfer that ended.
#[derive(Clone, Copy, Debug, PartialEq, Eq)]
pub struct Transfer {
    /// The clock at which it ended.
    pub end: u64,
    pub mode: LinkMode,
    /// In Multi the word of each player; in a Normal mode 0s.
    pub words: [u16; 4],
    /// This console's word.
    pub sent: u32,
    /// In a Normal mode the peer's word, all ones where none was received; in Multi 0.
    pub got: u32,
    /// In Multi whether the word of some console wasn't received.
    pub error: bool,
    /// Whether it raises the serial interrupt.
    pub interrupt: bool,
}
