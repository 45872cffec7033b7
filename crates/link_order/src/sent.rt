//! A signal with its sender.

use link_node::Signal;

/// A signal that was sent, with the player number of its sender.
#[derive(Clone, Copy, Debug, PartialEq, Eq)]
pub struct Sent {
    pub sender: u32,
    pub signal: Signal,
}
