#![tactic(auto)]
//! A console as the cable sees it: what a step tells its peers, the two numbers of such a signal, the delays between
//! consoles, and the laws of a node. Nothing here knows what a console does in its step.

mod delays;
mod node;
mod packing;
mod signal;

pub use delays::Delays;
pub use node::Node;
pub use packing::{pack, unpack};
pub use signal::{Incoming, LinkMode, Signal, Start};
