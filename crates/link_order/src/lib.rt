#![tactic(auto)]
//! The definitions of cuts, of the global order and of interleavings over any node, and what is proved of them for the
//! crates above. All but the type of a sent signal is in `specs/`.

mod sent;

pub use sent::Sent;
