#![tactic(auto)]
//! A cut of a run: one to four nodes, the cable's delays and the signals that are on their way. It steps its nodes in
//! the global order, which always steps the one that is furthest behind.
//!
//! The definitions are those of `link_order`, and the laws those of `link_laws`, which is here the module `laws`.

mod burst;
mod cut;
mod horizon;
mod lists;
mod nodes;
mod shell;
mod signals;
mod whole;

pub use cut::{Cut, CutRefused};
pub use horizon::{Seen, may_step};
pub use link_laws as laws;
pub use link_order::Sent;
pub use lists::keep;
pub use shell::Shell;
pub use signals::index_of_due;
pub use whole::is_whole;
