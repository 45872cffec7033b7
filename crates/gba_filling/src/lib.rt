#![tactic(auto)]
//! Consoles that are being filled, number by number, and what the lines of a frozen file say of all consoles of a job.

mod drawn;
mod filling;
mod lists;
mod loose;
mod memories;
mod rows;
mod signals;

pub use drawn::Drawn;
pub use filling::{FilledParts, Filling};
pub use loose::Loose;
pub use memories::Memories;
pub use signals::Signals;
