#![tactic(auto)]
//! A console as a state file and a frozen file have it, and the frozen file of consoles on their cable.

mod console;
mod drawn;
mod file;
mod io;
pub mod laws;
mod memories;
mod reading;

pub use console::{CONSOLE_ROOM, STATE_ROOM, add_console, add_state};
pub use file::{FROZEN_ROOM, freeze};
pub use io::io_bytes;
pub use reading::Snapshot;
