#![tactic(auto)]
//! Devices of the numbers that a frozen file has of a console, and of the bytes of its I/O registers.

mod audio;
mod cable;
mod checks;
mod processor;
mod units;
mod values;
mod video;
mod whole;

pub use audio::{sound, tones};
pub use cable::serial;
pub use checks::{are_sound_devices, has_status, runs_are_enabled, tones_are_sound};
pub use processor::registers;
pub use units::{channels, interrupts, keypad, timers};
pub use video::{picture, place};
pub use whole::{board, devices};
