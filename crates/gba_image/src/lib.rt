#![tactic(auto)]
//! The images that a console is made from: a BIOS, a cartridge, a save. Each is checked once, and from then on its type
//! says that it is whole.

mod backup;
mod error;
mod images;

pub use backup::Backup;
pub use error::ImageError;
pub use images::{Bios, Cartridge, ConsoleImages, LONGEST_CARTRIDGE, Save};
