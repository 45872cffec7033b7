#![tactic(auto)]
//! The bus of the machine: how an instruction reaches memory and devices, the regions of the address space, and what
//! accesses to them cost.

mod bus;
pub mod laws;
mod map;
mod prices;
mod region;
mod width;

pub use bus::Bus;
pub use map::{is_in_bios, is_in_inner, is_in_io, is_in_rom, region_of};
pub use prices::{WaitControl, price};
pub use region::Region;
pub use width::Width;
