#![tactic(auto)]
//! Tests of the memory map: the regions and their prices, the image checks, what each address reads and stores.

mod saves;

pub use saves::fits;

#[cfg(test)]
mod images;
#[cfg(test)]
mod map;
#[cfg(test)]
mod memories;
#[cfg(test)]
mod video;
