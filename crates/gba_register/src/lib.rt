#![tactic(auto)]
//! The I/O registers by halfwords. Their rows stand in `specs/`: which bits of a halfword read, and which a write
//! stores. Each device has its own rows; the board puts them together. `load` and `store` make accesses of every width
//! of reads and writes of halfwords.

mod halfwords;

pub use halfwords::{Halfwords, load, store};
