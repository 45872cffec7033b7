#![tactic(auto)]
//! What operations do over a bus: single transfers, SWP, block transfers, and the effect of every operation with its
//! cycles.

mod blocks;
pub mod laws;
mod performing;
mod plain;
mod singles;
mod units;

pub use blocks::{load_block, store_block};
pub use performing::{perform, perform_word};
pub use plain::{is_plain, load_plain, plain_of, store_plain};
pub use singles::{load_single, offset_address, store_single, unit_load, unit_store, write_back};
pub use units::{BlockTransfer, LoadUnit, PlainBlock, SingleTransfer};
