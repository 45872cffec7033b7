#![tactic(auto)]
//! The prices of accesses under one wait control, worked out once for each block of addresses, so that a step finds a
//! price by one look.

mod table;

pub use table::PriceTable;
