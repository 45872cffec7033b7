#![tactic(auto)]
//! What operations do inside the processor: conditions, operands and results, data processing, status moves,
//! multiplies, branches and traps, at an address in ARM or Thumb state, and what they cost by the prices of a bus.

mod access;
mod branching;
mod conditions;
mod multiplying;
mod outcome;
mod processing;
mod site;
mod status_moves;

pub use access::{code_price, jump, jump_price, read_operand, refill_price, write_result};
pub use branching::{branch, exchange, exchange_to, interrupt, trap};
pub use conditions::condition_holds;
pub use multiplying::{
    long_product, multiply_long_price, multiply_price, product, write_long_product, write_product,
};
pub use outcome::Outcome;
pub use processing::{
    compare, compare_price, compute_op_of, compute_price, flags_of_outcome, make_outcome, operate,
    write_outcome,
};
pub use site::Site;
pub use status_moves::{read_status, write_status};
