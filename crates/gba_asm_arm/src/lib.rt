#![tactic(auto)]
//! ARM statements of an assembly source: their names, their operands, and the operations that they stand for.

mod forms;
mod names;
mod operands;
mod placing;
mod statement;
mod tails;
mod transfers;

pub use forms::arm_statement;
pub use operands::shift_amount;
pub use statement::ArmStatement;
pub use tails::condition_in;
